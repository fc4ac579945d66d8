// What a call is answered.
ghost use Rattle.std.specs.Prelude.{◌≡◌, ◌≤◌, true, length, take};
ghost use Rattle.sg_described.specs.sg_facts.Allowed.{sets_once};
ghost use Rattle.sg_described.specs.sg_facts.Facts.{fun_at, fun_of_shape};
ghost use Rattle.sg_described.specs.sg_facts.Limits.{most_fields};
ghost use Rattle.sg_described.specs.Described.{described_of};
ghost use Rattle.sg_described.specs.Safe.{IsPlain};
ghost use Rattle.sg_interpret.specs.Inside.Answers.{IsAnswer, IsAnswerBy};

use crate::effects::do_effects;
use crate::rules::{first_verdict, term_word};
use crate::view::View;
use sg_described::{Call, Code, Description, FunShape, MOST_FIELDS, Verdict};

/// What a call is answered.
#[derive(Clone, Copy, Debug)]
pub(crate) enum Answer {
    Refused(Code),
    /// The caller waits.
    Waits,
    Done(Left),
}

/// What an Ok leaves of a row, and its word.
#[derive(Clone, Copy, Debug)]
pub(crate) struct Left {
    pub state: u8,
    pub fields: [u64; MOST_FIELDS],
    pub word: Option<u64>,
}

/// What a call of a function is answered, by the state and the fields of its row: what the first rule that applies says,
/// and an Ok where none does.
pub(crate) fn answered(
    description: &Description,
    call: &Call,
    fun: &FunShape,
    state: u8,
    fields: [u64; MOST_FIELDS],
) -> Answer
    requires plain { IsPlain (described_of description.now) }
    requires first { 1 ≤ call.now.fun }
    requires last { call.now.fun ≤ length (described_of description.now).facts.funs }
    requires fun { fun_of_shape fun.now ≡ fun_at (described_of description.now).facts.funs call.now.fun }
    ensures { let d = described_of description.now in IsAnswer d call.now state (take (length d.most) fields) result }
{
    let view = View {
        call,
        state,
        fields: &fields[..description.most.len()],
    };
    match first_verdict(&view, description.rules(call.fun)) {
        Some(Verdict::Refuse(code)) => Answer::Refused(code),
        Some(Verdict::Wait) => Answer::Waits,
        Some(Verdict::Give(term)) => {
            let word = term_word(&view, term);
            done(description.most, call, fun, state, fields, Some(word))
        }
        None => done(description.most, call, fun, state, fields, None),
    }
}

// What a call is answered that no rule refuses or puts off, with its word: an Ok, unless it would take a field past its
// greatest number.
fn done(
    most: &[u64],
    call: &Call,
    fun: &FunShape,
    state: u8,
    fields: [u64; MOST_FIELDS],
    word: Option<u64>,
) -> Answer
    requires few { length most.now ≤ most_fields }
    requires once { sets_once (fun_of_shape fun.now).effects ≡ true }
    ensures { IsAnswerBy most.now call.now (fun_of_shape fun.now) state (take (length most.now) fields) word result }
{
    let mut left = fields;
    if do_effects(&mut left[..most.len()], call, word, fun.effects, most) {
        Answer::Done(Left {
            state: fun.leaves.state_after(call.fun, state),
            fields: left,
            word,
        })
    } else {
        Answer::Refused(Code::Overflow)
    }
}
