// What a described service does with a call.
ghost use Rattle.std.specs.Prelude.{◌≡◌};
ghost use Rattle.sg_described.specs.sg_facts.Kinds.{MayAsk};
ghost use Rattle.sg_described.specs.sg_slots.Decide.{Decides};
ghost use Rattle.sg_described.specs.sg_slots.Slots.{object_of};
ghost use Rattle.sg_described.specs.Described.{described_of};
ghost use Rattle.sg_described.specs.Meaning.{described_parts, described_table};
ghost use Rattle.sg_described.specs.Safe.{IsPlain};
ghost use Rattle.sg_interpret.specs.DescribedRow.{described_body};
ghost use Rattle.sg_interpret.specs.Inside.Deciding.{on_entry, on_making};

use crate::DescribedEntry;
use crate::answer::{Answer, Left, answered};
use sg_described::{Call, Decision, Description, MOST_FIELDS, Slots};

/// What to do with a call. It takes no memory.
pub(crate) fn decide(
    description: &Description,
    slots: &Slots<DescribedEntry>,
    call: &Call,
) -> Decision<DescribedEntry>
    requires plain { IsPlain (described_of description.now) }
    requires may { MayAsk (described_of description.now).facts (object_of (described_body (described_of description.now)) slots.now) call.now }
    ensures { let d = described_of description.now in Decides d.facts (described_table d) (described_parts d) (described_body d) slots.now call.now result }
{
    let fun = description.shape.fun(call.fun);
    if fun.is_creation() {
        let answer = answered(description, call, &fun, call.fun, [0; MOST_FIELDS]);
        return made(call, answer);
    }
    match slots.get(call.desc) {
        Some(entry) => {
            let answer = answered(description, call, &fun, entry.state, entry.fields);
            changed(entry, fun.is_terminal(), answer)
        }
        None => unreachable!(),
    }
}

// What to do with a call that makes a descriptor.
fn made(call: &Call, answer: Answer) -> Decision<DescribedEntry>
    ensures { result ≡ on_making call.now answer }
{
    match answer {
        Answer::Refused(code) => Decision::Refuse(code),
        Answer::Waits => Decision::Block,
        Answer::Done(left) => made_as(call, left),
    }
}

// What to do with a call that makes a descriptor and is done.
fn made_as(call: &Call, left: Left) -> Decision<DescribedEntry>
    ensures { result ≡ on_making call.now (Answer.Done left) }
{
    let Left {
        state,
        fields,
        word,
    } = left;
    Decision::Make {
        entry: DescribedEntry {
            made: call.fun,
            creator: call.client,
            state,
            fields,
        },
        word,
    }
}

// What to do with a call on a descriptor, which ends it or doesn't.
fn changed(entry: &DescribedEntry, ends: bool, answer: Answer) -> Decision<DescribedEntry>
    ensures { result ≡ on_entry entry.now ends answer }
{
    match answer {
        Answer::Refused(code) => Decision::Refuse(code),
        Answer::Waits => Decision::Block,
        Answer::Done(left) => changed_as(entry, ends, left),
    }
}

// What to do with a call on a descriptor that is done.
fn changed_as(entry: &DescribedEntry, ends: bool, left: Left) -> Decision<DescribedEntry>
    ensures { result ≡ on_entry entry.now ends (Answer.Done left) }
{
    if ends {
        return Decision::Remove;
    }
    let Left {
        state,
        fields,
        word,
    } = left;
    Decision::Set {
        entry: DescribedEntry {
            state,
            fields,
            ..*entry
        },
        word,
    }
}
