// The fields of a row before it is made.
ghost use Rattle.std.specs.Prelude.{◌≡◌, ◌<◌, length, map, slice_set};
ghost use Rattle.sg_facts.specs.Track.{effect_of, field_at, fields_after, word_of};
ghost use Rattle.sg_facts.specs.Inside.Rows.{cleared};
ghost use Rattle.sg_track.specs.Drafts.{EachNew, IsValue, drafted};

use crate::words::{arg_word, first_word};
use sg_facts::{Call, Effect, Good, LentValue};

/// What a field of a row will be.
#[derive(Clone, Copy, Debug)]
pub(crate) enum Draft {
    /// A number.
    Number(u64),
    /// The empty text.
    Blank,
    /// An argument of the call, by its number from 0.
    Arg(u8),
}

/// Does to the fields what effects do.
pub(crate) fn draft_each(drafts: &mut [Draft], effects: &[(u8, Effect)], call: &Call, good: &Good)
    requires { EachNew IsValue call.now good.now (map (λ p. (p.0, p.1)) effects.now) (map (drafted call.now) drafts.old) }
    ensures len { length drafts.new ≡ length drafts.old }
    ensures set { map (drafted call.now) drafts.new ≡ fields_after call.now good.now (map (λ p. (p.0, p.1)) effects.now) (map (drafted call.now) drafts.old) }
{
    match effects {
        [] => {}
        [(field, effect), rest @ ..] => {
            draft_one(drafts, usize::from(*field), *effect, call, good);
            draft_each(drafts, rest, call, good)
        }
    }
}

// Does to a field what an effect does; nothing where there is no such field.
fn draft_one(drafts: &mut [Draft], at: usize, effect: Effect, call: &Call, good: &Good)
    requires { at < length drafts.old → IsValue (effect_of call.now good.now effect (field_at (map (drafted call.now) drafts.old) at)) }
    ensures len { length drafts.new ≡ length drafts.old }
    ensures set { map (drafted call.now) drafts.new ≡ slice_set (map (drafted call.now) drafts.old) at (effect_of call.now good.now effect (field_at (map (drafted call.now) drafts.old) at)) }
{
    if at < drafts.len() {
        drafts[at] = drafts[at].after(effect, call, good);
    }
}

impl Draft {
    // What an effect makes of it.
    fn after(self, effect: Effect, call: &Call, good: &Good) -> Draft
        requires { IsValue (effect_of call.now good.now effect (drafted call.now self)) }
        ensures { drafted call.now result ≡ effect_of call.now good.now effect (drafted call.now self) }
    {
        match effect {
            Effect::SetCaller => Draft::Number(u64::from(call.client)),
            Effect::SetArg(at) => Draft::Arg(at),
            Effect::AddArg(at) => Draft::Number(self.word(call) + arg_word(call, at)),
            Effect::SetRet => Draft::Number(first_word(good)),
            Effect::AddRet => Draft::Number(self.word(call) + first_word(good)),
            Effect::Clear => self.cleared(call),
            Effect::SubOne => Draft::Number(self.word(call).saturating_sub(1)),
            Effect::SubRet => Draft::Number(self.word(call).saturating_sub(first_word(good))),
        }
    }

    // The number in it; 0 for a text.
    fn word(self, call: &Call) -> u64
        ensures { result ≡ word_of (drafted call.now self) }
    {
        match self {
            Draft::Number(word) => word,
            Draft::Blank => 0,
            Draft::Arg(at) => arg_word(call, at),
        }
    }

    // 0, or the empty text.
    fn cleared(self, call: &Call) -> Draft
        ensures { drafted call.now result ≡ cleared (drafted call.now self) }
    {
        match self {
            Draft::Number(_) => Draft::Number(0),
            Draft::Blank => Draft::Blank,
            Draft::Arg(at) => match call.args.get(usize::from(at)) {
                Some(LentValue::Text(_)) => Draft::Blank,
                Some(LentValue::Word(_)) | None => Draft::Number(0),
            },
        }
    }
}
