// The words that effects set.
ghost use Rattle.std.specs.Prelude.{◌≡◌, ◌<◌, length, map, slice_set};
ghost use Rattle.sg_facts.specs.sg_base.declared.value.Value.TheVariants.{Word};
ghost use Rattle.sg_facts.specs.Track.{arg_at, effect_of, field_at, fields_after, first_word, word_of};
ghost use Rattle.sg_track.specs.Drafts.{EachNew, IsDraftWord};

use sg_facts::{Call, Effect, Fields, Good, LentValue, Value};

/// The number in a value; 0 for a text.
pub(crate) fn word_of(value: &Value) -> u64
    ensures { result ≡ word_of value.now }
{
    match value {
        Value::Word(word) => *word,
        Value::Text(_) => 0,
    }
}

/// The number in an argument, by its number from 0; 0 for a text, and where there is no argument.
pub(crate) fn arg_word(call: &Call, at: u8) -> u64
    ensures { result ≡ word_of (arg_at call.now at) }
{
    match call.args.get(usize::from(at)) {
        Some(LentValue::Word(word)) => word,
        Some(LentValue::Text(_)) | None => 0,
    }
}

/// The first word of a reply; 0 where it has none.
pub(crate) fn first_word(good: &Good) -> u64
    ensures { result ≡ first_word good.now }
{
    match good.words.get(0) {
        Some(word) => *word,
        None => 0,
    }
}

/// Does to the fields of a row what effects do, where these come to numbers alone. It takes no memory.
pub(crate) fn set_words(fields: &mut Fields, effects: &[(u8, Effect)], call: &Call, good: &Good)
    requires { EachNew IsDraftWord call.now good.now (map (λ p. (p.0, p.1)) effects.now) fields.old }
    ensures { fields.new ≡ fields_after call.now good.now (map (λ p. (p.0, p.1)) effects.now) fields.old }
{
    match effects {
        [] => {}
        [(field, effect), rest @ ..] => {
            set_word(fields, usize::from(*field), *effect, call, good);
            set_words(fields, rest, call, good)
        }
    }
}

// Does to a field what an effect does; nothing where there is no such field.
fn set_word(fields: &mut Fields, at: usize, effect: Effect, call: &Call, good: &Good)
    requires { at < length fields.old → IsDraftWord (effect_of call.now good.now effect (field_at fields.old at)) }
    ensures { fields.new ≡ slice_set fields.old at (effect_of call.now good.now effect (field_at fields.old at)) }
{
    if at < fields.len() {
        let word = new_word(&fields.as_slice()[at], effect, call, good);
        fields.set(at, Value::Word(word));
    }
}

// The number that an effect makes of a field.
fn new_word(old: &Value, effect: Effect, call: &Call, good: &Good) -> u64
    requires { IsDraftWord (effect_of call.now good.now effect old.now) }
    ensures { Word result ≡ effect_of call.now good.now effect old.now }
{
    match effect {
        Effect::SetCaller => u64::from(call.client),
        Effect::SetArg(at) => arg_word(call, at),
        Effect::AddArg(at) => word_of(old) + arg_word(call, at),
        Effect::SetRet => first_word(good),
        Effect::AddRet => word_of(old) + first_word(good),
        Effect::Clear => 0,
        Effect::SubOne => word_of(old).saturating_sub(1),
        Effect::SubRet => word_of(old).saturating_sub(first_word(good)),
    }
}
