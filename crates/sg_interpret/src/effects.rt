// What effects leave of fields.
ghost use Rattle.std.specs.Prelude.{◌≡◌, true, length, map, slice_set};
ghost use Rattle.sg_described.specs.sg_facts.Allowed.{sets_once};
ghost use Rattle.sg_described.specs.sg_facts.Track.{effect_of, fields_after};
ghost use Rattle.sg_described.specs.sg_facts.sg_base.declared.value.Value.TheVariants.{Word as IsWord};
ghost use Rattle.sg_described.specs.sg_slots.Carry.{words_of};
ghost use Rattle.sg_described.specs.Meaning.{fits, most_at, said};
ghost use Rattle.sg_interpret.specs.Inside.Fields.{IsFitting, word_in};

use crate::view::{argument, field};
use sg_described::{Call, Effect, LentValue};

// The word that an effect leaves; None where it leaves a text, or no number of 64 bits.
fn word_after(call: &Call, word: Option<u64>, effect: Effect, old: u64) -> Option<u64>
    ensures { result ≡ word_in (effect_of call.now (said 0 (words_of word)) effect (IsWord old)) }
{
    match effect {
        Effect::SetCaller => Some(u64::from(call.client)),
        Effect::SetArg(at) => match call.args.get(usize::from(at)) {
            Some(LentValue::Word(word)) => Some(word),
            Some(LentValue::Text(_)) => None,
            None => Some(0),
        },
        Effect::AddArg(at) => old.checked_add(argument(call, at)),
        Effect::SetRet => Some(word.unwrap_or(0)),
        Effect::AddRet => old.checked_add(word.unwrap_or(0)),
        Effect::Clear => Some(0),
        Effect::SubOne => Some(old.saturating_sub(1)),
        Effect::SubRet => Some(old.saturating_sub(word.unwrap_or(0))),
    }
}

// The word that an effect leaves, up to a greatest; None where it leaves none.
fn fitting(call: &Call, word: Option<u64>, effect: Effect, old: u64, most: u64) -> Option<u64>
    ensures { IsFitting most (effect_of call.now (said 0 (words_of word)) effect (IsWord old)) result }
{
    match word_after(call, word, effect, old) {
        Some(new) if new <= most => Some(new),
        _ => None,
    }
}

// The greatest number of a field; 0 where there is no such field.
fn most_of(most: &[u64], at: u8) -> u64
    ensures { result ≡ most_at most.now at }
{
    match most.get(usize::from(at)) {
        Some(most) => *most,
        None => 0,
    }
}

// Sets a field; nothing where there is none.
fn set_field(fields: &mut [u64], at: u8, word: u64)
    ensures len { length fields.new ≡ length fields.old }
    ensures set { map IsWord fields.new ≡ slice_set (map IsWord fields.old) at (IsWord word) }
{
    let at = usize::from(at);
    if at < fields.len() {
        fields[at] = word;
    }
}

/// Does effects to fields, by the call and the word of its Ok, as far as each leaves a word up to the greatest of its
/// field; and tells whether all do. No field has two effects.
pub(crate) fn do_effects(
    fields: &mut [u64],
    call: &Call,
    word: Option<u64>,
    effects: &[(u8, Effect)],
    most: &[u64],
) -> bool
    requires { sets_once (map (λ p. (p.0, p.1)) effects.now) ≡ true }
    ensures len { length fields.new ≡ length fields.old }
    ensures fit { result ≡ fits most.now call.now (said 0 (words_of word)) (map (λ p. (p.0, p.1)) effects.now) (map IsWord fields.old) }
    ensures left { result ≡ true → map IsWord fields.new ≡ fields_after call.now (said 0 (words_of word)) (map (λ p. (p.0, p.1)) effects.now) (map IsWord fields.old) }
{
    match effects {
        [] => true,
        [(at, effect), rest @ ..] => {
            match fitting(call, word, *effect, field(fields, *at), most_of(most, *at)) {
                Some(new) => {
                    set_field(fields, *at, new);
                    do_effects(fields, call, word, rest, most)
                }
                None => false,
            }
        }
    }
}
