// The words of the interface language that stand for facts of a service.
ghost use Rattle.std.specs.Prelude.{◌≡◌, map};
ghost use Rattle.sg_facts.specs.Words.{close_word, field_name, flag_word, parents_word};

use crate::{FieldShape, Parents};

/// The word for which parents descriptors may have.
pub fn parents_word(parents: Parents) -> &'static [u8]
    ensures { result.now ≡ parents_word parents }
{
    match parents {
        Parents::Never => b"none",
        Parents::Same => b"same",
        Parents::Cross => b"cross",
    }
}

/// The word for whether the end of a descriptor takes its descendants along.
pub fn close_word(subtree: bool) -> &'static [u8]
    ensures { result.now ≡ close_word subtree }
{
    if subtree { b"subtree" } else { b"refuse" }
}

/// The word for whether a fact holds.
pub fn flag_word(flag: bool) -> &'static [u8]
    ensures { result.now ≡ flag_word flag }
{
    if flag { b"true" } else { b"false" }
}

/// The name of a field; empty where there is no such field.
pub fn field_name(fields: &[FieldShape], field: u8) -> &'static [u8]
    ensures { result.now ≡ field_name (map (λ f. record { name = f.name.now; text = f.text }) fields.now) field }
{
    match fields.get(usize::from(field)) {
        Some(field) => field.name,
        None => b"",
    }
}
