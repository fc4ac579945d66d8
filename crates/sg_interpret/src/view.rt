// What rules see of a call.
ghost use Rattle.std.specs.Prelude.{◌≡◌};
ghost use Rattle.sg_described.specs.sg_facts.Track.{arg_at, field_at, word_of};
ghost use Rattle.sg_described.specs.sg_facts.sg_base.declared.value.Value.TheVariants.{Word as IsWord};
ghost use Rattle.std.specs.Prelude.{map};

use sg_described::{Call, LentValue};

/// What rules see of a call: the call, and the state and the fields of its row.
#[derive(Clone, Copy, Debug)]
pub(crate) struct View<'a> {
    pub call: &'a Call,
    pub state: u8,
    pub fields: &'a [u64],
}

/// The number that an argument is; 0 where there is none, or it is a text.
pub(crate) fn argument(call: &Call, at: u8) -> u64
    ensures { result ≡ word_of (arg_at call.now at) }
{
    match call.args.get(usize::from(at)) {
        Some(LentValue::Word(word)) => word,
        Some(LentValue::Text(_)) | None => 0,
    }
}

/// A field; 0 where there is none.
pub(crate) fn field(fields: &[u64], at: u8) -> u64
    ensures { IsWord result ≡ field_at (map IsWord fields.now) at }
{
    match fields.get(usize::from(at)) {
        Some(word) => *word,
        None => 0,
    }
}
