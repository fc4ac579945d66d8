// Why a text has no history of an interface.
use sg_facts::NoMemory;
use thiserror::Error;

/// What is wrong with the entries of a text. `Syntax` in any entry line goes before every other kind; then the order counts at one
/// place.
#[derive(Clone, Copy, Debug, PartialEq, Eq)]
pub enum EntriesKind {
    /// An entry line isn't the line of an entry. The place is the first byte with which no entry's line goes on so, or the line's end.
    Syntax,
    /// The interface doesn't declare the function. The place is its name.
    UnknownFunction,
    /// There are more or fewer arguments than the function takes, or a text stands for something else, or something else for a text.
    /// The place is the function's name.
    BadArgs,
    /// The client's number is 0 or above 64. The place is the number.
    BadClient,
    /// A call's number above the greatest of 32 bits, another number above the greatest of 64 bits, a text of more than 256 bytes, or
    /// the 65,537th entry. The place is the number, the text, or the name of the function.
    Limit,
}

/// Why a text has no history of an interface.
#[derive(Debug, Drop, Error)]
pub enum EntriesError {
    /// There was no memory.
    #[error("no memory")]
    NoMemory,
    /// What is first wrong with the entries, and its place in the text, counted in bytes from 0.
    #[error("{kind:?} at {at}")]
    Fault { kind: EntriesKind, at: usize },
}

impl From<NoMemory> for EntriesError {
    ghost use Rattle.std.specs.Prelude.{◌≡◌};
    ghost use Rattle.sg_entries.specs.declared.error.EntriesError.TheVariants.{NoMemory as no_memory};

    ghost from_gives = { λ _ error. error ≡ no_memory };

    fn from(_: NoMemory) -> Self {
        EntriesError::NoMemory
    }
}
