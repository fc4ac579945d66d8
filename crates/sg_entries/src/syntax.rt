// Why a line is no entry.
use sg_facts::NoMemory;
use thiserror::Error;

/// Why a line is no entry.
#[derive(Debug, Drop, Error)]
pub enum EntrySyntax {
    /// There was no memory for the arguments or the words.
    #[error("no memory")]
    NoMemory,
    /// The bytes before this place begin an entry's line, and with the byte at it they don't. At the length of the line:
    /// its bytes begin an entry's line, and are none.
    #[error("no entry goes on so at {at}")]
    Syntax { at: usize },
}

impl From<NoMemory> for EntrySyntax {
    ghost use Rattle.std.specs.Prelude.{◌≡◌};
    ghost use Rattle.sg_entries.specs.declared.syntax.EntrySyntax.TheVariants.{NoMemory as no_memory};

    ghost from_gives = { λ _ error. error ≡ no_memory };

    fn from(_: NoMemory) -> Self {
        EntrySyntax::NoMemory
    }
}
