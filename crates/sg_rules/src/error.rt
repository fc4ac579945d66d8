// Why a text has no tree.
use sg_base::NoMemory;
use thiserror::Error;

/// Why a text has no tree.
#[derive(Debug, Drop, Error)]
pub enum ParseError {
    /// There was no memory for the tree.
    #[error("no memory")]
    NoMemory,
    /// What comes before this place may go on to a sentence, and no token begins at it, or a text or a comment without
    /// an end does.
    #[error("no token at {at}")]
    Lex { at: usize },
    /// The tokens before this place may go on to a sentence, and with the token at it they can't. At the end of the
    /// text: they may go on to one, and are none.
    #[error("no sentence goes on so at {at}")]
    Syntax { at: usize },
}

impl From<NoMemory> for ParseError {
    ghost use Rattle.std.specs.Prelude.{◌≡◌};
    ghost use Rattle.sg_rules.specs.declared.error.ParseError.TheVariants.{NoMemory as no_memory};

    ghost from_gives = { λ _ error. error ≡ no_memory };

    fn from(_: NoMemory) -> Self {
        ParseError::NoMemory
    }
}
