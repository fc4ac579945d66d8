// Why a text is no script.
use sg_base::NoMemory;
use thiserror::Error;

/// Why a text is no script.
#[derive(Debug, Drop, Error)]
pub enum ScriptSyntax {
    /// There was no memory for the parts.
    #[error("no memory")]
    NoMemory,
    /// The tokens before this place may go on to a script, and what stands at it can't: a token with which no script goes
    /// on so, a byte that begins no token, or a text or a comment without an end. At the end of the text: they may go on
    /// to one, and are none.
    #[error("no script goes on so at {at}")]
    Syntax { at: usize },
}

impl From<NoMemory> for ScriptSyntax {
    ghost use Rattle.std.specs.Prelude.{◌≡◌};
    ghost use Rattle.sg_script_parse.specs.declared.error.ScriptSyntax.TheVariants.{NoMemory as no_memory};

    ghost from_gives = { λ _ error. error ≡ no_memory };

    fn from(_: NoMemory) -> Self {
        ScriptSyntax::NoMemory
    }
}
