// Why a text is no script for an interface.
use sg_facts::NoMemory;
use thiserror::Error;

/// What is wrong with a script, in the order that counts at one place.
#[derive(Clone, Copy, Debug, PartialEq, Eq)]
pub enum ScriptKind {
    /// The text is no script of the grammar. The place is the first byte or token with which no script goes on so, or the
    /// text's length.
    Syntax,
    /// No interface that the script is for declares the function. The place is the call's name.
    UnknownFunction,
    /// No interface that the script is for is of the service. The place is the service's name.
    UnknownService,
    /// There are more or fewer arguments than parameters, or a text stands for something else, or something else for a text,
    /// or a `$` number is 0 or not less than the call's own number. The place is the call's name.
    BadArgs,
    /// A client's number is 0 or above 64. The place is the number.
    BadClient,
    /// A second `setup` or `schedule`, a second `stop` for one service, or a second part of one client. The place is its first
    /// word.
    Twice,
    /// A stop number is 0 or not above the one before it. The place is the number.
    NotAscending,
    /// A function that may block, in `setup`. The place is the call's name.
    Blocking,
    /// A number above the greatest of 64 bits, a text of more than 256 bytes, the 65,537th call or the 65th stop of a service.
    /// The place is the number, the text, the call's name, or the stop's number.
    Limit,
}

/// What is wrong with a script, and where.
#[derive(Clone, Copy, Debug, PartialEq, Eq)]
pub struct ScriptFault {
    /// The place in the script, counted in bytes from 0.
    pub at: usize,
    pub kind: ScriptKind,
}

/// Why a text is no script.
#[derive(Debug, Drop, Error)]
pub enum ScriptError {
    /// There was no memory.
    #[error("no memory")]
    NoMemory,
    /// What is first wrong with it.
    #[error("{0:?}")]
    Fault(ScriptFault),
}

impl From<NoMemory> for ScriptError {
    ghost use Rattle.std.specs.Prelude.{◌≡◌};
    ghost use Rattle.sg_script.specs.declared.fault.ScriptError.TheVariants.{NoMemory as no_memory};

    ghost from_gives = { λ _ error. error ≡ no_memory };

    fn from(_: NoMemory) -> Self {
        ScriptError::NoMemory
    }
}
