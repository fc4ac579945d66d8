// What can be wrong with what a text says of answers.
use sg_shape::NoMemory;
use thiserror::Error;

/// What can be wrong with what the text of an interface says of answers and numbers, in the order in which it is looked for.
#[derive(Clone, Copy, Debug, PartialEq, Eq)]
pub enum AnswerFaultKind {
    /// The text has something that can be written, and can't be judged yet: parents, `subtree`, files, a query, a function that looks at all
    /// rows, a text in a field or of a replayed function, a unique key, or a rule about other rows.
    NotYet,
    /// No field has this name, or, in a rule, no field and no function.
    UnknownField,
    /// No code has this name.
    UnknownCode,
    /// A rule refuses with a code that the guard alone gives.
    GuardsCode,
    /// The function has no number at this place among its parameters.
    NoArgument,
    /// A number is above the greatest of 64 bits.
    TooBig,
    /// What a function answers is said a second time.
    TwoAnswers,
    /// The greatest number of a field is said a second time.
    TwoLimits,
    /// A rule lets callers of a function wait that may not block.
    MayNotBlock,
    /// A field takes the word that a function returns, and some Ok of it has none.
    NoWord,
    /// A function that ends its descriptor gives a word.
    EndsWithWord,
    /// A function is said to do something outside that can't be done again, and makes no descriptor.
    NotExternal,
}

/// What is wrong with what a text says of answers, and where.
#[derive(Clone, Copy, Debug, PartialEq, Eq)]
pub struct AnswerFault {
    pub kind: AnswerFaultKind,
    /// The place in the text, counted from 0.
    pub at: usize,
}

/// Why a text describes no service.
#[derive(Debug, Drop, Error)]
pub enum AnswerError {
    /// There was no memory.
    #[error("no memory")]
    NoMemory,
    /// The first thing that is wrong with it.
    #[error("{0:?}")]
    Fault(AnswerFault),
}

impl From<NoMemory> for AnswerError {
    ghost use Rattle.std.specs.Prelude.{◌≡◌};
    ghost use Rattle.sg_describe.specs.declared.fault.AnswerError.TheVariants.{NoMemory as no_memory};

    ghost from_gives = { λ _ error. error ≡ no_memory };

    fn from(_: NoMemory) -> Self {
        AnswerError::NoMemory
    }
}
