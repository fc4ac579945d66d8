// What is wrong with a text that describes a service of its own.
use sg_check::CheckKind;
use sg_describe::{AnswerFaultKind, NoMemory, ShapeFaultKind};
use sg_safe::Unsafe;
use thiserror::Error;

/// Why a described service can't be recovered, in the order in which it is looked for.
#[derive(Clone, Copy, Debug, PartialEq, Eq)]
pub enum SafetyKind {
    /// A field takes returned words, and its greatest number is far too great for a field that counts.
    CountsFar,
    /// A replayed function adds to a field that takes returned words.
    Recounts,
    /// A client that waits may be let pass by a function that is no wake-up.
    Overtaken,
    /// A replayed function sets a field to its caller that may hold no client.
    NoClient,
    /// A rule may refuse a replayed call, or make it wait.
    Refusable,
    /// A replayed call may take a field past its greatest number.
    Overflows,
}

/// What is wrong with a text that describes a service of its own, in the order in which it is looked for.
#[derive(Clone, Copy, Debug, PartialEq, Eq)]
pub enum OwnKind {
    /// Something is wrong with the shape that it declares.
    Shape(ShapeFaultKind),
    /// Something is wrong with what it says of answers and numbers.
    Answers(AnswerFaultKind),
    /// The service can't be recovered.
    Safety(SafetyKind),
    /// It makes no descriptor, a function isn't reached, or a state has no walk.
    Walks(CheckKind),
}

/// What is wrong with a text that describes a service of its own, and where.
#[derive(Debug, Drop)]
pub struct OwnFault {
    pub kind: OwnKind,
    /// The place in the text, counted from 0.
    pub at: usize,
    /// Why the service can't be recovered, where it is that.
    pub reason: Option<Unsafe>,
}

/// Why a text that describes a service of its own isn't accepted.
#[derive(Debug, Drop, Error)]
pub enum OwnError {
    /// There was no memory.
    #[error("no memory")]
    NoMemory,
    /// The first thing that is wrong with it.
    #[error("{0:?}")]
    Fault(OwnFault),
}

impl From<NoMemory> for OwnError {
    ghost use Rattle.std.specs.Prelude.{◌≡◌};
    ghost use Rattle.sg_own.specs.declared.fault.OwnError.TheVariants.{NoMemory as no_memory};

    ghost from_gives = { λ _ error. error ≡ no_memory };

    fn from(_: NoMemory) -> Self {
        OwnError::NoMemory
    }
}
