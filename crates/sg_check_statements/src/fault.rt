// Why a text is no interface that can be recovered.
use sg_facts::NoMemory;
use thiserror::Error;

/// What is wrong with an interface, in the order in which it is looked for.
#[derive(Clone, Copy, Debug, PartialEq, Eq)]
pub enum CheckKind {
    /// The service isn't one of those that there are.
    UnknownService,
    /// A function has a second prototype.
    DuplicateName,
    /// A prototype is of a function that the service hasn't, or a statement names one that has no prototype here.
    UnknownFunction,
    /// The parameters of a prototype aren't those of the function.
    BadParams,
    /// A fact isn't the service's.
    WrongFact,
    /// The flags of a function, or the state that it leaves, aren't the service's.
    WrongFlag,
    /// The effects of a function aren't the service's.
    WrongEffect,
    /// The service has no such transition.
    ForeignTransition,
    /// The service has no such recover step.
    ForeignRecover,
    /// No function makes a descriptor.
    NoCreation,
    /// A function can't be called in any state that a descriptor can come to, and is no recover step.
    Unreached,
    /// A state that a descriptor can come to has no walk.
    NoWalk,
}

/// What is wrong with an interface, and where.
#[derive(Clone, Copy, Debug, PartialEq, Eq)]
pub struct CheckFault {
    pub kind: CheckKind,
    /// The place in the text, counted from 0.
    pub at: usize,
}

/// Why a text is not accepted.
#[derive(Debug, Drop, Error)]
pub enum CheckError {
    /// There was no memory.
    #[error("no memory")]
    NoMemory,
    /// The first thing that is wrong with it.
    #[error("{0:?}")]
    Fault(CheckFault),
}

impl From<NoMemory> for CheckError {
    ghost use Rattle.std.specs.Prelude.{◌≡◌};
    ghost use Rattle.sg_check_statements.specs.declared.fault.CheckError.TheVariants.{NoMemory as no_memory};

    ghost from_gives = { λ _ error. error ≡ no_memory };

    fn from(_: NoMemory) -> Self {
        CheckError::NoMemory
    }
}
