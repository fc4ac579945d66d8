// Why a text declares no shape by itself.
use sg_check_statements::NoMemory;
use thiserror::Error;

/// What is wrong with a text by itself, in the order in which it is looked for.
#[derive(Clone, Copy, Debug, PartialEq, Eq)]
pub enum ShapeFaultKind {
    /// There are more than `MOST_FUNS` prototypes, more than `MOST_PARAMS` parameters of one, more than `MOST_FIELDS` fields, or more than
    /// `MOST_RULES` rules of a function.
    Limit,
    /// A function has a second prototype.
    DuplicateName,
    /// A statement names a function that has no prototype.
    UnknownFunction,
    /// The first parameter of a prototype isn't the caller, a later one is a descriptor, a parent or an addend and a text, or more than one is
    /// a descriptor or a parent.
    BadParams,
    /// A field is a number here and a text there.
    MixedField,
    /// A function does two things to a field.
    TwoEffects,
    /// A function leaves two states, or a state beside the one before.
    Contradiction,
    /// A private service has parents of other clients, or a function that looks at all rows.
    PrivateLooksAround,
    /// A query takes a descriptor or a parent.
    QueryTakes,
    /// A function uses a file and takes no descriptor.
    FileWithoutDesc,
    /// A function that makes no descriptor changes a text.
    TextChanged,
    /// A function that may block makes or ends a descriptor.
    BlocksOrMakes,
    /// A function leaves the state of one that doesn't leave its own.
    StateOfOther,
    /// A function that makes a descriptor is a query, ends one or takes one.
    MakesOn,
    /// A function that neither makes a descriptor nor is a query takes none.
    ActsOnNone,
    /// A function takes a parent where descriptors have none.
    NoParents,
    /// A replayed function writes a file.
    ReplayWrites,
    /// An argument of a replayed function goes into no field, or into two.
    ArgumentLost,
    /// A replayed function leaves a field unknown, where descriptors have parents.
    ReplayUnknown,
    /// A recover step makes a descriptor.
    RecoverMakes,
    /// A fact at the head says otherwise than the statements.
    WrongFact,
}

/// What is wrong with a text by itself, and where.
#[derive(Clone, Copy, Debug, PartialEq, Eq)]
pub struct ShapeFault {
    pub kind: ShapeFaultKind,
    /// The place in the text, counted from 0.
    pub at: usize,
}

/// Why a text has no shape.
#[derive(Debug, Drop, Error)]
pub enum ShapeError {
    /// There was no memory.
    #[error("no memory")]
    NoMemory,
    /// The first thing that is wrong with it.
    #[error("{0:?}")]
    Fault(ShapeFault),
}

impl From<NoMemory> for ShapeError {
    ghost use Rattle.std.specs.Prelude.{◌≡◌};
    ghost use Rattle.sg_shape.specs.declared.fault.ShapeError.TheVariants.{NoMemory as no_memory};

    ghost from_gives = { λ _ error. error ≡ no_memory };

    fn from(_: NoMemory) -> Self {
        ShapeError::NoMemory
    }
}
