// The parts of a script, as they are written.
use crate::args::WrittenArgList;
use sg_base::ListOf;
use sg_lex::{Spelled, SpelledList};

/// The calls of a part.
pub type WrittenCallList<'a> = ListOf<WrittenCall<'a>>;
/// The parts of a script.
pub type PartList<'a> = ListOf<Part<'a>>;

/// An argument of a call.
#[derive(Debug, Drop)]
pub enum WrittenArg<'a> {
    /// A number.
    Number(Spelled<'a>),
    /// A text, its quotes with it.
    Text(Spelled<'a>),
    /// `$` and this number.
    Back(Spelled<'a>),
}

/// A call.
#[derive(Debug, Drop)]
pub struct WrittenCall<'a> {
    /// The name of its function.
    pub name: Spelled<'a>,
    pub args: WrittenArgList<'a>,
}

/// A part of a script. `at` is the place of its first word.
#[derive(Debug, Drop)]
pub enum Part<'a> {
    /// `setup`: calls that come first of all.
    Setup {
        at: usize,
        calls: WrittenCallList<'a>,
    },
    /// `client`: its number and its calls.
    Client {
        at: usize,
        number: Spelled<'a>,
        calls: WrittenCallList<'a>,
    },
    /// `schedule`: the numbers of clients, turn by turn.
    Schedule {
        at: usize,
        numbers: SpelledList<'a>,
    },
    /// `stop`: the numbers of the points at which a service stops, and its name where the script is for several.
    Stop {
        at: usize,
        service: Option<Spelled<'a>>,
        numbers: SpelledList<'a>,
    },
}
