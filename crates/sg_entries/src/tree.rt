// What an entry's line is read to.
use sg_facts::{Code, ListOf};
use sg_lex::{Spelled, SpelledList};

/// The arguments of a call.
pub type WrittenArgList<'a> = ListOf<WrittenArg<'a>>;

/// An argument of a call.
#[derive(Debug, Drop)]
pub enum WrittenArg<'a> {
    /// A number.
    Number(Spelled<'a>),
    /// A text.
    Text(Spelled<'a>),
}

/// What a call was answered.
#[derive(Debug, Drop)]
pub enum WrittenAnswer<'a> {
    /// `refused`, and why.
    Refused(Code),
    /// `ok`, and what it gave.
    Ok {
        /// The descriptor, which isn't 0.
        desc: Option<Spelled<'a>>,
        /// At most four words.
        words: SpelledList<'a>,
        /// The bytes, where the function shows them.
        bytes: Option<Spelled<'a>>,
    },
}

/// An entry: a call, and what it was answered.
#[derive(Debug, Drop)]
pub struct WrittenEntry<'a> {
    /// The number of the client.
    pub client: Spelled<'a>,
    /// The number of the call among those of the client.
    pub seq: Spelled<'a>,
    /// The name of the function.
    pub name: Spelled<'a>,
    pub args: WrittenArgList<'a>,
    pub answer: WrittenAnswer<'a>,
}

/// The outline of an entry: its client, number and function, and how many arguments it has.
#[derive(Debug, Drop)]
pub struct EntryOutline<'a> {
    /// The number of the client.
    pub client: Spelled<'a>,
    /// The number of the call among those of the client.
    pub seq: Spelled<'a>,
    /// The name of the function.
    pub name: Spelled<'a>,
    /// How many arguments there are.
    pub args: usize,
}
