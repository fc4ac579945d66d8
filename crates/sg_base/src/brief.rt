// A call of words in brief, and which kind of record one is.
use crate::Code;

/// Why a call was made.
#[derive(Clone, Copy, Debug)]
pub enum Why {
    /// Its own client made it.
    Own,
    /// It is the k-th, from 1, of the walk of the row with this id, in the turn of this client.
    Walk { id: u64, k: u8, turn: u8 },
}

/// What a call gave.
#[derive(Clone, Copy, Debug)]
pub enum Gave {
    /// An Ok without bytes, with this descriptor, 0 for none.
    Good { desc: u64 },
    /// It was refused.
    Refused(Code),
    /// The caller has to wait.
    Blocks,
    /// The service stopped.
    Stopped,
    /// There was no memory.
    NoMemory,
}

/// Of which kind is what a call gave.
#[derive(Clone, Copy, Debug, PartialEq, Eq)]
pub enum GaveKind {
    Replied,
    Blocks,
    Stopped,
    NoMemory,
}

/// Of which kind a record is: in brief, why its call was made and of which kind is what it gave, and no word of it; or whole.
#[derive(Clone, Copy, Debug, PartialEq, Eq)]
pub enum RecordKind {
    /// Its own client's call.
    Own(GaveKind),
    /// A walk's call.
    Walk(GaveKind),
    /// It is kept whole.
    Whole,
}

/// A call whose arguments are all words, why it was made and what it gave. The words of its arguments and of its reply stand beside it.
#[derive(Clone, Copy, Debug)]
pub struct Brief {
    /// The number of points asked when it ended.
    pub points: u64,
    /// Its descriptor or parent under the service's ids.
    pub real: u64,
    /// Its descriptor or parent under the clients' ids.
    pub desc: u64,
    pub client: u8,
    pub seq: u32,
    pub fun: u8,
    pub why: Why,
    pub gave: Gave,
}
