// What happened to the clients of a value, and what the value shows. No value of these types is made: they are there for clauses.
use sg_facts::{Call, Reply};

/// What happened to a client.
pub enum LogMarkKind {
    /// It offered a call.
    Offer(Call),
    /// Its call came into the history, with this reply.
    Entry(Call, Reply),
    /// Its reply was handed over.
    Answer,
    /// It withdrew its call. Beside the call: the phases of all clients just before, as numbers from 0 in the order of the phases,
    /// and the number of entries that the history had.
    Withdraw(Call, [u8; 0], u64),
    /// It left.
    Leave,
}

/// A mark of the log: something that happened to a client, with the call and the reply of it.
pub struct LogMark {
    /// The client's number, from 1.
    pub client: u8,
    pub kind: LogMarkKind,
}

/// What a value shows to clauses.
pub struct Face {
    /// What happened to the value's clients, in its order. A clause reads an array as a list, of any length.
    pub log: [LogMark; 0],
    /// How many events made the value what it is.
    pub events: u64,
}
