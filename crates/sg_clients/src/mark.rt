// What happened to clients, in its order.
use sg_facts::ListOf;

/// What happened to a client.
#[derive(Clone, Copy, Debug, PartialEq, Eq)]
pub enum MarkKind {
    /// It offered a call.
    Offer,
    /// Its call came into the history.
    Entry,
    /// Its reply was handed over.
    Answer,
    /// It withdrew its call.
    Withdraw,
    /// It left.
    Leave,
}

/// Something that happened to a client.
#[derive(Clone, Copy, Debug, PartialEq, Eq)]
pub struct Mark {
    /// From 1.
    pub client: u8,
    pub kind: MarkKind,
}

/// What happened, in its order.
pub type MarkList = ListOf<Mark>;
