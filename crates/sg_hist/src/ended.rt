// How a run ended.
use crate::History;
use sg_facts::{Call, ListOf, NoMemory, Trace, TryCopy};
use std::alloc::Global;

/// How a client ended.
#[derive(Debug, PartialEq, Eq, Drop)]
pub enum End {
    /// All its calls were answered.
    Done,
    /// It waits in this call.
    Blocked(Call),
}

/// Clients with their ends, in ascending numbers.
pub type EndList = ListOf<(u8, End)>;

/// What a run came to: the calls that were done, what was done to the service, and how each client with a call ended.
#[derive(Debug, Drop)]
pub struct Ended {
    pub history: History,
    pub trace: Trace,
    pub ends: EndList,
}

impl TryCopy for End {
    fn copy(&self, alloc: Global) -> Result<Self, NoMemory> {
        match self {
            End::Done => Ok(End::Done),
            End::Blocked(call) => Ok(End::Blocked(call.copy(alloc)?)),
        }
    }
}
