// What a client asks of a service.
use crate::{Args, NoMemory, TryCopy};
use std::alloc::Global;

/// A call of one client.
#[derive(Debug, PartialEq, Eq, Drop)]
pub struct Call {
    /// The client, from 1 to 64.
    pub client: u8,
    /// The function's number in its service, from 1.
    pub fun: u8,
    /// The number of the call among the client's own, from 1.
    pub seq: u32,
    /// The descriptor or parent that the function takes, 0 where it takes neither.
    pub desc: u64,
    /// The other arguments, in their order.
    pub args: Args,
}

impl TryCopy for Call {
    fn copy(&self, alloc: Global) -> Result<Self, NoMemory> {
        Ok(Call {
            args: self.args.copy(alloc)?,
            client: self.client,
            seq: self.seq,
            fun: self.fun,
            desc: self.desc,
        })
    }
}
