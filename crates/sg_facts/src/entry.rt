// A call that was done.
use sg_base::{Call, NoMemory, Reply, TryCopy};
use std::alloc::Global;

/// A call with its reply.
#[derive(Debug, PartialEq, Eq, Drop)]
pub struct Entry {
    pub call: Call,
    pub reply: Reply,
}

impl TryCopy for Entry {
    fn copy(&self, alloc: Global) -> Result<Self, NoMemory> {
        Ok(Entry {
            call: self.call.copy(alloc)?,
            reply: self.reply.copy(alloc)?,
        })
    }
}
