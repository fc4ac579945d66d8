// One open file.
ghost use Rattle.std.specs.Prelude.{◌≡◌, IfOk};

use sg_facts::{Bytes, NoMemory, TryCopy};
use sg_slots::Slot;
use std::alloc::Global;

/// A descriptor of a file.
#[derive(Debug, Drop)]
pub struct OpenFile {
    /// The client that made it.
    pub creator: u8,
    /// The descriptor above it, 0 for none.
    pub parent: u64,
    /// Its own part of its path.
    pub name: Bytes,
    /// Where it reads and writes next, in bytes from the start of the file.
    pub place: u64,
}

impl Slot for OpenFile {
    ghost use Rattle.sg_ramfs.specs.RamfsRow.{file_body};

    ghost body = { file_body };
}

impl OpenFile {
    /// A copy of the descriptor that reads and writes next at another place.
    pub(crate) fn moved(&self, alloc: Global, place: u64) -> Result<OpenFile, NoMemory>
        ensures { IfOk result (λ moved. moved ≡ record self.now { place = place }) }
    {
        Ok(OpenFile {
            name: self.name.copy(alloc)?,
            creator: self.creator,
            parent: self.parent,
            place,
        })
    }
}
