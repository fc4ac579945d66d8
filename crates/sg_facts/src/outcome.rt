// What asking a service gives.
ghost use Rattle.std.specs.Prelude.{◌≡◌, ◌≤◌, IfOk, length};
ghost use Rattle.sg_facts.specs.Limits.{most_path, most_written};

use crate::{MOST_PATH, MOST_WRITTEN};
use sg_base::{Bytes, ListRoom, NoMemory, Path, Reply, TryCopy};
use std::alloc::Global;

/// Bytes that were written into a file.
#[derive(Debug, PartialEq, Eq, Drop)]
pub struct Patch {
    /// The file's path.
    pub key: Path,
    /// Where the first byte stands, from 0; at most the length of the file before.
    pub from: u32,
    pub bytes: Bytes,
}

/// What asking a service gives.
#[derive(Debug, Drop)]
pub enum Outcome {
    /// It replied, and wrote these bytes where it wrote any.
    Replied { reply: Reply, patch: Option<Patch> },
    /// The caller has to wait.
    Blocks,
    /// It stopped within the effect; nothing is known of its value.
    Stopped,
    /// There was no memory; nothing changed.
    NoMemory,
}

impl TryCopy for Patch {
    fn copy(&self, alloc: Global) -> Result<Self, NoMemory> {
        Ok(Patch {
            key: self.key.copy(alloc)?,
            from: self.from,
            bytes: self.bytes.copy(alloc)?,
        })
    }
}

impl TryCopy for Outcome {
    fn copy(&self, alloc: Global) -> Result<Self, NoMemory> {
        Ok(match self {
            Outcome::Replied { reply, patch } => Outcome::Replied {
                reply: reply.copy(alloc)?,
                patch: match patch {
                    Some(patch) => Some(patch.copy(alloc)?),
                    None => None,
                },
            },
            Outcome::Blocks => Outcome::Blocks,
            Outcome::Stopped => Outcome::Stopped,
            Outcome::NoMemory => Outcome::NoMemory,
        })
    }
}

/// Room for one patch with a key and bytes of at most 256 bytes each, which is used up when the patch is made.
#[derive(Debug, Drop)]
pub struct PatchRoom {
    pub key: ListRoom<u8>,
    pub bytes: ListRoom<u8>,
    ghost key_fits: { most_path ≤ key },
    ghost bytes_fit: { most_written ≤ bytes },
}

impl Patch {
    /// Room for a patch, taken ahead so that a copy of it needs no memory later.
    pub fn room(alloc: Global) -> Result<PatchRoom, NoMemory>
        ensures key { IfOk result (λ room. most_path ≤ room.key) }
        ensures bytes { IfOk result (λ room. most_written ≤ room.bytes) }
    {
        Ok(PatchRoom {
            key: ListRoom::new(alloc, MOST_PATH)?,
            bytes: ListRoom::new(alloc, MOST_WRITTEN)?,
        })
    }
}

impl PatchRoom {
    /// An equal patch, without memory.
    pub fn fill(self, from: &Patch) -> Patch
        requires key { length from.now.key ≤ most_path }
        requires bytes { length from.now.bytes ≤ most_written }
        ensures { result ≡ from.now }
    {
        Patch {
            key: self.key.fill(from.key.as_slice()),
            from: from.from,
            bytes: self.bytes.fill(from.bytes.as_slice()),
        }
    }
}
