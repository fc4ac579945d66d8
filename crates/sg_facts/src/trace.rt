// What was done to a service, boot by boot.
ghost use Rattle.std.specs.Prelude.{◌≡◌, ◌++◌, ◌∷◌, [], IfOk, OnOk, map};
ghost use Rattle.sg_facts.specs.Trace.{run_of};
ghost use Rattle.sg_facts.specs.Inside.Rows.{boot_of};

use crate::{ItemList, Outcome};
use sg_base::{Call, NoMemory, Path, RoomyList, TryCopy};
use std::alloc::Global;

/// Why the service was asked.
#[derive(Debug, PartialEq, Eq, Drop)]
pub enum Tag {
    /// The k-th call, from 1, of the walk of the row with this id, in a turn of this client.
    Walk { id: u64, k: u8, client: u8 },
    /// A file was loaded for this client.
    Load { key: Path, client: u8 },
    /// The call of this number of this client.
    Client { client: u8, seq: u32 },
}

/// One asking of the service.
#[derive(Debug, Drop)]
pub struct Item {
    pub tag: Tag,
    /// The call under the clients' ids, with its caller. That of a load has function 0.
    pub shown: Call,
    /// The descriptor or parent under the service's ids.
    pub real: u64,
    /// The number of points asked when it ended.
    pub points: u64,
    /// What it gave, under the service's ids. A load gives an Ok without words, and a patch of the whole file.
    pub outcome: Outcome,
}

/// What was done between two boots.
#[derive(Debug, Drop)]
pub struct BootLog {
    pub items: ItemList,
    /// The number of the point at which the service stopped; None in a boot that was not stopped.
    pub stop: Option<u64>,
}

/// The boots of a run, with room for more.
pub type BootList = RoomyList<BootLog>;

/// What was done to the service in a run.
#[derive(Debug, Drop)]
pub struct Trace {
    pub boots: BootList,
    /// The number of points asked.
    pub points: u64,
}

impl TryCopy for Tag {
    fn copy(&self, alloc: Global) -> Result<Self, NoMemory> {
        Ok(match self {
            Tag::Walk { id, k, client } => Tag::Walk {
                id: *id,
                k: *k,
                client: *client,
            },
            Tag::Load { key, client } => Tag::Load {
                key: key.copy(alloc)?,
                client: *client,
            },
            Tag::Client { client, seq } => Tag::Client {
                client: *client,
                seq: *seq,
            },
        })
    }
}

impl TryCopy for Item {
    fn copy(&self, alloc: Global) -> Result<Self, NoMemory> {
        Ok(Item {
            tag: self.tag.copy(alloc)?,
            shown: self.shown.copy(alloc)?,
            real: self.real,
            points: self.points,
            outcome: self.outcome.copy(alloc)?,
        })
    }
}

impl BootLog {
    /// An equal boot, apart from the room for more.
    pub fn copied(&self, alloc: Global) -> Result<BootLog, NoMemory>
        ensures { IfOk result (λ copy. boot_of copy ≡ boot_of self.now) }
    {
        Ok(BootLog {
            items: self.items.copied(alloc)?,
            stop: self.stop,
        })
    }
}

impl Trace {
    /// An equal trace, apart from the room for more.
    pub fn copied(&self, alloc: Global) -> Result<Trace, NoMemory>
        ensures { IfOk result (λ copy. run_of copy ≡ run_of self.now) }
    {
        let mut boots = BootList::new(alloc);
        for boot in self.boots.as_slice() {
            boots.reserve(1)?;
            boots.add(boot.copied(alloc)?);
        }
        Ok(Trace {
            boots,
            points: self.points,
        })
    }
}
