// Items that aren't kept in brief.
ghost use Rattle.std.specs.Prelude.{◌≡◌};
ghost use Rattle.sg_facts.specs.Loads.{load_item};
ghost use Rattle.sg_facts.specs.Lent.{item_in};

use crate::{Item, LentItem, LentOutcome, LentTag, Patch};
use sg_base::{LentArgs, LentCall, LentGood, LentReply, NoMemory, TryCopy};
use std::alloc::Global;
use std::marker::Model;
use std::sync::Arc;

/// A load of a file for a client, as it is noted, with the number of points asked when it ended. The file may be shared: loads of one file
/// hold its bytes once, while these are the same. Contracts see it as plain data.
#[derive(Debug, Drop)]
pub struct LoadNote {
    client: u8,
    points: u64,
    file: Arc<Patch, Global>,
}

impl Model for LoadNote {
    ghost use Rattle.std.specs.Arc.{arc_value};
    ghost use Rattle.sg_facts.specs.Loads.{NotedLoad};

    ghost Value = { NotedLoad };

    ghost view = { λ n. record { client = n.client; points = n.points; file = arc_value n.file } };
}

impl LoadNote {
    ghost use Rattle.std.specs.Arc.{arc_value};

    /// The load of a file, whose bytes are those of this patch of it.
    pub fn new(client: u8, points: u64, file: Arc<Patch, Global>) -> LoadNote
        ensures { result ≡ record { client = client; points = points; file = arc_value file } }
    {
        LoadNote {
            client,
            points,
            file,
        }
    }

    /// The number of points asked when it ended.
    pub fn points(&self) -> u64
        ensures { result ≡ self.now.points }
    {
        self.points
    }

    /// Its item, lent.
    pub(crate) fn lent(&self) -> LentItem<'_>
        ensures { item_in result ≡ load_item self.now }
    {
        LentItem {
            tag: LentTag::Load {
                key: self.file.key.as_slice(),
                client: self.client,
            },
            shown: LentCall {
                client: self.client,
                seq: 0,
                fun: 0,
                desc: 0,
                args: LentArgs::Words(&[]),
            },
            real: 0,
            points: self.points,
            outcome: LentOutcome::Replied {
                reply: LentReply::Ok(LentGood {
                    desc: 0,
                    words: &[],
                    bytes: &[],
                }),
                patch: Some(&self.file),
            },
        }
    }
}

impl TryCopy for LoadNote {
    fn copy(&self, _alloc: Global) -> Result<Self, NoMemory> {
        Ok(LoadNote {
            client: self.client,
            points: self.points,
            file: Arc::try_clone(&self.file)?,
        })
    }
}

// What is kept of an item that isn't in brief: the item as it was added, or that of a load by its parts.
#[derive(Debug, Drop)]
pub(crate) enum Kept {
    Item(Item),
    Load(LoadNote),
}

impl TryCopy for Kept {
    fn copy(&self, alloc: Global) -> Result<Self, NoMemory> {
        Ok(match self {
            Kept::Item(item) => Kept::Item(item.copy(alloc)?),
            Kept::Load(load) => Kept::Load(load.copy(alloc)?),
        })
    }
}
