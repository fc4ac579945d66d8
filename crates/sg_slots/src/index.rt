// The orders of the entries.
ghost use Rattle.std.specs.Prelude.{◌≡◌, [], true, OnOk, OnErr};
ghost use Rattle.sg_slots.specs.Inside.QueueIndex.{stands, in_all, IsKeyOf, Grows, MayGrow, Shrinks};

use crate::Queued;
use crate::key::{Key, add, take_out};
use sg_facts::NoMemory;
use std::alloc::Global;
use std::collections::BTreeSet;

/// The entries in their two orders. A key is added, taken out and found in time that grows with the logarithm of the live
/// entries.
#[derive(Debug, Drop)]
pub(crate) struct Indexes {
    /// The entries that stand in the first order.
    pub firsts: BTreeSet<Key>,
    /// All entries, in the second order.
    pub seconds: BTreeSet<Key>,
}

/// What becomes of the entry of an id; None where it isn't there.
#[derive(Clone, Copy, Debug)]
pub(crate) struct EntryChange<E> {
    pub id: u64,
    pub before: Option<E>,
    pub after: Option<E>,
}

impl Indexes {
    /// No entry. It takes no memory.
    pub(crate) fn new(alloc: Global) -> Self
        ensures firsts { result.firsts.keys ≡ [] }
        ensures seconds { result.seconds.keys ≡ [] }
    {
        Indexes {
            firsts: BTreeSet::new(alloc),
            seconds: BTreeSet::new(alloc),
        }
    }

    /// Adds the keys that an entry will have, so that no memory is needed once it has changed. After `NoMemory` some are
    /// added.
    pub(crate) fn prepare<E: Queued>(&mut self, id: u64, entry: Option<E>) -> Result<(), NoMemory>
        ensures firsts { OnOk result (Grows (stands E.first_order) id entry self.old.firsts self.new.firsts true) }
        ensures seconds { OnOk result (Grows (stands (in_all E.second_order)) id entry self.old.seconds self.new.seconds true) }
        ensures some_firsts { OnErr result (MayGrow (stands E.first_order) id entry self.old.firsts self.new.firsts) }
        ensures some_seconds { OnErr result (MayGrow (stands (in_all E.second_order)) id entry self.old.seconds self.new.seconds) }
    {
        add(&mut self.firsts, first_key(id, entry))?;
        add(&mut self.seconds, second_key(id, entry))
    }

    /// Takes the keys that an entry had out, but for those that it still has. It takes no memory.
    pub(crate) fn settle<E: Queued>(&mut self, id: u64, gone: Option<E>, kept: Option<E>)
        ensures firsts { Shrinks (stands E.first_order) id gone kept self.old.firsts self.new.firsts }
        ensures seconds { Shrinks (stands (in_all E.second_order)) id gone kept self.old.seconds self.new.seconds }
    {
        take_out(&mut self.firsts, first_key(id, gone), first_key(id, kept));
        take_out(
            &mut self.seconds,
            second_key(id, gone),
            second_key(id, kept),
        );
    }
}

// The key of an entry in the first order, where it stands in it.
fn first_key<E: Queued>(id: u64, entry: Option<E>) -> Option<Key>
    ensures { IsKeyOf (stands E.first_order) id entry result }
{
    let entry = entry?;
    let standing = entry.first_order()?;
    Some(Key::new(id, standing))
}

// The key of an entry in the second order.
fn second_key<E: Queued>(id: u64, entry: Option<E>) -> Option<Key>
    ensures { IsKeyOf (stands (in_all E.second_order)) id entry result }
{
    let entry = entry?;
    Some(Key::new(id, entry.second_order()))
}
