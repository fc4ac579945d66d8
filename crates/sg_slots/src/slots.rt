// Entries by service id.
ghost use Rattle.std.specs.Prelude.{◌≡◌, ◌↔◌, [], length, IsTrue, OnOk, OnErr};
ghost use Rattle.std.specs.Option.{option_copied};
ghost use Rattle.sg_slots.specs.Slots.{entry_at, AreIds};

use std::alloc::Global;
use std::collections::BTreeMap;
use std::marker::Model;

/// The entries of a service's live descriptors, each under its service id, in the order of the ids, and the number of
/// ids given. Ids are given from 1 on, and none comes again. An entry is found, set and ended in time that grows with the
/// logarithm of the live entries.
#[derive(Debug, Drop)]
pub struct Slots<E> {
    pub(crate) entries: BTreeMap<u64, E>,
    pub(crate) given: u64,
}

impl<E> Model for Slots<E> {
    ghost use Rattle.sg_slots.specs.Slots.{Held, AreIds};

    ghost Value = { Held E };

    ghost view = { λ s. record { entries = s.entries.entries; given = s.given } };

    ghost invariant = { λ s. AreIds 0 s.given s.entries.entries };
}

impl<E> Slots<E> {
    /// No entry, and no id given. It takes no memory.
    pub fn new(alloc: Global) -> Self
        ensures entries { result.entries ≡ [] }
        ensures given { result.given ≡ 0 }
    {
        Slots {
            entries: BTreeMap::new(alloc),
            given: 0,
        }
    }

    /// The entry of an id; None where no entry has it.
    pub fn get(&self, id: u64) -> Option<&E>
        ensures entry { option_copied result ≡ entry_at self.now.entries id }
        ensures ascending { AreIds 0 self.now.given self.now.entries }
    {
        self.entries.get(&id)
    }

    /// The number of entries.
    pub fn len(&self) -> usize
        ensures { result ≡ length self.now.entries }
    {
        self.entries.len()
    }

    /// The number of ids given.
    pub fn given(&self) -> u64
        ensures { result ≡ self.now.given }
    {
        self.given
    }

    /// Whether there is no entry.
    pub fn is_empty(&self) -> bool
        ensures { IsTrue result ↔ (self.now.entries ≡ []) }
    {
        self.entries.len() == 0
    }
}
