// The service ids of the clients' ids, in both directions.
ghost use Rattle.std.specs.Prelude.{◌≡◌, ◌≢◌, ◌==◌, ◌≤◌, ◌+◌, ◌↔◌, ℕ, [], None, Some, OnOk, if◌then◌else◌, nat_eq};
ghost use Rattle.std.specs.Map.{lookup};
ghost use Rattle.sg_name.specs.Names.{IsOneToOne, named_at, real_at, real_of};

use crate::both::{add, exchange, refill};
use crate::named::{Named, Standing};
use indexmap::IndexMap;
use sg_base::NoMemory;
use std::alloc::Global;
use std::marker::Model;

/// What stands for the clients' ids in the running service. No two ids have one service id, and both directions are looked up
/// by hash. Contracts see the ids that have a name, through look-ups, and for how many more there is room.
#[derive(Debug, Drop)]
pub struct Names {
    pub(crate) standings: IndexMap<u64, Standing>,
    pub(crate) ids: IndexMap<u64, u64>,
}

impl Model for Names {
    ghost use Rattle.std.specs.Prelude.{min};
    ghost use Rattle.indexmap.specs.IndexMap.{spare};
    ghost use Rattle.sg_name.specs.Names.{Naming};

    ghost Value = { Naming };

    ghost use Rattle.sg_name.specs.Inside.Kept.{DirectionsAgree};

    ghost view = { λ n. record { known = n.standings.entries; spare = min (spare n.standings) (spare n.ids) } };

    ghost invariant = { λ n. DirectionsAgree n };
}

impl Names {
    /// No name, and no room. It takes no memory.
    pub fn new(alloc: Global) -> Names
        ensures { result.known ≡ [] }
    {
        Names {
            standings: IndexMap::new(alloc),
            ids: IndexMap::new(alloc),
        }
    }

    /// What stands for an id.
    pub fn get(&self, id: u64) -> Named
        ensures named { result ≡ named_at self.now.known id }
        ensures apart { IsOneToOne self.now.known }
    {
        match self.standings.get(&id) {
            Some(standing) => standing.named(),
            None => Named::Unnamed,
        }
    }

    /// The id that a service id stands for; None where it stands for none.
    pub fn back(&self, real: u64) -> Option<u64>
        ensures { (id : ℕ) → (result ≡ Some id) ↔ (real_at self.now.known id ≡ Some real) }
    {
        self.ids.get(&real).copied()
    }

    /// Takes the memory for one more name. The names stay, whatever the answer.
    pub fn reserve(&mut self) -> Result<(), NoMemory>
        ensures known { self.new.known ≡ self.old.known }
        ensures ok { OnOk result (1 ≤ self.new.spare) }
        ensures spare { self.old.spare ≤ self.new.spare }
    {
        self.standings.reserve(1)?;
        self.ids.reserve(1)?;
        Ok(())
    }

    /// Sets what stands for an id, which may be nothing. It takes no memory: an id without a name takes the room of one.
    /// Another service id for an id that has one takes time in proportion to the names.
    pub fn set(&mut self, id: u64, named: Named)
        requires room { named_at self.old.known id ≡ Named.Unnamed → 1 ≤ self.old.spare }
        requires apart { (other real : ℕ) → real_of named ≡ Some real → real_at self.old.known other ≡ Some real → other ≡ id }
        ensures names { (x : ℕ) → named_at self.new.known x ≡ (if x == id then named else named_at self.old.known x) }
        ensures spare { self.old.spare ≤ self.new.spare + 1 }
        ensures spare_of_known { named_at self.old.known id ≢ Named.Unnamed → self.old.spare ≤ self.new.spare }
    {
        match named.standing() {
            Some(standing) => self.put(id, standing),
            None => self.drop_id(id),
        }
    }

    // Sets what stands for an id.
    fn put(&mut self, id: u64, standing: Standing)
        requires room { lookup (nat_eq id) self.old.known ≡ None → 1 ≤ self.old.spare }
        requires apart { (other : ℕ) → real_at self.old.known other ≡ Some standing.real → other ≡ id }
        ensures known { (x : ℕ) → lookup (nat_eq x) self.new.known ≡ (if x == id then Some standing else lookup (nat_eq x) self.old.known) }
        ensures spare { self.old.spare ≤ self.new.spare + 1 }
        ensures spare_of_known { lookup (nat_eq id) self.old.known ≢ None → self.old.spare ≤ self.new.spare }
    {
        match exchange(&mut self.standings, id, standing) {
            Some(old) => {
                if old != standing.real {
                    refill(&mut self.ids, &self.standings);
                }
            }
            None => {
                add(&mut self.ids, standing.real, id);
                add(&mut self.standings, id, standing);
            }
        }
    }

    /// Drops the name of an id, if it has one. It takes no memory.
    pub fn drop_id(&mut self, id: u64)
        ensures names { (x : ℕ) → named_at self.new.known x ≡ (if x == id then Named.Unnamed else named_at self.old.known x) }
        ensures spare { self.old.spare ≤ self.new.spare }
    {
        if let Some(standing) = self.standings.swap_remove(&id) {
            self.ids.swap_remove(&standing.real);
        }
    }

    /// Drops all names. It takes no memory.
    pub fn clear(&mut self)
        ensures known { self.new.known ≡ [] }
        ensures spare { self.old.spare ≤ self.new.spare }
    {
        self.standings.clear();
        self.ids.clear();
    }
}
