// Where walks have come to.
ghost use Rattle.std.specs.Prelude.{◌≡◌, ◌<◌, ◌^◌, [], length, OnOk, OnErr, slice_get};
ghost use Rattle.std.specs.Option.{option_map};
ghost use Rattle.std.specs.Map.Iter.{deref_pair};
ghost use Rattle.sg_walk.specs.Inside.Arrivals.{AddsArrival};

use crate::spot::Spot;
use indexmap::IndexMap;
use sg_facts::{NoMemory, Walk};
use std::alloc::Global;
use std::marker::Model;

/// Spots with the walks that came to them first, in the order in which these came. Contracts see the list of both.
#[derive(Debug, Drop)]
pub struct Arrivals {
    walks: IndexMap<Spot, Walk>,
}

impl Model for Arrivals {
    ghost use Rattle.std.specs.Prelude.{List, ℕ};
    ghost use Rattle.sg_walk.specs.declared.spot.Spot.{Spot};

    ghost Value = { List (Spot × List ℕ) };

    ghost view = { λ a. a.walks.entries };
}

impl Arrivals {
    /// None. It takes no memory.
    pub fn new(alloc: Global) -> Arrivals
        ensures { result ≡ [] }
    {
        Arrivals {
            walks: IndexMap::new(alloc),
        }
    }

    /// Adds a walk that has come to a spot, where none had come there. After `NoMemory` the arrivals are as before.
    pub fn add(&mut self, spot: Spot, walk: Walk) -> Result<(), NoMemory>
        ensures ok { OnOk result (AddsArrival self.old self.new spot walk) }
        ensures err { OnErr result (self.new ≡ self.old) }
    {
        if self.walks.contains_key(&spot) {
            return Ok(());
        }
        self.walks.insert(spot, walk)?;
        Ok(())
    }

    /// The spot and the walk of a number, from 0; None exactly where there are no more than so many.
    pub fn get(&self, at: usize) -> Option<(&Spot, &Walk)>
        ensures arrival { option_map deref_pair result ≡ slice_get self.now at }
        ensures most { length self.now < 2 ^ 64 }
    {
        let _count = self.walks.len();
        self.walks.get_index(at)
    }
}
