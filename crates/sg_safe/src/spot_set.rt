// Spots, to be looked up.
ghost use Rattle.std.specs.Prelude.{◌≡◌, ◌↔◌, [], IsTrue, OnOk, OnErr};
ghost use Rattle.std.specs.List.{Contains};
ghost use Rattle.sg_safe.specs.Inside.Keys.{GainsSpot};

use sg_known::{NoMemory, Spot};
use std::alloc::Global;
use std::collections::HashSet;
use std::marker::Model;

/// Spots, in no order. Contracts see their list.
#[derive(Debug, Drop)]
pub(crate) struct SpotSet {
    spots: HashSet<Spot>,
}

impl Model for SpotSet {
    ghost use Rattle.std.specs.Prelude.{List};
    ghost use Rattle.sg_known.specs.sg_walk.declared.spot.Spot.{Spot};

    ghost Value = { List Spot };

    ghost view = { λ s. s.spots.keys };
}

impl SpotSet {
    /// None. It takes no memory.
    pub fn new(alloc: Global) -> SpotSet
        ensures { result ≡ [] }
    {
        SpotSet {
            spots: HashSet::new(alloc),
        }
    }

    /// Whether a spot is in the set.
    pub fn has(&self, spot: Spot) -> bool
        ensures { IsTrue result ↔ Contains self.now spot }
    {
        self.spots.contains(&spot)
    }

    /// Adds a spot. After `NoMemory` the set is as before.
    pub fn add(&mut self, spot: Spot) -> Result<(), NoMemory>
        ensures ok { OnOk result (GainsSpot self.old self.new spot) }
        ensures err { OnErr result (self.new ≡ self.old) }
    {
        self.spots.insert(spot)?;
        Ok(())
    }
}
