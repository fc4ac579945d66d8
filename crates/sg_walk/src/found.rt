// The places that were found.
ghost use Rattle.std.specs.Prelude.{◌≡◌, ◌<◌, ◌^◌, [], length, OnOk, OnErr, slice_get};
ghost use Rattle.std.specs.Option.{option_copied};
ghost use Rattle.sg_walk.specs.ReachedStates.Inside.Places.{AddsOnce};
ghost use Rattle.sg_walk.specs.ReachedStates.Triples.{AreDistinct};

use crate::place::Place;
use indexmap::IndexSet;
use sg_facts::NoMemory;
use std::alloc::Global;
use std::marker::Model;

/// Places, in the order in which they were found, each once. Contracts see the list of the places.
#[derive(Debug, Drop)]
pub struct Found {
    places: IndexSet<Place>,
}

impl Model for Found {
    ghost use Rattle.std.specs.Prelude.{List};
    ghost use Rattle.sg_walk.specs.declared.place.Place.{Place};

    ghost Value = { List Place };

    ghost view = { λ f. f.places.keys };
}

impl Found {
    /// No place. It takes no memory.
    pub fn new(alloc: Global) -> Found
        ensures { result ≡ [] }
    {
        Found {
            places: IndexSet::new(alloc),
        }
    }

    /// Adds a place, where it wasn't found. After `NoMemory` the places are as before.
    pub fn add(&mut self, place: Place) -> Result<(), NoMemory>
        ensures ok { OnOk result (AddsOnce self.old self.new place) }
        ensures err { OnErr result (self.new ≡ self.old) }
    {
        self.places.insert(place)?;
        Ok(())
    }

    /// The place of a number, from 0.
    pub fn get(&self, at: usize) -> Option<&Place>
        ensures place { option_copied result ≡ slice_get self.now at }
        ensures most { length self.now < 2 ^ 63 }
        ensures once { AreDistinct self.now }
    {
        self.places.as_slice().get(at)
    }
}
