// All that descriptors can come to.
ghost use Rattle.std.specs.Prelude.{◌≡◌, ◌↔◌, ◌≤◌, IfOk, OnOk, OnErr};
ghost use Rattle.std.specs.List.{Contains};
ghost use Rattle.sg_facts.specs.Limits.{most_funs};
ghost use Rattle.sg_facts.specs.Interface.{HasFewFields};
ghost use Rattle.sg_walk.specs.declared.place.Place.{Place as OnePlace};
ghost use Rattle.sg_walk.specs.declared.place.Triple.{Triple as OneTriple};
ghost use Rattle.sg_walk.specs.ReachedStates.Inside.Places.{AddsTriples, IsPlace};
ghost use Rattle.sg_walk.specs.ReachedStates.Triples.{AreDistinct, IsReachedTriple};

use crate::closing::{add_begins, close};
use crate::found::Found;
use crate::place::Triple;
use sg_facts::{END_OF_FUNS, Interface, ListOf, NoMemory};
use std::alloc::Global;

/// What descriptors can come to.
pub type TripleList = ListOf<Triple>;

/// All that descriptors can come to: each declared creation, with each state and each set of fields that its descriptors
/// reach by declared calls. The rows have at most `MOST_FIELDS` fields.
pub fn reachable(alloc: Global, iface: &Interface) -> Result<TripleList, NoMemory>
    requires few { HasFewFields iface.now }
    ensures only { IfOk result (λ triples. (t : OneTriple) → Contains triples t → IsReachedTriple iface.now t) }
    // Each is listed once.
    ensures once { IfOk result AreDistinct }
    // Function numbers are at most `MOST_FUNS`.
    ensures all { IfOk result (λ triples. (t : OneTriple) → t.made ≤ most_funs → IsReachedTriple iface.now t → Contains triples t) }
{
    let mut triples = TripleList::new(alloc);
    'made: for made in 1..END_OF_FUNS {
        let found = places_of(alloc, iface, made)?;
        add_triples(made, &found, &mut triples)?;
    }
    Ok(triples)
}

// What the descriptors of one creation can come to; nothing where the function is no declared creation.
fn places_of(alloc: Global, iface: &Interface, made: u8) -> Result<Found, NoMemory>
    requires few { HasFewFields iface.now }
    ensures { IfOk result (λ found. (p : OnePlace) → Contains found p ↔ IsPlace iface.now made p) }
{
    let mut found = Found::new(alloc);
    add_begins(iface, made, &mut found)?;
    close(iface, &mut found)?;
    Ok(found)
}

// Adds the places of one creation.
fn add_triples(made: u8, found: &Found, triples: &mut TripleList) -> Result<(), NoMemory>
    ensures adds { OnOk result (AddsTriples made found.now triples.old triples.new) }
    ensures places { OnOk result (AreDistinct found.now) }
{
    let mut at = 0;
    'places: while let Some(place) = found.get(at) {
        triples.push(Triple {
            made,
            state: place.state,
            mask: place.mask,
        })?;
        at += 1;
    }
    Ok(())
}
