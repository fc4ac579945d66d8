// The spots that walks come to, each by the least of them.
ghost use Rattle.std.specs.Prelude.{◌≡◌, ◌+◌, ◌<◌, ◌≤◌, ℕ, true, length, IfOk, OnOk, slice_get, Some};
ghost use Rattle.sg_facts.specs.Interface.{HasFewFields};
ghost use Rattle.sg_facts.specs.Walks.{first_spot};
ghost use Rattle.sg_facts.specs.Inside.Walking.{may_begin};
ghost use Rattle.sg_walk.specs.Inside.Spots.{shown};
ghost use Rattle.sg_walk.specs.Inside.StepSets.{SamePairs};
ghost use Rattle.sg_walk.specs.Inside.Arrivals.{AddsBy, AreArrivals, AreFound};

use crate::arrivals::Arrivals;
use crate::spot::Spot;
use crate::step_set::StepSet;
use crate::steps::{begin, go_on};
use sg_facts::{END_OF_FUNS, Interface, NoMemory, Walk};
use std::alloc::Global;

/// All spots to which walks of at most 8 calls lead that begin with a creation, each with the least walk that leads there, in
/// the order of the walks. There is none where no walk begins with the function.
pub fn arrivals_of(
    alloc: Global,
    iface: &Interface,
    steps: &StepSet,
    made: u8,
) -> Result<Arrivals, NoMemory>
    requires few { HasFewFields iface.now }
    requires steps { SamePairs iface.now.steps steps.now }
    ensures { IfOk result (AreArrivals iface.now made) }
{
    match begin(iface, made) {
        Some(spot) => arrivals_from(alloc, iface, steps, made, spot),
        None => Ok(Arrivals::new(alloc)),
    }
}

// The spots to which walks lead from that to which the creation has led.
fn arrivals_from(
    alloc: Global,
    iface: &Interface,
    steps: &StepSet,
    made: u8,
    first: Spot,
) -> Result<Arrivals, NoMemory>
    requires few { HasFewFields iface.now }
    requires steps { SamePairs iface.now.steps steps.now }
    requires begins { may_begin iface.now made ≡ true }
    requires first { shown iface.now first ≡ first_spot iface.now.facts made }
    ensures { IfOk result (AreArrivals iface.now made) }
{
    let mut found = first_of(alloc, iface, made, first)?;
    let mut done = 0;
    'arrivals: while let Some((spot, walk)) = found.get(done) {
        let (spot, walk) = (*spot, *walk);
        add_next(iface, steps, spot, walk, &mut found)?;
        done += 1;
    }
    Ok(found)
}

// The spot to which a creation has led.
fn first_of(alloc: Global, iface: &Interface, made: u8, spot: Spot) -> Result<Arrivals, NoMemory>
    requires begins { may_begin iface.now made ≡ true }
    requires spot { shown iface.now spot ≡ first_spot iface.now.facts made }
    ensures { IfOk result (AreFound iface.now made 0 1) }
{
    let mut walk = Walk::new();
    walk.push(made)?;
    let mut found = Arrivals::new(alloc);
    found.add(spot, walk)?;
    Ok(found)
}

// Adds the spots to which one call more leads, unless the walk is as long as a walk may be.
fn add_next(
    iface: &Interface,
    steps: &StepSet,
    spot: Spot,
    walk: Walk,
    found: &mut Arrivals,
) -> Result<(), NoMemory>
    requires few { HasFewFields iface.now }
    requires steps { SamePairs iface.now.steps steps.now }
    ensures { OnOk result ((made done : ℕ) → slice_get found.old done ≡ Some (spot, walk)
        → AreFound iface.now made done 1 found.old → AreFound iface.now made (done + 1) 1 found.new) }
{
    if walk.len() >= Walk::MOST {
        return Ok(());
    }
    // Nothing is done: the proof takes what is known of this value.
    let _declared = iface.declared;
    'funs: for fun in 1..END_OF_FUNS {
        add_by(iface, steps, spot, walk, fun, found)?;
    }
    Ok(())
}

// Adds the spot to which a function leads, where it may be called next.
fn add_by(
    iface: &Interface,
    steps: &StepSet,
    spot: Spot,
    walk: Walk,
    fun: u8,
    found: &mut Arrivals,
) -> Result<(), NoMemory>
    requires few { HasFewFields iface.now }
    requires steps { SamePairs iface.now.steps steps.now }
    requires room { length walk < 8 }
    ensures { OnOk result (AddsBy iface.now spot walk fun found.old found.new) }
{
    let is_step = steps.has(spot.state, fun);
    match go_on(iface, spot, fun, is_step) {
        Some(next) => {
            let mut longer = walk;
            longer.push(fun)?;
            found.add(next, longer)?;
            Ok(())
        }
        None => Ok(()),
    }
}
