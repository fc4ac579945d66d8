// The walks of all creations, put where they restore something.
ghost use Rattle.std.specs.Prelude.{◌≡◌, ◌≢◌, ◌==◌, ℕ, None, IfOk, OnOk, if◌then◌else◌};
ghost use Rattle.std.specs.Option.{option_or};
ghost use Rattle.sg_facts.specs.Interface.{HasFewFields};
ghost use Rattle.sg_walk.specs.LeastWalks.{AreLeastWalks, IsTheWalk, walk_at};
ghost use Rattle.sg_walk.specs.Inside.Arrivals.{first_walk, walk_by};
ghost use Rattle.sg_walk.specs.Inside.StepSets.{SamePairs};

use crate::arrivals::Arrivals;
use crate::arriving::arrivals_of;
use crate::closing::{field_count, set_count};
use crate::spot::{Goal, Spot};
use crate::step_set::StepSet;
use crate::steps::is_goal;
use crate::walks::Walks;
use sg_facts::{END_OF_FUNS, Interface, NoMemory, Walk};
use std::alloc::Global;

/// Puts the least walks of an interface, where no walk is yet.
pub fn fill(alloc: Global, iface: &Interface, walks: &mut Walks) -> Result<(), NoMemory>
    requires few { HasFewFields iface.now }
    requires none { (made state mask : ℕ) → walk_at walks.old made state mask ≡ None }
    ensures { OnOk result (AreLeastWalks iface.now walks.new) }
{
    // Nothing is done: the proof takes what is known of this value.
    let _declared = iface.declared;
    let steps = StepSet::new(alloc, iface.steps.as_slice())?;
    'made: for made in 1..END_OF_FUNS {
        put_made(alloc, iface, &steps, made, walks)?;
    }
    Ok(())
}

// Puts the least walks that begin with a creation, and leaves those of others alone.
fn put_made(
    alloc: Global,
    iface: &Interface,
    steps: &StepSet,
    made: u8,
    walks: &mut Walks,
) -> Result<(), NoMemory>
    requires few { HasFewFields iface.now }
    requires steps { SamePairs iface.now.steps steps.now }
    ensures others { OnOk result ((m state mask : ℕ) → made ≢ m → walk_at walks.new m state mask ≡ walk_at walks.old m state mask) }
    ensures own { OnOk result ((state mask : ℕ) → walk_at walks.old made state mask ≡ None
        → IsTheWalk iface.now made state mask (walk_at walks.new made state mask)) }
{
    // Nothing is done: the proof takes what is known of this value.
    let _declared = iface.declared;
    let found = arrivals_of(alloc, iface, steps, made)?;
    put_all(iface, made, &found, walks)?;
    Ok(())
}

// Puts the walks of arrivals where they restore something, those that came first before others.
fn put_all(iface: &Interface, made: u8, found: &Arrivals, walks: &mut Walks) -> Result<(), NoMemory>
    requires few { HasFewFields iface.now }
    ensures { OnOk result ((m state mask : ℕ) → walk_at walks.new m state mask
        ≡ option_or (walk_at walks.old m state mask) (if made == m then first_walk iface.now (record { state = state; mask = mask }) found.now else None)) }
{
    let mut at = 0;
    'arrivals: while let Some((spot, walk)) = found.get(at) {
        put_one(iface, made, *spot, *walk, walks)?;
        at += 1;
    }
    Ok(())
}

// Puts the walk of an arrival at each set of fields that it restores.
fn put_one(
    iface: &Interface,
    made: u8,
    spot: Spot,
    walk: Walk,
    walks: &mut Walks,
) -> Result<(), NoMemory>
    requires few { HasFewFields iface.now }
    ensures { OnOk result ((m state mask : ℕ) → walk_at walks.new m state mask
        ≡ option_or (walk_at walks.old m state mask) (walk_by iface.now made spot walk m (record { state = state; mask = mask }))) }
{
    'masks: for number in 0..set_count(field_count(iface)) {
        let mask = number as u8;
        let state = spot.state;
        if is_goal(iface, spot, Goal { state, mask }) {
            walks.put(made, state, mask, walk)?;
        }
    }
    Ok(())
}
