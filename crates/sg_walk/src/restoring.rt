// Whether a walk restores a state and a set of fields.
ghost use Rattle.std.specs.Prelude.{◌≡◌, ◌↔◌, Bool, List, length, IsTrue};
ghost use Rattle.sg_facts.specs.Fields.{number_of};
ghost use Rattle.sg_facts.specs.Inside.Walking.{Restores};
ghost use Rattle.sg_facts.specs.Interface.{HasFewFields};
ghost use Rattle.sg_walk.specs.Inside.Spots.{shown, leads, reaches};

use crate::spot::{Goal, Spot};
use crate::steps::{begin, go_on, is_goal};
use sg_facts::{Interface, Walk};

/// Whether a walk restores a state and the set of fields that has a number: bit i for field i. Rows have at most 8 fields.
/// The function takes no memory.
pub fn restores(iface: &Interface, walk: &Walk, state: u8, mask: u8) -> bool
    requires { HasFewFields iface.now }
    ensures { IsTrue result ↔ ((set : List Bool) × (number_of set ≡ mask) × Restores iface.now walk.now state set) }
{
    reaches(iface, walk.as_slice(), Goal { state, mask })
}

// Whether a walk leads to what is sought.
fn reaches(iface: &Interface, walk: &[u8], goal: Goal) -> bool
    requires { HasFewFields iface.now }
    ensures { result ≡ reaches iface.now walk.now goal }
{
    match walk {
        [] => false,
        [made, rest @ ..] => match begin(iface, *made) {
            Some(spot) => leads(iface, spot, rest, goal),
            None => false,
        },
    }
}

// Whether these functions lead from a spot to what is sought.
fn leads(iface: &Interface, from: Spot, walk: &[u8], goal: Goal) -> bool
    requires { HasFewFields iface.now }
    ensures { result ≡ leads iface.now (shown iface.now from) walk.now goal }
{
    let mut spot = from;
    'walk: for fun in walk {
        match go_on(iface, spot, *fun, iface.steps_on(spot.state, *fun)) {
            Some(next) => spot = next,
            None => return false,
        }
    }
    is_goal(iface, spot, goal)
}
