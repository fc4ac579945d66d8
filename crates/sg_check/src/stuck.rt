// The states that have no walk.
ghost use Rattle.std.specs.Prelude.{◌≡◌, ◌≤◌, length, IfOk};
ghost use Rattle.sg_check_statements.specs.sg_facts.Interface.{Declared, HasFewFields};
ghost use Rattle.sg_walk.specs.LeastWalks.{AreLeastWalks};
ghost use Rattle.sg_check.specs.Inside.Reached.{AreTriples};
ghost use Rattle.sg_check.specs.Inside.Stuck.{AreStuck, TellsWalk};

use crate::numbers::Numbers;
use sg_check_statements::{Interface, NoMemory};
use sg_walk::{Triple, Walks};
use std::alloc::Global;

/// The states in which some descriptor has no walk, where descriptors come to these triples. The walks of all of them are found
/// together.
pub fn stuck_of(alloc: Global, iface: &Interface, triples: &[Triple]) -> Result<Numbers, NoMemory>
    requires few { HasFewFields iface.now }
    requires all { AreTriples iface.now triples.now }
    ensures { IfOk result (AreStuck iface.now) }
{
    let walks = Walks::new(alloc, iface)?;
    let mut stuck = Numbers::new(alloc);
    'triples: for triple in triples {
        if !has_walk(&walks, triple) {
            stuck.add(usize::from(triple.state))?;
        }
    }
    Ok(stuck)
}

// Whether some walk restores a triple, by the least walks of an interface.
fn has_walk(walks: &Walks, triple: &Triple) -> bool
    ensures { (i : Declared) → AreLeastWalks i walks.now → TellsWalk i triple.now result }
{
    walks.get(triple.made, triple.state, triple.mask).is_some()
}
