// The lines of tables, in order.
ghost use Rattle.std.specs.Prelude.{◌≡◌, ◌≤◌, ◌<◌, ◌+◌, ℕ, true, List, Some, IfOk, OnOk, length};
ghost use Rattle.sg_check.specs.sg_facts.Tables.{AreTables};
ghost use Rattle.sg_check.specs.Shapes.{IsSmall};
ghost use Rattle.sg_check.specs.sg_facts.Fits.{Fits};
ghost use Rattle.sg_check.specs.sg_walk.LeastWalks.{AreLeastWalks, walk_at};
ghost use Rattle.sg_stub.specs.Inside.Lines.{AreBefore};
ghost use Rattle.sg_stub.specs.Inside.Triples.{AreIn};

use crate::triples::TripleSet;
use sg_check::{END_OF_FUNS, Interface, NoMemory, WalkLine, WalkList, Walks, set_count};
use std::alloc::Global;

/// A line for each of these triples, which are all that descriptors of an interface can come to.
pub fn lines_of(alloc: Global, iface: &Interface, triples: &TripleSet) -> Result<WalkList, NoMemory>
    requires fits { Fits iface.now }
    requires small { IsSmall iface.now }
    requires triples { AreIn iface.now triples.now }
    ensures { IfOk result (AreTables iface.now) }
{
    let walks = Walks::new(alloc, iface)?;
    let mut lines = WalkList::new(alloc);
    'made: for made in 1..END_OF_FUNS {
        add_states(iface, &walks, triples, made, &mut lines)?;
    }
    Ok(lines)
}

// Adds the lines of one creation.
fn add_states(
    iface: &Interface,
    walks: &Walks,
    triples: &TripleSet,
    made: u8,
    lines: &mut WalkList,
) -> Result<(), NoMemory>
    requires fits { Fits iface.now }
    requires small { IsSmall iface.now }
    requires walks { AreLeastWalks iface.now walks.now }
    requires triples { AreIn iface.now triples.now }
    requires before { AreBefore iface.now lines.old made 1 0 }
    ensures { OnOk result (AreBefore iface.now lines.new made 33 0) }
{
    'states: for state in 1..END_OF_FUNS {
        add_sets(iface, walks, triples, made, state, lines)?;
    }
    Ok(())
}

// Adds those of one state.
fn add_sets(
    iface: &Interface,
    walks: &Walks,
    triples: &TripleSet,
    made: u8,
    state: u8,
    lines: &mut WalkList,
) -> Result<(), NoMemory>
    requires fits { Fits iface.now }
    requires small { IsSmall iface.now }
    requires walks { AreLeastWalks iface.now walks.now }
    requires triples { AreIn iface.now triples.now }
    requires before { AreBefore iface.now lines.old made state 0 }
    ensures { OnOk result (AreBefore iface.now lines.new made (state + 1) 0) }
{
    'sets: for number in 0..set_count(field_count(iface)) {
        let mask = number as u8;
        if triples.has(made, state, mask) {
            lines.push(line_of(walks, made, state, mask))?;
        }
    }
    Ok(())
}

// The number of fields of a row.
fn field_count(iface: &Interface) -> u8
    requires small { IsSmall iface.now }
    ensures { result ≡ length iface.now.facts.fields }
{
    iface.shape.fields.len() as u8
}

// The line of what some walk restores, with the walk that stands there.
fn line_of(walks: &Walks, made: u8, state: u8, mask: u8) -> WalkLine
    requires stands { (walk : List ℕ) × (walk_at walks.now made state mask ≡ Some walk) }
    ensures walk { walk_at walks.now made state mask ≡ Some result.walk }
    ensures line { result ≡ record { made = made; state = state; mask = mask; walk = result.walk } }
{
    match walks.get(made, state, mask) {
        Some(walk) => WalkLine {
            made,
            state,
            mask,
            walk,
        },
        None => unreachable!(),
    }
}
