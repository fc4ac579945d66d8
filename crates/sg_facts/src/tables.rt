// The tables that stubs work by: an interface with the walks of all that its descriptors can come to.
ghost use Rattle.std.specs.Prelude.{◌≡◌};
ghost use Rattle.std.specs.Option.{option_copied};
ghost use Rattle.sg_facts.specs.Fits.{Fits};
ghost use Rattle.sg_facts.specs.Tables.{AreTables, walk_of};
ghost use Rattle.sg_facts.specs.Inside.Walking.{IsAscending, line_order};

use crate::{Interface, Walk};
use sg_base::ListOf;
use std::cmp::Ordering;
use std::marker::Model;

/// The walk of a descriptor that a function made, in a state, with a set of fields.
#[derive(Clone, Copy, Debug, PartialEq, Eq)]
pub struct WalkLine {
    /// The creation that made the descriptor.
    pub made: u8,
    /// The function that names its state.
    pub state: u8,
    /// The set of its fields that aren't 0 or empty: bit i for field i.
    pub mask: u8,
    /// The functions whose calls rebuild it.
    pub walk: Walk,
}

/// Lines of tables.
pub type WalkList = ListOf<WalkLine>;

/// An interface that can be recovered, with one line for each creation, state and set of fields that its descriptors can
/// come to: the walk that rebuilds such a descriptor. Contracts see both.
#[derive(Debug, Drop)]
pub struct Tables {
    iface: Interface,
    walks: WalkList,
}

impl Model for Tables {
    ghost use Rattle.sg_facts.specs.Tables.{AreTables, Compiled};

    ghost Value = { Compiled };

    ghost view = { λ t. record { iface = t.iface; walks = t.walks } };

    ghost invariant = { λ t. AreTables t.iface t.walks };
}

impl Tables {
    /// An interface with its lines.
    pub fn new(iface: Interface, walks: WalkList) -> Tables
        requires { AreTables iface walks }
        ensures iface { result.iface ≡ iface }
        ensures walks { result.walks ≡ walks }
    {
        Tables { iface, walks }
    }

    /// The interface, lent.
    pub fn interface(&self) -> &Interface
        ensures same { result.now ≡ self.now.iface }
        ensures fits { Fits result.now }
    {
        &self.iface
    }

    /// The lines, ascending by creation, then by state, then by set.
    pub fn lines(&self) -> &[WalkLine]
        ensures same { result.now ≡ self.now.walks }
        ensures are { AreTables self.now.iface self.now.walks }
    {
        self.walks.as_slice()
    }

    /// The walk of what a function made, in a state, with the set of fields that has a number; None exactly where there is
    /// no such line. It takes no memory, and is found by halving.
    pub fn walk(&self, made: u8, state: u8, mask: u8) -> Option<&Walk>
        ensures { option_copied result ≡ walk_of self.now.walks made state mask }
    {
        walk_in(self.walks.as_slice(), made, state, mask)
    }
}

// The walk of the line for these, among lines that ascend.
fn walk_in(lines: &[WalkLine], made: u8, state: u8, mask: u8) -> Option<&Walk>
    requires { IsAscending lines.now }
    ensures { option_copied result ≡ walk_of lines.now made state mask }
{
    match lines.binary_search_by(
        move |line| -> Ordering
            ensures { result ≡ line_order line.now made state mask }
        { line_order(line, made, state, mask) },
    ) {
        Ok(place) => Some(&lines[place].walk),
        Err(_) => None,
    }
}

// How a line stands to a creation, a state and a set.
fn line_order(line: &WalkLine, made: u8, state: u8, mask: u8) -> Ordering
    ensures { result ≡ line_order line.now made state mask }
{
    line.made
        .cmp(&made)
        .then(line.state.cmp(&state))
        .then(line.mask.cmp(&mask))
}
