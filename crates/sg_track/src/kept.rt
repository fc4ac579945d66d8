// Rows as a tracker keeps them.
ghost use Rattle.std.specs.Prelude.{◌≡◌, ◌≤◌, ◌++◌, false, None, [], ◌∷◌};
ghost use Rattle.indexmap.specs.IndexMap.{spare};
ghost use Rattle.sg_facts.specs.Facts.{fun_at};
ghost use Rattle.sg_facts.specs.Track.{row_at};
ghost use Rattle.sg_facts.specs.Inside.Rows.{row_after};
ghost use Rattle.sg_track.specs.Drafts.{EachNew, IsDraftWord};
ghost use Rattle.sg_track.specs.Kept.{AreKeyed, rows_in};

use crate::words::set_words;
use indexmap::IndexMap;
use sg_facts::{Call, Good, Interface, Row};

/// A row with what is kept beside it.
#[derive(Debug, Drop)]
pub(crate) struct Kept {
    pub(crate) row: Row,
    /// The number of live rows with its id as their parent.
    pub(crate) children: u64,
    /// Whether it ends with the descriptor that ends; told at the end of each that has children, of the rows from its own on.
    pub(crate) ends: bool,
}

/// Rows under their ids, in ascending ids.
pub(crate) type KeptRows = IndexMap<u64, Kept>;

/// Adds a row without children, last. It takes no memory.
pub(crate) fn add_row(kept: &mut KeptRows, row: Row)
    requires room { 1 ≤ spare kept.old }
    requires keyed { AreKeyed kept.old.entries }
    requires unknown { row_at (rows_in kept.old.entries) row.id ≡ None }
    ensures { kept.new.entries ≡ kept.old.entries ++ (row.id, record { row = row; children = 0; ends = false }) ∷ [] }
{
    let id = row.id;
    let new = Kept {
        row,
        children: 0,
        ends: false,
    };
    match kept.insert(id, new) {
        Ok(_) => {}
        Err(_) => unreachable!(),
    }
}

/// Does to a row what an Ok of a function does that changes it. It takes no memory.
pub(crate) fn change_row(row: &mut Row, interface: &Interface, call: &Call, good: &Good)
    requires { EachNew IsDraftWord call.now good.now (fun_at interface.now.facts.funs call.now.fun).effects row.old.fields }
    ensures { row.new ≡ row_after interface.now.facts call.now good.now row.old }
{
    let fun = interface.fun(call.fun);
    row.state = fun.leaves.state_after(call.fun, row.state);
    set_words(&mut row.fields, fun.effects, call, good);
}
