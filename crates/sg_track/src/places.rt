// Where a row stands among those that are kept.
ghost use Rattle.std.specs.Prelude.{◌≡◌, ◌<◌, ◌≤◌, ◌==◌, None, drop, length, map, nat_lt, take, IfOk, MatchOption};
ghost use Rattle.std.specs.List.{list_any};
ghost use Rattle.std.specs.Map.{values_of};
ghost use Rattle.sg_facts.specs.sg_base.Lists.{Each};
ghost use Rattle.sg_facts.specs.Track.{ancestors, row_at};
ghost use Rattle.sg_facts.specs.Inside.Rows.{parent_in};
ghost use Rattle.sg_track.specs.Kept.{AreKeyed, Ascends, HasRow, rows_in};

use crate::kept::{Kept, KeptRows};
use sg_facts::{IdList, NoMemory};
use std::alloc::Global;

/// The place of an id among rows under their ids; None exactly where no row has it.
pub(crate) fn place_of(kept: &KeptRows, id: u64) -> Option<usize>
    requires { AreKeyed kept.now.entries }
    ensures { MatchOption result (row_at (rows_in kept.now.entries) id ≡ None) (λ at. HasRow (values_of kept.now.entries) at id) }
{
    kept.get_index_of(&id)
}

/// The place of the first row whose id is this or greater; the number of rows where there is none.
pub(crate) fn first_from(kept: &KeptRows, id: u64) -> usize
    requires { Ascends kept.now.entries }
    ensures within { result ≤ length kept.now.entries }
    ensures before { Each (λ r. r.id < id) (take result (rows_in kept.now.entries)) }
    ensures after { Each (λ r. id ≤ r.id) (drop result (rows_in kept.now.entries)) }
{
    kept.partition_point(
        |_id: &u64, one: &Kept| -> bool
            ensures { result ≡ nat_lt one.now.row.id id }
        { one.row.id < id },
    )
}

/// The parent of an id; 0 where there is no row.
pub(crate) fn parent_of(kept: &KeptRows, id: u64) -> u64
    requires { AreKeyed kept.now.entries }
    ensures { result ≡ parent_in (row_at (rows_in kept.now.entries) id) }
{
    match kept.get(&id) {
        Some(one) => one.row.parent,
        None => 0,
    }
}

/// The ancestors of an id, nearest first.
pub(crate) fn ancestors_in(alloc: Global, kept: &KeptRows, id: u64) -> Result<IdList, NoMemory>
    requires { Ascends kept.now.entries }
    ensures { IfOk result (λ above. above ≡ ancestors (rows_in kept.now.entries) id) }
{
    let mut above = IdList::new(alloc);
    let mut parent = parent_of(kept, id);
    'up: while parent != 0 {
        above.push(parent)?;
        parent = parent_of(kept, parent);
    }
    Ok(above)
}

/// The ids of the rows, in their order.
pub(crate) fn ids_in(alloc: Global, kept: &KeptRows) -> Result<IdList, NoMemory>
    ensures { IfOk result (λ ids. ids ≡ map (λ r. r.id) (rows_in kept.now.entries)) }
{
    let mut ids = IdList::new(alloc);
    'rows: for at in 0..kept.len() {
        ids.push(kept[at].row.id)?;
    }
    Ok(ids)
}

/// Whether some row has the id as its parent.
pub(crate) fn has_child(kept: &KeptRows, id: u64) -> bool
    ensures { result ≡ list_any (λ k. k.row.parent == id) (values_of kept.now.entries) }
{
    kept.values().any(|one| one.row.parent == id)
}
