// The end of a row, alone or with all below it.
ghost use Rattle.std.specs.Prelude.{◌≡◌, ◌<◌, ◌≤◌, ℕ, filter, length, nat_eq, not};
ghost use Rattle.std.specs.Map.{remove_entry, values_of};
ghost use Rattle.indexmap.specs.IndexMap.{spare};
ghost use Rattle.sg_facts.specs.sg_base.Lists.{Each};
ghost use Rattle.sg_track.specs.Kept.{AreKeyed, Ascends, Counts, IsTold, TellsAt, ends_below, is_marked, rows_in};

use crate::kept::{Kept, KeptRows};
use crate::places::{first_from, place_of};

/// Marks each row that ends with an id: it is the id's, or below it. The first row that is looked at is the id's own, since those
/// below it were made after it; each is looked at once, after its parent.
pub(crate) fn mark_below(kept: &mut KeptRows, id: u64)
    requires { Ascends kept.old.entries }
    ensures spare { spare kept.new ≡ spare kept.old }
    ensures keyed { AreKeyed kept.new.entries }
    ensures rows { rows_in kept.new.entries ≡ rows_in kept.old.entries }
    ensures marked { Each (λ k. is_marked id k ≡ ends_below (rows_in kept.old.entries) id k.row.id) (values_of kept.new.entries) }
    ensures counts { (number : ℕ → ℕ) → Counts number (values_of kept.old.entries) → Counts number (values_of kept.new.entries) }
{
    'rows: for at in first_from(kept, id)..kept.len() {
        let ends = ends_below(kept, at, id);
        kept[at].ends = ends;
    }
}

// Whether the row at a place ends with an id, where this was told of those before it.
fn ends_below(kept: &KeptRows, at: usize, id: u64) -> bool
    requires within { at < length kept.now.entries }
    requires ascends { Ascends kept.now.entries }
    requires before { (k : ℕ) → k < at → IsTold id (values_of kept.now.entries) k }
    ensures { TellsAt id (values_of kept.now.entries) at result }
{
    let row = &kept[at].row;
    row.id == id
        || (row.parent != 0
            && (row.parent == id
                || (id < row.parent
                    && match place_of(kept, row.parent) {
                        Some(place) => kept[place].ends,
                        None => false,
                    })))
}

/// Removes the rows that are marked to end with an id.
pub(crate) fn close_up(kept: &mut KeptRows, id: u64)
    ensures entries { kept.new.entries ≡ filter (λ e. not (is_marked id e.1)) kept.old.entries }
    ensures spare { spare kept.old ≤ spare kept.new }
{
    kept.retain(
        |_id: &u64, one: &mut Kept| -> bool
            ensures { (result ≡ not (is_marked id one.old)) × (one.new ≡ one.old) }
        { !(id <= one.row.id && one.ends) },
    );
}

/// Removes the row of an id, if there is one. Those after it move up.
pub(crate) fn remove_row(kept: &mut KeptRows, id: u64)
    ensures entries { kept.new.entries ≡ remove_entry (nat_eq id) kept.old.entries }
    ensures spare { spare kept.old ≤ spare kept.new }
{
    kept.shift_remove(&id);
}
