// The number of children that is kept beside each row.
ghost use Rattle.std.specs.Prelude.{◌≡◌, ◌+◌, ◌<◌, ◌^◌, ℕ};
ghost use Rattle.std.specs.Map.{values_of};
ghost use Rattle.indexmap.specs.IndexMap.{spare};
ghost use Rattle.sg_facts.specs.sg_base.Lists.{Each};
ghost use Rattle.sg_track.specs.Kept.{AreKeyed, Ascends, Counts, children_of, less_at, more_at, others_of, rows_in};

use crate::kept::KeptRows;
use crate::places::{parent_of, place_of};

/// Counts one more child of the row of an id; nothing where there is no row.
pub(crate) fn count_child(kept: &mut KeptRows, id: u64)
    requires ascends { Ascends kept.old.entries }
    requires few { Each (λ k. k.children + 1 < 2 ^ 64) (values_of kept.old.entries) }
    ensures spare { spare kept.new ≡ spare kept.old }
    ensures keyed { AreKeyed kept.new.entries }
    ensures rows { rows_in kept.new.entries ≡ rows_in kept.old.entries }
    ensures counts { (number : ℕ → ℕ) → Counts number (values_of kept.old.entries) → Counts (more_at id number) (values_of kept.new.entries) }
{
    if let Some(place) = place_of(kept, id) {
        kept[place].children += 1;
    }
}

// Counts one child less of the row of an id; nothing where there is no row.
fn discount_child(kept: &mut KeptRows, id: u64)
    requires { Ascends kept.old.entries }
    ensures spare { spare kept.new ≡ spare kept.old }
    ensures keyed { AreKeyed kept.new.entries }
    ensures rows { rows_in kept.new.entries ≡ rows_in kept.old.entries }
    ensures counts { (number : ℕ → ℕ) → Counts number (values_of kept.old.entries) → Counts (less_at id number) (values_of kept.new.entries) }
{
    if let Some(place) = place_of(kept, id) {
        let children = kept[place].children;
        kept[place].children = children.saturating_sub(1);
    }
}

/// Takes the row of an id out of its parent's count.
pub(crate) fn discount_row(kept: &mut KeptRows, id: u64)
    requires { Ascends kept.old.entries }
    ensures spare { spare kept.new ≡ spare kept.old }
    ensures keyed { AreKeyed kept.new.entries }
    ensures rows { rows_in kept.new.entries ≡ rows_in kept.old.entries }
    ensures counts { Counts (children_of (rows_in kept.old.entries)) (values_of kept.old.entries) → Counts (others_of id (rows_in kept.old.entries)) (values_of kept.new.entries) }
{
    let parent = parent_of(kept, id);
    discount_child(kept, parent);
}
