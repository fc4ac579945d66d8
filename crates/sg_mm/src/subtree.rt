// The end of a page with all below it.
ghost use Rattle.std.specs.Prelude.{◌≡◌, filter, not, IfOk};
ghost use Rattle.sg_mm.specs.Inside.Children.{has_id, AreAboveParents, IsSubtree};
ghost use Rattle.sg_mm.specs.Inside.MmIndex.{AreAscending, IsNext};

use crate::Page;
use crate::child::{Child, add_children};
use sg_facts::NoMemory;
use std::alloc::Global;
use std::collections::{BTreeMap, BTreeSet};
use std::ops::Bound;

/// The ids of the pages that end with one: its own, and those below it. Only these are looked at, in the order of their ids,
/// and a page's is above its parent's: so when a page is looked at, those below it are still to come.
pub(crate) fn ending(
    alloc: Global,
    children: &BTreeSet<Child>,
    id: u64,
) -> Result<BTreeSet<u64>, NoMemory>
    requires { AreAboveParents children.now }
    ensures { IfOk result (IsSubtree children.now id) }
{
    let mut ends = BTreeSet::new(alloc);
    ends.insert(id)?;
    let mut next = Some(id);
    'ids: while let Some(parent) = next {
        add_children(&mut ends, children, parent)?;
        next = next_id(&ends, parent);
    }
    Ok(ends)
}

// The least id of a set above one; None where there is none.
fn next_id(ids: &BTreeSet<u64>, id: u64) -> Option<u64>
    ensures { IsNext ids.now id result }
{
    ids.range((Bound::Excluded(id), Bound::Unbounded))
        .next()
        .copied()
}

/// Removes the pages of the ids that end. It takes no memory.
pub(crate) fn end_all(pages: &mut BTreeMap<u64, Page>, ends: &BTreeSet<u64>)
    requires { AreAscending pages.old.entries }
    ensures { pages.new.entries ≡ filter (λ e. not (has_id ends.now e.0)) pages.old.entries }
{
    'ids: for id in ends.iter() {
        pages.remove(id);
    }
}
