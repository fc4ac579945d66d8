// The index of the pages by their parents.
ghost use Rattle.std.specs.Prelude.{◌≡◌, ℕ, ◌&&◌, ◌||◌, ◌==◌, not, true, OnOk, OnErr};
ghost use Rattle.sg_mm.specs.Inside.Children.{has_id, is_child, AreOfPages, AreAboveParents, HangsOne, TakesOneOff};

use crate::Page;
use sg_facts::NoMemory;
use std::collections::{BTreeMap, BTreeSet};

/// A page below another.
#[derive(Clone, Copy, Debug, PartialEq, Eq, PartialOrd, Ord)]
pub(crate) struct Child {
    pub parent: u64,
    pub id: u64,
}

/// Hangs an id below a parent, where one is named. After `NoMemory` the index is as before.
pub(crate) fn hang(
    children: &mut BTreeSet<Child>,
    below: Option<u64>,
    id: u64,
) -> Result<(), NoMemory>
    ensures ok { OnOk result (HangsOne children.old children.new below id) }
    ensures err { OnErr result (children.new ≡ children.old) }
{
    if let Some(parent) = below {
        children.insert(Child { parent, id })?;
    }
    Ok(())
}

/// Takes an id off its parent, where one is named. It takes no memory.
pub(crate) fn take_off(children: &mut BTreeSet<Child>, below: Option<u64>, id: u64)
    ensures { TakesOneOff children.old children.new below id }
{
    if let Some(parent) = below {
        children.remove(&Child { parent, id });
    }
}

/// Adds the ids of the pages below one to those of a set. After `NoMemory` some are added.
pub(crate) fn add_children(
    ends: &mut BTreeSet<u64>,
    children: &BTreeSet<Child>,
    parent: u64,
) -> Result<(), NoMemory>
    requires { AreAboveParents children.now }
    ensures { OnOk result ((id : ℕ) → has_id ends.new id ≡ (has_id ends.old id || is_child children.now parent id)) }
{
    let first = Child { parent, id: 0 };
    let last = Child {
        parent,
        id: u64::MAX,
    };
    'children: for child in children.range(first..=last) {
        ends.insert(child.id)?;
    }
    Ok(())
}

/// Takes the ids that end off their parents. It takes no memory.
pub(crate) fn take_off_all(
    children: &mut BTreeSet<Child>,
    pages: &BTreeMap<u64, Page>,
    ends: &BTreeSet<u64>,
)
    requires { AreOfPages pages.now.entries children.old }
    ensures { (parent id : ℕ) → is_child children.new parent id ≡ (is_child children.old parent id && not (has_id ends.now id)) }
{
    'ids: for id in ends.iter() {
        take_off_page(children, pages, *id);
    }
}

// Takes a page off its parent.
fn take_off_page(children: &mut BTreeSet<Child>, pages: &BTreeMap<u64, Page>, id: u64)
    requires { AreOfPages pages.now.entries children.old }
    ensures { (parent n : ℕ) → is_child children.new parent n ≡ (is_child children.old parent n && not (n == id)) }
{
    if let Some(page) = pages.get(&id) {
        children.remove(&Child {
            parent: page.parent,
            id,
        });
    }
}
