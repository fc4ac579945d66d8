// The index of the pages by their places.
ghost use Rattle.std.specs.Prelude.{◌≡◌, ℕ, ◌==◌, not, OnOk, OnErr};
ghost use Rattle.std.proofs.lemmas.Map.Entries.{option_filter};
ghost use Rattle.sg_mm.specs.Inside.Children.{has_id};
ghost use Rattle.sg_mm.specs.Inside.MmIndex.{id_in, ArePlaced, Gains, Keeps, Loses};

use crate::{Page, PageKey};
use sg_facts::NoMemory;
use std::collections::{BTreeMap, BTreeSet};

/// The id of the page in a place; None where there is none.
pub(crate) fn id_in(places: &BTreeMap<PageKey, u64>, place: PageKey) -> Option<u64>
    ensures { result ≡ id_in places.now place }
{
    places.get(&place).copied()
}

/// Puts an id in a place. After `NoMemory` the places are as before.
pub(crate) fn put(
    places: &mut BTreeMap<PageKey, u64>,
    place: PageKey,
    id: u64,
) -> Result<(), NoMemory>
    ensures ok { OnOk result (Gains places.old places.new place id) }
    ensures err { OnErr result (Keeps places.old places.new) }
{
    places.insert(place, id)?;
    Ok(())
}

/// Frees a place. It takes no memory.
pub(crate) fn free(places: &mut BTreeMap<PageKey, u64>, place: PageKey)
    ensures { Loses places.old places.new place }
{
    places.remove(&place);
}

/// Frees the places of the pages that end. It takes no memory.
pub(crate) fn free_all(
    places: &mut BTreeMap<PageKey, u64>,
    pages: &BTreeMap<u64, Page>,
    ends: &BTreeSet<u64>,
)
    requires { ArePlaced pages.now.entries places.old }
    ensures { (place : PageKey) → id_in places.new place ≡ option_filter (λ id. not (has_id ends.now id)) (id_in places.old place) }
{
    'ids: for id in ends.iter() {
        free_page(places, pages, *id);
    }
}

// Frees the place of a page.
fn free_page(places: &mut BTreeMap<PageKey, u64>, pages: &BTreeMap<u64, Page>, id: u64)
    requires { ArePlaced pages.now.entries places.old }
    ensures { (place : PageKey) → id_in places.new place ≡ option_filter (λ n. not (n == id)) (id_in places.old place) }
{
    if let Some(page) = pages.get(&id) {
        free(places, page.place());
    }
}
