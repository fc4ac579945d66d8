// Lists of one.
ghost use Rattle.std.specs.Prelude.{◌≡◌, [], ◌∷◌, IfOk, vec_capacity};

use sg_facts::{ListOf, NoMemory};
use std::alloc::Global;

/// The list of this. Most calls have one argument and most answers one word, so that it takes room for one alone; a push to
/// an empty list would take more.
pub fn list_of_one<E: Drop>(alloc: Global, item: E) -> Result<ListOf<E>, NoMemory>
    ensures { IfOk result (λ list. list ≡ item ∷ []) }
{
    Ok(ListOf::from_vec(vec_of_one(alloc, item)?))
}

// The vector of this, with room for it alone.
fn vec_of_one<E: Drop>(alloc: Global, item: E) -> Result<Vec<E>, NoMemory>
    ensures items { IfOk result (λ made. made.items ≡ item ∷ []) }
    ensures room { IfOk result (λ made. vec_capacity made ≡ 1) }
{
    let mut items = Vec::with_capacity(alloc, 1)?;
    items.push_reserved(item);
    Ok(items)
}
