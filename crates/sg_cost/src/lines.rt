// What rows cost with their ancestors.
ghost use Rattle.std.specs.Prelude.{◌≡◌, ◌==◌, ◌+◌, ◌<◌, ◌^◌, ℕ, if◌then◌else◌, IfOk, OnOk, map};
ghost use Rattle.std.specs.Option.{option_copied};
ghost use Rattle.sg_cost.specs.Costs.{all_lengths, greatest, walk_length};
ghost use Rattle.sg_cost.specs.Inside.Fronts.{AreFewRows};
ghost use Rattle.sg_cost.specs.Inside.Lines.{kept_cost, line_cost};
ghost use Rattle.sg_facts.specs.Inside.Rows.{parent_in};

use crate::rows::walk_length;
use indexmap::IndexMap;
use sg_facts::{NoMemory, Row, Tables};
use sg_needs::Tracker;
use std::alloc::Global;

// The calls of the walks of each id and its ancestors.
type LineCosts = IndexMap<u64, u64>;

/// The most calls that the walks of a live row and its ancestors have, 0 where no row is live.
pub(crate) fn deepest_line(alloc: Global, tables: &Tables, rows: &Tracker) -> Result<u64, NoMemory>
    requires rows { AreFewRows rows.now.rows }
    requires few { all_lengths tables.now.walks rows.now.rows < 2 ^ 64 }
    ensures { IfOk result (λ most. most ≡ greatest (map (λ r. line_cost tables.now.walks rows.now.rows r.id) rows.now.rows)) }
{
    let _ = rows.live();
    let ids = rows.ids(alloc)?;
    let mut kept = LineCosts::new(alloc);
    let mut most = 0;
    'ids: for id in ids.as_slice() {
        let row = rows.row(*id);
        let cost = walk_length(tables, row) + kept_cost(&kept, parent_of(row));
        keep_cost(&mut kept, *id, cost)?;
        most = most.max(cost);
    }
    Ok(most)
}

// The parent of a row, 0 where there is no row.
fn parent_of(row: Option<&Row>) -> u64
    ensures { result ≡ parent_in (option_copied row.entry) }
{
    match row {
        Some(row) => row.parent,
        None => 0,
    }
}

// What is kept for an id, 0 for none.
fn kept_cost(kept: &LineCosts, id: u64) -> u64
    ensures { result ≡ kept_cost kept.now.entries id }
{
    match kept.get(&id) {
        Some(cost) => *cost,
        None => 0,
    }
}

// Keeps what an id costs.
fn keep_cost(kept: &mut LineCosts, id: u64, cost: u64) -> Result<(), NoMemory>
    ensures { OnOk result ((n : ℕ) → kept_cost kept.new.entries n ≡ (if n == id then cost else kept_cost kept.old.entries n)) }
{
    kept.reserve(1)?;
    match kept.insert(id, cost) {
        Ok(_) => Ok(()),
        Err(_) => unreachable!(),
    }
}
