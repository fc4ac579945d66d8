// The walks of live rows.
ghost use Rattle.std.specs.Prelude.{◌≡◌, ◌≤◌, Some, IfOk, length, map};
ghost use Rattle.std.specs.Option.{option_copied};
ghost use Rattle.sg_cost.specs.Costs.{all_lengths, most_entries, walk_length};
ghost use Rattle.sg_cost.specs.Inside.Pieces.{row_cost};
ghost use Rattle.sg_cost.specs.Inside.Fronts.{AreFewRows};
ghost use Rattle.sg_cost.specs.Inside.Lines.{total};
ghost use Rattle.sg_facts.specs.Limits.{most_fields};
ghost use Rattle.sg_facts.specs.Walks.{most_calls};
ghost use Rattle.sg_facts.specs.declared.row.Row.{Row as IsRow};
ghost use Rattle.sg_facts.specs.sg_base.Lists.{Each};

use crate::{RowCost, RowCostList};
use sg_facts::{NoMemory, Row, Tables};
use sg_needs::{Tracker, walk_of_row};
use std::alloc::Global;

/// The live rows, ascending, each with the number of calls of its walk.
pub(crate) fn row_costs(
    alloc: Global,
    tables: &Tables,
    rows: &Tracker,
) -> Result<RowCostList, NoMemory>
    requires { AreFewRows rows.now.rows }
    ensures costs { IfOk result (λ costs. costs ≡ map (row_cost tables.now.walks) rows.now.rows) }
    ensures few { IfOk result (λ costs. Each (λ c. c.walk ≤ most_calls) costs) }
{
    let _ = rows.live();
    let ids = rows.ids(alloc)?;
    let mut costs = RowCostList::new(alloc);
    'ids: for id in ids.as_slice() {
        let walk = walk_length(tables, rows.row(*id));
        costs.push(RowCost { id: *id, walk })?;
    }
    Ok(costs)
}

/// The number of calls of a row's walk, 0 where there is no row.
pub(crate) fn walk_length(tables: &Tables, row: Option<&Row>) -> u64
    requires { (r : IsRow) → option_copied row ≡ Some r → length r.fields ≤ most_fields }
    ensures length { result ≡ walk_length tables.now.walks (option_copied row.entry) }
    ensures few { result ≤ most_calls }
{
    match row {
        Some(row) => match walk_of_row(tables, row) {
            Some(walk) => walk.as_slice().len() as u64,
            None => 0,
        },
        None => 0,
    }
}

/// The calls of all these walks, together.
pub(crate) fn total(costs: &[RowCost]) -> u64
    requires few { length costs.now ≤ most_entries }
    requires walks { Each (λ c. c.walk ≤ most_calls) costs.now }
    ensures { result ≡ total costs.now }
{
    let mut sum = 0;
    'costs: for cost in costs {
        sum += cost.walk;
    }
    sum
}

/// The calls of the walks of all live rows, together.
pub(crate) fn all_walks(alloc: Global, tables: &Tables, rows: &Tracker) -> Result<u64, NoMemory>
    requires { AreFewRows rows.now.rows }
    ensures { IfOk result (λ all. all ≡ all_lengths tables.now.walks rows.now.rows) }
{
    let costs = row_costs(alloc, tables, rows)?;
    Ok(total(costs.as_slice()))
}
