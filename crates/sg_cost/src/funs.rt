// What calls of functions can cost.
ghost use Rattle.std.specs.Prelude.{◌≡◌, IfOk, List, map};
ghost use Rattle.sg_cost.specs.Costs.{all_lengths, fun_cost, greatest};
ghost use Rattle.sg_cost.specs.Inside.Pieces.{declared_funs};
ghost use Rattle.sg_cost.specs.Inside.Fronts.{AreFewRows};
ghost use Rattle.sg_cost.specs.Inside.Lines.{line_cost};
ghost use Rattle.sg_facts.specs.declared.row.Row.{Row as IsRow};
ghost use Rattle.sg_facts.specs.declared.tables.WalkLine.{WalkLine as IsLine};
ghost use Rattle.sg_needs.specs.sg_track.Tracked.{AreTracked};

use crate::lines::deepest_line;
use crate::{FunCost, FunCostList};
use sg_facts::{END_OF_FUNS, Interface, NoMemory, Tables};
use sg_needs::{Tracker, wants_all};
use std::alloc::Global;

/// The declared functions, ascending, each with the most that one of its calls can cost, where the walks of all live rows have so many
/// calls together.
pub(crate) fn fun_costs(
    alloc: Global,
    tables: &Tables,
    rows: &Tracker,
    all: u64,
) -> Result<FunCostList, NoMemory>
    requires rows { AreFewRows rows.now.rows }
    requires all { all ≡ all_lengths tables.now.walks rows.now.rows }
    ensures { IfOk result (λ costs. costs ≡ map (fun_cost tables.now.iface tables.now.walks rows.now.rows) (declared_funs tables.now.iface)) }
{
    let _ = rows.live();
    let deepest = deepest_line(alloc, tables, rows)?;
    let iface = tables.interface();
    let mut costs = FunCostList::new(alloc);
    'funs: for fun in 1..END_OF_FUNS {
        if iface.declares(fun) {
            let cost = most_of(iface, fun, all, deepest);
            costs.push(FunCost { fun, cost })?;
        }
    }
    Ok(costs)
}

// The most that a call of a function can cost, where the walks of all live rows have so many calls together, and those of a row and its
// ancestors at most so many.
fn most_of(iface: &Interface, fun: u8, all: u64, deepest: u64) -> u64
    ensures { (walks : List IsLine) (given : _) (rows : List IsRow) → AreTracked given rows → all ≡ all_lengths walks rows
        → deepest ≡ greatest (map (λ r. line_cost walks rows r.id) rows) → result ≡ (fun_cost iface.now walks rows fun).cost }
{
    if wants_all(iface, fun) {
        all
    } else if iface.fun(fun).takes_id() {
        deepest
    } else {
        0
    }
}
