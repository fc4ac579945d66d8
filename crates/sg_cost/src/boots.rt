// What the boots of a run cost.
ghost use Rattle.std.specs.Prelude.{◌≡◌, ◌≤◌, [], IfOk, OnOk, length, true};
ghost use Rattle.sg_cost.specs.Costs.{boot_costs, most_entries};
ghost use Rattle.sg_report.specs.Report.{replays_for};
ghost use Rattle.sg_cost.specs.Inside.Fronts.{AreInRun, IsFront, MayBeTracked};
ghost use Rattle.sg_facts.specs.Interface.{HasFewFields};
ghost use Rattle.sg_facts.specs.Trace.{run_of};

use crate::front::FirstRows;
use crate::last_boots::last_boots;
use crate::rows::all_walks;
use crate::{BootCost, BootCostList};
use sg_facts::{ItemList, NoMemory, Tables, Trace};
use sg_report::{History, is_replay};
use std::alloc::Global;

/// The replayed calls of each boot that were answered, beside the calls of the walks of all rows that were live when it began. The rows
/// go on from none to those of the last boot's beginning.
pub(crate) fn boot_costs(
    alloc: Global,
    tables: &Tables,
    history: &History,
    trace: &Trace,
    front: &mut FirstRows,
) -> Result<BootCostList, NoMemory>
    requires fields { HasFewFields tables.now.iface }
    requires few { length history.now.items ≤ most_entries }
    requires may { MayBeTracked tables.now.iface.facts history.now.items }
    requires run { AreInRun tables.now.iface.facts history.now.items (run_of trace.now) }
    requires front { IsFront tables.now.iface.facts history.now.items front.old.place front.old.rows }
    requires begun { front.old.place ≡ 0 }
    ensures costs { IfOk result (λ costs. costs ≡ boot_costs tables.now.iface.facts tables.now.walks history.now.items [] (run_of trace.now).boots) }
    ensures front { OnOk result (IsFront tables.now.iface.facts history.now.items front.new.place front.new.rows) }
{
    let last = last_boots(alloc, trace.boots.as_slice())?;
    let mut costs = BootCostList::new(alloc);
    'boots: for (at, boot) in trace.boots.as_slice().iter().enumerate() {
        front.advance(alloc, tables, history, &last, at as u64)?;
        costs.push(BootCost {
            walks: replays_in(&boot.items),
            bound: all_walks(alloc, tables, &front.rows)?,
        })?;
    }
    Ok(costs)
}

// How many of these items are replayed calls that were answered.
#[tactic(auto, using(std::proofs::lemmas::Grind::common_steps, sg_facts::proofs::Places::take_next))]
fn replays_in(items: &ItemList) -> u64
    ensures { result ≡ replays_for (λ id. true) items.now.items }
{
    let mut count = 0;
    'items: for at in 0..items.len() {
        if is_replay(&items.at(at)) {
            count += 1;
        }
    }
    count
}
