// What the calls of a run could cost after one more stop.
ghost use Rattle.std.specs.Prelude.{◌≡◌, ◌≤◌, [], IfOk, length};
ghost use Rattle.sg_cost.specs.Costs.{IsClients, costs_at, most_entries, AreFewInEach};
ghost use Rattle.sg_cost.specs.Inside.Pieces.{costs_with};
ghost use Rattle.sg_cost.specs.Inside.Fronts.{AreFewRows, AreInRun, MayBeTracked};
ghost use Rattle.sg_facts.specs.Interface.{HasFewFields};
ghost use Rattle.sg_facts.specs.Legal.{IsLegal};
ghost use Rattle.sg_facts.specs.Trace.{run_of};
ghost use Rattle.sg_facts.specs.sg_base.Lists.{Each};
ghost use Rattle.sg_report.specs.sg_hist.Ending.{HasRecovered};
ghost use Rattle.sg_report.specs.sg_hist.Clients.{AreNumbered};

use crate::boots::boot_costs;
use crate::front::FirstRows;
use crate::funs::fun_costs;
use crate::rows::{row_costs, total};
use crate::words::read_words;
use crate::{BootCostList, Costs};
use sg_facts::{NoMemory, Service, Tables, Trace};
use sg_needs::Tracker;
use sg_report::{Ended, History};
use std::alloc::Global;

/// What the calls of a run could cost after one more stop, and what those of each boot cost: the live descriptors with the calls of
/// their walks, the declared functions with the most replayed calls that one of their calls can need, the sum over all live descriptors,
/// and the boots with their replayed calls beside a bound. The run has recovered, and its history is legal; no boot needs more than its
/// bound. The time grows with the entries, the items, and the boots times the live descriptors. The only error is want of memory.
pub fn costs_of<S: Service>(
    alloc: Global,
    tables: &Tables,
    ended: &Ended,
) -> Result<Costs, NoMemory>
    requires service { tables.now.iface.facts ≡ S.facts }
    requires recovered { HasRecovered (record { interface = tables.now.iface; ask = S.ask; parts = S.parts; walks = tables.now.walks }) ended.now.history.items (run_of ended.now.trace) ended.now.ends }
    requires legal { IsLegal tables.now.iface S.ask ended.now.history.items }
    requires numbered { AreNumbered [] ended.now.history.items }
    requires calls { Each (λ e. IsClients tables.now.iface.facts e.call) ended.now.history.items }
    requires few { length ended.now.history.items ≤ most_entries }
    ensures costs { IfOk result (λ costs. costs ≡ costs_at tables.now.iface tables.now.walks ended.now.history.items (run_of ended.now.trace)) }
    ensures few { AreFewInEach tables.now.iface tables.now.walks ended.now.history.items (run_of ended.now.trace) }
    ensures within { IfOk result (λ costs. Each (λ b. b.walks ≤ b.bound) costs.boots) }
{
    let _ = tables.lines();
    read_words(&ended.history);
    costs_in(alloc, tables, &ended.history, &ended.trace)
}

// What the calls of a run cost, where each entry of its history may be tracked.
fn costs_in(
    alloc: Global,
    tables: &Tables,
    history: &History,
    trace: &Trace,
) -> Result<Costs, NoMemory>
    requires fields { HasFewFields tables.now.iface }
    requires few { length history.now.items ≤ most_entries }
    requires may { MayBeTracked tables.now.iface.facts history.now.items }
    requires run { AreInRun tables.now.iface.facts history.now.items (run_of trace.now) }
    ensures { IfOk result (λ costs. costs ≡ costs_at tables.now.iface tables.now.walks history.now.items (run_of trace.now)) }
{
    let mut front = FirstRows::new(alloc);
    let boots = boot_costs(alloc, tables, history, trace, &mut front)?;
    front.finish(alloc, tables, history)?;
    costs_with(alloc, tables, &front.rows, boots)
}

// What calls cost where these rows are live, with what the boots cost.
fn costs_with(
    alloc: Global,
    tables: &Tables,
    live: &Tracker,
    boots: BootCostList,
) -> Result<Costs, NoMemory>
    requires { AreFewRows live.now.rows }
    ensures { IfOk result (λ costs. costs ≡ costs_with tables.now.iface tables.now.walks live.now.rows boots) }
{
    let rows = row_costs(alloc, tables, live)?;
    let all = total(rows.as_slice());
    let functions = fun_costs(alloc, tables, live, all)?;
    Ok(Costs {
        rows,
        functions,
        all,
        boots,
    })
}
