// The services: which of them an interface is of, and what is done in one thread with the service of an interface: runs of scripts, the judgement
// of their histories, and what their runs cost.
ghost use Rattle.std.specs.Prelude.{◌≡◌, ◌≤◌, true, map, length, IfOk};
ghost use Rattle.sg_cost.specs.Costs.{costs_at};
ghost use Rattle.sg_multi.specs.sg_facts.Facts.{facts_of};
ghost use Rattle.sg_multi.specs.sg_facts.Limits.{most_script_calls};
ghost use Rattle.sg_multi.specs.sg_facts.Trace.{run_of};
ghost use Rattle.sg_multi.specs.sg_facts.sg_base.Lists.{Each};
ghost use Rattle.sg_load.specs.Services.{facts_by};
ghost use Rattle.sg_load.specs.sg_check_statements.Shapes.{are_shapes};
ghost use Rattle.sg_verify.specs.sg_report.sg_hist.Clients.{MayBeMade};
ghost use Rattle.sg_explore.specs.sg_shared.Runs.{IsRunInOrder};
ghost use Rattle.sg_multi.specs.Serving.{answering_at};
ghost use Rattle.sg_top.specs.Answer.{services};
ghost use Rattle.sg_top.specs.Inside.Plays.{IsPlayOf, IsPlayed, IsPlayedOn, IsVerdictBy, MayBeJudged, MayBeJudgedOn, MayBePlayed, MayBePlayedOn};

use crate::dispatch::at_served;
use crate::job::Job;
use sg_cost::{Costs, costs_of};
use sg_explore::{Played, simulate};
use sg_judge::{History, Script};
use sg_load::{Accepted, ServiceKind};
use sg_multi::{Interface, NoMemory, Served, Service, Shape, Tables};
use sg_verify::{Ended, Verdict, verify};
use std::alloc::Global;

/// The services whose interfaces may be accepted.
pub fn shapes() -> [Shape; 6]
    ensures facts { map facts_of result ≡ services }
    ensures shapes { are_shapes (map facts_of result) ≡ true }
{
    ServiceKind::shapes()
}

/// Which service an interface is of, by its name.
pub fn kind_of(iface: &Interface) -> ServiceKind
    requires { IsPlayed iface.now.facts }
    ensures { facts_by result ≡ iface.now.facts }
{
    match ServiceKind::named(iface.shape.name) {
        Some(kind) => kind,
        None => unreachable!(),
    }
}

// ---- a run

// A run of a script in one thread.
#[derive(Drop)]
struct Simulate<'a> {
    alloc: Global,
    accepted: &'a Accepted,
    script: Script,
}

impl Job for Simulate<'_> {
    type Output = Result<Played, NoMemory>;

    ghost asks = { λ job service. MayBePlayed job.accepted.now service job.script };

    ghost gives = { λ job service result. IfOk result (IsRunInOrder job.accepted.now service job.script) };

    fn run<S: Service>(self, image: S::Image) -> Result<Played, NoMemory> {
        simulate::<S>(self.alloc, image, self.accepted, self.script)
    }
}

/// The run of a script under an accepted interface of a service, in one thread.
pub fn simulate_served(
    alloc: Global,
    served: Served,
    accepted: &Accepted,
    script: Script,
) -> Result<Played, NoMemory>
    requires { MayBePlayedOn accepted.now served script }
    ensures { IfOk result (IsRunInOrder accepted.now (answering_at served) script) }
{
    let job = Simulate {
        alloc,
        accepted,
        script,
    };
    at_served(served, job)
}

// ---- a history

// What is said of a history.
#[derive(Drop)]
struct Verify<'a> {
    alloc: Global,
    tables: &'a Tables,
    history: &'a History,
}

impl Job for Verify<'_> {
    type Output = Result<Verdict, NoMemory>;

    ghost asks = { λ job service. MayBeJudged job.tables.now.iface service job.history.now.items };

    ghost gives = { λ job service result. IfOk result (IsVerdictBy job.tables.now.iface service job.history.now.items) };

    fn run<S: Service>(self, image: S::Image) -> Result<Verdict, NoMemory> {
        verify_run::<S>(self.alloc, image, self.tables, self.history)
    }
}

/// What is said of a history of a service's interface. Each call has to be one that a client may make, and there are no more than a
/// script may have.
pub fn verify_served(
    alloc: Global,
    served: Served,
    tables: &Tables,
    history: &History,
) -> Result<Verdict, NoMemory>
    requires { MayBeJudgedOn tables.now.iface served history.now.items }
    ensures { IfOk result (IsVerdictBy tables.now.iface (answering_at served) history.now.items) }
{
    let job = Verify {
        alloc,
        tables,
        history,
    };
    at_served(served, job)
}

// What is said of a history of one service's interface.
fn verify_run<S: Service>(
    alloc: Global,
    image: S::Image,
    tables: &Tables,
    history: &History,
) -> Result<Verdict, NoMemory>
    requires service { tables.now.iface.facts ≡ S.facts }
    requires calls { Each (λ e. MayBeMade tables.now.iface e.call) history.now.items }
    requires few { length history.now.items ≤ most_script_calls }
    ensures { IfOk result (IsVerdictBy tables.now.iface (record { facts = S.facts; ask = S.ask; parts = S.parts }) history.now.items) }
{
    verify::<S>(alloc, image, tables, history)
}

// ---- costs

// What the calls of a run could cost.
#[derive(Drop)]
struct Cost<'a> {
    alloc: Global,
    tables: &'a Tables,
    ended: &'a Ended,
}

impl Job for Cost<'_> {
    type Output = Result<Costs, NoMemory>;

    ghost asks = { λ job service. (job.tables.now.iface.facts ≡ service.facts) × IsPlayOf job.tables.now.iface service job.ended.now };

    ghost gives = { λ job service result.
        IfOk result (λ costs. costs ≡ costs_at job.tables.now.iface job.tables.now.walks job.ended.now.history.items (run_of job.ended.now.trace)) };

    fn run<S: Service>(self, _image: S::Image) -> Result<Costs, NoMemory> {
        cost_run::<S>(self.alloc, self.tables, self.ended)
    }
}

/// What the calls of a run of a service could cost after one more stop.
pub fn cost_served(
    alloc: Global,
    served: Served,
    tables: &Tables,
    ended: &Ended,
) -> Result<Costs, NoMemory>
    requires { IsPlayedOn tables.now.iface served ended.now }
    ensures { IfOk result (λ costs. costs ≡ costs_at tables.now.iface tables.now.walks ended.now.history.items (run_of ended.now.trace)) }
{
    let job = Cost {
        alloc,
        tables,
        ended,
    };
    at_served(served, job)
}

// What the calls of a run of one service could cost.
fn cost_run<S: Service>(alloc: Global, tables: &Tables, ended: &Ended) -> Result<Costs, NoMemory>
    requires service { tables.now.iface.facts ≡ S.facts }
    requires run { IsPlayOf tables.now.iface (record { facts = S.facts; ask = S.ask; parts = S.parts }) ended.now }
    ensures { IfOk result (λ costs. costs ≡ costs_at tables.now.iface tables.now.walks ended.now.history.items (run_of ended.now.trace)) }
{
    let _ = tables.lines();
    costs_of::<S>(alloc, tables, ended)
}
