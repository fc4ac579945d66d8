// The way to a service: one for what is done in one thread, and one for each of what is done in several.
ghost use Rattle.std.specs.Prelude.{◌≡◌, ◌≤◌, IfOk};
ghost use Rattle.sg_edge.specs.Stops.{AscendsAbove};
ghost use Rattle.sg_explore.specs.Explored.{IsExplored};
ghost use Rattle.sg_explore.specs.Tried.{most_paired};
ghost use Rattle.sg_explore.specs.sg_shared.Runs.{IsRunOf};
ghost use Rattle.sg_load.specs.Services.{answering, facts_by};
ghost use Rattle.sg_load.specs.sg_plain.Playing.Playable.{IsPlayable};
ghost use Rattle.sg_multi.specs.Serving.{IsFit, IsOfServed, answering_at};
ghost use Rattle.sg_top.specs.Inside.Plays.{MayBePlayedOn};

use crate::job::Job;
use crate::own::{at_own, explore_own, share_own};
use sg_edge::Gate;
use sg_explore::{Explored, Played, Progress, explore, share};
use sg_judge::Script;
use sg_load::kind::{
    EventService, LockService, MmService, RamfsService, SchedService, TimerService,
};
use sg_load::{Accepted, ServiceKind};
use sg_multi::{NoMemory, Served};
use std::alloc::Global;
use std::sync::Wait;
use std::thread::Threads;

/// Does a job with the service of an interface.
pub fn at_served<J: Job>(served: Served, job: J) -> J::Output
    requires fit { IsFit served }
    requires asks { J.asks job (answering_at served) }
    ensures { J.gives job (answering_at served) result }
{
    match served {
        Served::BuiltIn(kind) => at_service(kind, job),
        Served::Own(description) => at_own(description, job),
    }
}

// Does a job with the service of a kind.
fn at_service<J: Job>(kind: ServiceKind, job: J) -> J::Output
    requires { J.asks job (answering kind) }
    ensures { J.gives job (answering kind) result }
{
    match kind {
        ServiceKind::Locks => job.run::<LockService>(()),
        ServiceKind::Events => job.run::<EventService>(()),
        ServiceKind::Pages => job.run::<MmService>(()),
        ServiceKind::Files => job.run::<RamfsService>(()),
        ServiceKind::Threads => job.run::<SchedService>(()),
        ServiceKind::Timers => job.run::<TimerService>(()),
    }
}

// ---- in several threads

/// The run of a script under an accepted interface of a service, with a thread for each client, which passes the gate around each of its
/// calls.
pub fn share_served<R: Threads + Wait + Sync, G: Gate>(
    rt: &R,
    alloc: Global,
    served: Served,
    accepted: &Accepted,
    script: Script,
    gate: &G,
) -> Result<Played, NoMemory>
    requires service { IsOfServed accepted.now served }
    requires playable { IsPlayable accepted.now script }
    requires stops { AscendsAbove 0 script.stops }
    ensures { IfOk result (IsRunOf accepted.now (answering_at served) script) }
{
    match served {
        Served::BuiltIn(kind) => share_kind(rt, alloc, kind, accepted, script, gate),
        Served::Own(description) => share_own(rt, alloc, description, accepted, script, gate),
    }
}

// The same on the service of a kind.
fn share_kind<R: Threads + Wait + Sync, G: Gate>(
    rt: &R,
    alloc: Global,
    kind: ServiceKind,
    accepted: &Accepted,
    script: Script,
    gate: &G,
) -> Result<Played, NoMemory>
    requires service { accepted.now.facts ≡ facts_by kind }
    requires playable { IsPlayable accepted.now script }
    requires stops { AscendsAbove 0 script.stops }
    ensures { IfOk result (IsRunOf accepted.now (answering kind) script) }
{
    match kind {
        ServiceKind::Locks => share::<R, LockService, G>(rt, alloc, (), accepted, script, gate),
        ServiceKind::Events => share::<R, EventService, G>(rt, alloc, (), accepted, script, gate),
        ServiceKind::Pages => share::<R, MmService, G>(rt, alloc, (), accepted, script, gate),
        ServiceKind::Files => share::<R, RamfsService, G>(rt, alloc, (), accepted, script, gate),
        ServiceKind::Threads => share::<R, SchedService, G>(rt, alloc, (), accepted, script, gate),
        ServiceKind::Timers => share::<R, TimerService, G>(rt, alloc, (), accepted, script, gate),
    }
}

/// What is found by runs of a script with other stops, under an accepted interface of a service: with a stop at each point, and with each
/// two up to a point.
pub fn explore_served<R: Threads + Sync, P: Progress>(
    rt: &R,
    alloc: Global,
    served: Served,
    accepted: &Accepted,
    script: &Script,
    most: u64,
    progress: &P,
) -> Result<Explored, NoMemory>
    requires may { MayBePlayedOn accepted.now served script.now }
    requires most { most ≤ most_paired }
    ensures { IfOk result (IsExplored accepted.now (answering_at served) script.now most) }
{
    match served {
        Served::BuiltIn(kind) => explore_kind(rt, alloc, kind, accepted, script, most, progress),
        Served::Own(description) => {
            explore_own(rt, alloc, description, accepted, script, most, progress)
        }
    }
}

// The same on the service of a kind.
fn explore_kind<R: Threads + Sync, P: Progress>(
    rt: &R,
    alloc: Global,
    kind: ServiceKind,
    accepted: &Accepted,
    script: &Script,
    most: u64,
    progress: &P,
) -> Result<Explored, NoMemory>
    requires service { accepted.now.facts ≡ facts_by kind }
    requires playable { IsPlayable accepted.now script.now }
    requires most { most ≤ most_paired }
    ensures { IfOk result (IsExplored accepted.now (answering kind) script.now most) }
{
    match kind {
        ServiceKind::Locks => {
            explore::<R, LockService, P>(rt, alloc, (), accepted, script, most, progress)
        }
        ServiceKind::Events => {
            explore::<R, EventService, P>(rt, alloc, (), accepted, script, most, progress)
        }
        ServiceKind::Pages => {
            explore::<R, MmService, P>(rt, alloc, (), accepted, script, most, progress)
        }
        ServiceKind::Files => {
            explore::<R, RamfsService, P>(rt, alloc, (), accepted, script, most, progress)
        }
        ServiceKind::Threads => {
            explore::<R, SchedService, P>(rt, alloc, (), accepted, script, most, progress)
        }
        ServiceKind::Timers => {
            explore::<R, TimerService, P>(rt, alloc, (), accepted, script, most, progress)
        }
    }
}
