// The way to the service of a description, which is known only when the program runs: the type's description is picked at `Brand`.
ghost use Rattle.sg_multi.specs.Serving.{described_answering};
ghost use Rattle.std.specs.Prelude.{◌≡◌, ◌≤◌, true, IfOk};
ghost use Rattle.sg_edge.specs.Stops.{AscendsAbove};
ghost use Rattle.sg_explore.specs.Explored.{IsExplored};
ghost use Rattle.sg_explore.specs.Tried.{most_paired};
ghost use Rattle.sg_explore.specs.sg_shared.Runs.{IsRunOf};
ghost use Rattle.sg_multi.specs.sg_interpret.sg_described.Described.{described_of};
ghost use Rattle.sg_multi.specs.sg_interpret.sg_described.Safe.{IsSafe, made_safe};
ghost use Rattle.sg_load.specs.sg_plain.Answering.{no_query_waits};
ghost use Rattle.sg_load.specs.sg_plain.Playing.Playable.{IsPlayable};

use crate::given::Given;
use crate::job::Job;
use sg_edge::Gate;
use sg_explore::{Explored, Played, Progress, explore, share};
use sg_judge::Script;
use sg_load::Accepted;
use sg_multi::{DescribedImage, DescribedService, Describes, Description, NoMemory, Service};
use std::alloc::Global;
use std::marker::Brand;
use std::sync::Wait;
use std::thread::Threads;

// ---- in one thread

/// Does a job with the service of a description that is safe.
pub fn at_own<J: Job>(description: Description, job: J) -> J::Output
    requires safe { IsSafe (described_of description) }
    requires asks { J.asks job (described_answering (described_of description)) }
    ensures { J.gives job (described_answering (described_of description)) result }
{
    at_picked::<J, Brand>(description, job)
}

// Does a job with the service whose description was picked.
fn at_picked<J: Job, N: Describes>(description: Description, job: J) -> J::Output
    requires picked { described_of description ≡ made_safe (N.descriptions 0) }
    requires waits { no_query_waits (made_safe (N.descriptions 0)).facts ≡ true }
    requires asks { J.asks job (described_answering (made_safe (N.descriptions 0))) }
    ensures { J.gives job (described_answering (made_safe (N.descriptions 0))) result }
{
    job.run::<DescribedService<N, 0>>(DescribedImage::new(description))
}

// ---- with a thread for each client

/// The run of a script under an accepted interface of the service of a description that is safe, with a thread for each client, which passes the
/// gate around each of its calls.
pub fn share_own<R: Threads + Wait + Sync, G: Gate>(
    rt: &R,
    alloc: Global,
    description: Description,
    accepted: &Accepted,
    script: Script,
    gate: &G,
) -> Result<Played, NoMemory>
    requires safe { IsSafe (described_of description) }
    requires service { accepted.now.facts ≡ (described_of description).facts }
    requires playable { IsPlayable accepted.now script }
    requires stops { AscendsAbove 0 script.stops }
    ensures { IfOk result (IsRunOf accepted.now (described_answering (described_of description)) script) }
{
    share_picked::<R, G, Brand>(rt, alloc, description, accepted, script, gate)
}

// The run of a script with threads on the service whose description was picked.
fn share_picked<R: Threads + Wait + Sync, G: Gate, N: Describes + Send + Sync>(
    rt: &R,
    alloc: Global,
    description: Description,
    accepted: &Accepted,
    script: Script,
    gate: &G,
) -> Result<Played, NoMemory>
    requires picked { described_of description ≡ made_safe (N.descriptions 0) }
    requires service { accepted.now.facts ≡ (made_safe (N.descriptions 0)).facts }
    requires waits { no_query_waits (made_safe (N.descriptions 0)).facts ≡ true }
    requires playable { IsPlayable accepted.now script }
    requires stops { AscendsAbove 0 script.stops }
    ensures { IfOk result (IsRunOf accepted.now (described_answering (made_safe (N.descriptions 0))) script) }
{
    share_given::<R, DescribedService<N, 0>, G, Accepted>(
        rt,
        alloc,
        DescribedImage::new(description),
        accepted,
        script,
        gate,
    )
}

// The run of a script with threads on a service.
fn share_given<R: Threads + Wait + Sync, S: Service + Send, G: Gate, A: Given>(
    rt: &R,
    alloc: Global,
    image: S::Image,
    accepted: &A,
    script: Script,
    gate: &G,
) -> Result<Played, NoMemory>
where
    S::Image: Send,
    requires service { (A.iface accepted.now).facts ≡ S.facts }
    requires waits { no_query_waits S.facts ≡ true }
    requires playable { IsPlayable (A.iface accepted.now) script }
    requires stops { AscendsAbove 0 script.stops }
    ensures { IfOk result (IsRunOf (A.iface accepted.now) (record { facts = S.facts; ask = S.ask; parts = S.parts }) script) }
{
    share::<R, S, G>(rt, alloc, image, accepted.given(), script, gate)
}

// ---- runs with other stops

/// What is found by runs of a script with other stops, under an accepted interface of the service of a description that is safe: with a stop at
/// each point, and with each two up to a point.
pub fn explore_own<R: Threads + Sync, P: Progress>(
    rt: &R,
    alloc: Global,
    description: Description,
    accepted: &Accepted,
    script: &Script,
    most: u64,
    progress: &P,
) -> Result<Explored, NoMemory>
    requires safe { IsSafe (described_of description) }
    requires service { accepted.now.facts ≡ (described_of description).facts }
    requires playable { IsPlayable accepted.now script.now }
    requires most { most ≤ most_paired }
    ensures { IfOk result (IsExplored accepted.now (described_answering (described_of description)) script.now most) }
{
    explore_picked::<R, P, Brand>(rt, alloc, description, accepted, script, most, progress)
}

// What is found on the service whose description was picked.
fn explore_picked<R: Threads + Sync, P: Progress, N: Describes + Send + Sync>(
    rt: &R,
    alloc: Global,
    description: Description,
    accepted: &Accepted,
    script: &Script,
    most: u64,
    progress: &P,
) -> Result<Explored, NoMemory>
    requires picked { described_of description ≡ made_safe (N.descriptions 0) }
    requires service { accepted.now.facts ≡ (made_safe (N.descriptions 0)).facts }
    requires waits { no_query_waits (made_safe (N.descriptions 0)).facts ≡ true }
    requires playable { IsPlayable accepted.now script.now }
    requires most { most ≤ most_paired }
    ensures { IfOk result (IsExplored accepted.now (described_answering (made_safe (N.descriptions 0))) script.now most) }
{
    explore_given::<R, DescribedService<N, 0>, P, Accepted>(
        rt,
        alloc,
        DescribedImage::new(description),
        accepted,
        script,
        most,
        progress,
    )
}

// What is found on a service.
fn explore_given<R: Threads + Sync, S: Service + Send, P: Progress, A: Given>(
    rt: &R,
    alloc: Global,
    image: S::Image,
    accepted: &A,
    script: &Script,
    most: u64,
    progress: &P,
) -> Result<Explored, NoMemory>
where
    S::Image: Sync,
    requires service { (A.iface accepted.now).facts ≡ S.facts }
    requires waits { no_query_waits S.facts ≡ true }
    requires playable { IsPlayable (A.iface accepted.now) script.now }
    requires most { most ≤ most_paired }
    ensures { IfOk result (IsExplored (A.iface accepted.now) (record { facts = S.facts; ask = S.ask; parts = S.parts }) script.now most) }
{
    explore::<R, S, P>(rt, alloc, image, accepted.given(), script, most, progress)
}
