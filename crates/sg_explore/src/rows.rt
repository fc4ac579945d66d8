// Plays side by side in threads.
ghost use Rattle.std.specs.Prelude.{◌≡◌, ◌+◌, ◌<◌, true, IfOk, vec_len};
ghost use Rattle.sg_explore.specs.Inside.Adding.{AreOutcomes, IsOutcomeOf};
ghost use Rattle.sg_explore.specs.Inside.Jobs.{IsTriedOf};
ghost use Rattle.sg_explore.specs.Inside.Stopping.{IsRow, behind};
ghost use Rattle.sg_shared.specs.sg_sim.sg_plain.Playing.Playable.{IsPlayable};
ghost use Rattle.sg_shared.specs.sg_sim.sg_plain.Answering.{no_query_waits};

use crate::outcomes::Outcome;
use crate::plays::outcome_with;
use crate::stops::Row;
use sg_facts::{NoMemory, Service};
use sg_report::Ended;
use sg_shared::{Accepted, Script};
use std::alloc::Global;
use std::thread::{Threads, available_parallelism, map_indices};

// How many plays are made side by side for each processor, and at most in all.
const FOR_EACH: usize = 4;

const MOST_AT_ONCE: usize = 256;

/// How many plays are made side by side.
pub(crate) fn runs_at_once(rt: &impl Threads) -> usize
    ensures { 0 < result }
{
    match available_parallelism(rt) {
        Ok(processors) => processors.get().min(MOST_AT_ONCE / FOR_EACH) * FOR_EACH,
        Err(_) => FOR_EACH,
    }
}

/// What is kept of each play of a row, in their order. Each play is made in a thread of its own where one can be made.
pub(crate) fn outcomes_of<R: Threads + Sync, S: Service + Send>(
    rt: &R,
    alloc: Global,
    image: S::Image,
    accepted: &Accepted,
    script: &Script,
    plain: &Ended,
    row: Row,
) -> Result<Vec<Result<Outcome, NoMemory>>, NoMemory>
where
    S::Image: Sync,
    requires service { accepted.now.facts ≡ S.facts }
    requires waits { no_query_waits S.facts ≡ true }
    requires playable { IsPlayable accepted.now script.now }
    requires row { IsRow row }
    ensures len { IfOk result (λ made. vec_len made ≡ row.count) }
    ensures each { IfOk result (λ made. AreOutcomes (IsTriedOf accepted.now S.facts S.ask S.parts script.now plain.now) row.first row.from row.count made.items) }
{
    let one = |at: usize| -> Result<Outcome, NoMemory>
        requires { (accepted.now.facts ≡ S.facts) × (no_query_waits S.facts ≡ true) × IsPlayable accepted.now script.now × IsRow row × (at < row.count) }
    { outcome_at::<S>(alloc, image, accepted, script, plain, row, at) };
    let made = map_indices(rt, alloc, row.count, &one)?;
    Ok(made)
}

// What is kept of one play of a row, counted from 0.
fn outcome_at<S: Service + Send>(
    alloc: Global,
    image: S::Image,
    accepted: &Accepted,
    script: &Script,
    plain: &Ended,
    row: Row,
    at: usize,
) -> Result<Outcome, NoMemory>
    requires service { accepted.now.facts ≡ S.facts }
    requires waits { no_query_waits S.facts ≡ true }
    requires playable { IsPlayable accepted.now script.now }
    requires row { IsRow row }
    requires at { at < row.count }
    ensures { IfOk result (IsOutcomeOf (IsTriedOf accepted.now S.facts S.ask S.parts script.now plain.now) (behind row.first (row.from + at))) }
{
    let points = row.stops(at);
    outcome_with::<S>(alloc, image, accepted, script, plain, points)
}
