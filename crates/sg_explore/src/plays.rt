// One play of a script with other stops.
ghost use Rattle.std.specs.Prelude.{◌≡◌, true, IfOk};
ghost use Rattle.sg_explore.specs.Inside.Adding.{IsOutcomeOf};
ghost use Rattle.sg_explore.specs.Inside.Jobs.{IsTriedOf};
ghost use Rattle.sg_explore.specs.Inside.Stopping.{points_of};
ghost use Rattle.sg_shared.specs.Runs.{IsRunInOrder};
ghost use Rattle.sg_shared.specs.sg_sim.sg_plain.Playing.Playable.{IsPlayable};
ghost use Rattle.sg_shared.specs.sg_sim.sg_plain.sg_edge.Stops.{AscendsAbove};
ghost use Rattle.sg_shared.specs.sg_sim.sg_plain.Answering.{no_query_waits};

use crate::outcomes::Outcome;
use crate::scripts::with_stops;
use crate::stops::StopsAt;
use sg_facts::{NoMemory, PointList, Service};
use sg_report::Ended;
use sg_shared::{Accepted, Played, Script, simulate};
use std::alloc::Global;

/// The play of a script with these stops in place of its own.
pub(crate) fn play_with<S: Service>(
    alloc: Global,
    image: S::Image,
    accepted: &Accepted,
    script: &Script,
    stops: PointList,
) -> Result<Played, NoMemory>
    requires service { accepted.now.facts ≡ S.facts }
    requires waits { no_query_waits S.facts ≡ true }
    requires playable { IsPlayable accepted.now script.now }
    requires stops { AscendsAbove 0 stops }
    ensures { IfOk result (IsRunInOrder accepted.now (record { facts = S.facts; ask = S.ask; parts = S.parts }) (record script.now { stops = stops })) }
{
    let changed = with_stops(alloc, script, stops)?;
    simulate::<S>(alloc, image, accepted, changed)
}

/// What is kept of the play with these stops, beside the one without stops.
pub(crate) fn outcome_with<S: Service>(
    alloc: Global,
    image: S::Image,
    accepted: &Accepted,
    script: &Script,
    plain: &Ended,
    stops: StopsAt,
) -> Result<Outcome, NoMemory>
    requires service { accepted.now.facts ≡ S.facts }
    requires waits { no_query_waits S.facts ≡ true }
    requires playable { IsPlayable accepted.now script.now }
    requires stops { AscendsAbove 0 (points_of stops) }
    ensures { IfOk result (IsOutcomeOf (IsTriedOf accepted.now S.facts S.ask S.parts script.now plain.now) (points_of stops)) }
{
    let list = stops.list(alloc)?;
    let played = play_with::<S>(alloc, image, accepted, script, list)?;
    let outcome = Outcome::of(plain, stops, played.ended());
    Ok(outcome)
}
