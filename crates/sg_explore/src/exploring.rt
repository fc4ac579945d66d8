// All plays of an exploration.
ghost use Rattle.std.specs.Prelude.{◌≡◌, ◌+◌, ◌-◌, ◌<◌, ◌≤◌, ◌^◌, [], ◌∷◌, true, false, None, Some, IfOk, OnOk, length};
ghost use Rattle.std.specs.List.{flat_map, range_with_len as ascending_from};
ghost use Rattle.sg_facts.specs.Trace.{run_of};
ghost use Rattle.sg_explore.specs.Explored.{IsExplored};
ghost use Rattle.sg_explore.specs.Tried.{most_paired, stops_tried};
ghost use Rattle.sg_explore.specs.Inside.Adding.{Adds, AreOutcomes, IsOutcomeOf};
ghost use Rattle.sg_explore.specs.Inside.Jobs.{IsTriedOf};
ghost use Rattle.sg_explore.specs.Inside.Stopping.{IsRow, points_of, row_of};
ghost use Rattle.sg_explore.specs.Inside.Sums.{sums_from, sums_of};
ghost use Rattle.sg_shared.specs.sg_sim.sg_plain.Playing.Playable.{IsPlayable};
ghost use Rattle.sg_shared.specs.sg_sim.sg_plain.sg_edge.Stops.{AscendsAbove};
ghost use Rattle.sg_shared.specs.sg_sim.sg_plain.Answering.{no_query_waits};

use crate::outcomes::{Outcome, is_waiting};
use crate::plays::play_with;
use crate::progress::Progress;
use crate::rows::{outcomes_of, runs_at_once};
use crate::stops::{Row, StopsAt};
use crate::tally::{Shown, Tally};
use crate::text::text;
use sg_facts::{Bytes, NoMemory, PointList, Service};
use sg_report::Ended;
use sg_shared::{Accepted, Script};
use std::alloc::Global;
use std::thread::Threads;

/// The greatest number up to which each two points are tried.
pub const MOST_PAIRED: u64 = 1_000;

/// What was found: the text that is printed, and whether some run ends with somebody waiting.
#[derive(Debug, Drop)]
pub struct Explored {
    pub text: Bytes,
    pub waits: bool,
}

/// Plays a script on a service, under an accepted interface of it, without stops, then with a stop at each point that was asked, and
/// then at each two points up to a number. The script's own stops are left aside. Plays are made side by side in threads, and what is
/// promised holds however many there are. It answers `NoMemory` where there is no memory for a play, or a step of one wanted memory.
pub fn explore<R: Threads + Sync, S: Service + Send, P: Progress>(
    rt: &R,
    alloc: Global,
    image: S::Image,
    accepted: &Accepted,
    script: &Script,
    most: u64,
    progress: &P,
) -> Result<Explored, NoMemory>
where
    S::Image: Sync,
    requires service { accepted.now.facts ≡ S.facts }
    requires waits { no_query_waits S.facts ≡ true }
    requires playable { IsPlayable accepted.now script.now }
    requires most { most ≤ most_paired }
    ensures { IfOk result (IsExplored accepted.now (record { facts = S.facts; ask = S.ask; parts = S.parts }) script.now most) }
{
    let none = PointList::new(alloc);
    let played = play_with::<S>(alloc, image, accepted, script, none)?;
    let plain = played.ended();
    let points = plain.trace.points;
    let meter = Meter {
        progress,
        all: runs_in_all(points, most),
        at_once: runs_at_once(rt),
    };
    progress.made(1, meter.all);
    let tally = explore_all::<R, S, P>(rt, alloc, image, accepted, script, plain, most, &meter)?;
    let waits = tally.blocked > 0;
    let text = text(alloc, accepted.interface(), points, &tally)?;
    Ok(Explored { text, waits })
}

// How many plays there are in all, up to the greatest number, where the one without stops asked so many points.
fn runs_in_all(points: u64, most: u64) -> u64 {
    let firsts = points.min(most);
    let twice = most
        .saturating_mul(2)
        .saturating_sub(firsts.saturating_add(1));
    points
        .saturating_add(1)
        .saturating_add(firsts.saturating_mul(twice) / 2)
}

// Who is told how far an exploration has come, how many plays there are in all, and how many are made side by side.
#[derive(Drop)]
struct Meter<'a, P> {
    progress: &'a P,
    all: u64,
    at_once: usize,
}

// The tally of the play without stops and of all plays with stops.
fn explore_all<R: Threads + Sync, S: Service + Send, P: Progress>(
    rt: &R,
    alloc: Global,
    image: S::Image,
    accepted: &Accepted,
    script: &Script,
    plain: &Ended,
    most: u64,
    meter: &Meter<P>,
) -> Result<Tally, NoMemory>
where
    S::Image: Sync,
    requires service { accepted.now.facts ≡ S.facts }
    requires waits { no_query_waits S.facts ≡ true }
    requires playable { IsPlayable accepted.now script.now }
    requires most { most ≤ most_paired }
    requires at_once { 0 < meter.now.at_once }
    ensures { IfOk result (λ tally. Adds (IsTriedOf accepted.now S.facts S.ask S.parts script.now plain.now)
        (stops_tried (run_of plain.now.trace).points most) (sums_from plain.now) (sums_of tally)) }
{
    let mut tally = Tally::of(is_waiting(plain.ends.as_slice()));
    let points = plain.trace.points;
    let alone = Row {
        first: None,
        from: 1,
        count: points as usize,
    };
    explore_row::<R, S, P>(
        rt, alloc, image, accepted, script, plain, alone, meter, &mut tally,
    )?;
    explore_pairs::<R, S, P>(
        rt,
        alloc,
        image,
        accepted,
        script,
        plain,
        points.min(most),
        most,
        meter,
        &mut tally,
    )?;
    Ok(tally)
}

// Adds each two points up to a number, of which the first is at most another.
fn explore_pairs<R: Threads + Sync, S: Service + Send, P: Progress>(
    rt: &R,
    alloc: Global,
    image: S::Image,
    accepted: &Accepted,
    script: &Script,
    plain: &Ended,
    firsts: u64,
    most: u64,
    meter: &Meter<P>,
    tally: &mut Tally,
) -> Result<(), NoMemory>
where
    S::Image: Sync,
    requires service { accepted.now.facts ≡ S.facts }
    requires waits { no_query_waits S.facts ≡ true }
    requires playable { IsPlayable accepted.now script.now }
    requires firsts { firsts ≤ most }
    requires most { most ≤ most_paired }
    requires at_once { 0 < meter.now.at_once }
    ensures { OnOk result (Adds (IsTriedOf accepted.now S.facts S.ask S.parts script.now plain.now)
        (flat_map (λ p. row_of (Some p) (p + 1) (most - p)) (ascending_from 1 firsts)) (sums_of tally.old) (sums_of tally.new)) }
{
    'firsts: for before in 0..firsts {
        let first = before + 1;
        let row = Row {
            first: Some(first),
            from: first + 1,
            count: (most - first) as usize,
        };
        explore_row::<R, S, P>(rt, alloc, image, accepted, script, plain, row, meter, tally)?;
    }
    Ok(())
}

// Adds the plays of a row.
fn explore_row<R: Threads + Sync, S: Service + Send, P: Progress>(
    rt: &R,
    alloc: Global,
    image: S::Image,
    accepted: &Accepted,
    script: &Script,
    plain: &Ended,
    row: Row,
    meter: &Meter<P>,
    tally: &mut Tally,
) -> Result<(), NoMemory>
where
    S::Image: Sync,
    requires service { accepted.now.facts ≡ S.facts }
    requires waits { no_query_waits S.facts ≡ true }
    requires playable { IsPlayable accepted.now script.now }
    requires row { IsRow row }
    requires at_once { 0 < meter.now.at_once }
    ensures { OnOk result (Adds (IsTriedOf accepted.now S.facts S.ask S.parts script.now plain.now)
        (row_of row.first row.from row.count) (sums_of tally.old) (sums_of tally.new)) }
{
    let mut done = 0;
    'parts: while done < row.count {
        let part = row.part(done, meter.at_once);
        let outcomes = outcomes_of::<R, S>(rt, alloc, image, accepted, script, plain, part)?;
        add_outcomes::<S>(
            alloc,
            image,
            accepted,
            script,
            plain,
            part,
            outcomes.as_slice(),
            tally,
        )?;
        meter.progress.made(tally.runs, meter.all);
        done += part.count;
    }
    Ok(())
}

// Adds the plays of a row of which this is kept.
fn add_outcomes<S: Service + Send>(
    alloc: Global,
    image: S::Image,
    accepted: &Accepted,
    script: &Script,
    plain: &Ended,
    row: Row,
    outcomes: &[Result<Outcome, NoMemory>],
    tally: &mut Tally,
) -> Result<(), NoMemory>
    requires service { accepted.now.facts ≡ S.facts }
    requires waits { no_query_waits S.facts ≡ true }
    requires playable { IsPlayable accepted.now script.now }
    requires row { IsRow row }
    requires len { length outcomes.now ≡ row.count }
    requires outcomes { AreOutcomes (IsTriedOf accepted.now S.facts S.ask S.parts script.now plain.now) row.first row.from row.count outcomes.now }
    ensures { OnOk result (Adds (IsTriedOf accepted.now S.facts S.ask S.parts script.now plain.now)
        (row_of row.first row.from row.count) (sums_of tally.old) (sums_of tally.new)) }
{
    'plays: for at in 0..row.count {
        let outcome = outcomes[at]?;
        let points = row.stops(at);
        add_outcome::<S>(
            alloc, image, accepted, script, plain, points, outcome, tally,
        )?;
    }
    Ok(())
}

// Adds a play of which this is kept. The first that differs is played once more, since all of it is printed: it takes the place of the
// play of which this is kept.
fn add_outcome<S: Service + Send>(
    alloc: Global,
    image: S::Image,
    accepted: &Accepted,
    script: &Script,
    plain: &Ended,
    stops: StopsAt,
    outcome: Outcome,
    tally: &mut Tally,
) -> Result<(), NoMemory>
    requires service { accepted.now.facts ≡ S.facts }
    requires waits { no_query_waits S.facts ≡ true }
    requires playable { IsPlayable accepted.now script.now }
    requires stops { AscendsAbove 0 (points_of stops) }
    requires outcome { IsOutcomeOf (IsTriedOf accepted.now S.facts S.ask S.parts script.now plain.now) (points_of stops) outcome }
    ensures { OnOk result (Adds (IsTriedOf accepted.now S.facts S.ask S.parts script.now plain.now)
        (points_of stops ∷ []) (sums_of tally.old) (sums_of tally.new)) }
{
    if tally.is_first(outcome.differs) {
        return add_first::<S>(alloc, image, accepted, script, plain, stops, tally);
    }
    tally.count(stops, outcome);
    Ok(())
}

// Makes a play and adds it, and keeps it where it differs, as none does yet.
fn add_first<S: Service + Send>(
    alloc: Global,
    image: S::Image,
    accepted: &Accepted,
    script: &Script,
    plain: &Ended,
    stops: StopsAt,
    tally: &mut Tally,
) -> Result<(), NoMemory>
    requires service { accepted.now.facts ≡ S.facts }
    requires waits { no_query_waits S.facts ≡ true }
    requires playable { IsPlayable accepted.now script.now }
    requires stops { AscendsAbove 0 (points_of stops) }
    requires none { tally.old.first ≡ None }
    ensures { OnOk result (Adds (IsTriedOf accepted.now S.facts S.ask S.parts script.now plain.now)
        (points_of stops ∷ []) (sums_of tally.old) (sums_of tally.new)) }
{
    let list = stops.list(alloc)?;
    let played = play_with::<S>(alloc, image, accepted, script, list)?;
    tally.count_first(plain, stops, played);
    Ok(())
}
