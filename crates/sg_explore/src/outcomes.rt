// What is kept of a play.
ghost use Rattle.std.specs.Prelude.{◌≡◌, ◌≢◌, ◌≤◌, ◌↔◌, IsTrue, length, map};
ghost use Rattle.std.specs.List.{list_any};
ghost use Rattle.sg_facts.specs.Inside.Rows.{boot_of};
ghost use Rattle.sg_report.specs.sg_hist.Recovered.{is_blocked, struck_in};
ghost use Rattle.sg_explore.specs.Inside.Stopping.{points_of};
ghost use Rattle.sg_explore.specs.Inside.Sums.{outcome_of};

use crate::stops::StopsAt;
use sg_facts::BootLog;
use sg_report::{End, Ended, count_replays};

/// What is kept of a play: whether the service stopped at all its stops, its replayed calls, whether a client waits at its end, and
/// whether its entries are others than those of the play without stops.
#[derive(Clone, Copy, Debug)]
pub(crate) struct Outcome {
    pub(crate) stopped: bool,
    pub(crate) replays: u64,
    pub(crate) waits: bool,
    pub(crate) differs: bool,
}

impl Outcome {
    /// What is kept of a play with these stops, beside the one without stops.
    pub(crate) fn of(plain: &Ended, stops: StopsAt, ended: &Ended) -> Outcome
        ensures is { result ≡ outcome_of (record { stops = points_of stops; ended = ended.now; differs = result.differs }) }
        ensures differs { IsTrue result.differs ↔ (ended.now.history.items ≢ plain.now.history.items) }
    {
        Outcome {
            stopped: stops_in(ended.trace.boots.as_slice()) == stops.count(),
            replays: count_replays(&ended.trace),
            waits: is_waiting(ended.ends.as_slice()),
            differs: !ended.history.is_same(&plain.history),
        }
    }
}

// How many boots ended with a stop.
fn stops_in(boots: &[BootLog]) -> usize
    ensures count { result ≡ length (struck_in (record { boots = map boot_of boots.now; points = 0 })) }
    ensures most { result ≤ length boots.now }
{
    match boots {
        [] => 0,
        [boot, rest @ ..] if boot.stop.is_some() => 1 + stops_in(rest),
        [_, rest @ ..] => stops_in(rest),
    }
}

/// Whether some client waits.
pub(crate) fn is_waiting(ends: &[(u8, End)]) -> bool
    ensures { result ≡ list_any (λ e. is_blocked e.1) ends.now }
{
    ends.iter().any(|(_, end)| matches!(end, End::Blocked(_)))
}
