// What is counted of plays.
ghost use Rattle.std.specs.Prelude.{◌≡◌, ◌≢◌, ◌↔◌, ◌&&◌, [], None, IsTrue, is_none};
ghost use Rattle.sg_explore.specs.Inside.Stopping.{points_of};
ghost use Rattle.sg_explore.specs.Inside.Sums.{counted_with, most_of, one_more, raised, sums_of, sums_with};

use crate::outcomes::Outcome;
use crate::stops::StopsAt;
use sg_report::Ended;
use sg_shared::Played;

/// What is counted of plays, each up to the greatest number of 64 bits, and the first that differs.
#[derive(Debug, Drop)]
pub(crate) struct Tally {
    /// How many plays were made.
    pub(crate) runs: u64,
    /// How many stopped at all their stops.
    pub(crate) stopped: u64,
    /// The greatest number of replayed calls of a play, where it isn't 0.
    pub(crate) most: Option<Most>,
    /// At the end of how many a client waits.
    pub(crate) blocked: u64,
    /// How many differ from the play without stops.
    pub(crate) differing: u64,
    /// The first of these.
    pub(crate) first: Option<Shown>,
}

/// A number of replayed calls, with the stops of the first play that has it.
#[derive(Clone, Copy, Debug)]
pub(crate) struct Most {
    pub(crate) replays: u64,
    pub(crate) stops: StopsAt,
}

/// A play that is printed, with its stops.
#[derive(Debug, Drop)]
pub(crate) struct Shown {
    pub(crate) stops: StopsAt,
    pub(crate) played: Played,
}

impl Tally {
    /// The tally of the play without stops alone.
    pub(crate) fn of(waits: bool) -> Tally
        ensures { sums_of result ≡ record { runs = 1; stopped = 0; most = None; blocked = one_more waits 0; differing = 0; first = None } }
    {
        Tally {
            runs: 1,
            stopped: 0,
            most: None,
            blocked: u64::from(waits),
            differing: 0,
            first: None,
        }
    }

    /// Whether a play is the first that differs, where it does.
    pub(crate) fn is_first(&self, differs: bool) -> bool
        ensures { result ≡ (differs && is_none self.now.first) }
    {
        differs && self.first.is_none()
    }

    /// Counts a play with these stops.
    pub(crate) fn count(&mut self, stops: StopsAt, outcome: Outcome)
        ensures { sums_of self.new ≡ counted_with (sums_of self.old) (points_of stops) outcome }
    {
        self.runs = one_more(self.runs, true);
        self.stopped = one_more(self.stopped, outcome.stopped);
        self.most = raised(self.most, stops, outcome.replays);
        self.blocked = one_more(self.blocked, outcome.waits);
        self.differing = one_more(self.differing, outcome.differs);
    }

    /// Counts a play with these stops beside the one without stops, where none differs yet, and keeps it where it does. Whether it
    /// does is the answer.
    pub(crate) fn count_first(&mut self, plain: &Ended, stops: StopsAt, played: Played) -> bool
        requires { self.old.first ≡ None }
        ensures sums { sums_of self.new ≡ sums_with (sums_of self.old) (record { stops = points_of stops; ended = played; differs = result }) }
        ensures differs { IsTrue result ↔ (played.history.items ≢ plain.now.history.items) }
    {
        let outcome = Outcome::of(plain, stops, played.ended());
        self.count(stops, outcome);
        if outcome.differs {
            self.first = Some(Shown { stops, played });
        }
        outcome.differs
    }
}

// The greatest number of replayed calls, where another number comes after it.
fn raised(most: Option<Most>, stops: StopsAt, replays: u64) -> Option<Most>
    ensures { most_of result ≡ raised (most_of most) (points_of stops) replays }
{
    let before = match most {
        None => 0,
        Some(most) => most.replays,
    };
    if before < replays {
        Some(Most { replays, stops })
    } else {
        most
    }
}

// One more, where something holds, up to the greatest number.
fn one_more(count: u64, holds: bool) -> u64
    ensures { result ≡ one_more holds count }
{
    if holds {
        count.saturating_add(1)
    } else {
        count
    }
}
