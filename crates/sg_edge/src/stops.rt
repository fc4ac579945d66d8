// Who says at which points the service stops.
ghost use Rattle.std.specs.Prelude.{◌≡◌, ◌<◌, ◌↔◌, [], Some, IsTrue, slice_get};
ghost use Rattle.sg_edge.specs.Stops.{AscendsAbove, up_to, struck_of, nothing_up_to_0};

use sg_base::{Point, PointList, Stops};
use std::marker::Model;

/// A service that never stops. Contracts see the number of points asked.
#[derive(Debug, Drop)]
pub struct Never {
    asked: u64,
}

impl Model for Never {
    ghost use Rattle.std.specs.Prelude.{ℕ};

    ghost Value = { ℕ };

    ghost view = { λ never. never.asked };
}

impl Never {
    /// Nothing was asked yet.
    pub fn new() -> Never
        ensures { result ≡ 0 }
    {
        Never { asked: 0 }
    }
}

impl Stops for Never {
    ghost asked = { λ never. never };

    ghost struck = { λ _. [] };

    ghost plan = { λ _. [] };

    ghost test = { λ asked struck plan. struck ≡ up_to asked plan };

    ghost starts = { nothing_up_to_0 };

    fn strikes(&mut self, _: Point) -> bool {
        self.asked = self.asked.saturating_add(1);
        false
    }

    fn asked(&self) -> u64 {
        self.asked
    }
}

/// A service that stops exactly at the points with the listed numbers. Contracts see the list and the number of
/// points asked.
#[derive(Debug, Drop)]
pub struct AtPoints {
    points: PointList,
    asked: u64,
    // How many of the listed points were asked.
    passed: usize,
}

impl Model for AtPoints {
    ghost use Rattle.std.specs.Prelude.{◌≡◌, length};
    ghost use Rattle.sg_edge.specs.Stops.{Planned, AscendsAbove, up_to};

    ghost Value = { Planned };

    ghost view = { λ stops. record { plan = stops.points; asked = stops.asked } };

    ghost invariant = { λ stops. AscendsAbove 0 stops.points × (stops.passed ≡ length (up_to stops.asked stops.points)) };
}

impl AtPoints {
    /// Stops at these points, of which none was asked yet. The numbers ascend from 1; there may be none.
    pub fn new(points: PointList) -> AtPoints
        requires { AscendsAbove 0 points }
        ensures plan { result.plan ≡ points }
        ensures asked { result.asked ≡ 0 }
        ensures struck { struck_of result ≡ [] }
    {
        AtPoints {
            points,
            asked: 0,
            passed: 0,
        }
    }
}

impl Stops for AtPoints {
    ghost asked = { λ stops. stops.asked };

    ghost struck = { struck_of };

    ghost plan = { λ stops. stops.plan };

    ghost test = { λ asked struck plan. struck ≡ up_to asked plan };

    ghost starts = { nothing_up_to_0 };

    fn strikes(&mut self, _: Point) -> bool {
        if self.asked == u64::MAX {
            return false;
        }
        self.asked += 1;
        let listed = is_at(&self.points, self.passed, self.asked);
        if listed {
            self.passed += 1;
        }
        listed
    }

    fn asked(&self) -> u64 {
        self.asked
    }
}

// Whether this number stands at this place.
fn is_at(numbers: &PointList, at: usize, number: u64) -> bool
    ensures there { IsTrue result ↔ (slice_get numbers.now at ≡ Some number) }
    ensures within { IsTrue result → at < usize.MAX }
{
    at < numbers.len() && numbers.as_slice()[at] == number
}
