// A plan of one stop within a step.
ghost use Rattle.std.specs.Prelude.{◌≡◌, None};

use test_world::{Point, Stops};

/// Stops once, at the point of a number among those that aren't asked between calls: a step that is made again for want of memory asks
/// no such point twice.
#[derive(Debug, Drop)]
pub struct Inside {
    point: u64,
    inside: u64,
    asked: u64,
    struck: Option<u64>,
}

impl Inside {
    /// Before any point.
    pub fn new(point: u64) -> Inside
        ensures { result ≡ record { point = point; inside = 0; asked = 0; struck = None } }
    {
        Inside {
            point,
            inside: 0,
            asked: 0,
            struck: None,
        }
    }
}

impl Stops for Inside {
    ghost use Rattle.std.specs.Prelude.{[]};
    ghost use Rattle.test_world.specs.test_tables.sg_slots.Carry.{words_of};

    ghost asked = { λ inside. inside.asked };

    ghost struck = { λ inside. words_of inside.struck };

    ghost plan = { λ inside. [] };

    ghost test = { λ asked struck plan. Unit {0} };

    ghost starts = { λ plan. tt };

    fn strikes(&mut self, point: Point) -> bool {
        if self.asked == u64::MAX {
            return false;
        }
        self.asked += 1;
        if point == Point::Idle {
            return false;
        }
        self.inside = self.inside.saturating_add(1);
        if self.struck.is_none() && self.inside == self.point {
            self.struck = Some(self.asked);
            return true;
        }
        false
    }

    fn asked(&self) -> u64 {
        self.asked
    }
}
