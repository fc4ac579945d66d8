// A plan of one stop.
use sg_facts::{Point, Stops};

/// Stops once, at the point of a number; at none where the number is 0.
#[derive(Debug, Drop)]
pub struct Once {
    point: u64,
    asked: u64,
    struck: Option<u64>,
}

impl Once {
    /// Before any point.
    pub fn new(point: u64) -> Once {
        Once {
            point,
            asked: 0,
            struck: None,
        }
    }
}

impl Stops for Once {
    ghost use Rattle.std.specs.Prelude.{[]};
    ghost use Rattle.sg_slots.specs.Carry.{words_of};

    ghost asked = { λ once. once.asked };

    ghost struck = { λ once. words_of once.struck };

    ghost plan = { λ once. [] };

    ghost test = { λ asked struck plan. Unit {0} };

    ghost starts = { λ plan. tt };

    fn strikes(&mut self, _: Point) -> bool {
        if self.asked == u64::MAX {
            return false;
        }
        self.asked += 1;
        if self.struck.is_none() && self.asked == self.point {
            self.struck = Some(self.asked);
            return true;
        }
        false
    }

    fn asked(&self) -> u64 {
        self.asked
    }
}
