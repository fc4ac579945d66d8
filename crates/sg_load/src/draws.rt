// Numbers that are drawn one after the other.
ghost use Rattle.std.specs.Prelude.{◌≡◌};
ghost use Rattle.sg_load.specs.Drawn.{drawn};
ghost use Rattle.sg_load.specs.Inside.{upper};

use std::marker::Model;

// What a draw multiplies its state by, and what it adds then.
const FACTOR: u64 = 6364136223846793005;

const SUMMAND: u64 = 1442695040888963407;

/// Numbers that are drawn one after the other. Contracts see the state.
#[derive(Debug, Drop)]
pub(crate) struct Draws {
    state: u64,
}

impl Model for Draws {
    ghost use Rattle.std.specs.Prelude.{ℕ};

    ghost Value = { ℕ };

    ghost view = { λ d. d.state };
}

impl Draws {
    /// Draws that begin with a number as the state.
    pub(crate) fn new(number: u64) -> Draws
        ensures { result ≡ number }
    {
        Draws { state: number }
    }

    /// The next number.
    pub(crate) fn draw(&mut self) -> u32
        ensures state { self.new ≡ drawn self.old }
        ensures number { result ≡ upper self.new }
    {
        self.state = self.state.wrapping_mul(FACTOR).wrapping_add(SUMMAND);
        (self.state >> 32) as u32
    }
}
