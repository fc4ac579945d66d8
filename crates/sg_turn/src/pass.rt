// What one client makes its calls with.
use crate::Seat;
use crate::host::Host;
use std::marker::Model;

/// What one client makes its calls with. It may go to another thread. Contracts see its seat: the sharing that it is of, its client's
/// number, a number of holds that were counted, and the log after so many, which the pass has seen.
///
/// A pass that is dropped is missing when the sharing is closed.
#[derive(Drop)]
pub struct Pass<H: Host> {
    pub(crate) client: u8,
    pub(crate) seat: Seat<H>,
}

impl<H: Host> Model for Pass<H> {
    ghost use Rattle.std.specs.Prelude.{◌≡◌, ◌≤◌, false};
    ghost use Rattle.sg_turn.specs.Seats.{SeatView};

    ghost Value = { SeatView };

    ghost view = { λ p. p.seat };

    ghost invariant = { λ p. (p.seat.holds ≡ false) × (p.client ≡ p.seat.number) × (1 ≤ p.client) × (p.client ≤ H.clients) };
}

impl<H: Host> Pass<H> {
    ghost use Rattle.std.specs.Prelude.{◌≡◌};

    /// The number of its client.
    pub fn client(&self) -> u8
        ensures { result ≡ self.now.number }
    {
        self.client
    }
}

/// Passes, in ascending numbers.
pub type PassList<H> = Vec<Pass<H>>;
