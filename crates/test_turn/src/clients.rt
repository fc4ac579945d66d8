// What a client does with its seat.
ghost use Rattle.std.specs.Prelude.{◌≡◌, false, true, IfOk};
ghost use Rattle.sg_turn.specs.Seats.{new_seat};
ghost use Rattle.test_turn.specs.Tallies.{StaysFree};

use crate::tally::Tally;
use sg_turn::{Dealing, NoMemory, Seat, Turn};
use std::alloc::{AllocError, Global};
use std::sync::Wait;

/// A hand-over of an empty tally with two seats.
pub fn two_seats(alloc: Global) -> Result<(Turn<Tally>, Seat<Tally>, Seat<Tally>), NoMemory>
    ensures first { IfOk result (λ t. t.1 ≡ new_seat t.0 1 false) }
    ensures second { IfOk result (λ t. t.2 ≡ new_seat t.0 2 true) }
{
    let Ok(mut dealing) = Dealing::new(alloc, Tally::new(alloc)) else {
        return Err(NoMemory);
    };
    let first = dealing.deal();
    let (turn, second) = dealing.deal_last();
    Ok((turn, first, second))
}

/// A client takes the tally, notes itself and gives it back.
pub fn note_once<R: Wait>(
    rt: &R,
    turn: &Turn<Tally>,
    seat: &mut Seat<Tally>,
    client: u8,
) -> Result<(), AllocError>
    requires turn { seat.old.turn ≡ turn.now.id }
    requires client { seat.old.number ≡ client }
    requires free { seat.old.holds ≡ false }
    ensures { StaysFree seat.old seat.new }
{
    let mut held = turn.take(rt, seat);
    let noted = held.value.note(client);
    turn.give(seat, held);
    noted
}

/// It does so many times, and hands its seat back, with whether there was memory each time.
pub fn note_often<R: Wait>(
    rt: &R,
    turn: &Turn<Tally>,
    mut seat: Seat<Tally>,
    client: u8,
    times: u32,
) -> (Seat<Tally>, bool)
    requires turn { seat.turn ≡ turn.now.id }
    requires client { seat.number ≡ client }
    requires free { seat.holds ≡ false }
    ensures { StaysFree seat result.0 }
{
    let mut all = true;
    'notes: for _note in 0..times {
        let noted = note_once(rt, turn, &mut seat, client);
        all &= noted.is_ok();
    }
    (seat, all)
}
