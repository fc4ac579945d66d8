// Hand-overs in one thread.
ghost use Rattle.std.specs.Prelude.{◌≡◌};
ghost use Rattle.sg_turn.specs.Seats.{all_seats};

use crate::clients::{note_once, two_seats};
use crate::tally::Tally;
use sg_turn::{Dealing, SeatList, Turn};
use std::process::Abort;
use std::test::Fail;

// The only seat takes the value again and again.
#[test]
fn one_seat_alone(rt: HostRuntime) -> Result<(), Fail> {
    let Ok(dealing) = Dealing::new(rt.alloc(), Tally::new(rt.alloc())) else {
        panic!(rt; "no memory")
    };
    let (turn, mut seat) = dealing.deal_last();
    note_once(&rt, &turn, &mut seat, 1)?;
    let one = turn.progress(&mut seat);
    note_once(&rt, &turn, &mut seat, 1)?;
    let two = turn.progress(&mut seat);
    let tally = turn.closing(seat).end();
    assert!(rt; one == 1 && two == 2);
    assert!(rt; tally.clients.as_slice() == &[1, 1][..] && tally.events == 2);
    Ok(())
}

// Whoever holds the value is told of by nobody's progress until it is given back.
#[test]
fn two_seats_by_turns(rt: HostRuntime) -> Result<(), Fail> {
    let (turn, mut first, mut second) = two_seats(rt.alloc())?;
    note_once(&rt, &turn, &mut second, 2)?;
    let mut held = turn.take(&rt, &mut first);
    let before = turn.progress(&mut second);
    let noted = held.value.note(1);
    turn.give(&mut first, held);
    noted?;
    let after = (turn.progress(&mut second), turn.progress(&mut first));
    note_once(&rt, &turn, &mut second, 2)?;
    let mut closing = turn.closing(second);
    closing.gather(first);
    let tally = closing.end();
    assert!(rt; before == 1 && after == (2, 2));
    assert!(rt; tally.clients.as_slice() == &[2, 1, 2][..] && tally.events == 3);
    Ok(())
}

// Ends a hand-over of 64 seats that nobody used.
fn close_new(turn: Turn<Tally>, seats: SeatList<Tally>) -> Tally
    requires { seats.items ≡ all_seats turn 64 }
{
    turn.close(seats)
}

// Nobody takes the value, and it comes back as it was handed in.
#[test]
fn seats_of_64_clients(rt: HostRuntime) -> Result<(), Fail> {
    let mut tally = Tally::new(rt.alloc());
    tally.note(7)?;
    let Ok((turn, seats)) = Turn::new(rt.alloc(), tally, 64) else {
        panic!(rt; "no memory")
    };
    let many = seats.len();
    let tally = close_new(turn, seats);
    assert!(rt; many == 64);
    assert!(rt; tally.clients.as_slice() == &[7][..] && tally.events == 1);
    Ok(())
}
