// Hand-overs between threads.
ghost use Rattle.std.specs.Prelude.{◌≡◌, false};
ghost use Rattle.test_turn.specs.Tallies.{StaysFree};

use crate::clients::{note_often, two_seats};
use crate::tally::Tally;
use sg_turn::{Seat, Turn};
use std::process::Abort;
use std::sync::Wait;
use std::sync::atomic::{AtomicBool, Ordering};
use std::test::Fail;
use std::thread;
use std::thread::join;

// How often each of two threads takes the value.
const OFTEN: u32 = 2_000;

// How often a thread asks for progress, and looks at most at what another does.
const ASKED: u32 = 1_000;

const MOST_LOOKS: u32 = 50_000_000;

#[test]
fn two_threads_note_often(rt: HostRuntime) -> Result<(), Fail> {
    let (turn, first, second) = two_seats(rt.alloc())?;
    let shared = &turn;
    let (one, other) = join(
        &rt,
        || -> (Seat<Tally>, bool)
            requires { (first.turn ≡ shared.now.id) × (first.number ≡ 1) × (first.holds ≡ false) }
            ensures { StaysFree first result.0 }
        { note_often(&rt, shared, first, 1, OFTEN) },
        || -> (Seat<Tally>, bool)
            requires { (second.turn ≡ shared.now.id) × (second.number ≡ 2) × (second.holds ≡ false) }
            ensures { StaysFree second result.0 }
        { note_often(&rt, shared, second, 2, OFTEN) },
    );
    let (first, first_noted) = one;
    let (mut second, second_noted) = other;
    let told = turn.progress(&mut second);
    let mut closing = turn.closing(second);
    closing.gather(first);
    let tally = closing.end();
    assert!(rt; first_noted && second_noted);
    assert!(rt; told == 4_000 && tally.events == 4_000 && tally.clients.len() == 4_000);
    assert!(rt; tally.count(1) == 2_000 && tally.count(2) == 2_000);
    Ok(())
}

// Whether a flag is set before too many looks.
fn sees(flag: &AtomicBool) -> bool {
    for _ in 0..MOST_LOOKS {
        if flag.load(Ordering::SeqCst) {
            return true;
        }
        thread::yield_now();
    }
    false
}

// Holds the value until a flag is set by another thread, to which it says when it holds. Whether it was set.
fn hold<R: Wait>(
    rt: &R,
    turn: &Turn<Tally>,
    seat: &mut Seat<Tally>,
    holds: &AtomicBool,
    asked: &AtomicBool,
) -> bool
    requires turn { seat.old.turn ≡ turn.now.id }
    requires client { seat.old.number ≡ 1 }
    requires free { seat.old.holds ≡ false }
{
    let mut held = turn.take(rt, seat);
    holds.store(true, Ordering::SeqCst);
    let seen = sees(asked);
    let noted = held.value.note(1);
    turn.give(seat, held);
    seen && noted.is_ok()
}

// Asks for progress again and again while another thread holds the value. Whether none came.
fn ask(turn: &Turn<Tally>, seat: &mut Seat<Tally>, holds: &AtomicBool, asked: &AtomicBool) -> bool
    requires { seat.old.turn ≡ turn.now.id }
{
    let mut none = sees(holds);
    'asks: for _asked in 0..ASKED {
        none &= turn.progress(seat) == 0;
    }
    asked.store(true, Ordering::SeqCst);
    none
}

#[test]
fn progress_while_another_holds(rt: HostRuntime) -> Result<(), Fail> {
    let (turn, mut first, mut second) = two_seats(rt.alloc())?;
    let shared = &turn;
    let (holds, asked) = (AtomicBool::new(false), AtomicBool::new(false));
    let (one, other) = (&mut first, &mut second);
    let (held, none) = join(
        &rt,
        || hold(&rt, shared, one, &holds, &asked),
        || ask(shared, other, &holds, &asked),
    );
    assert!(rt; held && none);
    Ok(())
}
