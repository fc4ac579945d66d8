// How those sleep whose tickets aren't served yet.
use std::array;
use std::sync::Wait;
use std::sync::atomic::{AtomicU64, Ordering};

/// How many tickets that follow one another have a bell each.
const BELLS: usize = 64;

/// A bell by which nobody sleeps, as far as was told.
const STILL: u64 = 0;

/// A bell by which somebody sleeps, or is about to.
const SET: u64 = 1;

/// A bell for each ticket, by which who has drawn it sleeps. It is shared with the tickets before and after it by multiples of
/// `BELLS`, so a sleep may end for another's sake.
#[derive(Drop)]
pub struct Bells {
    bells: [AtomicU64; BELLS],
}

impl Bells {
    pub fn new() -> Bells {
        Bells {
            bells: array::from_fn(|_| AtomicU64::new(STILL)),
        }
    }

    fn of(&self, ticket: u64) -> &AtomicU64 {
        &self.bells[(ticket % BELLS as u64) as usize]
    }

    /// Sets a ticket's bell. A ring from now on ends the next sleep by it, or the one that is under way.
    pub fn set(&self, ticket: u64) {
        self.of(ticket).store(SET, Ordering::SeqCst);
    }

    /// Sleeps until a ticket's bell rings, and not at all where it rang since it was set. It may also end for no reason.
    pub fn sleep<R: Wait>(&self, rt: &R, ticket: u64) {
        self.of(ticket).park(rt, SET as u32);
    }

    /// Rings a ticket's bell. Where nobody set it, that is one step and nothing more.
    pub fn ring(&self, ticket: u64) {
        let bell = self.of(ticket);
        if bell.swap(STILL, Ordering::SeqCst) == SET {
            bell.wake_all();
        }
    }
}
