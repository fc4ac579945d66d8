// How a client waits between two events of a call that has to wait.
use std::sync::Wait;
use std::sync::atomic::AtomicU64;
use std::time::Duration;

// So often who has to wait asks again at once.
const AT_ONCE: u32 = 2;

// The first sleep, in microseconds, and how often it is doubled at most: up to 10 milliseconds.
const SHORTEST: u64 = 10;

const DOUBLINGS: u32 = 10;

// The value of the word by which a thread sleeps, which nobody changes.
const STILL: u32 = 0;

/// Sleeps for a while, where a call had to wait at so many of its events; so who waits long asks seldom: each time after about as long as
/// it slept in all before.
pub fn pause<R: Wait>(rt: &R, asked: u32) {
    if asked <= AT_ONCE {
        return;
    }
    let doublings = (asked - AT_ONCE).min(DOUBLINGS);
    let word = AtomicU64::new(u64::from(STILL));
    word.park_timeout(rt, STILL, Duration::from_micros(SHORTEST << doublings));
}
