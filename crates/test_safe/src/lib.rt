//! Described services as data, and whether they can be recovered.
//!
//! - `parts`: what descriptions here are made of
//! - `services`: a lock, an event and a semaphore, which can be recovered
//! - `faulty`: services that can't, each for a reason of its own
//!
//! The tests:
//! - `verdicts`: what is found of each (`Expected`, `try_one`)
#![tactic(auto)]

mod faulty;
mod parts;
mod services;
#[cfg(test)]
mod verdicts;

pub use faulty::{
    counter, crate_overfull, forgetful_lock, heap, limited_event, mute_semaphore, tally,
};
pub use services::{event, lock, semaphore};
