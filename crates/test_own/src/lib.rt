//! The shapes that texts declare by themselves: those of the standard interfaces, and what is wrong with texts.
//!
//! - `shapes`: the shape of each standard interface is its service's (proved)
//! - `same`: locks and events that texts describe answer what the built-in ones do (proved)
//!
//! The tests:
//! - `standard`: the shape that is read of each standard interface
//! - `cases`: texts with one place marked, and what is first wrong there (`Case`, `try_each`); `flaws` lists them, kind by kind
//! - `large`: texts at the limits and past them
#![tactic(auto)]

#[cfg(test)]
mod cases;
#[cfg(test)]
mod flaws;
#[cfg(test)]
mod large;
mod same;
mod shapes;
#[cfg(test)]
mod standard;

pub use same::{own_events, own_locks};
pub use shapes::{event_shape, lock_shape, mm_shape, ramfs_shape, sched_shape, timer_shape};
