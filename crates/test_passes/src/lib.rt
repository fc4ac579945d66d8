//! Passes to a shared world of two clients on locks, tried from outside.
//!
//! - `asked`: calls on locks, and how one is made through a pass (`Asked`, `ask`)
//! - `sharing`: how what two clients share begins and ends (`share`, `end`)
//! - `short`: want of memory at one event (`Short`)
//!
//! What clients do, of whatever two of them may share:
//! - `turns`: one thread makes the calls of both
//! - `pairs`: each takes and releases one lock in a thread of its own
//! - `want`: one goes on after want of memory
//!
//! The tests, each over a new world:
//! - `world`: what comes of it
#![tactic(auto)]

#[cfg(test)]
mod asked;
#[cfg(test)]
mod pairs;
#[cfg(test)]
mod sharing;
#[cfg(test)]
mod short;
#[cfg(test)]
mod turns;
#[cfg(test)]
mod want;
#[cfg(test)]
mod world;
