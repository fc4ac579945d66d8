//! Plays of worlds, event by event: each is a text of its offers, steps, withdrawals and leaves, with what each step must answer, of what
//! is seen at the end, and of the printed run.
//!
//! The tests:
//! - `locks`: stops around a take, and within the walk of a lock
//! - `counted`: events whose count a stop takes, and clients that wait for them
//! - `pages`: pages with aliases that are rebuilt, occupied and removed
//! - `files`: a file that is loaded, and a held reply that is lost
//! - `threads`: ranks that are kept, and one walk that two clients go on with
//! - `timers`: a timer that keeps its clock and when it is due
//! - `calls`: each call of a world, at each of the six services
#![tactic(auto)]

#[cfg(test)]
mod calls;
#[cfg(test)]
mod counted;
#[cfg(test)]
mod files;
#[cfg(test)]
mod locks;
#[cfg(test)]
mod pages;
#[cfg(test)]
mod threads;
#[cfg(test)]
mod timers;
