//! Plays, tried from outside.
//!
//! - `ready`: the input of a play of locks (`ready`)
//! - `scarce`: locks that have no memory for one of their calls (`Scarce`)
//!
//! The tests:
//! - `again`: a play goes on after a step that wanted memory
//! - `by_hand`: a script is played at once, and by hand in another order
//! - `in_threads`: a thread whose call wants memory gives it up, and the run ends in want of memory
//! - `reports`: printed runs
#![tactic(auto)]

#[cfg(test)]
mod again;
#[cfg(test)]
mod by_hand;
#[cfg(test)]
mod in_threads;
#[cfg(test)]
mod ready;
#[cfg(test)]
mod reports;
#[cfg(test)]
mod scarce;
