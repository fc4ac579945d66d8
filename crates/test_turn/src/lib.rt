//! Hand-overs of one value between threads, tried from outside.
//!
//! - `tally`: a value that notes who held it (`Tally`)
//! - `clients`: what a client does with its seat, once and many times
//!
//! The tests:
//! - `alone`: one thread: a seat alone, two seats by turns, and 64 seats
//! - `threads`: two threads, and one that asks for progress while another holds the value
//! - `many`: 63 threads and the one that waits for them
#![tactic(auto)]

#[cfg(test)]
mod alone;
#[cfg(test)]
mod clients;
#[cfg(test)]
mod many;
#[cfg(test)]
mod tally;
#[cfg(test)]
mod threads;
