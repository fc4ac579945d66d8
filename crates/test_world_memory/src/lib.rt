//! Want of memory in worlds: each event that gets none is made again.
//!
//! The tests:
//! - `memory`: events of two clients around a stop, at each of the six services; `inside`: the stop (`Inside`)
#![tactic(auto)]

#[cfg(test)]
mod inside;
#[cfg(test)]
mod memory;
