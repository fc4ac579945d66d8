//! What the tracked rows say of calls, tried from outside.
//!
//! - `rows`: calls, and rows of locks (`call`, `add_lock`)
//!
//! The tests:
//! - `calls`: what is refused, and what is needed
//! - `walks`: the walk of a row, and its calls
#![tactic(auto)]

#[cfg(test)]
mod calls;
#[cfg(test)]
mod rows;
#[cfg(test)]
mod walks;
