//! The tracker, tried from outside: what answered calls make of the rows, under the tables of the standard interfaces.
//!
//! - `calls`: calls and replies (`call`, `done`)
//!
//! The tests:
//! - `locks`: a lock that is taken, released and ended
//! - `pages`: pages below others, and what leaves the rows
#![tactic(auto)]

#[cfg(test)]
mod calls;
#[cfg(test)]
mod locks;
#[cfg(test)]
mod pages;
