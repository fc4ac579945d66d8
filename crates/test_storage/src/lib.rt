//! The storage and the service ids of descriptors, tried from outside.
//!
//! - `calls`: calls and replies (`call`, `done`)
//!
//! The tests:
//! - `files`: files that are written by turns, and parts of them that are lent
//! - `names`: service ids in both directions, against a plain list
//! - `receipts`: receipts, rows and ids
#![tactic(auto)]

#[cfg(test)]
mod calls;
#[cfg(test)]
mod files;
#[cfg(test)]
mod names;
#[cfg(test)]
mod receipts;
