//! A service with its journal: while it is up, what it holds is what the items of its boot make of an empty one.
//!
//! - `cell`: a service with its journal (`Cell`)
//! - `ask`: asking a service, with the point after its reply
//! - `load`: the files that were loaded, which items of loads share
//! - `journal`: what was done, with room for more; `room`: room for what one item holds
#![tactic(auto)]

mod ask;
mod cell;
mod journal;
mod load;
mod room;

pub use cell::Cell;
pub use sg_hist::{End, EndList, History};
