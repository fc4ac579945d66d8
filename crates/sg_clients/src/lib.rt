//! The clients of a world: how far each has come with its call, the memory that was taken for the call, and what a world shows
//! of them: what happened to each, and the calls that were withdrawn.
//!
//! - `seat`: one client (`ClientSeat`)
//! - `clients`: all clients (`Clients`)
//! - `phase`: how far a client has come with its call (`Phase`)
//! - `mark`: what happened to clients, in its order (`Mark`, `MarkKind`)
//! - `withdrawn`: a call that its client withdrew (`Withdrawn`)
//!
//! `specs/WorldView.antt` has the world as plain data, and the small changes that its events are made of.
#![tactic(auto)]

mod clients;
mod mark;
mod phase;
mod seat;
mod withdrawn;

pub use clients::Clients;
pub use mark::{Mark, MarkKind, MarkList};
pub use phase::{Phase, PhaseList};
pub use seat::Returned;
pub use sg_hist::{End, EndList, Ended};
pub use withdrawn::{Withdrawn, WithdrawnList};
