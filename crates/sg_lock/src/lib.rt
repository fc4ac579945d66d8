//! Locks: each is free or owned by one client.
//!
//! - `functions`: the numbers of the service's functions
//! - `shape`: the facts of the service, those of its standard interface
//! - `lock`: one lock (`Lock`)
//! - `service`: the service (`LockService`)
#![tactic(auto)]

pub mod functions;
mod lock;
mod service;
mod shape;

pub use lock::Lock;
pub use service::LockService;
pub use sg_slots::{Decision, Slot, Slots, carry_out};
