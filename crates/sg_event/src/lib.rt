//! Events: each has a count, which a trigger adds to, and which a wait takes one from and a take as many as there are.
//!
//! - `functions`: the numbers of the service's functions
//! - `shape`: the facts of the service, those of its standard interface (`event_shape`)
//! - `event`: one event (`Event`)
//! - `service`: the service (`EventService`)
#![tactic(auto)]

mod event;
pub mod functions;
mod service;
mod shape;

pub use event::Event;
pub use service::EventService;
pub use shape::event_shape;
