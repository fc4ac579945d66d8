//! Timers: each has a clock of its own, which its callers advance, and is due again and again, a period apart.
//!
//! - `functions`: the numbers of the service's functions
//! - `shape`: the facts of the service, those of its standard interface
//! - `timer`: one timer (`Timer`), and where it stands among the others
//! - `service`: the service (`TimerService`)
#![tactic(auto)]

pub mod functions;
mod service;
mod shape;
mod timer;

pub use service::TimerService;
pub use shape::timer_shape;
pub use timer::Timer;
