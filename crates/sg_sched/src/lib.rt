//! Threads: each is ready or asleep, with a priority and a rank in the queue.
//!
//! - `functions`: the numbers of the service's functions
//! - `shape`: the facts of the service, those of its standard interface
//! - `thread`: one thread (`Thread`), and where it stands in the queue
//! - `service`: the service (`SchedService`)
#![tactic(auto)]

pub mod functions;
mod service;
mod shape;
mod thread;

pub use service::SchedService;
pub use shape::sched_shape;
pub use thread::Thread;
