//! The tables of the standard interfaces, made once for the crates that test.
//!
//! - `tables`: a function for each service (`lock_tables`, `event_tables`, `mm_tables`, `ramfs_tables`, `sched_tables`,
//!   `timer_tables`)
//! - `facts`: calls, their outcomes and tables, passed on, so that a crate of tests names one crate less
#![tactic(auto)]

pub mod facts;
mod tables;

pub use sg_load::kind::{
    EventService, LockService, MmService, RamfsService, SchedService, TimerService,
};
pub use tables::{event_tables, lock_tables, mm_tables, ramfs_tables, sched_tables, timer_tables};
pub use test_interfaces::{EVENT, LOCK, MM, RAMFS, SCHED, TIMER, in_version_2};
