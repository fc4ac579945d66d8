//! Worked examples across the services: histories written out, each with replies that are legal, and with one reply
//! that isn't.
//!
//! The functions do nothing: their clauses are the examples, and the check proves them by computing.
//!
//! - `locks`, `events`, `pages`, `files`, `threads`, `timers`: the examples of each service
#![tactic(auto)]

mod events;
mod files;
mod locks;
mod pages;
mod threads;
mod timers;

pub use events::{one_waits, overflow};
pub use files::{file_refusals, one_file, own_alone};
pub use locks::{blocked, four_calls, lock_refusals, owner_alone, release_wakes};
pub use pages::{alias_released, occupied, page_refusals, subtree_goes};
pub use threads::{queue, thread_refusals, woken};
pub use timers::{due, timer_refusals};
