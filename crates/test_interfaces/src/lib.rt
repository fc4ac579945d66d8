//! The standard interfaces of the services, as texts; and tests of what reads and prints the interface language.
//!
//! - `texts`: the texts of version 1 (`LOCK`, `EVENT`, `MM`, `RAMFS`, `SCHED`), events in version 2 (`EVENT2`) and timers
//!   (`TIMER`), and a text of version 1 in version 2 (`in_version_2`)
//! - `own`: texts of version 3 (`SEMAPHORE`, `RWLOCK`, `CHANNEL`, `LEASE`, `DEVICE`, `SOCKETS`)
//! - `places`: where the tokens of a text stand (`token_places`)
//!
//! The tests:
//! - `tokens`: the tokens of texts
//! - `sentences`: which texts are sentences, and where the others fail; `rules`: the statements and rules of version 3
//! - `trees`: what the tree of a text keeps, and texts that are printed as they stand
#![tactic(auto)]

mod own;
mod places;
#[cfg(test)]
mod rules;
#[cfg(test)]
mod sentences;
mod texts;
#[cfg(test)]
mod tokens;
#[cfg(test)]
mod trees;

pub use own::{CHANNEL, DEVICE, LEASE, RWLOCK, SEMAPHORE, SOCKETS};
pub use places::token_places;
pub use texts::{EVENT, EVENT2, LOCK, MM, RAMFS, SCHED, TIMER, in_version_2};
