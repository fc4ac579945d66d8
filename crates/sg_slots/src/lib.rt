//! What services of single rows share: the slots that hold an entry for each descriptor, the way that a decision is carried out
//! on them, part by part, and queues, whose entries are found by two orders of numbers too.
//!
//! - `entry`: what a service keeps of one descriptor (`Slot`)
//! - `slots`: the entries by service id, and the number of ids given (`Slots`)
//! - `decision`: what a service decides to do (`Decision`), and how it is done (`carry_out`)
//! - `service`: a service of single rows (`RowService`), by its rules (`RowRules`), and what their shapes have in common
//!   (`SINGLE_ROWS`)
//! - `queue`: an entry for each descriptor, found by its id and in two orders of numbers (`Queue`)
//! - `queued`, `standing`: what stands in a queue (`Queued`), and where (`Standing`); `key`, `index`: the two orders, as sets of keys
#![tactic(auto)]

mod decision;
mod entry;
mod index;
mod key;
mod queue;
mod queued;
mod service;
mod slots;
mod standing;

pub use decision::{Decision, carry_out};
pub use entry::Slot;
pub use queue::Queue;
pub use queued::Queued;
pub use service::{RowRules, RowService, SINGLE_ROWS};
pub use slots::Slots;
pub use standing::Standing;
