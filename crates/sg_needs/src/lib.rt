//! What the tracked rows say of a call before the service is asked: whether it is refused, what has to be whole for it, and
//! the calls that rebuild a row.
//!
//! - `refusals`: the refusals that the rows alone give (`guard`)
//! - `needs`: what has to be there before a call (`wants_all`, `file_needed`); `line`: the path of an id
//! - `replayed`: the calls of a row's walk (`walk_of_row`, `replayed_call`)
#![tactic(auto)]

mod line;
mod needs;
mod refusals;
mod replayed;

pub use needs::{file_needed, wants_all};
pub use refusals::guard;
pub use replayed::{replayed_call, walk_of_row};
pub use sg_track::Tracker;
