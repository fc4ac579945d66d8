//! Histories and how runs end.
//!
//! - `history`: the calls that were done, with their replies (`History`, `Entry`), in few bytes; `lent`: entries, lent (`LentEntry`)
//! - `ended`: how each client ended, and what a whole run came to (`End`, `Ended`)
//!
//! `specs/Reading.antt` says how the trace of a run is read, and `specs/Recovered.antt` what it means that a run recovers.
#![tactic(auto)]

mod ended;
mod history;
mod lent;

pub use ended::{End, EndList, Ended};
pub use history::History;
pub use lent::LentEntry;
pub use sg_facts::Entry;
