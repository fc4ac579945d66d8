//! The printed run.
//!
//! - `printed`: a line for each reply, one for each client, the counts, and the trace where it is asked for (`text`); the line of a
//!   generated load (`load_line`); the line of one reply, and the counts (`push_entry`, `push_counts`), for other texts of runs
//! - `words`: calls, replies and values as they are printed
//! - `traced`: the trace, boot by boot
//!
//! `specs/Report.antt` has the lines as they are printed, apart from the code.
#![tactic(auto)]

mod printed;
mod traced;
mod words;

pub use printed::{load_line, push_counts, push_entry, text};
pub use sg_hist::{End, EndList, Ended, History, LentEntry};
pub use traced::{count_replays, is_replay, push_item, push_stop};
pub use words::{push_answer, push_call, push_number};
