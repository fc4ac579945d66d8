//! The stubs' memory: the tracked rows of all descriptors, kept so that what an answered call makes of them needs no
//! memory.
//!
//! - `tracker`: the rows, and what a call makes of them (`Tracker`)
//! - `kept`: a row with what is kept beside it
//! - `make`, `draft`, `room`: the row that a creation makes, in the room that was taken for it; `words`: the words that
//!   other functions set in place
//! - `places`: where a row stands; `tally`: the number of children beside each row; `subtree`: the end of a row, alone or
//!   with all below it
//! - `laws`: what may be tracked (`sound_oks_are_tracked`)
#![tactic(auto)]

mod draft;
mod kept;
mod laws;
mod make;
mod places;
mod room;
mod subtree;
mod tally;
mod tracker;
mod words;

pub use laws::sound_oks_are_tracked;
pub use tracker::Tracker;
