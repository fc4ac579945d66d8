//! Plays of a script without stops, with a stop at each point that was asked, and at each two: how they differ.
//!
//! - `exploring`: all plays, and what is printed of them (`explore`, `Explored`, `MOST_PAIRED`)
//! - `progress`: who is told how far an exploration has come (`Progress`, `NoProgress`)
//! - `rows`: plays side by side in threads
//! - `plays`: one play of a script with other stops
//! - `scripts`: a script with other stops
//! - `stops`: the points at which a play stops (`StopsAt`), and rows of them (`Row`)
//! - `outcomes`: what is kept of a play (`Outcome`)
//! - `tally`: what is counted of plays (`Tally`), and the first that differs (`Shown`)
//! - `text`: what is printed of a tally
//!
//! `specs/Explored.antt` says which plays are made, and what is printed of them.
#![tactic(auto)]

mod exploring;
mod outcomes;
mod plays;
mod progress;
mod rows;
mod scripts;
mod stops;
mod tally;
mod text;

pub use exploring::{Explored, MOST_PAIRED, explore};
pub use progress::{NoProgress, Progress};
pub use sg_shared::{Played, share, simulate};
