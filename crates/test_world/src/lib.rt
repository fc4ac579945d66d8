//! Worlds, tried from outside: what the crates share that test them. Plays are texts, read as they are made.
//!
//! - `words`: the words of texts, and values as they are written (`first_word`, `headed`, `Written`)
//! - `events`: events of a world, and calls as they are offered (`Event`, `Asked`)
//! - `answers`: whether a text tells what a step did, or a reply (`tells`, `tells_reply`)
//! - `fits`: whether a call may be offered
//! - `run`: a world with its interface beside it, so that each event is checked before it is made (`Run`), and what is said of it
//!   (`judged`, `Judge`); stops at points (`stops_at`)
//! - `plays`: plays as texts have them (`play`)
//! - `calls`: one client's calls, each with the reply that it is to get (`answered`)
//! - `seen`: whether a text tells what is seen of a world (`shows`)
//! - `tables`: the standard interfaces, their tables and services, passed on
//!
//! `Never`, by which nothing stops, is passed on, and so is what plays name of services and values.
#![tactic(auto)]

mod answers;
mod calls;
mod events;
mod fits;
mod plays;
mod run;
mod seen;
pub mod tables;
mod words;

pub use answers::tells_reply;
pub use calls::answered;
pub use events::{Asked, Event};
pub use plays::play;
pub use run::{Judge, Run, Unmade, judged, stops_at};
pub use seen::shows;
pub use sg_discard::{Did, Phase, World};
pub use sg_edge::Never;
pub use sg_facts::{
    Args, Bytes, Code, Entry, Good, LentValue, NoMemory, Point, Reply, Service, Stops, Tables,
    Value, Words,
};
pub use words::headed;
