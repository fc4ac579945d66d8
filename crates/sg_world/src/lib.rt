//! A world: clients make their calls, one event at a time, on a service that may stop at any point.
//!
//! - `did`: what a step did (`Did`)
//! - `inner`: the parts of a world: the service, its clients, and what they did (`Inner`)
//! - `stepping`: which line a step takes
//! - the lines: `replies` (a reply is handed over, held or lost), `recovery` (a point, a boot, a replay or a load) and `serving` (the
//!   service is asked); `waking`: who is asked again
//! - `world`: these as one (`World`)
//!
//! `sg_clients` has the clients, and the world as plain data with its small changes; `sg_world_laws` what a world keeps after
//! every event.
#![tactic(auto)]

mod did;
mod inner;
mod recovery;
mod replies;
mod serving;
mod stepping;
mod waking;
mod world;

pub use did::Did;
pub use sg_clients::{Mark, MarkKind, Phase, Withdrawn};
pub use sg_replay::History;
pub use world::World;
