//! Worlds that threads share: the log of a world, which tells what happened to its clients, and a world by a name, so that threads
//! know of a world that they take which tables it has, how many clients, and which plan of stops.
//!
//! - `named`: a world by a name (`NamedWorld`, `WorldNames`), which clients share by their passes
//!
//! `specs/Log.antt` has the log as a function of what contracts see of a world. `proofs/` has what each event adds to it.
#![tactic(auto)]

mod named;

pub use named::{NamedWorld, WorldNames, stepped_of};
pub use sg_turn::{
    Args, Host, InvokeFault, Kept, NoMemory, Pass, PassList, Service, Shared, Stepped, Stops,
};
pub use sg_world::{Did, History, World};
