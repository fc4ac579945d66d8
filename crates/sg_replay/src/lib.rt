//! The engine of recovery: a service with its journal, what outlives its stops, and what stubs know of its descriptors.
//!
//! - `engine`: the parts, and what each of them tells (`Engine`)
//! - `todo`: what is still to be done before a call may be served (`Todo`)
//! - `hole`: the first row that is wanted and isn't whole
//! - `advance`: one step of that: a call of a walk, or the load of a file (`Advanced`)
//! - `serve`: a call that needs nothing any more
//! - `commit`: memory that is taken ahead for a call, and the commit of its answer; `ended`: the names of ended rows
//! - `names`: the ids of the running service for those of the clients, and back; `present`: the files that are present in this
//!   boot
#![tactic(auto)]

mod advance;
mod commit;
mod ended;
mod engine;
mod hole;
mod names;
mod present;
mod serve;
mod todo;

pub use advance::Advanced;
pub use engine::Engine;
pub use sg_boot::History;
pub use todo::Todo;
