//! The service ids of the clients' ids, in this boot: what stands for a client's descriptor in the running service, looked up
//! in both directions.
//!
//! - `named`: what stands for an id (`Named`)
//! - `names`: the names in both directions (`Names`)
//! - `both`: the two maps, each by itself
#![tactic(auto)]

mod both;
mod named;
mod names;

pub use named::Named;
pub use names::Names;
