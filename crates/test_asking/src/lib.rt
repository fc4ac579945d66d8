//! What the tests of services share: a service is asked through its bound alone, with stops that strike once.
//!
//! - `once`: a service that stops at one point (`Once`)
//! - `asking`: calls on services (`ask`, `call`)
//! - `facts`: calls and their outcomes, passed on, so that a crate of tests names one crate less
#![tactic(auto)]

mod asking;
pub mod facts;
mod once;

pub use asking::{ask, call};
pub use once::Once;
