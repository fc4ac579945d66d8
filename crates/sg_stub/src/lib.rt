//! The tables that stubs work by, compiled from an accepted interface.
//!
//! - `compiling`: the tables of an interface (`compile`)
//! - `lines`: their lines, in order
//! - `triples`: what descriptors can come to, to be looked up (`TripleSet`)
//! - `laws`: that an interface has one table (`one_table`)
#![tactic(auto)]

mod compiling;
mod laws;
mod lines;
mod triples;

pub use compiling::compile;
pub use laws::one_table;
pub use sg_check::{
    Accepted, CheckError, CheckFault, CheckKind, Protos, Statement, Tree, Triple, Walks, check,
    fun_number, interface_of, parse, reachable, restores, says_of,
};
