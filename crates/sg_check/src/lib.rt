//! Which interfaces are accepted: those whose every descriptor can be recovered in every state that it can come to.
//!
//! - `checking`: whether a text is accepted (`check`)
//! - `accepted`: an interface that is (`Accepted`)
//! - `declared`: the interface that a text declares, accepted or not (`interface_of`); `candidate`: that with what its descriptors come to (`Candidate`)
//! - `reached`: the functions that can't be reached
//! - `stuck`: the states that have no walk
//! - `protos`: the first prototype of one of some functions; `numbers`: sets of function numbers
//! - `laws`: laws of the definitions (`one_fault`)
//!
//! What a text may have wrong, kind by kind, what it is to be accepted, and what shapes a text may be checked against, is said in
//! `sg_check_statements`, in `specs/Flaws.antt`, `specs/Faults.antt` and `specs/Shapes.antt`.
#![tactic(auto)]

mod accepted;
mod candidate;
mod checking;
mod declared;
mod laws;
mod numbers;
mod protos;
mod reached;
mod stuck;

pub use accepted::Accepted;
pub use checking::check;
pub use declared::interface_of;
pub use laws::one_fault;
pub use sg_check_statements::{
    CheckError, CheckFault, CheckKind, END_OF_FUNS, Interface, NoMemory, Protos, Statement, Tables,
    Tree, TryCopy, WalkLine, WalkList, fun_number, parse, says_of,
};
pub use sg_walk::{Triple, Walks, reachable, restores, set_count};
