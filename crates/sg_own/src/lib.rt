//! Whether a text that describes a service of its own is accepted.
//!
//! - `checking`: the interface that it declares, with what it describes (`OwnInterface`), or what is first wrong with it (`check_own`)
//! - `fault`: what is wrong, and where (`OwnKind`, `SafetyKind`, `OwnFault`, `OwnError`)
//! - `places`: where in the text it stands why its service can't be recovered
//! - `laws`: laws of the definitions (`one_own_verdict`, `own_kinds`, `accepted_services_keep_laws`)
#![tactic(auto)]

mod checking;
mod fault;
mod laws;
mod places;

pub use checking::{OwnInterface, check_own};
pub use fault::{OwnError, OwnFault, OwnKind, SafetyKind};
pub use laws::{accepted_services_keep_laws, one_own_verdict, own_kinds};
pub use sg_check::{CheckError, CheckKind, check};
pub use sg_describe::{AnswerFaultKind, Bounds, Description, ShapeError, ShapeFaultKind, shape_of};
pub use sg_safe::{FailingCall, KnownField, Obstacle, Unsafe};
