//! The generated load: for each of the services a script of many calls and stops, from a number, on the service's standard
//! interface.
//!
//! - `kind`: the services (`ServiceKind`), and what a load knows of each
//! - `interface`: the standard interface of a service (`standard`)
//! - `sizes`: how large a script is
//! - `draws`: the numbers that are drawn (`Draws`)
//! - `calls`: calls that are added to a script
//! - `script`: the script (`generate`)
//!
//! `specs/Generated.antt` has the script apart from the code, by the groups in `specs/Services.antt` and the draws in
//! `specs/Drawn.antt`.
#![tactic(auto)]

mod calls;
mod draws;
mod interface;
pub mod kind;
mod script;
mod sizes;

pub use interface::standard;
pub use kind::ServiceKind;
pub use script::generate;
pub use sg_check::{Accepted, check};
pub use sg_plain::{Arg, Script, ScriptCall};
