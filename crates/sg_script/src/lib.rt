//! Scripts: who calls what of a service or of several, in which turns, and at which points each service stops.
//!
//! - `script`: a script for an interface (`Script`), its calls (`ScriptCall`) and what these are given (`Arg`)
//! - `args`: the arguments of a call (`ArgList`)
//! - `multi`: a script for several interfaces (`MultiScript`), and its calls (`MultiCall`)
//! - `reading`: what a text stands for, for an interface (`read`) or for several (`read_multi`)
//! - `making`: the text of bytes that are known to be one (`text_of`)
//! - `fault`: why a text is no script (`ScriptError`), and what is first wrong with a text (`ScriptFault`, `ScriptKind`)
//!
//! `specs/Flaws.antt` says what can be wrong with a script, `specs/Scripts.antt` what a script without a flaw is, and
//! `specs/Reads.antt` what is answered on a text.
#![tactic(auto)]

mod args;
mod fault;
mod first;
mod front;
mod judging;
mod making;
mod multi;
mod names;
mod numbers;
mod reading;
mod script;

pub use args::ArgList;
pub use fault::{ScriptError, ScriptFault, ScriptKind};
pub use front::MOST_MEMBERS;
pub use making::text_of;
pub use multi::{MultiCall, MultiCallList, MultiClientList, MultiScript, StopsList};
pub use names::declared_fun;
pub use numbers::is_text;
pub use reading::{read, read_multi};
pub use script::{Arg, CallList, ClientList, MOST_CALLS, Script, ScriptCall, TurnList};
pub use sg_script_parse::{Part, ScriptSyntax, Spelled, WrittenArg, parse};
