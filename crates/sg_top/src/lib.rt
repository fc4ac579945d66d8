//! The program as a call: reads an interface and a script, plays it, and writes every reply; or says whether an interface is
//! accepted, prints its tables, or prints it as one of version 2; or explains why an input is refused; or draws a
//! run, or tries all stops; or plays a script over several services, or a
//! generated script.
//!
//! - `top`: what the words, the source and the sink come to (`superglue`, `serial`, `Answer`)
//! - `status`: how a call ends, and the number of that (`Status`)
//! - `command`: what the words ask for (`Command`)
//! - `output`: what a command makes of its input, and what was run for it (`Ran`)
//! - `members`: the members of a play over several services, and the play over them
//! - `laws`: what a run prints is read to its history (`printed_runs_are_read`)
//! - `ready`: inputs that are ready, with the service of their interface
//! - `job`: what can be done in one thread with any service (`Job`)
//! - `dispatch`: the way to the service of an interface (`at_served`), and runs in several threads
//! - `own`: the way to the service that a text describes (`at_own`); `given`: an accepted interface, given to a play of it
//! - `services`: the services' shapes, and what is done with them in one thread
//!
//! `specs/Headline.antt` says what a play promises, and `specs/Answer.antt` what an answer promises, status by status.
#![tactic(auto)]

mod command;
mod dispatch;
mod given;
mod job;
mod laws;
mod members;
mod output;
mod own;
mod ready;
mod services;
mod status;
mod top;

pub use command::{Command, Shows};
pub use laws::printed_runs_are_read;
pub use output::Ran;
pub use sg_edge::{Gate, MemSink, MemSource, NoMemory, OpenGate, StdSink, StdSource};
pub use sg_explore::{MOST_PAIRED, NoProgress, Played, Progress};
pub use sg_judge::{
    MOST_DIVIDER, MOST_INPUT, MOST_INTERFACE, MOST_SCRIPT, Read, cut, one_cut, one_input, parse,
    read_input,
};
pub use sg_load::{Arg, Script, ScriptCall, ServiceKind, check, generate, standard};
pub use sg_multi::{Interface, MOST_FUNS, MemberList, MultiEnd, MultiEndList, MultiEnded};
pub use sg_verify::{End, EndList, Ended, History, text};
pub use status::Status;
pub use top::{Answer, serial, superglue};
