//! Plays of a script on a service, whichever it is, under an accepted interface of it: in one thread, or with the clients in
//! threads of their own, which make their calls through passes of one world.
//!
//! - `plays`: a play in one thread (`simulate`), and one with a thread for each client (`share`)
//! - `runs`: a play with a thread for each client, by tables (`run`)
//! - `threads`: the threads of the clients
//! - `world`: the world that they share (`PlayedWorld`); `naming`: which play it is of (`Naming`)
//!
//! `specs/Runs.antt` says what a play promises. Whose service it is doesn't matter: all that is asked of it is the trait. Of a world
//! that is handed from thread to thread its type is known, and what its log tells. So its type says of which script the play is and
//! by which tables, and keeps what a play needs that goes on over it.
#![tactic(auto)]

mod naming;
mod plays;
mod runs;
mod threads;
mod world;

pub use plays::{share, simulate};
pub use runs::run;
pub use sg_sim::{
    Arg, ArgList, CallList, ClientList, Play, Played, Script, ScriptCall, play_script,
};
pub use sg_stub::Accepted;
