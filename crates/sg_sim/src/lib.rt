//! Plays: the clients of a script make their calls, turn by turn, on a service that may stop, until nobody can go on.
//!
//! - `play`: a play (`Play`)
//! - `played`: a run that came to its end (`Played`)
//! - `plays`: plays a script to its end (`play_script`)
//! - `turn`: the turn of a client
//! - `given`: what the calls of the clients were given
//!
//! `specs/Played.antt` says what a play promises of its run.
#![tactic(auto)]

mod given;
mod play;
mod played;
mod plays;
mod turn;

pub use given::{Given, ids_of};
pub use play::Play;
pub use played::Played;
pub use plays::play_script;
pub use sg_discard::{Did, World, discard};
pub use sg_play::{
    Arg, ArgList, CallList, ClientList, End, EndList, Ended, History, NextCall, Phase, Script,
    ScriptCall, call_with_setup, desc_of, most_client, next_call, resolve,
};
pub use turn::tell_world;
