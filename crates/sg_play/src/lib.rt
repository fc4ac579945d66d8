//! What a client of a script does in its turn on a world: it offers its next call, makes a step, and leaves after its last call.
//!
//! - `turn`: the offer and the step (`offer_next`, `make_step`), and the descriptor of a reply (`desc_of`)
//! - `calls`: what a client's next call comes to, by the descriptors that its earlier calls were given (`next_call`, `resolve`)
//! - `parts`: the calls of a client, found by halving (`script_call`, `most_client`)
//!
//! `sg_plain` says which calls a client makes, and what a play keeps while it goes on. Of plays over a world the room `Following` shows
//! that a play follows the play without stops until the service stops, and the room `Waking` that who waits is woken.
#![tactic(auto)]

mod calls;
mod parts;
mod turn;

pub use calls::{next_call, resolve};
pub use parts::{call_with_setup, most_client, script_call};
pub use sg_facts::NextCall;
pub use sg_plain::{
    Arg, ArgList, CallList, ClientList, End, EndList, Ended, Phase, Script, ScriptCall,
};
pub use sg_world::{History, World};
pub use turn::{desc_of, make_step, offer_next};
