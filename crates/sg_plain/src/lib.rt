//! What a play promises, and what the play of a script without stops is: definitions and laws, and no code.
//!
//! `specs/Calls.antt` says which calls a client makes and how clients end, `specs/Promises.antt` what a play promises, and
//! `specs/Plain.antt` what each turn of the play without stops does. The room `Playing` has what a play keeps while it goes on, `Ending`
//! that what it keeps at its end is what it promises, and `Flawless` that a script without a flaw may be played. `test_plays` has
//! plays, written out.
#![tactic(auto)]

pub use sg_clients::{End, EndList, Ended, Phase};
pub use sg_script::{Arg, ArgList, CallList, ClientList, Script, ScriptCall, TurnList, text_of};
