//! A play of one script over several services, each with a world and stops of its own: a client has one call at a time over all of them.
//!
//! - `served`: the service that a member is of (`Served`)
//! - `world`: the world of one service, whichever it is (`ServiceWorld`)
//! - `member`: the world of one of several services (`Member`)
//! - `members`: all of them, in the order of their interfaces (`Members`)
//! - `ended`: what a play came to (`MultiEnded`, `MultiEnd`)
//! - `running`: the worlds of the members, and how far the clients have come (`Running`)
//! - `whose`: whose turn it is
//! - `ends`: how clients end
//! - `play`: a play (`MultiPlay`)
//! - `report`: the printed run (`multi_text`)
//! - `merged`: the lines of the merged list; `numbers`: numbers of calls over all members; `traced`: the traces of the members
//!
//! `specs/Members.antt` says what contracts see of the members, `specs/Played.antt` what a play promises, and `specs/Report.antt`
//! has the lines as they are printed, apart from the code.
#![tactic(auto)]

mod ended;
mod ends;
mod member;
mod members;
mod merged;
mod numbers;
mod play;
mod report;
mod running;
mod served;
mod traced;
mod whose;
mod world;

pub use ended::{EndedList, MemberList, MultiEnd, MultiEndList, MultiEnded};
pub use member::Member;
pub use members::Members;
pub use play::{MemberTables, MultiPlay};
pub use report::multi_text;
pub use served::Served;
pub use sg_edge::AtPoints;
pub use sg_facts::{Bytes, Interface, ListOf, MOST_FUNS, NoMemory, Service, Shape, Tables};
pub use sg_interpret::{DescribedImage, DescribedService, Describes, Description};
pub use sg_load::ServiceKind;
pub use sg_sim::{
    Did, End, EndList, Ended, Given, NextCall, Phase, ScriptCall, call_with_setup, desc_of,
    most_client,
};
pub use world::ServiceWorld;
