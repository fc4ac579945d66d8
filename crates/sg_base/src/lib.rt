//! The values that every other crate speaks of: numbers and texts, calls and replies, lists of them, calls with what they gave in
//! few bytes, and the points of a run at which a service may stop.
//!
//! - `memory`: want of memory (`NoMemory`), and copies that may want it (`TryCopy`)
//! - `list`: the list (`ListOf`) and the names of its kinds; `room`: lists that grow without memory; `spare`: room that is kept
//! - `args`, `words`: the arguments of a call and the words of a reply, a `few` of which take no memory
//! - `text`, `value`, `call`, `reply`: what a client hands over and what it gets back
//! - `stops`: the points of a run (`Point`), and who says at which the service stops (`Stops`)
//! - `brief`: a call of words in brief (`Brief`, `Why`, `Gave`), and of which kind a record is (`RecordKind`, `GaveKind`)
//! - `lent`: calls, replies and records, lent (`LentCall`, `LentReply`, `LentGood`, `LentBrief`, `Lent`)
//! - `in_brief`: which calls and replies can be kept in brief (`is_brief_call`, `gave_of`, `reply_words`)
//! - `records`: the list of records (`Records`); `head`: what is kept of a record beside its words
//! - `same`: whether lent calls and replies are the same
//!
//! `specs/Records.antt` says what a record is, `specs/Lent.antt` what a lent one stands for, and `specs/Kinds.antt` of which kind it is.
#![tactic(auto)]

mod args;
mod brief;
mod call;
mod few;
mod head;
mod in_brief;
mod lent;
mod list;
mod memory;
mod records;
mod reply;
mod room;
mod same;
mod spare;
mod stops;
mod text;
mod value;
mod words;

pub use args::{Args, LentArgs, LentValue};
pub use brief::{Brief, Gave, GaveKind, RecordKind, Why};
pub use call::Call;
pub use in_brief::{gave_of, is_brief_call, reply_words};
pub use lent::{Lent, LentBrief, LentCall, LentGood, LentReply};
pub use list::{Bytes, IdList, ListOf, PairList, Path, PointList};
pub use memory::{NoMemory, TryCopy};
pub use records::{MOST_ARGS, Records};
pub use reply::{Code, Good, MOST_REPLY_WORDS, Reply, ReplyRoom};
pub use room::{ListRoom, RoomyList};
pub use spare::{SpareList, SpareReply};
pub use stops::{Point, Stops};
pub use text::{Text, TextFault, TextRoom, is_text_byte};
pub use value::Value;
pub use words::Words;
