//! What a service is: the finite facts of its interface, its rows, and the trait that every service meets.
//!
//! - `shape`: the facts of a service (`Shape`, `FunShape`, `FieldShape`, `Effect` and their parts)
//! - `interface`: what an interface declares of a shape (`Interface`)
//! - `row`: a tracked descriptor (`Row`, `Fields`)
//! - `entry`: a call with its reply (`Entry`); `next_call`: a call that a client is about to make (`NextCall`)
//! - `outcome`: what asking a service gives (`Outcome`, `Patch`)
//! - `path`: the path of a file as a key (`FilePath`)
//! - `trace`: what was done to a service, boot by boot (`Trace`, `BootLog`, `Item`, `Tag`)
//! - `items`: the items of one boot, in few bytes (`ItemList`), and an asking by its parts (`Asking`); `lent`: items, lent (`LentItem`, `LentTag`, `LentOutcome`);
//!   `kinds`: of which kinds they are (`ItemKind`, `TagKind`); `kept`: loads, whose files are shared (`LoadNote`)
//! - `tables`: an interface with its walks (`Tables`, `WalkLine`)
//! - `walk`: the functions whose calls rebuild a descriptor (`Walk`)
//! - `service`: the trait `Service`
//! - `words`: the words of the interface language for facts (`parents_word`, `close_word`, `flag_word`), and the names of fields
//!   (`field_name`)
//! - `limits`: the limits of every run
//! - `laws`: laws of the definitions (`legal_from_the_front`)
//!
//! The definitions that contracts cite stand in `specs/`: the tracked rows (`Track`), the object (`Object`), the guard
//! (`Guard`), legal histories (`Legal`), needs (`Needs`), walks (`Walks`), interfaces that fit (`Fits`), sound objects
//! (`Sound`), what asking does (`Invoke`) and the laws of a service (`Laws`).
#![tactic(auto)]

mod entry;
mod interface;
mod items;
mod kept;
mod kinds;
mod laws;
mod lent;
mod limits;
mod next_call;
mod outcome;
mod path;
mod row;
mod service;
mod shape;
mod tables;
mod trace;
mod walk;
mod words;

pub use entry::Entry;
pub use interface::Interface;
pub use items::{Asking, ItemList};
pub use kept::LoadNote;
pub use kinds::{ItemKind, TagKind};
pub use laws::legal_from_the_front;
pub use lent::{LentItem, LentOutcome, LentTag};
pub use limits::{
    END_OF_FUNS, FIRST_CLIENT, LAST_CLIENT, MOST_FIELDS, MOST_FILE, MOST_FUNS, MOST_LIVE,
    MOST_PATH, MOST_WRITTEN,
};
pub use next_call::NextCall;
pub use outcome::{Outcome, Patch, PatchRoom};
pub use path::FilePath;
pub use row::{Fields, FieldsRoom, Row};
pub use service::Service;
pub use sg_base::{
    Args, Brief, Bytes, Call, Code, Gave, GaveKind, Good, IdList, Lent, LentArgs, LentBrief,
    LentCall, LentGood, LentReply, LentValue, ListOf, MOST_REPLY_WORDS, NoMemory, PairList, Path,
    Point, PointList, Records, Reply, ReplyRoom, RoomyList, SpareList, SpareReply, Stops, Text,
    TextFault, TextRoom, TryCopy, Value, Why, Words, gave_of, is_brief_call, is_text_byte,
    reply_words,
};
pub use shape::{Effect, FieldShape, FunShape, Kind, Leaves, Parents, Shape};
pub use tables::{Tables, WalkLine, WalkList};
pub use trace::{BootList, BootLog, Item, Tag, Trace};
pub use walk::Walk;
pub use words::{close_word, field_name, flag_word, parents_word};
