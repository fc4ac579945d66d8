//! What the text of an interface describes: the shape of its service, the greatest number of each field, and how each function answers; and what
//! can be wrong with that.
//!
//! - `describing`: what a text describes, or what is first wrong with what it says of answers (`describe`)
//! - `fault`: what is wrong, and where (`AnswerFaultKind`, `AnswerFault`, `AnswerError`)
//! - `flaws`: the first place of each kind of flaw; `rule_flaws` looks for it in rules
//! - `making`: the description of a text in which nothing is wrong, part by part
//! - `names`: what names and numbers in rules stand for; `said`: what statements say of fields and functions
//! - `laws`: laws of the definitions (`one_verdict`, `flawless_texts_are_plain`)
#![tactic(auto)]

mod describing;
mod fault;
mod flaws;
mod laws;
mod making;
mod names;
mod rule_flaws;
mod said;

pub use describing::describe;
pub use fault::{AnswerError, AnswerFault, AnswerFaultKind};
pub use laws::{flawless_texts_are_plain, one_verdict};
pub use making::MOST_UNSAID;
pub use said::{most_said, proto_place, rules_said};
pub use sg_described::{Bounds, Description};
pub use sg_shape::{
    MOST_PARAMS, MOST_RULES, NoMemory, Rule, Service, Shape, ShapeError, ShapeFaultKind, Statement,
    Tree, parse, shape_of,
};
