//! The shape that the text of an interface declares by itself, whatever services there are, and what can be wrong with the text before that.
//!
//! - `shaping`: the shape of a text, or what is first wrong with it (`shape_of`)
//! - `fault`: what is wrong with a text by itself, and where (`ShapeFaultKind`, `ShapeFault`, `ShapeError`)
//! - `flaws`: the first place of each kind of flaw; `forbidden`: what no function of a shape may have
//! - `making`: the shape of a text within the limits, part by part: `funs` its functions, `effects` what they do to fields, `params`
//!   their parameters, `fields` its fields, `pairs` its transitions and recover steps
//! - `protos`: the prototypes of a text; `uses`: the uses of fields in one; `rules`: the rules
//! - `keeping`: lists that are kept to the end of the program; `adding`: lists that gain what is found; `limits`: how large a text may be
//! - `laws`: laws of the definitions (`one_verdict`, `flawless_shapes`, `own_texts_fit`)
#![tactic(auto)]

mod adding;
mod effects;
mod fault;
mod fields;
mod flaws;
mod forbidden;
mod funs;
mod keeping;
mod laws;
mod limits;
mod making;
mod pairs;
mod params;
mod protos;
mod rules;
mod shaping;
mod uses;

pub use fault::{ShapeError, ShapeFault, ShapeFaultKind};
pub use forbidden::count_args;
pub use keeping::kept;
pub use laws::{flawless_shapes, one_verdict, own_texts_fit};
pub use limits::{MOST_PARAMS, MOST_RULES};
pub use rules::rule_at;
pub use sg_check_statements::{
    Code, Effect, FieldShape, FunShape, Kind, NoMemory, Operand, Operator, Param, Parents,
    Relation, RowTest, Rule, Service, Shape, Spelled, Statement, Term, Test, Tree, fun_number,
    fun_of_name, has_word, number_of_digits, parse,
};
pub use shaping::shape_of;
