//! What is known of the numbers of a described service before it runs.
//!
//! - `known`: what is known of a call and its row (`Seen`, `ArgsKnown`), and what follows of terms, tests and rules
//! - `told`: what tests that hold tell; `lasting`: what goes on to hold through effects
//! - `states`: in which states a field is never 0
//! - `survey`: what is found of a description before it is checked (`Survey`)
#![tactic(auto)]

mod known;
mod lasting;
mod states;
mod survey;
mod told;

pub use known::{
    ANY, ArgsKnown, Seen, ZERO, applies_surely, bounds_after, bounds_up_to, field_bounds,
    greatest_word, stop_surely, stops, waits,
};
pub use lasting::{all_keep_out, all_last};
pub use sg_described::{
    AnswerShape, Bounds, Code, Description, Effect, FieldShape, FunShape, Kind, LAST_CLIENT,
    Leaves, ListOf, MOST_FIELDS, NoMemory, Operand, Parents, Relation, RuleShape, Shape, Term,
    Test, Verdict, Walk,
};
pub use sg_walk::{FieldState, Spot, effect_on, marked};
pub use states::{StateList, has_state, never_zero_states, state_left};
pub use survey::{Survey, is_some_in, surveyed};
pub use told::narrow_all;
