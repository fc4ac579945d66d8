//! Services that are described: each is data, a shape with rules, and is of the same kind as a service that is written.
//!
//! - `description`: a service as data (`Description`, `AnswerShape`, `RuleShape`, `Test`, `Term`, `Operand`)
//! - `bounds`: what is known of a number (`Bounds`)
//! - `laws`: laws of the definitions (`safe_services_keep_laws`, `never_zero_is_greatest`)
//!
//! The definitions stand in `specs/`: a description as plain data (`Described`), what it answers (`Meaning`), what is known of
//! numbers (`Known`), where a field is never 0 (`NeverZero`), who goes on to wait (`Waiting`), how walks go on (`Walking`), and
//! which descriptions are safe (`Safe`).
#![tactic(auto)]

mod bounds;
mod description;
mod laws;

pub use bounds::Bounds;
pub use description::{
    AnswerShape, Description, Operand, Relation, RuleShape, Term, Test, Verdict,
};
pub use laws::{never_zero_is_greatest, safe_services_keep_laws};
pub use sg_facts::{
    Call, Code, Effect, FIRST_CLIENT, FieldShape, FunShape, Kind, LAST_CLIENT, Leaves, LentValue,
    ListOf, MOST_FIELDS, NoMemory, Outcome, Parents, Path, Service, Shape, Stops, Walk,
};
pub use sg_slots::{Decision, Slots, carry_out};
