//! What can be wrong with the text of an interface, up to whether it makes a descriptor at all: the first ten kinds of faults,
//! one after the other.
//!
//! - `fault`: what is wrong with an interface, and where (`CheckKind`, `CheckFault`, `CheckError`)
//! - `stages`: the kinds in their order (`fit_one_by_one`); an error where a fault of a kind is there (`unless`)
//! - `judge`: what can be wrong with a statement by itself (`Judge`), and the first that is (`first_flaw`)
//! - `services`: the service of a name; that a text makes no descriptor
//! - `params`, `flags`: prototypes whose parameters, or whose flags and states, are declared otherwise
//! - `heads`: the first fact that isn't the service's
//! - `effects`: effects that are declared otherwise; `declared` goes over those that are, `change` is one of them
//! - `pairs`: transitions and recover steps that the service hasn't
//! - `unknown`: names without a prototype; `protos`: the prototypes (`Protos`), and one that is there twice; `names`: sets of
//!   names
//! - `said`: what statements say of functions (`says_of`); `funs`: functions by their names (`fun_number`)
//! - `laws`: a law of the definitions (`accepted_anywhere`)
#![tactic(auto)]

mod change;
mod declared;
mod effects;
mod fault;
mod flags;
mod funs;
mod heads;
mod judge;
mod laws;
mod names;
mod pairs;
mod params;
mod protos;
mod said;
mod services;
mod stages;
mod unknown;

pub use fault::{CheckError, CheckFault, CheckKind};
pub use flags::leaves_another;
pub use funs::{fun_number, fun_of_name};
pub use heads::wrong_fact;
pub use judge::{Judge, first_flaw};
pub use laws::accepted_anywhere;
pub use pairs::has_pair;
pub use params::{has_word, is_caller};
pub use protos::{Protos, duplicate_in};
pub use said::{says, says_of};
pub use sg_facts::{
    Code, END_OF_FUNS, Effect, FieldShape, FunShape, Interface, Kind, Leaves, ListOf, MOST_FIELDS,
    MOST_FUNS, NoMemory, PairList, Parents, Service, Shape, Tables, TryCopy, WalkLine, WalkList,
};
pub use sg_parse::{
    Facts, Operand, Operator, Param, Relation, Ret, RowTest, Rule, Spelled, Statement, Term, Test,
    Tree, TypeName, number_of_digits, parse,
};
pub use stages::{fit_one_by_one, unless};
pub use unknown::{bare, bare_second};
