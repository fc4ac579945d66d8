//! What replayed calls cost: how many a stop can add for each live descriptor and each function after a run, and how many each boot
//! of the run needed beside a bound.
//!
//! - `costing`: what the calls of a run could cost after one more stop (`costs_of`)
//! - `costs`: a live descriptor, a function and a boot with what they cost (`Costs`)
//! - `text`: that as it is printed (`cost_text`)
//! - `boots`: what the boots of a run cost; `last_boots`: in which boot each call was asked last; `front`: the rows that the first
//!   entries of a history come to
//! - `rows`: the walks of live rows; `lines`: what rows cost with their ancestors; `funs`: what calls of functions cost
//! - `words`: the words of a history's calls
//! - `laws`: that replayed calls are few (`replays_are_few`), those of a play too (`plays_are_few`); that no call costs more than is told of its
//!   function (`no_call_costs_more`)
//!
//! `specs/Costs.antt` says what a call can cost, how replayed calls of a boot are counted and what is told, and `specs/Lines.antt` how
//! it is printed.
#![tactic(auto)]

mod boots;
mod costing;
mod costs;
mod front;
mod funs;
mod last_boots;
mod laws;
mod lines;
mod rows;
mod text;
mod words;

pub use costing::costs_of;
pub use costs::{BootCost, BootCostList, Costs, FunCost, FunCostList, RowCost, RowCostList};
pub use laws::{no_call_costs_more, plays_are_few, replays_are_few};
pub use text::cost_text;
