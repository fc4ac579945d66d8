//! Tests of what runs cost, and of generated loads.
//!
//! - `asking`: what `cost` prints of an interface and a script
//! - `rows`: plays that were worked out by hand, line by line
//! - `bounds`: what generated scripts cost
//! - `loads`: the printed lines of loads, and words that are no load
//! - `standard`: the standard interfaces are those that the texts declare
#![tactic(auto)]

mod asking;
#[cfg(test)]
mod bounds;
#[cfg(test)]
mod loads;
#[cfg(test)]
mod rows;
#[cfg(test)]
mod standard;
