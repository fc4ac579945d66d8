//! What is said of texts that describe services of their own, and what inputs for several services are.
//!
//! The tests:
//! - `cases`: texts with one piece changed, and the line that is said of each (`Case`, `try_each`); `flaws` lists them, kind by kind
//! - `examples`: the examples
//! - `explained`: what is explained of texts
//! - `names`: the words of the rules as names of fields
//! - `several`: what an input for several services is, of which some may be of one's own
//! - `tokens`: the examples with each token left out, doubled or replaced
#![tactic(auto)]

#[cfg(test)]
mod cases;
#[cfg(test)]
mod examples;
#[cfg(test)]
mod explained;
#[cfg(test)]
mod flaws;
#[cfg(test)]
mod names;
#[cfg(test)]
mod several;
#[cfg(test)]
mod tokens;
