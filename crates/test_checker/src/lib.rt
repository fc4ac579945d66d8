//! The checker, tried on texts: the standard interfaces, and what is wrong with texts that are made from them. And what stands
//! on the checker: what descriptors come to, their walks, tables, and what is said of a text.
//!
//! - `shapes`: the shapes of the six standard services, against which a text may be checked (`standard_shapes`)
//!
//! The tests:
//! - `changes`: the standard interfaces with changes, each with its answer. `edits` makes the texts (`Edit`, `Layout`), and
//!   `answers` is the judge (`answer`, `try_each`). The tables of changes: `standard` and `left_out` leave out each statement,
//!   `layout` has other blanks, comments and line ends, and `names`, `prototypes`, `facts`, `flags`, `effects`, `pairs` and
//!   `reach` have texts of which something is wrong, by its kind
//! - `narrower`: what a text declares that declares less than the service has
//! - `given`: against which shapes a text is checked
//! - `large`: large services, and long texts
//! - `triples`, `walks`: what descriptors come to and how they are rebuilt, of interfaces that no text declares (`interfaces`)
//! - `tables`: the tables of the standard interfaces, and their text
//! - `verdicts`: what is said of a text
#![tactic(auto)]

#[cfg(test)]
mod answers;
#[cfg(test)]
mod changes;
#[cfg(test)]
mod edits;
#[cfg(test)]
mod effects;
#[cfg(test)]
mod facts;
#[cfg(test)]
mod flags;
#[cfg(test)]
mod given;
#[cfg(test)]
mod interfaces;
#[cfg(test)]
mod large;
#[cfg(test)]
mod layout;
#[cfg(test)]
mod left_out;
#[cfg(test)]
mod names;
#[cfg(test)]
mod narrower;
#[cfg(test)]
mod pairs;
#[cfg(test)]
mod prototypes;
#[cfg(test)]
mod reach;
mod shapes;
#[cfg(test)]
mod standard;
#[cfg(test)]
mod tables;
#[cfg(test)]
mod triples;
#[cfg(test)]
mod verdicts;
#[cfg(test)]
mod walks;

pub use shapes::standard_shapes;
