//! Tests of the values that every crate speaks of, and of the edge to the outside: what no clause says, and each
//! public function once where there is memory.
//!
//! - `texts`: which bytes are a text
//! - `lists`: lists, and lists that take memory ahead
//! - `few`: arguments and words, few of them and more
//! - `copies`: copies of each kind of value, with memory and without
//! - `reading`, `writing`: how inputs are read and outputs written, over memory and over std
//! - `faulty`: a reader and writer that does what is listed (`Faulty`)
//! - `points`: who says where a service stops, and the open gate
#![tactic(auto)]

#[cfg(test)]
mod copies;
#[cfg(test)]
mod faulty;
#[cfg(test)]
mod few;
#[cfg(test)]
mod lists;
#[cfg(test)]
mod points;
#[cfg(test)]
mod reading;
#[cfg(test)]
mod texts;
#[cfg(test)]
mod writing;
