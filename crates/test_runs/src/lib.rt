//! Runs of the program that were worked out by hand: their words and inputs, with the status and what is printed.
//!
//! - `texts`: runs, a text for each service
//! - `runs`: whether each comes out as it is written
//! - `asking`: what `explain` prints of an input, and inputs that are made from the interface of locks
//! - `faults`: what is explained of each kind of fault, and of inputs with which nothing is wrong, byte by byte
//! - `too_long`: what is explained of inputs that are too long
//! - `drawn`: pictures of runs: what stands beside the lanes, how texts stand in a document, and how long one is
//! - `gate`: two clients in threads of their own, of which one waits for the other at the gate
//! - `inputs`: runs whose inputs are made: long ones, other interfaces, and what is refused
//! - `own`: a service of one's own at its limits, by a text as long as one may be
//! - `rewritten`: locks and events that texts describe print what the built-in ones do, on 500 drawn scripts each
//! - `several`: plays over several services
//! - `stops`: runs with a stop at each point, and with two
#![tactic(auto)]

#[cfg(test)]
mod asking;
#[cfg(test)]
mod drawn;
#[cfg(test)]
mod faults;
#[cfg(test)]
mod gate;
#[cfg(test)]
mod inputs;
#[cfg(test)]
mod own;
#[cfg(test)]
mod rewritten;
#[cfg(test)]
mod runs;
#[cfg(test)]
mod several;
#[cfg(test)]
mod stops;
#[cfg(test)]
mod texts;
#[cfg(test)]
mod too_long;
