//! What services and what speaks of them stand on, tried from outside: facts, rows, walks, slots, locks, events, cells and
//! histories.
//!
//! - `facts`: facts of a service, rows and patches, walks
//! - `slots`: decisions on many slots, and stops at each part
//! - `locks`: one lock, and stops at each part
//! - `events`: one event, at each call and count where the answer turns
//! - `cells`: a service that is booted after a stop, and stops within a call and after its reply
//! - `histories`: entries, ends, and as many entries as a script has calls
#![tactic(auto)]

#[cfg(test)]
mod cells;
#[cfg(test)]
mod events;
#[cfg(test)]
mod facts;
#[cfg(test)]
mod histories;
#[cfg(test)]
mod locks;
#[cfg(test)]
mod slots;
