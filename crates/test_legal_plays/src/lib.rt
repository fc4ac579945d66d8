//! Plays with stops, judged: of each what it prints is read again, and judged a history that a service which never failed could have given.
//!
//! - `judged`: plays, and whether they are judged legal
//!
//! The tests:
//! - `eager`: plays under interfaces that rebuild all descriptors first, with one stop at each point and with each two
//! - `replays`: plays with one stop at each point, of locks, pages, files and threads
//! - `shared`: plays with a thread for each client, of five services
#![tactic(auto)]

#[cfg(test)]
mod eager;
#[cfg(test)]
mod judged;
#[cfg(test)]
mod replays;
#[cfg(test)]
mod shared;
