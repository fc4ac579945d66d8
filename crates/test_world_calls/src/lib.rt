//! Calls of worlds: of clients that leave or have no call under way, of which some may not be made, and with a stop at each point.
//!
//! The tests:
//! - `clients`: clients that leave, at each of the six services, without stops
//! - `odd`: steps of clients that have no call under way, and events that may not be made
//! - `stops`: stops at every point, at each of the six services
//! - `texts`: texts that tell what isn't so
#![tactic(auto)]

#[cfg(test)]
mod clients;
#[cfg(test)]
mod odd;
#[cfg(test)]
mod stops;
#[cfg(test)]
mod texts;
