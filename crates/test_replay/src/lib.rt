//! The engine of recovery, tried from outside with each of the six services.
//!
//! - `turns`: a lock that is made, lost in a stop, rebuilt, and taken (`make`, `lose`, `rebuild`, `take`)
//! - `ending`: what ends an engine (`discard`); whoever owns one hands it over
//!
//! The tests:
//! - `rounds`: a stop, a boot, and what an engine tells then, for each service
//! - `locks`: a lock that is lost in a stop is rebuilt for the next call
#![tactic(auto)]

#[cfg(test)]
mod ending;
#[cfg(test)]
mod locks;
#[cfg(test)]
mod rounds;
#[cfg(test)]
mod turns;
