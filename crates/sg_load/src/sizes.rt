// How large a generated script is.

/// The clients, numbered from 1.
pub(crate) const CLIENTS: u8 = 8;

/// The calls of each client; those of the setup count as calls of client 1.
pub(crate) const CALLS_EACH: u32 = 2500;

/// The function that the setup calls: the first of a service, which makes a descriptor.
pub(crate) const FIRST_FUN: u8 = 1;

/// The stops.
pub(crate) const STOPS: u32 = 32;

/// The greatest distance from one stop to the next.
pub(crate) const MOST_DISTANCE: u32 = 1500;
