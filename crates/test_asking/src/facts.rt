//! What the tests of services name of calls and their outcomes, passed on.
pub use sg_facts::{Args, Call, Code, NoMemory, Outcome, Path, Reply, Service, Stops, Text, Value};
