//! What tests name of calls, of their outcomes and of tables, passed on.
pub use sg_facts::{
    Args, Bytes, Call, Code, Fields, Good, Interface, NoMemory, Outcome, Patch, Path, Reply, Row,
    Service, Shape, Tables, Value, Words,
};
