//! Files in memory: each descriptor has a name, a path and a place in the file of its path.
//!
//! - `functions`: the numbers of the service's functions
//! - `shape`: the facts of the service, those of its standard interface (`ramfs_shape`)
//! - `open_file`: one descriptor (`OpenFile`)
//! - `tree`: the descriptors by service id, and their paths
//! - `files`: the files by path
//! - `plan`, `moves`: what to do with a call, and how it is done part by part
//! - `service`: the service (`RamfsService`)
#![tactic(auto)]

mod files;
pub mod functions;
mod moves;
mod open_file;
mod plan;
mod service;
mod shape;
mod tree;

pub use open_file::OpenFile;
pub use service::RamfsService;
pub use shape::ramfs_shape;
