//! What outlives a stop: the last receipt of each client, the rows of a global service, the number of ids given, and all
//! files, in one buffer of bytes.
//!
//! - `storage`: the storage (`Storage`)
//! - `receipts`: the receipt of each client; `rows`: the rows, and the number of ids given
//! - `files`: the files in one buffer; `places`: where each stands in it; `buffer`: bytes that are written and moved in it
#![tactic(auto)]

mod buffer;
mod files;
mod places;
mod receipts;
mod rows;
mod storage;

pub use storage::Storage;
