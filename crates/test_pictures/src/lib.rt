//! Pictures of a run that are written out, and what no picture of any run has.
//!
//! Each function does nothing; its clauses are the examples and the laws of reading.
#![tactic(auto)]

mod columns;
mod documents;

pub use columns::{columns_drawn, columns_read, columns_refused};
pub use documents::{document_drawn, document_read, hidden, left_open, name_described, scripted};
