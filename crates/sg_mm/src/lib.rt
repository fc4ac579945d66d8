//! Pages: each is in a space at an address, and one made from another goes with it.
//!
//! - `functions`: the numbers of the service's functions
//! - `shape`: the facts of the service, those of its standard interface (`mm_shape`)
//! - `page`: one page (`Page`), and its place (`PageKey`)
//! - `place`, `child`: the indexes of the pages, by their places and by their parents
//! - `subtree`, `pages`: the pages, and which of them end with one
//! - `service`: the service (`MmService`)
#![tactic(auto)]

mod child;
pub mod functions;
mod page;
mod pages;
mod place;
mod service;
mod shape;
mod subtree;

pub use page::{Page, PageKey};
pub use service::MmService;
pub use shape::mm_shape;
