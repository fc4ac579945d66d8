//! Services that are described, at work: each does with a call what its description says.
//!
//! - `describes`: which descriptions services have (`Describes`)
//! - `image`: a description that is safe, from which each boot begins (`DescribedImage`)
//! - `entry`: what is kept of a descriptor (`DescribedEntry`)
//! - `view`: what rules see of a call; `rules`: which rule applies, and what it says
//! - `effects`: what effects leave of fields
//! - `answer`: what a call is answered; `decide`: what is done with it
//! - `service`: the service (`DescribedService`)
//!
//! What a description means stands in `sg_described`. `specs/DescribedRow.antt` says which row an entry stands for, and
//! `specs/DescribedModel.antt` what the service is, with the laws that it keeps to.
#![tactic(auto)]

mod answer;
mod decide;
mod describes;
mod effects;
mod entry;
mod image;
mod rules;
mod service;
mod view;

pub use describes::Describes;
pub use entry::DescribedEntry;
pub use image::DescribedImage;
pub use service::DescribedService;
pub use sg_described::Description;
