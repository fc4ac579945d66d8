//! Ends worlds.
//!
//! - `discard`: ends a world where it stands
//!
//! It passes on the types of worlds.
//!
//! What ends a world is written out, part by part, wherever one is dropped, and its proof takes long each time. So a world is dropped
//! here and nowhere else: who owns one hands it over.
#![tactic(auto)]

mod ending;

pub use ending::discard;
pub use sg_world::{Did, Mark, MarkKind, Phase, Withdrawn, World};
