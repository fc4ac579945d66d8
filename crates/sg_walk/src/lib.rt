//! What descriptors come to, and the walks by which they are rebuilt: what each creation's descriptors reach by declared
//! calls, whether a walk restores a state, and the least walk that does.
//!
//! - `reach`: all that descriptors can come to (`reachable`), by `closing` (the places that declared calls lead to; `set_count`),
//!   `effects` (what a function's effects make of a set of fields; `effect_on`), `found` (the places that were found, each once) and
//!   `place` (a state with a set of fields, and with the creation: `Triple`)
//! - `restoring`: whether a walk restores a state and a set of fields (`restores`)
//! - `steps`: how a walk begins and goes on
//! - `walks`: the least walks of all that descriptors can come to (`Walks`), found together: by `arriving` (all spots that walks
//!   from a creation lead to, the least walks first), `arrivals` (these spots, each once, with its walk) and `filling` (the walks,
//!   put where they restore something)
//! - `step_set`: recover steps, to be looked up (`StepSet`)
//! - `spot`: where a walk has come to (`Spot`, `FieldState`; `marked`), and what is sought (`Goal`)
#![tactic(auto)]

mod arrivals;
mod arriving;
mod closing;
mod effects;
mod filling;
mod found;
mod place;
mod reach;
mod restoring;
mod spot;
mod step_set;
mod steps;
mod walks;

pub use closing::set_count;
pub use effects::effect_on;
pub use place::Triple;
pub use reach::{TripleList, reachable};
pub use restoring::restores;
pub use spot::{FieldState, Spot, marked};
pub use walks::Walks;
