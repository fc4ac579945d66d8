//! Laws of recovery, for every service: that a run that recovers goes on to do so, as it grows.
//!
//! - `laws`: what stays as it is where a run grows
//! - `told`: what each item of a run owes where it is noted
//!
//! In `specs/` and `proofs/` the rooms `Objects` (what calls do to objects, and in which orders), `Midway` (a service in the middle of
//! a recovery) and `LastItem` (what a run's last item owes); `sg_hist` says how a run grows (`Growing`).
#![tactic(auto)]

mod laws;
mod told;

pub use laws::{
    entries_stay, held_stay_in_boots, legal_stays, places_grow, points_go_on, recovering_goes_on,
    values_grow,
};
pub use told::{items_settle, last_place, legal_is_reachable, legal_is_sound, told_grows};
