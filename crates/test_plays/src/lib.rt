//! Plays without stops, written out: what the definitions of `sg_plain` say of scripts whose play is known. Each function's
//! contract is proved, and the functions do nothing when they run.
//!
//! - `locks`: plays of locks
//! - `files`: plays of files
//! - `stops`: what plays with stops promise
//! - `several`: plays over several services
#![tactic(auto)]

mod files;
mod locks;
mod several;
mod stops;

pub use files::held_reply;
pub use locks::{four_lock_calls, own_backs, second_first, stays_blocked, wait_and_wake};
pub use several::{earlier_calls_first, setup_at_member, turns_until_a_stop, waits_by_number};
pub use stops::{
    blocked_redone, setup_first, stop_after_take, stop_before_storage, stop_in_walk,
    taken_by_another, trigger_not_twice, turn_in_setup, wait_left_out, wrong_plays,
};
