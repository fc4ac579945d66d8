//! Runs with stops of the six services, written out: some recover, and some don't.
//!
//! Each function does nothing; its clause says that the run recovers, or that it doesn't, and is proved by computing.
//! `specs/Written.antt` has the words in which runs are written out.
#![tactic(auto)]

mod eager;
mod ends;
mod events;
mod files;
mod locks;
mod pages;
mod strict;
mod threads;
mod timers;

pub use eager::{both_rebuilt, one_rebuilt, second_first};
pub use ends::{
    asked_early, asked_late, committed_after_stop, counted_to_the_end, held_asked_twice,
    held_or_lost, load_shows_a_call, slept_over_reboot, stopped_idle, stopped_unasked,
    stopped_unused, waits_again, waits_asked, waits_unasked,
};
pub use events::{blocked_redone, earlier_value, present_value, trigger_not_twice};
pub use files::{file_loaded, held_late, held_lost, loaded_twice};
pub use locks::{
    another_id, asked_after_a_stop, boot_without_a_stop, half_a_walk, out_of_order,
    point_asked_in_vain, point_left_out, rebuilt_for_nobody, rebuilt_for_take, rebuilt_needlessly,
    rebuilt_too_late, reply_without_an_item, served_without_a_walk, stop_after_take,
    stop_at_another_number, stop_before_storage, stop_in_walk, taken_twice, walk_by_another,
    walk_from_its_middle, walk_too_long,
};
pub use pages::{child_first, occupied_after_stop, parent_first, subtree};
pub use strict::{
    empty_boot_more, free_stopped_late, late_read, late_seek, line_twice, made_and_stopped,
    no_boot, no_boot_for_a_refusal, other_walk, rebuilt_for_refused, refusal_stopped_late,
    refused_was_asked, seek_before_write, stopped_where_blocked, two_boots_more, wait_stopped,
    write_before_seek,
};
pub use threads::{one_walk_two_clients, ranks_kept, service_id_shown};
pub use timers::{time_kept, waited_unset};
