// Flags, and states that functions leave, that are declared otherwise than the service has them.
use crate::answers::Case;
use crate::edits::Edit::{As, Then, Twice, Without};
use sg_input::CheckKind::WrongFlag;

// One flag more than the service has.
pub static MORE: [Case; 8] = [
    (
        &[Then(10, b"sm_creation(lock_take);")],
        Some((WrongFlag, 23, 5)),
    ),
    (
        &[Then(10, b"sm_terminal(lock_alloc);")],
        Some((WrongFlag, 22, 15)),
    ),
    (
        &[Then(10, b"sm_block(lock_free);")],
        Some((WrongFlag, 26, 5)),
    ),
    (
        &[Then(10, b"sm_wakeup(lock_take);")],
        Some((WrongFlag, 23, 5)),
    ),
    (
        &[Then(10, b"sm_query(lock_free);")],
        Some((WrongFlag, 26, 5)),
    ),
    (
        &[Then(10, b"sm_needs_all(lock_alloc);")],
        Some((WrongFlag, 22, 15)),
    ),
    (
        &[Then(10, b"resc_data(lock_release);")],
        Some((WrongFlag, 24, 5)),
    ),
    (
        &[Then(10, b"sm_keep(lock_take);")],
        Some((WrongFlag, 23, 5)),
    ),
];

pub static STATES: [Case; 11] = [
    // None, another, its own, and another beside the right one.
    (&[Without(14)], Some((WrongFlag, 22, 5))),
    (
        &[As(14, b"sm_state(lock_release, lock_take);")],
        Some((WrongFlag, 23, 5)),
    ),
    (
        &[As(14, b"sm_state(lock_release, lock_release);")],
        Some((WrongFlag, 23, 5)),
    ),
    (
        &[Then(14, b"sm_state(lock_release, lock_free);")],
        Some((WrongFlag, 24, 5)),
    ),
    (
        &[Then(25, b"sm_state(lock_release, lock_take);")],
        Some((WrongFlag, 23, 5)),
    ),
    (
        &[As(14, b"sm_state(lock_alloc, lock_release);")],
        Some((WrongFlag, 21, 15)),
    ),
    // The state before, beside the right one and in its place.
    (
        &[Then(14, b"sm_keep(lock_release);")],
        Some((WrongFlag, 24, 5)),
    ),
    (
        &[As(14, b"sm_keep(lock_release);")],
        Some((WrongFlag, 23, 5)),
    ),
    // A state is no function's own by being named.
    (
        &[Then(14, b"sm_state(lock_take, lock_take);")],
        Some((WrongFlag, 23, 5)),
    ),
    (
        &[Then(14, b"sm_state(lock_free, lock_free);")],
        Some((WrongFlag, 26, 5)),
    ),
    // Thrice the right one.
    (
        &[Twice(14), Then(25, b"sm_state(lock_release, lock_alloc);")],
        None,
    ),
];

pub static KEPT: [Case; 6] = [
    (&[Without(14)], Some((WrongFlag, 20, 5))),
    (&[Without(15)], Some((WrongFlag, 22, 5))),
    (
        &[As(14, b"sm_state(evt_wait, evt_split);")],
        Some((WrongFlag, 21, 5)),
    ),
    (
        &[Then(14, b"sm_state(evt_wait, evt_split);")],
        Some((WrongFlag, 22, 5)),
    ),
    (&[Then(14, b"sm_keep(evt_free);")], Some((WrongFlag, 25, 5))),
    (
        &[Then(14, b"sm_keep(evt_split);")],
        Some((WrongFlag, 21, 15)),
    ),
];

pub static OF_PAGES: [Case; 4] = [
    (&[Without(13)], Some((WrongFlag, 21, 15))),
    (&[Without(14)], Some((WrongFlag, 18, 15))),
    (&[Without(15)], Some((WrongFlag, 19, 15))),
    (&[Without(16)], Some((WrongFlag, 21, 15))),
];

pub static OF_FILES: [Case; 4] = [
    (&[Without(14)], Some((WrongFlag, 24, 5))),
    (&[Without(15)], Some((WrongFlag, 22, 36))),
    (&[Without(16)], Some((WrongFlag, 23, 36))),
    (&[Then(16, b"resc_data(tseek);")], Some((WrongFlag, 26, 5))),
];

pub static OF_THREADS: [Case; 5] = [
    (&[Without(15)], Some((WrongFlag, 30, 30))),
    (&[Without(16)], Some((WrongFlag, 31, 30))),
    (&[Without(20)], Some((WrongFlag, 36, 5))),
    (&[Without(21)], Some((WrongFlag, 33, 5))),
    (
        &[As(21, b"sm_state(sched_wakeup, sched_sleep);")],
        Some((WrongFlag, 34, 5)),
    ),
];

pub static TOGETHER: [Case; 6] = [
    // The earlier prototype wins, wherever the statements are.
    (
        &[
            Then(10, b"sm_query(lock_free);"),
            Then(25, b"sm_query(lock_take);"),
        ],
        Some((WrongFlag, 23, 5)),
    ),
    (&[Without(11), Without(12)], Some((WrongFlag, 20, 5))),
    // Later kinds that stand earlier: an effect, a transition, a recover step, functions that aren't reached.
    (
        &[
            As(22, b"int lock_take(spdid_t s, unsigned long desc(id));"),
            Without(11),
        ],
        Some((WrongFlag, 24, 5)),
    ),
    (
        &[
            Then(9, b"sm_transition(lock_free, lock_take);"),
            Without(11),
        ],
        Some((WrongFlag, 25, 5)),
    ),
    (
        &[Then(9, b"sm_recover(lock_free, lock_take);"), Without(11)],
        Some((WrongFlag, 25, 5)),
    ),
    (
        &[Without(18), Without(20), Without(11)],
        Some((WrongFlag, 22, 5)),
    ),
];
