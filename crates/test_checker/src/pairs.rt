// Transitions and recover steps that the service hasn't.
use crate::answers::Case;
use crate::edits::Edit::{As, Then, Twice, Without};
use sg_input::CheckKind::{ForeignRecover, ForeignTransition};

pub static TRANSITIONS: [Case; 10] = [
    // From the terminal function, to the creation, one turned round, one that is missing, one to itself.
    (
        &[Then(15, b"sm_transition(lock_free, lock_take);")],
        Some((ForeignTransition, 16, 15)),
    ),
    (
        &[Then(15, b"sm_transition(lock_free, lock_alloc);")],
        Some((ForeignTransition, 16, 15)),
    ),
    (
        &[Then(15, b"sm_transition(lock_take, lock_alloc);")],
        Some((ForeignTransition, 16, 15)),
    ),
    (
        &[Then(15, b"sm_transition(lock_release, lock_take);")],
        Some((ForeignTransition, 16, 15)),
    ),
    (
        &[Then(15, b"sm_transition(lock_alloc, lock_release);")],
        Some((ForeignTransition, 16, 15)),
    ),
    (
        &[Then(15, b"sm_transition(lock_alloc, lock_alloc);")],
        Some((ForeignTransition, 16, 15)),
    ),
    // In place of one that the service has.
    (
        &[As(17, b"  sm_transition( lock_release, lock_release );")],
        Some((ForeignTransition, 17, 18)),
    ),
    // The earlier place wins.
    (
        &[
            Then(12, b"sm_transition(lock_free, lock_take);"),
            Twice(15),
            Then(18, b"sm_transition(lock_free, lock_free);"),
        ],
        Some((ForeignTransition, 13, 15)),
    ),
    (
        &[Then(
            9,
            b"sm_transition(lock_free, lock_take);\nsm_transition(lock_free, lock_free);",
        )],
        Some((ForeignTransition, 10, 15)),
    ),
    // After the prototypes.
    (
        &[Then(25, b"sm_transition(lock_free, lock_take);")],
        Some((ForeignTransition, 26, 15)),
    ),
];

pub static RECOVER_STEPS: [Case; 8] = [
    (
        &[Then(20, b"sm_recover(lock_take, lock_release);")],
        Some((ForeignRecover, 21, 12)),
    ),
    (
        &[Then(20, b"sm_recover(lock_take, lock_alloc);")],
        Some((ForeignRecover, 21, 12)),
    ),
    (
        &[Then(20, b"sm_recover(lock_alloc, lock_free);")],
        Some((ForeignRecover, 21, 12)),
    ),
    // A transition is no recover step.
    (
        &[Then(20, b"sm_recover(lock_take, lock_take);")],
        Some((ForeignRecover, 21, 12)),
    ),
    (
        &[As(20, b"sm_recover(lock_alloc, lock_alloc);")],
        Some((ForeignRecover, 20, 12)),
    ),
    // The earlier place wins.
    (
        &[
            Then(12, b"sm_recover(lock_take, lock_free);"),
            Then(20, b"sm_recover(lock_free, lock_free);"),
        ],
        Some((ForeignRecover, 13, 12)),
    ),
    // With a function that isn't reached and a state without a walk, both earlier.
    (
        &[
            Without(18),
            Without(20),
            Then(25, b"sm_recover(lock_take, lock_take);"),
        ],
        Some((ForeignRecover, 24, 12)),
    ),
    (
        &[Without(15), Then(25, b"sm_recover(lock_take, lock_take);")],
        Some((ForeignRecover, 25, 12)),
    ),
];

pub static BOTH: [Case; 3] = [
    // The transition wins, also where it stands later.
    (
        &[
            Then(9, b"sm_recover(lock_take, lock_take);"),
            Then(25, b"sm_transition(lock_free, lock_take);"),
        ],
        Some((ForeignTransition, 27, 15)),
    ),
    (
        &[
            Then(9, b"sm_transition(lock_free, lock_take);"),
            Then(25, b"sm_recover(lock_take, lock_take);"),
        ],
        Some((ForeignTransition, 10, 15)),
    ),
    // With a state without a walk.
    (
        &[
            Without(20),
            Then(25, b"sm_transition(lock_free, lock_take);"),
        ],
        Some((ForeignTransition, 25, 15)),
    ),
];

pub static OF_EVENTS: [Case; 3] = [
    (
        &[Then(18, b"sm_transition(evt_wait, evt_trigger);")],
        Some((ForeignTransition, 19, 15)),
    ),
    (
        &[Then(19, b"sm_recover(evt_split, evt_wait);")],
        Some((ForeignRecover, 20, 12)),
    ),
    (
        &[Then(19, b"sm_recover(evt_trigger, evt_trigger);")],
        Some((ForeignRecover, 20, 12)),
    ),
];

pub static OF_PAGES: [Case; 2] = [
    (
        &[Then(18, b"sm_transition(mman_get_page, mman_find);")],
        Some((ForeignTransition, 19, 15)),
    ),
    (
        &[Then(18, b"sm_recover(mman_get_page, mman_alias_page);")],
        Some((ForeignRecover, 19, 12)),
    ),
];

pub static OF_THREADS: [Case; 3] = [
    // No transition leads to the function that gives a rank.
    (
        &[Then(28, b"sm_transition(sched_create_thd, sched_place);")],
        Some((ForeignTransition, 29, 15)),
    ),
    (
        &[Then(28, b"sm_transition(sched_wakeup, sched_exit);")],
        Some((ForeignTransition, 29, 15)),
    ),
    (
        &[Then(30, b"sm_recover(sched_sleep, sched_place);")],
        Some((ForeignRecover, 31, 12)),
    ),
];
