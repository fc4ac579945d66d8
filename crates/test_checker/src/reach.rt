// Texts that make no descriptor, functions that can't be reached, states that have no walk.
use crate::answers::Case;
use crate::edits::Edit::{As, Front, Then, Without};
use sg_input::CheckKind::{ForeignRecover, NoCreation, NoWalk, Unreached};

// The facts of a service, and no statement. The place is the text's first byte.
pub static FACTS_ALONE: [Case; 1] = [(&[Front(9)], Some((NoCreation, 1, 1)))];

const END: &[u8] = b"sm_terminal(lock_free);\n\
int lock_free(spdid_t spdid, unsigned long desc(id));";

const TAKE: &[u8] = b"sm_block(lock_take);\n\
sm_transition(lock_take, lock_take);\n\
int lock_take(spdid_t desc_data(owner), unsigned long desc(id));";

const TAKE_AND_STEP: &[u8] = b"sm_block(lock_take);\n\
int lock_take(spdid_t desc_data(owner), unsigned long desc(id));\n\
sm_recover(lock_take, lock_take);";

pub static NO_CREATIONS: [Case; 4] = [
    // Its place is the text's first byte, also where the facts stand later.
    (
        &[Front(9), As(1, b"\n// Locks.\n\n  service_global_info = {")],
        Some((NoCreation, 1, 1)),
    ),
    // With functions that aren't reached, before them; after a recover step that the service hasn't.
    (&[Front(9), Then(9, END)], Some((NoCreation, 1, 1))),
    (&[Front(9), Then(9, TAKE)], Some((NoCreation, 1, 1))),
    (
        &[Front(9), Then(9, TAKE_AND_STEP)],
        Some((ForeignRecover, 12, 12)),
    ),
];

const FIND: &[u8] = b"sm_query(mman_find);\n\
sm_needs_all(mman_find);\n\
unsigned long mman_find(spdid_t spdid, unsigned long space, unsigned long addr);";

pub static OF_PAGES: [Case; 5] = [
    // A query makes nothing.
    (&[Front(9), Then(9, FIND)], Some((NoCreation, 1, 1))),
    // The end of one of the two that are made, of the other, of none.
    (&[Without(17)], None),
    (&[Without(18)], None),
    (&[Without(17), Without(18)], Some((Unreached, 19, 5))),
    // And the end's prototype before the others.
    (
        &[
            Without(17),
            As(18, b"int mman_release_page(spdid_t s, long desc(id));"),
            Without(21),
        ],
        Some((Unreached, 17, 5)),
    ),
];

pub static OF_LOCKS: [Case; 10] = [
    // Not called at all; called in a state that no lock comes to; called in the other of two states.
    (&[Without(18)], Some((Unreached, 22, 5))),
    (&[Without(15)], Some((Unreached, 22, 5))),
    (&[Without(16), Without(19)], Some((Unreached, 23, 5))),
    (&[Without(15), Without(16)], Some((Unreached, 21, 5))),
    // Taken by a recover step alone, and by neither.
    (
        &[
            Without(15),
            Without(18),
            Without(23),
            Without(24),
            Without(13),
            Without(14),
        ],
        None,
    ),
    (&[Without(15), Without(20)], Some((Unreached, 20, 5))),
    // Two that aren't reached: the earlier prototype, in either order.
    (
        &[Without(16), Without(18), Without(19)],
        Some((Unreached, 20, 5)),
    ),
    (
        &[
            Without(16),
            Without(18),
            Without(19),
            Without(25),
            Then(20, b"int lock_free(spdid_t s, long desc(id));"),
        ],
        Some((Unreached, 18, 5)),
    ),
    // A state without a walk; with it a function that isn't reached, later.
    (&[Without(20)], Some((NoWalk, 21, 5))),
    (
        &[Without(20), Without(16), Without(19)],
        Some((Unreached, 22, 5)),
    ),
];

pub static OF_EVENTS: [Case; 6] = [
    (&[Without(16)], Some((Unreached, 20, 5))),
    (&[Without(18)], Some((Unreached, 23, 5))),
    (&[Without(17), Without(19)], Some((Unreached, 21, 5))),
    // No count can be raised but by replaying.
    (&[Without(17)], None),
    // A count that is raised isn't restored by making an event.
    (&[Without(19)], Some((NoWalk, 19, 15))),
    // The same without waits, which may take one from it.
    (
        &[
            Without(12),
            Without(14),
            Without(16),
            Without(19),
            Without(21),
            Without(22),
        ],
        Some((NoWalk, 16, 15)),
    ),
];

pub static OF_FILES: [Case; 6] = [
    (&[Without(17)], Some((Unreached, 22, 36))),
    (&[Without(20)], Some((Unreached, 25, 5))),
    (&[Without(19), Without(21)], Some((Unreached, 23, 5))),
    // A place is set by replaying alone.
    (&[Without(19)], None),
    // A place after what was read isn't restored by making a descriptor; nor is one that was set.
    (&[Without(21)], Some((NoWalk, 21, 15))),
    (
        &[
            Without(12),
            Without(13),
            Without(15),
            Without(16),
            Without(17),
            Without(18),
            Without(21),
            Without(23),
            Without(24),
        ],
        Some((NoWalk, 15, 15)),
    ),
];

pub static OF_THREADS: [Case; 8] = [
    // A function that only replays call, without its recover step.
    (&[Without(29)], Some((Unreached, 36, 5))),
    // Without its prototype, too, a rank isn't restored.
    (
        &[Without(20), Without(29), Without(37)],
        Some((NoWalk, 29, 30)),
    ),
    // Two states have no walk: the earlier prototype, also where that is of the later function.
    (
        &[
            Without(20),
            Without(29),
            Without(33),
            Without(37),
            Then(30, b"int sched_sleep(spdid_t s, long desc(tid));"),
        ],
        Some((NoWalk, 29, 5)),
    ),
    // Sleep, called and not replayed.
    (&[Without(30)], Some((NoWalk, 32, 5))),
    (&[Without(27)], Some((Unreached, 33, 5))),
    (&[Without(23)], Some((Unreached, 33, 5))),
    (&[Without(22)], Some((Unreached, 31, 30))),
    // Waited for, and ended, in the other of two states alone.
    (&[Without(24), Without(25)], None),
];
