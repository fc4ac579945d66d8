// Facts that aren't the service's.
use crate::answers::Case;
use crate::edits::Edit::{As, Then, Twice, Without};
use sg_input::CheckKind::{WrongFact, WrongFlag};

pub static OF_LOCKS: [Case; 13] = [
    (
        &[As(3, b"    desc_has_parent = same,")],
        Some((WrongFact, 3, 23)),
    ),
    (
        &[As(3, b"    desc_has_parent = cross,")],
        Some((WrongFact, 3, 23)),
    ),
    (
        &[As(4, b"    desc_close = subtree,")],
        Some((WrongFact, 4, 18)),
    ),
    (
        &[As(5, b"    desc_is_global = false,")],
        Some((WrongFact, 5, 22)),
    ),
    (
        &[As(6, b"    desc_block = false,")],
        Some((WrongFact, 6, 18)),
    ),
    (
        &[As(7, b"    desc_has_data = false,")],
        Some((WrongFact, 7, 21)),
    ),
    (
        &[As(8, b"    resc_has_data = true")],
        Some((WrongFact, 8, 21)),
    ),
    // The earlier place wins.
    (
        &[
            As(5, b"    desc_is_global = false,"),
            As(8, b"    resc_has_data = true"),
        ],
        Some((WrongFact, 5, 22)),
    ),
    (
        &[
            As(7, b"    desc_has_data = false,"),
            As(8, b"    resc_has_data = true"),
        ],
        Some((WrongFact, 7, 21)),
    ),
    (
        &[
            As(3, b"desc_has_parent=cross,"),
            As(4, b"desc_close=subtree,"),
        ],
        Some((WrongFact, 3, 17)),
    ),
    // With later kinds: a flag, an effect, a transition, a function that isn't reached, a state without a walk.
    (
        &[As(8, b"    resc_has_data = true"), Without(12), Without(24)],
        Some((WrongFact, 8, 21)),
    ),
    (
        &[
            As(8, b"    resc_has_data = true"),
            Then(9, b"sm_transition(lock_free, lock_take);"),
        ],
        Some((WrongFact, 8, 21)),
    ),
    (
        &[As(8, b"    resc_has_data = true"), Without(18), Without(20)],
        Some((WrongFact, 8, 21)),
    ),
];

pub static OF_PAGES: [Case; 6] = [
    (
        &[As(3, b"    desc_has_parent = none,")],
        Some((WrongFact, 3, 23)),
    ),
    (
        &[As(3, b"    desc_has_parent = same,")],
        Some((WrongFact, 3, 23)),
    ),
    (
        &[As(4, b"    desc_close = refuse,")],
        Some((WrongFact, 4, 18)),
    ),
    (
        &[As(5, b"    desc_is_global = false,")],
        Some((WrongFact, 5, 22)),
    ),
    (
        &[As(6, b"    desc_block = true,")],
        Some((WrongFact, 6, 18)),
    ),
    (
        &[As(8, b"    resc_has_data = true"), Twice(10)],
        Some((WrongFact, 8, 21)),
    ),
];

pub static OF_FILES: [Case; 5] = [
    (
        &[As(3, b"    desc_has_parent = cross,")],
        Some((WrongFact, 3, 23)),
    ),
    (
        &[As(5, b"    desc_is_global = true,")],
        Some((WrongFact, 5, 22)),
    ),
    (
        &[As(6, b"    desc_block = true,")],
        Some((WrongFact, 6, 18)),
    ),
    (
        &[As(7, b"    desc_has_data = false,")],
        Some((WrongFact, 7, 21)),
    ),
    (
        &[As(8, b"    resc_has_data = false")],
        Some((WrongFact, 8, 21)),
    ),
];

// What `desc_block` says is looked at by itself, whatever flags functions have.
pub static ALONE: [Case; 2] = [
    (
        &[As(6, b"    desc_block = false,"), Without(12)],
        Some((WrongFact, 6, 18)),
    ),
    (&[Without(12)], Some((WrongFlag, 20, 5))),
];

pub static OF_THREADS: [Case; 2] = [
    (
        &[As(3, b"    desc_has_parent = same,")],
        Some((WrongFact, 3, 23)),
    ),
    (
        &[As(6, b"    desc_block = false,")],
        Some((WrongFact, 6, 18)),
    ),
];
