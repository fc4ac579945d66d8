// Names: services that there aren't, second prototypes, functions that there aren't.
use crate::answers::Case;
use crate::edits::Edit::{As, Then, Twice, Without};
use sg_input::CheckKind::{BadParams, DuplicateName, UnknownFunction, UnknownService, WrongEffect};

pub static SERVICES: [Case; 7] = [
    (&[As(2, b"service = locks,")], Some((UnknownService, 2, 11))),
    (
        &[As(2, b"    service = loc,")],
        Some((UnknownService, 2, 15)),
    ),
    (
        &[As(2, b"service\t=\t\tLock,")],
        Some((UnknownService, 2, 12)),
    ),
    (
        &[As(2, b"service\n=\n  lock_alloc,")],
        Some((UnknownService, 4, 3)),
    ),
    // With another fact, a second prototype and an effect that is missing, too.
    (
        &[
            As(2, b"    service = loks,"),
            As(3, b"    desc_has_parent = same,"),
            Twice(21),
            Without(24),
        ],
        Some((UnknownService, 2, 15)),
    ),
    // Another service, whose functions these aren't.
    (
        &[As(2, b"    service = event,")],
        Some((UnknownFunction, 21, 15)),
    ),
    (
        &[As(2, b"    service = mm,"), Without(21)],
        Some((UnknownFunction, 10, 13)),
    ),
];

pub static DUPLICATES: [Case; 10] = [
    // One that differs: in its parameters, in its return, in an effect.
    (
        &[Then(25, b"int lock_free(spdid_t spdid);")],
        Some((DuplicateName, 26, 5)),
    ),
    (
        &[Then(21, b"void *lock_alloc(spdid_t spdid);")],
        Some((DuplicateName, 22, 7)),
    ),
    (
        &[Then(23, b"int lock_take(spdid_t spdid, unsigned long desc(id));")],
        Some((DuplicateName, 24, 5)),
    ),
    // One in front of the standard one, so that this is the second.
    (
        &[Then(9, b"int lock_free(word w);")],
        Some((DuplicateName, 26, 5)),
    ),
    // The earlier place wins, of two functions and of one three times.
    (&[Twice(22), Twice(25)], Some((DuplicateName, 23, 5))),
    (
        &[Twice(25), Then(24, b"int lock_free(spdid_t s);")],
        Some((DuplicateName, 26, 5)),
    ),
    // Later kinds that stand earlier: a function that there isn't, parameters, a fact, a flag.
    (
        &[Then(9, b"sm_keep(lock_try);"), Twice(25)],
        Some((DuplicateName, 27, 5)),
    ),
    (
        &[As(21, b"unsigned long lock_alloc(int spdid);"), Twice(25)],
        Some((DuplicateName, 26, 5)),
    ),
    (
        &[As(3, b"desc_has_parent = same,"), Without(12), Twice(25)],
        Some((DuplicateName, 25, 5)),
    ),
    // Of a function that the service hasn't.
    (
        &[Then(20, b"int try(word w);\nint try(word w);")],
        Some((DuplicateName, 22, 5)),
    ),
];

pub static FUNCTIONS: [Case; 9] = [
    // A prototype of a function that the service hasn't.
    (
        &[Then(25, b"int lock_try(spdid_t s, long desc(id));")],
        Some((UnknownFunction, 26, 5)),
    ),
    (
        &[Then(25, b"int evt_free(spdid_t s, long desc(id));")],
        Some((UnknownFunction, 26, 5)),
    ),
    // It has a prototype, so the statement before that is none to blame.
    (
        &[
            Then(9, b"sm_block(lock_try);"),
            Then(25, b"int lock_try(word w);"),
        ],
        Some((UnknownFunction, 27, 5)),
    ),
    // The function's name in another spelling.
    (
        &[As(25, b"int Lock_free(spdid_t s, long desc(id));")],
        Some((UnknownFunction, 11, 13)),
    ),
    // The earlier place wins: of statements, and of a statement and a prototype.
    (
        &[Then(10, b"sm_keep(nobody);"), Without(25)],
        Some((UnknownFunction, 11, 9)),
    ),
    (
        &[
            Then(20, b"int lock_try(word w);"),
            Then(25, b"sm_keep(nobody);"),
        ],
        Some((UnknownFunction, 21, 5)),
    ),
    // Later kinds that stand earlier: parameters, a fact, a flag, a transition.
    (
        &[
            As(21, b"unsigned long lock_alloc(int spdid);"),
            Then(25, b"sm_keep(nobody);"),
        ],
        Some((UnknownFunction, 26, 9)),
    ),
    (
        &[
            As(3, b"desc_has_parent = same,"),
            Without(12),
            Then(25, b"sm_keep(nobody);"),
        ],
        Some((UnknownFunction, 25, 9)),
    ),
    (
        &[
            Then(9, b"sm_transition(lock_free, lock_take);"),
            Then(25, b"sm_keep(nobody);"),
        ],
        Some((UnknownFunction, 27, 9)),
    ),
];

pub static SECOND_NAMES: [Case; 9] = [
    (
        &[As(14, b"sm_state(lock_release, nobody);")],
        Some((UnknownFunction, 14, 24)),
    ),
    (
        &[As(15, b"sm_transition(lock_alloc, nobody);")],
        Some((UnknownFunction, 15, 27)),
    ),
    (
        &[As(20, b"sm_recover(lock_alloc, nobody);")],
        Some((UnknownFunction, 20, 24)),
    ),
    // The first name goes before the second.
    (
        &[As(20, b"sm_recover(somebody, nobody);")],
        Some((UnknownFunction, 20, 12)),
    ),
    (
        &[As(15, b"sm_transition(nobody, lock_take);")],
        Some((UnknownFunction, 15, 15)),
    ),
    // A field is no function.
    (
        &[As(24, b"desc_data_clear(lock_release, nobody);")],
        Some((WrongEffect, 23, 5)),
    ),
    (
        &[As(24, b"desc_data_sub(lock_release, lock_take);")],
        Some((WrongEffect, 23, 5)),
    ),
    (
        &[As(24, b"desc_data_clear(nobody, owner);")],
        Some((UnknownFunction, 24, 17)),
    ),
    (
        &[As(24, b"desc_data_sub(nobody, owner);")],
        Some((UnknownFunction, 24, 15)),
    ),
];

pub static OF_EVENTS: [Case; 4] = [
    (&[Without(20)], Some((UnknownFunction, 10, 13))),
    (&[Without(21)], Some((UnknownFunction, 12, 10))),
    (&[Without(24)], Some((UnknownFunction, 11, 13))),
    // With parameters that aren't the function's, later.
    (
        &[
            As(24, b"int evt_free(spdid_t spdid);"),
            As(16, b"sm_transition(evt_split, evt_wai);"),
        ],
        Some((UnknownFunction, 16, 26)),
    ),
];

pub static OF_PARAMETERS: [Case; 1] = [(
    &[As(21, b"unsigned long lock_alloc(int spdid);")],
    Some((BadParams, 21, 15)),
)];
