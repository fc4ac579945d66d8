// Effects that are declared otherwise than the service has them.
use crate::answers::Case;
use crate::edits::Edit::{As, Then, Twice, Without};
use sg_input::CheckKind::WrongEffect;

pub static OF_LOCKS: [Case; 11] = [
    // The clear of another field, none, another function's beside it, and in its place.
    (
        &[As(24, b"desc_data_clear(lock_release, holder);")],
        Some((WrongEffect, 23, 5)),
    ),
    (&[Without(24)], Some((WrongEffect, 23, 5))),
    (
        &[Then(24, b"desc_data_clear(lock_free, owner);")],
        Some((WrongEffect, 26, 5)),
    ),
    (
        &[As(24, b"desc_data_clear(lock_free, owner);")],
        Some((WrongEffect, 23, 5)),
    ),
    (
        &[Then(9, b"desc_data_clear(lock_alloc, owner);")],
        Some((WrongEffect, 22, 15)),
    ),
    // One taken from the field, in its place and beside it.
    (
        &[As(24, b"desc_data_sub(lock_release, owner);")],
        Some((WrongEffect, 23, 5)),
    ),
    (
        &[Then(24, b"desc_data_sub(lock_release, owner);")],
        Some((WrongEffect, 23, 5)),
    ),
    // The caller, in no field and in another.
    (
        &[As(22, b"int lock_take(spdid_t spdid, unsigned long desc(id));")],
        Some((WrongEffect, 22, 5)),
    ),
    (
        &[As(
            22,
            b"int lock_take(spdid_t desc_data(holder), unsigned long desc(id));",
        )],
        Some((WrongEffect, 22, 5)),
    ),
    // The returned word.
    (
        &[As(
            22,
            b"desc_data_retval(int, owner) lock_take(spdid_t desc_data(owner), long desc(id));",
        )],
        Some((WrongEffect, 22, 30)),
    ),
    // The right ones, twice, and before everything else.
    (
        &[Twice(24), Then(9, b"desc_data_clear(lock_release, owner);")],
        None,
    ),
];

pub static OF_EVENTS: [Case; 5] = [
    (&[Without(22)], Some((WrongEffect, 21, 5))),
    (
        &[As(22, b"desc_data_clear(evt_wait, count);")],
        Some((WrongEffect, 21, 5)),
    ),
    (
        &[As(
            23,
            b"int evt_trigger(spdid_t s, long desc(id), long desc_data(count));",
        )],
        Some((WrongEffect, 23, 5)),
    ),
    (
        &[As(
            23,
            b"int evt_trigger(spdid_t s, long desc(id), long count);",
        )],
        Some((WrongEffect, 23, 5)),
    ),
    (
        &[As(
            23,
            b"int evt_trigger(spdid_t s, long desc(id), long desc_data_add(counts));",
        )],
        Some((WrongEffect, 23, 5)),
    ),
];

pub static OF_PAGES: [Case; 5] = [
    // Two fields exchanged.
    (
        &[As(
            19,
            b"unsigned long mman_get_page(spdid_t desc_data(addr), unsigned long desc_data(space));",
        )],
        Some((WrongEffect, 19, 15)),
    ),
    (
        &[As(
            20,
            b"unsigned long mman_alias_page(spdid_t s, long parent_desc(parent), long desc_data(addr), long desc_data(space));",
        )],
        Some((WrongEffect, 20, 15)),
    ),
    // The caller's field in place of an argument's; one argument in no field; an argument of a query in a field.
    (
        &[As(
            20,
            b"unsigned long mman_alias_page(spdid_t desc_data(space), long parent_desc(parent), long space, long desc_data(addr));",
        )],
        Some((WrongEffect, 20, 15)),
    ),
    (
        &[As(
            19,
            b"unsigned long mman_get_page(spdid_t desc_data(space), long addr);",
        )],
        Some((WrongEffect, 19, 15)),
    ),
    (
        &[As(
            22,
            b"unsigned long mman_find(spdid_t s, long desc_data(space), long addr);",
        )],
        Some((WrongEffect, 22, 15)),
    ),
];

pub static OF_FILES: [Case; 5] = [
    (
        &[As(
            23,
            b"desc_data_retval(long, offset) tread(spdid_t s, long desc(td), long n);",
        )],
        Some((WrongEffect, 23, 32)),
    ),
    (
        &[As(23, b"long tread(spdid_t spdid, long desc(td), long n);")],
        Some((WrongEffect, 23, 6)),
    ),
    (
        &[As(
            24,
            b"desc_data_retval_add(long, name) twrite(spdid_t s, long desc(td), char *bytes);",
        )],
        Some((WrongEffect, 24, 34)),
    ),
    (
        &[As(
            25,
            b"int tseek(spdid_t s, long desc(td), long desc_data_add(offset));",
        )],
        Some((WrongEffect, 25, 5)),
    ),
    (
        &[As(
            22,
            b"long tsplit(spdid_t s, long parent_desc(name), char *desc_data(parent));",
        )],
        Some((WrongEffect, 22, 6)),
    ),
];

pub static OF_THREADS: [Case; 3] = [
    (
        &[As(
            31,
            b"desc_data_retval_add(long, rank) sched_create_thd(spdid_t s, long desc_data(prio));",
        )],
        Some((WrongEffect, 31, 34)),
    ),
    (
        &[As(
            32,
            b"desc_data_retval(long, prio) sched_yield(spdid_t s, long desc(tid));",
        )],
        Some((WrongEffect, 32, 30)),
    ),
    (
        &[As(
            33,
            b"desc_data_retval(long, rank) sched_sleep(spdid_t s, long desc(tid));",
        )],
        Some((WrongEffect, 33, 30)),
    ),
];

pub static TOGETHER: [Case; 5] = [
    // The earlier prototype wins, wherever the statements are.
    (
        &[
            Then(9, b"desc_data_clear(lock_free, owner);"),
            Then(25, b"desc_data_clear(lock_take, owner);"),
        ],
        Some((WrongEffect, 23, 5)),
    ),
    // Later kinds that stand earlier: a transition, a recover step, a function that isn't reached, a state without a walk.
    (
        &[
            Then(9, b"sm_transition(lock_free, lock_take);"),
            Without(24),
        ],
        Some((WrongEffect, 24, 5)),
    ),
    (
        &[Then(9, b"sm_recover(lock_free, lock_take);"), Without(24)],
        Some((WrongEffect, 24, 5)),
    ),
    (
        &[Without(15), Then(24, b"desc_data_clear(lock_free, owner);")],
        Some((WrongEffect, 25, 5)),
    ),
    (&[Without(20), Without(24)], Some((WrongEffect, 22, 5))),
];
