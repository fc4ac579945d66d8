// Prototypes whose parameters aren't the function's.
use crate::answers::Case;
use crate::edits::Edit::{As, Then, Without};
use sg_input::CheckKind::{BadParams, WrongEffect};

pub static CALLERS: [Case; 14] = [
    // No client, or one with a star.
    (
        &[As(21, b"unsigned long lock_alloc(unsigned long spdid);")],
        Some((BadParams, 21, 15)),
    ),
    (
        &[As(21, b"unsigned long lock_alloc(spdid_t *spdid);")],
        Some((BadParams, 21, 15)),
    ),
    (
        &[As(21, b"unsigned long lock_alloc(spdid_tt spdid);")],
        Some((BadParams, 21, 15)),
    ),
    (
        &[As(21, b"unsigned long lock_alloc(spdid spdid_t);")],
        Some((BadParams, 21, 15)),
    ),
    (
        &[As(21, b"unsigned long lock_alloc(spdid_t int spdid);")],
        Some((BadParams, 21, 15)),
    ),
    // The other client type, and names in front of it.
    (
        &[As(21, b"unsigned long lock_alloc(componentid_t c);")],
        None,
    ),
    (
        &[As(21, b"unsigned long lock_alloc(const spdid_t c);")],
        None,
    ),
    (
        &[As(
            21,
            b"unsigned long lock_alloc(volatile const componentid_t c);",
        )],
        None,
    ),
    (
        &[As(21, b"unsigned long lock_alloc(componentid_t *c);")],
        Some((BadParams, 21, 15)),
    ),
    // Its form.
    (
        &[As(21, b"unsigned long lock_alloc(spdid_t desc(spdid));")],
        Some((BadParams, 21, 15)),
    ),
    (
        &[As(21, b"unsigned long lock_alloc(spdid_t parent_desc(spdid));")],
        Some((BadParams, 21, 15)),
    ),
    (
        &[As(
            21,
            b"unsigned long lock_alloc(spdid_t desc_data_add(owner));",
        )],
        Some((BadParams, 21, 15)),
    ),
    (
        &[As(21, b"unsigned long lock_alloc(spdid_t desc_data(owner));")],
        Some((WrongEffect, 21, 15)),
    ),
    // The return isn't looked at.
    (&[As(21, b"const char **lock_alloc(spdid_t spdid);")], None),
];

pub static DESCRIPTORS: [Case; 12] = [
    (
        &[As(25, b"int lock_free(spdid_t spdid, char *desc(id));")],
        Some((BadParams, 25, 5)),
    ),
    (
        &[As(25, b"int lock_free(spdid_t spdid, unsigned long id);")],
        Some((BadParams, 25, 5)),
    ),
    (
        &[As(
            25,
            b"int lock_free(spdid_t spdid, unsigned long parent_desc(id));",
        )],
        Some((BadParams, 25, 5)),
    ),
    (
        &[As(
            25,
            b"int lock_free(spdid_t spdid, unsigned long desc_data(id));",
        )],
        Some((BadParams, 25, 5)),
    ),
    (
        &[As(
            25,
            b"int lock_free(spdid_t spdid, unsigned long desc_data_add(id));",
        )],
        Some((BadParams, 25, 5)),
    ),
    (
        &[As(25, b"int lock_free(spdid_t spdid, char *id);")],
        Some((BadParams, 25, 5)),
    ),
    // Neither its type nor its name is looked at.
    (
        &[As(25, b"int lock_free(spdid_t s, spdid_t desc(owner));")],
        None,
    ),
    // Too few, too many, in another order.
    (
        &[As(25, b"int lock_free(spdid_t spdid);")],
        Some((BadParams, 25, 5)),
    ),
    (
        &[As(25, b"int lock_free(spdid_t spdid, long desc(id), long n);")],
        Some((BadParams, 25, 5)),
    ),
    (
        &[As(
            25,
            b"int lock_free(spdid_t spdid, long desc(id), long desc(id));",
        )],
        Some((BadParams, 25, 5)),
    ),
    (
        &[As(25, b"int lock_free(long desc(id), spdid_t spdid);")],
        Some((BadParams, 25, 5)),
    ),
    (
        &[As(25, b"int lock_free(long desc(id));")],
        Some((BadParams, 25, 5)),
    ),
];

pub static OF_PAGES: [Case; 7] = [
    // A client in a later place is a word.
    (
        &[As(
            22,
            b"unsigned long mman_find(spdid_t s, spdid_t space, componentid_t addr);",
        )],
        None,
    ),
    (
        &[As(
            19,
            b"unsigned long mman_get_page(spdid_t desc_data(space), spdid_t desc_data(addr));",
        )],
        None,
    ),
    // The parent's place.
    (
        &[As(
            20,
            b"unsigned long mman_alias_page(spdid_t s, long desc_data(space), long parent_desc(parent), long desc_data(addr));",
        )],
        Some((BadParams, 20, 15)),
    ),
    (
        &[As(
            20,
            b"unsigned long mman_alias_page(spdid_t s, long desc(parent), long desc_data(space), long desc_data(addr));",
        )],
        Some((BadParams, 20, 15)),
    ),
    (
        &[As(
            20,
            b"unsigned long mman_alias_page(spdid_t s, long *parent_desc(parent), long desc_data(space), long desc_data(addr));",
        )],
        Some((BadParams, 20, 15)),
    ),
    // A star makes a text.
    (
        &[As(
            22,
            b"unsigned long mman_find(spdid_t s, char *space, long addr);",
        )],
        Some((BadParams, 22, 15)),
    ),
    (
        &[As(
            22,
            b"unsigned long mman_find(spdid_t s, long desc(space), long addr);",
        )],
        Some((BadParams, 22, 15)),
    ),
];

pub static OF_FILES: [Case; 6] = [
    (
        &[As(
            22,
            b"long tsplit(spdid_t s, long parent_desc(parent), char desc_data(name));",
        )],
        Some((BadParams, 22, 6)),
    ),
    (
        &[As(
            22,
            b"long tsplit(spdid_t s, long parent_desc(parent), char **desc_data(name));",
        )],
        None,
    ),
    (
        &[As(
            22,
            b"long tsplit(spdid_t s, char *desc_data(name), long parent_desc(parent));",
        )],
        Some((BadParams, 22, 6)),
    ),
    (
        &[As(
            24,
            b"desc_data_retval_add(long, offset) twrite(spdid_t s, long desc(td), char bytes);",
        )],
        Some((BadParams, 24, 36)),
    ),
    (
        &[As(
            24,
            b"desc_data_retval_add(long, offset) twrite(spdid_t s, long desc(td), char *b, long n);",
        )],
        Some((BadParams, 24, 36)),
    ),
    (
        &[As(
            23,
            b"desc_data_retval_add(long, offset) tread(spdid_t s, long desc(td), char *n);",
        )],
        Some((BadParams, 23, 36)),
    ),
];

pub static TOGETHER: [Case; 5] = [
    // The earlier place wins.
    (
        &[
            As(23, b"int lock_release(spdid_t s);"),
            As(25, b"int lock_free(spdid_t s);"),
        ],
        Some((BadParams, 23, 5)),
    ),
    // Later kinds that stand earlier: a fact, a flag, an effect, a transition.
    (
        &[
            As(3, b"desc_has_parent = same,"),
            As(25, b"int lock_free(spdid_t s);"),
        ],
        Some((BadParams, 25, 5)),
    ),
    (
        &[Without(12), As(25, b"int lock_free(spdid_t s);")],
        Some((BadParams, 24, 5)),
    ),
    (
        &[Without(24), As(25, b"int lock_free(spdid_t s);")],
        Some((BadParams, 24, 5)),
    ),
    (
        &[
            Then(9, b"sm_transition(lock_free, lock_take);"),
            As(25, b"int lock_free(spdid_t s);"),
        ],
        Some((BadParams, 26, 5)),
    ),
];

pub static OF_THREADS: [Case; 3] = [
    (
        &[As(36, b"int sched_next(spdid_t spdid, long n);")],
        Some((BadParams, 36, 5)),
    ),
    (
        &[As(36, b"int sched_next(long n);")],
        Some((BadParams, 36, 5)),
    ),
    (
        &[As(
            37,
            b"int sched_place(spdid_t s, long desc_data(rank), long desc(tid));",
        )],
        Some((BadParams, 37, 5)),
    ),
];
