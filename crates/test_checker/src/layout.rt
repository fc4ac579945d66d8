// Texts that are laid out otherwise: a place counts bytes, whatever stands before it.
use crate::answers::Case;
use crate::edits::Edit::{As, Then, Without};
use sg_input::CheckKind::{ForeignTransition, UnknownFunction, WrongFlag};

// A text on one line: a place counts the bytes of the line.
pub static ON_ONE_LINE: [Case; 1] = [(&[Without(13)], Some((WrongFlag, 1, 644)))];

pub static OF_LOCKS: [Case; 11] = [
    // Blanks and comments between tokens.
    (
        &[As(10, b"sm_creation /* ( */ ( \t lock_alloc\n)\r\n// )\n;")],
        None,
    ),
    (
        &[As(
            22,
            b"int/**/lock_take(spdid_t/* * */desc_data(owner),unsigned\n\tlong desc ( id ) ) ;",
        )],
        None,
    ),
    (
        &[As(
            17,
            b"sm_transition /* a\nb */ ( // c\n lock_free /* d */ , lock_take ) ;",
        )],
        Some((ForeignTransition, 19, 2)),
    ),
    (
        &[Then(25, b"\tsm_keep(\tnobody\t);")],
        Some((UnknownFunction, 26, 11)),
    ),
    // A character of two bytes is two.
    (
        &[Then(25, b"/* \xc3\xa9 */ sm_keep(nobody);")],
        Some((UnknownFunction, 26, 18)),
    ),
    // A carriage return alone ends no line, and no comment.
    (
        &[Then(25, b"sm_keep(\rnobody);")],
        Some((UnknownFunction, 26, 10)),
    ),
    (&[Then(25, b"// c\r sm_keep(nobody);")], None),
    (
        &[Then(25, b"/*\r\n*/ sm_keep(nobody);")],
        Some((UnknownFunction, 27, 12)),
    ),
    // A statement in a comment is none.
    (
        &[As(12, b"// sm_block(lock_take);")],
        Some((WrongFlag, 22, 5)),
    ),
    (
        &[As(12, b"/* sm_block(lock_take); /* */ sm_block(lock_take);")],
        None,
    ),
    // The name that is declared is a type's last, after its stars.
    (
        &[
            Without(11),
            As(
                25,
                b"const struct file * * lock_free(spdid_t s, long desc(id));",
            ),
        ],
        Some((WrongFlag, 24, 23)),
    ),
];

// Prototypes before what is said of their functions.
pub static TURNED: [Case; 2] = [
    (
        &[
            Then(
                9,
                b"int lock_free(spdid_t s, long desc(id));\nint lock_release(spdid_t s, long desc(id));",
            ),
            Without(23),
            Without(25),
        ],
        None,
    ),
    (
        &[
            Then(
                9,
                b"int lock_free(spdid_t s, long desc(id));\nint lock_release(spdid_t s, long desc(id));",
            ),
            Without(11),
            Without(13),
            Without(23),
            Without(25),
        ],
        Some((WrongFlag, 10, 5)),
    ),
];
