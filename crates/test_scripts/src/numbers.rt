// Numbers up to the greatest of 64 bits.
use crate::answers::Case;
use sg_script::ScriptKind::Limit;

pub static NUMBERS: [Case; 6] = [
    (
        b"client 1 { lock_take(18446744073709551616); }",
        Some((21, Limit)),
    ),
    (b"client 1 { lock_take(18446744073709551615); }", None),
    (
        b"client 1 { lock_take(918446744073709551615); }",
        Some((21, Limit)),
    ),
    (
        b"client 1 { lock_take(999999999999999999999999999999999999999999999999999999999999); }",
        Some((21, Limit)),
    ),
    (
        b"client 1 { lock_take(0000000000000000000000000000000000000000000000000000000000001); }",
        None,
    ),
    (
        b"setup { lock_release(18446744073709551616); lock_free(18446744073709551616); }",
        Some((21, Limit)),
    ),
];

pub static OF_FILES: [Case; 3] = [
    (
        b"client 1 { tsplit(0, \"a\"); tread($1, 18446744073709551616); }",
        Some((37, Limit)),
    ),
    (
        b"client 1 { tsplit(18446744073709551616, \"a\"); }",
        Some((18, Limit)),
    ),
    (
        b"client 1 { tsplit(18446744073709551615, \"a\"); tseek(18446744073709551615, 18446744073709551615); }",
        None,
    ),
];
