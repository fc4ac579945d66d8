// Several flaws in one script: the first place comes first, and at one place the first kind.
use crate::answers::Case;
use sg_script::ScriptKind::{
    BadArgs, BadClient, Blocking, Limit, NotAscending, Syntax, Twice, UnknownFunction,
};

pub static ONE_PLACE: [Case; 4] = [
    (b"setup { lock_take(); }", Some((8, BadArgs))),
    (
        b"setup { lock_alloc(); lock_take($2); }",
        Some((22, BadArgs)),
    ),
    (b"stop 1 0;", Some((7, NotAscending))),
    (b"client 18446744073709551616 { }", Some((7, BadClient))),
];

pub static EARLIER: [Case; 16] = [
    (
        b"client 1 { lock_tak(); lock_take(); }",
        Some((11, UnknownFunction)),
    ),
    (
        b"client 1 { lock_take(); lock_tak(); }",
        Some((11, BadArgs)),
    ),
    (b"client 0 { lock_tak(); }", Some((7, BadClient))),
    (
        b"client 1 { lock_tak(); } client 0 { }",
        Some((11, UnknownFunction)),
    ),
    (b"stop 0; stop 1;", Some((5, NotAscending))),
    (b"stop 1; stop 0;", Some((8, Twice))),
    (b"setup { } setup { lock_take(1); }", Some((10, Twice))),
    (b"setup { lock_take(1); } setup { }", Some((8, Blocking))),
    (
        b"client 1 { lock_take(18446744073709551616); lock_take(); }",
        Some((21, Limit)),
    ),
    (
        b"client 1 { lock_take(); lock_take(18446744073709551616); }",
        Some((11, BadArgs)),
    ),
    (
        b"client 1 { lock_take(18446744073709551616, 1); }",
        Some((11, BadArgs)),
    ),
    (b"schedule 0; stop 0;", Some((9, BadClient))),
    (b"stop 0; schedule 0;", Some((5, NotAscending))),
    (b"client 1 { } client 1 { lock_tak(); }", Some((13, Twice))),
    (
        b"setup { lock_take(1); lock_take(18446744073709551616); }",
        Some((8, Blocking)),
    ),
    (
        b"setup { lock_release(18446744073709551616); lock_take(1); }",
        Some((21, Limit)),
    ),
];

pub static SYNTAX_FIRST: [Case; 4] = [
    (b"client 0 { lock_tak(); } stop 0 ", Some((32, Syntax))),
    (b"client 1 { lock_tak(); lock_alloc() }", Some((36, Syntax))),
    (b"setup { lock_take(1); } setup { } ;", Some((34, Syntax))),
    (
        b"stop 18446744073709551616; client 1 [ ]",
        Some((36, Syntax)),
    ),
];
