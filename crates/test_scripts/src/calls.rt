// Calls of functions that there aren't, and with arguments that don't fit.
use crate::answers::Case;
use sg_script::ScriptKind::{BadArgs, Blocking, UnknownFunction};

pub static OF_LOCKS: [Case; 14] = [
    (b"client 1 { lock_tak(1); }", Some((11, UnknownFunction))),
    (b"client 1 { lock_take_(1); }", Some((11, UnknownFunction))),
    (
        b"client 2 { lock_alloc(); Lock_alloc(); }",
        Some((25, UnknownFunction)),
    ),
    (b"setup { evt_split(); }", Some((8, UnknownFunction))),
    (
        b"client 1 { lock_alloc(); lock_free(1); client(1); }",
        Some((39, UnknownFunction)),
    ),
    (b"client 1 { lock_alloc(1); }", Some((11, BadArgs))),
    (b"client 1 { lock_take(); }", Some((11, BadArgs))),
    (b"client 1 { lock_take(1, 1); }", Some((11, BadArgs))),
    (
        b"client 1 { lock_alloc(); lock_take(\"1\"); }",
        Some((25, BadArgs)),
    ),
    (b"setup { lock_take(1); }", Some((8, Blocking))),
    (
        b"setup { lock_alloc(); lock_take($1); lock_take($1); }",
        Some((22, Blocking)),
    ),
    (
        b"client 1 { lock_take(1); } setup { lock_alloc(); lock_take(1); }",
        Some((49, Blocking)),
    ),
    (
        b"setup { lock_alloc(); lock_release(1); lock_free(1); }",
        None,
    ),
    (
        b"client 1 { lock_alloc(); lock_take(1); lock_release(2); lock_free(3); }",
        None,
    ),
];

pub static OF_FILES: [Case; 9] = [
    (b"client 1 { tsplit(0, 1); }", Some((11, BadArgs))),
    (b"client 1 { tsplit(\"0\", \"a\"); }", Some((11, BadArgs))),
    (
        b"client 1 { tsplit(0, \"a\"); twrite($1, $1); }",
        Some((27, BadArgs)),
    ),
    (
        b"client 1 { tsplit(0, \"a\"); tread($1, \"1\"); }",
        Some((27, BadArgs)),
    ),
    (b"client 1 { tsplit(0); }", Some((11, BadArgs))),
    (b"client 1 { tsplit(\"a\", 0); }", Some((11, BadArgs))),
    (
        b"client 1 { tsplit(0, \"a\", \"b\"); }",
        Some((11, BadArgs)),
    ),
    (
        b"client 1 { tsplit(0, \"a\"); lock_alloc(); }",
        Some((27, UnknownFunction)),
    ),
    (
        b"client 1 { tsplit(0, \"\"); tsplit($1, \"a\"); tread($1, 3); twrite($2, \"b\"); tseek(2, $2); trelease($1); }",
        None,
    ),
];

pub static OF_EVENTS: [Case; 3] = [
    (
        b"setup { evt_split(); evt_wait($1); }",
        Some((21, Blocking)),
    ),
    (b"setup { evt_split(); evt_trigger($1, 1); }", None),
    (b"client 1 { evt_trigger($1, 1); }", Some((11, BadArgs))),
];

pub static BACKS: [Case; 8] = [
    (
        b"client 1 { lock_alloc(); lock_take($0); }",
        Some((25, BadArgs)),
    ),
    (
        b"client 1 { lock_alloc(); lock_take($2); }",
        Some((25, BadArgs)),
    ),
    (b"client 1 { lock_take($1); }", Some((11, BadArgs))),
    (
        b"client 1 { lock_alloc(); lock_take($1); lock_release($3); lock_free($1); }",
        Some((40, BadArgs)),
    ),
    (
        b"client 1 { lock_alloc(); lock_take($18446744073709551616); }",
        Some((25, BadArgs)),
    ),
    (
        b"client 1 { lock_alloc(); lock_take($18446744073709551615); }",
        Some((25, BadArgs)),
    ),
    (
        b"client 1 { lock_alloc(); lock_take($4294967297); }",
        Some((25, BadArgs)),
    ),
    (
        b"client 1 { lock_alloc(); lock_take($1); lock_release($01); lock_free($2); }",
        None,
    ),
];

pub static BEHIND_A_SETUP: [Case; 8] = [
    (b"setup { lock_alloc(); } client 1 { lock_take($1); }", None),
    (b"client 1 { lock_take($1); } setup { lock_alloc(); }", None),
    (
        b"client 1 { lock_take($2); } setup { lock_alloc(); }",
        Some((11, BadArgs)),
    ),
    (
        b"setup { lock_alloc(); lock_alloc(); } client 1 { lock_take($2); lock_take($4); }",
        Some((64, BadArgs)),
    ),
    (
        b"setup { lock_alloc(); } client 2 { lock_take($1); }",
        Some((35, BadArgs)),
    ),
    (
        b"setup { lock_alloc(); } client 2 { lock_alloc(); lock_take($1); }",
        None,
    ),
    (
        b"client 1 { lock_alloc(); } client 2 { lock_take($1); }",
        Some((38, BadArgs)),
    ),
    (
        b"setup { lock_release($1); } client 1 { }",
        Some((8, BadArgs)),
    ),
];
