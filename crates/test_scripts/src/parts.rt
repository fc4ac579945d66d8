// Parts: clients, second parts, and stops.
use crate::answers::Case;
use sg_script::ScriptKind::{BadClient, Limit, NotAscending, Twice};

pub static CLIENTS: [Case; 11] = [
    (b"client 0 { }", Some((7, BadClient))),
    (b"client 65 { }", Some((7, BadClient))),
    (b"client 00 { }", Some((7, BadClient))),
    (b"client 18446744073709551616 { }", Some((7, BadClient))),
    (b"schedule 18446744073709551616;", Some((9, BadClient))),
    (b"schedule 1 0;", Some((11, BadClient))),
    (b"schedule 1 2 65 66;", Some((13, BadClient))),
    (b"schedule 256;", Some((9, BadClient))),
    (b"client 257 { }", Some((7, BadClient))),
    (b"client 65 { } client 65 { }", Some((7, BadClient))),
    (b"client 64 { } client 1 { } schedule 1 64 2 063;", None),
];

pub static TWICE: [Case; 8] = [
    (b"setup { } setup { }", Some((10, Twice))),
    (b"client 1 { } client 2 { } client 1 { }", Some((26, Twice))),
    (b"client 1 { } client 01 { }", Some((13, Twice))),
    (b"schedule ; schedule ;", Some((11, Twice))),
    (b"stop 3; stop 4;", Some((8, Twice))),
    (b"stop ; client 3 { } stop ;", Some((20, Twice))),
    (
        b"client 64 { } client 63 { } client 64 { lock_alloc(); }",
        Some((28, Twice)),
    ),
    (
        b"stop ; schedule ; client 2 { } setup { } client 1 { }",
        None,
    ),
];

pub static STOPS: [Case; 9] = [
    (b"stop 0;", Some((5, NotAscending))),
    (b"stop 3 3;", Some((7, NotAscending))),
    (b"stop 5 6 4;", Some((9, NotAscending))),
    (b"stop 2 1;", Some((7, NotAscending))),
    (
        b"stop 18446744073709551615 18446744073709551616;",
        Some((26, NotAscending)),
    ),
    (b"stop 18446744073709551615 1;", Some((26, NotAscending))),
    (b"stop 18446744073709551616;", Some((5, Limit))),
    (
        b"stop 1 2 18446744073709551616 18446744073709551616;",
        Some((9, Limit)),
    ),
    (b"stop 1 2 03 18446744073709551615;", None),
];
