// Texts that are no scripts of the grammar, and some that are.
use crate::answers::Case;
use sg_script::ScriptKind::Syntax;

pub static MARKS: [Case; 13] = [
    (b"client 1 { lock_alloc() }", Some((24, Syntax))),
    (b"client 1 { lock_alloc(;", Some((22, Syntax))),
    (b"client 1 { lock_alloc ; }", Some((22, Syntax))),
    (b"client 1 { lock_take(1, ); }", Some((24, Syntax))),
    (b"client 1 { lock_take(, 1); }", Some((21, Syntax))),
    (b"client 1 { lock_take(1 1); }", Some((23, Syntax))),
    (b"client 1 { lock_take($$1); }", Some((22, Syntax))),
    (b"client 1 { lock_take($\"a\"); }", Some((22, Syntax))),
    (b"client 1 { lock_take(a); }", Some((21, Syntax))),
    (b"client 1 { 1; }", Some((11, Syntax))),
    (b"client 1 { } }", Some((13, Syntax))),
    (b"schedule 1 , 2;", Some((11, Syntax))),
    (b"stop 1 \"a\";", Some((7, Syntax))),
];

pub static WORDS: [Case; 7] = [
    (b"lock_alloc();", Some((0, Syntax))),
    (b"client { }", Some((7, Syntax))),
    (b"setup 1 { }", Some((6, Syntax))),
    (b"Client 1 { }", Some((0, Syntax))),
    (b"client 1 { } clients 2 { }", Some((13, Syntax))),
    (b"stop stop 1;", Some((5, Syntax))),
    (b"1", Some((0, Syntax))),
];

pub static ENDS: [Case; 8] = [
    (b"client", Some((6, Syntax))),
    (b"client 1 ", Some((9, Syntax))),
    (b"client 1 {", Some((10, Syntax))),
    (b"client 1 { lock_alloc", Some((21, Syntax))),
    (b"client 1 { lock_take($", Some((22, Syntax))),
    (b"stop 1", Some((6, Syntax))),
    (b"schedule // 1;", Some((14, Syntax))),
    (b"setup { } /* { } */ setup ", Some((26, Syntax))),
];

pub static BYTES: [Case; 7] = [
    (b"client 1 { # }", Some((11, Syntax))),
    (b"client 1 { tsplit(0, \"a); }", Some((21, Syntax))),
    (b"client 1 { } /* { }", Some((13, Syntax))),
    (b"client 1 { } /", Some((13, Syntax))),
    (b"client 1 { tsplit(0, \"a\n\"); }", Some((21, Syntax))),
    (b"\x7f", Some((0, Syntax))),
    (b"stop 1; -1", Some((8, Syntax))),
];

pub static FAULTLESS: [Case; 8] = [
    (b"", None),
    (b" \t\r\n", None),
    (b"// client 0 { }", None),
    (b"/* { */", None),
    (b"setup { }", None),
    (b"setup{}schedule;stop;client 1{}", None),
    (b"client/**/1{lock_alloc();lock_take/*$*/($ 1);}", None),
    (b"schedule 1 1\n1;", None),
];
