// Which texts are scripts, where the others fail, and what the parts of a script keep.
use sg_script::{Part, ScriptSyntax, Spelled, WrittenArg, parse};
use std::alloc::Global;
use std::process::Abort;
use std::test::Fail;

// A text, and how it is answered: by so many parts, or by the place at which it fails; None for want of memory.
type Case = (&'static [u8], Option<Result<usize, usize>>);

fn answer_on(alloc: Global, text: &[u8]) -> Option<Result<usize, usize>> {
    match parse(alloc, text) {
        Ok(parts) => Some(Ok(parts.len())),
        Err(ScriptSyntax::Syntax { at }) => Some(Err(at)),
        Err(ScriptSyntax::NoMemory) => None,
    }
}

static CASES: [Case; 46] = [
    (b"", Some(Ok(0))),
    (b"// nothing\n/* at\n all */", Some(Ok(0))),
    (b"setup{}", Some(Ok(1))),
    (b"client 1 { lock_alloc(); lock_take($1); }", Some(Ok(1))),
    (b"client 18446744073709551616 { }", Some(Ok(1))),
    (b"schedule 1 2 1;", Some(Ok(1))),
    (b"stop;", Some(Ok(1))),
    (b"setup { f(\"a\", $2, 007); }", Some(Ok(1))),
    (b"setup { f(/* none */); } // done", Some(Ok(1))),
    (
        b"setup { setup(); desc(); client(1); stop(); schedule(); }",
        Some(Ok(1)),
    ),
    (b"stop 1; setup { } setup { }", Some(Ok(3))),
    (
        b"setup { } client 1 { } client 2 { f(); } schedule 1 2; stop 3;",
        Some(Ok(5)),
    ),
    (b"{", Some(Err(0))),
    (b"\"setup\"", Some(Err(0))),
    (b"setup { } }", Some(Err(10))),
    (b"stop 1; 2", Some(Err(8))),
    (b"setup ", Some(Err(6))),
    (b"setup 1 { }", Some(Err(6))),
    (b"client {", Some(Err(7))),
    (b"client $1 { }", Some(Err(7))),
    (b"client 1", Some(Err(8))),
    (b"setup {", Some(Err(7))),
    (b"setup { 1(); }", Some(Err(8))),
    (b"setup { f }", Some(Err(10))),
    (b"setup { f() }", Some(Err(12))),
    (b"setup { f(); ; }", Some(Err(13))),
    (b"setup { f(); g }", Some(Err(15))),
    (b"setup { f(", Some(Err(10))),
    (b"setup { f(x); }", Some(Err(10))),
    (b"setup { f(,1); }", Some(Err(10))),
    (b"setup { f($); }", Some(Err(11))),
    (b"setup { f($$1); }", Some(Err(11))),
    (b"setup { f(1 2); }", Some(Err(12))),
    (b"setup { f(1,); }", Some(Err(12))),
    (b"schedule", Some(Err(8))),
    (b"schedule a;", Some(Err(9))),
    (b"schedule 1, 2;", Some(Err(10))),
    (b"stop \"x\";", Some(Err(5))),
    (b"stop 1 2", Some(Err(8))),
    (b"schedule 1 // no end", Some(Err(20))),
    (b"%", Some(Err(0))),
    (b"setup % {", Some(Err(6))),
    (b"setup { /* }", Some(Err(8))),
    (b"setup { f(\"a); }", Some(Err(10))),
    (b"client 1 { f(1\xFF); }", Some(Err(14))),
    (b"schedule a; %", Some(Err(9))),
];

#[test]
fn takes_scripts_and_fails_elsewhere(rt: HostRuntime) -> Result<(), Fail> {
    for (text, want) in CASES {
        assert!(rt; answer_on(rt.alloc(), text) == want, "on {text:?}");
    }
    let mut long = Vec::from_slice(rt.alloc(), b"client 1 {")?;
    for _ in 0..10_000 {
        long.extend_from_slice(b"f(1);")?;
    }
    assert!(rt; answer_on(rt.alloc(), long.as_slice()) == Some(Err(50_010)));
    long.extend_from_slice(b"}")?;
    assert!(rt; answer_on(rt.alloc(), long.as_slice()) == Some(Ok(1)));
    Ok(())
}

// Asserts that these are spelt so, each at its place.
fn try_spelt(rt: &impl Abort, spelt: &[&Spelled<'_>], want: &[(&'static [u8], usize)]) {
    assert!(rt; spelt.len() == want.len());
    for (one, (bytes, at)) in spelt.iter().zip(want) {
        assert!(rt; one.slice == *bytes && one.at == *at, "{bytes:?} at {at}");
    }
}

#[test]
fn parts_keep_what_is_spelt_and_where(rt: HostRuntime) -> Result<(), Fail> {
    let text = b" client 64 { f(\"a b\", $2, 007); }schedule 1 002;";
    let parts = parse(rt.alloc(), text)?;
    let (Some(Part::Client { at, number, calls }), Some(Part::Schedule { at: place, numbers })) = (
        parts.get(0),
        parts.get(1),
    ) else {
        return Err("other parts")?;
    };
    assert!(rt; *at == 1 && *place == 33);
    let call = calls.get(0).ok_or("no call")?;
    let args = call.args.as_slice();
    let (
        Some(WrittenArg::Text(first)),
        Some(WrittenArg::Back(second)),
        Some(WrittenArg::Number(third)),
    ) = (args.get(0), args.get(1), args.get(2)) else {
        return Err("other arguments")?;
    };
    try_spelt(&rt, &[number, &call.name], &[(b"64", 8), (b"f", 13)]);
    try_spelt(
        &rt,
        &[first, second, third],
        &[(b"\"a b\"", 15), (b"2", 23), (b"007", 26)],
    );
    let (Some(one), Some(two)) = (numbers.get(0), numbers.get(1)) else {
        return Err("other numbers")?;
    };
    try_spelt(&rt, &[one, two], &[(b"1", 42), (b"002", 44)]);
    Ok(())
}
