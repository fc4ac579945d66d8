// Runs whose inputs are made: long ones, other interfaces, and what is refused.
use crate::runs::{comes_to, input_of};
use sg_top::NoMemory;
use std::alloc::Global;
use std::test::Fail;
use test_interfaces::{LOCK, RAMFS};

// A word, how often each line of the interface of locks stands in which it is, the command, what stands after the interface, and
// the status with what is printed.
type Changed = (
    &'static str,
    u8,
    &'static str,
    &'static [u8],
    u8,
    &'static str,
);

static CHANGED: [Changed; 8] = [
    // a script without calls
    ("lock", 1, "sim", b"%%\n", 0, "calls 0 boots 1 replays 0\n"),
    // a lock that is owned has no walk
    (
        "sm_recover",
        0,
        "check",
        b"",
        2,
        "interface refused at 21:5: NoWalk\n",
    ),
    // locks that nobody frees
    ("lock_free", 0, "check", b"", 0, "accepted lock\n"),
    (
        "lock_free",
        0,
        "sim",
        b"%%\nclient 1 { lock_free(1); }\n",
        2,
        "script refused at 1:12: UnknownFunction\n",
    ),
    (
        "sm_wakeup",
        0,
        "check",
        b"",
        2,
        "interface refused at 22:5: WrongFlag\n",
    ),
    // a statement that is repeated
    (
        "sm_recover",
        2,
        "sim",
        b"%%\nclient 1 { lock_alloc(); lock_take($1); lock_release($1); lock_free($1); }\n",
        0,
        "c1.1 lock_alloc() = ok #1
c1.2 lock_take(1) = ok
c1.3 lock_release(1) = ok
c1.4 lock_free(1) = ok
client 1 done
calls 4 boots 1 replays 0
",
    ),
    // bytes that begin no token
    (
        "lock",
        1,
        "check",
        b"\0",
        2,
        "interface refused at 26:1: Lex\n",
    ),
    (
        "lock",
        1,
        "check",
        b"\x80",
        2,
        "interface refused at 26:1: Lex\n",
    ),
];

// The interface of locks, in which each line with a word stands so often.
fn with_lines(alloc: Global, word: &str, times: u8) -> Result<Vec<u8>, NoMemory> {
    let mut text = Vec::new(alloc);
    for line in str::from_utf8(LOCK).unwrap_or("").lines() {
        let count = if line.contains(word) { times } else { 1 };
        for _ in 0..count {
            text.extend_from_slice(line.as_bytes())?;
            text.push(b'\n')?;
        }
    }
    Ok(text)
}

#[test]
fn judges_other_interfaces(rt: HostRuntime) -> Result<(), Fail> {
    let alloc = rt.alloc();
    for (word, times, words, behind, status, wanted) in &CHANGED {
        let mut input = with_lines(alloc, word, *times)?;
        input.extend_from_slice(behind)?;
        assert!(rt;
            comes_to(&rt, alloc, words, &input, *status, wanted)?,
            "{words} {word} {times}"
        );
    }
    Ok(())
}

// Words, a whole input, and the status with what is printed.
static WHOLE: [(&str, &[u8], u8, &str); 4] = [
    (
        "check",
        b"service_global_info = {",
        2,
        "interface refused at 1:24: Syntax\n",
    ),
    ("sim fast", b"", 1, ""),
    ("", b"", 1, ""),
    ("sim", b"x", 2, "input refused: NoDivider\n"),
];

#[test]
fn refuses_inputs(rt: HostRuntime) -> Result<(), Fail> {
    for (words, input, status, wanted) in &WHOLE {
        assert!(rt;
            comes_to(&rt, rt.alloc(), words, input, *status, wanted)?,
            "{words}"
        );
    }
    Ok(())
}

// A text, and a piece after it so often.
fn repeated(alloc: Global, front: &str, piece: &str, times: u32) -> Result<String, NoMemory> {
    let mut text = front.to_string(alloc)?;
    for _ in 0..times {
        text.push_str(piece)?;
    }
    Ok(text)
}

#[test]
fn takes_the_longest_interface(rt: HostRuntime) -> Result<(), Fail> {
    let alloc = rt.alloc();
    let mut text = Vec::from_slice(alloc, LOCK)?;
    for _ in LOCK.len()..65_536 {
        text.push(b' ')?;
    }
    assert!(rt; comes_to(&rt, alloc, "check", &text, 0, "accepted lock\n")?);
    text.push(b' ')?;
    assert!(rt; comes_to(&rt, alloc, "check", &text, 2, "input refused: TooLong\n")?);
    Ok(())
}

#[test]
fn refuses_one_call_and_one_byte_more(rt: HostRuntime) -> Result<(), Fail> {
    let alloc = rt.alloc();
    let mut calls = repeated(alloc, "client 1 {\n", "lock_alloc();\n", 65_537)?;
    calls.push_str("}\n")?;
    let input = input_of(alloc, LOCK, &calls)?;
    let line = "script refused at 65538:1: Limit\n";
    assert!(rt; comes_to(&rt, alloc, "sim", &input, 2, line)?);
    let mut name = repeated(alloc, "client 1 { tsplit(0, \"", "a", 257)?;
    name.push_str("\"); }\n")?;
    let input = input_of(alloc, RAMFS, &name)?;
    let line = "script refused at 1:22: Limit\n";
    assert!(rt; comes_to(&rt, alloc, "sim", &input, 2, line)?);
    Ok(())
}

// The end of a run in which as many locks are live as may be, and one is freed.
const FULL: &str = "..
c1.1024 lock_alloc() = ok #1024
c1.1025 lock_alloc() = refused Full
c1.1026 lock_free(1) = ok
c1.1027 lock_alloc() = ok #1025
client 1 done
calls 1027 boots 2 replays 0
";

#[test]
fn makes_1024_locks(rt: HostRuntime) -> Result<(), Fail> {
    let alloc = rt.alloc();
    let mut script = repeated(alloc, "client 1 {", " lock_alloc();", 1_025)?;
    script.push_str(" lock_free($1); lock_alloc(); } stop 5124;\n")?;
    let input = input_of(alloc, LOCK, &script)?;
    assert!(rt; comes_to(&rt, alloc, "sim", &input, 0, FULL)?);
    let mut traced = FULL.to_string(alloc)?;
    traced.push_str("..\npoints 5129\n")?;
    assert!(rt; comes_to(&rt, alloc, "sim trace", &input, 0, &traced)?);
    Ok(())
}
