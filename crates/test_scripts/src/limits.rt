// As many calls, stops and bytes of a text as a script may have, and one more.
use crate::answers::{Answer, answer, standard};
use sg_script::ScriptKind::{Limit, NotAscending};
use std::alloc::{AllocError, Global};
use std::test::Fail;
use test_tables::{LOCK, RAMFS};

// A text: some bytes, others so many times, and some more.
fn repeated(
    alloc: Global,
    before: &[u8],
    one: &[u8],
    times: usize,
    behind: &[u8],
) -> Result<Vec<u8>, AllocError> {
    let mut text = Vec::from_slice(alloc, before)?;
    for _ in 0..times {
        text.extend_from_slice(one)?;
    }
    text.extend_from_slice(behind)?;
    Ok(text)
}

// The answer on a script for a standard interface.
fn answer_on(alloc: Global, text: &[u8], script: &[u8]) -> Result<Answer, Fail> {
    answer(alloc, script, standard(alloc, text)?.interface())
}

// The answer on so many calls of one client.
fn on_calls(alloc: Global, calls: usize) -> Result<Answer, Fail> {
    let script = repeated(alloc, b"client 1 {", b" lock_alloc();", calls, b" }")?;
    answer_on(alloc, LOCK, script.as_slice())
}

// The answer on so many calls in a setup after 1,000 of client 7.
fn on_parts(alloc: Global, calls: usize) -> Result<Answer, Fail> {
    let mut script = repeated(alloc, b"client 7 {", b" lock_alloc();", 1_000, b" }")?;
    let setup = repeated(alloc, b"setup   {", b" lock_alloc();", calls, b" }")?;
    script.extend_from_slice(setup.as_slice())?;
    answer_on(alloc, LOCK, script.as_slice())
}

#[test]
fn of_calls(rt: HostRuntime) -> Result<(), Fail> {
    assert_eq!(rt; on_calls(rt.alloc(), 65_536)?, None);
    // Each call has 14 bytes, the blank before it among them.
    assert_eq!(rt; on_calls(rt.alloc(), 65_537)?, Some((917_515, Limit)));
    Ok(())
}

#[test]
fn of_calls_of_several_parts(rt: HostRuntime) -> Result<(), Fail> {
    assert_eq!(rt; on_parts(rt.alloc(), 64_537)?, Some((917_526, Limit)));
    Ok(())
}

// The answer on a text with so many bytes between its quotes.
fn on_text(alloc: Global, bytes: usize) -> Result<Answer, Fail> {
    let script = repeated(alloc, b"client 1 { tsplit(0, \"", b"~", bytes, b"\"); }")?;
    answer_on(alloc, RAMFS, script.as_slice())
}

static TEN: &[u8] = b" 10 11 12 13 14 15 16 17 18 19";

// 60 stops of two digits, with some before and some after them.
fn on_stops(alloc: Global, before: &[u8], behind: &[u8]) -> Result<Answer, Fail> {
    let mut script = Vec::from_slice(alloc, before)?;
    for tens in b'1'..=b'6' {
        for (place, byte) in TEN.iter().enumerate() {
            script.push(if place % 3 == 1 { tens } else { *byte })?;
        }
    }
    script.extend_from_slice(behind)?;
    answer_on(alloc, LOCK, script.as_slice())
}

#[test]
fn of_texts_and_stops(rt: HostRuntime) -> Result<(), Fail> {
    assert_eq!(rt; on_text(rt.alloc(), 0)?, None);
    assert_eq!(rt; on_text(rt.alloc(), 256)?, None);
    assert_eq!(rt; on_text(rt.alloc(), 257)?, Some((21, Limit)));
    assert_eq!(rt; on_stops(rt.alloc(), b"stop 1 2 3", b";")?, None);
    assert_eq!(rt; on_stops(rt.alloc(), b"stop 1 2 3", b" 70;")?, None);
    assert_eq!(rt;
        on_stops(rt.alloc(), b"stop 1 2 3", b" 70 71;")?,
        Some((194, Limit))
    );
    assert_eq!(rt;
        on_stops(rt.alloc(), b"stop 1 2 3 4", b" 70;")?,
        Some((193, Limit))
    );
    // At one place what isn't ascending comes before what is one too many.
    assert_eq!(rt;
        on_stops(rt.alloc(), b"stop 1 2 3 4", b" 0;")?,
        Some((193, NotAscending))
    );
    Ok(())
}
