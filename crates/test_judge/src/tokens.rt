// The examples with each token left out, doubled or replaced: whatever `check` says of such a text, `compile` and `explain` say it too.
use crate::cases::Base;
use sg_judge::{Read, compiled, explain, verdict};
use std::alloc::{AllocError, Global};
use std::process::Abort;
use std::test::Fail;
use test_interfaces::token_places;

static EXAMPLES: [Base; 6] = [
    Base::Semaphore,
    Base::Rwlock,
    Base::Channel,
    Base::Lease,
    Base::Device,
    Base::Sockets,
];

// A text with other bytes in the place of so many.
fn with(
    alloc: Global,
    text: &[u8],
    at: usize,
    len: usize,
    other: &[u8],
) -> Result<Vec<u8>, AllocError> {
    let mut changed = Vec::from_slice(alloc, text.get(..at).unwrap_or(b""))?;
    changed.extend_from_slice(other)?;
    changed.extend_from_slice(text.get(at.saturating_add(len)..).unwrap_or(b""))?;
    Ok(changed)
}

// Where `check` accepts a text, it has tables; else `compile` refuses it with the same line. What is explained begins with the line.
fn commands_agree(rt: &impl Abort, alloc: Global, text: &[u8]) -> Result<(), Fail> {
    let said = verdict(alloc, text, &[])?;
    let tables = compiled(alloc, text, &[])?;
    let told = explain(alloc, text, &[])?;
    match (&said, &tables, &told) {
        (Read::Ready(line), Read::Ready(_), Read::Ready(told)) => {
            assert!(rt; told.as_slice().starts_with(line.as_slice()));
            Ok(())
        }
        (Read::Refused(line), Read::Refused(same), Read::Refused(told)) => {
            assert_eq!(rt; line.as_slice(), same.as_slice());
            assert!(rt; told.as_slice().starts_with(line.as_slice()));
            Ok(())
        }
        _ => Err(Fail::new("one command accepts what another refuses")),
    }
}

// The same with other bytes in the place of so many.
fn agree_with(
    rt: &impl Abort,
    alloc: Global,
    text: &[u8],
    at: usize,
    len: usize,
    other: &[u8],
) -> Result<(), Fail> {
    let changed = with(alloc, text, at, len, other)?;
    commands_agree(rt, alloc, changed.as_slice())
}

// The same of a text without the token there, with it twice, and with another in its place.
fn try_token(
    rt: &impl Abort,
    alloc: Global,
    text: &[u8],
    at: usize,
    len: usize,
) -> Result<(), Fail> {
    agree_with(rt, alloc, text, at, len, b" ")?;
    let token = text.get(at..at.saturating_add(len)).unwrap_or(b"");
    let twice = with(alloc, token, 0, 0, b" ")?;
    agree_with(rt, alloc, text, at, 0, token)?;
    agree_with(rt, alloc, text, at.saturating_add(len), 0, twice.as_slice())?;
    agree_with(rt, alloc, text, at, len, b"=")?;
    agree_with(rt, alloc, text, at, len, b"other")
}

#[test]
fn commands_agree_on_each_token(rt: HostRuntime) -> Result<(), Fail> {
    let alloc = rt.alloc();
    for example in &EXAMPLES {
        let text = example.text();
        let places = token_places(alloc, text)?;
        for (at, len) in places.as_slice() {
            try_token(&rt, alloc, text, *at, *len)?;
        }
    }
    Ok(())
}
