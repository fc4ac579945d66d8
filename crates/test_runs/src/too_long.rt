// Inputs that are too long, each by one byte.
use crate::asking::{explained, spaces};
use sg_top::Status::Refused;
use sg_top::{MOST_INPUT, MOST_INTERFACE};
use std::alloc::Global;
use std::process::Abort;
use std::test::Fail;

// What is explained of an input that is too long.
static TOO_LONG: &[u8] = b"input refused: TooLong
An interface has at most 65536 bytes, and a script at most 4194304.
";

// So many spaces and then this are too long.
fn try_spaces(rt: &impl Abort, alloc: Global, count: usize, after: &[u8]) -> Result<(), Fail> {
    let mut input = spaces(alloc, count)?;
    input.extend_from_slice(after)?;
    let (status, said) = explained(alloc, &input)?;
    assert_eq!(rt; status, Refused, "{count}");
    assert_eq!(rt; said.as_slice(), TOO_LONG, "{count}");
    Ok(())
}

#[test]
fn a_text_is_too_long(rt: HostRuntime) -> Result<(), Fail> {
    try_spaces(&rt, rt.alloc(), MOST_INTERFACE + 1, b"")
}

#[test]
fn an_interface_is_too_long(rt: HostRuntime) -> Result<(), Fail> {
    try_spaces(&rt, rt.alloc(), MOST_INTERFACE, b"\n%%\n")
}

#[test]
fn a_whole_input_is_too_long(rt: HostRuntime) -> Result<(), Fail> {
    try_spaces(&rt, rt.alloc(), MOST_INPUT + 1, b"")
}
