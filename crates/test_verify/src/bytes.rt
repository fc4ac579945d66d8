// Lines with a byte changed, dropped or doubled.
use crate::asking::{is_said, verified};
use sg_top::Status::Done;
use std::alloc::{AllocError, Global};
use std::test::Fail;
use test_interfaces::LOCK;

// A legal run, in which each byte counts.
const RUN: &[u8] = b"c2.1 lock_alloc() = ok #1
c2.2 lock_take(1) = ok
c1.1 lock_release(1) = refused NotOwner
c2.3 lock_release(1) = ok
c1.2 lock_take(1) = ok
";

const LEGAL: &str = "legal 5\n";

// What is done with a byte.
#[derive(Clone, Copy, Debug)]
enum Change {
    Dropped,
    Doubled,
    Swapped(u8),
}

// A run with its byte at a place changed so.
fn changed(alloc: Global, run: &[u8], place: usize, change: Change) -> Result<Vec<u8>, AllocError> {
    let mut bytes = Vec::new(alloc);
    for (at, byte) in run.iter().enumerate() {
        match change {
            Change::Dropped if at == place => (),
            Change::Doubled if at == place => bytes.extend_from_slice(&[*byte, *byte])?,
            Change::Swapped(other) if at == place => bytes.push(other)?,
            _ => bytes.push(*byte)?,
        }
    }
    Ok(bytes)
}

// Each change of a byte at a place.
static CHANGES: [Change; 6] = [
    Change::Dropped,
    Change::Doubled,
    Change::Swapped(b'!'),
    Change::Swapped(b'\r'),
    Change::Swapped(0),
    Change::Swapped(0xFF),
];

#[test]
fn reads_each_byte(rt: HostRuntime) -> Result<(), Fail> {
    let alloc = rt.alloc();
    assert!(rt; is_said(alloc, LOCK, RUN, Done, LEGAL)?);
    // the last byte is the end of a line, which needn't be there, or may stand before another line
    for place in 0..RUN.len() - 1 {
        for change in &CHANGES {
            let run = changed(alloc, RUN, place, *change)?;
            let said = verified(alloc, LOCK, &run)?;
            assert!(rt; said.1.as_slice() != LEGAL.as_bytes(), "{place} {change:?}");
        }
    }
    Ok(())
}
