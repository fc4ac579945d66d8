// How outputs are written, over memory and over std.
ghost use Rattle.std.specs.Prelude.{◌≤◌};

use crate::faulty::{Faulty, Step};
use sg_base::NoMemory;
use sg_edge::{CutOff, Failed, MemSink, Sink, StdSink, write_all};
use std::alloc::Global;
use std::io::ErrorKind;
use std::process::Abort;
use std::test::Fail;

// The bytes that are written.
static BYTES: &[u8] = b"thirty-three bytes taken in parts";

// The bytes of a write, the failing write (0 for none), and the bytes written where there is memory for them.
static CASES: [(usize, u32, usize); 6] = [
    (1, 0, 33),
    (99, 0, 33),
    (1, 1, 0),
    (1, 33, 32),
    (1, 34, 33),
    (10, 4, 30),
];

// How many bytes a sink took; None where it has others than those.
fn taken(sink: &mut MemSink) -> Option<usize> {
    let written = match write_all(sink, BYTES) {
        Ok(()) => 33,
        Err(cut) => cut.written,
    };
    if BYTES.get(..written)? == sink.written() {
        Some(written)
    } else {
        None
    }
}

// How many bytes a sink of its own took.
fn taken_by(alloc: Global, most: usize, failing: u32) -> Result<Option<usize>, NoMemory>
    requires { 1 ≤ most }
{
    let mut sink = MemSink::new(alloc, most, &[failing])?;
    Ok(taken(&mut sink))
}

#[test]
fn writes_the_whole_or_a_front(rt: HostRuntime) -> Result<(), Fail> {
    for (most, failing, want) in &CASES {
        assert!(rt; *most > 0);
        let got = taken_by(rt.alloc(), *most, *failing)?;
        assert_eq!(rt; got, Some(*want), "{most} a write, write {failing} fails");
    }
    Ok(())
}

#[test]
fn writes_nothing_without_a_write(rt: HostRuntime) -> Result<(), Fail> {
    let mut sink = MemSink::new(rt.alloc(), 1, &[1])?;
    write_all(&mut sink, b"")?;
    assert!(rt; sink.written().is_empty(), "nothing to write");
    Ok(())
}

// What the writer does, the answer on five bytes, and how often the writer is called for it.
type WriterCase = (&'static [Step], Result<(), CutOff>, usize);

static WRITERS: [WriterCase; 4] = [
    (&[Ok(2), Ok(9), Ok(1)], Ok(()), 2),
    (
        &[Ok(2), Err(ErrorKind::Interrupted), Ok(9)],
        Err(CutOff { written: 2 }),
        2,
    ),
    (
        &[Err(ErrorKind::Other), Ok(9)],
        Err(CutOff { written: 0 }),
        1,
    ),
    (&[Ok(2), Ok(0), Ok(9)], Err(CutOff { written: 2 }), 2),
];

// The answer of a writer on five bytes.
fn write_by(writer: &mut Faulty) -> Result<(), CutOff> {
    let mut sink = StdSink::new(writer);
    write_all(&mut sink, b"hello")
}

#[test]
fn writes_to_a_writer_until_its_first_error(rt: HostRuntime) -> Result<(), Fail> {
    for (steps, want, calls) in &WRITERS {
        let mut writer = Faulty {
            steps: *steps,
            calls: 0,
        };
        let got = write_by(&mut writer);
        assert_eq!(rt; got, *want, "{steps:?}");
        assert_eq!(rt; writer.calls, *calls, "{steps:?}");
    }
    Ok(())
}

// Writes five bytes to a list of bytes, and flushes it.
fn write_and_flush(rt: &impl Abort, out: &mut Vec<u8>) -> Result<(), Fail> {
    let mut sink = StdSink::new(out);
    write_all(&mut sink, b"hello")?;
    assert_eq!(rt; sink.flush(), Ok(()));
    Ok(())
}

#[test]
fn flushes_a_list_of_bytes(rt: HostRuntime) -> Result<(), Fail> {
    let mut out = Vec::new(rt.alloc());
    write_and_flush(&rt, &mut out)?;
    assert_eq!(rt; out.as_slice(), b"hello".as_slice());
    Ok(())
}

// What a writer that fails once takes and flushes.
fn take_and_flush(rt: &impl Abort, writer: &mut Faulty) {
    let mut sink = StdSink::new(writer);
    assert_eq!(rt; sink.write(b""), Ok(0), "nothing to take is no fault");
    assert_eq!(rt; sink.flush(), Ok(()));
    assert_eq!(rt; sink.flush(), Err(Failed));
    assert_eq!(rt; sink.write(b"hello"), Ok(5));
}

#[test]
fn flushes_a_writer(rt: HostRuntime) -> Result<(), Fail> {
    let steps: &[Step] = &[Ok(0), Ok(0), Err(ErrorKind::Interrupted), Ok(5)];
    let mut writer = Faulty { steps, calls: 0 };
    take_and_flush(&rt, &mut writer);
    assert_eq!(rt; writer.calls, 4);
    Ok(())
}
