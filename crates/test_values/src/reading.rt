// How inputs are read, over memory and over std.
ghost use Rattle.std.specs.Prelude.{◌≤◌};

use crate::faulty::{Faulty, Step};
use sg_base::NoMemory;
use sg_edge::{Failed, Intake, MemSource, ReadError, Source, StdSource, read_all};
use std::alloc::Global;
use std::io::ErrorKind;
use std::process::Abort;
use std::test::Fail;

// What a source gave up to a limit: how many bytes, all of them equal to those of `from`; None where it has more; a
// failed read; or want of memory, which ends the test.
fn read_of<S: Source>(
    alloc: Global,
    source: &mut S,
    limit: usize,
    from: &[u8],
) -> Result<Result<Option<usize>, Failed>, Fail> {
    match read_all(alloc, source, limit) {
        Ok(Intake::Whole(bytes)) if from.starts_with(bytes.as_slice()) => Ok(Ok(Some(bytes.len()))),
        Ok(Intake::Whole(_)) => Err("other bytes than were given")?,
        Ok(Intake::TooLong) => Ok(Ok(None)),
        Err(ReadError::Failed) => Ok(Err(Failed)),
        Err(ReadError::NoMemory) => Err(NoMemory)?,
    }
}

// The bytes of a source and of a read, the failing read (0 for none), the limit, and the answer.
type Case = (usize, usize, u32, usize, Result<Option<usize>, Failed>);

static CASES: [Case; 11] = [
    (0, 1, 0, 0, Ok(Some(0))),
    (5, 1, 0, 5, Ok(Some(5))),
    (5, 1, 0, 4, Ok(None)),
    (5, 9, 0, 2, Ok(None)),
    (5, 1, 3, 5, Err(Failed)),
    (5, 1, 6, 5, Err(Failed)),
    (5, 1, 7, 5, Ok(Some(5))),
    (9000, 9000, 0, 9000, Ok(Some(9000))),
    (9000, 4096, 0, usize::MAX, Ok(Some(9000))),
    (9000, 4000, 0, 9001, Ok(Some(9000))),
    (9000, 9000, 0, 8999, Ok(None)),
];

// What a source of these bytes gives.
fn read_from(
    alloc: Global,
    bytes: &[u8],
    most: usize,
    failing: u32,
    limit: usize,
) -> Result<Result<Option<usize>, Failed>, Fail>
    requires { 1 ≤ most }
{
    let mut source = MemSource::new(alloc, bytes, most, &[failing])?;
    read_of(alloc, &mut source, limit, bytes)
}

// Each case has its answer.
fn read_each(rt: &impl Abort, alloc: Global, bytes: &[u8]) -> Result<(), Fail> {
    for (length, most, failing, limit, want) in &CASES {
        let given = bytes.get(..*length).ok_or("more than there is")?;
        assert!(rt; *most > 0);
        let got = read_from(alloc, given, *most, *failing, *limit)?;
        assert_eq!(rt;
            got,
            *want,
            "{length} bytes, {most} a read, {failing} fails, limit {limit}"
        );
    }
    Ok(())
}

#[test]
fn reads_to_the_end_or_one_past_the_limit(rt: HostRuntime) -> Result<(), Fail> {
    let mut bytes = [b'x'; 9000];
    for at in [0usize, 4094, 4095, 4096, 4097, 8191, 8192, 8999] {
        bytes[at] = b'y';
    }
    read_each(&rt, rt.alloc(), bytes.as_slice())
}

// A failed read, and the bytes that are left then.
fn read_twice(rt: &impl Abort, alloc: Global, source: &mut MemSource) -> Result<(), Fail> {
    assert_eq!(rt; read_of(alloc, source, 9, b"hello")?, Err(Failed));
    assert_eq!(rt; read_of(alloc, source, 9, b"llo")?, Ok(Some(3)));
    Ok(())
}

#[test]
fn the_bytes_of_a_failed_read_are_left(rt: HostRuntime) -> Result<(), Fail> {
    let mut source = MemSource::new(rt.alloc(), b"hello", 1, &[3])?;
    read_twice(&rt, rt.alloc(), &mut source)
}

// What the reader does, the answer up to 4 bytes, and how often the reader is called for it.
type ReaderCase = (&'static [Step], Result<Option<usize>, Failed>, usize);

static READERS: [ReaderCase; 6] = [
    (&[Ok(2), Ok(2), Ok(0), Ok(1)], Ok(Some(4)), 3),
    (&[Ok(0), Ok(1)], Ok(Some(0)), 1),
    (&[Ok(9), Ok(1)], Ok(None), 1),
    (&[Err(ErrorKind::Other), Ok(1)], Err(Failed), 1),
    (&[Ok(2), Err(ErrorKind::Interrupted), Ok(3)], Err(Failed), 2),
    (
        &[Ok(4), Err(ErrorKind::UnexpectedEof), Ok(0)],
        Err(Failed),
        2,
    ),
];

// What is read up to 4 bytes of a reader.
fn read_by(alloc: Global, reader: &mut Faulty) -> Result<Result<Option<usize>, Failed>, Fail> {
    let mut source = StdSource::new(reader);
    read_of(alloc, &mut source, 4, b"rrrr")
}

#[test]
fn reads_a_reader_no_further_than_its_end_or_its_error(rt: HostRuntime) -> Result<(), Fail> {
    for (steps, want, calls) in &READERS {
        let mut reader = Faulty {
            steps: *steps,
            calls: 0,
        };
        let got = read_by(rt.alloc(), &mut reader)?;
        assert_eq!(rt; got, *want, "{steps:?}");
        assert_eq!(rt; reader.calls, *calls, "{steps:?}");
    }
    Ok(())
}
