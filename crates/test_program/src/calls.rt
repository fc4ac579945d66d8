// Other words, a run as it is given, and the numbers of statuses.
use crate::answers::{REPORT, SCRIPT, Sizes, input_of, said, words_of};
use sg_top::{
    Command, MemSink, MemSource, NoMemory, NoProgress, OpenGate, Status, serial, superglue,
};
use std::alloc::Global;
use std::io::ErrorKind;
use std::sync::Wait;
use std::test::Fail;
use std::thread::Threads;
use test_interfaces::LOCK;

// Words that are no command's, up to two of them; an empty one isn't given.
static OTHER_WORDS: [[&str; 2]; 15] = [
    ["", ""],
    ["sim ", ""],
    ["SIM", ""],
    ["sim trace", ""],
    ["checks", ""],
    ["runs", ""],
    ["trace", "sim"],
    ["sim", "traces"],
    ["check", "check"],
    ["explore", "1001"],
    ["explore", "-1"],
    ["explore", "18446744073709551616"],
    ["explain", "sim"],
    ["draw", "svg"],
    ["draw", "trace"],
];

// Whether words come to `OtherWords` in one thread, without a run and with nothing written; with a source whose first read fails, so
// nothing is read.
fn touch_nothing(
    alloc: Global,
    words: &[String],
    source: &mut MemSource,
    sink: &mut MemSink,
) -> bool {
    let (status, run) = said(serial(alloc, words, source, sink));
    status == Status::OtherWords && run.is_none() && sink.written().is_empty()
}

// Whether words are no command's, and touch nothing.
fn are_other(alloc: Global, texts: &[&str]) -> Result<bool, NoMemory> {
    let words = words_of(alloc, texts)?;
    let mut source = MemSource::new(alloc, LOCK, 400, &[1])?;
    let mut sink = MemSink::new(alloc, 400, &[1])?;
    Ok(Command::of_words(&words).is_none() && touch_nothing(alloc, &words, &mut source, &mut sink))
}

#[test]
fn touches_nothing_at_other_words(rt: HostRuntime) -> Result<(), Fail> {
    for texts in &OTHER_WORDS {
        assert!(rt; are_other(rt.alloc(), texts)?, "{texts:?}");
    }
    Ok(())
}

// The words of plays with a thread for each client.
static THREAD_WORDS: [[&str; 2]; 4] = [
    ["run", ""],
    ["run", "trace"],
    ["explore", ""],
    ["explore", "1000"],
];

// What the whole call says.
fn said_by_all<R: Threads + Wait + Sync>(
    rt: &R,
    alloc: Global,
    words: &[String],
    source: &mut MemSource,
    sink: &mut MemSink,
) -> (Status, Option<Sizes>) {
    said(superglue(rt, alloc, words, source, sink, &OpenGate, &NoProgress))
}

// Whether words are a command's which touches nothing in one thread, and whose first read the whole call makes.
fn are_for_threads<R: Threads + Wait + Sync>(
    rt: &R,
    alloc: Global,
    texts: &[&str],
) -> Result<bool, NoMemory> {
    let words = words_of(alloc, texts)?;
    let mut source = MemSource::new(alloc, LOCK, 400, &[1])?;
    let mut sink = MemSink::new(alloc, 400, &[1])?;
    if Command::of_words(&words).is_none()
        || !touch_nothing(alloc, &words, &mut source, &mut sink)
    {
        return Ok(false);
    }
    let (status, _) = said_by_all(rt, alloc, &words, &mut source, &mut sink);
    Ok(status == Status::ReadFault)
}

#[test]
fn leaves_threads_to_the_whole_call(rt: HostRuntime) -> Result<(), Fail> {
    for texts in &THREAD_WORDS {
        assert!(rt; are_for_threads(&rt, rt.alloc(), texts)?, "{texts:?}");
    }
    Ok(())
}

// What the whole call says of an input, and whether it writes this.
fn said_of<R: Threads + Wait + Sync>(
    rt: &R,
    alloc: Global,
    input: &[u8],
    written: &[u8],
) -> Result<(Status, Option<Sizes>, bool), NoMemory> {
    let words = words_of(alloc, &["sim"])?;
    let mut source = MemSource::new(alloc, input, 7, &[])?;
    let mut sink = MemSink::new(alloc, 5, &[])?;
    let (status, run) = said_by_all(rt, alloc, &words, &mut source, &mut sink);
    Ok((status, run, sink.written() == written))
}

#[test]
fn gives_the_run(rt: HostRuntime) -> Result<(), Fail> {
    let input = input_of(rt.alloc(), LOCK, SCRIPT)?;
    let given = said_of(&rt, rt.alloc(), &input, REPORT)?;
    assert_eq!(rt; given, (Status::Done, Some((4, 1, 1)), true));
    Ok(())
}

static NUMBERS: [(Status, u8); 7] = [
    (Status::Done, 0),
    (Status::OtherWords, 1),
    (Status::Refused, 2),
    (Status::Waits, 3),
    (Status::ReadFault, 4),
    (Status::WriteFault, 5),
    (Status::NoMemory, 6),
];

#[test]
fn numbers_statuses(rt: HostRuntime) {
    for (status, number) in &NUMBERS {
        assert_eq!(rt; status.number(), *number);
    }
    assert_eq!(rt;
        Status::without_words(ErrorKind::OutOfMemory),
        Status::NoMemory
    );
    assert_eq!(rt;
        Status::without_words(ErrorKind::InvalidData),
        Status::OtherWords
    );
}
