// Whether each run comes out as it is written.
use crate::texts::{EVENTS, FILES, LOCKS, PAGES, THREADS, TIMERS};
use sg_top::{Gate, MemSink, MemSource, NoMemory, NoProgress, OpenGate, superglue};
use std::alloc::Global;
use std::process::Abort;
use std::sync::Wait;
use std::test::Fail;
use std::thread::Threads;
use test_interfaces::{EVENT, LOCK, MM, RAMFS, SCHED, TIMER};

/// What words and an input come to: the number of the status, and what is printed.
pub fn played<R: Threads + Wait + Sync>(
    rt: &R,
    alloc: Global,
    words: &str,
    input: &[u8],
) -> Result<(u8, Vec<u8>), NoMemory> {
    played_with(rt, alloc, words, input, &OpenGate)
}

/// What they come to where each thread passes a gate around its calls.
pub fn played_with<R: Threads + Wait + Sync, G: Gate>(
    rt: &R,
    alloc: Global,
    words: &str,
    input: &[u8],
    gate: &G,
) -> Result<(u8, Vec<u8>), NoMemory> {
    let mut list = Vec::new(alloc);
    for word in words.split_whitespace() {
        list.push(word.to_string(alloc)?)?;
    }
    let mut source = MemSource::new(alloc, input, 4_096, &[])?;
    let mut sink = MemSink::new(alloc, 4_096, &[])?;
    let answer = superglue(rt, alloc, &list, &mut source, &mut sink, gate, &NoProgress);
    Ok((
        answer.status.number(),
        Vec::from_slice(alloc, sink.written())?,
    ))
}

// Whether lines are these, where two points stand for any lines.
fn fits(printed: &str, wanted: &str) -> bool {
    let mut lines = printed.lines();
    let mut skips = false;
    for line in wanted.lines() {
        if line == ".." {
            skips = true;
            continue;
        }
        let found = if skips {
            lines.any(|other| other == line)
        } else {
            lines.next().is_some_and(|other| other == line)
        };
        if !found {
            return false;
        }
        skips = false;
    }
    lines.next().is_none()
}

/// Whether words and an input come to this status, and to these lines.
pub fn comes_to<R: Threads + Wait + Sync>(
    rt: &R,
    alloc: Global,
    words: &str,
    input: &[u8],
    status: u8,
    wanted: &str,
) -> Result<bool, NoMemory> {
    let (number, printed) = played(rt, alloc, words, input)?;
    let printed = str::from_utf8(&printed).unwrap_or("");
    Ok(number == status && fits(printed, wanted))
}

/// An input: the text of an interface, the dividing line, and a script.
pub fn input_of(alloc: Global, interface: &[u8], script: &str) -> Result<Vec<u8>, NoMemory> {
    let mut input = Vec::from_slice(alloc, interface)?;
    input.extend_from_slice(b"%%\n")?;
    input.extend_from_slice(script.as_bytes())?;
    Ok(input)
}

// A run: its words, its status, its script, and what is printed.
#[derive(Drop)]
struct Row<'a> {
    words: &'a str,
    status: u8,
    script: &'a str,
    printed: &'a str,
}

// The run that a text tells.
fn row_of(text: &str) -> Option<Row<'_>> {
    let (head, rest) = text.split_once("\n")?;
    let (words, status) = head.split_once(": ")?;
    let (script, printed) = rest.split_once("\n")?;
    Some(Row {
        words,
        status: status.parse::<u8>().ok()?,
        script,
        printed,
    })
}

// Each run of a text under an interface comes out as it is written.
fn try_each<R: Threads + Wait + Sync + Abort>(
    rt: &R,
    alloc: Global,
    interface: &[u8],
    text: &str,
) -> Result<(), Fail> {
    for told in text.split("\n\n") {
        let row = row_of(told).ok_or("no run")?;
        let input = input_of(alloc, interface, row.script)?;
        assert!(rt;
            comes_to(rt, alloc, row.words, &input, row.status, row.printed)?,
            "{told}"
        );
    }
    Ok(())
}

#[test]
fn plays_locks(rt: HostRuntime) -> Result<(), Fail> {
    try_each(&rt, rt.alloc(), LOCK, LOCKS)
}

#[test]
fn plays_events(rt: HostRuntime) -> Result<(), Fail> {
    try_each(&rt, rt.alloc(), EVENT, EVENTS)
}

#[test]
fn plays_pages(rt: HostRuntime) -> Result<(), Fail> {
    try_each(&rt, rt.alloc(), MM, PAGES)
}

#[test]
fn plays_files(rt: HostRuntime) -> Result<(), Fail> {
    try_each(&rt, rt.alloc(), RAMFS, FILES)
}

#[test]
fn plays_threads(rt: HostRuntime) -> Result<(), Fail> {
    try_each(&rt, rt.alloc(), SCHED, THREADS)
}

#[test]
fn plays_timers(rt: HostRuntime) -> Result<(), Fail> {
    try_each(&rt, rt.alloc(), TIMER, TIMERS)
}

// Runs with stops, of locks, of files and of threads: each with lines of its trace.
const LOCK_STOPS: [&str; 2] = [
    "client 1 { lock_alloc(); lock_take($1); lock_release($1); lock_free($1); } stop 9;\n",
    "..\nwalk 1.1 for c1 by c1 lock_alloc() replied\n..\npoints 24\n",
];

const FILE_STOPS: [&str; 2] = [
    "client 1 { tsplit(0, \"a\"); twrite($1, \"hello\"); tseek($1, 9); twrite($1, \"x\"); } client 2 { tsplit(0, \"a\"); tread($1, 16); } schedule 1 1 1 2 2 2 2 2 2; stop 10;\n",
    "..\nload /a for c2\n..\npoints 33\n",
];

const THREAD_STOPS: [&str; 2] = [
    "setup { sched_create_thd(3); } client 1 { sched_sleep(1); sched_wait(1); } client 2 { sched_wakeup(1); } schedule 1 1 1 2 2; stop 11;\n",
    "..\nwalk 1.2 for c2 by c1 sched_place(1, 1) replied\n..\npoints 28\n",
];

// A lock that a client uses in a thread of its own.
const LOCK_IN_THREADS: [&str; 2] = [
    "client 1 { lock_alloc(); lock_take($1); lock_release($1); lock_free($1); }",
    "..\nclient 1 done\ncalls 4 boots 1 replays 0\n",
];

// The line of a generated load.
const LOAD_LINE: &str = "load sched 7: calls 20000 boots 33 replays 453 blocked 0\n";

// The statuses of a write that failed, and of want of memory.
const WRITE_FAULT: u8 = 5;

const NO_MEMORY: u8 = 6;

// Whether a run comes out as it is written, or does so when it is made again, where it wanted memory: of all allocations one fails at
// most. A run that wanted memory printed nothing, or how the whole begins: its sink is in memory, so a write to it may want some.
fn comes_out<R: Threads + Wait + Sync>(
    rt: &R,
    alloc: Global,
    words: &str,
    input: &[u8],
    wanted: &str,
) -> Result<bool, NoMemory> {
    let (number, printed) = played(rt, alloc, words, input)?;
    if number == 0 {
        return Ok(fits(str::from_utf8(&printed).unwrap_or(""), wanted));
    }
    let wants = match number {
        WRITE_FAULT => true,
        NO_MEMORY => printed.is_empty(),
        _ => false,
    };
    let (number, whole) = played(rt, alloc, words, input)?;
    let comes = number == 0 && fits(str::from_utf8(&whole).unwrap_or(""), wanted);
    Ok(wants && comes && whole.starts_with(&printed))
}

#[test]
fn comes_out_or_lacked_memory(rt: HostRuntime) {
    let runs = [
        ("sim trace", LOCK, LOCK_STOPS),
        ("sim trace", RAMFS, FILE_STOPS),
        ("sim trace", SCHED, THREAD_STOPS),
        ("run", LOCK, LOCK_IN_THREADS),
    ];
    for (words, interface, [script, wanted]) in runs {
        // What the test itself has no memory for tells nothing.
        let Ok(input) = input_of(rt.alloc(), interface, script) else {
            return;
        };
        match comes_out(&rt, rt.alloc(), words, &input, wanted) {
            Ok(comes) => assert!(rt; comes, "{script:?}"),
            Err(_) => return,
        }
    }
}

#[test]
fn load_comes_out_or_lacked_memory(rt: HostRuntime) {
    if let Ok(comes) = comes_out(&rt, rt.alloc(), "load sched 7", b"", LOAD_LINE) {
        assert!(rt; comes);
    }
}
