// Printed runs that were written by hand, and their faults. No clause says that a run is judged where there is memory.
use crate::asking::is_said;
use sg_top::Status::{self, Done, Illegal, Refused};
use std::alloc::Global;
use std::process::Abort;
use std::test::Fail;
use test_interfaces::{EVENT, LOCK, RAMFS};

// A printed run, and the status and the line that it comes to.
type Case = (&'static [u8], Status, &'static str);

// Each run under this interface comes to its status and its line.
fn try_each(rt: &impl Abort, alloc: Global, interface: &[u8], cases: &[Case]) -> Result<(), Fail> {
    for (run, status, line) in cases {
        assert!(rt; is_said(alloc, interface, run, *status, line)?, "{run:?}");
    }
    Ok(())
}

// Of locks.
static LOCKS: [Case; 42] = [
    (b"", Done, "legal 0\n"),
    (b"\n", Done, "legal 0\n"),
    (b"calls 0 boots 1 replays 0\n", Done, "legal 0\n"),
    (b"c1.1 lock_alloc() = ok #1\n", Done, "legal 1\n"),
    // the last line needn't end
    (b"c1.1 lock_alloc() = ok #1", Done, "legal 1\n"),
    // what stands before the first entry, and after the last
    (
        b"a run\nclient 1 done\nc1.1 lock_alloc() = ok #1\nc1.2 lock_take(1) = ok\nboot 1\nc1.3 lock_fly() = no\n",
        Done,
        "legal 2\n",
    ),
    (
        b"c1.1 lock_alloc() = ok #1\n\nc1.2 lock_fly() = no\n",
        Done,
        "legal 1\n",
    ),
    // a client that waits has to, and clients' numbers follow one another
    (
        b"c1.1 lock_alloc() = ok #1\nc1.2 lock_take(1) = ok\nc2.1 lock_take(1) = ok\n",
        Illegal,
        "illegal at entry 3: blocked\n",
    ),
    (
        b"c1.1 lock_alloc() = ok #1\nc1.3 lock_take(1) = ok\nc2.1 lock_take(1) = ok\n",
        Illegal,
        "illegal at entry 2: seq 2\n",
    ),
    (
        b"c1.1 lock_alloc() = ok #2\nc1.2 lock_take(1) = ok\nc2.1 lock_take(1) = ok\n",
        Illegal,
        "illegal at entry 1: ok #1\n",
    ),
    (
        b"c1.0 lock_alloc() = ok #1\n",
        Illegal,
        "illegal at entry 1: seq 1\n",
    ),
    (
        b"c1.1 lock_alloc() = ok #1\nc1.1 lock_alloc() = ok #2\n",
        Illegal,
        "illegal at entry 2: seq 2\n",
    ),
    (
        b"c64.1 lock_alloc() = ok #1\nc2.1 lock_take(1) = ok\nc64.2 lock_free(1) = ok\n",
        Illegal,
        "illegal at entry 3: refused Held\n",
    ),
    (
        b"c1.1 lock_alloc() = ok #1\nc2.1 lock_take(2) = refused NoDesc\nc2.2 lock_take(1) = ok\nc1.2 lock_release(1) = refused NotOwner\n",
        Done,
        "legal 4\n",
    ),
    (
        b"c1.1 lock_take(18446744073709551615) = refused NoDesc\n",
        Done,
        "legal 1\n",
    ),
    // numbers at their limits
    (
        b"c1.1 lock_take(18446744073709551616) = refused NoDesc\n",
        Refused,
        "run refused at 1:16: Limit\n",
    ),
    (
        b"c1.4294967295 lock_alloc() = ok #1\n",
        Illegal,
        "illegal at entry 1: seq 1\n",
    ),
    (
        b"c1.4294967296 lock_alloc() = ok #1\n",
        Refused,
        "run refused at 1:4: Limit\n",
    ),
    (
        b"c0.1 lock_alloc() = ok #1\n",
        Refused,
        "run refused at 1:2: BadClient\n",
    ),
    (
        b"c65.1 lock_alloc() = ok #1\n",
        Refused,
        "run refused at 1:2: BadClient\n",
    ),
    (
        b"c256.1 lock_alloc() = ok #1\n",
        Refused,
        "run refused at 1:2: BadClient\n",
    ),
    (
        b"c1.1 lock_alloc() = ok #18446744073709551615\n",
        Illegal,
        "illegal at entry 1: ok #1\n",
    ),
    (
        b"c1.1 lock_alloc() = ok #18446744073709551616\n",
        Refused,
        "run refused at 1:25: Limit\n",
    ),
    (
        b"c1.1 lock_alloc() = ok #1 18446744073709551616\n",
        Refused,
        "run refused at 1:27: Limit\n",
    ),
    (
        b"c1.1 lock_alloc() = ok #0\n",
        Refused,
        "run refused at 1:25: Syntax\n",
    ),
    (
        b"c1.01 lock_alloc() = ok #1\n",
        Refused,
        "run refused at 1:5: Syntax\n",
    ),
    (
        b"c01.1 lock_alloc() = ok #1\n",
        Refused,
        "run refused at 1:3: Syntax\n",
    ),
    (
        b"c1.1 lock_alloc() = ok #1 1 2 3 4 5\n",
        Refused,
        "run refused at 1:34: Syntax\n",
    ),
    // spaces, ends of lines, and other words
    (
        b"c1.1  lock_alloc() = ok #1\nc1.2 lock_take(1) = ok\nc2.1 lock_take(1) = ok\n",
        Refused,
        "run refused at 1:6: Syntax\n",
    ),
    (
        b"c1.1 lock_alloc() = ok #1 \n",
        Refused,
        "run refused at 1:27: Syntax\n",
    ),
    (
        b"c1.1 lock_alloc() = ok #1\r\n",
        Refused,
        "run refused at 1:26: Syntax\n",
    ),
    (
        b"c1.1 lock_alloc() = ok #1\nc1.2 lock_alloc()",
        Refused,
        "run refused at 2:18: Syntax\n",
    ),
    (b"c1", Refused, "run refused at 1:3: Syntax\n"),
    (
        b"c1.1 lock_alloc() = refused Never\n",
        Refused,
        "run refused at 1:30: Syntax\n",
    ),
    (
        b"c1.1 lock_alloc() = refused No\n",
        Refused,
        "run refused at 1:31: Syntax\n",
    ),
    (
        b"c1.1 lock_alloc() = ok #1 \"\"\n",
        Refused,
        "run refused at 1:27: Syntax\n",
    ),
    // functions and arguments
    (
        b"c1.1 lock_fly() = ok #1\n",
        Refused,
        "run refused at 1:6: UnknownFunction\n",
    ),
    (
        b"c1.1 lock_alloc(1) = ok #1\n",
        Refused,
        "run refused at 1:6: BadArgs\n",
    ),
    (
        b"c1.1 lock_take() = ok\n",
        Refused,
        "run refused at 1:6: BadArgs\n",
    ),
    (
        b"c1.1 lock_take(\"a\") = ok\n",
        Refused,
        "run refused at 1:6: BadArgs\n",
    ),
    // the first fault, and a line that is no entry's before all others
    (
        b"c1.1 lock_take() = ok\nc0.1 lock_take() = ok\n",
        Refused,
        "run refused at 1:6: BadArgs\n",
    ),
    (
        b"c1.1 lock_take() = ok\nc1.1 lock_take(1)\n",
        Refused,
        "run refused at 2:18: Syntax\n",
    ),
];

#[test]
fn judges_locks(rt: HostRuntime) -> Result<(), Fail> {
    try_each(&rt, rt.alloc(), LOCK, &LOCKS)
}

// Of events: a count that is given is taken away.
static EVENTS: [Case; 3] = [
    (
        b"c1.1 evt_split() = ok #1\nc1.2 evt_trigger(1, 1) = ok\nc2.1 evt_wait(1) = ok\n",
        Done,
        "legal 3\n",
    ),
    (
        b"c1.1 evt_split() = ok #1\nc1.2 evt_trigger(1, 1) = ok\nc2.1 evt_wait(1) = ok\nc2.2 evt_wait(1) = ok\n",
        Illegal,
        "illegal at entry 4: blocked\n",
    ),
    (
        b"c1.1 evt_split() = ok #1\nc1.2 evt_trigger(1,1) = ok\n",
        Refused,
        "run refused at 2:20: Syntax\n",
    ),
];

#[test]
fn judges_events(rt: HostRuntime) -> Result<(), Fail> {
    try_each(&rt, rt.alloc(), EVENT, &EVENTS)
}

// Of files: what is read is shown.
static FILES: [Case; 7] = [
    (
        b"c1.1 tsplit(0, \"a\") = ok #1\nc1.2 twrite(1, \"q r\") = ok 3\nc1.3 tseek(1, 0) = ok\nc1.4 tread(1, 9) = ok 3 \"q r\"\n",
        Done,
        "legal 4\n",
    ),
    (
        b"c1.1 tsplit(0, \"a\") = ok #1\nc1.2 tread(1, 9) = ok 0 \"\"\n",
        Done,
        "legal 2\n",
    ),
    (
        b"c1.1 tsplit(0, \"a\") = ok #1\nc1.2 tread(1, 9) = ok 0 \"b\"\n",
        Illegal,
        "illegal at entry 2: ok 0 \"\"\n",
    ),
    (
        b"c1.1 tsplit(0, \"a\") = ok #1\nc1.2 tread(1, 9) = ok 0\n",
        Refused,
        "run refused at 2:24: Syntax\n",
    ),
    (
        b"c1.1 tsplit(0, \"a\") = ok #1 \"\"\n",
        Refused,
        "run refused at 1:29: Syntax\n",
    ),
    (
        b"c1.1 tsplit(0, \"a\tb\") = ok #1\n",
        Refused,
        "run refused at 1:18: Syntax\n",
    ),
    (
        b"c1.1 tsplit(0, \"a) = ok #1\n",
        Refused,
        "run refused at 1:27: Syntax\n",
    ),
];

#[test]
fn judges_files(rt: HostRuntime) -> Result<(), Fail> {
    try_each(&rt, rt.alloc(), RAMFS, &FILES)
}

// The most calls of a script.
const MOST_CALLS: u32 = 65_536;

// So many lines of one client, each an entry that is refused for want of a lock.
fn many_lines(alloc: Global, count: u32) -> Result<Vec<u8>, Fail> {
    let mut run = Vec::new(alloc);
    for before in 0..count {
        let number = u64::from(before) + 1;
        let line = format!(in alloc; "c1.{number} lock_take(1) = refused NoDesc\n")?;
        run.extend_from_slice(line.as_bytes())?;
    }
    Ok(run)
}

#[test]
fn judges_the_longest_run(rt: HostRuntime) -> Result<(), Fail> {
    let alloc = rt.alloc();
    let run = many_lines(alloc, MOST_CALLS)?;
    assert!(rt; is_said(alloc, LOCK, &run, Done, "legal 65536\n")?);
    let run = many_lines(alloc, MOST_CALLS + 1)?;
    let line = "run refused at 65537:10: Limit\n";
    assert!(rt; is_said(alloc, LOCK, &run, Refused, line)?);
    Ok(())
}

// How many arguments a long line has.
const MANY_ARGS: u32 = 1_000_000;

// An entry of a function of this name with so many arguments, and one more.
fn long_line(alloc: Global, name: &[u8], more: u32) -> Result<Vec<u8>, Fail> {
    let mut run = Vec::from_slice(alloc, b"c1.1 ")?;
    run.extend_from_slice(name)?;
    run.extend_from_slice(b"(0")?;
    for _ in 0..more {
        run.extend_from_slice(b", 0")?;
    }
    run.extend_from_slice(b") = ok\n")?;
    Ok(run)
}

#[test]
fn judges_a_line_of_many_arguments(rt: HostRuntime) -> Result<(), Fail> {
    let alloc = rt.alloc();
    let run = long_line(alloc, b"lock_take", MANY_ARGS)?;
    let line = "run refused at 1:6: BadArgs\n";
    assert!(rt; is_said(alloc, LOCK, &run, Refused, line)?);
    let run = long_line(alloc, b"lock_fly", MANY_ARGS)?;
    let line = "run refused at 1:6: UnknownFunction\n";
    assert!(rt; is_said(alloc, LOCK, &run, Refused, line)?);
    Ok(())
}
