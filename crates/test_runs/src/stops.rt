// Runs with a stop at each point, and with two: their entries are those without stops.
use crate::runs::{input_of, played};
use std::alloc::Global;
use std::process::Abort;
use std::sync::Wait;
use std::test::Fail;
use std::thread::Threads;
use test_interfaces::{EVENT, LOCK, RAMFS, SCHED, TIMER};

const LOCKS: &str = "client 1 { lock_alloc(); lock_take($1); lock_release($1); lock_free($1); }";

const EVENTS: &str =
    "client 1 { evt_split(); evt_trigger($1, 5); evt_wait($1); evt_wait($1); evt_wait($1); }";

const FILES: &str =
    "client 1 { tsplit(0, \"\"); tsplit(0, \"a\"); tsplit($2, \"b\"); trelease($2); tsplit(9, \"c\"); tread($2, 257); tseek($2, 65537); }";

const THREADS: &str =
    "client 1 { sched_create_thd(5); sched_create_thd(5); sched_create_thd(5); sched_exit($1); sched_yield($2); sched_next(); }";

const TIMERS: &str =
    "client 1 { tmr_create(5, 7); tmr_tick($1, 22); tmr_wait($1); tmr_skip($1); tmr_create(5, 7); tmr_first(); tmr_free($1); tmr_create(0, 7); }";

// The greatest point of one stop, and of two.
const MOST: u32 = 60;

const MOST_OF_TWO: u32 = 40;

// The entries of a run: the lines before those of how clients ended.
fn entries_of<R: Threads + Wait + Sync>(
    rt: &R,
    alloc: Global,
    interface: &[u8],
    script: &str,
    stops: &str,
) -> Result<String, Fail> {
    let text = format!(in alloc; "{script} stop {stops};\n")?;
    let input = input_of(alloc, interface, &text)?;
    let (status, printed) = played(rt, alloc, "sim", &input)?;
    if status != 0 {
        return Err("not done")?;
    }
    let report = str::from_utf8(&printed).unwrap_or("");
    let (entries, _) = report.split_once("client ").ok_or("no ends")?;
    Ok(entries.to_string(alloc)?)
}

// With one stop at each point the entries are those without stops.
fn try_each<R: Threads + Wait + Sync + Abort>(
    rt: &R,
    alloc: Global,
    interface: &[u8],
    script: &str,
) -> Result<(), Fail> {
    let wanted = entries_of(rt, alloc, interface, script, "")?;
    assert!(rt; !wanted.is_empty());
    for first in 1..=MOST {
        let stops = format!(in alloc; "{first}")?;
        let entries = entries_of(rt, alloc, interface, script, &stops)?;
        assert!(rt; entries == wanted, "stop {stops}");
    }
    Ok(())
}

// With stops at each two points the entries are those without stops.
fn try_each_two<R: Threads + Wait + Sync + Abort>(
    rt: &R,
    alloc: Global,
    interface: &[u8],
    script: &str,
) -> Result<(), Fail> {
    let wanted = entries_of(rt, alloc, interface, script, "")?;
    for first in 1..=MOST_OF_TWO {
        for second in first + 1..=MOST_OF_TWO {
            let stops = format!(in alloc; "{first} {second}")?;
            let entries = entries_of(rt, alloc, interface, script, &stops)?;
            assert!(rt; entries == wanted, "stop {stops}");
        }
    }
    Ok(())
}

#[test]
fn locks_stop_once(rt: HostRuntime) -> Result<(), Fail> {
    try_each(&rt, rt.alloc(), LOCK, LOCKS)
}

#[test]
fn events_stop_once(rt: HostRuntime) -> Result<(), Fail> {
    try_each(&rt, rt.alloc(), EVENT, EVENTS)
}

#[test]
fn files_stop_once(rt: HostRuntime) -> Result<(), Fail> {
    try_each(&rt, rt.alloc(), RAMFS, FILES)
}

#[test]
fn threads_stop_once(rt: HostRuntime) -> Result<(), Fail> {
    try_each(&rt, rt.alloc(), SCHED, THREADS)
}

#[test]
fn timers_stop_once(rt: HostRuntime) -> Result<(), Fail> {
    try_each(&rt, rt.alloc(), TIMER, TIMERS)
}

#[test]
fn locks_stop_twice(rt: HostRuntime) -> Result<(), Fail> {
    try_each_two(&rt, rt.alloc(), LOCK, LOCKS)
}

#[test]
fn events_stop_twice(rt: HostRuntime) -> Result<(), Fail> {
    try_each_two(&rt, rt.alloc(), EVENT, EVENTS)
}
