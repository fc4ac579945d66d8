// Plays with a thread for each of 8 clients and two stops, 200 of each service: each is judged legal.
use crate::judged::{is_legal, shared};
use std::alloc::Global;
use std::process::Abort;
use std::sync::Wait;
use std::test::Fail;
use std::thread::Threads;
use test_interfaces::{EVENT, LOCK, MM, RAMFS, SCHED};

/// The number of clients of each play.
const CLIENTS: u8 = 8;

/// The number of plays of each service.
const ROUNDS: u32 = 200;

// The calls of the setup, and those of each client.
type Calls = (&'static str, &'static str);

/// The clients take two locks, one after the other.
const LOCKS: Calls = (
    "lock_alloc(); lock_alloc();",
    "lock_take(1); lock_release(1); lock_take(2); lock_release(2);",
);

/// The clients trigger two events, and wait for them.
const EVENTS: Calls = (
    "evt_split(); evt_split();",
    "evt_trigger(1, 1); evt_wait(1); evt_trigger(2, 1); evt_wait(2);",
);

/// The clients alias pages of their own at one place of client 1, and find there what stands there.
const PAGES: Calls = (
    "mman_get_page(16384);",
    "mman_get_page(4096); mman_alias_page($1, 1, 8192); mman_find(1, 8192); mman_release_page($1);",
);

/// The clients write and read one file.
const FILES: Calls = (
    "tsplit(0, \"a\");",
    "tsplit(0, \"a\"); twrite($1, \"hello\"); tseek($1, 3); tread($1, 16); trelease($1);",
);

/// The clients put threads to sleep, and wake them.
const THREADS: Calls = (
    "sched_create_thd(5);",
    "sched_create_thd(3); sched_sleep($1); sched_wakeup($1); sched_yield($1); sched_next();",
);

// The script of a round: each client makes the same calls, and the service stops at two points.
fn script_of(alloc: Global, calls: Calls, round: u32) -> Result<String, Fail> {
    let (setup, body) = calls;
    let mut text = format!(in alloc; "setup {{ {setup} }}")?;
    for client in 1..=CLIENTS {
        text.push_str(&format!(in alloc; " client {client} {{ {body} }}")?)?;
    }
    let first = round % 97 + 1;
    let second = first + round % 41 + 1;
    text.push_str(&format!(in alloc; " stop {first} {second};\n")?)?;
    Ok(text)
}

// Whether the play of a round is judged legal.
fn plays_legally<R: Threads + Wait + Sync>(
    rt: &R,
    alloc: Global,
    interface: &[u8],
    calls: Calls,
    round: u32,
) -> Result<bool, Fail> {
    let script = script_of(alloc, calls, round)?;
    let mut input = Vec::from_slice(alloc, interface)?;
    input.extend_from_slice(b"%%\n")?;
    input.extend_from_slice(script.as_bytes())?;
    Ok(is_legal(alloc, interface, &shared(rt, alloc, &input)?)?)
}

// The play of each round is.
fn try_all<R: Threads + Wait + Sync + Abort>(
    rt: &R,
    alloc: Global,
    interface: &[u8],
    calls: Calls,
) -> Result<(), Fail> {
    for round in 0..ROUNDS {
        assert!(rt;
            plays_legally(rt, alloc, interface, calls, round)?,
            "round {round}"
        );
    }
    Ok(())
}

#[test]
fn locks_are_legal(rt: HostRuntime) -> Result<(), Fail> {
    try_all(&rt, rt.alloc(), LOCK, LOCKS)
}

#[test]
fn events_are_legal(rt: HostRuntime) -> Result<(), Fail> {
    try_all(&rt, rt.alloc(), EVENT, EVENTS)
}

#[test]
fn pages_are_legal(rt: HostRuntime) -> Result<(), Fail> {
    try_all(&rt, rt.alloc(), MM, PAGES)
}

#[test]
fn files_are_legal(rt: HostRuntime) -> Result<(), Fail> {
    try_all(&rt, rt.alloc(), RAMFS, FILES)
}

#[test]
fn threads_are_legal(rt: HostRuntime) -> Result<(), Fail> {
    try_all(&rt, rt.alloc(), SCHED, THREADS)
}
