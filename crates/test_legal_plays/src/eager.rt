// Plays under interfaces that rebuild all descriptors before any call is served, with one stop at each point and with each two: where
// one client is alone the entries are those of the play without stops, and else they are judged legal.
use crate::judged::{Points, entries_of, input_of, plays_legally, printed};
use std::alloc::{AllocError, Global};
use std::process::Abort;
use std::test::Fail;
use test_interfaces::{EVENT, LOCK, MM, RAMFS, SCHED, in_version_2};

/// The last point of a stop alone.
const LAST: u32 = 60;

/// The last point of two stops.
const LAST_OF_TWO: u32 = 40;

// Scripts of client 1 alone.
const LOCKS: &str = "client 1 { lock_alloc(); lock_take($1); lock_release($1); lock_free($1); }";

const EVENTS: &str =
    "client 1 { evt_split(); evt_trigger($1, 5); evt_wait($1); evt_wait($1); evt_wait($1); }";

const RANKS: &str =
    "client 1 { sched_create_thd(5); sched_create_thd(5); sched_create_thd(5); sched_exit($1); sched_yield($2); sched_next(); }";

// Scripts of two clients.
const ALIAS: &str =
    "client 1 { mman_get_page(4096); } client 2 { mman_alias_page(1, 2, 8192); mman_release_page($1); } schedule 1 1 2 2;";

const SUBTREE: &str =
    "client 1 { mman_get_page(4096); mman_alias_page($1, 1, 8192); mman_alias_page($1, 1, 12288); mman_release_page($1); mman_release_page($2); mman_release_page($3); } client 2 { mman_find(1, 8192); } schedule 1 1 1 1 1 1 2 2 2 2 1 1;";

const WRITTEN: &str =
    "client 1 { tsplit(0, \"a\"); twrite($1, \"hello\"); tseek($1, 9); twrite($1, \"x\"); } client 2 { tsplit(0, \"a\"); tread($1, 16); } schedule 1 1 1 2 2 2 2 2 2;";

const HELD: &str =
    "client 1 { tsplit(0, \"a\"); tseek($1, 4); tread($1, 8); } client 2 { tread(1, 8); tsplit(0, \"b\"); } schedule 1 1 2 1 2 1;";

const ASLEEP: &str =
    "setup { sched_create_thd(3); } client 1 { sched_sleep(1); sched_wait(1); } client 2 { sched_wakeup(1); } schedule 1 1 1 2 2;";

// One stop at each point, and each two.
fn all_stops(alloc: Global) -> Result<Vec<Points>, AllocError> {
    let mut stops = Vec::new(alloc);
    for point in 1..=LAST {
        stops.push((point, 0))?;
    }
    for first in 1..LAST_OF_TWO {
        for second in first + 1..=LAST_OF_TWO {
            stops.push((first, second))?;
        }
    }
    Ok(stops)
}

// What is printed of a script.
fn played(alloc: Global, interface: &[u8], script: &str, stops: Points) -> Result<Vec<u8>, Fail> {
    Ok(printed(alloc, "sim", &input_of(alloc, interface, script, stops)?)?)
}

// A script of client 1 alone gets what it gets without stops, at each of these stops.
fn gets_the_same(
    rt: &impl Abort,
    alloc: Global,
    interface: &[u8],
    script: &str,
    all: &[Points],
) -> Result<(), Fail> {
    let eager = in_version_2(alloc, interface, "eager")?;
    let whole = played(alloc, &eager, script, (0, 0))?;
    for stops in all {
        let report = played(alloc, &eager, script, *stops)?;
        assert!(rt;
            entries_of(&report)? == entries_of(&whole)?,
            "{script} {stops:?}"
        );
    }
    Ok(())
}

// A script is played legally at each of these stops.
fn is_legal_at_each(
    rt: &impl Abort,
    alloc: Global,
    interface: &[u8],
    script: &str,
    all: &[Points],
) -> Result<(), Fail> {
    let eager = in_version_2(alloc, interface, "eager")?;
    for stops in all {
        assert!(rt;
            plays_legally(alloc, &eager, script, *stops)?,
            "{script} {stops:?}"
        );
    }
    Ok(())
}

#[test]
fn a_client_alone_gets_what_it_gets_without_stops(rt: HostRuntime) -> Result<(), Fail> {
    let all = all_stops(rt.alloc())?;
    for (interface, script) in [(LOCK, LOCKS), (EVENT, EVENTS), (SCHED, RANKS)] {
        gets_the_same(&rt, rt.alloc(), interface, script, &all)?;
    }
    Ok(())
}

#[test]
fn plays_of_several_clients_are_legal(rt: HostRuntime) -> Result<(), Fail> {
    let all = all_stops(rt.alloc())?;
    for (interface, script) in [
        (MM, ALIAS),
        (MM, SUBTREE),
        (RAMFS, WRITTEN),
        (RAMFS, HELD),
        (SCHED, ASLEEP),
    ] {
        is_legal_at_each(&rt, rt.alloc(), interface, script, &all)?;
    }
    Ok(())
}
