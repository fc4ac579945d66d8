// What plays print is a legal history, and it isn't with one reply changed.
use crate::asking::{ask, ask_threads, is_said};
use sg_top::Status::{Done, Illegal};
use std::alloc::{AllocError, Global};
use std::process::Abort;
use std::test::Fail;
use test_interfaces::{EVENT, LOCK, MM, RAMFS, SCHED};

// Scripts with stops in calls and in walks, clients that wait, files, subtrees and ranks.
static LOCKS: [&[u8]; 7] = [
    b"client 1 { lock_alloc(); lock_take($1); lock_release($1); lock_free($1); }",
    b"",
    b"setup { lock_alloc(); } client 1 { lock_take(1); lock_release(1); } client 2 { lock_take(1); lock_release(1); } schedule 1 2 1 1;",
    b"setup { lock_alloc(); } client 1 { lock_take(1); } client 2 { lock_take(1); } schedule 1 2;",
    b"client 1 { lock_alloc(); lock_take($1); lock_release($1); lock_free($1); } stop 9;",
    b"client 1 { lock_alloc(); lock_take($1); lock_release($1); lock_free($1); } stop 8;",
    b"client 1 { lock_alloc(); lock_take($1); lock_release($1); lock_free($1); } stop 9 15;",
];

static EVENTS: [&[u8]; 4] = [
    b"setup { evt_split(); } client 1 { evt_trigger(1, 1); } client 2 { evt_wait(1); evt_wait(1); } schedule 1 2 2 2 2 2 1; stop 9;",
    b"client 1 { evt_split(); evt_trigger($1, 5); evt_wait($1); evt_wait($1); evt_wait($1); } stop 18;",
    b"setup { evt_split(); } client 1 { evt_trigger(1, 1); } client 2 { evt_wait(1); } schedule 2 1 1; stop 7;",
    b"client 1 { evt_split(); evt_wait($1); }",
];

static PAGES: [&[u8]; 3] = [
    b"client 1 { mman_get_page(4096); } client 2 { mman_alias_page(1, 2, 8192); mman_release_page($1); } schedule 1 1 2 2; stop 12;",
    b"client 1 { mman_get_page(4096); mman_get_page(4096); } stop 6;",
    b"client 1 { mman_get_page(4096); mman_alias_page($1, 1, 8192); mman_alias_page($1, 1, 12288); mman_release_page($1); mman_release_page($2); mman_release_page($3); } client 2 { mman_find(1, 8192); } schedule 1 1 1 1 1 1 2 2 2 2 1 1; stop 18;",
];

static FILES: [&[u8]; 3] = [
    b"client 1 { tsplit(0, \"a\"); twrite($1, \"hello\"); tseek($1, 9); twrite($1, \"x\"); } client 2 { tsplit(0, \"a\"); tread($1, 16); } schedule 1 1 1 2 2 2 2 2 2; stop 10;",
    b"client 1 { tsplit(0, \"a\"); tseek($1, 4); tread($1, 8); } client 2 { tread(1, 8); tsplit(0, \"b\"); } schedule 1 1 2 1 2 1; stop 9;",
    b"client 1 { tsplit(0, \"\"); tsplit(0, \"a\"); twrite($2, \"q r\"); tseek($2, 0); tread($2, 2); }",
];

static THREADS: [&[u8]; 2] = [
    b"client 1 { sched_create_thd(5); sched_create_thd(5); sched_create_thd(5); sched_exit($1); sched_yield($2); sched_next(); } stop 24;",
    b"setup { sched_create_thd(3); } client 1 { sched_sleep(1); sched_wait(1); } client 2 { sched_wakeup(1); } schedule 1 1 1 2 2; stop 11;",
];

// How many entries' lines a printed run begins with.
fn entries_of(run: &str) -> usize {
    run.lines()
        .take_while(|line| line.starts_with("c1") || line.starts_with("c2"))
        .count()
}

// What plays of these scripts print is legal, with and without a trace.
fn try_plays(
    rt: &impl Abort,
    alloc: Global,
    interface: &[u8],
    scripts: &[&[u8]],
) -> Result<(), Fail> {
    for script in scripts {
        for words in ["sim", "sim trace"] {
            let run = ask(alloc, words, interface, script)?.1;
            let count = entries_of(str::from_utf8(&run).unwrap_or(""));
            let line = format!(in alloc; "legal {count}\n")?;
            assert!(rt; is_said(alloc, interface, &run, Done, &line)?, "{script:?}");
        }
    }
    Ok(())
}

#[test]
fn finds_plays_legal(rt: HostRuntime) -> Result<(), Fail> {
    let alloc = rt.alloc();
    try_plays(&rt, alloc, LOCK, &LOCKS)?;
    try_plays(&rt, alloc, EVENT, &EVENTS)?;
    try_plays(&rt, alloc, MM, &PAGES)?;
    try_plays(&rt, alloc, RAMFS, &FILES)?;
    try_plays(&rt, alloc, SCHED, &THREADS)
}

// With a thread for each client the entries stand in whatever order the threads came.
#[test]
fn finds_threads_legal(rt: HostRuntime) -> Result<(), Fail> {
    let alloc = rt.alloc();
    for (interface, script, line) in [
        (LOCK, LOCKS[0], "legal 4\n"),
        (LOCK, LOCKS[2], "legal 5\n"),
        (EVENT, EVENTS[3], "legal 1\n"),
    ] {
        for words in ["run", "run trace"] {
            let run = ask_threads(&rt, alloc, words, interface, script)?;
            assert!(rt; is_said(alloc, interface, &run, Done, line)?, "{script:?}");
        }
    }
    Ok(())
}

// Answers of every form, and each refusal.
static ANSWERS: [&str; 22] = [
    "ok",
    "ok #1",
    "ok #2",
    "ok #3 1",
    "ok 0",
    "ok 1",
    "ok 2",
    "ok 4096",
    "ok 1 2 3 4",
    "refused NoDesc",
    "refused NoParent",
    "refused BadState",
    "refused HasChildren",
    "refused Full",
    "refused NotOwner",
    "refused Held",
    "refused Occupied",
    "refused NotFound",
    "refused Overflow",
    "refused Gap",
    "refused TooBig",
    "refused BadName",
];

// An entry's line with another answer; an Ok of a read has bytes too.
fn answered(alloc: Global, line: &str, answer: &str) -> Result<String, AllocError> {
    let call = line.split_once(" = ").unwrap_or((line, "")).0;
    let bytes = if line.contains("tread") && answer.starts_with("ok") {
        " \"\""
    } else {
        ""
    };
    format!(in alloc; "{call} = {answer}{bytes}")
}

// A printed run with another answer in the line of this number, from 0.
fn changed(alloc: Global, run: &str, place: usize, answer: &str) -> Result<String, AllocError> {
    let mut text = String::new(alloc);
    for (number, line) in run.lines().enumerate() {
        if number == place {
            text.push_str(answered(alloc, line, answer)?.as_str())?;
        } else {
            text.push_str(line)?;
        }
        text.push_str("\n")?;
    }
    Ok(text)
}

// Whether each other answer in the line of this number, from 0, is found, and the answer that belongs there is told.
fn finds_changes(alloc: Global, interface: &[u8], run: &str, place: usize) -> Result<bool, Fail> {
    let line = run.lines().nth(place).unwrap_or("");
    let told = line.split_once(" = ").unwrap_or(("", "")).1;
    let entry = place.saturating_add(1);
    let wanted = format!(in alloc; "illegal at entry {entry}: {told}\n")?;
    for answer in &ANSWERS {
        let other = changed(alloc, run, place, answer)?;
        if other.as_str() != run
            && !is_said(alloc, interface, other.as_bytes(), Illegal, &wanted)?
        {
            return Ok(false);
        }
    }
    Ok(true)
}

// Each other reply in what plays of these scripts print is found.
fn try_changes(
    rt: &impl Abort,
    alloc: Global,
    interface: &[u8],
    scripts: &[&[u8]],
) -> Result<(), Fail> {
    for script in scripts {
        let run = ask(alloc, "sim", interface, script)?.1;
        let run = str::from_utf8(&run).unwrap_or("");
        for place in 0..entries_of(run) {
            assert!(rt;
                finds_changes(alloc, interface, run, place)?,
                "{script:?} {place}"
            );
        }
    }
    Ok(())
}

#[test]
fn finds_changed_replies(rt: HostRuntime) -> Result<(), Fail> {
    let alloc = rt.alloc();
    // the plays of locks after these print what the first does
    try_changes(&rt, alloc, LOCK, &LOCKS[..4])?;
    try_changes(&rt, alloc, EVENT, &EVENTS)?;
    try_changes(&rt, alloc, MM, &PAGES)?;
    try_changes(&rt, alloc, RAMFS, &FILES)?;
    try_changes(&rt, alloc, SCHED, &THREADS)
}
