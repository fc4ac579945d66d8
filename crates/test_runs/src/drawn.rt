// Pictures of runs: what stands beside the lanes, how texts stand in a document, and how long one is.
use crate::runs::{input_of, played};
use sg_top::NoMemory;
use std::alloc::Global;
use std::process::Abort;
use std::sync::Wait;
use std::test::Fail;
use std::thread::Threads;
use test_interfaces::{LOCK, RAMFS};

// A lock is taken, the service stops, and another client wants the lock.
const STOPPED: &str =
    "setup { lock_alloc(); } client 1 { lock_take(1); lock_release(1); } client 2 { lock_take(1); lock_release(1); } schedule 1; stop 9;\n";

// What stands beside the lanes of its picture, line by line.
static TEXTS: [&str; 13] = [
    "A run of the service lock",
    "boot 1",
    "call c1.1 lock_alloc() replied = ok #1",
    "call c1.2 lock_take(1) replied = ok",
    "stop 9",
    "boot 2",
    "walk 1.1 for c2 by c1 lock_alloc() replied",
    "walk 1.2 for c1 by c1 lock_take(1) replied",
    "call c2.1 lock_take(1) blocked",
    "call c1.3 lock_release(1) replied = ok",
    "call c2.1 lock_take(1) replied = ok",
    "call c2.2 lock_release(1) replied = ok",
    "points 29",
];

// What stands beside the one lane of a run without calls.
static EMPTY: [&str; 3] = ["A run of the service lock", "boot 1", "points 0"];

// What stands at the end of each picture.
static LEGEND: [&str; 6] = [
    "a call of a client, at its client and at the service",
    "a call of a walk, which rebuilds a descriptor",
    "a file is loaded",
    "a client waits",
    "the service boots",
    "the service stops",
];

// How many columns the lane of the service takes, and that of a client.
const SERVICE_WIDTH: usize = 9;

const CLIENT_WIDTH: usize = 5;

// A file is made whose name has marks of a document, and what stands of its call in one.
const MARKED: &str = "client 1 { tsplit(0, \"<a&b>\"); }\n";

const ESCAPED: &str = ">call c1.1 tsplit(0, \"&lt;a&amp;b&gt;\") replied = ok #1<";

// How long the longest name is.
const MOST_NAME: u32 = 256;

// How often a lock is taken and released in a long run, and the most bytes of its picture.
const PAIRS: u32 = 2_500;

const MOST_BYTES: usize = 2_000_000;

// Whether each line of columns has one of these texts beside the lanes, in their order, and then the legend.
fn has_texts(columns: &str, width: usize, texts: &[&str]) -> bool {
    columns
        .lines()
        .map(|line| line.get(width..))
        .eq(texts.iter().chain(LEGEND.iter()).map(|text| Some(*text)))
}

fn try_columns<R: Threads + Wait + Sync + Abort>(
    rt: &R,
    alloc: Global,
    script: &str,
    clients: usize,
    texts: &[&str],
) -> Result<(), Fail> {
    let input = input_of(alloc, LOCK, script)?;
    let (status, printed) = played(rt, alloc, "draw text", &input)?;
    let width = CLIENT_WIDTH
        .saturating_mul(clients)
        .saturating_add(SERVICE_WIDTH);
    assert_eq!(rt; status, 0);
    assert!(rt; has_texts(str::from_utf8(&printed).unwrap_or(""), width, texts));
    Ok(())
}

#[test]
fn draws_columns(rt: HostRuntime) -> Result<(), Fail> {
    try_columns(&rt, rt.alloc(), STOPPED, 2, &TEXTS)
}

#[test]
fn draws_a_run_without_calls(rt: HostRuntime) -> Result<(), Fail> {
    try_columns(&rt, rt.alloc(), "", 0, &EMPTY)
}

// Whether the document of a run of files has a text.
fn draws<R: Threads + Wait + Sync>(
    rt: &R,
    alloc: Global,
    script: &str,
    text: &str,
) -> Result<bool, NoMemory> {
    let input = input_of(alloc, RAMFS, script)?;
    let (status, printed) = played(rt, alloc, "draw", &input)?;
    let document = str::from_utf8(&printed).unwrap_or("");
    Ok(status == 0 && document.split_once(text).is_some())
}

#[test]
fn escapes_marks_of_a_document(rt: HostRuntime) -> Result<(), Fail> {
    assert!(rt; draws(&rt, rt.alloc(), MARKED, ESCAPED)?);
    Ok(())
}

#[test]
fn draws_the_longest_name(rt: HostRuntime) -> Result<(), Fail> {
    let alloc = rt.alloc();
    let mut call = "tsplit(0, \"".to_string(alloc)?;
    for _letter in 0..MOST_NAME {
        call.push_str("a")?;
    }
    call.push_str("\")")?;
    let mut script = "client 1 { ".to_string(alloc)?;
    script.push_str(&call)?;
    script.push_str("; }\n")?;
    assert!(rt; draws(&rt, alloc, &script, &call)?);
    Ok(())
}

// A script of one client that takes a lock and releases it, again and again.
fn long_script(alloc: Global) -> Result<String, Fail> {
    let mut script = "client 1 { lock_alloc();".to_string(alloc)?;
    for _pair in 0..PAIRS {
        script.push_str(" lock_take($1); lock_release($1);")?;
    }
    script.push_str(" }\n")?;
    Ok(script)
}

fn try_document<R: Threads + Wait + Sync + Abort>(rt: &R, alloc: Global) -> Result<(), Fail> {
    let input = input_of(alloc, LOCK, &long_script(alloc)?)?;
    let (status, printed) = played(rt, alloc, "draw", &input)?;
    assert_eq!(rt; status, 0);
    assert!(rt; printed.starts_with(b"<svg ") && printed.ends_with(b"</svg>\n"));
    assert!(rt; printed.len() < MOST_BYTES, "{}", printed.len());
    Ok(())
}

#[test]
fn draws_a_long_run(rt: HostRuntime) -> Result<(), Fail> {
    try_document(&rt, rt.alloc())
}
