// The lines of loads, and words that are no load.
use sg_top::{MemSink, MemSource, NoMemory, serial};
use std::alloc::Global;
use std::process::Abort;
use std::test::Fail;

// A load's words, and its line.
type Load = (&'static str, &'static str);

// The counts of replays are those of two other programs.
static LOADS: [Load; 12] = [
    (
        "load lock 0",
        "load lock 0: calls 20000 boots 33 replays 586 blocked 0\n",
    ),
    (
        "load lock 7",
        "load lock 7: calls 20000 boots 33 replays 579 blocked 0\n",
    ),
    (
        "load event 0",
        "load event 0: calls 20000 boots 33 replays 565 blocked 0\n",
    ),
    (
        "load event 7",
        "load event 7: calls 20000 boots 33 replays 594 blocked 0\n",
    ),
    (
        "load mm 0",
        "load mm 0: calls 20000 boots 33 replays 303 blocked 0\n",
    ),
    (
        "load mm 7",
        "load mm 7: calls 20000 boots 33 replays 281 blocked 0\n",
    ),
    (
        "load ramfs 0",
        "load ramfs 0: calls 20000 boots 33 replays 375 blocked 0\n",
    ),
    (
        "load ramfs 7",
        "load ramfs 7: calls 20000 boots 33 replays 358 blocked 0\n",
    ),
    (
        "load sched 0",
        "load sched 0: calls 20000 boots 33 replays 422 blocked 0\n",
    ),
    (
        "load sched 7",
        "load sched 7: calls 20000 boots 33 replays 453 blocked 0\n",
    ),
    (
        "load timer 0",
        "load timer 0: calls 20000 boots 33 replays 575 blocked 0\n",
    ),
    (
        "load timer 7",
        "load timer 7: calls 20000 boots 33 replays 537 blocked 0\n",
    ),
];

// What words come to: the number of the status, and what is printed. Nothing may be read: the first read fails.
fn printed(alloc: Global, words: &str) -> Result<(u8, Vec<u8>), NoMemory> {
    let mut list = Vec::new(alloc);
    for word in words.split_whitespace() {
        list.push(word.to_string(alloc)?)?;
    }
    let mut source = MemSource::new(alloc, b"", 1, &[1])?;
    let mut sink = MemSink::new(alloc, 7, &[])?;
    let answer = serial(alloc, &list, &mut source, &mut sink);
    Ok((
        answer.status.number(),
        Vec::from_slice(alloc, sink.written())?,
    ))
}

// Whether words come to a line.
fn prints(alloc: Global, words: &str, line: &str) -> Result<bool, NoMemory> {
    let (number, text) = printed(alloc, words)?;
    Ok(number == 0 && text.as_slice() == line.as_bytes())
}

// Each load prints its line, twice.
fn try_each(rt: &impl Abort, alloc: Global, loads: &[Load]) -> Result<(), Fail> {
    for (words, line) in loads {
        assert!(rt; prints(alloc, words, line)?, "{words}");
        assert!(rt; prints(alloc, words, line)?, "{words}");
    }
    Ok(())
}

#[test]
fn plays_the_loads_of_0_and_7(rt: HostRuntime) -> Result<(), Fail> {
    try_each(&rt, rt.alloc(), &LOADS)
}

#[test]
fn takes_zeros_before_a_number(rt: HostRuntime) -> Result<(), Fail> {
    let line = "load lock 7: calls 20000 boots 33 replays 579 blocked 0\n";
    assert!(rt; prints(rt.alloc(), "load lock 0000000000000000000000007", line)?);
    Ok(())
}

#[test]
fn takes_the_greatest_number(rt: HostRuntime) -> Result<(), Fail> {
    let (number, text) = printed(rt.alloc(), "load sched 18446744073709551615")?;
    let text = str::from_utf8(&text).unwrap_or("");
    assert_eq!(rt; number, 0);
    assert!(rt; text.starts_with("load sched 18446744073709551615: calls 20000 boots 33 replays "));
    Ok(())
}

static OTHER_WORDS: [&str; 9] = [
    "load",
    "load lock",
    "load lock -1",
    "load lock +1",
    "load lock 1x",
    "load lock 18446744073709551616",
    "load locks 1",
    "load lock 1 1",
    "loads lock 1",
];

#[test]
fn plays_no_other_words(rt: HostRuntime) -> Result<(), Fail> {
    for words in &OTHER_WORDS {
        let (number, text) = printed(rt.alloc(), words)?;
        assert!(rt; number == 1 && text.is_empty(), "{words}");
    }
    Ok(())
}
