// The longest inputs, texts and scripts, and longer ones.
use crate::answers::{NOTHING, answers, input_of, joined};
use sg_top::Status::{Done, Refused};
use sg_top::{
    Command, MOST_DIVIDER, MOST_INPUT, MOST_INTERFACE, MOST_SCRIPT, NoMemory, Shows, Status,
};
use std::alloc::{AllocError, Global};
use std::fmt::Write;
use std::test::Fail;
use test_interfaces::LOCK;

const TOO_LONG: &[u8] = b"input refused: TooLong\n";

const NO_DIVIDER: &[u8] = b"input refused: NoDivider\n";

// Bytes, and blanks after them up to this length.
fn padded(alloc: Global, bytes: &[u8], length: usize) -> Result<Vec<u8>, AllocError> {
    let mut padded = Vec::from_slice(alloc, bytes)?;
    for _ in bytes.len()..length {
        padded.push(b' ')?;
    }
    Ok(padded)
}

// An interface of so many bytes, a divider of 4, and so many blanks.
fn padded_input(alloc: Global, interface: usize, script: usize) -> Result<Vec<u8>, AllocError> {
    let text = padded(alloc, LOCK, interface.saturating_sub(1))?;
    let front = joined(alloc, &text, b"\n%%\r\n")?;
    padded(alloc, &front, front.len().saturating_add(script))
}

// Whether an input of these parts is of a length, and is played.
fn plays_padded(
    alloc: Global,
    interface: usize,
    script: usize,
    length: usize,
) -> Result<bool, NoMemory> {
    let input = padded_input(alloc, interface, script)?;
    Ok(input.len() == length && answers(alloc, "sim", &input, Done, NOTHING)?)
}

// Whether the interface of locks is accepted, with blanks up to this length.
fn accepts_padded(alloc: Global, length: usize) -> Result<bool, NoMemory> {
    let text = padded(alloc, LOCK, length)?;
    answers(alloc, "check", &text, Done, b"accepted lock\n")
}

#[test]
fn takes_the_longest_input(rt: HostRuntime) -> Result<(), Fail> {
    let alloc = rt.alloc();
    assert_eq!(rt; MOST_INPUT, MOST_INTERFACE + MOST_DIVIDER + MOST_SCRIPT);
    let play = Command::Play {
        shows: Shows::Report,
    };
    assert_eq!(rt; play.most_bytes(), 4_259_844);
    assert_eq!(rt; Command::Check.most_bytes(), 65_536);
    assert!(rt; plays_padded(alloc, 65_536, 4_194_304, 4_259_844)?);
    assert!(rt; accepts_padded(alloc, 65_536)?);
    Ok(())
}

// Whether an input of these parts is too long.
fn refuses_input(alloc: Global, interface: usize, script: usize) -> Result<bool, NoMemory> {
    let input = padded_input(alloc, interface, script)?;
    answers(alloc, "sim", &input, Refused, TOO_LONG)
}

// Whether a command refuses the interface of locks with this line, with blanks up to this length.
fn refuses_padded(
    alloc: Global,
    command: &str,
    length: usize,
    line: &[u8],
) -> Result<bool, NoMemory> {
    let input = padded(alloc, LOCK, length)?;
    answers(alloc, command, &input, Refused, line)
}

#[test]
fn refuses_longer_inputs(rt: HostRuntime) -> Result<(), Fail> {
    let alloc = rt.alloc();
    for (interface, script) in [(65_536, 4_194_305), (1_000, 4_194_305), (65_537, 0)] {
        assert!(rt;
            refuses_input(alloc, interface, script)?,
            "{interface} {script}"
        );
    }
    for (command, length, line) in [
        ("sim", 4_259_844, NO_DIVIDER),
        ("sim", 4_259_845, TOO_LONG),
        ("check", 65_537, TOO_LONG),
        ("compile", 65_537, TOO_LONG),
        ("check", 70_000, TOO_LONG),
    ] {
        assert!(rt;
            refuses_padded(alloc, command, length, line)?,
            "{command} {length}"
        );
    }
    Ok(())
}

// The input of a call so many times, each on a line of its own after the first.
fn input_of_calls(alloc: Global, call: &[u8], calls: usize) -> Result<Vec<u8>, AllocError> {
    let mut input = input_of(alloc, LOCK, b"client 1 {\n")?;
    for _ in 0..calls {
        input.extend_from_slice(call)?;
    }
    input.extend_from_slice(b"}\n")?;
    Ok(input)
}

// Whether a call so many times comes to this status and this output.
fn calls_come_to(
    alloc: Global,
    call: &[u8],
    calls: usize,
    status: Status,
    written: &[u8],
) -> Result<bool, NoMemory> {
    let input = input_of_calls(alloc, call, calls)?;
    answers(alloc, "sim", &input, status, written)
}

// The report of 65,536 calls that are refused.
fn report_of_most(alloc: Global) -> Result<String, Fail> {
    let mut report = String::new(alloc);
    for call in 1..65_537 {
        writeln!(report, "c1.{call} lock_free(1) = refused NoDesc")?;
    }
    report.push_str("client 1 done\ncalls 65536 boots 1 replays 0\n")?;
    Ok(report)
}

#[test]
fn takes_65536_calls(rt: HostRuntime) -> Result<(), Fail> {
    let alloc = rt.alloc();
    let call = b"lock_free(1);\n";
    let line = b"script refused at 65538:1: Limit\n";
    assert!(rt; calls_come_to(alloc, call, 65_537, Refused, line)?);
    let report = report_of_most(alloc)?;
    assert!(rt; calls_come_to(alloc, call, 65_536, Done, report.as_bytes())?);
    Ok(())
}

// The report of 1,025 locks, the last of which isn't made.
fn report_of_locks(alloc: Global) -> Result<String, Fail> {
    let mut report = String::new(alloc);
    for call in 1..1_025 {
        writeln!(report, "c1.{call} lock_alloc() = ok #{call}")?;
    }
    report.push_str("c1.1025 lock_alloc() = refused Full\n")?;
    report.push_str("client 1 done\ncalls 1025 boots 1 replays 0\n")?;
    Ok(report)
}

#[test]
fn refuses_the_1025th_lock(rt: HostRuntime) -> Result<(), Fail> {
    let alloc = rt.alloc();
    let report = report_of_locks(alloc)?;
    let call = b"lock_alloc();\n";
    assert!(rt; calls_come_to(alloc, call, 1_025, Done, report.as_bytes())?);
    Ok(())
}
