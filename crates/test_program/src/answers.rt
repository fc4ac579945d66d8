// What commands answer: tables of inputs, statuses and outputs. No clause says that an input is played where there is memory.
use sg_top::Status::{Done, ReadFault, Refused, Waits, WriteFault};
use sg_top::{Answer, Ended, MemSink, MemSource, NoMemory, Status, serial};
use std::alloc::{AllocError, Global};
use std::process::Abort;
use std::test::Fail;
use test_interfaces::{EVENT, LOCK, MM, RAMFS, SCHED};

/// What stands after a text in an input, and the status and the output that the input comes to.
pub type Case = (&'static [u8], Status, &'static [u8]);

/// The line that divides an input.
pub const DIVIDER: &[u8] = b"%%\n";

/// The report of a script without calls.
pub const NOTHING: &[u8] = b"calls 0 boots 1 replays 0\n";

/// A script of each call on locks, and its report.
pub const SCRIPT: &[u8] =
    b"client 1 { lock_alloc(); lock_take($1); lock_release($1); lock_free($1); }\n";

pub const REPORT: &[u8] = b"c1.1 lock_alloc() = ok #1
c1.2 lock_take(1) = ok
c1.3 lock_release(1) = ok
c1.4 lock_free(1) = ok
client 1 done
calls 4 boots 1 replays 0
";

const NO_DIVIDER: &[u8] = b"input refused: NoDivider\n";

// The report of one lock that is made.
const ONE_LOCK: &[u8] = b"c1.1 lock_alloc() = ok #1\nclient 1 done\ncalls 1 boots 1 replays 0\n";

const ACCEPTED: &[u8] = b"accepted lock\n";

/// Bytes after others.
pub fn joined(alloc: Global, front: &[u8], back: &[u8]) -> Result<Vec<u8>, AllocError> {
    let mut bytes = Vec::from_slice(alloc, front)?;
    bytes.extend_from_slice(back)?;
    Ok(bytes)
}

/// An input: an interface, the divider, and a script.
pub fn input_of(alloc: Global, interface: &[u8], script: &[u8]) -> Result<Vec<u8>, AllocError> {
    let front = joined(alloc, interface, DIVIDER)?;
    joined(alloc, &front, script)
}

/// The words that aren't empty.
pub fn words_of(alloc: Global, texts: &[&str]) -> Result<Vec<String>, AllocError> {
    let mut words = Vec::new(alloc);
    for text in texts {
        if !text.is_empty() {
            words.push(text.to_string(alloc)?)?;
        }
    }
    Ok(words)
}

/// How many entries, boots and clients a run has.
pub type Sizes = (usize, usize, usize);

// The sizes of a run.
fn sizes_of(ended: &Ended) -> Sizes {
    (
        ended.history.len(),
        ended.trace.boots.len(),
        ended.ends.len(),
    )
}

/// What is looked at of an answer: its status, and the sizes of its run, if it has one. The answer is dropped here alone.
pub fn said(answer: Answer) -> (Status, Option<Sizes>) {
    let sizes = match answer.ended() {
        Some(played) => Some(sizes_of(played.ended())),
        None => None,
    };
    (answer.status, sizes)
}

// A command, and the numbers of the read and the write that fail, from 1; 0 for none.
type Ask<'a> = (&'a str, u32, u32);

// Whether an input comes to this status and this output, and there is a run just where a play came to its end.
fn comes_to(
    alloc: Global,
    ask: Ask,
    input: &[u8],
    status: Status,
    written: &[u8],
) -> Result<bool, NoMemory> {
    let (command, read, write) = ask;
    let words = words_of(alloc, &[command])?;
    let mut source = MemSource::new(alloc, input, 400, &[read])?;
    let mut sink = MemSink::new(alloc, 10, &[write])?;
    let (given, run) = said(serial(alloc, &words, &mut source, &mut sink));
    let ran = command == "sim" && matches!(status, Done | Waits | WriteFault);
    Ok(given == status && run.is_some() == ran && sink.written() == written)
}

/// Whether an input comes to this status and this output by a command whose reads and writes don't fail.
pub fn answers(
    alloc: Global,
    command: &str,
    input: &[u8],
    status: Status,
    written: &[u8],
) -> Result<bool, NoMemory> {
    comes_to(alloc, (command, 0, 0), input, status, written)
}

// Whether a case after this text comes to its status and its output.
fn answers_after(alloc: Global, command: &str, text: &[u8], case: &Case) -> Result<bool, NoMemory> {
    let (after, status, written) = case;
    let input = joined(alloc, text, after)?;
    answers(alloc, command, &input, *status, written)
}

// Each case after this text comes to its status and its output.
fn try_each(
    rt: &impl Abort,
    alloc: Global,
    command: &str,
    text: &[u8],
    cases: &[Case],
) -> Result<(), NoMemory> {
    for case in cases {
        let (after, _, _) = case;
        assert!(rt;
            answers_after(alloc, command, text, case)?,
            "{command} {after:?}"
        );
    }
    Ok(())
}

// After the interface of locks and the divider.
static SCRIPTS: [Case; 31] = [
    // one script in several spellings
    (
        b"client 1{lock_alloc();lock_take($1);lock_release($1);lock_free($1);}",
        Done,
        REPORT,
    ),
    (
        b"client\t1\r\n{\r\n lock_alloc ( ) ;\r\n lock_take($ 1);lock_release($1); lock_free($1);}\r\n",
        Done,
        REPORT,
    ),
    (
        b"/* of */client/**/1{// one\nlock_alloc();lock_take($1)/*;*/;lock_release($1);lock_free($1);}//",
        Done,
        REPORT,
    ),
    (
        b"client 01 { lock_alloc(); lock_take(1); lock_release($001); lock_free(0001); }",
        Done,
        REPORT,
    ),
    (
        b"schedule; stop ;\nclient 1 { lock_alloc(); lock_take(1); lock_release(1); lock_free(1); } setup { }",
        Done,
        REPORT,
    ),
    (
        b"client 1 { lock_alloc(); lock_take(1);\n/*\n%%\n*/\nlock_release(1); lock_free(1); }",
        Done,
        REPORT,
    ),
    // scripts without calls
    (b"", Done, NOTHING),
    (b"// client 1 { lock_alloc(); }", Done, NOTHING),
    (b"stop; client 1{} schedule; setup{}", Done, NOTHING),
    // calls that are refused
    (
        b"client 1 { lock_free(9); lock_take($1); lock_alloc(); lock_release($3); }\n",
        Done,
        b"c1.1 lock_free(9) = refused NoDesc
c1.2 lock_take(0) = refused NoDesc
c1.3 lock_alloc() = ok #1
c1.4 lock_release(1) = refused BadState
client 1 done
calls 4 boots 1 replays 0
",
    ),
    (
        b"client 1 { lock_free(18446744073709551615); }\n",
        Done,
        b"c1.1 lock_free(18446744073709551615) = refused NoDesc
client 1 done
calls 1 boots 1 replays 0
",
    ),
    // setups, turns, stops that aren't reached, and parts without calls
    (b"setup { lock_alloc(); }", Done, ONE_LOCK),
    (
        b"client 1 { lock_free($1); } setup { lock_alloc(); }",
        Done,
        b"c1.1 lock_alloc() = ok #1
c1.2 lock_free(1) = ok
client 1 done
calls 2 boots 1 replays 0
",
    ),
    (b"schedule 64;", Done, NOTHING),
    (b"client 1 { lock_alloc(); } stop 9;", Done, ONE_LOCK),
    (b"client 2 { }", Done, NOTHING),
    (b"client 1 { lock_alloc(); } client 2 { }", Done, ONE_LOCK),
    // a client that waits at the end
    (
        b"setup { lock_alloc(); } client 1 { lock_take(1); } client 64 { lock_take(1); lock_free(1); }",
        Waits,
        b"c1.1 lock_alloc() = ok #1
c64.1 lock_take(1) = ok
c64.2 lock_free(1) = refused Held
client 1 blocked lock_take(1)
client 64 done
calls 3 boots 1 replays 0
",
    ),
    // what is no script, and each kind of flaw, with its line and the byte in the line
    (b"%%\n", Refused, b"script refused at 1:1: Syntax\n"),
    (b"\n%%", Refused, b"script refused at 2:1: Syntax\n"),
    (
        b"client 1 { lock_alloc(); }\n\n \0",
        Refused,
        b"script refused at 3:2: Syntax\n",
    ),
    (
        b"client 65 { } setup { lock_take(1); } x",
        Refused,
        b"script refused at 1:39: Syntax\n",
    ),
    (
        b"client 1 { lock_free(1); lock_steal(); }",
        Refused,
        b"script refused at 1:26: UnknownFunction\n",
    ),
    (
        b"\r\n\r\nclient 1 {\r\n\tlock_free(1, 2);\r\n}",
        Refused,
        b"script refused at 4:2: BadArgs\n",
    ),
    (
        b"client 65 { lock_steal(); }",
        Refused,
        b"script refused at 1:8: BadClient\n",
    ),
    (
        b"client 1 { } client 01 { }",
        Refused,
        b"script refused at 1:14: Twice\n",
    ),
    (
        b"setup { } stop 5 5; client 65 { }",
        Refused,
        b"script refused at 1:18: NotAscending\n",
    ),
    (
        b"setup { lock_take(1); }",
        Refused,
        b"script refused at 1:9: Blocking\n",
    ),
    (
        b"client 1 { lock_free(18446744073709551616); }",
        Refused,
        b"script refused at 1:22: Limit\n",
    ),
    (
        b"stop 18446744073709551616;",
        Refused,
        b"script refused at 1:6: Limit\n",
    ),
    (
        b"client 2 { lock_take($1); } setup { lock_alloc(); }",
        Refused,
        b"script refused at 1:12: BadArgs\n",
    ),
];

// After the interface of locks.
static DIVIDED: [Case; 9] = [
    (
        b"%%\r\nclient 1 { lock_alloc(); lock_take(1); lock_release(1); lock_free(1); }",
        Done,
        REPORT,
    ),
    (b"\r\n%%\r\n", Done, NOTHING),
    (b"%%", Done, NOTHING),
    (b"/*\n%%\n*/", Refused, b"interface refused at 26:1: Lex\n"),
    (b"%%\r", Refused, NO_DIVIDER),
    (b"%% \n", Refused, NO_DIVIDER),
    (b" %%\n", Refused, NO_DIVIDER),
    (b"//%%\n", Refused, NO_DIVIDER),
    (b"", Refused, NO_DIVIDER),
];

// Whole inputs, and the first reason why each is refused.
static REFUSED_FIRST: [Case; 5] = [
    (b"x", Refused, NO_DIVIDER),
    (b"%%\n", Refused, b"interface refused at 1:1: Syntax\n"),
    (b"%%\nx", Refused, b"interface refused at 1:1: Syntax\n"),
    (
        b"service_global_info = {\n%%\nsetup { } stop 5 5;",
        Refused,
        b"interface refused at 2:1: Syntax\n",
    ),
    (
        b"service_global_info = #\n%%\nstop 1;",
        Refused,
        b"interface refused at 1:23: Lex\n",
    ),
];

// Each script under an interface comes to its status and its output.
fn try_scripts(
    rt: &impl Abort,
    alloc: Global,
    interface: &[u8],
    cases: &[Case],
) -> Result<(), NoMemory> {
    let front = joined(alloc, interface, DIVIDER)?;
    try_each(rt, alloc, "sim", &front, cases)
}

#[test]
fn plays_inputs(rt: HostRuntime) -> Result<(), Fail> {
    let alloc = rt.alloc();
    try_scripts(&rt, alloc, LOCK, &SCRIPTS)?;
    try_each(&rt, alloc, "sim", LOCK, &DIVIDED)?;
    try_each(&rt, alloc, "sim", b"", &REFUSED_FIRST)?;
    Ok(())
}

// Whole texts that are refused, whatever is asked of them.
static TEXTS: [Case; 3] = [
    (b"", Refused, b"interface refused at 1:1: Syntax\n"),
    (
        b"service_global_info = #",
        Refused,
        b"interface refused at 1:23: Lex\n",
    ),
    (
        b"service_global_info =\n",
        Refused,
        b"interface refused at 2:1: Syntax\n",
    ),
];

// The beginning of the interface of locks, for a service that there isn't.
const DOOR: &[u8] = b"service_global_info = {\n    service = door";

// After the interface of locks, where `check` reads the text.
static CHECKED: [Case; 2] = [
    (b"", Done, ACCEPTED),
    (b"%%\n", Refused, b"interface refused at 26:1: Lex\n"),
];

// A word, and what the text of locks comes to without the lines in which the word stands.
static NARROWER: [Case; 3] = [
    (b"lock_free", Done, ACCEPTED),
    (
        b"sm_recover",
        Refused,
        b"interface refused at 21:5: NoWalk\n",
    ),
    (
        b"sm_wakeup",
        Refused,
        b"interface refused at 22:5: WrongFlag\n",
    ),
];

// After the interface of locks without `lock_free`, and the divider.
static NARROWER_SCRIPTS: [Case; 2] = [
    (
        b"client 1 { lock_free(1); }",
        Refused,
        b"script refused at 1:12: UnknownFunction\n",
    ),
    (
        b"client 1 { lock_alloc(); }",
        Done,
        b"c1.1 lock_alloc() = ok #1\nclient 1 done\ncalls 1 boots 1 replays 0\n",
    ),
];

// The interface of locks without the lines in which a word stands.
fn text_without(alloc: Global, word: &[u8]) -> Result<Vec<u8>, AllocError> {
    let word = str::from_utf8(word).unwrap_or("");
    let mut text = String::new(alloc);
    for line in str::from_utf8(LOCK).unwrap_or("").lines() {
        if !line.contains(word) {
            text.push_str(line)?;
            text.push_str("\n")?;
        }
    }
    Ok(text.into_bytes())
}

// Whether the text of locks without the lines in which a word stands comes to its status and its output.
fn answers_without(alloc: Global, case: &Case) -> Result<bool, NoMemory> {
    let (word, status, written) = case;
    let text = text_without(alloc, word)?;
    answers(alloc, "check", &text, *status, written)
}

// Whether no service is known by another name.
fn is_door_unknown(alloc: Global) -> Result<bool, NoMemory> {
    let door = joined(alloc, DOOR, LOCK.get(DOOR.len()..).unwrap_or(b""))?;
    let line = b"interface refused at 2:15: UnknownService\n";
    answers(alloc, "check", &door, Refused, line)
}

// Scripts under the interface of locks without `lock_free`.
fn try_narrower(rt: &impl Abort, alloc: Global) -> Result<(), NoMemory> {
    let text = text_without(alloc, b"lock_free")?;
    try_scripts(rt, alloc, &text, &NARROWER_SCRIPTS)
}

#[test]
fn checks_texts(rt: HostRuntime) -> Result<(), Fail> {
    let alloc = rt.alloc();
    try_each(&rt, alloc, "check", b"", &TEXTS)?;
    try_each(&rt, alloc, "compile", b"", &TEXTS)?;
    try_each(&rt, alloc, "check", LOCK, &CHECKED)?;
    for case in &NARROWER {
        let (word, _, _) = case;
        assert!(rt; answers_without(alloc, case)?, "{word:?}");
    }
    assert!(rt; is_door_unknown(alloc)?);
    try_narrower(&rt, alloc)?;
    Ok(())
}

const TABLES: &[u8] = b"service lock
facts parent=none close=refuse global=true block=true desc_data=true resc_data=false
fun 1 lock_alloc creation -> lock_alloc
fun 2 lock_take desc block -> lock_take owner=caller
fun 3 lock_release desc wakeup -> lock_alloc owner=0
fun 4 lock_free desc terminal -> end
move lock_alloc lock_take
move lock_alloc lock_free
move lock_take lock_take
move lock_take lock_release
move lock_take lock_free
step lock_alloc lock_take
walk lock_alloc lock_alloc - : lock_alloc
walk lock_alloc lock_take owner : lock_alloc lock_take
";

const EVENT_TABLES: &[u8] = b"service event
facts parent=none close=refuse global=true block=true desc_data=true resc_data=false
fun 1 evt_split creation -> evt_split
fun 2 evt_wait desc block -> same count-1
fun 3 evt_trigger desc word wakeup -> same count+arg2
fun 4 evt_free desc terminal -> end
move evt_split evt_wait
move evt_split evt_trigger
move evt_split evt_free
step evt_split evt_trigger
walk evt_split evt_split - : evt_split
walk evt_split evt_split count : evt_split evt_trigger
";

// Whether a text is accepted with this line, and a script without calls is played under it.
fn is_known(alloc: Global, text: &[u8], line: &[u8]) -> Result<bool, NoMemory> {
    let input = joined(alloc, text, DIVIDER)?;
    Ok(answers(alloc, "check", text, Done, line)? && answers(alloc, "sim", &input, Done, NOTHING)?)
}

// Whether a call that isn't one of events is refused.
fn is_steal_unknown(alloc: Global) -> Result<bool, NoMemory> {
    let input = input_of(alloc, EVENT, b"client 1 { evt_steal(); }")?;
    let line = b"script refused at 1:12: UnknownFunction\n";
    answers(alloc, "sim", &input, Refused, line)
}

#[test]
fn knows_every_service(rt: HostRuntime) -> Result<(), Fail> {
    let alloc = rt.alloc();
    let others: [(&[u8], &[u8]); 4] = [
        (EVENT, b"accepted event\n"),
        (MM, b"accepted mm\n"),
        (RAMFS, b"accepted ramfs\n"),
        (SCHED, b"accepted sched\n"),
    ];
    for (text, line) in others {
        assert!(rt; is_known(alloc, text, line)?, "{text:?}");
    }
    assert!(rt; answers(alloc, "compile", EVENT, Done, EVENT_TABLES)?);
    assert!(rt; is_steal_unknown(alloc)?);
    Ok(())
}

// A command, the numbers of the read and the write that fail, and the status and the output.
type Fault = (&'static str, u32, u32, Status, &'static [u8]);

static FAULTS: [Fault; 16] = [
    ("sim", 0, 0, Done, REPORT),
    ("sim", 1, 0, ReadFault, b""),
    ("sim", 3, 0, ReadFault, b""),
    ("sim", 1, 1, ReadFault, b""),
    ("sim", 0, 1, WriteFault, b""),
    ("sim", 0, 2, WriteFault, b"c1.1 lock_"),
    ("sim", 0, 3, WriteFault, b"c1.1 lock_alloc() = "),
    ("check", 0, 0, Done, ACCEPTED),
    ("check", 1, 0, ReadFault, b""),
    ("check", 2, 0, ReadFault, b""),
    ("check", 0, 1, WriteFault, b""),
    ("check", 0, 2, WriteFault, b"accepted l"),
    ("compile", 0, 0, Done, TABLES),
    ("compile", 1, 0, ReadFault, b""),
    ("compile", 0, 1, WriteFault, b""),
    ("compile", 0, 2, WriteFault, b"service lo"),
];

// Each of these faults comes to its status and its output, where a play has this input.
fn try_faults(rt: &impl Abort, alloc: Global, play: &[u8]) -> Result<(), NoMemory> {
    for (command, read, write, status, written) in &FAULTS {
        let input = if *command == "sim" { play } else { LOCK };
        let ask = (*command, *read, *write);
        assert!(rt;
            comes_to(alloc, ask, input, *status, written)?,
            "{command} {read} {write}"
        );
    }
    Ok(())
}

#[test]
fn answers_faults(rt: HostRuntime) -> Result<(), Fail> {
    let play = input_of(rt.alloc(), LOCK, SCRIPT)?;
    Ok(try_faults(&rt, rt.alloc(), &play)?)
}
