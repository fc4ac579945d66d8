// Texts of both versions: what they are upgraded to, and plays under them. No clause says that a text is upgraded where there is memory.
use crate::answers::{answers, input_of, joined, said, words_of};
use sg_top::Status::{self, Done, Refused};
use sg_top::{MemSink, MemSource, NoMemory, serial};
use std::alloc::{AllocError, Global};
use std::process::Abort;
use std::test::Fail;
use test_interfaces::{EVENT, EVENT2, LOCK, MM, RAMFS, SCHED, in_version_2};

// A text with the first place of a word changed to another.
fn changed(alloc: Global, text: &[u8], old: &str, new: &str) -> Result<Vec<u8>, AllocError> {
    let text = str::from_utf8(text).unwrap_or("");
    let (front, back) = text.split_once(old).unwrap_or((text, ""));
    let mut bytes = Vec::from_slice(alloc, front.as_bytes())?;
    bytes.extend_from_slice(new.as_bytes())?;
    bytes.extend_from_slice(back.as_bytes())?;
    Ok(bytes)
}

// Whether a text is upgraded to another.
fn becomes(alloc: Global, text: &[u8], newer: &[u8]) -> Result<bool, NoMemory> {
    answers(alloc, "upgrade", text, Done, newer)
}

// Whether a standard text is upgraded to itself in version 2, and that is left as it is, whenever descriptors are rebuilt.
fn is_upgraded(alloc: Global, text: &[u8]) -> Result<bool, NoMemory> {
    let newer = in_version_2(alloc, text, "demand")?;
    let eager = in_version_2(alloc, text, "eager")?;
    Ok(
        becomes(alloc, text, &newer)?
            && becomes(alloc, &newer, &newer)?
            && becomes(alloc, &eager, &eager)?,
    )
}

#[test]
fn upgrades_texts(rt: HostRuntime) -> Result<(), Fail> {
    let alloc = rt.alloc();
    for text in [LOCK, EVENT, MM, RAMFS, SCHED] {
        assert!(rt; is_upgraded(alloc, text)?, "{text:?}");
    }
    assert!(rt; becomes(alloc, EVENT2, EVENT2)?);
    Ok(())
}

// A command, a word of a text of locks in version 2 and what stands in its place, and the status and the output.
type Head = (
    &'static str,
    &'static str,
    &'static str,
    Status,
    &'static [u8],
);

static HEADS: [Head; 9] = [
    ("check", "2", "002", Done, b"accepted lock\n"),
    ("check", "demand", "eager", Done, b"accepted lock\n"),
    (
        "upgrade",
        "2",
        "3",
        Refused,
        b"interface refused at 2:15: Syntax\n",
    ),
    (
        "check",
        ",",
        ",version=2,",
        Refused,
        b"interface refused at 2:17: Syntax\n",
    ),
    (
        "check",
        "demand",
        "lazy",
        Refused,
        b"interface refused at 10:20: Syntax\n",
    ),
    (
        "check",
        "refuse",
        "subtree",
        Refused,
        b"interface refused at 5:18: WrongFact\n",
    ),
    (
        "check",
        "spdid_t spdid",
        "spdid_t sm_answer",
        Done,
        b"accepted lock\n",
    ),
    (
        "check",
        "spdid_t spdid",
        "spdid_t if",
        Done,
        b"accepted lock\n",
    ),
    (
        "compile",
        "spdid_t spdid",
        "spdid_t desc_data_retval_sub",
        Refused,
        b"interface refused at 23:34: Syntax\n",
    ),
];

// Whether a text of locks in version 2 with a change comes to its status and its output.
fn answers_changed(alloc: Global, text: &[u8], head: &Head) -> Result<bool, NoMemory> {
    let (command, old, new, status, written) = head;
    let text = changed(alloc, text, old, new)?;
    answers(alloc, command, &text, *status, written)
}

// Each change of a text of locks in version 2 comes to its status and its output.
fn try_heads(rt: &impl Abort, alloc: Global, text: &[u8]) -> Result<(), NoMemory> {
    for head in &HEADS {
        let (_, old, new, _, _) = head;
        assert!(rt; answers_changed(alloc, text, head)?, "{old} {new}");
    }
    Ok(())
}

#[test]
fn reads_heads_of_version_2(rt: HostRuntime) -> Result<(), Fail> {
    let text = in_version_2(rt.alloc(), LOCK, "demand")?;
    Ok(try_heads(&rt, rt.alloc(), &text)?)
}

// Events in version 1 with a function that only version 2 can declare.
const TAKE: &[u8] = b"sm_keep(evt_take);
sm_transition(evt_split, evt_take);
int evt_take(spdid_t spdid, unsigned long desc(id), unsigned long n);
";

const TAKE_2: &[u8] =
    b"desc_data_retval_sub(long, count) evt_take(spdid_t spdid, unsigned long desc(id), unsigned long n);
";

// Whether the text of events with more at its end is refused with this line.
fn refuses_events_with(alloc: Global, more: &[u8], line: &[u8]) -> Result<bool, NoMemory> {
    let text = joined(alloc, EVENT, more)?;
    answers(alloc, "check", &text, Refused, line)
}

// Whether a text is accepted in version 1, and written in version 2, where it is no sentence.
fn is_no_sentence_then(alloc: Global, text: &[u8]) -> Result<bool, NoMemory> {
    let newer = in_version_2(alloc, text, "demand")?;
    let line = b"interface refused at 23:34: Syntax\n";
    Ok(
        answers(alloc, "check", text, Done, b"accepted lock\n")?
            && becomes(alloc, text, &newer)?
            && answers(alloc, "check", &newer, Refused, line)?,
    )
}

#[test]
fn keeps_a_word_for_version_2(rt: HostRuntime) -> Result<(), Fail> {
    let alloc = rt.alloc();
    let line = b"interface refused at 27:5: WrongEffect\n";
    assert!(rt; refuses_events_with(alloc, TAKE, line)?);
    let line = b"interface refused at 25:21: Syntax\n";
    assert!(rt; refuses_events_with(alloc, TAKE_2, line)?);
    // a name of version 1 that is the word of version 2 is written all the same, and then no sentence
    let text = changed(alloc, LOCK, "spdid_t spdid", "spdid_t desc_data_retval_sub")?;
    assert!(rt; is_no_sentence_then(alloc, &text)?);
    Ok(())
}

// Whether an input is played so, with its trace.
fn is_traced(alloc: Global, input: &[u8], printed: &[u8]) -> Result<bool, NoMemory> {
    let words = words_of(alloc, &["sim", "trace"])?;
    let mut source = MemSource::new(alloc, input, 4_096, &[])?;
    let mut sink = MemSink::new(alloc, 4_096, &[])?;
    let (status, _) = said(serial(alloc, &words, &mut source, &mut sink));
    Ok(status == Done && sink.written() == printed)
}

// Whether a script is played so under an interface, with its trace.
fn plays(alloc: Global, interface: &[u8], script: &[u8], printed: &[u8]) -> Result<bool, NoMemory> {
    let input = input_of(alloc, interface, script)?;
    is_traced(alloc, &input, printed)
}

const TAKES: &[u8] =
    b"client 1 { evt_split(); evt_trigger($1, 5); evt_take($1, 3); evt_take($1, 9); evt_take($1, 1); } stop 13;";

const TAKEN: &[u8] = b"c1.1 evt_split() = ok #1
c1.2 evt_trigger(1, 5) = ok
c1.3 evt_take(1, 3) = ok 3
c1.4 evt_take(1, 9) = ok 2
c1.5 evt_take(1, 1) = ok 0
client 1 done
calls 5 boots 2 replays 2
boot 1
call c1.1 evt_split() replied
call c1.2 evt_trigger(1, 5) replied
call c1.3 evt_take(1, 3) replied
stop 13
boot 2
walk 1.1 for c1 by c1 evt_split() replied
walk 1.2 for c1 by c1 evt_trigger(1, 2) replied
call c1.4 evt_take(1, 9) replied
call c1.5 evt_take(1, 1) replied
points 28
";

const TWO_LOCKS: &[u8] =
    b"client 1 { lock_alloc(); lock_alloc(); lock_take($1); lock_release($1); } stop 14;";

const EAGER: &[u8] = b"c1.1 lock_alloc() = ok #1
c1.2 lock_alloc() = ok #2
c1.3 lock_take(1) = ok
c1.4 lock_release(1) = ok
client 1 done
calls 4 boots 2 replays 3
boot 1
call c1.1 lock_alloc() replied
call c1.2 lock_alloc() replied
call c1.3 lock_take(1) replied
stop 14
boot 2
walk 1.1 for c1 by c1 lock_alloc() replied
walk 1.2 for c1 by c1 lock_take(1) replied
walk 2.1 for c1 by c1 lock_alloc() replied
call c1.4 lock_release(1) replied
points 29
";

const ON_DEMAND: &[u8] = b"c1.1 lock_alloc() = ok #1
c1.2 lock_alloc() = ok #2
c1.3 lock_take(1) = ok
c1.4 lock_release(1) = ok
client 1 done
calls 4 boots 2 replays 2
boot 1
call c1.1 lock_alloc() replied
call c1.2 lock_alloc() replied
call c1.3 lock_take(1) replied
stop 14
boot 2
walk 1.1 for c1 by c1 lock_alloc() replied
walk 1.2 for c1 by c1 lock_take(1) replied
call c1.4 lock_release(1) replied
points 25
";

// Whether two locks are recovered so under the interface of locks in version 2.
fn plays_locks(alloc: Global, recover: &str, printed: &[u8]) -> Result<bool, NoMemory> {
    let text = in_version_2(alloc, LOCK, recover)?;
    plays(alloc, &text, TWO_LOCKS, printed)
}

#[test]
fn plays_texts_of_version_2(rt: HostRuntime) -> Result<(), Fail> {
    let alloc = rt.alloc();
    assert!(rt; plays(alloc, EVENT2, TAKES, TAKEN)?);
    assert!(rt; plays_locks(alloc, "demand", ON_DEMAND)?);
    assert!(rt; plays_locks(alloc, "eager", EAGER)?);
    Ok(())
}

const EVENT2_TABLES: &[u8] = b"service event
facts parent=none close=refuse global=true block=true desc_data=true resc_data=false recover=demand
fun 1 evt_split creation -> evt_split
fun 2 evt_wait desc block -> same count-1
fun 3 evt_trigger desc word wakeup -> same count+arg2
fun 4 evt_free desc terminal -> end
fun 5 evt_take desc word -> same count-ret
move evt_split evt_wait
move evt_split evt_trigger
move evt_split evt_free
move evt_split evt_take
step evt_split evt_trigger
walk evt_split evt_split - : evt_split
walk evt_split evt_split count : evt_split evt_trigger
";

#[test]
fn compiles_texts_of_version_2(rt: HostRuntime) -> Result<(), Fail> {
    let alloc = rt.alloc();
    assert!(rt; answers(alloc, "compile", EVENT2, Done, EVENT2_TABLES)?);
    Ok(())
}
