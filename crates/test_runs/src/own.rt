// A service of one's own: at its limits, by a text as long as one may be, and by a longer one; and in plays.
use crate::runs::{comes_to, input_of};
use sg_top::MOST_INTERFACE;
use std::alloc::{AllocError, Global};
use std::process::Abort;
use std::sync::Wait;
use std::test::Fail;
use std::thread::Threads;
use test_interfaces::SEMAPHORE;

// How many functions and fields a service has, and rules a function.
const FUNCTIONS: u16 = 32;

const FIELDS: u16 = 8;

const RULES: u16 = 32;

// The facts, and a function that makes a descriptor, one that sets all fields, in replays alone, and one that ends a descriptor.
static FIRST_THREE: &[u8] = b"service_global_info = {
    version = 3,
    service = wide,
    desc_has_parent = none,
    desc_close = refuse,
    desc_is_global = true,
    desc_block = true,
    desc_has_data = true,
    resc_has_data = false,
    desc_recover = demand
};
sm_creation(make);
sm_keep(place);
sm_recover(make, place);
sm_terminal(end);
sm_transition(make, end);
long make(spdid_t s);
int place(spdid_t s, long desc(d), long desc_data(x0), long desc_data(x1), long desc_data(x2), long desc_data(x3), long desc_data(x4), long desc_data(x5), long desc_data(x6), long desc_data(x7));
int end(spdid_t s, long desc(d));
";

// Adds a function that sets a field, with its number.
fn add_setter(alloc: Global, text: &mut Vec<u8>, number: u16) -> Result<(), AllocError> {
    let field = number % FIELDS;
    let flags = format!(in alloc;
        "sm_block(f{number});\nsm_wakeup(f{number});\nsm_keep(f{number});\n"
    )?;
    text.extend_from_slice(flags.as_bytes())?;
    let called = format!(in alloc;
        "sm_transition(make, f{number});\nint f{number}(spdid_t s, long desc(d), long desc_data(x{field}));\n"
    )?;
    text.extend_from_slice(called.as_bytes())
}

// Adds the rules of a function, by its name: they begin with these two in turn.
fn add_rules(
    alloc: Global,
    text: &mut Vec<u8>,
    name: &str,
    even: &str,
    odd: &str,
) -> Result<(), AllocError> {
    let open = format!(in alloc; "sm_answer({name}) {{\n")?;
    text.extend_from_slice(open.as_bytes())?;
    for rule in 0..RULES {
        let field = rule % FIELDS;
        let answer = if rule % 2 == 0 { even } else { odd };
        let line = format!(in alloc;
            "    {answer} if x{field} plus caller is not {rule}, state is make;\n"
        )?;
        text.extend_from_slice(line.as_bytes())?;
    }
    text.extend_from_slice(b"}\n")
}

// Adds the rules of a function that sets a field.
fn add_setter_rules(alloc: Global, text: &mut Vec<u8>, number: u16) -> Result<(), AllocError> {
    let name = format!(in alloc; "f{number}")?;
    add_rules(alloc, text, &name, "refuse Held", "wait")
}

// The text, but for what fills it.
fn widest(alloc: Global) -> Result<Vec<u8>, AllocError> {
    let mut text = Vec::from_slice(alloc, FIRST_THREE)?;
    for number in 3..FUNCTIONS {
        add_setter(alloc, &mut text, number)?;
    }
    add_rules(alloc, &mut text, "make", "give 7", "give 8")?;
    add_rules(alloc, &mut text, "place", "give 7", "give $2 least x1")?;
    add_rules(alloc, &mut text, "end", "refuse Held", "refuse NotOwner")?;
    for number in 3..FUNCTIONS {
        add_setter_rules(alloc, &mut text, number)?;
    }
    Ok(text)
}

// The text, and a comment after it up to this length.
fn filled(alloc: Global, length: usize) -> Result<Vec<u8>, AllocError> {
    let mut text = widest(alloc)?;
    let front = text.len();
    for _ in front..length {
        text.push(b'/')?;
    }
    Ok(text)
}

// Words, and what is printed, where two points stand for any lines.
type Told = (&'static str, &'static str);

// What is printed of the text.
static PRINTED: [Told; 3] = [
    ("check", "accepted wide\n"),
    (
        "compile",
        "service wide
..
fun 32 f31 desc word block wakeup -> same x7=arg2
..
walk make make x0,x1,x2,x3,x4,x5,x6,x7 : make place
",
    ),
    (
        "explain",
        "accepted wide
..
made by make, in the state make, fields set: x0 x1 x2 x3 x4 x5 x6 x7; rebuilt by make place
make is done, and gives 7 where x0 plus caller is not 0, state is make.
..
f31 waits where x7 plus caller is not 31, state is make.
Else f31 is done.
",
    ),
];

// What is printed of the text with one byte more.
static TOO_LONG: [Told; 3] = [
    ("check", "input refused: TooLong\n"),
    ("compile", "input refused: TooLong\n"),
    (
        "explain",
        "input refused: TooLong
An interface has at most 65536 bytes, and a script at most 4194304.
",
    ),
];

// Of the text of this length each of these words comes to this status, and to these lines.
fn try_each<R: Threads + Wait + Sync + Abort>(
    rt: &R,
    alloc: Global,
    length: usize,
    status: u8,
    cases: &[Told],
) -> Result<(), Fail> {
    let text = filled(alloc, length)?;
    for (words, printed) in cases {
        assert!(rt;
            comes_to(rt, alloc, words, &text, status, printed)?,
            "{words} of {length}"
        );
    }
    Ok(())
}

#[test]
fn takes_the_widest_text(rt: HostRuntime) -> Result<(), Fail> {
    try_each(&rt, rt.alloc(), MOST_INTERFACE, 0, &PRINTED)?;
    try_each(&rt, rt.alloc(), MOST_INTERFACE + 1, 2, &TOO_LONG)
}

// ---- plays

// A script for semaphores, and one with a call that they haven't.
const SCRIPT: &str = "client 1 { sem_make(1); sem_down($1); sem_up($1, 2); sem_free($1); }\n";

const WRONG: &str = "client 1 { sem_take(1); }\n";

// What is printed of the play.
const REPORT: &str = "c1.1 sem_make(1) = ok #1
c1.2 sem_down(1) = ok
c1.3 sem_up(1, 2) = ok
c1.4 sem_free(1) = ok
client 1 done
calls 4 boots 1 replays 0
";

// A second text after that of semaphores, words, their status, and what is printed.
type Play = (&'static str, &'static str, u8, &'static str);

static PLAYS: [Play; 9] = [
    (SCRIPT, "sim", 0, REPORT),
    (SCRIPT, "run", 0, REPORT),
    (SCRIPT, "explore", 0, "..\nblocked 0\nsame\n"),
    (
        SCRIPT,
        "explain",
        0,
        "accepted semaphore
..
sem_down waits where count is 0.
Else sem_down is done.
clients 1 calls 4 stops 0
",
    ),
    (
        "client 1 { sem_make(0); sem_down($1); }\n",
        "sim",
        3,
        "c1.1 sem_make(0) = ok #1\nclient 1 blocked sem_down(1)\ncalls 1 boots 1 replays 0\n",
    ),
    (REPORT, "verify", 0, "legal 4\n"),
    (
        "c1.1 sem_make(1) = ok #1\nc1.2 sem_down(1) = refused Held\n",
        "verify",
        7,
        "illegal at entry 2: ok\n",
    ),
    (WRONG, "sim", 2, "script refused at 1:12: UnknownFunction\n"),
    (
        WRONG,
        "explain",
        2,
        "script refused at 1:12: UnknownFunction\n..\nUsually the name is misspelt, or the interface has no prototype of it.\n",
    ),
];

#[test]
fn plays_semaphores(rt: HostRuntime) -> Result<(), Fail> {
    let alloc = rt.alloc();
    for (second, words, status, printed) in &PLAYS {
        let input = input_of(alloc, SEMAPHORE, second)?;
        assert!(rt;
            comes_to(&rt, alloc, words, &input, *status, printed)?,
            "{words} of {second}"
        );
    }
    Ok(())
}
