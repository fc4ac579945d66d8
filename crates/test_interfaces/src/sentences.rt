// Which texts are sentences of the interface language, and where the others fail.
use crate::sentences::Answer::{Lex, NoMemory, Syntax, Tree};
use crate::{EVENT, EVENT2, LOCK, MM, RAMFS, SCHED, TIMER};
use sg_print::{ParseError, parse};
use std::alloc::Global;
use std::process::Abort;
use std::test::Fail;

/// How a text is answered.
#[derive(Clone, Copy, Debug, PartialEq, Eq)]
pub enum Answer {
    Tree,
    NoMemory,
    Lex(usize),
    Syntax(usize),
}

/// How a text is answered.
pub fn answer_on(alloc: Global, text: &[u8]) -> Answer {
    match parse(alloc, text) {
        Ok(_) => Tree,
        Err(ParseError::NoMemory) => NoMemory,
        Err(ParseError::Lex { at }) => Lex(at),
        Err(ParseError::Syntax { at }) => Syntax(at),
    }
}

/// What stands after a front, and how the whole is answered; places count from the end of the front.
pub type Case = (&'static [u8], Answer);

static ALONE: [Case; 32] = [
    (b"", Syntax(0)),
    (b"service_global_info = {", Syntax(23)),
    (b"service_global_info = #", Lex(22)),
    (b" # service", Lex(1)),
    (b"service service_global_info #", Syntax(0)),
    (b"service_global_info == {", Syntax(21)),
    (b"service_global_info={service=sm_keep", Syntax(29)),
    (b"service_global_info={service=desc", Syntax(29)),
    (
        b"service_global_info={service=x,desc_has_parent=x",
        Syntax(47),
    ),
    (
        b"service_global_info={service=x,desc_close=refuse",
        Syntax(31),
    ),
    (b"service_global_info={service=17", Syntax(29)),
    (b"service_global_info={service=x /* never", Lex(31)),
    // the version
    (b"service_global_info={version=3,", Syntax(31)),
    (b"service_global_info={version=4,", Syntax(29)),
    (b"service_global_info={version=03", Syntax(31)),
    (b"service_global_info={version=23,", Syntax(29)),
    (b"service_global_info={version=3,version=3", Syntax(31)),
    (
        b"service_global_info={version=3,service=sm_answer",
        Syntax(39),
    ),
    (
        b"service_global_info={version=3,service=desc_data_retval_sub",
        Syntax(39),
    ),
    (
        b"service_global_info={version=2,service=sm_answer",
        Syntax(48),
    ),
    (b"service_global_info={service=sm_answer", Syntax(38)),
    (b"service_global_info={version=1,", Syntax(29)),
    (b"service_global_info={version=20,", Syntax(29)),
    (b"service_global_info={version=02", Syntax(31)),
    (b"service_global_info={version=two", Syntax(29)),
    (
        b"service_global_info={version=002,service=version",
        Syntax(48),
    ),
    (b"service_global_info={version=2,version=2", Syntax(31)),
    (b"service_global_info={service=x,version=2", Syntax(31)),
    (b"service_global_info={version=2;", Syntax(30)),
    (
        b"service_global_info={version=2,service=desc_data_retval_sub",
        Syntax(39),
    ),
    (
        b"service_global_info={service=desc_data_retval_sub,",
        Syntax(50),
    ),
    (b"service_global_info={version=2,service=17", Syntax(39)),
];

// The number of bytes of the facts of locks, which stand before the first statement.
const HEAD: usize = 202;

static BEHIND_FACTS: [Case; 49] = [
    (b"", Tree),
    (b"sm_block(f); sm_block(f);", Tree),
    (
        b"resc_data(f); sm_needs_all(f); sm_query(f); sm_keep(f); sm_wakeup(f);",
        Tree,
    ),
    (
        b"sm_state(f, g);desc_data_clear(f, x);desc_data_sub(f, x);sm_recover(f,g);",
        Tree,
    ),
    (b"sm_block(f, g);", Syntax(10)),
    (b"sm_state(f);", Syntax(10)),
    (b"sm_block(sm_block);", Syntax(9)),
    (b"sm_block(desc_data);", Syntax(9)),
    (b"sm_block(f)", Syntax(11)),
    (b"desc(f);", Syntax(0)),
    (b"service_global_info", Syntax(0)),
    (b"= 1", Syntax(0)),
    (b"int f(spdid_t c);", Tree),
    (b"f(spdid_t c);", Syntax(1)),
    (b"int *f(spdid_t c);", Tree),
    (b"int * * f(spdid_t c);", Tree),
    (b"int *f g(spdid_t c);", Syntax(7)),
    (b"int *(spdid_t c);", Syntax(5)),
    (b"int desc(spdid_t c);", Syntax(4)),
    (b"int f();", Syntax(6)),
    (b"int f(c);", Syntax(7)),
    (b"int f(a b c d);", Tree),
    (b"int f(a b,);", Syntax(10)),
    (
        b"int f(a desc(x), a b parent_desc(y), a *desc_data(z), a **desc_data_add(w));",
        Tree,
    ),
    (b"int f(desc(x));", Syntax(6)),
    (b"int f(a desc x);", Syntax(13)),
    (b"int f(a desc(desc));", Syntax(13)),
    (b"int f(a desc_data_retval(x));", Syntax(8)),
    (b"int f(a *b c);", Syntax(11)),
    (b"int f(a * * *b);", Tree),
    (b"desc_data_retval(long, x) f(a b);", Tree),
    (b"desc_data_retval_add(char *, x) f(a b);", Tree),
    (b"desc_data_retval(a b * *, x) f(a b);", Tree),
    (b"desc_data_retval(*, x) f(a b);", Syntax(17)),
    (b"desc_data_retval(long x) f(a b);", Syntax(23)),
    (b"desc_data_retval(long, x) int f(a b);", Syntax(30)),
    (b"desc_data_retval_sub(long, x) f(a b);", Syntax(20)),
    (b"desc_data f(a b);", Syntax(0)),
    // words of version 3
    (b"sm_external(f);", Syntax(11)),
    (b"desc_data_most(x, 9);", Syntax(14)),
    (b"desc_data_unique(x);", Syntax(16)),
    (b"sm_answer(f) { give 1; }", Syntax(9)),
    (b"int sm_answer(spdid_t c);", Tree),
    (b"sm_block(sm_external);", Tree),
    (b"sm_state(desc_data_most, desc_data_unique);", Tree),
    (b"refuse wait(give if, where *row);", Tree),
    (
        b"int f(a b, a desc_data(refuse), a desc_data(wait), a desc_data(give), a desc_data(if), a desc_data(is), a desc_data(not), a desc_data(below), a desc_data(above), a desc_data(plus), a desc_data(minus));",
        Tree,
    ),
    (
        b"int f(a b, a desc_data(least), a desc_data(greatest), a desc_data(caller), a desc_data(state), a desc_data(row), a desc_data(where), a desc_data(else), a desc_data(first), a desc_data(some), a desc_data(no));",
        Tree,
    ),
    (
        b"int f(a b, a desc_data(sm_external), a desc_data(desc_data_most), a desc_data(desc_data_unique), a desc_data(sm_answer));",
        Tree,
    ),
];

// The number of bytes of the facts of events in version 2, and of these up to how descriptors are rebuilt.
const HEAD_2: usize = 246;

const HEAD_2_UP_TO_RECOVERY: usize = 216;

static BEHIND_FACTS_2: [Case; 20] = [
    (b"", Tree),
    (b"desc_data_retval_sub(long, x) f(a b);", Tree),
    (b"desc_data_retval_sub(char **, x) f(a b);", Tree),
    (b"desc_data_retval(long, x) f(a b);", Tree),
    (b"desc_data_retval_sub f(a b);", Syntax(21)),
    (b"sm_block(desc_data_retval_sub);", Syntax(9)),
    (b"int f(a desc_data_retval_sub);", Syntax(8)),
    (b"int f(desc_data_retval_sub b);", Syntax(6)),
    (b"eager demand(version desc_recover);", Tree),
    // words of version 3
    (b"sm_external(f);", Syntax(11)),
    (b"desc_data_most(x, 9);", Syntax(14)),
    (b"desc_data_unique(x);", Syntax(16)),
    (b"sm_answer(f) { give 1; }", Syntax(9)),
    (b"int sm_answer(spdid_t c);", Tree),
    (b"sm_block(sm_external);", Tree),
    (b"sm_state(desc_data_most, desc_data_unique);", Tree),
    (b"refuse wait(give if, where *row);", Tree),
    (
        b"int f(a b, a desc_data(refuse), a desc_data(wait), a desc_data(give), a desc_data(if), a desc_data(is), a desc_data(not), a desc_data(below), a desc_data(above), a desc_data(plus), a desc_data(minus));",
        Tree,
    ),
    (
        b"int f(a b, a desc_data(least), a desc_data(greatest), a desc_data(caller), a desc_data(state), a desc_data(row), a desc_data(where), a desc_data(else), a desc_data(first), a desc_data(some), a desc_data(no));",
        Tree,
    ),
    (
        b"int f(a b, a desc_data(sm_external), a desc_data(desc_data_most), a desc_data(desc_data_unique), a desc_data(sm_answer));",
        Tree,
    ),
];

static BEHIND_FACTS_OF_BOTH: [Case; 8] = [
    (b"", Syntax(0)),
    (b"};", Syntax(0)),
    (b", desc_recover = eager };", Tree),
    (b",desc_recover=demand};", Tree),
    (b", desc_recover = lazy };", Syntax(17)),
    (b", desc_recover = desc };", Syntax(17)),
    (b", desc_recover = eager, };", Syntax(22)),
    (b", };", Syntax(2)),
];

/// Asserts that each case is answered so after the front.
pub fn try_each(rt: &impl Abort, alloc: Global, front: &[u8], cases: &[Case]) -> Result<(), Fail> {
    for (tail, want) in cases {
        let mut text = Vec::from_slice(alloc, front)?;
        text.extend_from_slice(tail)?;
        let given = match answer_on(alloc, text.as_slice()) {
            Lex(at) => Lex(at.saturating_sub(front.len())),
            Syntax(at) => Syntax(at.saturating_sub(front.len())),
            other => other,
        };
        assert!(rt; given == *want, "{given:?} on {tail:?}");
    }
    Ok(())
}

#[test]
fn fails_at_the_first_token_that_cannot_go_on(rt: HostRuntime) -> Result<(), Fail> {
    try_each(&rt, rt.alloc(), b"", &ALONE)?;
    let facts = LOCK.get(..HEAD).ok_or("no facts")?;
    try_each(&rt, rt.alloc(), facts, &BEHIND_FACTS)?;
    let facts = EVENT2.get(..HEAD_2).ok_or("no facts")?;
    try_each(&rt, rt.alloc(), facts, &BEHIND_FACTS_2)?;
    let facts = EVENT2.get(..HEAD_2_UP_TO_RECOVERY).ok_or("no facts")?;
    try_each(&rt, rt.alloc(), facts, &BEHIND_FACTS_OF_BOTH)
}

// A front of a standard interface is a sentence just where it ends with a statement, or with the line of one.
fn ends_a_statement(front: &[u8]) -> bool {
    matches!(front, [.., b';'] | [.., b';', b'\n'])
}

#[test]
fn fronts_are_sentences_where_a_statement_ends(rt: HostRuntime) -> Result<(), Fail> {
    for text in [LOCK, EVENT, EVENT2, MM, RAMFS, SCHED, TIMER] {
        for at in 0..text.len() + 1 {
            let front = text.get(..at).ok_or("no front")?;
            match answer_on(rt.alloc(), front) {
                Tree => assert!(rt; ends_a_statement(front), "at {at}"),
                Syntax(_) => assert!(rt; !ends_a_statement(front), "at {at}"),
                _ => assert!(rt; false, "another answer at {at}"),
            }
        }
    }
    Ok(())
}

#[test]
fn long_texts_of_one_kind_are_refused(rt: HostRuntime) -> Result<(), Fail> {
    for (byte, want) in [(b'a', 0), (b'7', 0), (b'(', 0), (b' ', 65536)] {
        let text = vec![in rt.alloc(); byte; 65536]?;
        assert!(rt;
            answer_on(rt.alloc(), text.as_slice()) == Syntax(want),
            "on {byte}"
        );
    }
    Ok(())
}
