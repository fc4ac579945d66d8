// Which statements and rules are sentences in a text of version 3, and where the others fail.
use crate::SEMAPHORE;
use crate::sentences::Answer::{self, Lex, Syntax, Tree};
use crate::sentences::{Case, answer_on, try_each};
use sg_print::{Lexer, Token};
use std::alloc::{AllocError, Global};
use std::process::Abort;
use std::test::Fail;

// The number of bytes of the facts of semaphores, which stand before the first statement.
const HEAD: usize = 251;

// The facts of a text of version 3.
fn facts() -> &'static [u8] {
    SEMAPHORE.get(..HEAD).unwrap_or(b"")
}

static STATEMENTS: [Case; 49] = [
    (b"sm_external(f);", Tree),
    (b"desc_data_most(x, 0);", Tree),
    (b"desc_data_most(x, 0099999999999999999999);", Tree),
    (b"desc_data_unique(x);", Tree),
    (b"desc_data_unique(x, y, x);", Tree),
    (b"sm_answer(f) { give 1; }", Tree),
    (
        b"sm_answer(f){give 1;}sm_answer(f){give 2;}int f(spdid_t c);",
        Tree,
    ),
    (b"desc_data_retval_sub(long, x) f(a b);", Tree),
    (b"refuse wait(give if, is not, row *where);", Tree),
    (b"sm_block(caller); sm_state(state, no);", Tree),
    (
        b"desc_data_most(greatest, 9); desc_data_unique(some, else);",
        Tree,
    ),
    (b"sm_external(f, g);", Syntax(13)),
    (b"sm_external();", Syntax(12)),
    (b"sm_external(f)", Syntax(14)),
    (b"sm_external f;", Syntax(12)),
    (b"desc_data_most(x);", Syntax(16)),
    (b"desc_data_most(x, y);", Syntax(18)),
    (b"desc_data_most(9, x);", Syntax(15)),
    (b"desc_data_most(x, 9, 9);", Syntax(19)),
    (b"desc_data_unique();", Syntax(17)),
    (b"desc_data_unique(x,);", Syntax(19)),
    (b"desc_data_unique(x y);", Syntax(19)),
    (b"desc_data_unique(9);", Syntax(17)),
    (b"sm_answer(f);", Syntax(12)),
    (b"sm_answer(f) { }", Syntax(15)),
    (b"sm_answer(f) {", Syntax(14)),
    (b"sm_answer(f) { give 1;", Syntax(22)),
    (b"sm_answer(f) { give 1", Syntax(21)),
    (b"sm_answer(f) { give 1 }", Syntax(22)),
    (b"sm_answer(f) { give 1; };", Syntax(24)),
    (b"sm_answer(f) { give 1; } }", Syntax(25)),
    (b"sm_answer(f) { { give 1; } }", Syntax(15)),
    (b"sm_answer() { give 1; }", Syntax(10)),
    (b"sm_answer(f, g) { give 1; }", Syntax(11)),
    (b"sm_answer(f) give 1;", Syntax(13)),
    (b"sm_block(sm_answer);", Syntax(9)),
    (b"sm_answer(sm_external) { give 1; }", Syntax(10)),
    (b"desc_data_unique(x, desc_data_most);", Syntax(20)),
    (b"int sm_external(spdid_t c);", Syntax(4)),
    (b"int f(desc_data_unique c);", Syntax(6)),
    (b"desc_data_retval_sub f(a b);", Syntax(21)),
    // a field with a name that isn't one
    (b"int f(a b, a desc_data(sm_external));", Syntax(23)),
    (b"int f(a b, a desc_data(desc_data_most));", Syntax(23)),
    (b"int f(a b, a desc_data(desc_data_unique));", Syntax(23)),
    (b"int f(a b, a desc_data(sm_answer));", Syntax(23)),
    (
        b"int f(a b, a desc_data(desc_data_retval_sub));",
        Syntax(23),
    ),
    (b"desc_data_clear(f, sm_answer);", Syntax(19)),
    (b"sm_answer(f) { give 1; /* never", Lex(23)),
    (b"sm_answer(f) { give # 1; }", Lex(20)),
];

// What opens the rules of a function, before these.
static OPENED: &[u8] = b"sm_answer(f) {";

static RULES: [Case; 16] = [
    (b"refuse Held if x is 1;}", Tree),
    (
        b"refuse Held if x is not caller, $1 above 0, state below f;}",
        Tree,
    ),
    (b"wait if x plus 1 is y minus $2;}", Tree),
    (b"wait if greatest x greatest y is 7 least state;}", Tree),
    (b"give caller;}", Tree),
    (b"give x plus greatest y;}", Tree),
    (b"give $3 if x is 0;}", Tree),
    (b"give row where state is f else NotFound;}", Tree),
    (
        b"give row where x is $1, state is not f, y above caller plus 1 else NotFound;}",
        Tree,
    ),
    (b"give first x else NotFound;}", Tree),
    (
        b"give first due minus now, tag where state is f, x below 9 else NotFound;}",
        Tree,
    ),
    (b"wait if some row where x is 1;}", Tree),
    (
        b"wait if x is 1, y is 2, no row where y is 2, state is f;}",
        Tree,
    ),
    (b"give 1 if some row where x is 1, state is f;}", Tree),
    (
        b"refuse Held if x is 1; wait if x is 2; give x; give row where x is 1 else Held;}",
        Tree,
    ),
    (b"refuse NotOwner if sm_block is 1;}", Tree),
];

static NO_RULES: [Case; 59] = [
    (b"refuse if x is 1;}", Syntax(7)),
    (b"refuse give if x is 1;}", Syntax(7)),
    (b"refuse 9 if x is 1;}", Syntax(7)),
    (b"refuse Held;}", Syntax(11)),
    (b"refuse Held if;}", Syntax(14)),
    (b"refuse Held if x;}", Syntax(16)),
    (b"refuse Held if x is;}", Syntax(19)),
    (b"refuse Held if x not 1;}", Syntax(17)),
    (b"refuse Held if x is not not 1;}", Syntax(24)),
    (b"refuse Held if x is below 1;}", Syntax(20)),
    (b"refuse Held if x is 1,;}", Syntax(22)),
    (b"refuse Held if , x is 1;}", Syntax(15)),
    (b"refuse Held if x is 1 y is 2;}", Syntax(22)),
    (b"refuse Held if x is 1, wait if y is 1;}", Syntax(23)),
    (b"wait x is 1;}", Syntax(5)),
    (b"wait if x plus y plus z is 1;}", Syntax(17)),
    (b"wait if x plus is 1;}", Syntax(15)),
    (b"wait if plus 1 is x;}", Syntax(8)),
    (b"wait if $x is 1;}", Syntax(9)),
    (b"wait if $ is 1;}", Syntax(10)),
    (b"wait if $1 $2 is 1;}", Syntax(11)),
    (b"wait if greatest 1 is 1;}", Syntax(17)),
    (b"wait if greatest caller is 1;}", Syntax(17)),
    (b"wait if row is 1;}", Syntax(8)),
    (b"wait if some where x is 1;}", Syntax(13)),
    (b"wait if some row x is 1;}", Syntax(17)),
    (b"wait if some row where;}", Syntax(22)),
    (b"wait if some row where 1 is x;}", Syntax(23)),
    (b"wait if some row where caller is x;}", Syntax(23)),
    (b"wait if some row where x is 1, $1 is 2;}", Syntax(31)),
    (
        b"wait if some row where x is 1, no row where y is 2;}",
        Syntax(31),
    ),
    (
        b"wait if no row where x is 1, some row where y is 2;}",
        Syntax(29),
    ),
    (b"give;}", Syntax(4)),
    (b"give if x is 1;}", Syntax(5)),
    (b"give 1, 2;}", Syntax(6)),
    (b"give 1 if;}", Syntax(9)),
    (b"give 1 else Held;}", Syntax(7)),
    (b"give row x is 1 else Held;}", Syntax(9)),
    (b"give row where x is 1;}", Syntax(21)),
    (b"give row where x is 1 if y is 2;}", Syntax(22)),
    (b"give row where x is 1 else;}", Syntax(26)),
    (b"give row where x is 1 else not;}", Syntax(27)),
    (b"give row where x is 1 else 4;}", Syntax(27)),
    (b"give row where else Held;}", Syntax(15)),
    (b"give first else Held;}", Syntax(11)),
    (b"give first x;}", Syntax(12)),
    (b"give first x, else Held;}", Syntax(14)),
    (b"give first x if y is 1;}", Syntax(13)),
    (b"give first x y else Held;}", Syntax(13)),
    (b"give first x where else Held;}", Syntax(19)),
    (b"give first x where y is 1;}", Syntax(25)),
    (
        b"give first x where some row where y is 1 else Held;}",
        Syntax(19),
    ),
    (b"Held if x is 1;}", Syntax(0)),
    (b"if x is 1;}", Syntax(0)),
    (b"give 1; x}", Syntax(8)),
    (b"give desc_data_unique;}", Syntax(5)),
    (b"refuse sm_answer if x is 1;}", Syntax(7)),
    (b"give \"text\";}", Syntax(5)),
    (b"give (1);}", Syntax(5)),
];

#[test]
fn statements_fail_at_the_first_token_that_cannot_go_on(rt: HostRuntime) -> Result<(), Fail> {
    try_each(&rt, rt.alloc(), facts(), &STATEMENTS)
}

#[test]
fn rules_fail_at_the_first_token_that_cannot_go_on(rt: HostRuntime) -> Result<(), Fail> {
    let mut front = Vec::from_slice(rt.alloc(), facts())?;
    front.extend_from_slice(OPENED)?;
    try_each(&rt, rt.alloc(), front.as_slice(), &RULES)?;
    try_each(&rt, rt.alloc(), front.as_slice(), &NO_RULES)
}

// ---- one token changed

static ANSWER: &[u8] =
    b"sm_answer(f) { refuse Held if x is not caller, $1 above 0; give first x minus y, z where state is g else NotFound; }";

// The tokens of the answer, and how it is answered without each; places count from the end of the facts.
static DROPPED: [Case; 33] = [
    (b"sm_answer", Syntax(1)),
    (b"(", Syntax(10)),
    (b"f", Syntax(11)),
    (b")", Syntax(13)),
    (b"{", Syntax(15)),
    (b"refuse", Syntax(17)),
    (b"Held", Syntax(24)),
    (b"if", Syntax(29)),
    (b"x", Syntax(32)),
    (b"is", Syntax(34)),
    (b"not", Tree),
    (b"caller", Syntax(40)),
    (b",", Syntax(47)),
    (b"$", Tree),
    (b"1", Syntax(50)),
    (b"above", Syntax(52)),
    (b"0", Syntax(57)),
    (b";", Syntax(59)),
    (b"give", Syntax(61)),
    (b"first", Syntax(75)),
    (b"x", Syntax(72)),
    (b"minus", Syntax(74)),
    (b"y", Syntax(79)),
    (b",", Syntax(81)),
    (b"z", Syntax(83)),
    (b"where", Syntax(85)),
    (b"state", Syntax(91)),
    (b"is", Syntax(97)),
    (b"g", Syntax(100)),
    (b"else", Syntax(102)),
    (b"NotFound", Syntax(106)),
    (b";", Syntax(115)),
    (b"}", Syntax(116)),
];

// The answer behind the facts, with other bytes in the place of a token.
fn with(alloc: Global, token: &Token<'_>, other: &[u8]) -> Result<Vec<u8>, AllocError> {
    let mut text = Vec::from_slice(alloc, facts())?;
    let behind = token.at.saturating_add(token.slice.len());
    text.extend_from_slice(ANSWER.get(..token.at).unwrap_or(b""))?;
    text.extend_from_slice(other)?;
    text.extend_from_slice(ANSWER.get(behind..).unwrap_or(b""))?;
    Ok(text)
}

// How a text is answered, with its place counted from the end of the facts.
fn answered(alloc: Global, text: &[u8]) -> Answer {
    match answer_on(alloc, text) {
        Syntax(at) => Syntax(at.saturating_sub(HEAD)),
        other => other,
    }
}

// Without the token the answer is answered so; with the token twice it fails at the second, and with another mark in its place there.
fn try_token(
    rt: &impl Abort,
    alloc: Global,
    token: &Token<'_>,
    dropped: Answer,
) -> Result<(), Fail> {
    let place = token.at;
    let without = with(alloc, token, b" ")?;
    assert!(rt;
        answered(alloc, without.as_slice()) == dropped,
        "without the token at {place}"
    );
    let mut twice = Vec::from_slice(alloc, token.slice)?;
    twice.push(b' ')?;
    twice.extend_from_slice(token.slice)?;
    let second = place.saturating_add(token.slice.len()).saturating_add(1);
    let doubled = with(alloc, token, twice.as_slice())?;
    assert!(rt;
        answered(alloc, doubled.as_slice()) == Syntax(second),
        "twice the token at {place}"
    );
    let replaced = with(alloc, token, b"=")?;
    assert!(rt;
        answered(alloc, replaced.as_slice()) == Syntax(place),
        "another token at {place}"
    );
    Ok(())
}

#[test]
fn each_token_of_an_answer_has_its_place(rt: HostRuntime) -> Result<(), Fail> {
    let mut lexer = Lexer::new(ANSWER);
    for (slice, dropped) in &DROPPED {
        let Some(Ok(token)) = lexer.next() else {
            return Err("no token")?;
        };
        assert!(rt; token.slice == *slice, "the token {slice:?}");
        try_token(&rt, rt.alloc(), &token, *dropped)?;
    }
    assert!(rt; lexer.next().is_none(), "no token more");
    Ok(())
}

// ---- words

// The words of the rules, and how each is answered as an operand in `wait if WORD is 1;`, and in `wait if no row where WORD is 1;`.
static WORDS: [(&[u8], Answer, Answer); 20] = [
    (b"refuse", Syntax(8), Syntax(21)),
    (b"wait", Syntax(8), Syntax(21)),
    (b"give", Syntax(8), Syntax(21)),
    (b"if", Syntax(8), Syntax(21)),
    (b"is", Syntax(8), Syntax(21)),
    (b"not", Syntax(8), Syntax(21)),
    (b"below", Syntax(8), Syntax(21)),
    (b"above", Syntax(8), Syntax(21)),
    (b"plus", Syntax(8), Syntax(21)),
    (b"minus", Syntax(8), Syntax(21)),
    (b"least", Syntax(8), Syntax(21)),
    (b"greatest", Syntax(17), Syntax(21)),
    (b"caller", Tree, Syntax(21)),
    (b"state", Tree, Tree),
    (b"row", Syntax(8), Syntax(21)),
    (b"where", Syntax(8), Syntax(21)),
    (b"else", Syntax(8), Syntax(21)),
    (b"first", Syntax(8), Syntax(21)),
    (b"some", Syntax(13), Syntax(21)),
    (b"no", Syntax(11), Syntax(21)),
];

// What stands before a name in a rule, where nothing else may stand, and what stands behind it.
static AROUND: [(&[u8], &[u8]); 3] = [
    (b"refuse ", b" if x is 1;}"),
    (b"give 1 plus greatest ", b";}"),
    (b"give first x where state is f else ", b";}"),
];

// The answer on the rules of a function, with this word between two pieces; its place is counted from where the rules open.
fn answer_around(
    alloc: Global,
    before: &[u8],
    word: &[u8],
    behind: &[u8],
) -> Result<Answer, AllocError> {
    let mut text = Vec::from_slice(alloc, facts())?;
    text.extend_from_slice(OPENED)?;
    text.extend_from_slice(before)?;
    text.extend_from_slice(word)?;
    text.extend_from_slice(behind)?;
    match answered(alloc, text.as_slice()) {
        Syntax(at) => Ok(Syntax(at.saturating_sub(OPENED.len()))),
        other => Ok(other),
    }
}

// A word of the rules is no name in a rule.
fn try_word(rt: &impl Abort, alloc: Global, word: &[u8]) -> Result<(), Fail> {
    for (before, behind) in &AROUND {
        let given = answer_around(alloc, before, word, behind)?;
        assert!(rt; given == Syntax(before.len()), "{word:?} behind {before:?}");
        let named = answer_around(alloc, before, b"name", behind)?;
        assert!(rt; named == Tree, "a name behind {before:?}");
    }
    Ok(())
}

#[test]
fn words_of_rules_are_no_names_in_rules(rt: HostRuntime) -> Result<(), Fail> {
    for (word, operand, pick) in &WORDS {
        try_word(&rt, rt.alloc(), word)?;
        let given = answer_around(rt.alloc(), b"wait if ", word, b" is 1;}")?;
        assert!(rt; given == *operand, "the operand {word:?}");
        let given = answer_around(rt.alloc(), b"wait if no row where ", word, b" is 1;}")?;
        assert!(rt; given == *pick, "the pick {word:?}");
    }
    Ok(())
}

// ---- brackets

// What stands before 10,000 opening brackets, or stars or words in a row, and the piece that stands so often, and how the whole is
// answered; places count from the end of the facts.
static NESTED: [(&[u8], &[u8], Answer); 15] = [
    (b"", b"{", Syntax(0)),
    (b"", b"(", Syntax(0)),
    (b"int ", b"(", Syntax(4)),
    (b"int f(", b"(", Syntax(6)),
    (b"int f(a ", b"desc_data(", Syntax(18)),
    (b"desc_data_unique(", b"(", Syntax(17)),
    (b"desc_data_most(x, ", b"(", Syntax(18)),
    (b"sm_answer", b"(", Syntax(10)),
    (b"sm_answer(f) ", b"{", Syntax(14)),
    (b"sm_answer(f) { ", b"{", Syntax(15)),
    (b"sm_answer(f) { give ", b"(", Syntax(20)),
    (b"sm_answer(f) { wait if ", b"(", Syntax(23)),
    (b"sm_answer(f) { wait if x is ", b"(", Syntax(28)),
    (b"sm_answer(f) { wait if ", b"greatest ", Syntax(32)),
    (b"sm_answer(f) { give first x where ", b"(", Syntax(34)),
];

// What stands before a piece that may stand 10,000 times, and behind.
static REPEATED: [(&[u8], &[u8], &[u8]); 6] = [
    (b"int f(a ", b"*", b"b);"),
    (b"desc_data_unique(x", b", x", b");"),
    (b"sm_answer(f) { give first x", b", x", b" else Held; }"),
    (b"sm_answer(f) { wait if x is 1", b", x is 1", b"; }"),
    (
        b"sm_answer(f) { wait if no row where x is 1",
        b", x is 1",
        b"; }",
    ),
    (
        b"sm_answer(f) { give row where x is 1",
        b", x is 1",
        b" else Held; }",
    ),
];

// The answer behind the facts on a piece that stands 10,000 times between two others.
fn answer_many(
    alloc: Global,
    before: &[u8],
    piece: &[u8],
    behind: &[u8],
) -> Result<Answer, AllocError> {
    let mut text = Vec::from_slice(alloc, facts())?;
    text.extend_from_slice(before)?;
    for _ in 0..10_000 {
        text.extend_from_slice(piece)?;
    }
    text.extend_from_slice(behind)?;
    Ok(answered(alloc, text.as_slice()))
}

#[test]
fn nothing_nests(rt: HostRuntime) -> Result<(), Fail> {
    for (before, piece, want) in &NESTED {
        let given = answer_many(rt.alloc(), before, piece, b"")?;
        assert!(rt; given == *want, "{piece:?} behind {before:?}");
    }
    for (before, piece, behind) in &REPEATED {
        let given = answer_many(rt.alloc(), before, piece, behind)?;
        assert!(rt; given == Tree, "{piece:?} behind {before:?}");
    }
    Ok(())
}

// ---- many rules

#[test]
fn a_function_may_have_many_rules(rt: HostRuntime) -> Result<(), Fail> {
    let mut text = Vec::from_slice(rt.alloc(), facts())?;
    text.extend_from_slice(OPENED)?;
    for _ in 0..8_000 {
        text.extend_from_slice(b"give 1; ")?;
    }
    let open = answer_on(rt.alloc(), text.as_slice());
    assert!(rt; open == Syntax(text.len()), "no brace at the end");
    text.push(b'}')?;
    assert!(rt; answer_on(rt.alloc(), text.as_slice()) == Tree);
    Ok(())
}
