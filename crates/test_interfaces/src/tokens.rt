// The tokens of texts, with values from outside.
use sg_print::TokenKind::{Mark, Number, Text, Word};
use sg_print::{LexFault, Lexer, TokenKind, first_token};
use std::process::Abort;
use std::test::Fail;

// A text; its tokens, each by its kind, its place and its number of bytes; and the place of the fault after them.
type Case = (
    &'static [u8],
    &'static [(TokenKind, usize, usize)],
    Option<usize>,
);

static TOKENS: [Case; 16] = [
    (b"", &[], None),
    (b"_", &[(Word, 0, 1)], None),
    (b"_a1_Z9", &[(Word, 0, 6)], None),
    (b"lock_take 17", &[(Word, 0, 9), (Number, 10, 2)], None),
    (b"007", &[(Number, 0, 3)], None),
    (b"12ab", &[(Number, 0, 2), (Word, 2, 2)], None),
    (b"1_", &[(Number, 0, 1), (Word, 1, 1)], None),
    (
        b"{}()",
        &[(Mark, 0, 1), (Mark, 1, 1), (Mark, 2, 1), (Mark, 3, 1)],
        None,
    ),
    (
        b"f(a);",
        &[
            (Word, 0, 1),
            (Mark, 1, 1),
            (Word, 2, 1),
            (Mark, 3, 1),
            (Mark, 4, 1),
        ],
        None,
    ),
    (b"\"\"", &[(Text, 0, 2)], None),
    (b"\"// ~\\\"x", &[(Text, 0, 7), (Word, 7, 1)], None),
    (b"a \"b", &[(Word, 0, 1)], Some(2)),
    (b"\"", &[], Some(0)),
    (b"\"a\nb\"", &[], Some(0)),
    (b"\"\x7F\"", &[], Some(0)),
    (b"\"\x80\"", &[], Some(0)),
];

static GAPS: [Case; 18] = [
    (b" \r\n\ta ", &[(Word, 4, 1)], None),
    (b"//", &[], None),
    (b"// a \"b", &[], None),
    (b"// a\rb\nc", &[(Word, 7, 1)], None),
    (b"// \x00\x80 \xFF\nd", &[(Word, 8, 1)], None),
    (b"a/* b \x00 */c", &[(Word, 0, 1), (Word, 10, 1)], None),
    (b"/**/a", &[(Word, 4, 1)], None),
    (b"/***/a", &[(Word, 5, 1)], None),
    (b"/*/*/a", &[(Word, 5, 1)], None),
    // The first `*/` closes a comment: there are no comments in comments.
    (b"/* /* */ */", &[(Mark, 9, 1)], Some(10)),
    (b"a /*/", &[(Word, 0, 1)], Some(2)),
    (b"/*", &[], Some(0)),
    (b"/", &[], Some(0)),
    (b"a / b", &[(Word, 0, 1)], Some(2)),
    (b"*/", &[(Mark, 0, 1)], Some(1)),
    (b"a\x00b", &[(Word, 0, 1)], Some(1)),
    (b"a-b", &[(Word, 0, 1)], Some(1)),
    (b"\x0Ba", &[], Some(0)),
];

// Asserts that each text has its tokens, then its fault, and then nothing, as often as the lexer is asked.
fn try_each(rt: &impl Abort, cases: &[Case]) {
    for (text, tokens, fault) in cases {
        let mut lexer = Lexer::new(text);
        for (kind, at, length) in *tokens {
            let Some(Ok(token)) = lexer.next() else {
                assert!(rt; false, "a token at {at} of {text:?}");
                return;
            };
            let bytes = text.get(*at..at.saturating_add(*length));
            assert!(rt; token.kind == *kind, "the kind at {at} of {text:?}");
            assert!(rt; token.at == *at, "the place {at} of {text:?}");
            assert!(rt; bytes == Some(token.slice), "the bytes at {at} of {text:?}");
        }
        if let Some(place) = fault {
            let faults = matches!(lexer.next(), Some(Err(LexFault { at })) if at == *place);
            assert!(rt; faults, "a fault at {place} of {text:?}");
        }
        assert!(rt;
            lexer.next().is_none() && lexer.next().is_none(),
            "nothing more of {text:?}"
        );
    }
}

#[test]
fn cuts_texts_into_tokens(rt: HostRuntime) {
    try_each(&rt, &TOKENS);
    try_each(&rt, &GAPS);
}

// Each byte alone: a blank is passed, a letter, a digit, `_` and a mark are tokens, and any other is a fault.
#[test]
fn answers_each_byte(rt: HostRuntime) {
    for byte in 0..=255u8 {
        let text = [byte];
        let answered = match Lexer::new(&text).next() {
            Some(Ok(token)) => Ok(Some(token.kind)),
            Some(Err(_)) => Err(()),
            None => Ok(None),
        };
        let want = match byte {
            b'a'..=b'z' | b'A'..=b'Z' | b'_' => Ok(Some(Word)),
            b'0'..=b'9' => Ok(Some(Number)),
            b'{' | b'}' | b'(' | b')' | b'=' | b',' | b';' | b'*' | b'$' => Ok(Some(Mark)),
            b' ' | b'\t' | b'\r' | b'\n' => Ok(None),
            _ => Err(()),
        };
        assert!(rt; answered == want, "at {byte}");
    }
}

#[test]
fn takes_a_word_of_65_536_bytes(rt: HostRuntime) -> Result<(), Fail> {
    let word = [b'w'; 65_536];
    let Some(Ok(token)) = first_token(&word) else {
        return Err("no word")?;
    };
    assert!(rt; token.kind == Word && token.slice.len() == 65_536);
    assert!(rt; matches!(first_token(b" #"), Some(Err(LexFault { at: 1 }))));
    Ok(())
}
