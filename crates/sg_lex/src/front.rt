// What stands at the front of a text.
ghost use Rattle.std.specs.Prelude.{◌≡◌, ◌+◌, ◌≤◌, ℕ, length, option_map};
ghost use Rattle.std.specs.Option.{IfSome};
ghost use Rattle.sg_lex.specs.Fronts.{front_of, closed_after};
ghost use Rattle.sg_lex.specs.Inside.Fronts.{quote_front, slash_front, front_len};

use crate::{TokenKind, bytes};

/// What stands at the front of a text.
#[derive(Clone, Copy)]
pub enum Front {
    /// Nothing: the text is empty.
    Ended,
    /// Bytes between tokens, by their number.
    Gap(usize),
    /// A token, by its kind and the number of its bytes.
    Token(TokenKind, usize),
    /// A byte that begins no token, or a text or a comment without an end.
    Fault,
}

/// What stands at the front of this text.
pub fn front_of(text: &[u8]) -> Front
    ensures value { result ≡ front_of text.now }
    ensures within { front_len result ≤ length text.now }
{
    let Some((first, behind)) = text.split_first() else {
        return Front::Ended;
    };
    let byte = *first;
    if bytes::is_blank(byte) {
        Front::Gap(1)
    } else if bytes::begins_word(byte) {
        Front::Token(TokenKind::Word, 1 + bytes::word_len(behind))
    } else if byte.is_ascii_digit() {
        Front::Token(TokenKind::Number, 1 + bytes::digits_len(behind))
    } else if bytes::is_mark(byte) {
        Front::Token(TokenKind::Mark, 1)
    } else if byte == b'"' {
        quote_front(behind)
    } else if byte == b'/' {
        slash_front(behind)
    } else {
        Front::Fault
    }
}

// What stands at the front after a `"`.
fn quote_front(behind: &[u8]) -> Front
    ensures value { result ≡ quote_front behind.now }
    ensures within { front_len result ≤ 1 + length behind.now }
{
    let n = bytes::text_len(behind);
    match behind.get(n) {
        Some(b'"') => Front::Token(TokenKind::Text, n + 2),
        _ => Front::Fault,
    }
}

// What stands at the front after a `/`.
fn slash_front(behind: &[u8]) -> Front
    ensures value { result ≡ slash_front behind.now }
    ensures within { front_len result ≤ 1 + length behind.now }
{
    match behind.split_first() {
        Some((b'/', line)) => Front::Gap(2 + bytes::line_len(line)),
        Some((b'*', comment)) => match closed_after(comment) {
            Some(n) => Front::Gap(2 + n),
            None => Front::Fault,
        },
        _ => Front::Fault,
    }
}

// How many bytes go up to the first `*/` and with it.
fn closed_after(comment: &[u8]) -> Option<usize>
    ensures value { result ≡ closed_after comment.now }
    ensures within { IfSome result (λ n. n ≤ length comment.now) }
{
    for at in 1..comment.len() {
        if comment[at - 1] == b'*' && comment[at] == b'/' {
            return Some(at + 1);
        }
    }
    None
}
