// A place in a text as it is shown.
ghost use Rattle.std.specs.Prelude.{◌≡◌, ◌≤◌, ◌==◌, ◌++◌, if◌then◌else◌, drop, length, map, not, take, OnOk};
ghost use Rattle.std.specs.List.{after_last, before_first, prefix_len, suffix_len, take_while};
ghost use Rattle.sg_explain.specs.Places.{place_lines, shown_front, without_return};
ghost use Rattle.sg_input.specs.sg_script.sg_lex.Bytes.{is_in_word};

use crate::parts::put;
use sg_input::{Bytes, NoMemory};

/// Adds the line of a place as it stands, and a line with a mark under the place. Places are counted in bytes, from 0.
pub(crate) fn put_place(out: &mut Bytes, text: &[u8], at: usize) -> Result<(), NoMemory>
    ensures { OnOk result (out.new ≡ out.old ++ place_lines text.now at) }
{
    let before = line_before(text, at);
    put(out, &[before, line_from(text, at), b"\n"])?;
    put_blanks(out, before)?;
    put(out, &[b"^", b"\n"])
}

/// Adds what stands at a place.
pub(crate) fn put_shown(out: &mut Bytes, text: &[u8], at: usize) -> Result<(), NoMemory>
    ensures { OnOk result (out.new ≡ out.old ++ shown_front (drop at text.now)) }
{
    put_front(out, rest_at(text, at))
}

// Adds what stands in front of a text.
fn put_front(out: &mut Bytes, text: &[u8]) -> Result<(), NoMemory>
    ensures { OnOk result (out.new ≡ out.old ++ shown_front text.now) }
{
    match text {
        [] => put(out, &[b"the end"]),
        [first, ..] if is_in_word(*first) => put(out, &[b"`", word_in_front(text), b"`"]),
        [first, ..] => put(out, &[b"`", &[*first], b"`"]),
    }
}

// The word in front of a text.
fn word_in_front(text: &[u8]) -> &[u8]
    ensures { result.now ≡ take_while is_in_word text.now }
{
    &text[..word_len(text)]
}

// How many bytes at the front a word goes on with.
fn word_len(text: &[u8]) -> usize
    ensures value { result ≡ prefix_len is_in_word text.now }
    ensures within { result ≤ length text.now }
{
    text.iter().take_while(|byte| is_in_word(**byte)).count()
}

// Whether a word goes on with this byte.
fn is_in_word(byte: u8) -> bool
    ensures { result ≡ is_in_word byte }
{
    byte.is_ascii_alphabetic() || byte == b'_' || byte.is_ascii_digit()
}

// What stands before a place in its line.
fn line_before(text: &[u8], at: usize) -> &[u8]
    ensures { result.now ≡ after_last (λ b. b == 10) (take at text.now) }
{
    last_line(front_at(text, at))
}

// What stands before a place.
fn front_at(text: &[u8], at: usize) -> &[u8]
    ensures { result.now ≡ take at text.now }
{
    text.get(..at).unwrap_or(text)
}

// What stands after the last LF.
fn last_line(text: &[u8]) -> &[u8]
    ensures { result.now ≡ after_last (λ b. b == 10) text.now }
{
    &text[text.len() - last_line_len(text)..]
}

// How many bytes stand after the last LF.
fn last_line_len(text: &[u8]) -> usize
    ensures value { result ≡ suffix_len (λ b. not (b == 10)) text.now }
    ensures within { result ≤ length text.now }
{
    text.iter().rev().take_while(|byte| **byte != b'\n').count()
}

// What stands from a place on in its line, without a CR at the end.
fn line_from(text: &[u8], at: usize) -> &[u8]
    ensures { result.now ≡ without_return (before_first (λ b. b == 10) (drop at text.now)) }
{
    without_return(first_line(rest_at(text, at)))
}

// What stands from a place on.
fn rest_at(text: &[u8], at: usize) -> &[u8]
    ensures { result.now ≡ drop at text.now }
{
    text.get(at..).unwrap_or(b"")
}

// What stands before the first LF.
fn first_line(text: &[u8]) -> &[u8]
    ensures { result.now ≡ before_first (λ b. b == 10) text.now }
{
    &text[..line_len(text)]
}

// How many bytes stand before the first LF.
fn line_len(text: &[u8]) -> usize
    ensures value { result ≡ prefix_len (λ b. not (b == 10)) text.now }
    ensures within { result ≤ length text.now }
{
    text.iter().take_while(|byte| **byte != b'\n').count()
}

// A line without a CR at the end.
fn without_return(line: &[u8]) -> &[u8]
    ensures { result.now ≡ without_return line.now }
{
    match line.last() {
        Some(b'\r') => &line[..line.len() - 1],
        _ => line,
    }
}

// Adds a space for each byte, and a tab for a tab.
fn put_blanks(out: &mut Bytes, before: &[u8]) -> Result<(), NoMemory>
    ensures { OnOk result (out.new ≡ out.old ++ map (λ b. if b == 9 then 9 else 32) before.now) }
{
    for byte in before {
        out.push(blank_for(*byte))?;
    }
    Ok(())
}

// A tab for a tab, and a space for any other byte.
fn blank_for(byte: u8) -> u8
    ensures { result ≡ (if byte == 9 then 9 else 32) }
{
    if byte == b'\t' { b'\t' } else { b' ' }
}
