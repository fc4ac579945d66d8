// The lines of a text in which its entries stand.
ghost use Rattle.std.specs.Prelude.{◌≡◌, ◌+◌, ◌<◌, ◌^◌, ◌==◌, ◌∷◌, length, position};
ghost use Rattle.sg_entries.specs.Inside.Cutting.{IsNext, line_feed, lines_from, lines_left};
ghost use Rattle.sg_entries.specs.Lines.{begins_entry, entry_lines_of};

use crate::rest::Rest;
use sg_lex::Spelled;
use std::marker::Model;

impl<'a> Rest<'a> {
    // The first line, and what is left after it.
    fn cut(self) -> (Spelled<'a>, Option<Rest<'a>>)
        ensures lines { lines_from self.entry.at self.entry.bytes.now ≡ result.0 ∷ lines_left result.1 }
        ensures within { result.0.at + length result.0.bytes < 2 ^ 64 }
    {
        let at = self.at;
        match first_end(self.bytes) {
            None => {
                let slice = self.bytes;
                (Spelled { slice, at }, None)
            }
            Some(end) => {
                let slice = &self.bytes[..end];
                let bytes = &self.bytes[end + 1..];
                let at_next = at + end + 1;
                (Spelled { slice, at }, Some(Rest { bytes, at: at_next }))
            }
        }
    }
}

/// The entry lines of a text that are still to come. Contracts see them.
#[derive(Drop)]
pub struct EntryLines<'a> {
    rest: Option<Rest<'a>>,
}

impl<'a> Model for EntryLines<'a> {
    ghost use Rattle.std.specs.Prelude.{List};
    ghost use Rattle.sg_entries.specs.sg_lex.Lexeme.{Spelling};
    ghost use Rattle.sg_entries.specs.Inside.Cutting.{lines_left};
    ghost use Rattle.sg_entries.specs.Lines.{front_lines};

    ghost Value = { List Spelling };

    ghost view = { λ l. front_lines (lines_left l.rest) };
}

impl<'a> EntryLines<'a> {
    /// The entry lines of a text.
    pub fn new(text: &'a [u8]) -> Self
        ensures { result ≡ entry_lines_of text.now }
    {
        let mut rest = Some(Rest { bytes: text, at: 0 });
        'lines: while let Some(left) = rest {
            let (line, after) = left.cut();
            if begins_entry(line.slice) {
                return EntryLines { rest };
            }
            rest = after;
        }
        EntryLines { rest }
    }

    /// The next line.
    pub fn next(&mut self) -> Option<Spelled<'a>>
        ensures { IsNext self.old result self.new }
    {
        let Some(rest) = self.rest else {
            return None;
        };
        let (line, after) = rest.cut();
        if !begins_entry(line.slice) {
            return None;
        }
        self.rest = after;
        Some(line)
    }
}

// The place of the first byte at which a line ends.
fn first_end(bytes: &[u8]) -> Option<usize>
    ensures { result ≡ position (λ b. b == line_feed) bytes.now }
{
    bytes.iter().position(|byte| *byte == b'\n')
}

// Whether a line begins as an entry's does: with `c` and a digit.
fn begins_entry(line: &[u8]) -> bool
    ensures { result ≡ begins_entry line.now }
{
    match line {
        [first, second, ..] => *first == b'c' && second.is_ascii_digit(),
        _ => false,
    }
}
