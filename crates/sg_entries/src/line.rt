// What is still to be read of a line.
ghost use Rattle.std.specs.Prelude.{◌≡◌, ◌≤◌, ◌+◌, length, MatchBool};
ghost use Rattle.sg_entries.specs.Inside.Ahead.{Came, Off, front_of, after_of};

use crate::syntax::EntrySyntax;
use sg_lex::Spelled;
use std::marker::Model;

/// What is still to be read of a line. Contracts see its bytes, and the place of the first.
#[derive(Debug, Drop)]
pub struct Line<'a> {
    text: &'a [u8],
    at: usize,
}

impl<'a> Model for Line<'a> {
    ghost use Rattle.std.specs.Prelude.{length, drop, ◌≤◌};
    ghost use Rattle.sg_entries.specs.Inside.Reads.{Ahead};

    ghost Value = { Ahead };

    ghost view = { λ l. record { at = l.at; rest = drop l.at l.text.now } };

    ghost invariant = { λ l. l.at ≤ length l.text.now };
}

impl<'a> Line<'a> {
    /// The whole of a line.
    pub fn new(text: &'a [u8]) -> Line<'a>
        ensures { result ≡ record { at = 0; rest = text.now } }
    {
        Line { text, at: 0 }
    }

    /// The place of the first byte.
    pub fn at(&self) -> usize
        ensures { result ≡ self.now.at }
    {
        self.at
    }

    /// The bytes, lent.
    pub fn rest(&self) -> &'a [u8]
        ensures { result.now ≡ self.now.rest }
    {
        &self.text[self.at..]
    }

    /// The error at the first byte, or at the end of the line.
    pub fn fault(&self) -> EntrySyntax
        ensures { result ≡ EntrySyntax.Syntax self.now.at }
    {
        EntrySyntax::Syntax { at: self.at }
    }

    /// The error after so many bytes.
    pub fn fault_after(&self, len: usize) -> EntrySyntax
        requires { len ≤ length self.now.rest }
        ensures { result ≡ EntrySyntax.Syntax (self.now.at + len) }
    {
        EntrySyntax::Syntax { at: self.at + len }
    }

    /// Takes so many bytes.
    pub fn take(&mut self, len: usize) -> Spelled<'a>
        requires { len ≤ length self.old.rest }
        ensures spelt { result ≡ front_of len self.old }
        ensures left { self.new ≡ after_of len self.old }
    {
        let at = self.at;
        let slice = &self.text[at..at + len];
        self.at = at + len;
        Spelled { slice, at }
    }

    /// Takes the first byte where it is this one, and says whether it was; else nothing is taken.
    pub fn take_byte(&mut self, byte: u8) -> bool
        ensures { MatchBool result (Came byte self.old self.new) ((self.new ≡ self.old) × Off byte self.old.rest) }
    {
        let comes = self.text.get(self.at) == Some(&byte);
        if comes {
            self.at += 1;
        }
        comes
    }
}
