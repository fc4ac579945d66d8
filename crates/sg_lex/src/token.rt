// Tokens, and places at which none begins.
ghost use Rattle.std.specs.Prelude.{◌≡◌};
ghost use Rattle.sg_lex.specs.Inside.Tests.{has_kind, is_this_mark, is_fixed};

use std::marker::Model;

/// What a token is.
#[derive(Clone, Copy, Debug, PartialEq, Eq)]
pub enum TokenKind {
    /// A letter or `_`, and then letters, digits and `_`.
    Word,
    /// Decimal digits; leading zeros are allowed.
    Number,
    /// Printable bytes between double quotes, the quotes with it. There are no escapes.
    Text,
    /// One of `{ } ( ) = , ; * $`.
    Mark,
}

/// A token of a text. Contracts see its kind, its bytes and its place.
#[derive(Debug, Drop)]
pub struct Token<'a> {
    pub kind: TokenKind,
    /// The bytes of the token, lent from the text.
    pub slice: &'a [u8],
    /// The place of the first byte in the text, counted from 0.
    pub at: usize,
}

impl<'a> Model for Token<'a> {
    ghost use Rattle.sg_lex.specs.Lexeme.{Lexeme};

    ghost Value = { Lexeme };

    ghost view = { λ t. record { kind = t.kind; bytes = t.slice.now; at = t.at } };
}

impl<'a> Token<'a> {
    /// Whether it is of this kind.
    pub fn has_kind(&self, kind: TokenKind) -> bool
        ensures { result ≡ has_kind kind self.now }
    {
        self.kind == kind
    }

    /// Whether it is this mark.
    pub fn is_mark(&self, byte: u8) -> bool
        ensures { result ≡ is_this_mark byte self.now }
    {
        self.has_kind(TokenKind::Mark) && self.slice == [byte].as_slice()
    }

    /// Whether it is this word.
    pub fn is_word(&self, bytes: &[u8]) -> bool
        ensures { result ≡ is_fixed bytes.now self.now }
    {
        self.has_kind(TokenKind::Word) && self.slice == bytes
    }
}

/// A byte that begins no token, or a text or a comment without an end.
#[derive(Clone, Copy, Debug, PartialEq, Eq)]
pub struct LexFault {
    /// The place of that byte, or of the first byte of the text or comment, counted from 0.
    pub at: usize,
}
