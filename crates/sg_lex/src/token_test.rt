// Tests of tokens.
ghost use Rattle.std.specs.Prelude.{◌≡◌, Bool};
ghost use Rattle.sg_lex.specs.Lexeme.{Lexeme};
ghost use Rattle.sg_lex.specs.Inside.Tests.{has_kind, is_this_mark, is_fixed};

use crate::{Token, TokenKind};

/// What a token is asked for by a parser that takes it or leaves it.
pub trait TokenTest: Drop {
    /// Whether the test holds of a token.
    ghost holds_of: { Self → Lexeme → Bool };

    /// Whether the test holds of this token.
    fn holds(&self, token: &Token<'_>) -> bool
        ensures { result ≡ holds_of self.now token.now };
}

/// A token is of this kind.
#[derive(Clone, Copy, Debug)]
pub struct IsKind(pub TokenKind);

impl TokenTest for IsKind {
    ghost holds_of = { λ test. has_kind test.0 };

    fn holds(&self, token: &Token<'_>) -> bool {
        token.has_kind(self.0)
    }
}

/// A token is this mark.
#[derive(Clone, Copy, Debug)]
pub struct IsMark(pub u8);

impl TokenTest for IsMark {
    ghost holds_of = { λ test. is_this_mark test.0 };

    fn holds(&self, token: &Token<'_>) -> bool {
        token.is_mark(self.0)
    }
}

/// A token is this word.
#[derive(Clone, Copy, Debug)]
pub struct IsWord<'a>(pub &'a [u8]);

impl<'b> TokenTest for IsWord<'b> {
    ghost holds_of = { λ test. is_fixed test.0.now };

    fn holds(&self, token: &Token<'_>) -> bool {
        token.is_word(self.0)
    }
}
