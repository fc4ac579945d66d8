// What gives the tokens of a text in order.
ghost use Rattle.std.specs.Prelude.{◌≡◌, ◌+◌, ◌≤◌, ℕ, length, drop, take, slice_get};
ghost use Rattle.std.specs.Iterator.{YieldsFirst, item_count};
ghost use Rattle.sg_lex.specs.Fronts.{front_of};
ghost use Rattle.sg_lex.specs.Inside.Fronts.{front_len, IsNoGap};
ghost use Rattle.sg_lex.specs.Tokens.{answers_of, later_answers};

use crate::front::{Front, front_of};
use crate::{LexFault, Token, TokenKind};
use std::iter::FusedIterator;
use std::marker::Model;

/// The tokens of a text that are still to come. Contracts see the list of its answers to come.
#[derive(Debug, Drop)]
pub struct Lexer<'a> {
    text: &'a [u8],
    at: usize,
}

impl<'a> Model for Lexer<'a> {
    ghost use Rattle.std.specs.Prelude.{List, length, drop, ◌≤◌};
    ghost use Rattle.std.specs.declared.result.Result.{Result};
    ghost use Rattle.sg_lex.specs.declared.token.LexFault.{LexFault};
    ghost use Rattle.sg_lex.specs.Lexeme.{Lexeme};
    ghost use Rattle.sg_lex.specs.Tokens.{later_answers};

    ghost Value = { List (Result Lexeme LexFault) };

    ghost view = { λ l. later_answers 0 l.at (drop l.at l.text.now) };

    ghost invariant = { λ l. l.at ≤ length l.text.now };
}

impl<'a> Lexer<'a> {
    /// A lexer at the front of a text.
    pub fn new(text: &'a [u8]) -> Lexer<'a>
        ensures { result ≡ answers_of text.now }
    {
        Lexer { text, at: 0 }
    }
}

impl<'a> Iterator for Lexer<'a> {
    type Item = Result<Token<'a>, LexFault>;

    ghost next_gives = { YieldsFirst (λ rest. rest) };

    ghost remaining = { item_count (λ rest. rest) };

    /// The next token; or the fault at the first byte that begins no token, or at a text or a comment without an end;
    /// None at the end of the text, and after a fault.
    fn next(&mut self) -> Option<Result<Token<'a>, LexFault>> {
        let text = self.text;
        let (at, front) = after_gaps(text, self.at);
        match front {
            Front::Token(kind, len) => {
                self.at = at + len;
                Some(Ok(token_at(text, kind, at, len)))
            }
            Front::Fault => {
                self.at = text.len();
                Some(Err(LexFault { at }))
            }
            Front::Ended | Front::Gap(_) => {
                self.at = text.len();
                None
            }
        }
    }
}

impl<'a> FusedIterator for Lexer<'a> {}

/// The first answer on a text: its token lends from the text, so it outlives the lexer that gave it.
pub fn first_token(text: &[u8]) -> Option<Result<Token<'_>, LexFault>>
    ensures { result ≡ slice_get (answers_of text.now) 0 }
{
    Lexer::new(text).next()
}

// The token of this kind and so many bytes at this place.
fn token_at(text: &[u8], kind: TokenKind, at: usize, len: usize) -> Token<'_>
    requires { at + len ≤ length text.now }
    ensures { result ≡ record { kind = kind; bytes = take len (drop at text.now); at = at } }
{
    Token {
        kind,
        slice: &text[at..at + len],
        at,
    }
}

// The first place at or after this one at which no gap stands, and what stands there.
fn after_gaps(text: &[u8], from: usize) -> (usize, Front)
    requires { from ≤ length text.now }
    ensures front { result.1 ≡ front_of (drop result.0 text.now) }
    ensures no_gap { IsNoGap result.1 }
    ensures within { result.0 + front_len result.1 ≤ length text.now }
    ensures answers { later_answers 0 result.0 (drop result.0 text.now) ≡ later_answers 0 from (drop from text.now) }
{
    let mut at = from;
    'gaps: loop {
        match front_of(&text[at..]) {
            Front::Gap(len) => at += len,
            front => return (at, front),
        }
    }
}
