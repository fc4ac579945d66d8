// The tokens of a text, the next of which can be looked at and left.
ghost use Rattle.std.specs.Prelude.{◌≡◌, ◌≤◌, [], ◌∷◌, length, true, IfOk, IfErr, MatchOption, MatchBool, None as no_token, Ok as answered, Err as failed};
ghost use Rattle.sg_lex.specs.Tokens.{answers_of};
ghost use Rattle.sg_lex.specs.Inside.Ahead.{with_ahead, Off, Came};
ghost use Rattle.sg_lex.specs.Inside.Tests.{is_this_mark};

use crate::token_test::{IsMark, TokenTest};
use crate::{LexFault, Lexer, Token};
use std::marker::Model;

/// What is still to be read of a text: what a parser takes its tokens from. Contracts see the lexer's answers that are to
/// come, and the text's length.
#[derive(Debug, Drop)]
pub struct Reader<'a> {
    lexer: Lexer<'a>,
    // a token that was looked at and left
    ahead: Option<Token<'a>>,
    end: usize,
}

impl<'a> Model for Reader<'a> {
    ghost use Rattle.std.specs.Prelude.{length, ◌≤◌};
    ghost use Rattle.sg_lex.specs.Inside.Automata.{Reading};
    ghost use Rattle.sg_lex.specs.Inside.Ahead.{with_ahead};

    ghost Value = { Reading };

    ghost view = { λ r. record { rest = with_ahead r.ahead r.lexer; end = r.end } };

    ghost invariant = { λ r. length (with_ahead r.ahead r.lexer) ≤ r.end };
}

impl<'a> Reader<'a> {
    /// A reader at the front of a text.
    pub fn new(text: &'a [u8]) -> Reader<'a>
        ensures { result ≡ record { rest = answers_of text.now; end = length text.now } }
    {
        Reader {
            lexer: Lexer::new(text),
            ahead: None,
            end: text.len(),
        }
    }

    /// The length of the text; no more answers of the lexer are to come.
    pub fn end(&self) -> usize
        ensures end { result ≡ self.now.end }
        ensures room { length self.now.rest ≤ result }
    {
        self.end
    }

    /// Takes the next token; None at the end of the text. The lexer's fault is an error, and nothing comes after it.
    pub fn next(&mut self) -> Result<Option<Token<'a>>, LexFault>
        ensures token { IfOk result (λ next. MatchOption next ((self.old.rest ≡ []) × (self.new.rest ≡ []))
            (λ token. self.old.rest ≡ answered token ∷ self.new.rest)) }
        ensures fault { IfErr result (λ fault. self.old.rest ≡ failed fault ∷ self.new.rest) }
        ensures end { self.new.end ≡ self.old.end }
    {
        next_token(&mut self.ahead, &mut self.lexer)
    }

    /// Takes the next token where this test holds of it; None, and nothing is taken, where it doesn't or the text ends.
    pub fn take<T: TokenTest>(&mut self, test: T) -> Result<Option<Token<'a>>, LexFault>
        ensures token { IfOk result (λ taken. MatchOption taken ((self.new ≡ self.old) × Off (T.holds_of test) self.old.rest)
            (λ token. (self.old.rest ≡ answered token ∷ self.new.rest) × (T.holds_of test token ≡ true))) }
        ensures fault { IfErr result (λ fault. self.old.rest ≡ failed fault ∷ self.new.rest) }
        ensures end { self.new.end ≡ self.old.end }
    {
        match next_token(&mut self.ahead, &mut self.lexer)? {
            Some(token) if test.holds(&token) => Ok(Some(token)),
            other => {
                self.ahead = other;
                Ok(None)
            }
        }
    }

    /// Takes the next token where it is this mark, and says whether it was; else nothing is taken.
    pub fn take_mark(&mut self, byte: u8) -> Result<bool, LexFault>
        ensures mark { IfOk result (λ taken. MatchBool taken (Came (is_this_mark byte) self.old.rest self.new.rest)
            ((self.new ≡ self.old) × Off (is_this_mark byte) self.old.rest)) }
        ensures fault { IfErr result (λ fault. self.old.rest ≡ failed fault ∷ self.new.rest) }
        ensures end { self.new.end ≡ self.old.end }
    {
        Ok(self.take(IsMark(byte))?.is_some())
    }
}

// Takes the token that was looked at, or else the next of the lexer.
fn next_token<'a>(
    ahead: &mut Option<Token<'a>>,
    lexer: &mut Lexer<'a>,
) -> Result<Option<Token<'a>>, LexFault>
    ensures taken { ahead.new ≡ no_token }
    ensures token { IfOk result (λ next. (with_ahead ahead.old lexer.old ≡ with_ahead next lexer.new)
        × (next ≡ no_token → lexer.new ≡ [])) }
    ensures fault { IfErr result (λ fault. with_ahead ahead.old lexer.old ≡ failed fault ∷ lexer.new) }
    ensures fewer { length (with_ahead ahead.new lexer.new) ≤ length (with_ahead ahead.old lexer.old) }
{
    if let Some(token) = ahead.take() {
        return Ok(Some(token));
    }
    lexer.next().transpose()
}
