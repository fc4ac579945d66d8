// The tokens of a text, as a text of its version has them.
ghost use Rattle.std.specs.Prelude.{◌≡◌, ◌≤◌, [], ◌∷◌, length, map, true, IfOk, IfErr, MatchOption, Ok as answered, Err as failed};
ghost use Rattle.sg_lex.specs.Tokens.{answers_of};
ghost use Rattle.sg_lex.specs.Inside.Ahead.{Off};
ghost use Rattle.sg_rules.specs.Inside.Seen.{turned, kind_seen, seen_answer, seen_if, token_seen};

use crate::version::Newer;
use sg_lex::{LexFault, Reader as TextReader, Token, TokenKind, TokenTest};
use std::marker::Model;

/// What is still to be read of a text: what the parser takes its tokens from. In a text of a newer version the words that
/// the version keeps for itself are marks. Contracts see the answers that are to come, as the text's version has them, and
/// the text's length.
#[derive(Debug, Drop)]
pub struct Reader<'a> {
    tokens: TextReader<'a>,
    // the second version's words are marks
    second: bool,
    // the third version's words are marks
    third: bool,
}

impl<'a> Model for Reader<'a> {
    ghost use Rattle.sg_lex.specs.Inside.Automata.{Reading};
    ghost use Rattle.sg_rules.specs.Inside.Seen.{answers_seen};

    ghost Value = { Reading };

    ghost view = { λ r. record { rest = answers_seen r.second r.third r.tokens.rest; end = r.tokens.end } };
}

impl<'a> Reader<'a> {
    /// A reader at the front of a text, which has no version yet.
    pub fn new(text: &'a [u8]) -> Reader<'a>
        ensures { result ≡ record { rest = answers_of text.now; end = length text.now } }
    {
        Reader {
            tokens: TextReader::new(text),
            second: false,
            third: false,
        }
    }

    /// The length of the text; no more answers are to come.
    pub fn end(&self) -> usize
        ensures end { result ≡ self.now.end }
        ensures room { length self.now.rest ≤ result }
    {
        self.tokens.end()
    }

    /// Has the words that this version keeps for itself as marks in what is to come; a second call takes that back.
    pub fn go_on_as(&mut self, version: Newer)
        ensures rest { self.new.rest ≡ map (seen_answer version) self.old.rest }
        ensures end { self.new.end ≡ self.old.end }
    {
        match version {
            Newer::Second => self.second = !self.second,
            Newer::Third => self.third = !self.third,
        }
    }

    /// Takes the next token; None at the end of the text. The lexer's fault is an error, and nothing comes after it.
    pub fn next(&mut self) -> Result<Option<Token<'a>>, LexFault>
        ensures token { IfOk result (λ next. MatchOption next ((self.old.rest ≡ []) × (self.new.rest ≡ []))
            (λ token. self.old.rest ≡ answered token ∷ self.new.rest)) }
        ensures fault { IfErr result (λ fault. self.old.rest ≡ failed fault ∷ self.new.rest) }
        ensures end { self.new.end ≡ self.old.end }
    {
        match self.tokens.next()? {
            Some(token) => Ok(Some(token_seen(&token, self.second, self.third))),
            None => Ok(None),
        }
    }

    /// Takes the next token where this test holds of it; None, and nothing is taken, where it doesn't or the text ends.
    pub fn take<T: TokenTest>(&mut self, test: T) -> Result<Option<Token<'a>>, LexFault>
        ensures token { IfOk result (λ taken. MatchOption taken ((self.new ≡ self.old) × Off (T.holds_of test) self.old.rest)
            (λ token. (self.old.rest ≡ answered token ∷ self.new.rest) × (T.holds_of test token ≡ true))) }
        ensures fault { IfErr result (λ fault. self.old.rest ≡ failed fault ∷ self.new.rest) }
        ensures end { self.new.end ≡ self.old.end }
    {
        let second = self.second;
        let third = self.third;
        let seen = AsSeen {
            test,
            second,
            third,
        };
        match self.tokens.take(seen)? {
            Some(token) => Ok(Some(token_seen(&token, second, third))),
            None => Ok(None),
        }
    }
}

// The test of a token, as a text of its version has it.
#[derive(Drop)]
struct AsSeen<T> {
    test: T,
    second: bool,
    third: bool,
}

impl<T: TokenTest> TokenTest for AsSeen<T> {
    ghost use Rattle.sg_rules.specs.Inside.Seen.{token_seen};

    ghost holds_of = { λ test token. T.holds_of test.test (token_seen test.second test.third token) };

    fn holds(&self, token: &Token<'_>) -> bool {
        self.test.holds(&token_seen(token, self.second, self.third))
    }
}

// A token, as a text of these versions has it.
fn token_seen<'a>(token: &Token<'a>, second: bool, third: bool) -> Token<'a>
    ensures { result ≡ token_seen second third token.now }
{
    seen_if(&seen_if(token, second, Newer::Second), third, Newer::Third)
}

// A token, as a text of a version has it, where it is of the version.
fn seen_if<'a>(token: &Token<'a>, newer: bool, version: Newer) -> Token<'a>
    ensures { result ≡ seen_if newer version token.now }
{
    let kind = if newer {
        kind_seen(version, token.slice, token.kind)
    } else {
        token.kind
    };
    Token {
        kind,
        slice: token.slice,
        at: token.at,
    }
}

// The kind of a token of these bytes in a text of a version.
fn kind_seen(version: Newer, bytes: &[u8], kind: TokenKind) -> TokenKind
    ensures { result ≡ kind_seen version bytes.now kind }
{
    if version.keeps(bytes) {
        turned(kind)
    } else {
        kind
    }
}

// The other kind of a kept word.
fn turned(kind: TokenKind) -> TokenKind
    ensures { result ≡ turned kind }
{
    match kind {
        TokenKind::Word => TokenKind::Mark,
        TokenKind::Mark => TokenKind::Word,
        TokenKind::Number | TokenKind::Text => kind,
    }
}
