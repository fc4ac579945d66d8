// What a tree is read by: the tokens of a text, and the errors where they don't come.
ghost use Rattle.std.specs.Prelude.{◌≡◌, ◌≤◌, ◌<◌, [], ◌∷◌, length, true, IfOk, IfErr, OnOk, MatchOption, MatchBool, Ok as answered};
ghost use Rattle.sg_parse.specs.Grammar.Words.{is_of};
ghost use Rattle.sg_rules.specs.sg_lex.Lexeme.{Spelling as Named};
ghost use Rattle.sg_parse.specs.Grammar.Inside.States.{State, dead, due, fork, want, want_number, versioned, has_sort, fits, named_by, trees};
ghost use Rattle.sg_parse.specs.Grammar.Pieces.{mark, word, version_number, kept, are_digit, are_of};
ghost use Rattle.sg_rules.specs.sg_lex.Inside.Automata.{read, Leads};
ghost use Rattle.sg_rules.specs.sg_lex.Inside.Ahead.{Off, Came};
ghost use Rattle.sg_rules.specs.sg_lex.Inside.Tests.{has_kind};
ghost use Rattle.sg_rules.specs.sg_lex.declared.token.TokenKind.TheVariants.{Number as a_number};
ghost use Rattle.sg_parse.specs.Inside.{named_token, number_token, one_of, version_of};

use crate::words::Sort;
use sg_rules::{
    IsKind, IsMark, IsWord, LexFault, Newer, ParseError, Reader, Spelled, Token, TokenKind,
    TokenTest,
};

/// Takes the next token; None at the end of the text. A byte that begins none is a `Lex` error.
pub fn next_token<'a>(reader: &mut Reader<'a>) -> Result<Option<Token<'a>>, ParseError>
    ensures token { IfOk result (λ next. MatchOption next ((reader.old.rest ≡ []) × (reader.new.rest ≡ []))
        (λ token. reader.old.rest ≡ answered token ∷ reader.new.rest)) }
    ensures fault { IfErr result (λ error. (s : State) → read trees s reader.old ≡ Err error) }
    ensures end { reader.new.end ≡ reader.old.end }
{
    reader.next().map_err(fault_error)
}

/// Takes the next token where it is a word of this sort; None, and nothing is taken, where it isn't or the text ends.
pub fn take_word<'a>(reader: &mut Reader<'a>, sort: Sort) -> Result<Option<Spelled<'a>>, ParseError>
    ensures word { IfOk result (λ word. MatchOption word ((reader.new ≡ reader.old) × Off (has_sort sort) reader.old.rest)
        (λ name. (reader.old.rest ≡ answered (named_token name) ∷ reader.new.rest) × (is_of sort name.bytes ≡ true))) }
    ensures fault { IfErr result (λ error. (s : State) → read trees s reader.old ≡ Err error) }
    ensures end { reader.new.end ≡ reader.old.end }
{
    match reader.take(HasSort(sort)) {
        Ok(taken) => Ok(taken.map(name_of)),
        Err(fault) => Err(fault_error(fault)),
    }
}

/// Takes the next token where it is this mark, and says whether it was; else nothing is taken.
pub fn take_mark(reader: &mut Reader<'_>, byte: u8) -> Result<bool, ParseError>
    ensures mark { IfOk result (λ taken. MatchBool taken (Came (fits (mark (byte ∷ []))) reader.old.rest reader.new.rest)
        ((reader.new ≡ reader.old) × Off (fits (mark (byte ∷ []))) reader.old.rest)) }
    ensures fault { IfErr result (λ error. (s : State) → read trees s reader.old ≡ Err error) }
    ensures end { reader.new.end ≡ reader.old.end }
{
    match reader.take(IsMark(byte)) {
        Ok(taken) => Ok(taken.is_some()),
        Err(fault) => Err(fault_error(fault)),
    }
}

/// Takes this mark.
#[tactic(auto, using(crate::proofs::ByToken::due_came, crate::proofs::ByToken::due_missing))]
pub fn mark(reader: &mut Reader<'_>, byte: u8) -> Result<(), ParseError>
    ensures leads { (k : State) → Leads trees (read trees (due (mark (byte ∷ [])) k) reader.old) result (λ _. k) reader.new }
    ensures fewer { OnOk result (length reader.new.rest ≤ length reader.old.rest) }
{
    if take_mark(reader, byte)? {
        Ok(())
    } else {
        Err(unexpected(reader))
    }
}

/// Takes this word.
#[tactic(auto, using(crate::proofs::ByToken::due_came, crate::proofs::ByToken::due_missing))]
pub fn fixed(reader: &mut Reader<'_>, bytes: &[u8]) -> Result<(), ParseError>
    ensures leads { (k : State) → Leads trees (read trees (due (word bytes.now) k) reader.old) result (λ _. k) reader.new }
    ensures fewer { OnOk result (length reader.new.rest ≤ length reader.old.rest) }
{
    if take_fixed(reader, bytes)? {
        Ok(())
    } else {
        Err(unexpected(reader))
    }
}

/// Takes the next token where it is this word, and says whether it was: the text goes on in the one way or the other.
#[tactic(auto, using(crate::proofs::ByToken::fork_came, crate::proofs::ByToken::fork_missing))]
pub fn forked(reader: &mut Reader<'_>, bytes: &[u8]) -> Result<bool, ParseError>
    ensures leads { (s other : State) → Leads trees (read trees (fork bytes.now s other) reader.old) result (one_of s other) reader.new }
    ensures fewer { OnOk result (length reader.new.rest ≤ length reader.old.rest) }
{
    take_fixed(reader, bytes)
}

/// Takes the number of a version after the first. Zeros may come first in it.
#[tactic(auto, using(crate::proofs::ByToken::second_came, crate::proofs::ByToken::third_came, crate::proofs::ByToken::no_version))]
pub fn version(reader: &mut Reader<'_>) -> Result<Newer, ParseError>
    ensures leads { (two three : State) → Leads trees (read trees (versioned two three) reader.old) result (version_of two three) reader.new }
    ensures fewer { OnOk result (length reader.new.rest ≤ length reader.old.rest) }
{
    if take_version(reader, Newer::Second)? {
        return Ok(Newer::Second);
    }
    if take_version(reader, Newer::Third)? {
        return Ok(Newer::Third);
    }
    Err(unexpected(reader))
}

/// Takes a number.
#[tactic(auto, using(crate::proofs::ByToken::number_came, crate::proofs::ByToken::number_missing))]
pub fn number<'a>(reader: &mut Reader<'a>) -> Result<Spelled<'a>, ParseError>
    ensures leads { (k : Named → State) → Leads trees (read trees (want_number k) reader.old) result k reader.new }
    ensures fewer { OnOk result (length reader.new.rest ≤ length reader.old.rest) }
{
    match take_number(reader)? {
        Some(number) => Ok(number),
        None => Err(unexpected(reader)),
    }
}

/// Takes a word of this sort.
#[tactic(auto, using(crate::proofs::ByToken::word_came, crate::proofs::ByToken::word_missing))]
pub fn word_of<'a>(reader: &mut Reader<'a>, sort: Sort) -> Result<Spelled<'a>, ParseError>
    ensures leads { (k : Named → State) → Leads trees (read trees (want sort k) reader.old) result k reader.new }
    ensures fewer { OnOk result (length reader.new.rest ≤ length reader.old.rest) }
{
    match take_word(reader, sort)? {
        Some(name) => Ok(name),
        None => Err(unexpected(reader)),
    }
}

/// The error where no token may come that comes next, or where the text may not end.
#[tactic(auto, using(crate::proofs::ByToken::dead_token, crate::proofs::ByToken::dead_end))]
pub fn unexpected(reader: &mut Reader<'_>) -> ParseError
    ensures error { read trees dead reader.old ≡ Err result }
{
    match next_token(reader) {
        Ok(Some(token)) => ParseError::Syntax { at: token.at },
        Ok(None) => ParseError::Syntax { at: reader.end() },
        Err(error) => error,
    }
}

// Takes the next token where it is this word, and says whether it was; else nothing is taken.
fn take_fixed(reader: &mut Reader<'_>, bytes: &[u8]) -> Result<bool, ParseError>
    ensures word { IfOk result (λ taken. MatchBool taken (Came (fits (word bytes.now)) reader.old.rest reader.new.rest)
        ((reader.new ≡ reader.old) × Off (fits (word bytes.now)) reader.old.rest)) }
    ensures fault { IfErr result (λ error. (s : State) → read trees s reader.old ≡ Err error) }
    ensures end { reader.new.end ≡ reader.old.end }
{
    match reader.take(IsWord(bytes)) {
        Ok(taken) => Ok(taken.is_some()),
        Err(fault) => Err(fault_error(fault)),
    }
}

// Takes the next token where it is a number; None, and nothing is taken, where it isn't or the text ends.
fn take_number<'a>(reader: &mut Reader<'a>) -> Result<Option<Spelled<'a>>, ParseError>
    ensures number { IfOk result (λ number. MatchOption number ((reader.new ≡ reader.old) × Off (has_kind a_number) reader.old.rest)
        (λ n. reader.old.rest ≡ answered (number_token n) ∷ reader.new.rest)) }
    ensures fault { IfErr result (λ error. (s : State) → read trees s reader.old ≡ Err error) }
    ensures end { reader.new.end ≡ reader.old.end }
{
    match reader.take(IsKind(TokenKind::Number)) {
        Ok(taken) => Ok(taken.map(name_of)),
        Err(fault) => Err(fault_error(fault)),
    }
}

// Takes the next token where it is the number of this version, and says whether it was; else nothing is taken.
fn take_version(reader: &mut Reader<'_>, version: Newer) -> Result<bool, ParseError>
    ensures number { IfOk result (λ taken. MatchBool taken (Came (fits (version_number version)) reader.old.rest reader.new.rest)
        ((reader.new ≡ reader.old) × Off (fits (version_number version)) reader.old.rest)) }
    ensures fault { IfErr result (λ error. (s : State) → read trees s reader.old ≡ Err error) }
    ensures end { reader.new.end ≡ reader.old.end }
{
    match reader.take(IsVersion(version)) {
        Ok(taken) => Ok(taken.is_some()),
        Err(fault) => Err(fault_error(fault)),
    }
}

// The error at a byte that begins no token.
fn fault_error(fault: LexFault) -> ParseError
    ensures { result ≡ ParseError.Lex fault.at }
{
    ParseError::Lex { at: fault.at }
}

/// The name, or the number, that a token is.
pub fn name_of(token: Token<'_>) -> Spelled<'_>
    ensures { result ≡ named_by token.entry }
{
    Spelled {
        slice: token.slice,
        at: token.at,
    }
}

/// Whether a token is a word of this sort.
pub fn has_sort(token: &Token<'_>, sort: Sort) -> bool
    ensures { result ≡ has_sort sort token.now }
{
    token.has_kind(TokenKind::Word) && sort.has(token.slice)
}

/// Whether a token is a word that a version keeps for itself, in a text of that version.
pub fn is_kept(token: &Token<'_>, word: &[u8]) -> bool
    ensures { result ≡ fits (kept word.now) token.now }
{
    token.has_kind(TokenKind::Mark) && token.slice == word
}

// Whether digits are the number of a version.
fn are_of(version: Newer, digits: &[u8]) -> bool
    ensures { result ≡ are_of version digits.now }
{
    match version {
        Newer::Second => are_digit(b'2', digits),
        Newer::Third => are_digit(b'3', digits),
    }
}

// Whether digits are those of this one; zeros may come first.
fn are_digit(byte: u8, digits: &[u8]) -> bool
    requires { 0x30 < byte }
    ensures { result ≡ are_digit byte digits.now }
{
    let mut left = digits;
    'zeros: while let [b'0', more @ ..] = left {
        left = more;
    }
    left == [byte].as_slice()
}

// A token is the number of this version.
#[derive(Drop)]
struct IsVersion(Newer);

impl TokenTest for IsVersion {
    ghost holds_of = { λ test. fits (version_number test.0) };

    fn holds(&self, token: &Token<'_>) -> bool {
        token.has_kind(TokenKind::Number) && are_of(self.0, token.slice)
    }
}

// A token is a word of this sort.
#[derive(Drop)]
struct HasSort(Sort);

impl TokenTest for HasSort {
    ghost holds_of = { λ test. has_sort test.0 };

    fn holds(&self, token: &Token<'_>) -> bool {
        has_sort(token, self.0)
    }
}
