// What a script's parts are read by: the tokens of a text, and the errors where they don't come.
ghost use Rattle.std.specs.Prelude.{◌≡◌, ◌≤◌, [], ◌∷◌, length, IfOk, IfErr, OnOk, MatchOption, MatchBool, Ok as answered};
ghost use Rattle.sg_lex.specs.Lexeme.{Spelling};
ghost use Rattle.sg_script_parse.specs.Grammar.Inside.States.{ScriptState, dead, due, want, want_word, spelt_by, scripts};
ghost use Rattle.sg_lex.specs.Inside.Automata.{read, Leads};
ghost use Rattle.sg_lex.specs.Inside.Ahead.{Off, Came};
ghost use Rattle.sg_lex.specs.Inside.Tests.{has_kind, is_this_mark};
ghost use Rattle.sg_script_parse.specs.Inside.{spelt_token};

use crate::error::ScriptSyntax;
use sg_lex::{IsKind, LexFault, Reader, Spelled, Token, TokenKind};

/// Takes the next token; None at the end of the text. A byte that begins none is an error.
#[tactic(auto, using(crate::proofs::ByToken::no_token_came))]
pub fn next_token<'a>(reader: &mut Reader<'a>) -> Result<Option<Token<'a>>, ScriptSyntax>
    ensures token { IfOk result (λ next. MatchOption next ((reader.old.rest ≡ []) × (reader.new.rest ≡ []))
        (λ token. reader.old.rest ≡ answered token ∷ reader.new.rest)) }
    ensures fault { IfErr result (λ error. (s : ScriptState) → read scripts s reader.old ≡ Err error) }
    ensures end { reader.new.end ≡ reader.old.end }
{
    reader.next().map_err(fault_error)
}

/// Takes the next token where it is of this kind; None, and nothing is taken, where it isn't or the text ends.
#[tactic(auto, using(crate::proofs::ByToken::no_token_came))]
pub fn take_spelled<'a>(
    reader: &mut Reader<'a>,
    kind: TokenKind,
) -> Result<Option<Spelled<'a>>, ScriptSyntax>
    ensures spelling { IfOk result (λ spelled. MatchOption spelled ((reader.new ≡ reader.old) × Off (has_kind kind) reader.old.rest)
        (λ s. reader.old.rest ≡ answered (spelt_token kind s) ∷ reader.new.rest)) }
    ensures fault { IfErr result (λ error. (s : ScriptState) → read scripts s reader.old ≡ Err error) }
    ensures end { reader.new.end ≡ reader.old.end }
{
    let taken = reader.take(IsKind(kind)).map_err(fault_error)?;
    Ok(taken.map(spelled_of))
}

/// Takes the next token where it is this mark, and says whether it was; else nothing is taken.
#[tactic(auto, using(crate::proofs::ByToken::no_token_came))]
pub fn take_mark(reader: &mut Reader<'_>, byte: u8) -> Result<bool, ScriptSyntax>
    ensures mark { IfOk result (λ taken. MatchBool taken (Came (is_this_mark byte) reader.old.rest reader.new.rest)
        ((reader.new ≡ reader.old) × Off (is_this_mark byte) reader.old.rest)) }
    ensures fault { IfErr result (λ error. (s : ScriptState) → read scripts s reader.old ≡ Err error) }
    ensures end { reader.new.end ≡ reader.old.end }
{
    reader.take_mark(byte).map_err(fault_error)
}

/// The error where no token may come that comes next, or where the text may not end.
#[tactic(auto, using(crate::proofs::ByToken::dead_token, crate::proofs::ByToken::dead_end))]
pub fn unexpected(reader: &mut Reader<'_>) -> ScriptSyntax
    ensures error { read scripts dead reader.old ≡ Err result }
{
    match next_token(reader) {
        Ok(Some(token)) => ScriptSyntax::Syntax { at: token.at },
        Ok(None) => ScriptSyntax::Syntax { at: reader.end() },
        Err(error) => error,
    }
}

/// Takes this mark.
#[tactic(auto, using(crate::proofs::ByToken::due_came, crate::proofs::ByToken::due_missing))]
pub fn mark(reader: &mut Reader<'_>, byte: u8) -> Result<(), ScriptSyntax>
    ensures leads { (k : ScriptState) → Leads scripts (read scripts (due byte k) reader.old) result (λ _. k) reader.new }
    ensures fewer { OnOk result (length reader.new.rest ≤ length reader.old.rest) }
{
    if take_mark(reader, byte)? {
        Ok(())
    } else {
        Err(unexpected(reader))
    }
}

/// Takes a number.
#[tactic(auto, using(crate::proofs::ByToken::number_came, crate::proofs::ByToken::number_missing))]
pub fn number<'a>(reader: &mut Reader<'a>) -> Result<Spelled<'a>, ScriptSyntax>
    ensures leads { (k : Spelling → ScriptState) → Leads scripts (read scripts (want k) reader.old) result k reader.new }
    ensures fewer { OnOk result (length reader.new.rest ≤ length reader.old.rest) }
{
    match take_spelled(reader, TokenKind::Number)? {
        Some(number) => Ok(number),
        None => Err(unexpected(reader)),
    }
}

/// Takes a word.
#[tactic(auto, using(crate::proofs::ByToken::word_came, crate::proofs::ByToken::word_missing))]
pub fn word<'a>(reader: &mut Reader<'a>) -> Result<Spelled<'a>, ScriptSyntax>
    ensures leads { (k : Spelling → ScriptState) → Leads scripts (read scripts (want_word k) reader.old) result k reader.new }
    ensures fewer { OnOk result (length reader.new.rest ≤ length reader.old.rest) }
{
    match take_spelled(reader, TokenKind::Word)? {
        Some(word) => Ok(word),
        None => Err(unexpected(reader)),
    }
}

// The error at a byte that begins no token.
fn fault_error(fault: LexFault) -> ScriptSyntax
    ensures { result ≡ ScriptSyntax.Syntax fault.at }
{
    ScriptSyntax::Syntax { at: fault.at }
}

// What a token spells.
fn spelled_of(token: Token<'_>) -> Spelled<'_>
    ensures { result ≡ spelt_by token.entry }
{
    Spelled {
        slice: token.slice,
        at: token.at,
    }
}
