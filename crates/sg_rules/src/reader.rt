// What rules are read by: the tokens of a text, and the errors where they don't come.
ghost use Rattle.std.specs.Prelude.{◌≡◌, ◌≤◌, ◌<◌, length, IfOk, IfErr, OnOk, MatchOption, MatchBool};
ghost use Rattle.sg_lex.specs.Lexeme.{Spelling};
ghost use Rattle.sg_lex.specs.Inside.Ahead.{Off, Came};
ghost use Rattle.sg_rules.specs.Grammar.Inside.States.{RuleState, dead, due, fork, want, take, fits, wants, spelt_by, rule_reader};
ghost use Rattle.sg_rules.specs.Inside.{either_of, one_of};
ghost use Rattle.sg_rules.specs.Inside.Parts.{part, LeadsOn, HasNoFault};

use crate::error::ParseError;
use crate::tokens::Reader;
use crate::words::{Fixed, Wanted};
use sg_lex::{LexFault, Spelled, Token};

/// Takes the next token where it is this word or mark, and says whether it was; else nothing is taken.
pub fn take_fixed(reader: &mut Reader<'_>, what: Fixed) -> Result<bool, ParseError>
    ensures mark { IfOk result (λ taken. MatchBool taken (Came (fits what) reader.old.rest reader.new.rest)
        ((reader.new ≡ reader.old) × Off (fits what) reader.old.rest)) }
    ensures fault { IfErr result (λ error. (s : RuleState) → part rule_reader s reader.old ≡ Err error) }
    ensures end { reader.new.end ≡ reader.old.end }
{
    match reader.take(what) {
        Ok(taken) => Ok(taken.is_some()),
        Err(fault) => Err(fault_error(fault)),
    }
}

/// Takes the next token where it is this word or mark, and says whether it was: the rule goes on in the one way or the other.
#[tactic(auto, using(crate::proofs::ByToken::fork_came, crate::proofs::ByToken::fork_missing))]
pub fn forked(reader: &mut Reader<'_>, what: Fixed) -> Result<bool, ParseError>
    ensures leads { (s other : RuleState) → LeadsOn rule_reader (part rule_reader (fork what s other) reader.old) result (one_of s other) reader.new }
    ensures fewer { OnOk result (length reader.new.rest ≤ length reader.old.rest) }
{
    take_fixed(reader, what)
}

/// Takes this word or mark.
#[tactic(auto, using(crate::proofs::ByToken::fork_came, crate::proofs::ByToken::fork_missing))]
pub fn fixed(reader: &mut Reader<'_>, what: Fixed) -> Result<(), ParseError>
    ensures leads { (s : RuleState) → LeadsOn rule_reader (part rule_reader (due what s) reader.old) result (λ _. s) reader.new }
    ensures fewer { OnOk result (length reader.new.rest ≤ length reader.old.rest) }
{
    if take_fixed(reader, what)? {
        Ok(())
    } else {
        Err(unexpected(reader))
    }
}

/// Takes the next token where it is what is wanted; None, and nothing is taken, where it isn't or the text ends.
#[tactic(auto, using(crate::proofs::ByToken::take_came, crate::proofs::ByToken::take_missing))]
pub fn take_wanted<'a>(
    reader: &mut Reader<'a>,
    what: Wanted,
) -> Result<Option<Spelled<'a>>, ParseError>
    ensures leads { (k : Spelling → RuleState) (other : RuleState) →
        LeadsOn rule_reader (part rule_reader (take what k other) reader.old) result (either_of k other) reader.new }
    ensures none { IfOk result (λ taken. MatchOption taken (HasNoFault reader.new.rest) (λ spelt. length reader.new.rest < length reader.old.rest)) }
    ensures fewer { OnOk result (length reader.new.rest ≤ length reader.old.rest) }
{
    match reader.take(what) {
        Ok(taken) => Ok(taken.map(spelt_by)),
        Err(fault) => Err(fault_error(fault)),
    }
}

/// Takes what is wanted.
pub fn wanted<'a>(reader: &mut Reader<'a>, what: Wanted) -> Result<Spelled<'a>, ParseError>
    ensures leads { (k : Spelling → RuleState) → LeadsOn rule_reader (part rule_reader (want what k) reader.old) result k reader.new }
    ensures fewer { OnOk result (length reader.new.rest ≤ length reader.old.rest) }
{
    match take_wanted(reader, what)? {
        Some(spelt) => Ok(spelt),
        None => Err(unexpected(reader)),
    }
}

/// The error where no token may come that comes next, or where the rules may not end.
#[tactic(auto, using(crate::proofs::ByToken::dead_token, crate::proofs::ByToken::dead_end, crate::proofs::ByToken::no_token_came))]
pub fn unexpected(reader: &mut Reader<'_>) -> ParseError
    ensures error { part rule_reader dead reader.old ≡ Err result }
{
    match reader.next() {
        Ok(Some(token)) => ParseError::Syntax { at: token.at },
        Ok(None) => ParseError::Syntax { at: reader.end() },
        Err(fault) => fault_error(fault),
    }
}

// The error at a byte that begins no token.
fn fault_error(fault: LexFault) -> ParseError
    ensures { result ≡ ParseError.Lex fault.at }
{
    ParseError::Lex { at: fault.at }
}

// What a token spells.
fn spelt_by(token: Token<'_>) -> Spelled<'_>
    ensures { result ≡ spelt_by token.entry }
{
    Spelled {
        slice: token.slice,
        at: token.at,
    }
}
