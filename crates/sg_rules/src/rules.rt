// Rules.
ghost use Rattle.std.specs.Prelude.{◌≡◌, ◌≤◌, ◌<◌, List, [], length, OnOk, IfOk, MatchOption};
ghost use Rattle.sg_lex.specs.Lexeme.{Spelling};
ghost use Rattle.sg_rules.specs.declared.tree.Rule.{Rule as ARule};
ghost use Rattle.sg_rules.specs.declared.tree.Term.{Term as ATerm};
ghost use Rattle.sg_rules.specs.declared.tree.Tests.{Tests as AllTests};
ghost use Rattle.sg_rules.specs.Grammar.Inside.States.{RuleState, else_rest, first_rest, give_rest, given, if_rest, least_of, refuse_rest, row_rest, rule_or, rule_reader, ruled, wait_rest};
ghost use Rattle.sg_rules.specs.Inside.{either_of};
ghost use Rattle.sg_rules.specs.Inside.Parts.{part, LeadsOn, EndsPart, HasNoFault};

use crate::conditions::{picks, tests};
use crate::error::ParseError;
use crate::reader::{fixed, forked, take_wanted, unexpected, wanted};
use crate::terms::{term, terms};
use crate::tokens::Reader;
use crate::tree::{PickList, Rule, RuleList, Term, TermList, TestList, Tests};
use crate::words::{Fixed, Keyword, Wanted};
use sg_lex::Spelled;
use std::alloc::Global;

/// The rules that come, at least one, up to a token that begins none.
///
/// `Lex` and `Syntax` as for a whole text, at the first place where the tokens cease to be the front of rules; `NoMemory`
/// where there was no memory for the rules.
#[tactic(auto, using(crate::proofs::ByToken::rule_choice, crate::proofs::ByToken::rules_end))]
pub fn parse_rules<'a>(reader: &mut Reader<'a>, alloc: Global) -> Result<RuleList<'a>, ParseError>
    ensures ends { EndsPart rule_reader (part rule_reader (ruled []) reader.old) result reader.new }
    ensures fewer { OnOk result (length reader.new.rest ≤ length reader.old.rest) }
{
    let mut rules = RuleList::new(alloc);
    'rules: while let Some(rule) = rule(reader, alloc)? {
        rules.push(rule)?;
    }
    if rules.is_empty() {
        return Err(unexpected(reader));
    }
    Ok(rules)
}

// A rule, if one comes.
#[tactic(auto, unfolding(crate::specs::Grammar::Inside::States::rule_or))]
fn rule<'a>(reader: &mut Reader<'a>, alloc: Global) -> Result<Option<Rule<'a>>, ParseError>
    ensures leads { (go : ARule → RuleState) (other : RuleState) →
        LeadsOn rule_reader (part rule_reader (rule_or go other) reader.old) result (either_of go other) reader.new }
    ensures taken { IfOk result (λ rule. MatchOption rule (HasNoFault reader.new.rest) (λ _. length reader.new.rest < length reader.old.rest)) }
    ensures fewer { OnOk result (length reader.new.rest ≤ length reader.old.rest) }
{
    if let Some(word) = take_wanted(reader, Wanted::Key(Keyword::Refuse))? {
        let rule = refuse(reader, alloc, word.at)?;
        return Ok(Some(rule));
    }
    if let Some(word) = take_wanted(reader, Wanted::Key(Keyword::Wait))? {
        let rule = wait(reader, alloc, word.at)?;
        return Ok(Some(rule));
    }
    if let Some(word) = take_wanted(reader, Wanted::Key(Keyword::Give))? {
        let rule = give(reader, alloc, word.at)?;
        return Ok(Some(rule));
    }
    Ok(None)
}

// A rule after `refuse` at this place.
#[tactic(auto, unfolding(crate::specs::Grammar::Inside::States::refuse_rest))]
fn refuse<'a>(reader: &mut Reader<'a>, alloc: Global, at: usize) -> Result<Rule<'a>, ParseError>
    ensures leads { (go : ARule → RuleState) → LeadsOn rule_reader (part rule_reader (refuse_rest go at) reader.old) result go reader.new }
    ensures fewer { OnOk result (length reader.new.rest ≤ length reader.old.rest) }
{
    let code = wanted(reader, Wanted::Name)?;
    fixed(reader, Fixed::Key(Keyword::If))?;
    let when = if_rest(reader, alloc)?;
    Ok(Rule::Refuse { at, code, when })
}

// A rule after `wait` at this place.
#[tactic(auto, unfolding(crate::specs::Grammar::Inside::States::wait_rest))]
fn wait<'a>(reader: &mut Reader<'a>, alloc: Global, at: usize) -> Result<Rule<'a>, ParseError>
    ensures leads { (go : ARule → RuleState) → LeadsOn rule_reader (part rule_reader (wait_rest go at) reader.old) result go reader.new }
    ensures fewer { OnOk result (length reader.new.rest ≤ length reader.old.rest) }
{
    fixed(reader, Fixed::Key(Keyword::If))?;
    let when = if_rest(reader, alloc)?;
    Ok(Rule::Wait { at, when })
}

// A rule after `give` at this place.
#[tactic(auto, unfolding(crate::specs::Grammar::Inside::States::give_rest))]
fn give<'a>(reader: &mut Reader<'a>, alloc: Global, at: usize) -> Result<Rule<'a>, ParseError>
    ensures leads { (go : ARule → RuleState) → LeadsOn rule_reader (part rule_reader (give_rest go at) reader.old) result go reader.new }
    ensures fewer { OnOk result (length reader.new.rest ≤ length reader.old.rest) }
{
    if forked(reader, Fixed::Key(Keyword::Row))? {
        return give_row(reader, alloc, at);
    }
    if forked(reader, Fixed::Key(Keyword::First))? {
        return give_first(reader, alloc, at);
    }
    let term = term(reader)?;
    given(reader, alloc, at, term)
}

// A rule that gives a number, after the number.
#[tactic(auto, unfolding(crate::specs::Grammar::Inside::States::given))]
fn given<'a>(
    reader: &mut Reader<'a>,
    alloc: Global,
    at: usize,
    term: Term<'a>,
) -> Result<Rule<'a>, ParseError>
    ensures leads { (go : ARule → RuleState) → LeadsOn rule_reader (part rule_reader (given go at term.entry) reader.old) result go reader.new }
    ensures fewer { OnOk result (length reader.new.rest ≤ length reader.old.rest) }
{
    if forked(reader, Fixed::Key(Keyword::If))? {
        let when = if_rest(reader, alloc)?;
        return Ok(Rule::Give { at, term, when });
    }
    fixed(reader, Fixed::Semicolon)?;
    let when = Tests {
        tests: TestList::new(alloc),
        rows: None,
    };
    Ok(Rule::Give { at, term, when })
}

// A rule after `give row`.
#[tactic(auto, unfolding(crate::specs::Grammar::Inside::States::row_rest))]
fn give_row<'a>(reader: &mut Reader<'a>, alloc: Global, at: usize) -> Result<Rule<'a>, ParseError>
    ensures leads { (go : ARule → RuleState) → LeadsOn rule_reader (part rule_reader (row_rest go at) reader.old) result go reader.new }
    ensures fewer { OnOk result (length reader.new.rest ≤ length reader.old.rest) }
{
    fixed(reader, Fixed::Key(Keyword::Where))?;
    let picks = picks(reader, alloc)?;
    let code = else_rest(reader)?;
    Ok(Rule::GiveRow { at, picks, code })
}

// A rule after `give first`.
#[tactic(auto, unfolding(crate::specs::Grammar::Inside::States::first_rest))]
fn give_first<'a>(reader: &mut Reader<'a>, alloc: Global, at: usize) -> Result<Rule<'a>, ParseError>
    ensures leads { (go : ARule → RuleState) → LeadsOn rule_reader (part rule_reader (first_rest go at) reader.old) result go reader.new }
    ensures fewer { OnOk result (length reader.new.rest ≤ length reader.old.rest) }
{
    let terms = terms(reader, alloc)?;
    least_of(reader, alloc, at, terms)
}

// A rule after `give first` and the numbers by which a row is the least.
#[tactic(auto, unfolding(crate::specs::Grammar::Inside::States::least_of))]
fn least_of<'a>(
    reader: &mut Reader<'a>,
    alloc: Global,
    at: usize,
    terms: TermList<'a>,
) -> Result<Rule<'a>, ParseError>
    ensures leads { (go : ARule → RuleState) → LeadsOn rule_reader (part rule_reader (least_of go at terms.entry) reader.old) result go reader.new }
    ensures fewer { OnOk result (length reader.new.rest ≤ length reader.old.rest) }
{
    if forked(reader, Fixed::Key(Keyword::Where))? {
        let picks = picks(reader, alloc)?;
        let code = else_rest(reader)?;
        return Ok(Rule::GiveFirst {
            at,
            terms,
            picks,
            code,
        });
    }
    let code = else_rest(reader)?;
    Ok(Rule::GiveFirst {
        at,
        terms,
        picks: PickList::new(alloc),
        code,
    })
}

// Tests that end a rule.
fn if_rest<'a>(reader: &mut Reader<'a>, alloc: Global) -> Result<Tests<'a>, ParseError>
    ensures leads { (k : AllTests → RuleState) → LeadsOn rule_reader (part rule_reader (if_rest k) reader.old) result k reader.new }
    ensures fewer { OnOk result (length reader.new.rest ≤ length reader.old.rest) }
{
    let when = tests(reader, alloc)?;
    fixed(reader, Fixed::Semicolon)?;
    Ok(when)
}

// The code where no row is so, which ends a rule.
fn else_rest<'a>(reader: &mut Reader<'a>) -> Result<Spelled<'a>, ParseError>
    ensures leads { (k : Spelling → RuleState) → LeadsOn rule_reader (part rule_reader (else_rest k) reader.old) result k reader.new }
    ensures fewer { OnOk result (length reader.new.rest ≤ length reader.old.rest) }
{
    fixed(reader, Fixed::Key(Keyword::Else))?;
    let code = wanted(reader, Wanted::Name)?;
    fixed(reader, Fixed::Semicolon)?;
    Ok(code)
}
