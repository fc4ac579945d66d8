// Numbers: operands and operators, and how two numbers stand to each other.
ghost use Rattle.std.specs.Prelude.{◌≡◌, ◌≤◌, List, length, OnOk};
ghost use Rattle.sg_rules.specs.declared.tree.Operand.{Operand as AnOperand};
ghost use Rattle.sg_rules.specs.declared.tree.Operator.{Operator as AnOperator};
ghost use Rattle.sg_rules.specs.declared.tree.Relation.{Relation as ARelation};
ghost use Rattle.sg_rules.specs.declared.tree.Term.{Term as ATerm};
ghost use Rattle.sg_rules.specs.Grammar.Inside.States.{RuleState, after_first, is_or_not, named_operand, operand, operator_or, relation, rule_reader, term, terms};
ghost use Rattle.sg_rules.specs.Inside.{either_of};
ghost use Rattle.sg_rules.specs.Inside.Parts.{part, LeadsOn};

use crate::error::ParseError;
use crate::reader::{fixed, forked, take_fixed, take_wanted, wanted};
use crate::tokens::Reader;
use crate::tree::{Operand, Operator, Relation, Term, TermList};
use crate::words::{Fixed, Keyword, Wanted};
use std::alloc::Global;

/// Numbers with commas between them, at least one.
#[tactic(auto, using(crate::proofs::ByToken::term_came, crate::proofs::ByToken::terms_over))]
pub fn terms<'a>(reader: &mut Reader<'a>, alloc: Global) -> Result<TermList<'a>, ParseError>
    ensures leads { (k : List ATerm → RuleState) → LeadsOn rule_reader (part rule_reader (terms k) reader.old) result k reader.new }
    ensures fewer { OnOk result (length reader.new.rest ≤ length reader.old.rest) }
{
    let mut terms = TermList::new(alloc);
    terms.push(term(reader)?)?;
    'terms: while take_fixed(reader, Fixed::Comma)? {
        terms.push(term(reader)?)?;
    }
    Ok(terms)
}

/// A number.
#[tactic(auto, unfolding(crate::specs::Grammar::Inside::States::term))]
pub fn term<'a>(reader: &mut Reader<'a>) -> Result<Term<'a>, ParseError>
    ensures leads { (k : ATerm → RuleState) → LeadsOn rule_reader (part rule_reader (term k) reader.old) result k reader.new }
    ensures fewer { OnOk result (length reader.new.rest ≤ length reader.old.rest) }
{
    let first = operand(reader)?;
    after_first(reader, first)
}

// A number after its first operand.
fn after_first<'a>(reader: &mut Reader<'a>, first: Operand<'a>) -> Result<Term<'a>, ParseError>
    ensures leads { (k : ATerm → RuleState) → LeadsOn rule_reader (part rule_reader (after_first k first.entry) reader.old) result k reader.new }
    ensures fewer { OnOk result (length reader.new.rest ≤ length reader.old.rest) }
{
    match operator(reader)? {
        Some(operator) => {
            let second = operand(reader)?;
            Ok(Term {
                first,
                more: Some((operator, second)),
            })
        }
        None => Ok(Term { first, more: None }),
    }
}

// An operator, if one comes.
fn operator(reader: &mut Reader<'_>) -> Result<Option<Operator>, ParseError>
    ensures leads { (k : AnOperator → RuleState) (other : RuleState) →
        LeadsOn rule_reader (part rule_reader (operator_or k other) reader.old) result (either_of k other) reader.new }
    ensures fewer { OnOk result (length reader.new.rest ≤ length reader.old.rest) }
{
    if forked(reader, Fixed::Key(Keyword::Plus))? {
        return Ok(Some(Operator::Plus));
    }
    if forked(reader, Fixed::Key(Keyword::Minus))? {
        return Ok(Some(Operator::Minus));
    }
    if forked(reader, Fixed::Key(Keyword::Least))? {
        return Ok(Some(Operator::Least));
    }
    if forked(reader, Fixed::Key(Keyword::Greatest))? {
        return Ok(Some(Operator::Greatest));
    }
    Ok(None)
}

// An operand.
fn operand<'a>(reader: &mut Reader<'a>) -> Result<Operand<'a>, ParseError>
    ensures leads { (k : AnOperand → RuleState) → LeadsOn rule_reader (part rule_reader (operand k) reader.old) result k reader.new }
    ensures fewer { OnOk result (length reader.new.rest ≤ length reader.old.rest) }
{
    if let Some(number) = take_wanted(reader, Wanted::Number)? {
        return Ok(Operand::Number(number));
    }
    if let Some(word) = take_wanted(reader, Wanted::Key(Keyword::Caller))? {
        return Ok(Operand::Caller { at: word.at });
    }
    if let Some(word) = take_wanted(reader, Wanted::Key(Keyword::State))? {
        return Ok(Operand::State { at: word.at });
    }
    named_operand(reader)
}

// An operand that is an argument, or that a name says.
fn named_operand<'a>(reader: &mut Reader<'a>) -> Result<Operand<'a>, ParseError>
    ensures leads { (k : AnOperand → RuleState) → LeadsOn rule_reader (part rule_reader (named_operand k) reader.old) result k reader.new }
    ensures fewer { OnOk result (length reader.new.rest ≤ length reader.old.rest) }
{
    if forked(reader, Fixed::Dollar)? {
        let number = wanted(reader, Wanted::Number)?;
        return Ok(Operand::Argument(number));
    }
    if forked(reader, Fixed::Key(Keyword::Greatest))? {
        let field = wanted(reader, Wanted::Name)?;
        return Ok(Operand::GreatestOf(field));
    }
    let name = wanted(reader, Wanted::Name)?;
    Ok(Operand::Named(name))
}

/// How two numbers stand to each other.
#[tactic(auto, unfolding(crate::specs::Grammar::Inside::States::relation))]
pub fn relation(reader: &mut Reader<'_>) -> Result<Relation, ParseError>
    ensures leads { (k : ARelation → RuleState) → LeadsOn rule_reader (part rule_reader (relation k) reader.old) result k reader.new }
    ensures fewer { OnOk result (length reader.new.rest ≤ length reader.old.rest) }
{
    if forked(reader, Fixed::Key(Keyword::Is))? {
        return is_or_not(reader);
    }
    if forked(reader, Fixed::Key(Keyword::Below))? {
        return Ok(Relation::Below);
    }
    fixed(reader, Fixed::Key(Keyword::Above))?;
    Ok(Relation::Above)
}

// What comes after `is`.
fn is_or_not(reader: &mut Reader<'_>) -> Result<Relation, ParseError>
    ensures leads { (k : ARelation → RuleState) → LeadsOn rule_reader (part rule_reader (is_or_not k) reader.old) result k reader.new }
    ensures fewer { OnOk result (length reader.new.rest ≤ length reader.old.rest) }
{
    if forked(reader, Fixed::Key(Keyword::Not))? {
        Ok(Relation::IsNot)
    } else {
        Ok(Relation::Is)
    }
}
