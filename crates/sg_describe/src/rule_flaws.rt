// Where something is wrong with a rule.
ghost use Rattle.std.specs.Prelude.{◌≡◌, false, is_none};
ghost use Rattle.std.specs.Bool.{then_some};
ghost use Rattle.std.specs.Option.{option_map, option_map_or};
ghost use Rattle.sg_shape.specs.sg_facts.Facts.{facts_of, fun_of_shape};
ghost use Rattle.sg_shape.specs.sg_facts.Guard.{is_guards};
ghost use Rattle.sg_describe.specs.AnswerFlaws.{operand_flaw, operands_flaw, own_flaw, rows_place, rule_flaw, term_flaw, test_flaw};
ghost use Rattle.sg_describe.specs.Names.{code_named, named};
ghost use Rattle.sg_describe.specs.Said.{first_in};

use crate::fault::AnswerFaultKind;
use crate::names::{code_named, field_number, is_argument};
use sg_shape::{
    Code, FunShape, Operand, RowTest, Rule, Shape, Spelled, Term, Test, fun_number,
    number_of_digits,
};

/// What is looked for: a flaw of a kind in the rules of a function of a shape.
#[derive(Clone, Copy)]
pub struct Wanted<'a> {
    pub kind: AnswerFaultKind,
    pub shape: &'a Shape,
    pub fun: &'a FunShape,
}

impl Wanted<'_> {
    /// The place of the first flaw in rules.
    pub fn in_rules(&self, rules: &[Rule]) -> Option<usize>
        ensures { result ≡ first_in (rule_flaw self.now.kind (facts_of self.now.shape.now) (fun_of_shape self.now.fun.now)) rules.now }
    {
        'rules: for rule in rules {
            if let Some(at) = self.in_rule(rule) {
                return Some(at);
            }
        }
        None
    }

    // The place of the flaw in a rule.
    fn in_rule(&self, rule: &Rule) -> Option<usize>
        ensures { result ≡ rule_flaw self.now.kind (facts_of self.now.shape.now) (fun_of_shape self.now.fun.now) rule.now }
    {
        self.in_operands(rule)
            .or(own_flaw(self.kind, self.fun, rule))
    }

    // The place of the first operand of a rule with the flaw.
    fn in_operands(&self, rule: &Rule) -> Option<usize>
        ensures { result ≡ operands_flaw (operand_flaw self.now.kind (facts_of self.now.shape.now) (fun_of_shape self.now.fun.now)) rule.now }
    {
        match rule {
            Rule::Refuse { when, .. } | Rule::Wait { when, .. } => {
                self.in_tests(when.tests.as_slice())
            }
            Rule::Give { term, when, .. } => self
                .in_term(term)
                .or(self.in_tests(when.tests.as_slice())),
            Rule::GiveRow { .. } | Rule::GiveFirst { .. } => None,
        }
    }

    // The place of the first operand of tests with the flaw.
    fn in_tests(&self, tests: &[Test]) -> Option<usize>
        ensures { result ≡ first_in (test_flaw (operand_flaw self.now.kind (facts_of self.now.shape.now) (fun_of_shape self.now.fun.now))) tests.now }
    {
        'tests: for test in tests {
            if let Some(at) = self.in_term(&test.left).or(self.in_term(&test.right)) {
                return Some(at);
            }
        }
        None
    }

    // The place of the first operand of a term with the flaw.
    fn in_term(&self, term: &Term) -> Option<usize>
        ensures { result ≡ term_flaw (operand_flaw self.now.kind (facts_of self.now.shape.now) (fun_of_shape self.now.fun.now)) term.now }
    {
        let second = match &term.more {
            None => None,
            Some((_, second)) => self.in_operand(second),
        };
        self.in_operand(&term.first).or(second)
    }

    // The place of an operand with the flaw.
    fn in_operand(&self, operand: &Operand) -> Option<usize>
        ensures { result ≡ operand_flaw self.now.kind (facts_of self.now.shape.now) (fun_of_shape self.now.fun.now) operand.now }
    {
        match (self.kind, operand) {
            (AnswerFaultKind::NotYet, Operand::GreatestOf(field)) => Some(field.at),
            (AnswerFaultKind::UnknownField, Operand::Named(name)) => {
                place_where(name, is_unknown(self.shape, name.slice))
            }
            (AnswerFaultKind::NoArgument, Operand::Argument(number)) => {
                place_where(number, !is_argument(self.fun.kinds, number.slice))
            }
            (AnswerFaultKind::TooBig, Operand::Number(number)) => {
                place_where(number, number_of_digits(number.slice).is_none())
            }
            _ => None,
        }
    }
}

// The place of a name or number, where this holds.
fn place_where(spelt: &Spelled, holds: bool) -> Option<usize>
    ensures { result ≡ then_some holds spelt.now.at }
{
    if holds { Some(spelt.at) } else { None }
}

// Whether a name in a rule is neither a field's nor a function's.
fn is_unknown(shape: &Shape, name: &[u8]) -> bool
    ensures { result ≡ is_none (named (facts_of shape.now) name.now) }
{
    field_number(shape, name).is_none() && fun_number(shape, name).is_none()
}

// The place in a rule of a function that has a flaw of a kind, whatever its operands.
fn own_flaw(kind: AnswerFaultKind, fun: &FunShape, rule: &Rule) -> Option<usize>
    ensures { result ≡ own_flaw kind (fun_of_shape fun.now) rule.now }
{
    match (kind, rule) {
        (AnswerFaultKind::NotYet, _) => rows_place(rule),
        (AnswerFaultKind::UnknownCode, Rule::Refuse { code, .. }) => {
            place_where(code, code_named(code.slice).is_none())
        }
        (AnswerFaultKind::GuardsCode, Rule::Refuse { code, .. }) => {
            place_where(code, names_guards(code.slice))
        }
        (AnswerFaultKind::MayNotBlock, Rule::Wait { at, .. })
            if !fun.may_block() || fun.is_creation() => { Some(*at) }
        (AnswerFaultKind::EndsWithWord, Rule::Give { at, .. }) if fun.is_terminal() => Some(*at),
        _ => None,
    }
}

// Whether a name is that of a code of the guard's.
fn names_guards(name: &[u8]) -> bool
    ensures { result ≡ option_map_or is_guards (code_named name.now) false }
{
    match code_named(name) {
        Some(code) => is_guards(code),
        None => false,
    }
}

// Whether a code is the guard's.
fn is_guards(code: Code) -> bool
    ensures { result ≡ is_guards code }
{
    matches!(
        code,
        Code::NoDesc | Code::NoParent | Code::BadState | Code::HasChildren | Code::Full
    )
}

// The place where a rule asks something of the rows.
fn rows_place(rule: &Rule) -> Option<usize>
    ensures { result ≡ rows_place rule.now }
{
    match rule {
        Rule::Refuse { when, .. } | Rule::Wait { when, .. } | Rule::Give { when, .. } => {
            row_test_place(&when.rows)
        }
        Rule::GiveRow { at, .. } | Rule::GiveFirst { at, .. } => Some(*at),
    }
}

// The place of what is asked of the rows, where something is.
fn row_test_place(rows: &Option<RowTest>) -> Option<usize>
    ensures { result ≡ option_map (λ rows. rows.at) rows.now }
{
    match rows {
        Some(rows) => Some(rows.at),
        None => None,
    }
}
