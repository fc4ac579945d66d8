// The description that a text gives of its service.
ghost use Rattle.std.specs.Prelude.{◌≡◌, ◌≤◌, length, map, All, IfOk};
ghost use Rattle.sg_shape.specs.sg_facts.Facts.{facts_of, fun_of_shape};
ghost use Rattle.sg_shape.specs.sg_facts.Limits.{most_fields, most_funs};
ghost use Rattle.sg_described.specs.Described.{described_of, rule_of as rule_in, rules_of};
ghost use Rattle.sg_describe.specs.DescribedText.{answer_of, described_with, most_of, operand_of, operated, relation_of, rule_of, term_of, test_of, tests_in, verdict_of};
ghost use Rattle.sg_describe.specs.Inside.Parts.{HasFewNames, HasFewParams};

use crate::names::{argument_named, code_named, named};
use crate::said::{most_said, rules_said};
use sg_described::{AnswerShape, Description, Operand, Relation, RuleShape, Term, Test, Verdict};
use sg_shape::{
    Code, FieldShape, FunShape, NoMemory, Operand as TextOperand, Operator,
    Relation as TextRelation, Rule, Shape, Statement, Term as TextTerm, Test as TextTest, kept,
    number_of_digits,
};
use std::alloc::Global;

/// The greatest number of a field where no statement says one.
pub const MOST_UNSAID: u64 = 4_294_967_295;

/// What statements describe of a service of a shape, kept to the end of the program.
pub fn described(
    alloc: Global,
    statements: &[Statement],
    shape: &Shape,
) -> Result<Description, NoMemory>
    requires names { HasFewNames (facts_of shape.now) }
    requires params { All HasFewParams (facts_of shape.now).funs }
    ensures { IfOk result (λ d. described_of d ≡ described_with (facts_of shape.now) statements.now) }
{
    Ok(Description {
        shape: *shape,
        most: most_of_all(alloc, statements, shape.fields)?,
        answers: answers_of(alloc, statements, shape)?,
    })
}

// The greatest number of each field.
fn most_of_all(
    alloc: Global,
    statements: &[Statement],
    fields: &[FieldShape],
) -> Result<&'static [u64], NoMemory>
    ensures { IfOk result (λ most. most.now ≡ map (λ x. most_of statements.now x.name.now) fields.now) }
{
    let mut most = Vec::new(alloc);
    'fields: for field in fields {
        most.push(most_of(statements, field.name))?;
    }
    Ok(kept(most))
}

// The greatest number of the field of a name.
fn most_of(statements: &[Statement], field: &[u8]) -> u64
    ensures { result ≡ most_of statements.now field.now }
{
    match most_said(statements, field) {
        Some(most) => number_of_digits(most.slice).unwrap_or(MOST_UNSAID),
        None => MOST_UNSAID,
    }
}

// The answers of all functions.
fn answers_of(
    alloc: Global,
    statements: &[Statement],
    shape: &Shape,
) -> Result<&'static [AnswerShape], NoMemory>
    requires names { HasFewNames (facts_of shape.now) }
    requires params { All HasFewParams (facts_of shape.now).funs }
    ensures { IfOk result (λ answers. map rules_of answers.now ≡ map (answer_of (facts_of shape.now) statements.now) (facts_of shape.now).funs) }
{
    let mut answers = Vec::new(alloc);
    'funs: for fun in shape.funs {
        answers.push(answer_of(alloc, statements, shape, fun)?)?;
    }
    Ok(kept(answers))
}

// The answer of a function.
fn answer_of(
    alloc: Global,
    statements: &[Statement],
    shape: &Shape,
    fun: &FunShape,
) -> Result<AnswerShape, NoMemory>
    requires names { HasFewNames (facts_of shape.now) }
    requires params { HasFewParams (fun_of_shape fun.now) }
    ensures { IfOk result (λ answer. rules_of answer ≡ answer_of (facts_of shape.now) statements.now (fun_of_shape fun.now)) }
{
    let mut rules = Vec::new(alloc);
    'rules: for rule in rules_said(statements, fun.name) {
        rules.push(rule_of(alloc, shape, fun, rule)?)?;
    }
    Ok(AnswerShape { rules: kept(rules) })
}

// A rule of a function.
fn rule_of(alloc: Global, shape: &Shape, fun: &FunShape, rule: &Rule) -> Result<RuleShape, NoMemory>
    requires names { HasFewNames (facts_of shape.now) }
    requires params { HasFewParams (fun_of_shape fun.now) }
    ensures { IfOk result (λ made. rule_in made ≡ rule_of (facts_of shape.now) (fun_of_shape fun.now) rule.now) }
{
    let mut tests = Vec::new(alloc);
    'tests: for test in tests_in(rule) {
        tests.push(test_of(shape, fun, test))?;
    }
    Ok(RuleShape {
        tests: kept(tests),
        verdict: verdict_of(shape, fun, rule),
    })
}

// The tests of a rule; none where it gives a descriptor.
fn tests_in<'t, 'a>(rule: &'t Rule<'a>) -> &'t [TextTest<'a>]
    ensures { result.now ≡ tests_in rule.now }
{
    match rule {
        Rule::Refuse { when, .. } | Rule::Wait { when, .. } | Rule::Give { when, .. } => {
            when.tests.as_slice()
        }
        Rule::GiveRow { .. } | Rule::GiveFirst { .. } => &[],
    }
}

// What a rule of a function says; where it gives a descriptor, a word that is 0.
fn verdict_of(shape: &Shape, fun: &FunShape, rule: &Rule) -> Verdict
    requires names { HasFewNames (facts_of shape.now) }
    requires params { HasFewParams (fun_of_shape fun.now) }
    ensures { result ≡ verdict_of (facts_of shape.now) (fun_of_shape fun.now) rule.now }
{
    match rule {
        Rule::Refuse { code, .. } => {
            Verdict::Refuse(code_named(code.slice).unwrap_or(Code::NotFound))
        }
        Rule::Wait { .. } => Verdict::Wait,
        Rule::Give { term, .. } => Verdict::Give(term_of(shape, fun, term)),
        Rule::GiveRow { .. } | Rule::GiveFirst { .. } => {
            Verdict::Give(Term::Only(Operand::Number(0)))
        }
    }
}

// A test in a rule of a function.
fn test_of(shape: &Shape, fun: &FunShape, test: &TextTest) -> Test
    requires names { HasFewNames (facts_of shape.now) }
    requires params { HasFewParams (fun_of_shape fun.now) }
    ensures { result ≡ test_of (facts_of shape.now) (fun_of_shape fun.now) test.now }
{
    Test {
        left: term_of(shape, fun, &test.left),
        relation: relation_of(test.relation),
        right: term_of(shape, fun, &test.right),
    }
}

// How two numbers stand to each other.
fn relation_of(relation: TextRelation) -> Relation
    ensures { result ≡ relation_of relation }
{
    match relation {
        TextRelation::Is => Relation::Is,
        TextRelation::IsNot => Relation::IsNot,
        TextRelation::Below => Relation::Below,
        TextRelation::Above => Relation::Above,
    }
}

// A number in a rule of a function.
fn term_of(shape: &Shape, fun: &FunShape, term: &TextTerm) -> Term
    requires names { HasFewNames (facts_of shape.now) }
    requires params { HasFewParams (fun_of_shape fun.now) }
    ensures { result ≡ term_of (facts_of shape.now) (fun_of_shape fun.now) term.now }
{
    let first = operand_of(shape, fun, &term.first);
    match &term.more {
        None => Term::Only(first),
        Some((operator, second)) => operated(*operator, first, operand_of(shape, fun, second)),
    }
}

// Two operands with an operator between them.
fn operated(operator: Operator, first: Operand, second: Operand) -> Term
    ensures { result ≡ operated operator first second }
{
    match operator {
        Operator::Plus => Term::Plus(first, second),
        Operator::Minus => Term::Minus(first, second),
        Operator::Least => Term::Least(first, second),
        Operator::Greatest => Term::Greatest(first, second),
    }
}

// What an operand of a function's rules reads; 0 where it names nothing, or speaks of all rows.
fn operand_of(shape: &Shape, fun: &FunShape, operand: &TextOperand) -> Operand
    requires names { HasFewNames (facts_of shape.now) }
    requires params { HasFewParams (fun_of_shape fun.now) }
    ensures { result ≡ operand_of (facts_of shape.now) (fun_of_shape fun.now) operand.now }
{
    match operand {
        TextOperand::Number(number) => {
            Operand::Number(number_of_digits(number.slice).unwrap_or(0))
        }
        TextOperand::Caller { .. } => Operand::Caller,
        TextOperand::State { .. } => Operand::State,
        TextOperand::Argument(number) => {
            Operand::Argument(argument_named(fun.kinds, number.slice).unwrap_or(0))
        }
        TextOperand::GreatestOf(_) => Operand::Number(0),
        TextOperand::Named(name) => named(shape, name.slice).unwrap_or(Operand::Number(0)),
    }
}
