// The texts of rules.
ghost use Rattle.std.specs.Prelude.{◌≡◌, ◌++◌, OnOk, codes, if◌then◌else◌};
ghost use Rattle.std.specs.List.{flat_map, join_by};
ghost use Rattle.sg_print.specs.RulesText.{if_text, operand_text, pick_text, relation_text, rows_text, rule_line, rule_text, term_text, test_text, tests_text, what_text, where_text};

use crate::parts::put;
use sg_facts::{Bytes, NoMemory};
use sg_parse::{Operand, Pick, Relation, RowTest, Rule, Term, Test, Tests, What};

/// Adds the lines of rules at the end.
pub fn put_rules(out: &mut Bytes, rules: &[Rule<'_>]) -> Result<(), NoMemory>
    ensures { OnOk result (out.new ≡ out.old ++ flat_map rule_line rules.now) }
{
    for rule in rules {
        put(out, &[b"    "])?;
        put_rule(out, rule)?;
        put(out, &[b";\n"])?;
    }
    Ok(())
}

/// Adds a rule.
pub fn put_rule(out: &mut Bytes, rule: &Rule<'_>) -> Result<(), NoMemory>
    ensures { OnOk result (out.new ≡ out.old ++ rule_text rule.now) }
{
    match rule {
        Rule::Refuse { at: _, code, when } => {
            put(out, &[b"refuse ", code.slice, b" if "])?;
            put_tests(out, when)
        }
        Rule::Wait { at: _, when } => {
            put(out, &[b"wait if "])?;
            put_tests(out, when)
        }
        Rule::Give { at: _, term, when } => {
            put(out, &[b"give "])?;
            put_term(out, term)?;
            put_if(out, when)
        }
        Rule::GiveRow { at: _, picks, code } => {
            put(out, &[b"give row where "])?;
            put_picks(out, picks.as_slice())?;
            put(out, &[b" else ", code.slice])
        }
        Rule::GiveFirst {
            at: _,
            terms,
            picks,
            code,
        } => {
            put(out, &[b"give first "])?;
            put_terms(out, terms.as_slice())?;
            put_where(out, picks.as_slice())?;
            put(out, &[b" else ", code.slice])
        }
    }
}

// Adds tests after `if`, where there are any.
fn put_if(out: &mut Bytes, when: &Tests<'_>) -> Result<(), NoMemory>
    ensures { OnOk result (out.new ≡ out.old ++ if_text when.now) }
{
    if when.rows.is_none() && when.tests.as_slice().is_empty() {
        return Ok(());
    }
    put(out, &[b" if "])?;
    put_tests(out, when)
}

/// Adds tests, and what is asked of the rows.
pub fn put_tests(out: &mut Bytes, when: &Tests<'_>) -> Result<(), NoMemory>
    ensures { OnOk result (out.new ≡ out.old ++ tests_text when.now) }
{
    match &when.rows {
        None => put_all_tests(out, when.tests.as_slice()),
        Some(rows) => {
            put_first_tests(out, when.tests.as_slice())?;
            put_rows(out, rows)
        }
    }
}

// Adds tests, with a comma and a space between two.
fn put_all_tests(out: &mut Bytes, tests: &[Test<'_>]) -> Result<(), NoMemory>
    ensures { OnOk result (out.new ≡ out.old ++ join_by test_text (codes ", ") tests.now) }
{
    let Some((first, more)) = tests.split_first() else {
        return Ok(());
    };
    put_test(out, first)?;
    for test in more {
        put(out, &[b", "])?;
        put_test(out, test)?;
    }
    Ok(())
}

// Adds tests, with a comma and a space after each.
fn put_first_tests(out: &mut Bytes, tests: &[Test<'_>]) -> Result<(), NoMemory>
    ensures { OnOk result (out.new ≡ out.old ++ flat_map (λ test. test_text test ++ codes ", ") tests.now) }
{
    for test in tests {
        put_test(out, test)?;
        put(out, &[b", "])?;
    }
    Ok(())
}

// Adds a test.
fn put_test(out: &mut Bytes, test: &Test<'_>) -> Result<(), NoMemory>
    ensures { OnOk result (out.new ≡ out.old ++ test_text test.now) }
{
    put_term(out, &test.left)?;
    put(out, &[b" ", relation_word(test.relation), b" "])?;
    put_term(out, &test.right)
}

// Adds what is asked of the rows.
fn put_rows(out: &mut Bytes, rows: &RowTest<'_>) -> Result<(), NoMemory>
    ensures { OnOk result (out.new ≡ out.old ++ rows_text rows.now) }
{
    put(out, &[rows_word(rows.some), b" row where "])?;
    put_picks(out, rows.picks.as_slice())
}

// The word for whether there has to be such a row, or none may be.
fn rows_word(some: bool) -> &'static [u8]
    ensures { result.now ≡ (if some then codes "some" else codes "no") }
{
    if some { b"some" } else { b"no" }
}

// Adds what holds of a row after `where`, where anything has to.
fn put_where(out: &mut Bytes, picks: &[Pick<'_>]) -> Result<(), NoMemory>
    ensures { OnOk result (out.new ≡ out.old ++ where_text picks.now) }
{
    if picks.is_empty() {
        return Ok(());
    }
    put(out, &[b" where "])?;
    put_picks(out, picks)
}

// Adds what holds of a row, with a comma and a space between two things.
fn put_picks(out: &mut Bytes, picks: &[Pick<'_>]) -> Result<(), NoMemory>
    ensures { OnOk result (out.new ≡ out.old ++ join_by pick_text (codes ", ") picks.now) }
{
    let Some((first, more)) = picks.split_first() else {
        return Ok(());
    };
    put_pick(out, first)?;
    for pick in more {
        put(out, &[b", "])?;
        put_pick(out, pick)?;
    }
    Ok(())
}

// Adds something that holds of a row.
fn put_pick(out: &mut Bytes, pick: &Pick<'_>) -> Result<(), NoMemory>
    ensures { OnOk result (out.new ≡ out.old ++ pick_text pick.now) }
{
    put_what(out, &pick.what)?;
    put(out, &[b" ", relation_word(pick.relation), b" "])?;
    put_term(out, &pick.right)
}

// Adds what is asked of a row.
fn put_what(out: &mut Bytes, what: &What<'_>) -> Result<(), NoMemory>
    ensures { OnOk result (out.new ≡ out.old ++ what_text what.now) }
{
    match what {
        What::State { at: _ } => put(out, &[b"state"]),
        What::Field(field) => put(out, &[field.slice]),
    }
}

// Adds numbers, with a comma and a space between two.
fn put_terms(out: &mut Bytes, terms: &[Term<'_>]) -> Result<(), NoMemory>
    ensures { OnOk result (out.new ≡ out.old ++ join_by term_text (codes ", ") terms.now) }
{
    let Some((first, more)) = terms.split_first() else {
        return Ok(());
    };
    put_term(out, first)?;
    for term in more {
        put(out, &[b", "])?;
        put_term(out, term)?;
    }
    Ok(())
}

/// Adds a number.
pub fn put_term(out: &mut Bytes, term: &Term<'_>) -> Result<(), NoMemory>
    ensures { OnOk result (out.new ≡ out.old ++ term_text term.now) }
{
    put_operand(out, &term.first)?;
    match &term.more {
        None => Ok(()),
        Some((operator, second)) => {
            put(out, &[b" ", operator.keyword().bytes(), b" "])?;
            put_operand(out, second)
        }
    }
}

// Adds an operand.
fn put_operand(out: &mut Bytes, operand: &Operand<'_>) -> Result<(), NoMemory>
    ensures { OnOk result (out.new ≡ out.old ++ operand_text operand.now) }
{
    match operand {
        Operand::Number(number) => put(out, &[number.slice]),
        Operand::Caller { at: _ } => put(out, &[b"caller"]),
        Operand::State { at: _ } => put(out, &[b"state"]),
        Operand::Argument(number) => put(out, &[b"$", number.slice]),
        Operand::GreatestOf(field) => put(out, &[b"greatest ", field.slice]),
        Operand::Named(name) => put(out, &[name.slice]),
    }
}

// The words for how two numbers stand to each other.
fn relation_word(relation: Relation) -> &'static [u8]
    ensures { result.now ≡ relation_text relation }
{
    match relation {
        Relation::Is => b"is",
        Relation::IsNot => b"is not",
        Relation::Below => b"below",
        Relation::Above => b"above",
    }
}
