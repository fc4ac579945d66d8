// When a rule applies: tests, and what is asked of the rows.
ghost use Rattle.std.specs.Prelude.{◌≡◌, ◌≤◌, Bool, List, [], length, OnOk};
ghost use Rattle.sg_rules.specs.declared.tree.Pick.{Pick as APick};
ghost use Rattle.sg_rules.specs.declared.tree.RowTest.{RowTest as ARowTest};
ghost use Rattle.sg_rules.specs.declared.tree.Test.{Test as ATest};
ghost use Rattle.sg_rules.specs.declared.tree.Tests.{Tests as AllTests};
ghost use Rattle.sg_rules.specs.declared.tree.What.{What as AWhat};
ghost use Rattle.sg_rules.specs.Grammar.Inside.States.{RuleState, pick, picks, rows_or, rows_rest, rule_reader, one_test, tests, tests_from, what};
ghost use Rattle.sg_rules.specs.Inside.{either_of};
ghost use Rattle.sg_rules.specs.Inside.Parts.{part, LeadsOn};

use crate::error::ParseError;
use crate::reader::{fixed, take_fixed, take_wanted, wanted};
use crate::terms::{relation, term};
use crate::tokens::Reader;
use crate::tree::{Pick, PickList, RowTest, Test, TestList, Tests, What};
use crate::words::{Fixed, Keyword, Wanted};
use std::alloc::Global;

/// Tests with commas between them, at least one, or what is asked of the rows, which is the last.
#[tactic(auto, using(crate::proofs::ByToken::test_came, crate::proofs::ByToken::tests_over), unfolding(crate::specs::Grammar::Inside::States::tests_from))]
pub fn tests<'a>(reader: &mut Reader<'a>, alloc: Global) -> Result<Tests<'a>, ParseError>
    ensures leads { (k : AllTests → RuleState) → LeadsOn rule_reader (part rule_reader (tests k) reader.old) result k reader.new }
    ensures fewer { OnOk result (length reader.new.rest ≤ length reader.old.rest) }
{
    let mut tests = TestList::new(alloc);
    'tests: loop {
        if let Some(rows) = rows(reader, alloc)? {
            return Ok(Tests {
                tests,
                rows: Some(rows),
            });
        }
        tests.push(test(reader)?)?;
        if !take_fixed(reader, Fixed::Comma)? {
            return Ok(Tests { tests, rows: None });
        }
    }
}

// A test.
#[tactic(auto, unfolding(crate::specs::Grammar::Inside::States::one_test))]
fn test<'a>(reader: &mut Reader<'a>) -> Result<Test<'a>, ParseError>
    ensures leads { (k : ATest → RuleState) → LeadsOn rule_reader (part rule_reader (one_test k) reader.old) result k reader.new }
    ensures fewer { OnOk result (length reader.new.rest ≤ length reader.old.rest) }
{
    let left = term(reader)?;
    let relation = relation(reader)?;
    let right = term(reader)?;
    Ok(Test {
        left,
        relation,
        right,
    })
}

// What is asked of the rows, if that comes.
#[tactic(auto, unfolding(crate::specs::Grammar::Inside::States::rows_or))]
fn rows<'a>(reader: &mut Reader<'a>, alloc: Global) -> Result<Option<RowTest<'a>>, ParseError>
    ensures leads { (k : ARowTest → RuleState) (other : RuleState) →
        LeadsOn rule_reader (part rule_reader (rows_or k other) reader.old) result (either_of k other) reader.new }
    ensures fewer { OnOk result (length reader.new.rest ≤ length reader.old.rest) }
{
    if let Some(word) = take_wanted(reader, Wanted::Key(Keyword::SomeRow))? {
        let rows = rows_rest(reader, alloc, true, word.at)?;
        return Ok(Some(rows));
    }
    if let Some(word) = take_wanted(reader, Wanted::Key(Keyword::NoRow))? {
        let rows = rows_rest(reader, alloc, false, word.at)?;
        return Ok(Some(rows));
    }
    Ok(None)
}

// What is asked of the rows, after its first word at this place.
#[tactic(auto, unfolding(crate::specs::Grammar::Inside::States::rows_rest))]
fn rows_rest<'a>(
    reader: &mut Reader<'a>,
    alloc: Global,
    some: bool,
    at: usize,
) -> Result<RowTest<'a>, ParseError>
    ensures leads { (k : ARowTest → RuleState) → LeadsOn rule_reader (part rule_reader (rows_rest k some at) reader.old) result k reader.new }
    ensures fewer { OnOk result (length reader.new.rest ≤ length reader.old.rest) }
{
    fixed(reader, Fixed::Key(Keyword::Row))?;
    fixed(reader, Fixed::Key(Keyword::Where))?;
    let picks = picks(reader, alloc)?;
    Ok(RowTest { at, some, picks })
}

/// What holds of a row, with commas between, at least one thing.
#[tactic(auto, using(crate::proofs::ByToken::pick_came, crate::proofs::ByToken::picks_over), unfolding(crate::specs::Grammar::Inside::States::picks))]
pub fn picks<'a>(reader: &mut Reader<'a>, alloc: Global) -> Result<PickList<'a>, ParseError>
    ensures leads { (k : List APick → RuleState) → LeadsOn rule_reader (part rule_reader (picks k) reader.old) result k reader.new }
    ensures fewer { OnOk result (length reader.new.rest ≤ length reader.old.rest) }
{
    let mut picks = PickList::new(alloc);
    picks.push(pick(reader)?)?;
    'picks: while take_fixed(reader, Fixed::Comma)? {
        picks.push(pick(reader)?)?;
    }
    Ok(picks)
}

// Something that holds of a row.
#[tactic(auto, unfolding(crate::specs::Grammar::Inside::States::pick))]
fn pick<'a>(reader: &mut Reader<'a>) -> Result<Pick<'a>, ParseError>
    ensures leads { (k : APick → RuleState) → LeadsOn rule_reader (part rule_reader (pick k) reader.old) result k reader.new }
    ensures fewer { OnOk result (length reader.new.rest ≤ length reader.old.rest) }
{
    let what = what(reader)?;
    let relation = relation(reader)?;
    let right = term(reader)?;
    Ok(Pick {
        what,
        relation,
        right,
    })
}

// What is asked of a row.
fn what<'a>(reader: &mut Reader<'a>) -> Result<What<'a>, ParseError>
    ensures leads { (k : AWhat → RuleState) → LeadsOn rule_reader (part rule_reader (what k) reader.old) result k reader.new }
    ensures fewer { OnOk result (length reader.new.rest ≤ length reader.old.rest) }
{
    match take_wanted(reader, Wanted::Key(Keyword::State))? {
        Some(word) => Ok(What::State { at: word.at }),
        None => {
            let field = wanted(reader, Wanted::Name)?;
            Ok(What::Field(field))
        }
    }
}
