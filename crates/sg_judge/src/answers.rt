// How functions answer, in sentences.
ghost use Rattle.std.specs.Prelude.{◌≡◌, ◌++◌, OnOk};
ghost use Rattle.std.specs.List.{flat_map};
ghost use Rattle.sg_judge.specs.AnswerLines.{answer_lines, answers_in, rule_sentence, rule_words, where_words};

use sg_explain::{Bytes, NoMemory, Rule, Statement, Tests, put, put_rule, put_term, put_tests};

/// Adds the sentences of all rules.
pub(crate) fn put_answers(out: &mut Bytes, statements: &[Statement]) -> Result<(), NoMemory>
    ensures { OnOk result (out.new ≡ out.old ++ flat_map answers_in statements.now) }
{
    for statement in statements {
        put_answer(out, statement)?;
    }
    Ok(())
}

// Adds the sentences of a statement that says how a function answers.
fn put_answer(out: &mut Bytes, statement: &Statement) -> Result<(), NoMemory>
    ensures { OnOk result (out.new ≡ out.old ++ answers_in statement.now) }
{
    match statement {
        Statement::Answer { fun, rules } => put_rules(out, fun.slice, rules.as_slice()),
        _ => Ok(()),
    }
}

// Adds the sentences of the rules of a function, and of where none applies.
fn put_rules(out: &mut Bytes, fun: &[u8], rules: &[Rule]) -> Result<(), NoMemory>
    ensures { OnOk result (out.new ≡ out.old ++ answer_lines fun.now rules.now) }
{
    put_sentences(out, fun, rules)?;
    put(out, &[b"Else ", fun, b" is done.\n"])
}

// Adds the sentences of the rules of a function.
fn put_sentences(out: &mut Bytes, fun: &[u8], rules: &[Rule]) -> Result<(), NoMemory>
    ensures { OnOk result (out.new ≡ out.old ++ flat_map (rule_sentence fun.now) rules.now) }
{
    for rule in rules {
        put_sentence(out, fun, rule)?;
    }
    Ok(())
}

// Adds the sentence of a rule of a function.
fn put_sentence(out: &mut Bytes, fun: &[u8], rule: &Rule) -> Result<(), NoMemory>
    ensures { OnOk result (out.new ≡ out.old ++ rule_sentence fun.now rule.now) }
{
    put(out, &[fun])?;
    put_rule_words(out, rule)?;
    put(out, &[b".\n"])
}

// Adds what a function does by a rule.
fn put_rule_words(out: &mut Bytes, rule: &Rule) -> Result<(), NoMemory>
    ensures { OnOk result (out.new ≡ out.old ++ rule_words rule.now) }
{
    match rule {
        Rule::Refuse { code, when, .. } => {
            put(out, &[b" is refused ", code.slice])?;
            put_where(out, when)
        }
        Rule::Wait { when, .. } => {
            put(out, &[b" waits"])?;
            put_where(out, when)
        }
        Rule::Give { term, when, .. } => {
            put(out, &[b" is done, and gives "])?;
            put_term(out, term)?;
            put_where(out, when)
        }
        Rule::GiveRow { .. } | Rule::GiveFirst { .. } => {
            put(out, &[b" "])?;
            put_rule(out, rule)
        }
    }
}

// Adds where tests hold, if there are any.
fn put_where(out: &mut Bytes, when: &Tests) -> Result<(), NoMemory>
    ensures { OnOk result (out.new ≡ out.old ++ where_words when.now) }
{
    if when.tests.is_empty() {
        return Ok(());
    }
    put(out, &[b" where "])?;
    put_tests(out, when)
}
