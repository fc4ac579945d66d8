// The text of a tree.
ghost use Rattle.std.specs.Prelude.{◌≡◌, ◌++◌, OnOk, IfOk};
ghost use Rattle.sg_print.specs.Printed.{statement_text, printed, shared_text};
ghost use Rattle.sg_print.specs.Inside.Pieces.{facts_text, recovery_text, version_line};

use crate::parts::put;
use crate::rules::put_rules;
use crate::types::{put_fields, put_params, put_ret};
use crate::words::recovery_word;
use sg_facts::{Bytes, NoMemory};
use sg_parse::{Facts, Statement, Tree};
use std::alloc::Global;

/// The canonical text of a tree. `NoMemory` only where there is no memory for it.
pub fn print(alloc: Global, tree: &Tree<'_>) -> Result<Bytes, NoMemory>
    ensures { IfOk result (λ text. text ≡ printed tree.now) }
{
    let mut out = Bytes::new(alloc);
    put_facts(&mut out, &tree.facts)?;
    for statement in tree.statements.as_slice() {
        put_statement(&mut out, statement)?;
    }
    Ok(out)
}

// Adds the line of a statement.
fn put_statement(out: &mut Bytes, statement: &Statement<'_>) -> Result<(), NoMemory>
    ensures { OnOk result (out.new ≡ out.old ++ statement_text statement.now) }
{
    match statement {
        Statement::One { word, fun } => put(out, &[word.slice, b"(", fun.slice, b");\n"]),
        Statement::Two {
            word,
            first,
            second,
        } => put(
            out,
            &[word.slice, b"(", first.slice, b", ", second.slice, b");\n"],
        ),
        Statement::Proto { ret, name, params } => {
            put_ret(out, ret)?;
            put(out, &[name.slice, b"("])?;
            put_params(out, params.as_slice())?;
            put(out, &[b");\n"])
        }
        Statement::External { fun } => put(out, &[b"sm_external(", fun.slice, b");\n"]),
        Statement::Most { field, most } => put(
            out,
            &[b"desc_data_most(", field.slice, b", ", most.slice, b");\n"],
        ),
        Statement::Unique { fields } => {
            put(out, &[b"desc_data_unique("])?;
            put_fields(out, fields.as_slice())?;
            put(out, &[b");\n"])
        }
        Statement::Answer { fun, rules } => {
            put(out, &[b"sm_answer(", fun.slice, b") {\n"])?;
            put_rules(out, rules.as_slice())?;
            put(out, &[b"}\n"])
        }
    }
}

// Adds the lines of the facts.
fn put_facts(out: &mut Bytes, facts: &Facts<'_>) -> Result<(), NoMemory>
    ensures { OnOk result (out.new ≡ out.old ++ facts_text facts.now) }
{
    put(
        out,
        &[b"service_global_info = {\n", version_line(facts.version)],
    )?;
    put_shared(out, facts)?;
    put_recovery(out, facts.version, facts.eager)?;
    put(out, &[b"\n};\n"])
}

// The line of the version, which a text of a version after the first has.
fn version_line(version: u8) -> &'static [u8]
    ensures { result.now ≡ version_line version }
{
    match version {
        2 => b"    version = 2,\n",
        3 => b"    version = 3,\n",
        _ => b"",
    }
}

// Adds the facts that texts of all versions have, up to the value of the last.
#[tactic(auto, unfolding(crate::specs::Printed::shared_text))]
fn put_shared(out: &mut Bytes, facts: &Facts<'_>) -> Result<(), NoMemory>
    ensures { OnOk result (out.new ≡ out.old ++ shared_text facts.now) }
{
    put(
        out,
        &[
            b"    service = ",
            facts.service.slice,
            b",\n    desc_has_parent = ",
            facts.parent.slice,
            b",\n    desc_close = ",
            facts.close.slice,
            b",\n    desc_is_global = ",
            facts.global.slice,
            b",\n    desc_block = ",
            facts.block.slice,
            b",\n    desc_has_data = ",
            facts.has_data.slice,
            b",\n    resc_has_data = ",
            facts.resc_data.slice,
        ],
    )
}

// Adds when descriptors are rebuilt, which a text of a version after the first says after the other facts.
fn put_recovery(out: &mut Bytes, version: u8, eager: bool) -> Result<(), NoMemory>
    ensures { OnOk result (out.new ≡ out.old ++ recovery_text version eager) }
{
    if version == 1 {
        Ok(())
    } else {
        put(out, &[b",\n    desc_recover = ", recovery_word(eager)])
    }
}
