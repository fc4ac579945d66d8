// Why the text of an interface is refused, and what is told of a place.
ghost use Rattle.std.specs.Prelude.{◌≡◌, ◌++◌, List, Ok, Err as failed, codes, true, map, IfOk, OnOk};
ghost use Rattle.sg_input.specs.sg_facts.Facts.{Facts, facts_of};
ghost use Rattle.sg_input.specs.sg_check_statements.Shapes.{are_shapes};
ghost use Rattle.sg_input.specs.sg_check_statements.Faults.{IsFault};
ghost use Rattle.sg_input.specs.Lines.{refused_line};
ghost use Rattle.sg_input.specs.Verdicts.{refusal_name, services_for};
ghost use Rattle.sg_input.specs.sg_parse.Grammar.Parses.{Parses};
ghost use Rattle.sg_explain.specs.Explained.{why_at};
ghost use Rattle.sg_explain.specs.Words.{refusal_words};
ghost use Rattle.sg_explain.specs.Inside.Pieces.{IsExaminedWithReason, TellsReason, TellsRefusal};

use crate::parts::put;
use crate::places::{put_place, put_shown};
use crate::stuck::put_stuck;
use crate::words::{Sentences, refusal_words};
use sg_input::{
    Accepted, Bytes, CheckError, CheckFault, CheckKind, NoMemory, ParseError, Read, RefusalKind,
    Shape, Tree, check_for, parse, refusal_line,
};
use std::alloc::Global;

/// The interface of a text that is accepted, or else what is told of the text: the line that refuses it, and why.
pub(crate) fn examine_with_reason(
    alloc: Global,
    text: &[u8],
    shapes: &[Shape],
) -> Result<Read<Accepted>, NoMemory>
    requires { are_shapes (map facts_of shapes.now) ≡ true }
    ensures { IfOk result (IsExaminedWithReason (map facts_of shapes.now) text.now) }
{
    match parse(alloc, text) {
        Ok(tree) => examine_tree(alloc, text, &tree, shapes),
        Err(error) => {
            let told = told_unparsed(alloc, text, error)?;
            Ok(Read::Refused(told))
        }
    }
}

// The interface of a text that is a sentence, or what is told of the text.
fn examine_tree(
    alloc: Global,
    text: &[u8],
    tree: &Tree,
    shapes: &[Shape],
) -> Result<Read<Accepted>, NoMemory>
    requires shapes { are_shapes (map facts_of shapes.now) ≡ true }
    requires sentence { Parses text.now (Ok tree.now) }
    ensures { IfOk result (IsExaminedWithReason (map facts_of shapes.now) text.now) }
{
    match check_for(alloc, tree, shapes) {
        Ok(accepted) => Ok(Read::Ready(accepted)),
        Err(CheckError::NoMemory) => Err(NoMemory),
        Err(CheckError::Fault(fault)) => {
            let told = told_unaccepted(alloc, text, tree, fault, shapes)?;
            Ok(Read::Refused(told))
        }
    }
}

// What is told of a text that the parser answers with this error, whatever the services.
fn told_unparsed(alloc: Global, text: &[u8], error: ParseError) -> Result<Bytes, NoMemory>
    requires { Parses text.now (failed error) }
    ensures { IfOk result (λ told. (services : List Facts) → TellsRefusal services text.now told) }
{
    match error {
        ParseError::NoMemory => Err(NoMemory),
        ParseError::Lex { at } => told_at(alloc, text, RefusalKind::Lex, at),
        ParseError::Syntax { at } => told_at(alloc, text, RefusalKind::Syntax, at),
    }
}

// The line that refuses a text for a kind at a place, with the sentences of that kind.
fn told_at(alloc: Global, text: &[u8], kind: RefusalKind, at: usize) -> Result<Bytes, NoMemory>
    ensures { IfOk result (λ told. told ≡ refused_line (codes "interface refused at ") text.now at (refusal_name kind)
        ++ why_at text.now at (refusal_words kind)) }
{
    let mut told = refusal_line(alloc, text, kind, at)?;
    put_why(&mut told, text, at, &refusal_words(kind))?;
    Ok(told)
}

// What is told of a sentence that has this fault first.
fn told_unaccepted(
    alloc: Global,
    text: &[u8],
    tree: &Tree,
    fault: CheckFault,
    shapes: &[Shape],
) -> Result<Bytes, NoMemory>
    requires shapes { are_shapes (map facts_of shapes.now) ≡ true }
    requires sentence { Parses text.now (Ok tree.now) }
    requires fault { IsFault (services_for (map facts_of shapes.now) tree.now) tree.now fault.kind fault.at }
    ensures { IfOk result (TellsRefusal (map facts_of shapes.now) text.now) }
{
    let mut told = refusal_line(alloc, text, RefusalKind::Check(fault.kind), fault.at)?;
    put_fault(&mut told, alloc, text, tree, fault, shapes)?;
    Ok(told)
}

// Adds why a sentence is refused that has this fault first.
fn put_fault(
    out: &mut Bytes,
    alloc: Global,
    text: &[u8],
    tree: &Tree,
    fault: CheckFault,
    shapes: &[Shape],
) -> Result<(), NoMemory>
    requires shapes { are_shapes (map facts_of shapes.now) ≡ true }
    requires sentence { Parses text.now (Ok tree.now) }
    requires fault { IsFault (services_for (map facts_of shapes.now) tree.now) tree.now fault.kind fault.at }
    ensures { OnOk result (TellsReason (map facts_of shapes.now) text.now out.old out.new) }
{
    put_why(
        out,
        text,
        fault.at,
        &refusal_words(RefusalKind::Check(fault.kind)),
    )?;
    match fault.kind {
        CheckKind::NoWalk => put_stuck(out, alloc, tree, fault.at, shapes),
        _ => Ok(()),
    }
}

/// Adds a place in a text, what is wrong there and what is usually meant.
pub fn put_why(out: &mut Bytes, text: &[u8], at: usize, words: &Sentences) -> Result<(), NoMemory>
    ensures { OnOk result (out.new ≡ out.old ++ why_at text.now at words.now) }
{
    put_place(out, text, at)?;
    put(out, &[words.before])?;
    put_shown(out, text, at)?;
    put(out, &[words.after, b"\n", words.meant, b"\n"])
}
