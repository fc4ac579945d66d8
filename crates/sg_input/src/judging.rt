// What is said of a text.
ghost use Rattle.std.specs.Prelude.{◌≡◌, ℕ, Ok, Err as failed, List, true, map, IfOk};
ghost use Rattle.sg_facts.specs.Facts.{Facts, facts_of};
ghost use Rattle.sg_facts.specs.Interface.{Declared};
ghost use Rattle.sg_print.specs.sg_parse.declared.tree.Tree.{Tree as Sentence};
ghost use Rattle.sg_print.specs.sg_parse.Grammar.Parses.{Parses};
ghost use Rattle.sg_print.specs.sg_parse.Grammar.Upgraded.{upgraded};
ghost use Rattle.sg_stub.specs.sg_check_statements.Shapes.{are_shapes};
ghost use Rattle.sg_stub.specs.sg_check_statements.Stages.{IsFirstFault};
ghost use Rattle.sg_input.specs.declared.read.Read.{Read as AnyRead};
ghost use Rattle.sg_input.specs.declared.read.Read.TheVariants.{Refused as refused_with};
ghost use Rattle.sg_input.specs.Examined.{IsExamined};
ghost use Rattle.sg_input.specs.Verdicts.{IsCompiled, IsRefused, IsUpgraded, IsVerdict, services_for};

use crate::among::check_for;
use crate::lines::{accepted_line, refusal_line};
use crate::{Accepted, Read, RefusalKind};
use sg_facts::{Bytes, NoMemory, Shape};
use sg_print::{ParseError, Tree, parse, print, print_tables};
use sg_stub::{CheckError, compile};
use std::alloc::Global;

/// What is said of an interface text, where it may be of one of these shapes: the line `accepted SERVICE` where the text is
/// accepted, and else the line `interface refused at L:C: KIND` with the first thing that is wrong with it. L is the line of its
/// place and C the byte in that line, both counted from 1. A shape has at most 32 functions and 8 fields, its numbers name its
/// own functions, and no two of its functions have one name. The only error is want of memory.
pub fn verdict(alloc: Global, text: &[u8], shapes: &[Shape]) -> Result<Read<Bytes>, NoMemory>
    requires { are_shapes (map facts_of shapes.now) ≡ true }
    ensures verdict { IfOk result (IsVerdict (map facts_of shapes.now) text.now) }
    // No other verdict may be given.
    ensures only { (other : AnyRead (List ℕ)) → IsVerdict (map facts_of shapes.now) text.now other → IfOk result (λ v. v ≡ other) }
{
    judge(alloc, text, shapes)
}

/// What is said of an interface text by its tables: their text where the text is accepted, and else the line that `verdict`
/// refuses it with. The shapes are as for `verdict`. The only error is want of memory.
pub fn compiled(alloc: Global, text: &[u8], shapes: &[Shape]) -> Result<Read<Bytes>, NoMemory>
    requires { are_shapes (map facts_of shapes.now) ≡ true }
    ensures verdict { IfOk result (IsCompiled (map facts_of shapes.now) text.now) }
    // No other verdict may be given.
    ensures only { (other : AnyRead (List ℕ)) → IsCompiled (map facts_of shapes.now) text.now other → IfOk result (λ v. v ≡ other) }
{
    judge_tables(alloc, text, shapes)
}

/// The interface of a text that is accepted, or the line that `verdict` refuses it with. The shapes are as for `verdict`. The
/// only error is want of memory.
pub fn examine(alloc: Global, text: &[u8], shapes: &[Shape]) -> Result<Read<Accepted>, NoMemory>
    requires { are_shapes (map facts_of shapes.now) ≡ true }
    ensures answer { IfOk result (IsExamined (map facts_of shapes.now) text.now) }
    // No other answer may be given.
    ensures only { (other : AnyRead Declared) → IsExamined (map facts_of shapes.now) text.now other → IfOk result (λ e. e ≡ other) }
{
    examine_text(alloc, text, shapes)
}

/// What is said of an interface text by what it is upgraded to: the canonical text of its tree as one of version 2 where the text
/// is accepted, and else the line that `verdict` refuses it with. A tree of version 1 rebuilds descriptors on demand, and one of
/// version 2 keeps its word. The shapes are as for `verdict`. The only error is want of memory.
pub fn upgraded(alloc: Global, text: &[u8], shapes: &[Shape]) -> Result<Read<Bytes>, NoMemory>
    requires { are_shapes (map facts_of shapes.now) ≡ true }
    ensures verdict { IfOk result (IsUpgraded (map facts_of shapes.now) text.now) }
    // No other verdict may be given.
    ensures only { (other : AnyRead (List ℕ)) → IsUpgraded (map facts_of shapes.now) text.now other → IfOk result (λ v. v ≡ other) }
{
    judge_upgrade(alloc, text, shapes)
}

// The line that accepts a text or refuses it, for `verdict`.
fn judge(alloc: Global, text: &[u8], shapes: &[Shape]) -> Result<Read<Bytes>, NoMemory>
    requires { are_shapes (map facts_of shapes.now) ≡ true }
    ensures { IfOk result (IsVerdict (map facts_of shapes.now) text.now) }
{
    match examine_text(alloc, text, shapes)? {
        Read::Ready(accepted) => {
            let service = accepted.interface().shape.name;
            Ok(Read::Ready(accepted_line(alloc, service)?))
        }
        Read::Refused(line) => Ok(Read::Refused(line)),
    }
}

// The text of the tables of a text, or the line that refuses the text, for `compiled`.
fn judge_tables(alloc: Global, text: &[u8], shapes: &[Shape]) -> Result<Read<Bytes>, NoMemory>
    requires { are_shapes (map facts_of shapes.now) ≡ true }
    ensures { IfOk result (IsCompiled (map facts_of shapes.now) text.now) }
{
    match examine_text(alloc, text, shapes)? {
        Read::Ready(accepted) => {
            let tables = compile(alloc, &accepted)?;
            Ok(Read::Ready(print_tables(alloc, &tables)?))
        }
        Read::Refused(line) => Ok(Read::Refused(line)),
    }
}

// The text of an interface as one of version 2, or the line that refuses the text, for `upgraded`.
fn judge_upgrade(alloc: Global, text: &[u8], shapes: &[Shape]) -> Result<Read<Bytes>, NoMemory>
    requires { are_shapes (map facts_of shapes.now) ≡ true }
    ensures { IfOk result (IsUpgraded (map facts_of shapes.now) text.now) }
{
    match parse(alloc, text) {
        Ok(tree) => upgrade_tree(alloc, text, tree, shapes),
        Err(error) => Ok(Read::Refused(unparsed_line(alloc, text, error)?)),
    }
}

// The text of an interface as one of version 2, or the line that refuses it, by what the checker answers of its tree.
fn upgrade_tree(
    alloc: Global,
    text: &[u8],
    tree: Tree,
    shapes: &[Shape],
) -> Result<Read<Bytes>, NoMemory>
    requires shapes { are_shapes (map facts_of shapes.now) ≡ true }
    requires sentence { Parses text.now (Ok tree) }
    ensures { IfOk result (IsUpgraded (map facts_of shapes.now) text.now) }
{
    match check_for(alloc, &tree, shapes) {
        Ok(_) => Ok(Read::Ready(print(alloc, &upgraded_tree(tree))?)),
        Err(error) => Ok(Read::Refused(unaccepted_line(alloc, text, error)?)),
    }
}

// The version whose texts are upgraded, and the next.
const FIRST: u8 = 1;

const SECOND: u8 = 2;

// A tree of version 1 as one of version 2, and any other as it is.
fn upgraded_tree(mut tree: Tree<'_>) -> Tree<'_>
    ensures { result ≡ upgraded tree.entry }
{
    if tree.facts.version == FIRST {
        tree.facts.version = SECOND;
    }
    tree
}

// The interface of a text, or the line that refuses the text, by what the parser answers.
fn examine_text(alloc: Global, text: &[u8], shapes: &[Shape]) -> Result<Read<Accepted>, NoMemory>
    requires { are_shapes (map facts_of shapes.now) ≡ true }
    ensures { IfOk result (IsExamined (map facts_of shapes.now) text.now) }
{
    match parse(alloc, text) {
        Ok(tree) => examine_tree(alloc, text, &tree, shapes),
        Err(error) => Ok(Read::Refused(unparsed_line(alloc, text, error)?)),
    }
}

// The interface of a text that is a sentence, or the line that refuses the text, by what the checker answers.
fn examine_tree(
    alloc: Global,
    text: &[u8],
    tree: &Tree,
    shapes: &[Shape],
) -> Result<Read<Accepted>, NoMemory>
    requires shapes { are_shapes (map facts_of shapes.now) ≡ true }
    requires sentence { Parses text.now (Ok tree.now) }
    ensures { IfOk result (IsExamined (map facts_of shapes.now) text.now) }
{
    match check_for(alloc, tree, shapes) {
        Ok(accepted) => Ok(Read::Ready(accepted)),
        Err(error) => Ok(Read::Refused(unaccepted_line(alloc, text, error)?)),
    }
}

// The line of a text that the parser answers with this error, whatever the services.
fn unparsed_line(alloc: Global, text: &[u8], error: ParseError) -> Result<Bytes, NoMemory>
    requires { Parses text.now (failed error) }
    ensures { IfOk result (λ line. (services : List Facts) → IsVerdict services text.now (refused_with line)) }
{
    match error {
        ParseError::NoMemory => Err(NoMemory),
        ParseError::Lex { at } => refusal(alloc, text, RefusalKind::Lex, at),
        ParseError::Syntax { at } => refusal(alloc, text, RefusalKind::Syntax, at),
    }
}

// The line of a sentence whose tree the checker answers with this error.
fn unaccepted_line(alloc: Global, text: &[u8], error: CheckError) -> Result<Bytes, NoMemory>
    ensures { IfOk result (λ line. (services : List Facts) (tree : Sentence) → Parses text.now (Ok tree) → IsFirstFault (services_for services tree) tree error
        → IsVerdict services text.now (refused_with line)) }
{
    match error {
        CheckError::NoMemory => Err(NoMemory),
        CheckError::Fault(fault) => refusal(alloc, text, RefusalKind::Check(fault.kind), fault.at),
    }
}

// The line of a kind and a place: what is said of a text that is refused for that kind there, whatever the services.
fn refusal(alloc: Global, text: &[u8], kind: RefusalKind, at: usize) -> Result<Bytes, NoMemory>
    ensures { IfOk result (λ line. (services : List Facts) → IsRefused services text.now kind at → IsVerdict services text.now (refused_with line)) }
{
    refusal_line(alloc, text, kind, at)
}
