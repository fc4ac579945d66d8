// What is said of the text of an interface, whatever its version.
ghost use Rattle.std.specs.Prelude.{◌≡◌, ℕ, Ok, List, MatchOption, codes, map, true, IfOk};
ghost use Rattle.std.specs.Result.{MatchResult};
ghost use Rattle.sg_explain.specs.sg_facts.Facts.{Facts, facts_of};
ghost use Rattle.sg_explain.specs.sg_input.sg_check_statements.Shapes.{are_shapes};
ghost use Rattle.sg_explain.specs.sg_input.declared.read.Read.{Read as AnyRead};
ghost use Rattle.sg_judge.specs.Said.{IsChecked, IsOfServices, IsOwnText, IsRenewed, IsTabled};
ghost use Rattle.sg_judge.specs.Said.{IsOwnSaid, OwnAccepted, OwnTables, version_place};
ghost use Rattle.sg_explain.specs.sg_input.Lines.{refused_line};
ghost use Rattle.sg_explain.specs.sg_input.Verdicts.{refusal_name};
ghost use Rattle.sg_explain.specs.sg_input.declared.refusal.RefusalKind.TheVariants.{Syntax};
ghost use Rattle.sg_judge.specs.Inside.Examined.{IsOwnExamined};
ghost use Rattle.sg_judge.specs.Inside.Places.{place_after};

use crate::lines::own_line;
use sg_explain::{
    Bytes, Lexer, NoMemory, ParseError, Read, RefusalKind, Shape, Tree, accepted_line, compile,
    is_own, parse, print_tables, refusal_line,
};
use sg_own::{OwnError, OwnInterface, check_own};
use std::alloc::Global;

// The tokens before the number of a version: `service_global_info = { version =`.
const BEFORE_VERSION: usize = 5;

/// What `check` says of an interface text. One of version 3 describes a service of its own and is judged by itself; one of version 1 or 2 may be
/// of one of these shapes. The line `accepted SERVICE` where the text is accepted, and else the line `interface refused at L:C: KIND` with the
/// first thing that is wrong with it; L is the line of its place and C the byte in that line, both from 1. The shapes are as for `sg_input`'s
/// `verdict`. The only error is want of memory.
pub fn verdict(alloc: Global, text: &[u8], shapes: &[Shape]) -> Result<Read<Bytes>, NoMemory>
    requires { are_shapes (map facts_of shapes.now) ≡ true }
    ensures verdict { IfOk result (IsChecked (map facts_of shapes.now) text.now) }
    // No other verdict may be given.
    ensures only { (other : AnyRead (List ℕ)) → IsChecked (map facts_of shapes.now) text.now other → IfOk result (λ v. v ≡ other) }
{
    judge(alloc, text, shapes)
}

/// What `compile` says of an interface text: the text of its tables where it is accepted, and else the line that `verdict` refuses it with. The
/// shapes are as for `verdict`. The only error is want of memory.
pub fn compiled(alloc: Global, text: &[u8], shapes: &[Shape]) -> Result<Read<Bytes>, NoMemory>
    requires { are_shapes (map facts_of shapes.now) ≡ true }
    ensures verdict { IfOk result (IsTabled (map facts_of shapes.now) text.now) }
    // No other verdict may be given.
    ensures only { (other : AnyRead (List ℕ)) → IsTabled (map facts_of shapes.now) text.now other → IfOk result (λ v. v ≡ other) }
{
    judge_tables(alloc, text, shapes)
}

/// What `upgrade` says of an interface text: its canonical text as one of version 2, where it is accepted, and else the line that `verdict` refuses
/// it with. A text of version 3 is none of the languages that it knows: the line has `Syntax` at the number. The shapes are as for `verdict`. The only error is want of memory.
pub fn upgraded(alloc: Global, text: &[u8], shapes: &[Shape]) -> Result<Read<Bytes>, NoMemory>
    requires { are_shapes (map facts_of shapes.now) ≡ true }
    ensures verdict { IfOk result (IsRenewed (map facts_of shapes.now) text.now) }
    // No other verdict may be given.
    ensures only { (other : AnyRead (List ℕ)) → IsRenewed (map facts_of shapes.now) text.now other → IfOk result (λ v. v ≡ other) }
{
    judge_upgrade(alloc, text, shapes)
}

// The line that accepts a text or refuses it, for `verdict`.
fn judge(alloc: Global, text: &[u8], shapes: &[Shape]) -> Result<Read<Bytes>, NoMemory>
    requires { are_shapes (map facts_of shapes.now) ≡ true }
    ensures { IfOk result (IsChecked (map facts_of shapes.now) text.now) }
{
    match own_tree(alloc, text)? {
        Some(tree) => own_verdict(alloc, text, &tree),
        None => sg_explain::verdict(alloc, text, shapes),
    }
}

// The text of the tables of a text, or the line that refuses the text, for `compiled`.
fn judge_tables(alloc: Global, text: &[u8], shapes: &[Shape]) -> Result<Read<Bytes>, NoMemory>
    requires { are_shapes (map facts_of shapes.now) ≡ true }
    ensures { IfOk result (IsTabled (map facts_of shapes.now) text.now) }
{
    match own_tree(alloc, text)? {
        Some(tree) => own_tables(alloc, text, &tree),
        None => sg_explain::compiled(alloc, text, shapes),
    }
}

// The text of version 2, or the line that refuses the text, for `upgraded`.
fn judge_upgrade(alloc: Global, text: &[u8], shapes: &[Shape]) -> Result<Read<Bytes>, NoMemory>
    requires { are_shapes (map facts_of shapes.now) ≡ true }
    ensures { IfOk result (IsRenewed (map facts_of shapes.now) text.now) }
{
    match own_tree(alloc, text)? {
        Some(_) => Ok(Read::Refused(unknown_version(alloc, text)?)),
        None => sg_explain::upgraded(alloc, text, shapes),
    }
}

/// The tree of a text that describes a service of its own. The only error is want of memory.
pub(crate) fn own_tree<'a>(alloc: Global, text: &'a [u8]) -> Result<Option<Tree<'a>>, NoMemory>
    ensures { IfOk result (λ tree. MatchOption tree (IsOfServices text.now) (IsOwnText text.now)) }
{
    let tree = match parse(alloc, text) {
        Ok(tree) => tree,
        Err(ParseError::NoMemory) => return Err(NoMemory),
        Err(ParseError::Lex { .. }) => return Ok(None),
        Err(ParseError::Syntax { .. }) => return Ok(None),
    };
    if is_own(&tree) {
        Ok(Some(tree))
    } else {
        Ok(None)
    }
}

// What is said of such a text by `check`.
fn own_verdict(alloc: Global, text: &[u8], tree: &Tree) -> Result<Read<Bytes>, NoMemory>
    requires { IsOwnText text.now tree.now }
    ensures { IfOk result (IsOwnSaid OwnAccepted text.now) }
{
    match examined(alloc, text, tree)? {
        Read::Ready(own) => {
            let service = own.accepted.interface().shape.name;
            Ok(Read::Ready(accepted_line(alloc, service)?))
        }
        Read::Refused(line) => Ok(Read::Refused(line)),
    }
}

// What is said of such a text by its tables.
fn own_tables(alloc: Global, text: &[u8], tree: &Tree) -> Result<Read<Bytes>, NoMemory>
    requires { IsOwnText text.now tree.now }
    ensures { IfOk result (IsOwnSaid OwnTables text.now) }
{
    match examined(alloc, text, tree)? {
        Read::Ready(own) => {
            let tables = compile(alloc, &own.accepted)?;
            Ok(Read::Ready(print_tables(alloc, &tables)?))
        }
        Read::Refused(line) => Ok(Read::Refused(line)),
    }
}

// The line that refuses such a text where it is to be upgraded, since it isn't of version 1 or 2.
fn unknown_version(alloc: Global, text: &[u8]) -> Result<Bytes, NoMemory>
    ensures { IfOk result (λ line. line ≡ refused_line (codes "interface refused at ") text.now (version_place text.now) (refusal_name Syntax)) }
{
    refusal_line(alloc, text, RefusalKind::Syntax, version_place(text))
}

// The place of the number of a text's version.
fn version_place(text: &[u8]) -> usize
    ensures { result ≡ version_place text.now }
{
    place_after(&mut Lexer::new(text), BEFORE_VERSION)
}

// The place of the token that a lexer gives after so many others; 0 where it gives none.
fn place_after(lexer: &mut Lexer, passed: usize) -> usize
    ensures { result ≡ place_after lexer.old passed }
{
    match lexer.next() {
        Some(_) if passed > 0 => place_after(lexer, passed - 1),
        Some(Ok(token)) => token.at,
        _ => 0,
    }
}

// The interface of a text that describes a service of its own, or the line that refuses it.
fn examined(alloc: Global, text: &[u8], tree: &Tree) -> Result<Read<OwnInterface>, NoMemory>
    ensures { IfOk result (IsOwnExamined text.now tree.now) }
{
    match check_own(alloc, tree) {
        Ok(own) => Ok(Read::Ready(own)),
        Err(OwnError::NoMemory) => Err(NoMemory),
        Err(OwnError::Fault(fault)) => {
            Ok(Read::Refused(own_line(alloc, text, fault.kind, fault.at)?))
        }
    }
}
