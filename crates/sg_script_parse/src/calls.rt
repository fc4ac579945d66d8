// Calls and their arguments.
ghost use Rattle.std.specs.Prelude.{◌≡◌, ◌≤◌, List, [], ◌∷◌, length, OnOk};
ghost use Rattle.sg_script_parse.specs.declared.tree.WrittenArg.{WrittenArg as Arg};
ghost use Rattle.sg_script_parse.specs.declared.tree.WrittenCall.{WrittenCall as Call};
ghost use Rattle.sg_script_parse.specs.Grammar.Inside.States.{ScriptState, argument, bracketed, call_rest, braced, scripts};
ghost use Rattle.sg_lex.specs.Inside.Automata.{read, Leads};

use crate::args::WrittenArgList;
use crate::error::ScriptSyntax;
use crate::reader::{mark, number, take_mark, take_spelled};
use crate::tree::{WrittenArg, WrittenCall, WrittenCallList};
use sg_lex::{Reader, Spelled, TokenKind};
use std::alloc::Global;

/// Calls in braces.
#[tactic(auto, using(crate::proofs::ByToken::name_came, crate::proofs::ByToken::name_missing))]
pub fn braced<'a>(
    reader: &mut Reader<'a>,
    alloc: Global,
) -> Result<WrittenCallList<'a>, ScriptSyntax>
    ensures leads { (k : List Call → ScriptState) → Leads scripts (read scripts (braced k) reader.old) result k reader.new }
    ensures fewer { OnOk result (length reader.new.rest ≤ length reader.old.rest) }
{
    mark(reader, b'{')?;
    let mut calls = WrittenCallList::new(alloc);
    'calls: while let Some(name) = take_spelled(reader, TokenKind::Word)? {
        calls.push(call(reader, alloc, name)?)?;
    }
    mark(reader, b'}')?;
    Ok(calls)
}

/// A call whose name was taken.
fn call<'a>(
    reader: &mut Reader<'a>,
    alloc: Global,
    name: Spelled<'a>,
) -> Result<WrittenCall<'a>, ScriptSyntax>
    ensures leads { (k : Call → ScriptState) → Leads scripts (read scripts (call_rest k name.entry) reader.old) result k reader.new }
    ensures fewer { OnOk result (length reader.new.rest ≤ length reader.old.rest) }
{
    mark(reader, b'(')?;
    let args = bracketed(reader, alloc)?;
    mark(reader, b';')?;
    Ok(WrittenCall { name, args })
}

/// The arguments after the bracket that opens them, and the bracket that closes them.
#[tactic(auto, using(crate::proofs::ByToken::no_argument, crate::proofs::ByToken::some_argument, crate::proofs::ByToken::comma_came, crate::proofs::ByToken::comma_missing))]
fn bracketed<'a>(reader: &mut Reader<'a>, alloc: Global) -> Result<WrittenArgList<'a>, ScriptSyntax>
    ensures leads { (k : List Arg → ScriptState) → Leads scripts (read scripts (bracketed k) reader.old) result k reader.new }
    ensures fewer { OnOk result (length reader.new.rest ≤ length reader.old.rest) }
{
    if take_mark(reader, b')')? {
        return Ok(WrittenArgList::new(alloc));
    }
    let mut args = WrittenArgList::of_one(argument(reader)?);
    'commas: while take_mark(reader, b',')? {
        args.push(alloc, argument(reader)?)?;
    }
    mark(reader, b')')?;
    Ok(args)
}

/// An argument.
#[tactic(auto, using(crate::proofs::ByToken::dollar_came, crate::proofs::ByToken::text_came, crate::proofs::ByToken::neither_came))]
fn argument<'a>(reader: &mut Reader<'a>) -> Result<WrittenArg<'a>, ScriptSyntax>
    ensures leads { (k : Arg → ScriptState) → Leads scripts (read scripts (argument k) reader.old) result k reader.new }
    ensures fewer { OnOk result (length reader.new.rest ≤ length reader.old.rest) }
{
    if take_mark(reader, b'$')? {
        return Ok(WrittenArg::Back(number(reader)?));
    }
    match take_spelled(reader, TokenKind::Text)? {
        Some(text) => Ok(WrittenArg::Text(text)),
        None => Ok(WrittenArg::Number(number(reader)?)),
    }
}
