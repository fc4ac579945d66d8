// The arguments of a call, as they are read.
ghost use Rattle.std.specs.Prelude.{◌≤◌, ◌<◌, ◌^◌, List, length, OnOk};
ghost use Rattle.sg_entries.specs.declared.tree.WrittenArg.{WrittenArg as Arg};
ghost use Rattle.sg_entries.specs.Inside.States.{EntryState, argument, bracketed};
ghost use Rattle.sg_entries.specs.Inside.Reads.{read, Leads, CountLeads};

use crate::line::Line;
use crate::list::list_of_one;
use crate::pieces::{byte, number, text_rest};
use crate::syntax::EntrySyntax;
use crate::tree::{WrittenArg, WrittenArgList};
use std::alloc::Global;

/// The arguments after the bracket that opens them, and the bracket that closes them.
#[tactic(auto, using(crate::proofs::ByByte::no_argument, crate::proofs::ByByte::some_argument, crate::proofs::ByByte::comma_came, crate::proofs::ByByte::comma_missing))]
pub fn bracketed<'a>(line: &mut Line<'a>, alloc: Global) -> Result<WrittenArgList<'a>, EntrySyntax>
    ensures leads { (k : List Arg → EntryState) → Leads (read (bracketed k) line.old) result k line.new }
{
    if line.take_byte(b')') {
        return Ok(WrittenArgList::new(alloc));
    }
    let mut args = list_of_one(alloc, argument(line)?)?;
    'commas: while line.take_byte(b',') {
        byte(line, b' ')?;
        args.push(argument(line)?)?;
    }
    byte(line, b')')?;
    Ok(args)
}

/// How many arguments come after the bracket that opens them; takes them, and the bracket that closes them. None is kept.
#[tactic(auto, using(crate::proofs::ByByte::no_argument, crate::proofs::ByByte::some_argument, crate::proofs::ByByte::comma_came, crate::proofs::ByByte::comma_missing))]
pub fn count_bracketed(line: &mut Line<'_>) -> Result<usize, EntrySyntax>
    ensures leads { (k : List Arg → EntryState) → CountLeads (read (bracketed k) line.old) result k line.new }
{
    if line.take_byte(b')') {
        return Ok(0);
    }
    argument(line)?;
    let mut count = 1;
    'commas: while line.take_byte(b',') {
        byte(line, b' ')?;
        argument(line)?;
        count += 1;
    }
    byte(line, b')')?;
    Ok(count)
}

/// An argument.
#[tactic(auto, using(crate::proofs::ByByte::quote_came, crate::proofs::ByByte::quote_missing))]
fn argument<'a>(line: &mut Line<'a>) -> Result<WrittenArg<'a>, EntrySyntax>
    ensures leads { (k : Arg → EntryState) → Leads (read (argument k) line.old) result k line.new }
    ensures fewer { OnOk result (length line.new.rest ≤ length line.old.rest) }
    ensures short { OnOk result (length line.new.rest < 2 ^ 63) }
{
    if line.take_byte(b'"') {
        return Ok(WrittenArg::Text(text_rest(line)?));
    }
    Ok(WrittenArg::Number(number(line)?))
}
