// The parts of a script.
ghost use Rattle.std.specs.Prelude.{◌≡◌, ◌≤◌, List, [], length, OnOk};
ghost use Rattle.std.specs.declared.option.Option.{Option as Maybe};
ghost use Rattle.sg_script_parse.specs.declared.tree.Part.{Part as Written};
ghost use Rattle.sg_lex.specs.Lexeme.{Spelling};
ghost use Rattle.sg_script_parse.specs.Grammar.Inside.States.{ScriptState, script, counts, part_after, setup_rest, client_rest, schedule_rest, stop_rest, named, scripts};
ghost use Rattle.sg_lex.specs.Inside.Automata.{read, Leads, Answers, read_on};

use crate::calls::braced;
use crate::error::ScriptSyntax;
use crate::reader::{mark, next_token, number, take_spelled, word};
use crate::tree::{Part, PartList};
use sg_lex::{Reader, Spelled, SpelledList, Token, TokenKind};
use std::alloc::Global;

/// The parts up to the end of the text, of a script for several services or for one.
#[tactic(auto, using(crate::proofs::ByToken::part_came, crate::proofs::ByToken::script_end))]
pub fn parts<'a>(
    reader: &mut Reader<'a>,
    alloc: Global,
    several: bool,
) -> Result<PartList<'a>, ScriptSyntax>
    ensures { Answers scripts (read scripts (script several []) reader.old) result }
{
    let mut parts = PartList::new(alloc);
    'parts: while let Some(token) = next_token(reader)? {
        parts.push(part(reader, alloc, several, token)?)?;
    }
    Ok(parts)
}

/// A part whose first token was taken.
#[tactic(auto, using(crate::proofs::ByToken::is_setup, crate::proofs::ByToken::is_client, crate::proofs::ByToken::is_schedule, crate::proofs::ByToken::is_stop, crate::proofs::ByToken::is_no_part))]
fn part<'a>(
    reader: &mut Reader<'a>,
    alloc: Global,
    several: bool,
    token: Token<'a>,
) -> Result<Part<'a>, ScriptSyntax>
    ensures leads { (go : Written → ScriptState) →
        Leads scripts (read_on scripts (part_after several go token.entry) token.entry reader.old) result go reader.new }
    ensures fewer { OnOk result (length reader.new.rest ≤ length reader.old.rest) }
{
    if token.is_word(b"setup") {
        return setup(reader, alloc, token.at);
    }
    if token.is_word(b"client") {
        return client(reader, alloc, token.at);
    }
    if token.is_word(b"schedule") {
        return schedule(reader, alloc, token.at);
    }
    if token.is_word(b"stop") {
        return stop(reader, alloc, several, token.at);
    }
    Err(ScriptSyntax::Syntax { at: token.at })
}

/// The calls of the setup, after its word at this place.
fn setup<'a>(reader: &mut Reader<'a>, alloc: Global, at: usize) -> Result<Part<'a>, ScriptSyntax>
    ensures leads { (go : Written → ScriptState) → Leads scripts (read scripts (setup_rest go at) reader.old) result go reader.new }
    ensures fewer { OnOk result (length reader.new.rest ≤ length reader.old.rest) }
{
    let calls = braced(reader, alloc)?;
    Ok(Part::Setup { at, calls })
}

/// The number and the calls of a client, after the word at this place.
fn client<'a>(reader: &mut Reader<'a>, alloc: Global, at: usize) -> Result<Part<'a>, ScriptSyntax>
    ensures leads { (go : Written → ScriptState) → Leads scripts (read scripts (client_rest go at) reader.old) result go reader.new }
    ensures fewer { OnOk result (length reader.new.rest ≤ length reader.old.rest) }
{
    let number = number(reader)?;
    let calls = braced(reader, alloc)?;
    Ok(Part::Client { at, number, calls })
}

/// The numbers of the schedule, after its word at this place.
fn schedule<'a>(reader: &mut Reader<'a>, alloc: Global, at: usize) -> Result<Part<'a>, ScriptSyntax>
    ensures leads { (go : Written → ScriptState) → Leads scripts (read scripts (schedule_rest go at) reader.old) result go reader.new }
    ensures fewer { OnOk result (length reader.new.rest ≤ length reader.old.rest) }
{
    let numbers = numbers(reader, alloc)?;
    Ok(Part::Schedule { at, numbers })
}

/// The numbers of the stops, after the word at this place, and before them the name of their service in a script for several.
fn stop<'a>(
    reader: &mut Reader<'a>,
    alloc: Global,
    several: bool,
    at: usize,
) -> Result<Part<'a>, ScriptSyntax>
    ensures leads { (go : Written → ScriptState) → Leads scripts (read scripts (stop_rest several go at) reader.old) result go reader.new }
    ensures fewer { OnOk result (length reader.new.rest ≤ length reader.old.rest) }
{
    let service = service(reader, several)?;
    let numbers = numbers(reader, alloc)?;
    Ok(Part::Stop {
        at,
        service,
        numbers,
    })
}

/// The name of a service, in a script for several.
fn service<'a>(reader: &mut Reader<'a>, several: bool) -> Result<Option<Spelled<'a>>, ScriptSyntax>
    ensures leads { (k : Maybe Spelling → ScriptState) → Leads scripts (read scripts (named several k) reader.old) result k reader.new }
    ensures fewer { OnOk result (length reader.new.rest ≤ length reader.old.rest) }
{
    if several {
        Ok(Some(word(reader)?))
    } else {
        Ok(None)
    }
}

/// Numbers up to a semicolon.
#[tactic(auto, using(crate::proofs::ByToken::count_came, crate::proofs::ByToken::count_missing))]
fn numbers<'a>(reader: &mut Reader<'a>, alloc: Global) -> Result<SpelledList<'a>, ScriptSyntax>
    ensures leads { (k : List Spelling → ScriptState) → Leads scripts (read scripts (counts [] k) reader.old) result k reader.new }
    ensures fewer { OnOk result (length reader.new.rest ≤ length reader.old.rest) }
{
    let mut numbers = SpelledList::new(alloc);
    'numbers: while let Some(number) = take_spelled(reader, TokenKind::Number)? {
        numbers.push(number)?;
    }
    mark(reader, b';')?;
    Ok(numbers)
}
