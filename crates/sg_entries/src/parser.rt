// The whole of an entry's line.
ghost use Rattle.std.specs.Prelude.{◌≡◌, ◌≢◌, ◌⊎◌, IfOk, Err as failed, codes, map};
ghost use Rattle.std.specs.declared.result.Result.{Result as Answered};
ghost use Rattle.sg_facts.specs.Facts.{facts_of};
ghost use Rattle.sg_entries.specs.Entry.{shows_named};
ghost use Rattle.sg_entries.specs.Parses.{EntryParses, OutlineParses};
ghost use Rattle.sg_entries.specs.declared.syntax.EntrySyntax.{EntrySyntax as Fault};
ghost use Rattle.sg_entries.specs.declared.tree.EntryOutline.{EntryOutline as Outline};
ghost use Rattle.sg_entries.specs.declared.tree.WrittenAnswer.{WrittenAnswer as Answer};
ghost use Rattle.sg_entries.specs.declared.tree.WrittenEntry.{WrittenEntry as Entry};
ghost use Rattle.sg_entries.specs.Inside.States.{entry_start, call_answer, bracketed, bytes, answered};
ghost use Rattle.sg_entries.specs.Inside.Reads.{read, Leads, Ends, OutlineEnds};

use crate::answer::answer;
use crate::call::{bracketed, count_bracketed};
use crate::line::Line;
use crate::pieces::{byte, fixed, name, number};
use crate::shown::shows_named;
use crate::syntax::EntrySyntax;
use crate::tree::{EntryOutline, WrittenAnswer, WrittenEntry};
use sg_facts::{Interface, Shape};
use sg_lex::Spelled;
use std::alloc::Global;

/// The entry whose line this is, without a line's end. What it spells is lent from the line. Its answer has bytes where a function of its
/// name shows them: by the function that the interface declares, or where it declares none, by those of these shapes.
///
/// `Syntax` where the bytes before the place begin an entry's line and those with the byte at it don't; or, at the line's
/// length, where the line begins an entry's line and is none. `NoMemory` where there was no memory for the entry; nothing
/// else is told then.
#[tactic(auto, using(crate::proofs::OneAnswer::may, crate::proofs::OneAnswer::only))]
pub fn parse_entry<'a>(
    alloc: Global,
    iface: &Interface,
    shapes: &[Shape],
    line: &'a [u8],
) -> Result<WrittenEntry<'a>, EntrySyntax>
    ensures answer { EntryParses (shows_named (map facts_of shapes.now) iface.now) line.now result }
    // No other answer may be given, out of memory aside.
    ensures only { (other : Answered Entry Fault) → EntryParses (shows_named (map facts_of shapes.now) iface.now) line.now other → other ≢ failed EntrySyntax.NoMemory →
        (result ≡ other) ⊎ (result ≡ failed EntrySyntax.NoMemory) }
{
    entry_in(alloc, iface, shapes, line)
}

/// The outline of the entry whose line this is, without a line's end. No argument is kept, however many there are. What it spells is
/// lent from the line. Interface and shapes are as for `parse_entry`.
///
/// `Syntax` at the place at which `parse_entry` has it. `NoMemory` where there was no memory for the words of the answer; nothing
/// else is told then.
#[tactic(auto, using(crate::proofs::OneAnswer::may_outline))]
pub fn parse_outline<'a>(
    alloc: Global,
    iface: &Interface,
    shapes: &[Shape],
    line: &'a [u8],
) -> Result<EntryOutline<'a>, EntrySyntax>
    ensures answer { OutlineParses (shows_named (map facts_of shapes.now) iface.now) line.now result }
    // No other answer may be given, out of memory aside.
    ensures only { (other : Answered Outline Fault) → OutlineParses (shows_named (map facts_of shapes.now) iface.now) line.now other → other ≢ failed EntrySyntax.NoMemory →
        (result ≡ other) ⊎ (result ≡ failed EntrySyntax.NoMemory) }
{
    outline_in(alloc, iface, shapes, line)
}

// The entry that is read, or why there is none.
fn entry_in<'a>(
    alloc: Global,
    iface: &Interface,
    shapes: &[Shape],
    text: &'a [u8],
) -> Result<WrittenEntry<'a>, EntrySyntax>
    ensures ends { Ends (read (entry_start (shows_named (map facts_of shapes.now) iface.now)) (record { at = 0; rest = text.now })) result (λ e. e) }
{
    let mut line = Line::new(text);
    let front = front(&mut line, iface, shapes)?;
    let args = bracketed(&mut line, alloc)?;
    let answer = answer_after(&mut line, alloc, front.shown)?;
    Ok(WrittenEntry {
        client: front.client,
        seq: front.seq,
        name: front.name,
        args,
        answer,
    })
}

// The outline of the entry that is read, or why there is none.
fn outline_in<'a>(
    alloc: Global,
    iface: &Interface,
    shapes: &[Shape],
    text: &'a [u8],
) -> Result<EntryOutline<'a>, EntrySyntax>
    ensures ends { OutlineEnds (read (entry_start (shows_named (map facts_of shapes.now) iface.now)) (record { at = 0; rest = text.now })) result }
{
    let mut line = Line::new(text);
    let front = front(&mut line, iface, shapes)?;
    let args = count_bracketed(&mut line)?;
    answer_after(&mut line, alloc, front.shown)?;
    Ok(EntryOutline {
        client: front.client,
        seq: front.seq,
        name: front.name,
        args,
    })
}

// What an entry has before its arguments, and whether an Ok of its function shows its bytes.
#[derive(Drop)]
struct EntryFront<'a> {
    client: Spelled<'a>,
    seq: Spelled<'a>,
    name: Spelled<'a>,
    shown: bool,
}

// What an entry has before its arguments, and the bracket that opens these.
fn front<'a>(
    line: &mut Line<'a>,
    iface: &Interface,
    shapes: &[Shape],
) -> Result<EntryFront<'a>, EntrySyntax>
    ensures leads { let shows = shows_named (map facts_of shapes.now) iface.now in
        Leads (read (entry_start shows) line.old) result (λ f. bracketed (call_answer shows f.client f.seq f.name)) line.new }
    ensures shown { IfOk result (λ f. f.shown ≡ shows_named (map facts_of shapes.now) iface.now f.name.bytes) }
{
    byte(line, b'c')?;
    let client = number(line)?;
    byte(line, b'.')?;
    let seq = number(line)?;
    byte(line, b' ')?;
    let name = name(line)?;
    byte(line, b'(')?;
    let shown = shows_named(iface, shapes, name.slice);
    Ok(EntryFront {
        client,
        seq,
        name,
        shown,
    })
}

// What a call of a function that shows its bytes, or doesn't, was answered, after the arguments, up to the end of the line.
fn answer_after<'a>(
    line: &mut Line<'a>,
    alloc: Global,
    shown: bool,
) -> Result<WrittenAnswer<'a>, EntrySyntax>
    ensures ends { (k : Answer → Entry) → Ends (read (bytes (codes " = ") (answered shown k)) line.old) result k }
{
    fixed(line, b" = ")?;
    answer(line, alloc, shown)
}
