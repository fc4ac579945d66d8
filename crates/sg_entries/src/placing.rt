// What a line stands for, with places in its text.
ghost use Rattle.std.specs.Prelude.{◌≡◌, ◌+◌, ◌<◌, ◌^◌, length, map, ℕ, Bool, List, Ok};
ghost use Rattle.sg_facts.specs.Facts.{facts_of};
ghost use Rattle.sg_entries.specs.Entry.{shows_named};
ghost use Rattle.sg_entries.specs.Flaws.{entry_flaws};
ghost use Rattle.sg_entries.specs.Inside.Flaws.{in_line};
ghost use Rattle.sg_entries.specs.Inside.Making.{IsMade};
ghost use Rattle.sg_entries.specs.Inside.Outlines.{outline_flaws};
ghost use Rattle.sg_entries.specs.Inside.Parsing.{IsOutlined, IsParsed};
ghost use Rattle.sg_entries.specs.Standing.{entry_of};
ghost use Rattle.sg_entries.specs.Parses.{EntryParses, OutlineParses};

use crate::making::entry_of;
use crate::outline::check_outline;
use crate::{
    EntriesError, EntriesKind, EntryOutline, EntrySyntax, Spelled, WrittenEntry, parse_entry,
    parse_outline,
};
use sg_facts::{Entry, Interface, Shape};
use std::alloc::Global;

/// The entry of a line as it is written, or where the line fails.
pub fn written_in<'a>(
    alloc: Global,
    iface: &Interface,
    shapes: &[Shape],
    line: &Spelled<'a>,
) -> Result<WrittenEntry<'a>, EntriesError>
    requires { line.now.at + length line.now.bytes < 2 ^ 64 }
    ensures { IsParsed (shows_named (map facts_of shapes.now) iface.now) line.now result }
{
    match parse_entry(alloc, iface, shapes, line.slice) {
        Ok(written) => Ok(written),
        Err(EntrySyntax::NoMemory) => Err(EntriesError::NoMemory),
        Err(EntrySyntax::Syntax { at }) => Err(fault_in(line, EntriesKind::Syntax, at)),
    }
}

/// The outline of a line's entry, or where the line fails.
pub fn outline_in<'a>(
    alloc: Global,
    iface: &Interface,
    shapes: &[Shape],
    line: &Spelled<'a>,
) -> Result<EntryOutline<'a>, EntriesError>
    requires { line.now.at + length line.now.bytes < 2 ^ 64 }
    ensures { IsOutlined (shows_named (map facts_of shapes.now) iface.now) line.now result }
{
    match parse_outline(alloc, iface, shapes, line.slice) {
        Ok(outline) => Ok(outline),
        Err(EntrySyntax::NoMemory) => Err(EntriesError::NoMemory),
        Err(EntrySyntax::Syntax { at }) => Err(fault_in(line, EntriesKind::Syntax, at)),
    }
}

/// Looks whether a line's entry is right as far as its outline tells, and tells what first isn't, with its place in the text of its line.
pub fn check_outline_in(
    iface: &Interface,
    line: &Spelled,
    outline: &EntryOutline,
) -> Result<(), EntriesError>
    requires within { line.now.at + length line.now.bytes < 2 ^ 64 }
    requires parsed { (shows : List ℕ → Bool) × OutlineParses shows line.now.bytes (Ok outline.now) }
    ensures { IsMade (map (in_line line.now) (outline_flaws iface.now outline.now)) tt result }
{
    match check_outline(iface, outline) {
        Ok(()) => Ok(()),
        Err(EntriesError::NoMemory) => Err(EntriesError::NoMemory),
        Err(EntriesError::Fault { kind, at }) => Err(fault_in(line, kind, at)),
    }
}

/// What an entry of this number stands for, or what is first wrong with it, with its place in the text of its line.
pub fn entry_in(
    alloc: Global,
    iface: &Interface,
    nth: u64,
    line: &Spelled,
    written: &WrittenEntry,
) -> Result<Entry, EntriesError>
    requires within { line.now.at + length line.now.bytes < 2 ^ 64 }
    requires parsed { (shows : List ℕ → Bool) × EntryParses shows line.now.bytes (Ok written.now) }
    ensures { IsMade (map (in_line line.now) (entry_flaws iface.now nth written.now)) (entry_of iface.now written.now) result }
{
    match entry_of(alloc, iface, nth, written) {
        Ok(entry) => Ok(entry),
        Err(EntriesError::NoMemory) => Err(EntriesError::NoMemory),
        Err(EntriesError::Fault { kind, at }) => Err(fault_in(line, kind, at)),
    }
}

// A fault in a line, by its place in the text of the line.
fn fault_in(line: &Spelled, kind: EntriesKind, at: usize) -> EntriesError
    requires { line.now.at + at < 2 ^ 64 }
    ensures { result ≡ EntriesError.Fault kind (line.now.at + at) }
{
    let at = line.at + at;
    EntriesError::Fault { kind, at }
}
