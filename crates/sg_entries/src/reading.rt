// The entries of a printed run.
ghost use Rattle.std.specs.Prelude.{◌≡◌, ◌≢◌, ◌≤◌, ◌⊎◌, List, IfOk, length, map, Err as failed};
ghost use Rattle.std.specs.declared.result.Result.{Result as Answered};
ghost use Rattle.sg_facts.specs.Facts.{facts_of};
ghost use Rattle.sg_facts.specs.Limits.{most_script_calls};
ghost use Rattle.sg_facts.specs.declared.entry.Entry.{Entry as IsEntry};
ghost use Rattle.sg_facts.specs.sg_base.Lists.{Each};
ghost use Rattle.sg_report.specs.sg_hist.Clients.{MayBeMade};
ghost use Rattle.sg_entries.specs.declared.error.EntriesError.{EntriesError as Fault};
ghost use Rattle.sg_entries.specs.Entry.{shows_named};
ghost use Rattle.sg_entries.specs.Inside.Parsing.{HasEntries, IsChecked};
ghost use Rattle.sg_entries.specs.Printed.{PrintsHistory};
ghost use Rattle.sg_entries.specs.Reads.{IsReadOf, entries_read};

use crate::EntriesError;
use crate::lines::EntryLines;
use crate::placing::{check_outline_in, entry_in, outline_in, written_in};
use sg_facts::{Interface, Shape};
use sg_report::History;
use std::alloc::Global;

/// The history that is printed in a text, for an interface. What stands before its entry lines and after them is passed over. An Ok has
/// bytes where its function shows them: the one that the interface declares, or where it declares none of its name, one of these shapes.
///
/// `Fault` with the first that is wrong: with kind `Syntax` where an entry line isn't the line of an entry, and else with the flaw at the
/// first place, and of the first kind at that place. `NoMemory` where there was no memory; nothing else is told then.
#[tactic(auto, using(crate::proofs::Unique::only))]
pub fn read_entries(
    alloc: Global,
    text: &[u8],
    iface: &Interface,
    shapes: &[Shape],
) -> Result<History, EntriesError>
    ensures reads { IsReadOf (shows_named (map facts_of shapes.now) iface.now) iface.now text.now (entries_read result) }
    // No other answer may be given, want of memory aside.
    ensures only { (other : Answered (List IsEntry) Fault) → IsReadOf (shows_named (map facts_of shapes.now) iface.now) iface.now text.now other → other ≢ failed EntriesError.NoMemory →
        (entries_read result ≡ other) ⊎ (entries_read result ≡ failed EntriesError.NoMemory) }
    ensures printed { IfOk result (λ history. PrintsHistory iface.now text.now history.items) }
    ensures calls { IfOk result (λ history. Each (λ e. MayBeMade iface.now e.call) history.items) }
    ensures few { IfOk result (λ history. length history.items ≤ most_script_calls) }
{
    history_in(alloc, text, iface, shapes)
}

// The history that is printed in a text, or what is first wrong with it.
fn history_in(
    alloc: Global,
    text: &[u8],
    iface: &Interface,
    shapes: &[Shape],
) -> Result<History, EntriesError>
    ensures { IsReadOf (shows_named (map facts_of shapes.now) iface.now) iface.now text.now (entries_read result) }
{
    check(alloc, text, iface, shapes)?;
    history_of(alloc, text, iface, shapes)
}

// Looks whether each entry line is one of an entry.
fn check(
    alloc: Global,
    text: &[u8],
    iface: &Interface,
    shapes: &[Shape],
) -> Result<(), EntriesError>
    ensures { IsChecked (shows_named (map facts_of shapes.now) iface.now) text.now result }
{
    let mut lines = EntryLines::new(text);
    'lines: while let Some(line) = lines.next() {
        outline_in(alloc, iface, shapes, &line)?;
    }
    Ok(())
}

// The history of entry lines that are ones of entries, or the first flaw of these.
fn history_of(
    alloc: Global,
    text: &[u8],
    iface: &Interface,
    shapes: &[Shape],
) -> Result<History, EntriesError>
    requires { HasEntries (shows_named (map facts_of shapes.now) iface.now) text.now }
    ensures { IsReadOf (shows_named (map facts_of shapes.now) iface.now) iface.now text.now (entries_read result) }
{
    let mut history = History::new(alloc);
    let mut lines = EntryLines::new(text);
    'lines: while let Some(line) = lines.next() {
        let outline = outline_in(alloc, iface, shapes, &line)?;
        check_outline_in(iface, &line, &outline)?;
        let written = written_in(alloc, iface, shapes, &line)?;
        let nth = history.len() as u64 + 1;
        let entry = entry_in(alloc, iface, nth, &line, &written)?;
        history.push(entry)?;
    }
    Ok(history)
}
