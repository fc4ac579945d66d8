// Laws of what is read of a text.
ghost use Rattle.std.specs.Prelude.{◌≡◌, ◌≢◌, ℕ, Bool, List, Ok as done, Err as failed};
ghost use Rattle.std.specs.declared.result.Result.{Result};
ghost use Rattle.sg_entries.specs.Entry.{shows_named};
ghost use Rattle.sg_entries.specs.Flaws.{Flaw, flaws_from};
ghost use Rattle.sg_entries.specs.Inside.Making.{IsFirst};
ghost use Rattle.sg_entries.specs.Lines.{entry_lines_of};
ghost use Rattle.sg_entries.specs.Order.{IsNotAfter};
ghost use Rattle.sg_entries.specs.Printed.{HasNames, PrintsHistory};
ghost use Rattle.sg_entries.specs.Reads.{AreEntries, IsReadOf};
ghost use Rattle.sg_entries.specs.declared.error.EntriesError.{EntriesError};
ghost use Rattle.sg_entries.specs.declared.error.EntriesError.TheVariants.{NoMemory as no_memory};
ghost use Rattle.sg_entries.specs.declared.tree.WrittenEntry.{WrittenEntry};
ghost use Rattle.sg_facts.specs.Facts.{Facts};
ghost use Rattle.sg_facts.specs.Interface.{Declared};
ghost use Rattle.sg_facts.specs.declared.entry.Entry.{Entry};
ghost use Rattle.sg_facts.specs.sg_base.Lists.{Each};

/// A text that prints a history is read to that history, for an interface that tells its functions by their names.
pub fn printed_is_read()
    ensures { (services : List Facts) (i : Declared) (text : List ℕ) (history : List Entry) → HasNames i → PrintsHistory i text history →
        IsReadOf (shows_named services i) i text (done history) }
{}

/// A text has one answer, want of memory aside.
pub fn one_reading()
    ensures { (shows : List ℕ → Bool) (i : Declared) (text : List ℕ) (one other : Result (List Entry) EntriesError) → IsReadOf shows i text one → IsReadOf shows i text other →
        one ≢ failed no_memory → other ≢ failed no_memory → one ≡ other }
{}

/// The first in the list of flaws comes before all others: by its place, and at one place by its kind.
pub fn first_flaw_comes_first()
    ensures { (shows : List ℕ → Bool) (i : Declared) (text : List ℕ) (entries : List WrittenEntry) (f : Flaw) → AreEntries shows (entry_lines_of text) entries → IsFirst (flaws_from i 1 (entry_lines_of text) entries) f →
        Each (IsNotAfter f) (flaws_from i 1 (entry_lines_of text) entries) }
{}
