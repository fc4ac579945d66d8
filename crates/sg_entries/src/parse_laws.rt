// Laws of entries' lines and of what a parser has to answer.
ghost use Rattle.std.specs.Prelude.{◌≡◌, ◌≢◌, ℕ, Bool, List, Err as failed};
ghost use Rattle.std.specs.declared.result.Result.{Result};
ghost use Rattle.sg_entries.specs.declared.syntax.EntrySyntax.{EntrySyntax};
ghost use Rattle.sg_entries.specs.declared.syntax.EntrySyntax.TheVariants.{NoMemory as no_memory};
ghost use Rattle.sg_entries.specs.declared.tree.WrittenEntry.{WrittenEntry};
ghost use Rattle.sg_entries.specs.Entry.{IsEntry};
ghost use Rattle.sg_entries.specs.Parses.{EntryParses};

/// A line is that of one entry.
pub fn one_tree()
    ensures { (shows : List ℕ → Bool) (line : List ℕ) (one other : WrittenEntry) → IsEntry shows line one → IsEntry shows line other → one ≡ other }
{}

/// A line has just one answer, out of memory aside: its entry, or the one error at the one place.
pub fn one_answer()
    ensures some { (shows : List ℕ → Bool) (line : List ℕ) → (answer : Result WrittenEntry EntrySyntax) × EntryParses shows line answer × (answer ≢ failed no_memory) }
    ensures alone { (shows : List ℕ → Bool) (line : List ℕ) (one other : Result WrittenEntry EntrySyntax) → EntryParses shows line one → EntryParses shows line other →
        one ≢ failed no_memory → other ≢ failed no_memory → one ≡ other }
{}
