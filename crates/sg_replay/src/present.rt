// The files that are present in this boot.
ghost use Rattle.std.specs.Prelude.{◌≡◌, ◌||◌, ℕ, List, false, true, Some, IsSome, OnErr, OnOk, if◌then◌else◌};
ghost use Rattle.std.specs.Option.{is_some};
ghost use Rattle.std.specs.Str.{bytes_eq};
ghost use Rattle.sg_replay.specs.Present.{HasMark, is_present, mark_at, marks_of};

use sg_facts::{NoMemory, Path};
use std::alloc::Global;
use std::collections::BTreeMap;
use std::marker::Model;

/// Which files are present in this boot: those that were loaded, or written, in it. Contracts see a mark for each path.
#[derive(Debug, Drop)]
pub(crate) struct Present {
    marks: MarkMap,
}

impl Model for Present {
    ghost use Rattle.sg_replay.specs.Present.{Marks, marks_of};

    ghost Value = { Marks };

    ghost view = { λ p. marks_of p.marks.entries };
}

impl Present {
    /// No file. It takes no memory.
    pub(crate) fn new(alloc: Global) -> Present
        ensures { (key : List ℕ) → is_present result key ≡ false }
    {
        Present {
            marks: BTreeMap::new(alloc),
        }
    }

    /// Whether a file is present.
    pub(crate) fn has(&self, key: &Path) -> bool
        ensures { result ≡ is_present self.now key.now }
    {
        is_marked(&self.marks, key.as_slice())
    }

    /// Takes the memory for a file to become present. Which files are present stays, whatever the answer.
    pub(crate) fn prepare(&mut self, alloc: Global, key: &Path) -> Result<(), NoMemory>
        ensures present { (k : List ℕ) → is_present self.new k ≡ is_present self.old k }
        ensures marks { (k : List ℕ) → HasMark self.old k → HasMark self.new k }
        ensures ok { OnOk result (HasMark self.new key.now) }
    {
        if !has_mark(&self.marks, key.as_slice()) {
            add_mark(&mut self.marks, alloc, key.as_slice())?;
        }
        Ok(())
    }

    /// Makes a file present, for which memory was taken. It takes none.
    pub(crate) fn mark(&mut self, key: &Path)
        requires { HasMark self.old key.now }
        ensures present { (k : List ℕ) → is_present self.new k ≡ (bytes_eq k key.now || is_present self.old k) }
        ensures marks { (k : List ℕ) → HasMark self.old k → HasMark self.new k }
    {
        set_mark(&mut self.marks, key.as_slice());
    }
}

// The marks of paths, which are looked up by their bytes, so that a look-up copies nothing.
type MarkMap = BTreeMap<Vec<u8>, bool>;

// Whether a path is marked as present; one without a mark isn't.
fn is_marked(marks: &MarkMap, key: &[u8]) -> bool
    ensures { result ≡ is_present (marks_of marks.now.entries) key.now }
{
    marks.get(key).copied().unwrap_or(false)
}

// Whether a path has a mark.
fn has_mark(marks: &MarkMap, key: &[u8]) -> bool
    ensures { result ≡ is_some (mark_at (marks_of marks.now.entries) key.now) }
{
    marks.get(key).is_some()
}

// Gives a path a mark as not present, in the place of its last one where it has one. After `NoMemory` all marks are as before.
fn add_mark(marks: &mut MarkMap, alloc: Global, key: &[u8]) -> Result<(), NoMemory>
    ensures ok { OnOk result ((k : List ℕ) → mark_at (marks_of marks.new.entries) k ≡ (if bytes_eq k key.now then Some (key.now, false) else mark_at (marks_of marks.old.entries) k)) }
    ensures err { OnErr result (marks_of marks.new.entries ≡ marks_of marks.old.entries) }
{
    marks.insert(Vec::from_slice(alloc, key)?, false)?;
    Ok(())
}

// Marks a path that has a mark as present. It takes no memory.
fn set_mark(marks: &mut MarkMap, key: &[u8])
    requires { HasMark (marks_of marks.old.entries) key.now }
    ensures { (k : List ℕ) → mark_at (marks_of marks.new.entries) k ≡ (if bytes_eq k key.now then Some (key.now, true) else mark_at (marks_of marks.old.entries) k) }
{
    match marks.get_mut(key) {
        Some(mark) => *mark = true,
        None => unreachable!(),
    }
}
