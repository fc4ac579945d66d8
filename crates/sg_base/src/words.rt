// The words of a reply.
ghost use Rattle.std.specs.Prelude.{◌≡◌, ◌↔◌, ◌≤◌, [], ◌∷◌, ◌++◌, length, IsTrue, IsOk, IfOk, OnOk, OnErr, slice_get};
ghost use Rattle.std.specs.Option.{option_copied};
ghost use Rattle.sg_base.specs.Few.{few_in, most_few};
ghost use Rattle.sg_base.specs.Inside.Kept.{words_of};

use crate::few::FewWords;
use crate::{NoMemory, TryCopy};
use std::alloc::Global;
use std::marker::Model;

/// Words, in order. One or two stand in the list itself; only more take a block of memory. Contracts see the list of them.
#[derive(Debug, Drop)]
pub struct Words {
    kept: KeptWords,
    alloc: Global,
}

// Where the words stand.
#[derive(Debug, Drop)]
pub(crate) enum KeptWords {
    Few(FewWords),
    Many(Vec<u64>),
}

impl Model for Words {
    ghost use Rattle.std.specs.Prelude.{List, ℕ};
    ghost use Rattle.sg_base.specs.Inside.Kept.{words_of};

    ghost Value = { List ℕ };

    ghost view = { λ w. words_of w.kept };
}

impl Words {
    /// No word. It takes no memory.
    pub fn new(alloc: Global) -> Words
        ensures { result ≡ [] }
    {
        Words::of_few(alloc, FewWords::Empty)
    }

    /// A few words. They take no memory.
    pub(crate) fn of_few(alloc: Global, few: FewWords) -> Words
        ensures { result ≡ few_in few }
    {
        Words {
            kept: KeptWords::Few(few),
            alloc,
        }
    }

    /// What a vector has. It takes no memory.
    pub fn from_vec(words: Vec<u64>) -> Words
        ensures { result ≡ words.items }
    {
        Words {
            alloc: *words.allocator(),
            kept: KeptWords::Many(words),
        }
    }

    /// These words. One or two of them take no memory.
    pub fn from_slice(alloc: Global, words: &[u64]) -> Result<Words, NoMemory>
        ensures words { IfOk result (λ list. list ≡ words.now) }
        ensures few { length words.now ≤ most_few → IsOk result }
    {
        match FewWords::of(words) {
            Some(few) => Ok(Words::of_few(alloc, few)),
            None => Ok(Words::from_vec(Vec::from_slice(alloc, words)?)),
        }
    }

    /// Adds a word at the end. After `NoMemory` the list is as before.
    pub fn push(&mut self, word: u64) -> Result<(), NoMemory>
        ensures ok { OnOk result (self.new ≡ self.old ++ word ∷ []) }
        ensures err { OnErr result (self.new ≡ self.old) }
    {
        match &mut self.kept {
            KeptWords::Few(few) => self.kept = pushed(self.alloc, few, word)?,
            KeptWords::Many(words) => words.push(word)?,
        }
        Ok(())
    }

    /// The number of words.
    pub fn len(&self) -> usize
        ensures { result ≡ length self.now }
    {
        self.as_slice().len()
    }

    /// Whether there is no word.
    pub fn is_empty(&self) -> bool
        ensures { IsTrue result ↔ (self.now ≡ []) }
    {
        self.as_slice().is_empty()
    }

    /// The word at a place, counted from 0; None exactly where `at` isn't below the length.
    pub fn get(&self, at: usize) -> Option<&u64>
        ensures { option_copied result ≡ slice_get self.now at }
    {
        self.as_slice().get(at)
    }

    /// The words, lent.
    pub fn as_slice(&self) -> &[u64]
        ensures { result.now ≡ self.now }
    {
        match &self.kept {
            KeptWords::Few(few) => few.as_slice(),
            KeptWords::Many(words) => words.as_slice(),
        }
    }
}

impl TryCopy for Words {
    fn copy(&self, alloc: Global) -> Result<Self, NoMemory> {
        Words::from_slice(alloc, self.as_slice())
    }
}

impl PartialEq for Words {
    ghost use Rattle.std.specs.Prelude.{nat_eq};
    ghost use Rattle.std.specs.Cmp.{partial_equiv_from_equiv};
    ghost use Rattle.std.specs.Cmp.Lexicographic.{pointwise, nat_list_eq_equiv};

    ghost eq = { pointwise nat_eq };

    ghost laws = { partial_equiv_from_equiv nat_list_eq_equiv };

    fn eq(&self, other: &Self) -> bool {
        self.as_slice() == other.as_slice()
    }
}

impl Eq for Words {
    ghost use Rattle.std.specs.Cmp.Lexicographic.{nat_list_eq_equiv};

    ghost laws = { nat_list_eq_equiv };
}

// A few words and one more.
fn pushed(alloc: Global, few: &FewWords, word: u64) -> Result<KeptWords, NoMemory>
    ensures { IfOk result (λ kept. words_of kept ≡ few_in few.now ++ word ∷ []) }
{
    if let Some(more) = few.with(word) {
        return Ok(KeptWords::Few(more));
    }
    let mut words = Vec::from_slice(alloc, few.as_slice())?;
    words.push(word)?;
    Ok(KeptWords::Many(words))
}
