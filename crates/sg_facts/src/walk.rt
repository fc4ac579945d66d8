// A list of function numbers that rebuilds a descriptor.
ghost use Rattle.std.specs.Prelude.{◌≡◌, ◌↔◌, ◌<◌, ◌≤◌, [], ◌∷◌, ◌++◌, length, IsTrue, IsOk, IfSome, IfNone, slice_get};
ghost use Rattle.std.specs.Option.{option_copied};

use sg_base::NoMemory;
use std::marker::Model;

/// The functions whose calls rebuild a descriptor, in their order: a creation and then recover steps. There are at most 8.
/// It takes no memory. Contracts see the list of the function numbers.
#[derive(Clone, Copy, Debug, PartialEq, Eq, Drop)]
pub struct Walk {
    funs: [u8; 8],
    len: usize,
}

impl Model for Walk {
    ghost use Rattle.std.specs.Prelude.{List, ℕ, ◌≤◌, ◌≡◌, ◌-◌, length, take, drop, replicate};

    ghost Value = { List ℕ };

    ghost use Rattle.sg_facts.specs.WalkArray.{back, given_back};

    ghost view = { λ w. take w.len w.funs };

    ghost invariant = { λ w. (w.len ≤ 8) × (length w.funs ≡ 8) × (drop w.len w.funs ≡ replicate (8 - w.len) 0) };

    ghost inverse = { back };

    ghost inverse_ok = { λ w h. given_back w h.0 h.1 h.2 };
}

impl Walk {
    /// The greatest number of calls of a walk.
    pub const MOST: usize = 8;

    /// No call.
    pub fn new() -> Walk
        ensures { result ≡ [] }
    {
        Walk {
            funs: [0; 8],
            len: 0,
        }
    }

    /// Adds a function at the end. It never fails: there is room for 8.
    pub fn push(&mut self, fun: u8) -> Result<(), NoMemory>
        requires { length self.old < 8 }
        ensures ok { IsOk result }
        ensures added { self.new ≡ self.old ++ fun ∷ [] }
    {
        self.funs[self.len] = fun;
        self.len += 1;
        Ok(())
    }

    /// Takes the last function away; None exactly where there is none.
    pub fn pop(&mut self) -> Option<u8>
        ensures some { IfSome result (λ last. self.old ≡ self.new ++ last ∷ []) }
        ensures none { (result ≡ None) ↔ (self.old ≡ []) }
        ensures empty { IfNone result (self.new ≡ []) }
    {
        if self.len == 0 {
            return None;
        }
        self.len -= 1;
        let last = self.funs[self.len];
        self.funs[self.len] = 0;
        Some(last)
    }

    /// The number of functions.
    pub fn len(&self) -> usize
        ensures { result ≡ length self.now }
    {
        self.len
    }

    /// Whether there is no function.
    pub fn is_empty(&self) -> bool
        ensures { IsTrue result ↔ (self.now ≡ []) }
    {
        self.len == 0
    }

    /// The function at a place, counted from 0; None exactly where `at` isn't below the length.
    pub fn get(&self, at: usize) -> Option<&u8>
        ensures { option_copied result ≡ slice_get self.now at }
    {
        self.as_slice().get(at)
    }

    /// The functions, lent. There are at most 8.
    pub fn as_slice(&self) -> &[u8]
        ensures value { result.now ≡ self.now }
        ensures most { length self.now ≤ 8 }
    {
        &self.funs[..self.len]
    }
}
