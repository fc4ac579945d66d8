// The list that every list type of the project is, or is made of.
ghost use Rattle.std.specs.Prelude.{◌≡◌, ◌↔◌, ◌+◌, ◌<◌, [], ◌∷◌, ◌++◌, length, IsTrue, IfOk, IfSome, IfNone, OnOk, OnErr, slice_get, slice_set};
ghost use Rattle.std.specs.Option.{option_copied};

use crate::{NoMemory, TryCopy};
use std::alloc::Global;
use std::marker::Model;

/// A list, in order. Contracts see the list of its elements.
#[derive(Debug, Drop)]
pub struct ListOf<E> {
    items: Vec<E>,
}

/// Bytes of any kind.
pub type Bytes = ListOf<u8>;
/// The path of a file.
pub type Path = ListOf<u8>;
/// Ids of descriptors.
pub type IdList = ListOf<u64>;
/// Numbers of points.
pub type PointList = ListOf<u64>;
/// Pairs of function numbers.
pub type PairList = ListOf<(u8, u8)>;

impl<E> Model for ListOf<E> {
    ghost use Rattle.std.specs.Prelude.{List};

    ghost Value = { List E };

    ghost view = { λ l. l.items.items };
}

impl<E> ListOf<E> {
    /// The empty list. It takes no memory.
    pub fn new(alloc: Global) -> Self
        ensures { result ≡ [] }
    {
        ListOf {
            items: Vec::new(alloc),
        }
    }

    /// Adds an element at the end. After `NoMemory` the list is as before.
    pub fn push(&mut self, item: E) -> Result<(), NoMemory>
    where
        E: Drop,
        ensures ok { OnOk result (self.new ≡ self.old ++ item ∷ []) }
        ensures err { OnErr result (self.new ≡ self.old) }
    {
        self.items.push(item)?;
        Ok(())
    }

    /// Takes the last element away; None exactly where there is none.
    pub fn pop(&mut self) -> Option<E>
        ensures some { IfSome result (λ last. self.old ≡ self.new ++ last ∷ []) }
        ensures none { (result ≡ None) ↔ (self.old ≡ []) }
        ensures empty { IfNone result (self.new ≡ []) }
    {
        self.items.pop()
    }

    /// The number of elements.
    pub fn len(&self) -> usize
        ensures { result ≡ length self.now }
    {
        self.items.len()
    }

    /// Whether there is no element.
    pub fn is_empty(&self) -> bool
        ensures { IsTrue result ↔ (self.now ≡ []) }
    {
        self.items.is_empty()
    }

    /// The element at a place, counted from 0; None exactly where `at` isn't below the length.
    pub fn get(&self, at: usize) -> Option<&E>
        ensures { option_copied result ≡ slice_get self.now at }
    {
        self.items.get(at)
    }

    /// Puts an element in the place of another, counted from 0. It takes no memory.
    pub fn set(&mut self, at: usize, item: E)
    where
        E: Drop,
        requires { at < length self.old }
        ensures { self.new ≡ slice_set self.old at item }
    {
        self.items[at] = item;
    }

    /// The elements, lent.
    pub fn as_slice(&self) -> &[E]
        ensures { result.now ≡ self.now }
    {
        self.items.as_slice()
    }
}

impl<E> ListOf<E> {
    /// A list of what a vector has. It takes no memory.
    pub fn from_vec(items: Vec<E>) -> Self
        ensures { result ≡ items.items }
    {
        ListOf { items }
    }
}

impl<E: Copy> ListOf<E> {
    /// A list of these elements.
    pub fn from_slice(alloc: Global, items: &[E]) -> Result<Self, NoMemory>
        ensures { IfOk result (λ list. list ≡ items.now) }
    {
        Ok(ListOf {
            items: Vec::from_slice(alloc, items)?,
        })
    }

    /// Adds these elements at the end. After `NoMemory` the list is as before.
    pub fn extend_from_slice(&mut self, more: &[E]) -> Result<(), NoMemory>
        ensures ok { OnOk result (self.new ≡ self.old ++ more.now) }
        ensures err { OnErr result (self.new ≡ self.old) }
    {
        self.items.extend_from_slice(more)?;
        Ok(())
    }
}

impl<E: TryCopy + Drop> TryCopy for ListOf<E> {
    fn copy(&self, alloc: Global) -> Result<Self, NoMemory> {
        let mut items = Vec::with_capacity(alloc, self.items.len())?;
        for item in &self.items {
            items.push(item.copy(alloc)?)?;
        }
        Ok(ListOf { items })
    }
}

impl<E: PartialEq> PartialEq for ListOf<E> {
    ghost use Rattle.std.specs.Cmp.Lexicographic.{pointwise, lists_per};

    ghost eq = { λ x y. pointwise E.eq x y };

    ghost laws = { lists_per E.laws };

    fn eq(&self, other: &Self) -> bool {
        self.items.as_slice() == other.items.as_slice()
    }
}

impl<E: Eq> Eq for ListOf<E> {
    ghost use Rattle.std.specs.Cmp.Lexicographic.{lists_equiv};

    ghost laws = { lists_equiv E.Eq.laws };
}
