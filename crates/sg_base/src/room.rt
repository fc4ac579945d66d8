// Lists whose memory is taken ahead, so that what follows needs none.
ghost use Rattle.std.specs.Prelude.{◌≡◌, ◌↔◌, ◌+◌, ◌<◌, ◌≤◌, [], ◌∷◌, ◌++◌, length, IsTrue, IsOk, IfOk, IfSome, IfNone, OnOk, OnSome, slice_get, vec_capacity};
ghost use Rattle.std.specs.Option.{option_copied};

use crate::{ListOf, NoMemory, TryCopy, Words};
use std::alloc::Global;
use std::marker::Model;

/// Room for one list, which is used up when the list is made. Contracts see the number of elements that it has
/// room for.
#[derive(Debug, Drop)]
pub struct ListRoom<E> {
    items: Vec<E>,
}

impl<E> Model for ListRoom<E> {
    ghost use Rattle.std.specs.Prelude.{ℕ, ◌≡◌, [], vec_capacity};

    ghost Value = { ℕ };

    ghost view = { λ r. vec_capacity r.items };

    ghost invariant = { λ r. r.items.items ≡ [] };
}

impl<E: Copy> ListRoom<E> {
    /// Room for at least `most` elements.
    pub fn new(alloc: Global, most: usize) -> Result<Self, NoMemory>
        ensures { IfOk result (λ room. most ≤ room) }
    {
        Ok(ListRoom {
            items: Vec::with_capacity(alloc, most)?,
        })
    }

    /// A list of these elements, without memory. It keeps no room that it doesn't need.
    pub fn fill(self, from: &[E]) -> ListOf<E>
        requires { length from.now ≤ self }
        ensures { result ≡ from.now }
    {
        ListOf::from_vec(filled(self.items, from))
    }
}

impl ListRoom<u64> {
    /// These words, without memory. They keep no room that they don't need.
    pub fn fill_words(self, from: &[u64]) -> Words
        requires { length from.now ≤ self }
        ensures { result ≡ from.now }
    {
        Words::from_vec(filled(self.items, from))
    }
}

/// A list that can take memory ahead for the elements that are still to come. Contracts see its elements as
/// `items`, and as `room` the number of elements that it can take without memory.
#[derive(Debug, Drop)]
pub struct RoomyList<E> {
    items: Vec<E>,
}

impl<E> Model for RoomyList<E> {
    ghost use Rattle.std.specs.Prelude.{◌-◌, vec_capacity, vec_len};
    ghost use Rattle.sg_base.specs.Room.{Roomy};

    ghost Value = { Roomy E };

    ghost view = { λ l. record { items = l.items.items; room = vec_capacity l.items - vec_len l.items } };
}

impl<E> RoomyList<E> {
    /// The empty list. It takes no memory.
    pub fn new(alloc: Global) -> Self
        ensures { result.items ≡ [] }
    {
        RoomyList {
            items: Vec::new(alloc),
        }
    }

    /// Takes the memory for `more` elements. The elements stay and room is never lost, whatever the answer.
    pub fn reserve(&mut self, more: usize) -> Result<(), NoMemory>
        ensures ok { OnOk result (more ≤ self.new.room) }
        ensures items { self.new.items ≡ self.old.items }
        ensures room { self.old.room ≤ self.new.room }
        ensures succeeds { more ≤ self.old.room → IsOk result }
    {
        self.items.reserve(more)?;
        Ok(())
    }

    /// Adds an element at the end, into the room that there is.
    pub fn add(&mut self, item: E)
        requires { 0 < self.old.room }
        ensures items { self.new.items ≡ self.old.items ++ item ∷ [] }
        ensures room { self.old.room ≤ self.new.room + 1 }
    {
        self.items.push_reserved(item);
    }

    /// Takes the last element away and leaves its room; None exactly where there is none.
    pub fn pop(&mut self) -> Option<E>
        ensures some { IfSome result (λ last. self.old.items ≡ self.new.items ++ last ∷ []) }
        ensures none { (result ≡ None) ↔ (self.old.items ≡ []) }
        ensures empty { IfNone result (self.new.items ≡ []) }
        ensures room { self.old.room ≤ self.new.room }
        ensures freed { OnSome result (self.old.room + 1 ≤ self.new.room) }
    {
        self.items.pop()
    }

    /// The number of elements.
    pub fn len(&self) -> usize
        ensures { result ≡ length self.now.items }
    {
        self.items.len()
    }

    /// Whether there is no element.
    pub fn is_empty(&self) -> bool
        ensures { IsTrue result ↔ (self.now.items ≡ []) }
    {
        self.items.is_empty()
    }

    /// The element at a place, counted from 0; None exactly where `at` isn't below the length.
    pub fn get(&self, at: usize) -> Option<&E>
        ensures { option_copied result ≡ slice_get self.now.items at }
    {
        self.items.get(at)
    }

    /// The elements, lent.
    pub fn as_slice(&self) -> &[E]
        ensures { result.now ≡ self.now.items }
    {
        self.items.as_slice()
    }
}

impl<E: TryCopy + Drop> RoomyList<E> {
    /// A list of equal elements; its room is its own.
    pub fn copied(&self, alloc: Global) -> Result<Self, NoMemory>
        ensures { IfOk result (λ copy. copy.items ≡ self.now.items) }
    {
        let mut items = Vec::with_capacity(alloc, self.items.len())?;
        for item in &self.items {
            items.push(item.copy(alloc)?)?;
        }
        Ok(RoomyList { items })
    }
}

/// The elements in a vector that has the room for them, and gives back what they don't need.
pub(crate) fn filled<E: Copy>(mut items: Vec<E>, from: &[E]) -> Vec<E>
    requires empty { items.items ≡ [] }
    requires room { length from.now ≤ vec_capacity items }
    ensures { result.items ≡ from.now }
{
    match items.extend_from_slice(from) {
        Ok(()) => {
            items.shrink_to_fit();
            items
        }
        Err(_) => unreachable!(),
    }
}
