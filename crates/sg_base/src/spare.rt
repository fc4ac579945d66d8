// Room that is kept from one list to the next.
ghost use Rattle.std.specs.Prelude.{◌≡◌, ◌≤◌, [], length, vec_capacity, OnOk};
ghost use Rattle.sg_base.specs.Few.{most_few};

use crate::few::FewWords;
use crate::reply::{MOST_BYTES, MOST_REPLY_WORDS};
use crate::room::filled;
use crate::{Good, ListOf, NoMemory, Reply, Words};
use std::alloc::Global;
use std::marker::Model;
use std::mem;

/// Room for one list after another: an empty list takes none of it, and any other uses it up. Contracts see the number of elements
/// that it has room for.
#[derive(Debug, Drop)]
pub struct SpareList<E> {
    items: Vec<E>,
}

impl<E> Model for SpareList<E> {
    ghost use Rattle.std.specs.Prelude.{ℕ, ◌≡◌, [], vec_capacity};

    ghost Value = { ℕ };

    ghost view = { λ s. vec_capacity s.items };

    ghost invariant = { λ s. s.items.items ≡ [] };
}

impl<E: Copy> SpareList<E> {
    /// No room yet. It takes no memory.
    pub fn new(alloc: Global) -> Self
        ensures { result ≡ 0 }
    {
        SpareList {
            items: Vec::new(alloc),
        }
    }

    /// Takes the memory for a list of `most` elements, where it isn't there. Room is never lost, whatever the answer.
    pub fn reserve(&mut self, alloc: Global, most: usize) -> Result<(), NoMemory>
        ensures ok { OnOk result (most ≤ self.new) }
        ensures room { self.old ≤ self.new }
    {
        if self.items.capacity() < most {
            self.items = Vec::with_capacity(alloc, most)?;
        }
        Ok(())
    }

    /// The room itself; none is left then.
    pub fn take(&mut self) -> Vec<E>
        ensures empty { result.items ≡ [] }
        ensures room { vec_capacity result ≡ self.old }
        ensures left { self.new ≡ 0 }
    {
        let none = Vec::new(*self.items.allocator());
        mem::replace(&mut self.items, none)
    }

    /// A list of these elements, without memory. It keeps no room that it doesn't need.
    pub fn fill(&mut self, from: &[E]) -> ListOf<E>
        requires { length from.now ≤ self.old }
        ensures list { result ≡ from.now }
        ensures kept { from.now ≡ [] → self.new ≡ self.old }
    {
        if from.is_empty() {
            return ListOf::new(*self.items.allocator());
        }
        ListOf::from_vec(filled(self.take(), from))
    }
}

impl SpareList<u64> {
    /// These words, without memory. A few of them take none of the room.
    pub fn fill_words(&mut self, from: &[u64]) -> Words
        requires { length from.now ≤ self.old }
        ensures words { result ≡ from.now }
        ensures kept { length from.now ≤ most_few → self.new ≡ self.old }
    {
        match FewWords::of(from) {
            Some(few) => Words::of_few(*self.items.allocator(), few),
            None => Words::from_vec(filled(self.take(), from)),
        }
    }
}

/// Room for one reply after another, of at most 4 words and 256 bytes each. Words or bytes, where a reply has any, use up their part of
/// it.
#[derive(Debug, Drop)]
pub struct SpareReply {
    pub words: SpareList<u64>,
    pub bytes: SpareList<u8>,
}

impl SpareReply {
    ghost use Rattle.sg_base.specs.Reply.{FitsReplyRoom};
    ghost use Rattle.sg_base.specs.Spare.{HasReplyRoom, TakesNoRoom};

    /// No room yet. It takes no memory.
    pub fn new(alloc: Global) -> SpareReply
        ensures words { result.words ≡ 0 }
        ensures bytes { result.bytes ≡ 0 }
    {
        SpareReply {
            words: SpareList::new(alloc),
            bytes: SpareList::new(alloc),
        }
    }

    /// Takes the memory for one reply, where it isn't there. Room is never lost, whatever the answer.
    pub fn reserve(&mut self, alloc: Global) -> Result<(), NoMemory>
        ensures ok { OnOk result (HasReplyRoom self.new) }
        ensures words { self.old.words ≤ self.new.words }
        ensures bytes { self.old.bytes ≤ self.new.bytes }
    {
        self.words.reserve(alloc, MOST_REPLY_WORDS)?;
        self.bytes.reserve(alloc, MOST_BYTES)?;
        Ok(())
    }

    /// An equal reply, without memory.
    pub fn fill(&mut self, from: &Reply) -> Reply
        requires room { HasReplyRoom self.old }
        requires fits { FitsReplyRoom from.now }
        ensures reply { result ≡ from.now }
        ensures kept { TakesNoRoom from.now → HasReplyRoom self.new }
    {
        match from {
            Reply::Ok(good) => Reply::Ok(Good {
                desc: good.desc,
                words: self.words.fill_words(good.words.as_slice()),
                bytes: self.bytes.fill(good.bytes.as_slice()),
            }),
            Reply::Refused(code) => Reply::Refused(*code),
        }
    }
}
