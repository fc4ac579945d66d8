// A list of records.
ghost use Rattle.std.specs.Prelude.{◌≡◌, ◌↔◌, ◌+◌, ◌*◌, ◌<◌, ◌≤◌, [], ◌∷◌, ◌++◌, length, map, IsTrue, IsOk, IfOk, OnOk, slice_get, vec_capacity, vec_len};
ghost use Rattle.std.specs.Option.{option_map};
ghost use Rattle.sg_base.specs.Inside.Heads.{TurnFits, desc_words, extra_of, walk_words};
ghost use Rattle.sg_base.specs.Inside.Rooms.{spare_of};
ghost use Rattle.sg_base.specs.Kinds.{kind_of};
ghost use Rattle.sg_base.specs.Lent.{record_in};
ghost use Rattle.sg_base.specs.Records.{InBrief, Whole, most_args, most_reply_words, word_of};

use crate::head::Head;
use crate::reply::MOST_REPLY_WORDS;
use crate::{Args, Brief, Gave, Lent, LentArgs, NoMemory, RecordKind, TryCopy, Value, Why};
use std::alloc::Global;
use std::marker::Model;

/// The greatest number of argument words of a call in brief.
pub const MOST_ARGS: usize = 4;

/// The greatest number of words of a record in brief: those of arguments and reply, the id and the client of a walk's call, and a descriptor.
const MOST_WORDS: usize = MOST_ARGS + MOST_REPLY_WORDS + 3;

/// The greatest place in a list.
const LAST_PLACE: usize = u32::MAX as usize;

/// A list of records, most of them in brief: 40 bytes for each, and 8 for each word. Whole ones are kept as they are. Contracts see the
/// records as `items`, and as `room` the number of records that the list can take without memory.
#[derive(Debug, Drop)]
pub struct Records<W> {
    heads: Vec<Head>,
    // The words of all records in brief.
    words: Vec<u64>,
    // The records that are kept whole.
    whole: Vec<W>,
}

impl<W> Model for Records<W> {
    ghost use Rattle.std.specs.Prelude.{length, vec_capacity, vec_len};
    ghost use Rattle.sg_base.specs.Room.{Roomy};
    ghost use Rattle.sg_base.specs.Inside.Heads.{AreThere, records_of};
    ghost use Rattle.sg_base.specs.Inside.Rooms.{room_of, spare_of};
    ghost use Rattle.sg_base.specs.Records.{Record};

    ghost Value = { Roomy (Record W) };

    ghost view = { λ r. record {
      items = records_of r.words.items r.whole.items r.heads.items;
      room = room_of (spare_of (vec_len r.heads) (vec_capacity r.heads)) (spare_of (vec_len r.words) (vec_capacity r.words)) (spare_of (vec_len r.whole) (vec_capacity r.whole));
    } };

    ghost invariant = { λ r. AreThere (length r.words.items) (length r.whole.items) r.heads.items };
}

impl<W> Records<W> {
    /// The empty list. It takes no memory.
    pub fn new(alloc: Global) -> Self
        ensures { result.items ≡ [] }
    {
        Records {
            heads: Vec::new(alloc),
            words: Vec::new(alloc),
            whole: Vec::new(alloc),
        }
    }

    /// Takes the memory for `more` records of any kind. The records stay and room is never lost, whatever the answer. `NoMemory` also where
    /// a list would pass 2^32 - 1 elements.
    pub fn reserve(&mut self, more: usize) -> Result<(), NoMemory>
        ensures ok { OnOk result (more ≤ self.new.room) }
        ensures items { self.new.items ≡ self.old.items }
        ensures room { self.old.room ≤ self.new.room }
        ensures succeeds { more ≤ self.old.room → IsOk result }
    {
        reserve(&mut self.heads, more)?;
        reserve(&mut self.whole, more)?;
        reserve(&mut self.words, more.saturating_mul(MOST_WORDS))
    }

    /// Adds a call in brief at the end, into the room that there is. Of its arguments it takes the words.
    pub fn add_brief(&mut self, brief: &Brief, args: &Args, words: &[u64])
        requires room { 0 < self.old.room }
        requires args { length args.now ≤ most_args }
        requires words { length words.now ≤ most_reply_words }
        ensures items { self.new.items ≡ self.old.items ++ InBrief brief.now (map word_of args.now) words.now ∷ [] }
        ensures room { self.old.room ≤ self.new.room + 1 }
    {
        let head = Head::of(
            brief,
            self.words.as_slice().len() as u32,
            args.len() as u8,
            words.len() as u8,
        );
        push_args(&mut self.words, args);
        push_words(&mut self.words, words);
        push_extra(&mut self.words, brief);
        self.heads.push_reserved(head);
    }

    /// Adds a record at the end that is kept whole, into the room that there is.
    pub fn add_whole(&mut self, whole: W)
        requires { 0 < self.old.room }
        ensures items { self.new.items ≡ self.old.items ++ Whole whole ∷ [] }
        ensures room { self.old.room ≤ self.new.room + 1 }
    {
        let head = Head::whole(self.whole.as_slice().len() as u32);
        self.whole.push_reserved(whole);
        self.heads.push_reserved(head);
    }

    /// The number of records.
    pub fn len(&self) -> usize
        ensures { result ≡ length self.now.items }
    {
        self.heads.as_slice().len()
    }

    /// Whether there is no record.
    pub fn is_empty(&self) -> bool
        ensures { IsTrue result ↔ (self.now.items ≡ []) }
    {
        self.len() == 0
    }

    /// The record at a place, counted from 0, lent; None exactly where `at` isn't below the length.
    pub fn get(&self, at: usize) -> Option<Lent<'_, W>>
        ensures { option_map record_in result ≡ slice_get self.now.items at }
    {
        match self.heads.get(at) {
            Some(head) => Some(head.lent(self.words.as_slice(), self.whole.as_slice())),
            None => None,
        }
    }

    /// Of which kind the record at a place is, counted from 0; None exactly where `at` isn't below the length. It reads no word of it.
    pub fn kind(&self, at: usize) -> Option<RecordKind>
        ensures { result ≡ option_map kind_of (slice_get self.now.items at) }
    {
        match self.heads.get(at) {
            Some(head) => Some(head.kind(self.whole.as_slice())),
            None => None,
        }
    }
}

impl<W: TryCopy + Drop> Records<W> {
    /// A list of equal records; its room is its own.
    pub fn copied(&self, alloc: Global) -> Result<Self, NoMemory>
        ensures { IfOk result (λ copy. copy.items ≡ self.now.items) }
    {
        Ok(Records {
            heads: Vec::from_slice(alloc, self.heads.as_slice())?,
            words: Vec::from_slice(alloc, self.words.as_slice())?,
            whole: copied(alloc, self.whole.as_slice())?,
        })
    }
}

// A vector of equal elements.
fn copied<W: TryCopy + Drop>(alloc: Global, from: &[W]) -> Result<Vec<W>, NoMemory>
    ensures { IfOk result (λ copy. copy.items ≡ from.now) }
{
    let mut items = Vec::with_capacity(alloc, from.len())?;
    for item in from {
        items.push(item.copy(alloc)?)?;
    }
    Ok(items)
}

// Takes the memory for so many elements more, up to the last place.
fn reserve<E>(list: &mut Vec<E>, more: usize) -> Result<(), NoMemory>
    ensures ok { OnOk result (more ≤ spare_of (vec_len list.new) (vec_capacity list.new)) }
    ensures items { list.new.items ≡ list.old.items }
    ensures room { spare_of (vec_len list.old) (vec_capacity list.old) ≤ spare_of (vec_len list.new) (vec_capacity list.new) }
    ensures succeeds { more ≤ spare_of (vec_len list.old) (vec_capacity list.old) → IsOk result }
{
    if more > LAST_PLACE.saturating_sub(list.len()) {
        return Err(NoMemory);
    }
    list.reserve(more)?;
    Ok(())
}

// Adds the words among arguments, into the room that there is.
fn push_args(list: &mut Vec<u64>, args: &Args)
    requires { vec_len list.old + length args.now ≤ vec_capacity list.old }
    ensures items { list.new.items ≡ list.old.items ++ map word_of args.now }
    ensures len { vec_len list.new ≡ vec_len list.old + length args.now }
    ensures capacity { vec_capacity list.new ≡ vec_capacity list.old }
{
    match args.lent() {
        LentArgs::Words(words) => push_words(list, words),
        LentArgs::Values(values) => push_values(list, values),
    }
}

// Adds the words among values, into the room that there is.
fn push_values(list: &mut Vec<u64>, values: &[Value])
    requires { vec_len list.old + length values.now ≤ vec_capacity list.old }
    ensures items { list.new.items ≡ list.old.items ++ map word_of values.now }
    ensures len { vec_len list.new ≡ vec_len list.old + length values.now }
    ensures capacity { vec_capacity list.new ≡ vec_capacity list.old }
{
    for value in values {
        list.push_reserved(word_of(value));
    }
}

// The number that a value is; a text is none.
fn word_of(value: &Value) -> u64
    ensures { result ≡ word_of value.now }
{
    match value {
        Value::Word(word) => *word,
        Value::Text(_) => 0,
    }
}

// Adds words, into the room that there is.
fn push_words(list: &mut Vec<u64>, words: &[u64])
    requires { vec_len list.old + length words.now ≤ vec_capacity list.old }
    ensures items { list.new.items ≡ list.old.items ++ words.now }
    ensures len { vec_len list.new ≡ vec_len list.old + length words.now }
    ensures capacity { vec_capacity list.new ≡ vec_capacity list.old }
{
    for word in words {
        list.push_reserved(*word);
    }
}

// Adds the words after those of arguments and reply, into the room that there is.
fn push_extra(list: &mut Vec<u64>, brief: &Brief)
    requires { vec_len list.old + length (extra_of brief.now) ≤ vec_capacity list.old }
    ensures items { list.new.items ≡ list.old.items ++ extra_of brief.now }
    ensures len { vec_len list.new ≡ vec_len list.old + length (extra_of brief.now) }
    ensures capacity { vec_capacity list.new ≡ vec_capacity list.old }
    ensures turn { TurnFits brief.now.why }
{
    push_walk(list, &brief.why);
    push_desc(list, &brief.gave);
}

// Adds the id and the client of a walk's call, into the room that there is.
fn push_walk(list: &mut Vec<u64>, why: &Why)
    requires { vec_len list.old + length (walk_words why.now) ≤ vec_capacity list.old }
    ensures items { list.new.items ≡ list.old.items ++ walk_words why.now }
    ensures len { vec_len list.new ≡ vec_len list.old + length (walk_words why.now) }
    ensures capacity { vec_capacity list.new ≡ vec_capacity list.old }
    ensures turn { TurnFits why.now }
{
    match why {
        Why::Own => {}
        Why::Walk { id, turn, .. } => {
            list.push_reserved(*id);
            list.push_reserved(u64::from(*turn));
        }
    }
}

// Adds a descriptor that was given, into the room that there is.
fn push_desc(list: &mut Vec<u64>, gave: &Gave)
    requires { vec_len list.old + length (desc_words gave.now) ≤ vec_capacity list.old }
    ensures items { list.new.items ≡ list.old.items ++ desc_words gave.now }
    ensures len { vec_len list.new ≡ vec_len list.old + length (desc_words gave.now) }
    ensures capacity { vec_capacity list.new ≡ vec_capacity list.old }
{
    match gave {
        Gave::Good { desc } if *desc != 0 => list.push_reserved(*desc),
        _ => {}
    }
}
