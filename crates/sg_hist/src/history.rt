// The calls that were done.
ghost use Rattle.std.specs.Prelude.{◌≡◌, ◌↔◌, ◌+◌, ◌<◌, ◌≤◌, [], ◌∷◌, ◌++◌, Some, length, IsFalse, IsSome, IsTrue, IsOk, IfOk, IfSome, OnOk, OnErr, slice_get};
ghost use Rattle.std.specs.Option.{option_map};
ghost use Rattle.sg_hist.specs.Clients.{calls_of};
ghost use Rattle.sg_hist.specs.Inside.Entries.{IsBriefEntry};
ghost use Rattle.sg_hist.specs.Lent.{IsBriefly, entry_in};

use crate::lent::LentEntry;
use sg_facts::{
    Brief, Call, Entry, NoMemory, Records, Reply, Why, gave_of, is_brief_call, reply_words,
};
use std::alloc::Global;
use std::marker::Model;

/// The calls that were done, with their replies, in the order in which they were committed. An entry whose call and reply have words alone
/// takes 40 bytes, and 8 for each word; any other is kept as it was added. Contracts see the entries as `items`, and as `room` the number
/// of entries that the history can take without memory.
#[derive(Debug, Drop)]
pub struct History {
    records: Records<Entry>,
}

impl Model for History {
    ghost use Rattle.std.specs.Prelude.{map};
    ghost use Rattle.sg_facts.specs.sg_base.Room.{Roomy};
    ghost use Rattle.sg_facts.specs.declared.entry.Entry.{Entry};
    ghost use Rattle.sg_hist.specs.Inside.Entries.{entry_of};

    ghost Value = { Roomy Entry };

    ghost view = { λ h. record { items = map entry_of h.records.items; room = h.records.room } };
}

impl History {
    /// The empty history. It takes no memory.
    pub fn new(alloc: Global) -> History
        ensures { result.items ≡ [] }
    {
        History {
            records: Records::new(alloc),
        }
    }

    /// Takes the memory for `more` entries. The entries stay and room is never lost, whatever the answer. `NoMemory` also where the
    /// history would be too long: at about 4 billion words.
    pub fn reserve(&mut self, more: usize) -> Result<(), NoMemory>
        ensures ok { OnOk result (more ≤ self.new.room) }
        ensures items { self.new.items ≡ self.old.items }
        ensures room { self.old.room ≤ self.new.room }
        ensures succeeds { more ≤ self.old.room → IsOk result }
    {
        self.records.reserve(more)
    }

    /// Adds an entry at the end, into the room that there is.
    pub fn add(&mut self, entry: Entry)
        requires { 0 < self.old.room }
        ensures items { self.new.items ≡ self.old.items ++ entry ∷ [] }
        ensures room { self.old.room ≤ self.new.room + 1 }
    {
        if !self.add_lent(&entry.call, &entry.reply) {
            self.add_whole(entry);
        }
    }

    /// Adds the entry of a call and its reply at the end, into the room that there is, where they can be kept in brief: a call of at most
    /// 4 arguments, all of them words, and a reply of at most 4 words without a byte. Answers whether it did; where it didn't, nothing
    /// changed.
    pub fn add_lent(&mut self, call: &Call, reply: &Reply) -> bool
        requires { 0 < self.old.room }
        ensures fits { IsTrue result ↔ IsBriefly call.now reply.now }
        ensures items { IsTrue result → self.new.items ≡ self.old.items ++ record { call = call.now; reply = reply.now } ∷ [] }
        ensures room { self.old.room ≤ self.new.room + 1 }
        ensures kept { IsFalse result → self.new ≡ self.old }
    {
        match in_brief(call, reply) {
            Some(brief) => {
                self.add_brief(&brief, call, reply);
                true
            }
            None => false,
        }
    }

    /// Adds an entry at the end. After `NoMemory` the entries are as before.
    pub fn push(&mut self, entry: Entry) -> Result<(), NoMemory>
        ensures ok { OnOk result (self.new.items ≡ self.old.items ++ entry ∷ []) }
        ensures err { OnErr result (self.new.items ≡ self.old.items) }
    {
        self.reserve(1)?;
        self.add(entry);
        Ok(())
    }

    // Adds the entry of a call and its reply at the end in brief.
    fn add_brief(&mut self, brief: &Brief, call: &Call, reply: &Reply)
        requires room { 0 < self.old.room }
        requires brief { IsBriefEntry brief.now (record { call = call.now; reply = reply.now }) }
        ensures items { self.new.items ≡ self.old.items ++ record { call = call.now; reply = reply.now } ∷ [] }
        ensures room { self.old.room ≤ self.new.room + 1 }
    {
        self.records
            .add_brief(brief, &call.args, reply_words(reply));
    }

    // Adds an entry at the end as it is.
    fn add_whole(&mut self, entry: Entry)
        requires { 0 < self.old.room }
        ensures items { self.new.items ≡ self.old.items ++ entry ∷ [] }
        ensures room { self.old.room ≤ self.new.room + 1 }
    {
        self.records.add_whole(entry);
    }

    /// The number of entries.
    pub fn len(&self) -> usize
        ensures { result ≡ length self.now.items }
    {
        self.records.len()
    }

    /// Whether there is no entry.
    pub fn is_empty(&self) -> bool
        ensures { IsTrue result ↔ (self.now.items ≡ []) }
    {
        self.len() == 0
    }

    /// The entry at a place, counted from 0, lent; None exactly where `at` isn't below the length.
    pub fn get(&self, at: usize) -> Option<LentEntry<'_>>
        ensures { option_map entry_in result ≡ slice_get self.now.items at }
    {
        match self.records.get(at) {
            Some(record) => Some(LentEntry::of_record(record)),
            None => None,
        }
    }

    /// The entry at a place that there is, counted from 0, lent.
    #[tactic(auto, using(std::proofs::lemmas::Option::gets, sg_facts::proofs::Places::none_past))]
    pub fn at(&self, at: usize) -> LentEntry<'_>
        requires { at < length self.now.items }
        ensures { slice_get self.now.items at ≡ Some (entry_in result) }
    {
        match self.get(at) {
            Some(entry) => entry,
            None => unreachable!(),
        }
    }

    /// A copy of the entry at a place that there is, counted from 0.
    pub fn entry(&self, alloc: Global, at: usize) -> Result<Entry, NoMemory>
        requires { at < length self.now.items }
        ensures { IfOk result (λ entry. slice_get self.now.items at ≡ Some entry) }
    {
        self.at(at).copied(alloc)
    }

    /// Whether it has the same entries as another, in the same order.
    #[tactic(auto, using(std::proofs::lemmas::Grind::common_steps))]
    pub fn is_same(&self, other: &History) -> bool
        ensures { IsTrue result ↔ (self.now.items ≡ other.now.items) }
    {
        if self.len() != other.len() {
            return false;
        }
        'entries: for at in 0..self.len() {
            if !self.at(at).is_same(&other.at(at)) {
                return false;
            }
        }
        true
    }

    /// A history of equal entries; its room is its own.
    pub fn copied(&self, alloc: Global) -> Result<History, NoMemory>
        ensures { IfOk result (λ copy. copy.items ≡ self.now.items) }
    {
        Ok(History {
            records: self.records.copied(alloc)?,
        })
    }

    /// The entries of one client, in their order.
    #[tactic(auto, using(std::proofs::lemmas::Grind::common_steps, sg_facts::proofs::Places::take_next))]
    pub fn of_client(&self, alloc: Global, client: u8) -> Result<History, NoMemory>
        ensures { IfOk result (λ own. own.items ≡ calls_of self.now.items client) }
    {
        let mut own = History::new(alloc);
        for at in 0..self.len() {
            let entry = self.at(at);
            if entry.call.client == client {
                own.push(entry.copied(alloc)?)?;
            }
        }
        Ok(own)
    }
}

// The entry of a call and its reply in brief, exactly where it can be kept so.
fn in_brief(call: &Call, reply: &Reply) -> Option<Brief>
    ensures brief { IfSome result (λ brief. IsBriefEntry brief (record { call = call.now; reply = reply.now })) }
    ensures fits { IsSome result ↔ IsBriefly call.now reply.now }
{
    let gave = gave_of(reply)?;
    if !is_brief_call(call) {
        return None;
    }
    Some(Brief {
        points: 0,
        real: 0,
        desc: call.desc,
        client: call.client,
        seq: call.seq,
        fun: call.fun,
        why: Why::Own,
        gave,
    })
}
