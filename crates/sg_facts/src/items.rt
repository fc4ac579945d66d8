// The items of one boot.
ghost use Rattle.std.specs.Prelude.{◌≡◌, ◌↔◌, ◌+◌, ◌<◌, ◌≤◌, [], ◌∷◌, ◌++◌, None, Some, length, IsTrue, IsOk, IfOk, IfSome, OnOk, slice_get};
ghost use Rattle.std.specs.Option.{option_map};
ghost use Rattle.sg_facts.specs.Inside.Items.{IsBriefItem, IsBriefOutcome, reply_words, tag_of};
ghost use Rattle.sg_facts.specs.ItemKinds.{item_kind};
ghost use Rattle.sg_facts.specs.Lent.{item_asked, item_in};
ghost use Rattle.sg_facts.specs.Loads.{load_item};
ghost use Rattle.sg_facts.specs.declared.outcome.Outcome.TheVariants.{Replied};

use crate::kept::{Kept, LoadNote};
use crate::lent::LentItem;
use crate::{Item, ItemKind, Outcome, Tag, TagKind};
use sg_base::{
    Brief, Call, Gave, NoMemory, RecordKind, Records, Reply, Why, gave_of, is_brief_call,
    reply_words as words_of_reply,
};
use std::alloc::Global;
use std::marker::Model;

/// The askings of one boot, with room for more. An asking whose call and reply have words alone takes 40 bytes, and 8 for each word; that of
/// a load refers to its file, which others may hold too; and any other is kept as it was added. Contracts see the askings as `items`, and as `room` the number of those that the list can take without
/// memory.
#[derive(Debug, Drop)]
pub struct ItemList {
    records: Records<Kept>,
}

impl Model for ItemList {
    ghost use Rattle.std.specs.Prelude.{map};
    ghost use Rattle.sg_base.specs.Room.{Roomy};
    ghost use Rattle.sg_facts.specs.Inside.Items.{item_of};
    ghost use Rattle.sg_facts.specs.declared.trace.Item.{Item};

    ghost Value = { Roomy Item };

    ghost view = { λ l. record { items = map item_of l.records.items; room = l.records.room } };
}

/// An asking of the service by its parts, as it is noted: they are copied only where it can't be kept in brief.
#[derive(Clone, Copy, Debug)]
pub struct Asking<'a> {
    pub tag: &'a Tag,
    pub shown: &'a Call,
    pub real: u64,
    pub points: u64,
    pub outcome: &'a Outcome,
}

impl ItemList {
    /// The empty list. It takes no memory.
    pub fn new(alloc: Global) -> ItemList
        ensures { result.items ≡ [] }
    {
        ItemList {
            records: Records::new(alloc),
        }
    }

    /// Takes the memory for `more` items. The items stay and room is never lost, whatever the answer. `NoMemory` also where the list
    /// would be too long: at about 4 billion words.
    pub fn reserve(&mut self, more: usize) -> Result<(), NoMemory>
        ensures ok { OnOk result (more ≤ self.new.room) }
        ensures items { self.new.items ≡ self.old.items }
        ensures room { self.old.room ≤ self.new.room }
        ensures succeeds { more ≤ self.old.room → IsOk result }
    {
        self.records.reserve(more)
    }

    /// Adds an item at the end, into the room that there is.
    pub fn add(&mut self, item: Item)
        requires { 0 < self.old.room }
        ensures items { self.new.items ≡ self.old.items ++ item ∷ [] }
        ensures room { self.old.room ≤ self.new.room + 1 }
    {
        let asking = Asking::of(&item);
        match asking.in_brief() {
            Some(brief) => self.add_brief(&brief, &asking),
            None => self.add_whole(item),
        }
    }

    /// Adds an asking at the end in brief, into the room that there is.
    pub fn add_brief(&mut self, brief: &Brief, asking: &Asking)
        requires room { 0 < self.old.room }
        requires brief { IsBriefItem brief.now (item_asked asking.now) }
        ensures items { self.new.items ≡ self.old.items ++ item_asked asking.now ∷ [] }
        ensures room { self.old.room ≤ self.new.room + 1 }
    {
        self.records
            .add_brief(brief, &asking.shown.args, reply_words(asking.outcome));
    }

    // Adds an item at the end as it is.
    fn add_whole(&mut self, item: Item)
        requires { 0 < self.old.room }
        ensures items { self.new.items ≡ self.old.items ++ item ∷ [] }
        ensures room { self.old.room ≤ self.new.room + 1 }
    {
        self.records.add_whole(Kept::Item(item));
    }

    /// Adds the item of a load at the end, into the room that there is. It refers to the load's file.
    pub fn add_load(&mut self, load: LoadNote)
        requires { 0 < self.old.room }
        ensures items { self.new.items ≡ self.old.items ++ load_item load ∷ [] }
        ensures room { self.old.room ≤ self.new.room + 1 }
    {
        self.records.add_whole(Kept::Load(load));
    }

    /// The number of items.
    pub fn len(&self) -> usize
        ensures { result ≡ length self.now.items }
    {
        self.records.len()
    }

    /// Whether there is no item.
    pub fn is_empty(&self) -> bool
        ensures { IsTrue result ↔ (self.now.items ≡ []) }
    {
        self.len() == 0
    }

    /// The item at a place, counted from 0, lent; None exactly where `at` isn't below the length.
    pub fn get(&self, at: usize) -> Option<LentItem<'_>>
        ensures { option_map item_in result ≡ slice_get self.now.items at }
    {
        match self.records.get(at) {
            Some(record) => Some(LentItem::of_record(record)),
            None => None,
        }
    }

    /// The item at a place that there is, counted from 0, lent.
    #[tactic(auto, using(std::proofs::lemmas::Option::gets, crate::proofs::Places::none_past))]
    pub fn at(&self, at: usize) -> LentItem<'_>
        requires { at < length self.now.items }
        ensures { slice_get self.now.items at ≡ Some (item_in result) }
    {
        match self.get(at) {
            Some(item) => item,
            None => unreachable!(),
        }
    }

    /// Of which kind the item at a place that there is is, counted from 0. Of an item that is kept in brief it reads no word.
    pub fn kind(&self, at: usize) -> ItemKind
        requires { at < length self.now.items }
        ensures { option_map item_kind (slice_get self.now.items at) ≡ Some result }
    {
        match self.records.kind(at) {
            Some(RecordKind::Own(gave)) => ItemKind {
                tag: TagKind::Client,
                gave,
            },
            Some(RecordKind::Walk(gave)) => ItemKind {
                tag: TagKind::Walk,
                gave,
            },
            _ => self.at(at).kind(),
        }
    }

    /// A list of equal items; its room is its own.
    pub fn copied(&self, alloc: Global) -> Result<ItemList, NoMemory>
        ensures { IfOk result (λ copy. copy.items ≡ self.now.items) }
    {
        Ok(ItemList {
            records: self.records.copied(alloc)?,
        })
    }
}

impl<'a> Asking<'a> {
    /// What an item says.
    pub fn of(item: &'a Item) -> Asking<'a>
        ensures { item_asked result ≡ item.now }
    {
        Asking {
            tag: &item.tag,
            shown: &item.shown,
            real: item.real,
            points: item.points,
            outcome: &item.outcome,
        }
    }

    /// Its item in brief, where that can be kept so: one without text, bytes or patch, of at most 4 arguments and 4 words.
    pub fn in_brief(&self) -> Option<Brief>
        ensures { IfSome result (λ brief. IsBriefItem brief (item_asked self.now)) }
    {
        let why = why_of(self.tag, self.shown)?;
        let gave = given(self.outcome)?;
        if !is_brief_call(self.shown) {
            return None;
        }
        Some(Brief {
            points: self.points,
            real: self.real,
            desc: self.shown.desc,
            client: self.shown.client,
            seq: self.shown.seq,
            fun: self.shown.fun,
            why,
            gave,
        })
    }
}

// Why a call was made, in brief: None for a load, and for a client's call that is told by another number.
fn why_of(tag: &Tag, call: &Call) -> Option<Why>
    ensures { IfSome result (λ why. tag_of why call.now.client call.now.seq ≡ tag.now) }
{
    match tag {
        Tag::Walk { id, k, client } => Some(Why::Walk {
            id: *id,
            k: *k,
            turn: *client,
        }),
        Tag::Load { .. } => None,
        Tag::Client { client, seq } => {
            if *client == call.client && *seq == call.seq {
                Some(Why::Own)
            } else {
                None
            }
        }
    }
}

// What asking a service gave, in brief: None for one with bytes or with many words.
fn given(outcome: &Outcome) -> Option<Gave>
    ensures { IfSome result (λ gave. IsBriefOutcome gave outcome.now) }
{
    match outcome {
        Outcome::Replied { reply, patch: None } => given_reply(reply),
        Outcome::Replied { .. } => None,
        Outcome::Blocks => Some(Gave::Blocks),
        Outcome::Stopped => Some(Gave::Stopped),
        Outcome::NoMemory => Some(Gave::NoMemory),
    }
}

// What a reply gave, where nothing was written.
fn given_reply(reply: &Reply) -> Option<Gave>
    ensures { IfSome result (λ gave. IsBriefOutcome gave (Replied reply.now None)) }
{
    gave_of(reply)
}

// The words of a reply that was given, lent.
fn reply_words(outcome: &Outcome) -> &[u64]
    ensures { result.now ≡ reply_words outcome.now }
{
    match outcome {
        Outcome::Replied { reply, .. } => words_of_reply(reply),
        _ => &[],
    }
}
