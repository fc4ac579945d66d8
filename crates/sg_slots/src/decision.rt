// What a service decides, and how it is done.
ghost use Rattle.std.specs.Prelude.{◌≡◌, ◌<◌, ◌^◌, ℕ, IfOk, IsSome};
ghost use Rattle.sg_slots.specs.declared.decision.Decision.TheVariants.{Make, Enlist, Set, Remove};
ghost use Rattle.sg_slots.specs.Slots.{entry_at, set_entry, AreIds};
ghost use Rattle.sg_slots.specs.Carry.{Adds, Carries, AnswersOnly, IsAbout, words_of, ok_reply};

use crate::Slots;
use sg_facts::{Bytes, Code, Good, NoMemory, Outcome, Point, Reply, Stops, Words};
use std::alloc::Global;
use std::collections::BTreeMap;
use std::collections::btree_map::Entry;

/// What a service decides to do with a call.
#[derive(Debug, Drop)]
pub enum Decision<E> {
    /// Refuse it.
    Refuse(Code),
    /// Let the caller wait.
    Block,
    /// Make a descriptor with this entry, in two parts, and answer its id and the word.
    Make { entry: E, word: Option<u64> },
    /// Make a descriptor with this entry, in three parts, and answer its id and the word. The third part is its place in an
    /// order that the caller keeps.
    Enlist { entry: E, word: Option<u64> },
    /// Set the descriptor's entry, in one part, and answer the word.
    Set { entry: E, word: Option<u64> },
    /// Answer a descriptor and the word, and change nothing.
    Keep { desc: u64, word: Option<u64> },
    /// End the descriptor, in one part.
    Remove,
}

/// Carries a decision on the descriptor of an id out. The memory for the entry and the reply is taken first, then each
/// part is asked before its change.
pub fn carry_out<E: Drop, T: Stops>(
    slots: &mut Slots<E>,
    alloc: Global,
    stops: &mut T,
    id: u64,
    decision: Decision<E>,
) -> Outcome
    requires there { IsAbout slots.old id decision }
    requires room { slots.old.given < 2 ^ 63 }
    ensures outcome { Carries slots.old id decision
        (record { asked = T.asked stops.old; struck = T.struck stops.old }) result
        slots.new (record { asked = T.asked stops.new; struck = T.struck stops.new }) }
    ensures plan { T.plan stops.new ≡ T.plan stops.old }
    ensures test { T.test (T.asked stops.old) (T.struck stops.old) (T.plan stops.old)
        → T.test (T.asked stops.new) (T.struck stops.new) (T.plan stops.new) }
{
    match decision {
        Decision::Refuse(code) => replied(Reply::Refused(code)),
        Decision::Block => Outcome::Blocks,
        Decision::Make { entry, word } => make(slots, alloc, stops, entry, word),
        Decision::Enlist { entry, word } => enlist(slots, alloc, stops, entry, word),
        Decision::Set { entry, word } => set(slots, alloc, stops, id, entry, word),
        Decision::Keep { desc, word } => keep(alloc, desc, word),
        Decision::Remove => remove(slots, alloc, stops, id),
    }
}

// Makes a descriptor: the first part gives its id, the second its entry.
fn make<E: Drop, T: Stops>(
    slots: &mut Slots<E>,
    alloc: Global,
    stops: &mut T,
    entry: E,
    word: Option<u64>,
) -> Outcome
    requires { slots.old.given < 2 ^ 63 }
    ensures outcome { (id : ℕ) → Carries slots.old id (Make entry word)
        (record { asked = T.asked stops.old; struck = T.struck stops.old }) result
        slots.new (record { asked = T.asked stops.new; struck = T.struck stops.new }) }
    ensures plan { T.plan stops.new ≡ T.plan stops.old }
    ensures test { T.test (T.asked stops.old) (T.struck stops.old) (T.plan stops.old)
        → T.test (T.asked stops.new) (T.struck stops.new) (T.plan stops.new) }
{
    match good(alloc, slots.given + 1, word) {
        Ok(reply) => add(&mut slots.entries, &mut slots.given, stops, entry, reply),
        Err(_) => Outcome::NoMemory,
    }
}

// Makes a descriptor that stands in an order: the third part is its place there, which the caller keeps.
fn enlist<E: Drop, T: Stops>(
    slots: &mut Slots<E>,
    alloc: Global,
    stops: &mut T,
    entry: E,
    word: Option<u64>,
) -> Outcome
    requires { slots.old.given < 2 ^ 63 }
    ensures outcome { (id : ℕ) → Carries slots.old id (Enlist entry word)
        (record { asked = T.asked stops.old; struck = T.struck stops.old }) result
        slots.new (record { asked = T.asked stops.new; struck = T.struck stops.new }) }
    ensures plan { T.plan stops.new ≡ T.plan stops.old }
    ensures test { T.test (T.asked stops.old) (T.struck stops.old) (T.plan stops.old)
        → T.test (T.asked stops.new) (T.struck stops.new) (T.plan stops.new) }
{
    match make(slots, alloc, stops, entry, word) {
        Outcome::Replied { reply, patch } => {
            if stops.strikes(Point::Part(3)) {
                return Outcome::Stopped;
            }
            Outcome::Replied { reply, patch }
        }
        Outcome::Blocks => Outcome::Blocks,
        Outcome::Stopped => Outcome::Stopped,
        Outcome::NoMemory => Outcome::NoMemory,
    }
}

// Adds an entry under the id after the last one given, and answers a reply. Its room is taken first.
fn add<E: Drop, T: Stops>(
    entries: &mut BTreeMap<u64, E>,
    given: &mut u64,
    stops: &mut T,
    entry: E,
    reply: Reply,
) -> Outcome
    requires ids { AreIds 0 given.old entries.old.entries }
    requires room { given.old < 2 ^ 63 }
    ensures outcome { Adds entries.old.entries given.old entry reply
        (record { asked = T.asked stops.old; struck = T.struck stops.old }) result
        entries.new.entries given.new (record { asked = T.asked stops.new; struck = T.struck stops.new }) }
    ensures ids { AreIds 0 given.new entries.new.entries }
    ensures plan { T.plan stops.new ≡ T.plan stops.old }
    ensures test { T.test (T.asked stops.old) (T.struck stops.old) (T.plan stops.old)
        → T.test (T.asked stops.new) (T.struck stops.new) (T.plan stops.new) }
{
    match entries.entry(*given + 1) {
        Ok(Entry::Vacant(place)) => {
            if stops.strikes(Point::Part(1)) {
                return Outcome::Stopped;
            }
            *given += 1;
            if stops.strikes(Point::Part(2)) {
                return Outcome::Stopped;
            }
            place.insert(entry);
            replied(reply)
        }
        Ok(Entry::Occupied(_)) => unreachable!(),
        Err(_) => Outcome::NoMemory,
    }
}

// Sets the entry of a descriptor.
fn set<E: Drop, T: Stops>(
    slots: &mut Slots<E>,
    alloc: Global,
    stops: &mut T,
    id: u64,
    entry: E,
    word: Option<u64>,
) -> Outcome
    requires { IsSome (entry_at slots.old.entries id) }
    ensures outcome { Carries slots.old id (Set entry word)
        (record { asked = T.asked stops.old; struck = T.struck stops.old }) result
        slots.new (record { asked = T.asked stops.new; struck = T.struck stops.new }) }
    ensures plan { T.plan stops.new ≡ T.plan stops.old }
    ensures test { T.test (T.asked stops.old) (T.struck stops.old) (T.plan stops.old)
        → T.test (T.asked stops.new) (T.struck stops.new) (T.plan stops.new) }
{
    match good(alloc, 0, word) {
        Ok(reply) => {
            if stops.strikes(Point::Part(1)) {
                return Outcome::Stopped;
            }
            put(&mut slots.entries, slots.given, id, entry);
            replied(reply)
        }
        Err(_) => Outcome::NoMemory,
    }
}

// Answers a descriptor and a word.
fn keep(alloc: Global, desc: u64, word: Option<u64>) -> Outcome
    ensures { AnswersOnly (ok_reply desc word) result }
{
    match good(alloc, desc, word) {
        Ok(reply) => replied(reply),
        Err(_) => Outcome::NoMemory,
    }
}

// Ends a descriptor.
fn remove<E: Drop, T: Stops>(slots: &mut Slots<E>, alloc: Global, stops: &mut T, id: u64) -> Outcome
    requires { IsSome (entry_at slots.old.entries id) }
    ensures outcome { Carries slots.old id Remove
        (record { asked = T.asked stops.old; struck = T.struck stops.old }) result
        slots.new (record { asked = T.asked stops.new; struck = T.struck stops.new }) }
    ensures plan { T.plan stops.new ≡ T.plan stops.old }
    ensures test { T.test (T.asked stops.old) (T.struck stops.old) (T.plan stops.old)
        → T.test (T.asked stops.new) (T.struck stops.new) (T.plan stops.new) }
{
    match good(alloc, 0, None) {
        Ok(reply) => {
            if stops.strikes(Point::Part(1)) {
                return Outcome::Stopped;
            }
            let _ = slots.entries.remove(&id);
            replied(reply)
        }
        Err(_) => Outcome::NoMemory,
    }
}

// Sets the entry of an id that is there.
fn put<E: Drop>(entries: &mut BTreeMap<u64, E>, given: u64, id: u64, entry: E)
    requires ids { AreIds 0 given entries.old.entries }
    requires there { IsSome (entry_at entries.old.entries id) }
    ensures { entries.new.entries ≡ set_entry entries.old.entries id entry }
{
    match entries.insert(id, entry) {
        Ok(_) => {}
        Err(_) => unreachable!(),
    }
}

// A reply, without a patch.
fn replied(reply: Reply) -> Outcome
    ensures { result ≡ Outcome.Replied reply None }
{
    Outcome::Replied { reply, patch: None }
}

// An Ok with a descriptor and a word.
fn good(alloc: Global, desc: u64, word: Option<u64>) -> Result<Reply, NoMemory>
    ensures { IfOk result (λ reply. reply ≡ ok_reply desc word) }
{
    Ok(Reply::Ok(Good {
        desc,
        words: words_of(alloc, word)?,
        bytes: Bytes::new(alloc),
    }))
}

// A word, or none.
fn words_of(alloc: Global, word: Option<u64>) -> Result<Words, NoMemory>
    ensures { IfOk result (λ words. words ≡ words_of word) }
{
    let mut words = Words::new(alloc);
    if let Some(word) = word {
        words.push(word)?;
    }
    Ok(words)
}
