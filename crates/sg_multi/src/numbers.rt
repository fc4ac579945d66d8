// Numbers of calls over all members.
ghost use Rattle.std.specs.Prelude.{◌≡◌, ℕ, ◌+◌, ◌++◌, ◌∷◌, [], List, Some, IfOk, OnOk, map};
ghost use Rattle.sg_multi.specs.Inside.Numbers.{AddsNumber, AreKept, CountsOne, HasRead, counted, next_of, number_by};
ghost use Rattle.sg_multi.specs.Merged.{Merges, MultiEntry, number_over_all};

use crate::merged::Reader;
use sg_facts::NoMemory;
use sg_report::Ended;
use std::alloc::Global;
use std::collections::BTreeMap;

/// A client's call, told by its member, from 1, and by its number there.
#[derive(Clone, Copy, Debug, PartialEq, Eq, PartialOrd, Ord)]
pub(crate) struct CallKey {
    pub(crate) member: usize,
    pub(crate) client: u8,
    pub(crate) seq: u32,
}

/// The numbers over all members of the calls that have an entry in a merged list, and the number of each client's entries there.
#[derive(Debug, Drop)]
pub(crate) struct Numbers {
    pub(crate) calls: BTreeMap<CallKey, u32>,
    pub(crate) clients: BTreeMap<u8, u32>,
}

impl Numbers {
    /// Those of the calls in a merged list. `NoMemory` also where a client has more entries than 32 bits can count.
    pub(crate) fn of(alloc: Global, order: &[u8], members: &[Ended]) -> Result<Numbers, NoMemory>
        ensures { (merged : List MultiEntry) → Merges order.now (map (λ e. e.history.items) members.now) merged
            → IfOk result (λ numbers. (member client seq : ℕ) → number_by numbers member client seq ≡ number_over_all merged member client seq) }
    {
        let mut reader = Reader::new(alloc);
        let mut calls = BTreeMap::new(alloc);
        'entries: for member in order {
            keep_next(&mut calls, &mut reader, members, *member)?;
        }
        Ok(Numbers {
            calls,
            clients: reader.clients,
        })
    }

    /// The number over all members of a client's call, which has a number at its member: for a call without an entry one more than the
    /// client's entries. `NoMemory` where that is no number of 32 bits.
    pub(crate) fn number(&self, key: CallKey) -> Result<u32, NoMemory>
        ensures { IfOk result (λ number. number ≡ number_by self.now key.member key.client key.seq) }
    {
        match self.calls.get(&key) {
            Some(number) => Ok(*number),
            None => next_number(count_of(&self.clients, key.client)),
        }
    }
}

// Reads the next entry of the member of a number, where it has one, and keeps the number of its call.
fn keep_next(
    calls: &mut BTreeMap<CallKey, u32>,
    reader: &mut Reader,
    members: &[Ended],
    member: u8,
) -> Result<(), NoMemory>
    ensures read { (before : List MultiEntry) (e : MultiEntry) → e.member ≡ member → HasRead reader.old before
        → next_of (map (λ m. m.history.items) members.now) reader.old.members member ≡ Some e.entry → OnOk result (HasRead reader.new (before ++ e ∷ [])) }
    ensures kept { (before : List MultiEntry) (e : MultiEntry) → e.member ≡ member → HasRead reader.old before
        → next_of (map (λ m. m.history.items) members.now) reader.old.members member ≡ Some e.entry → AreKept calls.old before
        → OnOk result (AreKept calls.new (before ++ e ∷ [])) }
{
    let Some(entry) = reader.next_entry(members, member) else {
        return Ok(());
    };
    let number = reader.note(member, entry.call.client)?;
    let key = CallKey {
        member: usize::from(member),
        client: entry.call.client,
        seq: entry.call.seq,
    };
    keep_number(calls, key, number)
}

// Keeps the number over all members of a call, where none is kept.
fn keep_number(
    calls: &mut BTreeMap<CallKey, u32>,
    key: CallKey,
    number: u32,
) -> Result<(), NoMemory>
    ensures { OnOk result (AddsNumber calls.old calls.new key number) }
{
    if calls.get(&key).is_none() {
        calls.insert(key, number)?;
    }
    Ok(())
}

/// How many of a number were counted.
pub(crate) fn count_of(counts: &BTreeMap<u8, u32>, key: u8) -> u32
    ensures { result ≡ counted counts.now key }
{
    match counts.get(&key) {
        Some(count) => *count,
        None => 0,
    }
}

/// Counts one of a number more, and says how many there are then.
pub(crate) fn count_one(counts: &mut BTreeMap<u8, u32>, key: u8) -> Result<u32, NoMemory>
    ensures number { IfOk result (λ number. number ≡ counted counts.old key + 1) }
    ensures counts { OnOk result (CountsOne counts.old counts.new key) }
{
    let number = next_number(count_of(counts, key))?;
    counts.insert(key, number)?;
    Ok(number)
}

// One more.
fn next_number(count: u32) -> Result<u32, NoMemory>
    ensures { IfOk result (λ number. number ≡ count + 1) }
{
    match count.checked_add(1) {
        Some(number) => Ok(number),
        None => Err(NoMemory),
    }
}
