// The entries with their orders.
ghost use Rattle.std.specs.Prelude.{◌≡◌, ◌==◌, ◌^◌, ◌<◌, [], length};
ghost use Rattle.std.specs.List.{list_any};
ghost use Rattle.std.specs.Option.{option_copied};
ghost use Rattle.sg_slots.specs.Slots.{entry_at, AreIds};
ghost use Rattle.sg_slots.specs.Carry.{Carries, IsAbout};
ghost use Rattle.sg_slots.specs.Orders.{IsFirst, IsGreatest};
ghost use Rattle.sg_slots.specs.Inside.QueueIndex.{IsChange};

use crate::index::{EntryChange, Indexes};
use crate::key::has_first;
use crate::{Decision, Queued, Slots, carry_out};
use sg_facts::{Outcome, Stops};
use std::alloc::Global;
use std::marker::Model;

/// The entries, each under its service id, and the number of ids given. An entry is found by its id, the first of the first
/// order and the greatest of the second are told, and an entry is changed, in time that grows with the logarithm of the live
/// entries.
#[derive(Debug, Drop)]
pub struct Queue<E: Queued> {
    entries: Slots<E>,
    indexes: Indexes,
}

impl<E: Queued> Model for Queue<E> {
    ghost use Rattle.sg_slots.specs.Slots.{Held};
    ghost use Rattle.sg_slots.specs.Inside.QueueIndex.{IsIndexed};

    ghost Value = { Held E };

    ghost view = { λ q. q.entries };

    ghost invariant = { λ q. IsIndexed E.first_order E.second_order q.entries q.indexes.firsts q.indexes.seconds };
}

impl<E: Queued> Queue<E> {
    /// No entry, and no id given. It takes no memory.
    pub fn new(alloc: Global) -> Self
        ensures entries { result.entries ≡ [] }
        ensures given { result.given ≡ 0 }
    {
        Queue {
            entries: Slots::new(alloc),
            indexes: Indexes::new(alloc),
        }
    }

    /// The entry of an id; None where no entry has it.
    pub fn get(&self, id: u64) -> Option<&E>
        ensures entry { option_copied result ≡ entry_at self.now.entries id }
        ensures ascending { AreIds 0 self.now.given self.now.entries }
    {
        self.entries.get(id)
    }

    /// The number of entries.
    pub fn len(&self) -> usize
        ensures { result ≡ length self.now.entries }
    {
        self.entries.len()
    }

    /// The id of the entry that goes before all others in the first order; None where none stands in it.
    pub fn first(&self) -> Option<u64>
        ensures first { IsFirst E.first_order self.now.entries result }
        ensures ascending { AreIds 0 self.now.given self.now.entries }
    {
        Some(self.indexes.firsts.first()?.id)
    }

    /// The greatest first number in the second order; None where there is no entry.
    pub fn greatest(&self) -> Option<u64>
        ensures greatest { IsGreatest E.second_order self.now.entries result }
        ensures ascending { AreIds 0 self.now.given self.now.entries }
    {
        Some(self.indexes.seconds.last()?.first)
    }

    /// Whether an entry has this first number in the second order.
    pub fn has(&self, number: u64) -> bool
        ensures { result ≡ list_any (λ e. (E.second_order e.1).first == number) self.now.entries }
    {
        has_first(&self.indexes.seconds, number)
    }

    /// Carries a decision on the entry of an id out. All memory is taken first: the keys that the entry will have are added
    /// before the first part is asked, and those that it had are taken out after the last.
    pub fn apply<T: Stops>(
        &mut self,
        alloc: Global,
        stops: &mut T,
        id: u64,
        decision: Decision<E>,
    ) -> Outcome
        requires there { IsAbout self.old id decision }
        requires room { self.old.given < 2 ^ 63 }
        ensures outcome { Carries self.old id decision
            (record { asked = T.asked stops.old; struck = T.struck stops.old }) result
            self.new (record { asked = T.asked stops.new; struck = T.struck stops.new }) }
        ensures plan { T.plan stops.new ≡ T.plan stops.old }
        ensures test { T.test (T.asked stops.old) (T.struck stops.old) (T.plan stops.old)
            → T.test (T.asked stops.new) (T.struck stops.new) (T.plan stops.new) }
    {
        let change = change_of(&self.entries, id, &decision);
        if self.indexes.prepare(change.id, change.after).is_err() {
            self.indexes.settle(change.id, change.after, change.before);
            return Outcome::NoMemory;
        }
        match carry_out(&mut self.entries, alloc, stops, id, decision) {
            Outcome::Replied { reply, patch } => {
                self.indexes.settle(change.id, change.before, change.after);
                Outcome::Replied { reply, patch }
            }
            Outcome::Blocks => {
                self.indexes.settle(change.id, change.after, change.before);
                Outcome::Blocks
            }
            Outcome::NoMemory => {
                self.indexes.settle(change.id, change.after, change.before);
                Outcome::NoMemory
            }
            Outcome::Stopped => {
                // A stop takes all that was held: nothing is known of the entries now, so none is kept.
                *self = Queue::new(alloc);
                Outcome::Stopped
            }
        }
    }
}

// What a decision on an id changes.
fn change_of<E: Queued>(entries: &Slots<E>, id: u64, decision: &Decision<E>) -> EntryChange<E>
    requires there { IsAbout entries.now id decision.now }
    requires room { entries.now.given < 2 ^ 63 }
    ensures { IsChange entries.now id decision.now result.id result.before result.after }
{
    let before = entries.get(id).copied();
    match decision {
        Decision::Make { entry, .. } => EntryChange {
            id: entries.given() + 1,
            before: None,
            after: Some(*entry),
        },
        Decision::Enlist { entry, .. } => EntryChange {
            id: entries.given() + 1,
            before: None,
            after: Some(*entry),
        },
        Decision::Set { entry, .. } => EntryChange {
            id,
            before,
            after: Some(*entry),
        },
        Decision::Remove => EntryChange {
            id,
            before,
            after: None,
        },
        _ => EntryChange {
            id,
            before,
            after: before,
        },
    }
}
