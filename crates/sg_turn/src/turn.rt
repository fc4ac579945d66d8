// The hand-over.
ghost use Rattle.std.specs.Prelude.{◌∷◌, [], ◌≡◌, ◌+◌, ◌≤◌, true, false, IfOk, IfErr, map};
ghost use Rattle.sg_turn.specs.Logs.{face_by, OneMore};
ghost use Rattle.sg_turn.specs.Seats.{HasLearnt, AddsMarks, all_seats, AreAllSeats, AllEndIn, knowledge_of};

use crate::bells::Bells;
use crate::closing::Closing;
use crate::dealing::Dealing;
use crate::kept::Kept;
use crate::seat::{Seat, SeatList};
use crate::steps::{Board, draw, fetch, give_back, learn, wait_for};
use sg_facts::NoMemory;
use std::alloc::Global;
use std::marker::Model;
use std::sync::Wait;

/// Hands one value from seat to seat, in the order in which they drew their tickets. Threads share it by a `&`, and each brings its
/// own seat. Contracts see which hand-over it is, and the value's face at the beginning.
#[derive(Drop)]
pub struct Turn<V: Kept> {
    table: Board<V>,
    bells: Bells,
}

impl<V: Kept> Model for Turn<V> {
    ghost use Rattle.std.specs.Prelude.{◌≡◌};
    ghost use Rattle.sg_turn.specs.Logs.{face_by};
    ghost use Rattle.sg_turn.specs.Seats.{TurnView};

    ghost Value = { TurnView };

    ghost view = { λ t. record { id = t.table.shared.table_id; start = face_by V.log V.events t.table.shared.key.value } };

    ghost invariant = { λ t. (t.table.shared.table_id.words ≡ 3) × (t.table.shared.table_id.slots ≡ 1) };
}

/// The value, out with the seat that took it. The holder has it alone, until it gives it back.
#[derive(Drop)]
pub struct Hold<V: Kept> {
    pub value: V,
}

impl<V: Kept> Turn<V> {
    /// A hand-over of this value with so many seats, 1 at least, in ascending numbers from 1. No hold was counted yet. After
    /// `NoMemory` the value comes back.
    pub fn new(alloc: Global, value: V, seats: u32) -> Result<(Turn<V>, SeatList<V>), (NoMemory, V)>
        requires { 1 ≤ seats }
        ensures start { IfOk result (λ t. t.0.start ≡ face_by V.log V.events value) }
        ensures seats { IfOk result (λ t. t.1.items ≡ all_seats t.0 seats) }
        ensures err { IfErr result (λ e. e.1 ≡ value) }
    {
        let Ok(mut list) = Vec::with_capacity(alloc, seats as usize) else {
            return Err((NoMemory, value));
        };
        let mut dealing = Dealing::new(alloc, value)?;
        'dealing: for _dealt in 0..seats - 1 {
            list.push_reserved(dealing.deal());
        }
        let (turn, seat) = dealing.deal_last();
        list.push_reserved(seat);
        Ok((turn, list))
    }

    pub(crate) fn over(table: Board<V>) -> Turn<V>
        requires words { table.shared.table_id.words ≡ 3 }
        requires slots { table.shared.table_id.slots ≡ 1 }
        ensures { result ≡ record { id = table.shared.table_id; start = face_by V.log V.events table.shared.key.value } }
    {
        Turn {
            table,
            bells: Bells::new(),
        }
    }

    /// Draws a ticket for a seat that doesn't hold the value, waits until the ticket is served, and takes the value as it was last
    /// given back. Its face is what the seat knows then: it begins with all that the seat knew, and nothing that came since is of the
    /// seat's own client. It may wait, and waits forever where a holder never gives the value back, or the tickets are used up.
    pub fn take<R: Wait>(&self, rt: &R, seat: &mut Seat<V>) -> Hold<V>
        requires turn { seat.old.turn ≡ self.now.id }
        requires free { seat.old.holds ≡ false }
        ensures seat { HasLearnt seat.old seat.new }
        ensures holds { seat.new.holds ≡ true }
        ensures value { face_by V.log V.events result.value ≡ seat.new.face }
    {
        let steps = &self.table.shared;
        let place = &mut seat.place;
        let ticket = draw(rt, steps, place);
        wait_for(rt, &self.bells, steps, place, ticket);
        fetch(steps, place, ticket);
        let value = steps.exchange(place, 0, None).unwrap();
        Hold { value }
    }

    /// Gives a value back for a seat that holds, counts the hold, and serves the next ticket. Marks of the seat's client alone stand
    /// behind the log with which the value was taken, and it has one event more, or still the greatest number of 64 bits. What the
    /// next holder takes is this value.
    pub fn give(&self, seat: &mut Seat<V>, held: Hold<V>)
        requires turn { seat.old.turn ≡ self.now.id }
        requires holds { seat.old.holds ≡ true }
        requires log { AddsMarks seat.old.number seat.old.face.log (V.log held.value) }
        requires events { OneMore seat.old.face.events (V.events held.value) }
        ensures { seat.new ≡ record seat.old { known = seat.old.known + 1; face = face_by V.log V.events held.value; holds = false } }
    {
        let Hold { value } = held;
        give_back(&self.bells, &self.table.shared, &mut seat.place, value);
    }

    /// The number of holds that were counted so far, at least as many as the seat knew. The seat knows the value's face after so many
    /// holds from then on. It never waits, whoever holds the value.
    pub fn progress(&self, seat: &mut Seat<V>) -> u64
        requires turn { seat.old.turn ≡ self.now.id }
        ensures seat { HasLearnt seat.old seat.new }
        ensures holds { seat.new.holds ≡ seat.old.holds }
        ensures known { result ≡ seat.new.known }
    {
        learn(&self.table.shared, &mut seat.place)
    }

    /// Ends the hand-over with all its seats, in ascending numbers and none holding, and gives the value out as it was last given
    /// back. For each client its face ends what the client knew: it begins with that log, has the client's marks as the client knows
    /// them, and an event at least for each hold that the client knows. It takes no memory.
    pub fn close(self, mut seats: SeatList<V>) -> V
        requires { AreAllSeats self.id seats.items }
        ensures { AllEndIn self.start (face_by V.log V.events result) (map knowledge_of seats.items) }
    {
        let Some(last) = seats.pop() else {
            unreachable!()
        };
        let mut closing = self.closing(last);
        while let Some(seat) = seats.pop() {
            closing.gather(seat);
        }
        closing.end()
    }

    /// Begins to end the hand-over, with its last seat, which doesn't hold the value. The others come back by `Closing::gather`.
    pub fn closing(self, last: Seat<V>) -> Closing<V>
        requires turn { last.turn ≡ self.id }
        requires free { last.holds ≡ false }
        requires last { last.last ≡ true }
        ensures { result ≡ record { id = self.id; start = self.start; gathered = knowledge_of last ∷ [] } }
    {
        let Turn { table, .. } = self;
        Closing::begin(table, last)
    }
}
