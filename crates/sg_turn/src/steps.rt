// The steps of the ticket lock, one at a time, by a seat's place at the table.
ghost use Rattle.std.specs.Prelude.{◌≡◌, ◌+◌, ◌⊎◌, ℕ, true, [], ◌∷◌, Some, None};
ghost use Rattle.sg_turn.specs.Logs.{face_by, OneMore};
ghost use Rattle.sg_turn.specs.Seats.{AddsMarks, Learns};
ghost use Rattle.sg_turn.specs.Inside.Places.{is_holding};
ghost use Rattle.sg_turn.specs.Inside.Steps.{with_state, knowing, knowledge_at};
ghost use Rattle.sg_turn.specs.declared.view.SeatState.TheVariants.{Idle, Waiting, Served, Holding};

use crate::bells::Bells;
use crate::kept::Kept;
use crate::rule::{Count, Draw, Fetch, InTurn, Learn, Look, Serve};
use crate::view::View;
use atomic_table::{Seat, Shared, Table};
use std::alloc::Global;
use std::snapshot::Snapshot;
use std::sync::Wait;
use std::thread;

/// The word with the number of the next ticket.
const TICKET: usize = 0;

/// The word with the ticket that is served.
const SERVING: usize = 1;

/// The word with the number of holds that were counted.
const COUNT: usize = 2;

/// So many tickets after the one that is served are among the next: who has one of them stays awake for a while.
const AWAKE: u64 = 1;

/// How often who is among the next looks before it sleeps all the same.
const MOST_LOOKS: u32 = 64;

/// The words of a hand-over, and the slot of its value.
pub type Board<V> = Table<Option<V>, View, Snapshot<V>, InTurn<V>, Global>;

/// The steps on a board, by any thread.
pub type Steps<V> = Shared<Option<V>, View, Snapshot<V>, InTurn<V>>;

/// A seat's place at a board.
pub type BoardSeat<V> = Seat<Option<V>, View>;

/// Draws a ticket. It never returns once the tickets are used up: the last is never drawn, so that no ticket comes twice.
pub fn draw<R: Wait, V: Kept>(rt: &R, steps: &Steps<V>, place: &mut BoardSeat<V>) -> u64
    requires table { place.old.table_id ≡ steps.now.table_id }
    requires words { steps.now.table_id.words ≡ 3 }
    requires idle { place.old.me.0.state ≡ Idle }
    ensures table { place.new.table_id ≡ place.old.table_id }
    ensures me { place.new.me ≡ (with_state place.old.me.0 (Waiting result), place.old.me.1) }
{
    let mut next = steps.peek(TICKET);
    for _ in rt.forever() {
        if next < u64::MAX {
            let found = steps.compare_exchange::<Draw>(place, TICKET, next, next + 1);
            if found == next {
                return next;
            }
            next = found;
        }
    }
    unreachable!()
}

/// Waits until a ticket is served. While it is among the next it looks often, and yields between two looks; else it sleeps until its
/// bell rings.
pub fn wait_for<R: Wait, V: Kept>(
    rt: &R,
    bells: &Bells,
    steps: &Steps<V>,
    place: &mut BoardSeat<V>,
    ticket: u64,
)
    requires table { place.old.table_id ≡ steps.now.table_id }
    requires words { steps.now.table_id.words ≡ 3 }
    requires waits { place.old.me.0.state ≡ Waiting ticket }
    ensures table { place.new.table_id ≡ place.old.table_id }
    ensures me { place.new.me ≡ (with_state place.old.me.0 (Served ticket), place.old.me.1) }
{
    let mut looks: u32 = 0;
    for _ in rt.forever() {
        let served = steps.load::<Look>(place, SERVING);
        if served == ticket {
            return;
        }
        if looks < MOST_LOOKS && ticket.saturating_sub(served) <= AWAKE {
            looks += 1;
            thread::yield_now();
        } else {
            sleep(rt, bells, steps, ticket);
        }
    }
    unreachable!()
}

// Sleeps until a ticket's bell rings, where the ticket isn't served by now. The bell is set before that look: a ticket that is served
// after it has its bell rung, and the sleep ends.
fn sleep<R: Wait, V: Kept>(rt: &R, bells: &Bells, steps: &Steps<V>, ticket: u64)
    requires words { steps.now.table_id.words ≡ 3 }
{
    bells.set(ticket);
    if steps.peek(SERVING) != ticket {
        bells.sleep(rt, ticket);
    }
}

/// Learns the latest face, and takes the slot, in which the value is then.
pub fn fetch<V: Kept>(steps: &Steps<V>, place: &mut BoardSeat<V>, ticket: u64)
    requires table { place.old.table_id ≡ steps.now.table_id }
    requires words { steps.now.table_id.words ≡ 3 }
    requires served { place.old.me.0.state ≡ Served ticket }
    ensures table { place.new.table_id ≡ place.old.table_id }
    ensures me { let face = face_by V.log V.events in
        (known : ℕ) × (y : V) × (place.new.me ≡ (with_state (knowing place.old.me.0 known (face y)) (Holding ticket), (0, Some y) ∷ place.old.me.1))
        × Learns place.old.me.0.own (knowledge_at place.old.me.0.own known (face y)) }
{
    steps.load::<Fetch<V>>(place, COUNT);
}

/// Learns the latest face, and answers its number of holds.
pub fn learn<V: Kept>(steps: &Steps<V>, place: &mut BoardSeat<V>) -> u64
    requires table { place.old.table_id ≡ steps.now.table_id }
    requires words { steps.now.table_id.words ≡ 3 }
    requires between { (place.old.me.0.state ≡ Idle) ⊎ (is_holding place.old.me.0.state ≡ true) }
    ensures table { place.new.table_id ≡ place.old.table_id }
    ensures me { (f : _) × (place.new.me ≡ (knowing place.old.me.0 result f, place.old.me.1)) × Learns place.old.me.0.own (knowledge_at place.old.me.0.own result f) }
{
    steps.load::<Learn>(place, COUNT)
}

/// Puts the value back in its slot, counts the hold, and serves the next ticket. Its bell rings then, and that of the ticket that is
/// among the next from now on.
pub fn give_back<V: Kept>(bells: &Bells, steps: &Steps<V>, place: &mut BoardSeat<V>, value: V)
    requires table { place.old.table_id ≡ steps.now.table_id }
    requires words { steps.now.table_id.words ≡ 3 }
    requires holds { is_holding place.old.me.0.state ≡ true }
    requires joined { place.old.me.0.joined ≡ [] }
    requires slot { place.old.me.1 ≡ (0, None) ∷ [] }
    requires log { AddsMarks place.old.me.0.own.number place.old.me.0.own.face.log (V.log value) }
    requires events { OneMore place.old.me.0.own.face.events (V.events value) }
    ensures table { place.new.table_id ≡ place.old.table_id }
    ensures me { place.new.me ≡ (with_state (knowing place.old.me.0 (place.old.me.0.own.known + 1) (face_by V.log V.events value)) Idle, []) }
{
    drop(steps.exchange(place, 0, Some(value)));
    steps.fetch_add::<Count<V>>(place, COUNT, 1);
    let served = steps.fetch_add::<Serve>(place, SERVING, 1);
    let next = served.saturating_add(1);
    bells.ring(next);
    bells.ring(next.saturating_add(AWAKE));
}
