// The timer service.
ghost use Rattle.std.specs.Prelude.{◌≡◌, ◌==◌, ◌^◌, ◌<◌, ℕ, false, length, IsSome};
ghost use Rattle.std.specs.List.{list_any};
ghost use Rattle.std.specs.Option.{option_map, option_copied};
ghost use Rattle.sg_facts.specs.Facts.{facts_of};
ghost use Rattle.sg_facts.specs.Kinds.{MayAsk};
ghost use Rattle.sg_facts.specs.Track.{row_at, arg_at, word_of};
ghost use Rattle.sg_facts.specs.Inside.Rows.{has_child};
ghost use Rattle.sg_slots.specs.Slots.{row_with, object_of, rows_of};
ghost use Rattle.sg_slots.specs.Decide.{Decides};
ghost use Rattle.sg_timer.specs.TimerFacts.{timer_facts};
ghost use Rattle.sg_timer.specs.TimerTable.{timer_table, timer_parts, tag_of, first_timer, skipped};
ghost use Rattle.sg_timer.specs.TimerRow.{timer_body};
ghost use Rattle.sg_timer.specs.TimerSound.{IsTimerSound};
ghost use Rattle.sg_timer.specs.Laws.TimerAlikeLaw.{timer_answers_alike};
ghost use Rattle.sg_timer.specs.Laws.TimerBlockedLaw.{timer_blocked_stays};
ghost use Rattle.sg_timer.specs.Laws.TimerCountLaw.{timer_counts_slowly};
ghost use Rattle.sg_timer.specs.Laws.TimerShapeLaw.{timer_shape_allows};
ghost use Rattle.sg_timer.specs.Laws.TimerSoundLaw.{timer_answers_and_keeps};
ghost use Rattle.sg_timer.specs.Laws.TimerWalkLaw.{timer_walk_goes_on};
ghost use Rattle.sg_timer.specs.Inside.TimerDecision.{on_create, on_tick, on_timer_wait, on_place, on_first, on_skip, on_free};

use crate::Timer;
use crate::functions::{CREATE, FIRST, PLACE, SKIP, TICK, WAIT};
use crate::shape::timer_shape;
use sg_facts::{Call, Code, LentValue, NoMemory, Outcome, Path, Service, Shape, Stops};
use sg_slots::{Decision, Queue};
use std::alloc::Global;

/// The timer service: it makes, advances and ends timers, and tells which has the least left; who waits for a timer that
/// isn't due is blocked.
#[derive(Debug, Drop)]
pub struct TimerService {
    queue: Queue<Timer>,
}

impl TimerService {
    /// The shape of the service.
    pub fn shape() -> Shape
        ensures { facts_of result ≡ timer_facts }
    {
        timer_shape()
    }

    ghost use Rattle.sg_timer.specs.TimerObject.{timer_object};

    /// The timer of an id, lent; None where no timer has it. Ids count from 1.
    pub fn timer(&self, id: u64) -> Option<&Timer>
        ensures row { row_at (timer_object self.now).rows id ≡ option_map (λ t. row_with id (timer_body t)) (option_copied result) }
        ensures id { IsSome result → 0 < id }
        ensures childless { (parent : ℕ) → 0 < parent → has_child (timer_object self.now).rows parent ≡ false }
    {
        self.queue.get(id)
    }

    /// The number of timers.
    pub fn live(&self) -> usize
        ensures { result ≡ length (timer_object self.now).rows }
    {
        self.queue.len()
    }
}

impl Service for TimerService {
    ghost use Rattle.sg_timer.specs.TimerObject.{timer_object};

    type Image = ();

    ghost facts = { timer_facts };

    ghost object = { timer_object };

    ghost ask = { timer_table };

    ghost parts = { timer_parts };

    ghost sound = { IsTimerSound };

    ghost answers_and_keeps = { timer_answers_and_keeps };

    ghost answers_alike = { timer_answers_alike };

    ghost walk_goes_on = { timer_walk_goes_on };

    ghost blocked_stays = { timer_blocked_stays };

    ghost shape_allows = { timer_shape_allows };

    ghost counts_slowly = { timer_counts_slowly };

    fn fresh(alloc: Global, _: ()) -> Self {
        TimerService {
            queue: Queue::new(alloc),
        }
    }

    fn invoke<T: Stops>(&mut self, alloc: Global, stops: &mut T, call: &Call) -> Outcome {
        let decision = decide(&self.queue, call);
        self.queue.apply(alloc, stops, call.desc, decision)
    }

    fn load(&mut self, _: Global, _: &Path, _: &[u8]) -> Result<(), NoMemory> {
        Ok(())
    }
}

// What to do with a call.
fn decide(queue: &Queue<Timer>, call: &Call) -> Decision<Timer>
    requires { MayAsk timer_facts (object_of timer_body queue.now) call.now }
    ensures { Decides timer_facts timer_table timer_parts timer_body queue.now call.now result }
{
    if call.fun == CREATE {
        let period = number(call, 0);
        let tag = number(call, 1);
        return create(queue, call.client, period, tag);
    }
    if call.fun == FIRST {
        return first(queue);
    }
    match queue.get(call.desc) {
        Some(timer) => match call.fun {
            TICK => tick(timer, number(call, 0)),
            WAIT => wait(timer),
            PLACE => place(timer, number(call, 0)),
            SKIP => skip(timer),
            _ => free(timer, call.client),
        },
        None => unreachable!(),
    }
}

// The number at a place of a call's arguments.
fn number(call: &Call, at: usize) -> u64
    ensures { result ≡ word_of (arg_at call.now at) }
{
    match call.args.get(at) {
        Some(LentValue::Word(n)) => n,
        _ => 0,
    }
}

// Whether a live timer has a tag.
fn is_taken(queue: &Queue<Timer>, tag: u64) -> bool
    ensures { result ≡ list_any (λ r. tag_of r == tag) (rows_of timer_body queue.now.entries) }
{
    queue.has(tag)
}

// The id of the timer that goes before all others; None where there is none.
fn next_timer(queue: &Queue<Timer>) -> Option<u64>
    ensures { result ≡ option_map (λ r. r.id) (first_timer (rows_of timer_body queue.now.entries)) }
{
    queue.first()
}

// Makes a timer that is due after one period.
fn create(queue: &Queue<Timer>, client: u8, period: u64, tag: u64) -> Decision<Timer>
    ensures { result ≡ on_create client period tag (list_any (λ r. tag_of r == tag) (rows_of timer_body queue.now.entries)) }
{
    if period > u64::from(u32::MAX) {
        return Decision::Refuse(Code::TooBig);
    }
    if is_taken(queue, tag) {
        return Decision::Refuse(Code::Occupied);
    }
    Decision::Enlist {
        entry: Timer {
            owner: client,
            period: period as u32,
            tag,
            time: 0,
            due: period,
        },
        word: Some(period),
    }
}

// Advances the clock of a timer: refused where it would pass the greatest time.
fn tick(timer: &Timer, ticks: u64) -> Decision<Timer>
    ensures { result ≡ on_tick timer.now ticks }
{
    if ticks > u64::from(u32::MAX - timer.time) {
        return Decision::Refuse(Code::Overflow);
    }
    Decision::Set {
        entry: Timer {
            time: timer.time + ticks as u32,
            ..*timer
        },
        word: None,
    }
}

// Waits until a timer is due, and puts it off by a period.
fn wait(timer: &Timer) -> Decision<Timer>
    ensures { result ≡ on_timer_wait timer.now }
{
    if u64::from(timer.time) < timer.due {
        return Decision::Block;
    }
    let period = u64::from(timer.period);
    Decision::Set {
        entry: Timer {
            due: timer.due + period,
            ..*timer
        },
        word: Some(period),
    }
}

// Sets when a timer is due.
fn place(timer: &Timer, due: u64) -> Decision<Timer>
    ensures { result ≡ on_place timer.now due }
{
    Decision::Set {
        entry: Timer { due, ..*timer },
        word: None,
    }
}

// Tells which timer has the least left.
fn first(queue: &Queue<Timer>) -> Decision<Timer>
    ensures { result ≡ on_first (option_map (λ r. r.id) (first_timer (rows_of timer_body queue.now.entries))) }
{
    match next_timer(queue) {
        Some(desc) => Decision::Keep { desc, word: None },
        None => Decision::Refuse(Code::NotFound),
    }
}

// Puts a timer off by as many whole periods as take it past its clock, and answers by how much.
fn skip(timer: &Timer) -> Decision<Timer>
    ensures { result ≡ on_skip timer.now }
{
    let ticks = put_off(timer);
    Decision::Set {
        entry: Timer {
            due: timer.due + ticks,
            ..*timer
        },
        word: Some(ticks),
    }
}

// By how much a skip puts a timer off: not at all before it is due, or where it has no period.
fn put_off(timer: &Timer) -> u64
    ensures { result ≡ skipped timer.now.time timer.now.due timer.now.period }
{
    let time = u64::from(timer.time);
    let period = u64::from(timer.period);
    if time < timer.due || period == 0 {
        return 0;
    }
    period * ((time - timer.due) / period + 1)
}

// Ends a timer, for its owner alone.
fn free(timer: &Timer, client: u8) -> Decision<Timer>
    ensures { result ≡ on_free timer.now client }
{
    if timer.owner == client {
        Decision::Remove
    } else {
        Decision::Refuse(Code::NotOwner)
    }
}
