// The event service.
ghost use Rattle.std.specs.Prelude.{◌≡◌, refl};
ghost use Rattle.sg_facts.specs.Track.{arg_at, word_of};
ghost use Rattle.sg_event.specs.EventModel.{event_model};
ghost use Rattle.sg_event.specs.Inside.EventDecision.{on_split, on_event_wait, on_take, on_trigger, set_count};

use crate::Event;
use crate::functions::{SPLIT, TAKE, TRIGGER, WAIT};
use crate::shape::event_shape;
use sg_facts::{Call, Code, LentValue, Shape};
use sg_slots::{Decision, RowRules, RowService, Slots};

/// The event service: it makes, triggers, takes from and ends events, and blocks who waits for one whose count is 0.
pub type EventService = RowService<Event>;

impl RowRules for Event {
    ghost model = { event_model };

    fn shape() -> Shape {
        event_shape()
    }

    fn decide(events: &Slots<Self>, call: &Call) -> Decision<Self> {
        if call.fun == SPLIT {
            return split(call.client);
        }
        match events.get(call.desc) {
            Some(event) => match call.fun {
                WAIT => wait(event),
                TRIGGER => trigger(event, number(call)),
                TAKE => take(event, number(call)),
                _ => Decision::Remove,
            },
            None => unreachable!(),
        }
    }

    ghost alone = { λ event. refl };
}

// Makes an event that nobody triggered.
fn split(client: u8) -> Decision<Event>
    ensures { result ≡ on_split client }
{
    Decision::Make {
        entry: Event {
            creator: client,
            count: 0,
        },
        word: None,
    }
}

// Takes one from the count of an event: put off while it is 0.
fn wait(event: &Event) -> Decision<Event>
    ensures { result ≡ on_event_wait event.now }
{
    if event.count == 0 {
        Decision::Block
    } else {
        counted(event, event.count - 1)
    }
}

// Adds to the count of an event: refused where it would pass the greatest.
fn trigger(event: &Event, n: u64) -> Decision<Event>
    ensures { result ≡ on_trigger event.now n }
{
    if n > u64::from(u32::MAX - event.count) {
        Decision::Refuse(Code::Overflow)
    } else {
        counted(event, event.count + n as u32)
    }
}

// Takes from the count of an event, and answers how much: all that it is asked for, or all that there is.
fn take(event: &Event, n: u64) -> Decision<Event>
    ensures { result ≡ on_take event.now n }
{
    let taken = n.min(u64::from(event.count));
    Decision::Set {
        entry: Event {
            count: event.count - taken as u32,
            ..*event
        },
        word: Some(taken),
    }
}

// The number that a trigger adds, or that a take asks for.
fn number(call: &Call) -> u64
    ensures { result ≡ word_of (arg_at call.now 0) }
{
    match call.args.get(0) {
        Some(LentValue::Word(n)) => n,
        _ => 0,
    }
}

// Sets the count of an event.
fn counted(event: &Event, count: u32) -> Decision<Event>
    ensures { result ≡ set_count event.now count }
{
    Decision::Set {
        entry: Event { count, ..*event },
        word: None,
    }
}
