// What no clause says: that calls on an event are answered where there is memory.
ghost use Rattle.std.specs.Prelude.{◌≡◌, ◌≤◌, ◌≢◌, [], ◌∷◌, IfOk, OnOk};
ghost use Rattle.sg_facts.specs.sg_base.declared.value.Value.TheVariants.{Word};
ghost use Rattle.sg_facts.specs.Object.{empty_object};
ghost use Rattle.sg_lock.specs.sg_slots.Slots.{object_of};
ghost use Rattle.sg_event.specs.EventRow.{event_body};

use sg_event::{Event, EventService};
use sg_facts::{Args, Call, Code, NoMemory, Outcome, Reply, Service, Value};
use std::alloc::Global;
use std::test::Fail;
use test_asking::{Once, ask, call};

// What is asked of an event.
#[derive(Clone, Copy, Debug)]
enum Asked {
    Wait,
    Trigger(u64),
    Free,
    Take(u64),
}

// What is answered.
#[derive(Clone, Copy, Debug, PartialEq, Eq)]
enum Answer {
    Done,
    Took(u64),
    Waits,
    Refused(Code),
}

// The answer of an outcome.
fn answer_of(outcome: Outcome) -> Result<Answer, Outcome> {
    match outcome {
        Outcome::Replied { reply, .. } => Ok(answer_in(&reply)),
        Outcome::Blocks => Ok(Answer::Waits),
        other => Err(other),
    }
}

// The answer of a reply: an Ok with a word says how much was taken.
fn answer_in(reply: &Reply) -> Answer {
    match reply {
        Reply::Ok(good) => match good.words.as_slice().first() {
            Some(count) => Answer::Took(*count),
            None => Answer::Done,
        },
        Reply::Refused(code) => Answer::Refused(*code),
    }
}

// A call of a function on the first event, with a number.
fn with_number(alloc: Global, fun: u8, n: u64) -> Result<Call, NoMemory>
    ensures { IfOk result (λ call. call ≡ record { client = 1; seq = 1; fun = fun; desc = 1; args = Word n ∷ [] }) }
{
    let mut args = Args::new(alloc);
    args.push(Value::Word(n))?;
    Ok(Call {
        client: 1,
        seq: 1,
        fun,
        desc: 1,
        args,
    })
}

// Makes the first event.
fn make(service: &mut EventService, alloc: Global) -> Result<(), Outcome>
    requires { object_of event_body service.old.slots ≡ empty_object }
    ensures { OnOk result (object_of event_body service.new.slots
        ≡ object_of event_body (record { entries = (1, record { creator = 1; count = 0 }) ∷ []; given = 1 })) }
{
    match ask(service, alloc, &mut Once::new(0), &call(alloc, 1, 1, 0)) {
        Outcome::Replied {
            reply: Reply::Ok(_),
            ..
        } => Ok(()),
        other => Err(other),
    }
}

// Triggers an event of count 0.
fn raise(service: &mut EventService, alloc: Global, count: u32) -> Result<(), Outcome>
    requires { object_of event_body service.old.slots
        ≡ object_of event_body (record { entries = (1, record { creator = 1; count = 0 }) ∷ []; given = 1 }) }
    ensures { OnOk result (object_of event_body service.new.slots
        ≡ object_of event_body (record { entries = (1, record { creator = 1; count = count }) ∷ []; given = 1 })) }
{
    match with_number(alloc, 3, u64::from(count)) {
        Ok(call) => match ask(service, alloc, &mut Once::new(0), &call) {
            Outcome::Replied {
                reply: Reply::Ok(_),
                ..
            } => Ok(()),
            other => Err(other),
        },
        Err(_) => Err(Outcome::NoMemory),
    }
}

// The outcome of a call on the one event, whose count is as told.
fn outcome(service: &mut EventService, alloc: Global, count: u32, asked: Asked) -> Outcome
    requires { object_of event_body service.old.slots
        ≡ object_of event_body (record { entries = (1, record { creator = 1; count = count }) ∷ []; given = 1 }) }
{
    let call = match asked {
        Asked::Wait => Ok(call(alloc, 2, 2, 1)),
        Asked::Trigger(n) => with_number(alloc, 3, n),
        Asked::Free => Ok(call(alloc, 64, 4, 1)),
        Asked::Take(n) => with_number(alloc, 5, n),
    };
    match call {
        Ok(call) => ask(service, alloc, &mut Once::new(0), &call),
        Err(_) => Outcome::NoMemory,
    }
}

// What an event of a count answers, from a fresh service on, and the count then; None where the event has ended.
fn answered_by(
    service: &mut EventService,
    alloc: Global,
    count: u32,
    asked: Asked,
) -> Result<(Answer, Option<u32>), Outcome>
    requires { object_of event_body service.old.slots ≡ empty_object }
{
    make(service, alloc)?;
    raise(service, alloc, count)?;
    let answer = answer_of(outcome(service, alloc, count, asked))?;
    Ok((answer, service.get(1).map(|event| event.count)))
}

// The same of a service of its own.
fn answered(alloc: Global, count: u32, asked: Asked) -> Result<(Answer, Option<u32>), Outcome> {
    let mut service = EventService::fresh(alloc, ());
    answered_by(&mut service, alloc, count, asked)
}

#[test]
fn answers_at_each_count(rt: HostRuntime) -> Result<(), Fail> {
    const MOST: u32 = 4_294_967_295;
    let over = Answer::Refused(Code::Overflow);
    let cases = [
        (0, Asked::Wait, Answer::Waits, Some(0)),
        (1, Asked::Wait, Answer::Done, Some(0)),
        (MOST, Asked::Wait, Answer::Done, Some(4_294_967_294)),
        (0, Asked::Trigger(0), Answer::Done, Some(0)),
        (0, Asked::Trigger(4_294_967_295), Answer::Done, Some(MOST)),
        (0, Asked::Trigger(4_294_967_296), over, Some(0)),
        (7, Asked::Trigger(4_294_967_288), Answer::Done, Some(MOST)),
        (7, Asked::Trigger(4_294_967_289), over, Some(7)),
        (MOST, Asked::Trigger(0), Answer::Done, Some(MOST)),
        (MOST, Asked::Trigger(1), over, Some(MOST)),
        (MOST, Asked::Trigger(u64::MAX), over, Some(MOST)),
        (0, Asked::Free, Answer::Done, None),
        (MOST, Asked::Free, Answer::Done, None),
        (0, Asked::Take(0), Answer::Took(0), Some(0)),
        (0, Asked::Take(u64::MAX), Answer::Took(0), Some(0)),
        (7, Asked::Take(0), Answer::Took(0), Some(7)),
        (7, Asked::Take(6), Answer::Took(6), Some(1)),
        (7, Asked::Take(7), Answer::Took(7), Some(0)),
        (7, Asked::Take(8), Answer::Took(7), Some(0)),
        (MOST, Asked::Take(1), Answer::Took(1), Some(4_294_967_294)),
        (
            MOST,
            Asked::Take(u64::MAX),
            Answer::Took(4_294_967_295),
            Some(0),
        ),
    ];
    for (count, asked, answer, left) in cases {
        let got = answered(rt.alloc(), count, asked)?;
        assert_eq!(rt; got, (answer, left), "{asked:?} at {count}");
    }
    Ok(())
}

#[test]
fn a_take_never_waits_and_wakes_nobody(rt: HostRuntime) {
    let take = EventService::shape().fun(5);
    assert_eq!(rt; take.name, b"evt_take".as_slice());
    assert_eq!(rt; take.flags, 0);
}
