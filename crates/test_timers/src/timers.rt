// What no clause says: that calls on timers are answered where there is memory, and stopped where a point strikes.
ghost use Rattle.std.specs.Prelude.{◌≡◌, ◌+◌, ◌^◌, ◌<◌, ◌≤◌, true, [], ◌∷◌, length, IfOk, OnOk};
ghost use Rattle.test_asking.specs.sg_facts.sg_base.declared.value.Value.TheVariants.{Word};
ghost use Rattle.test_asking.specs.sg_facts.Kinds.{MayAsk};
ghost use Rattle.test_asking.specs.sg_facts.Laws.{Passes};
ghost use Rattle.sg_timer.specs.TimerFacts.{timer_facts};
ghost use Rattle.sg_timer.specs.TimerObject.{timer_object};
ghost use Rattle.test_timers.specs.Small.{AreSmall, args_of, is_on};

use sg_timer::TimerService;
use std::alloc::Global;
use std::process::Abort;
use std::test::Fail;
use test_asking::facts::{Args, Call, Code, Outcome, Reply, Service, Stops, Value};
use test_asking::{Once, ask};

// A call on timers, each named by its id. All are calls of client 1 but an end.
#[derive(Clone, Copy, Debug)]
enum Asked {
    // Of a period and a tag.
    Make(u64, u64),
    // By so many ticks.
    Tick(u64, u64),
    Wait(u64),
    First,
    Skip(u64),
    // By a client.
    Free(u64, u8),
}

// What it is answered.
#[derive(Clone, Copy, Debug, PartialEq, Eq)]
enum Answer {
    // An Ok with a descriptor.
    Done(u64),
    // An Ok with a descriptor and a number of ticks.
    Told(u64, u64),
    Refused(Code),
    Waits,
}

// A call, and its answer.
type Line = (Asked, Answer);

// A service without timers.
fn fresh(alloc: Global) -> TimerService
    ensures { AreSmall 0 (timer_object result) }
{
    TimerService::fresh(alloc, ())
}

// Asks a call, the next after so many.
fn step(
    service: &mut TimerService,
    alloc: Global,
    stops: &mut Once,
    calls: u64,
    call: &Call,
) -> Result<Answer, Outcome>
    requires may { MayAsk timer_facts (timer_object service.old) call.now }
    requires passes { Passes timer_facts (timer_object service.old) call.now }
    requires small { AreSmall calls (timer_object service.old) }
    ensures { OnOk result (AreSmall (calls + 1) (timer_object service.new)) }
{
    match service.invoke(alloc, stops, call) {
        Outcome::Replied { reply, .. } => match reply {
            Reply::Ok(good) => match good.words.as_slice() {
                [ticks, ..] => Ok(Answer::Told(good.desc, *ticks)),
                [] => Ok(Answer::Done(good.desc)),
            },
            Reply::Refused(code) => Ok(Answer::Refused(code)),
        },
        Outcome::Blocks => Ok(Answer::Waits),
        other => Err(other),
    }
}

// A call with a number where one is taken.
fn call(alloc: Global, client: u8, fun: u8, desc: u64, number: Option<u64>) -> Result<Call, Outcome>
    ensures { IfOk result (λ call. call ≡ record { client = client; seq = 1; fun = fun; desc = desc; args = args_of number }) }
{
    let mut args = Args::new(alloc);
    if let Some(number) = number {
        match args.push(Value::Word(number)) {
            Ok(()) => {}
            Err(_) => return Err(Outcome::NoMemory),
        }
    }
    Ok(Call {
        client,
        seq: 1,
        fun,
        desc,
        args,
    })
}

// The call that makes a timer.
fn making(alloc: Global, period: u64, tag: u64) -> Result<Call, Outcome>
    ensures { IfOk result (λ call. call ≡ record { client = 1; seq = 1; fun = 1; desc = 0; args = Word period ∷ Word tag ∷ [] }) }
{
    let mut args = Args::new(alloc);
    match args.push(Value::Word(period)) {
        Ok(()) => {}
        Err(_) => return Err(Outcome::NoMemory),
    }
    match args.push(Value::Word(tag)) {
        Ok(()) => {}
        Err(_) => return Err(Outcome::NoMemory),
    }
    Ok(Call {
        client: 1,
        seq: 1,
        fun: 1,
        desc: 0,
        args,
    })
}

// Makes a timer.
fn make(
    service: &mut TimerService,
    alloc: Global,
    stops: &mut Once,
    calls: u64,
    period: u64,
    tag: u64,
) -> Result<Answer, Outcome>
    requires period { period < 2 ^ 64 }
    requires tag { tag < 2 ^ 64 }
    requires room { length (timer_object service.old).rows < 1024 }
    requires few { calls < 2 ^ 32 }
    requires small { AreSmall calls (timer_object service.old) }
    ensures { OnOk result (AreSmall (calls + 1) (timer_object service.new)) }
{
    let call = making(alloc, period, tag)?;
    step(service, alloc, stops, calls, &call)
}

// Asks which timer has the least left.
fn first(
    service: &mut TimerService,
    alloc: Global,
    stops: &mut Once,
    calls: u64,
) -> Result<Answer, Outcome>
    requires few { calls < 2 ^ 32 }
    requires small { AreSmall calls (timer_object service.old) }
    ensures { OnOk result (AreSmall (calls + 1) (timer_object service.new)) }
{
    let call = call(alloc, 1, 5, 0, None)?;
    step(service, alloc, stops, calls, &call)
}

// Advances the clock of a timer that is there.
fn tick(
    rt: &impl Abort,
    service: &mut TimerService,
    alloc: Global,
    stops: &mut Once,
    calls: u64,
    id: u64,
    ticks: u64,
) -> Result<Answer, Outcome>
    requires ticks { ticks < 2 ^ 64 }
    requires few { calls < 2 ^ 32 }
    requires small { AreSmall calls (timer_object service.old) }
    ensures { OnOk result (AreSmall (calls + 1) (timer_object service.new)) }
{
    assert!(rt; service.timer(id).is_some());
    let call = call(alloc, 1, 2, id, Some(ticks))?;
    step(service, alloc, stops, calls, &call)
}

// Calls a function without a number on a timer that is there.
fn on(
    rt: &impl Abort,
    service: &mut TimerService,
    alloc: Global,
    stops: &mut Once,
    calls: u64,
    client: u8,
    fun: u8,
    id: u64,
) -> Result<Answer, Outcome>
    requires first { 1 ≤ client }
    requires last { client ≤ 64 }
    requires fun { is_on fun ≡ true }
    requires few { calls < 2 ^ 32 }
    requires small { AreSmall calls (timer_object service.old) }
    ensures { OnOk result (AreSmall (calls + 1) (timer_object service.new)) }
{
    assert!(rt; service.timer(id).is_some());
    let call = call(alloc, client, fun, id, None)?;
    step(service, alloc, stops, calls, &call)
}

// Sets when a timer that is there is due. What it leaves isn't followed: no client places a timer.
fn place(
    rt: &impl Abort,
    service: &mut TimerService,
    alloc: Global,
    stops: &mut Once,
    calls: u64,
    id: u64,
    due: u64,
) -> Result<Outcome, Outcome>
    requires few { calls < 2 ^ 32 }
    requires small { AreSmall calls (timer_object service.old) }
{
    assert!(rt; service.timer(id).is_some());
    let call = call(alloc, 1, 4, id, Some(due))?;
    Ok(ask(service, alloc, stops, &call))
}

// Makes one call of a table.
fn make_call(
    rt: &impl Abort,
    service: &mut TimerService,
    alloc: Global,
    stops: &mut Once,
    calls: u64,
    what: Asked,
) -> Result<Answer, Outcome>
    requires few { calls < 2 ^ 32 }
    requires small { AreSmall calls (timer_object service.old) }
    ensures { OnOk result (AreSmall (calls + 1) (timer_object service.new)) }
{
    match what {
        Asked::Make(period, tag) => {
            assert!(rt; service.live() < 1000);
            make(service, alloc, stops, calls, period, tag)
        }
        Asked::Tick(id, ticks) => tick(rt, service, alloc, stops, calls, id, ticks),
        Asked::Wait(id) => on(rt, service, alloc, stops, calls, 1, 3, id),
        Asked::First => first(service, alloc, stops, calls),
        Asked::Skip(id) => on(rt, service, alloc, stops, calls, 1, 6, id),
        Asked::Free(id, client) => {
            assert!(rt; client >= 1);
            assert!(rt; client <= 64);
            on(rt, service, alloc, stops, calls, client, 7, id)
        }
    }
}

// Plays a table of calls from a fresh service on, each with its answer.
fn play(
    rt: &impl Abort,
    alloc: Global,
    stops: &mut Once,
    table: &[Line],
) -> Result<TimerService, Fail> {
    let mut service = fresh(alloc);
    let mut calls = 0;
    'table: for (what, want) in table {
        assert!(rt; calls < 1000);
        let answer = make_call(rt, &mut service, alloc, stops, calls, *what)?;
        assert_eq!(rt; answer, *want, "call {calls}: {what:?}");
        calls += 1;
    }
    Ok(service)
}

// The greatest period, and the greatest time of a clock; one more, and twice as much.
const MOST: u64 = 4_294_967_295;

const OVER: u64 = 4_294_967_296;

const TWICE: u64 = 8_589_934_590;

// Timers made and ended.
static MADE_AND_ENDED: [Line; 16] = [
    (Asked::First, Answer::Refused(Code::NotFound)),
    (Asked::Make(OVER, 1), Answer::Refused(Code::TooBig)),
    (Asked::Make(u64::MAX, 1), Answer::Refused(Code::TooBig)),
    (Asked::Make(MOST, 1), Answer::Told(1, MOST)),
    // a period that is too great goes before a tag that is taken
    (Asked::Make(OVER, 1), Answer::Refused(Code::TooBig)),
    (Asked::Make(0, 1), Answer::Refused(Code::Occupied)),
    (Asked::Make(0, u64::MAX), Answer::Told(2, 0)),
    (Asked::Make(5, u64::MAX), Answer::Refused(Code::Occupied)),
    (Asked::Free(2, 2), Answer::Refused(Code::NotOwner)),
    (Asked::Free(2, 1), Answer::Done(0)),
    // its tag is free again, and ids go on
    (Asked::Make(5, u64::MAX), Answer::Told(3, 5)),
    (Asked::Free(1, 64), Answer::Refused(Code::NotOwner)),
    (Asked::Free(1, 1), Answer::Done(0)),
    (Asked::First, Answer::Done(3)),
    (Asked::Free(3, 1), Answer::Done(0)),
    (Asked::First, Answer::Refused(Code::NotFound)),
];

#[test]
fn makes_and_ends(rt: HostRuntime) -> Result<(), Fail> {
    let mut stops = Once::new(0);
    let service = play(&rt, rt.alloc(), &mut stops, &MADE_AND_ENDED)?;
    assert_eq!(rt; service.live(), 0);
    assert_eq!(rt; stops.asked(), 12, "three parts of a making, one of an end");
    Ok(())
}

// Waits for timers, before they are due and then.
static WAITED: [Line; 19] = [
    (Asked::Make(2, 1), Answer::Told(1, 2)),
    (Asked::Wait(1), Answer::Waits),
    (Asked::Tick(1, 1), Answer::Done(0)),
    (Asked::Wait(1), Answer::Waits),
    (Asked::Tick(1, 1), Answer::Done(0)),
    (Asked::Wait(1), Answer::Told(0, 2)),
    (Asked::Wait(1), Answer::Waits),
    // at 11 it is due for the fourth time: since 4, 6, 8 and 10
    (Asked::Tick(1, 9), Answer::Done(0)),
    (Asked::Wait(1), Answer::Told(0, 2)),
    (Asked::Wait(1), Answer::Told(0, 2)),
    (Asked::Wait(1), Answer::Told(0, 2)),
    (Asked::Wait(1), Answer::Told(0, 2)),
    (Asked::Wait(1), Answer::Waits),
    // one without a period is due from the start, and stays so
    (Asked::Make(0, 2), Answer::Told(2, 0)),
    (Asked::Wait(2), Answer::Told(0, 0)),
    (Asked::Tick(2, 5), Answer::Done(0)),
    (Asked::Wait(2), Answer::Told(0, 0)),
    (Asked::Skip(2), Answer::Told(0, 0)),
    (Asked::Wait(2), Answer::Told(0, 0)),
];

#[test]
fn who_waits_is_blocked_until_it_is_due(rt: HostRuntime) -> Result<(), Fail> {
    let mut stops = Once::new(0);
    let service = play(&rt, rt.alloc(), &mut stops, &WAITED)?;
    assert_eq!(rt; service.timer(1).map(|timer| timer.due), Some(12));
    assert_eq!(rt; service.timer(2).map(|timer| timer.due), Some(0));
    Ok(())
}

// Skips of a timer.
static SKIPPED: [Line; 12] = [
    (Asked::Make(7, 1), Answer::Told(1, 7)),
    (Asked::Skip(1), Answer::Told(0, 0)),
    (Asked::Tick(1, 6), Answer::Done(0)),
    (Asked::Skip(1), Answer::Told(0, 0)),
    // just when it is due, it is put off by one period
    (Asked::Tick(1, 1), Answer::Done(0)),
    (Asked::Skip(1), Answer::Told(0, 7)),
    (Asked::Skip(1), Answer::Told(0, 0)),
    // one tick before two periods have gone by, and just then
    (Asked::Tick(1, 13), Answer::Done(0)),
    (Asked::Skip(1), Answer::Told(0, 7)),
    (Asked::Tick(1, 8), Answer::Done(0)),
    (Asked::Skip(1), Answer::Told(0, 14)),
    (Asked::Wait(1), Answer::Waits),
];

#[test]
fn skips_past_the_clock(rt: HostRuntime) -> Result<(), Fail> {
    let mut stops = Once::new(0);
    let service = play(&rt, rt.alloc(), &mut stops, &SKIPPED)?;
    assert_eq!(rt; service.timer(1).map(|timer| timer.left()), Some(7));
    assert_eq!(rt; stops.asked(), 13);
    Ok(())
}

// Clocks that run to their end.
static RUN_TO_THE_END: [Line; 23] = [
    (Asked::Make(3, 1), Answer::Told(1, 3)),
    (Asked::Tick(1, OVER), Answer::Refused(Code::Overflow)),
    (Asked::Tick(1, u64::MAX), Answer::Refused(Code::Overflow)),
    (Asked::Tick(1, 4_294_967_294), Answer::Done(0)),
    (Asked::Tick(1, 2), Answer::Refused(Code::Overflow)),
    (Asked::Tick(1, 1), Answer::Done(0)),
    (Asked::Tick(1, 1), Answer::Refused(Code::Overflow)),
    (Asked::Tick(1, 0), Answer::Done(0)),
    (Asked::Wait(1), Answer::Told(0, 3)),
    // 4,294,967,289 ticks behind, which are 1,431,655,763 periods
    (Asked::Skip(1), Answer::Told(0, 4_294_967_292)),
    (Asked::Wait(1), Answer::Waits),
    (Asked::Make(1, 2), Answer::Told(2, 1)),
    (Asked::Tick(2, MOST), Answer::Done(0)),
    (Asked::Skip(2), Answer::Told(0, MOST)),
    (Asked::Wait(2), Answer::Waits),
    // due at the greatest time, and put off past it
    (Asked::Make(MOST, 3), Answer::Told(3, MOST)),
    (Asked::Tick(3, MOST), Answer::Done(0)),
    (Asked::Skip(3), Answer::Told(0, MOST)),
    (Asked::Wait(3), Answer::Waits),
    (Asked::Make(MOST, 4), Answer::Told(4, MOST)),
    (Asked::Tick(4, MOST), Answer::Done(0)),
    (Asked::Wait(4), Answer::Told(0, MOST)),
    (Asked::Wait(4), Answer::Waits),
];

#[test]
fn clocks_run_to_their_end(rt: HostRuntime) -> Result<(), Fail> {
    let mut stops = Once::new(0);
    let service = play(&rt, rt.alloc(), &mut stops, &RUN_TO_THE_END)?;
    for (id, due) in [(1, 4_294_967_298), (2, OVER), (3, TWICE), (4, TWICE)] {
        assert_eq!(rt;
            service.timer(id).map(|timer| timer.due),
            Some(due),
            "of {id}"
        );
    }
    Ok(())
}

// Which timer is first.
static FIRSTS: [Line; 22] = [
    (Asked::Make(9, 5), Answer::Told(1, 9)),
    (Asked::First, Answer::Done(1)),
    (Asked::Make(4, 9), Answer::Told(2, 4)),
    (Asked::First, Answer::Done(2)),
    // as much is left of 3 as of 2, and its tag is less
    (Asked::Make(4, 8), Answer::Told(3, 4)),
    (Asked::First, Answer::Done(3)),
    (Asked::Tick(1, 5), Answer::Done(0)),
    (Asked::First, Answer::Done(1)),
    (Asked::Tick(3, 1), Answer::Done(0)),
    (Asked::First, Answer::Done(3)),
    // one that has ended isn't looked at
    (Asked::Free(3, 1), Answer::Done(0)),
    (Asked::First, Answer::Done(1)),
    (Asked::Tick(2, 100), Answer::Done(0)),
    (Asked::First, Answer::Done(2)),
    // nothing is left of either, so the tag decides, and not which is due for longer
    (Asked::Tick(1, 20), Answer::Done(0)),
    (Asked::First, Answer::Done(1)),
    (Asked::Wait(1), Answer::Told(0, 9)),
    (Asked::First, Answer::Done(1)),
    (Asked::Skip(1), Answer::Told(0, 9)),
    (Asked::First, Answer::Done(2)),
    (Asked::Free(2, 1), Answer::Done(0)),
    (Asked::First, Answer::Done(1)),
];

#[test]
fn tells_which_is_first(rt: HostRuntime) -> Result<(), Fail> {
    let mut stops = Once::new(0);
    let service = play(&rt, rt.alloc(), &mut stops, &FIRSTS)?;
    assert_eq!(rt; service.live(), 1);
    assert_eq!(rt; service.timer(1).map(|timer| timer.left()), Some(2));
    Ok(())
}

// Makes a timer that is due at once, and then a call that is stopped: how many points were asked.
fn asked_before(rt: &impl Abort, alloc: Global, point: u64, what: Asked) -> Result<u64, Fail> {
    let mut stops = Once::new(point);
    let mut service = fresh(alloc);
    make_call(rt, &mut service, alloc, &mut stops, 0, Asked::Make(0, 7))?;
    let stopped = make_call(rt, &mut service, alloc, &mut stops, 1, what).err();
    assert!(rt;
        matches!(stopped, Some(Outcome::Stopped)),
        "{what:?} at {point}"
    );
    Ok(stops.asked())
}

#[test]
fn stops_at_each_part(rt: HostRuntime) -> Result<(), Fail> {
    for (what, first, last) in [
        (Asked::Make(0, 8), 4, 6),
        (Asked::Tick(1, 3), 4, 4),
        (Asked::Wait(1), 4, 4),
        (Asked::Skip(1), 4, 4),
        (Asked::Free(1, 1), 4, 4),
    ] {
        for point in first..last + 1 {
            let asked = asked_before(&rt, rt.alloc(), point, what)?;
            assert_eq!(rt; asked, point, "{what:?}");
        }
    }
    Ok(())
}

// Makes a timer and places it: when it is due afterwards; None where the call is stopped.
fn placed(rt: &impl Abort, alloc: Global, point: u64, due: u64) -> Result<Option<u64>, Fail> {
    let mut stops = Once::new(point);
    let mut service = fresh(alloc);
    make_call(rt, &mut service, alloc, &mut stops, 0, Asked::Make(5, 7))?;
    let outcome = place(rt, &mut service, alloc, &mut stops, 1, 1, due)?;
    assert_eq!(rt; stops.asked(), 4);
    let stopped = matches!(outcome, Outcome::Stopped);
    let due = service.timer(1).map(|timer| timer.due);
    Ok(if stopped { None } else { due })
}

#[test]
fn timers_are_placed(rt: HostRuntime) -> Result<(), Fail> {
    for (point, due, want) in [
        (0, 0, Some(0)),
        (0, TWICE, Some(TWICE)),
        (0, u64::MAX, Some(u64::MAX)),
        (4, 9, None),
    ] {
        let got = placed(&rt, rt.alloc(), point, due)?;
        assert_eq!(rt; got, want, "at {due}");
    }
    Ok(())
}
