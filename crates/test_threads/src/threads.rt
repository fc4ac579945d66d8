// What no clause says: that calls on threads are answered where there is memory, and stopped where a point strikes.
ghost use Rattle.std.specs.Prelude.{◌≡◌, ◌+◌, ◌^◌, ◌<◌, ◌≤◌, true, IfOk, OnOk};
ghost use Rattle.test_asking.specs.sg_facts.Kinds.{MayAsk};
ghost use Rattle.test_asking.specs.sg_facts.Track.{arg_at, word_of};
ghost use Rattle.sg_sched.specs.SchedFacts.{sched_facts};
ghost use Rattle.sg_sched.specs.SchedObject.{sched_object};
ghost use Rattle.test_threads.specs.Small.{AreSmall, args_of, is_on};

use sg_sched::SchedService;
use std::alloc::Global;
use std::process::Abort;
use std::test::Fail;
use test_asking::Once;
use test_asking::facts::{Args, Call, Code, Outcome, Reply, Service, Stops, Value};

// A call on threads, each named by its id.
#[derive(Clone, Copy, Debug)]
enum Ask {
    // Of a priority.
    Make(u64),
    Yield(u64),
    Sleep(u64),
    Wake(u64),
    Wait(u64),
    Next,
    // At a rank.
    BoardSeat(u64, u64),
    Exit(u64),
}

// What it is answered.
#[derive(Clone, Copy, Debug, PartialEq, Eq)]
enum Answer {
    // An Ok with a descriptor.
    Done(u64),
    // An Ok with a descriptor and a rank.
    Ranked(u64, u64),
    Refused(Code),
    Waits,
}

// Asks a call, the next after so many.
fn step(
    service: &mut SchedService,
    alloc: Global,
    stops: &mut Once,
    calls: u64,
    call: &Call,
) -> Result<Answer, Outcome>
    requires may { MayAsk sched_facts (sched_object service.old) call.now }
    requires argument { word_of (arg_at call.now 0) ≤ 2 ^ 34 }
    requires small { AreSmall calls (sched_object service.old) }
    ensures { OnOk result (AreSmall (calls + 1) (sched_object service.new)) }
{
    match service.invoke(alloc, stops, call) {
        Outcome::Replied { reply, .. } => match reply {
            Reply::Ok(good) => match good.words.as_slice() {
                [rank, ..] => Ok(Answer::Ranked(good.desc, *rank)),
                [] => Ok(Answer::Done(good.desc)),
            },
            Reply::Refused(code) => Ok(Answer::Refused(code)),
        },
        Outcome::Blocks => Ok(Answer::Waits),
        other => Err(other),
    }
}

// A call of client 1, with a number where one is taken.
fn call(alloc: Global, fun: u8, desc: u64, number: Option<u64>) -> Result<Call, Outcome>
    ensures { IfOk result (λ call. call ≡ record { client = 1; seq = 1; fun = fun; desc = desc; args = args_of number }) }
{
    let mut args = Args::new(alloc);
    if let Some(number) = number {
        match args.push(Value::Word(number)) {
            Ok(()) => {}
            Err(_) => return Err(Outcome::NoMemory),
        }
    }
    Ok(Call {
        client: 1,
        seq: 1,
        fun,
        desc,
        args,
    })
}

// Makes a thread.
fn make(
    service: &mut SchedService,
    alloc: Global,
    stops: &mut Once,
    calls: u64,
    prio: u64,
) -> Result<Answer, Outcome>
    requires prio { prio ≤ 2 ^ 34 }
    requires few { calls < 2 ^ 32 }
    requires small { AreSmall calls (sched_object service.old) }
    ensures { OnOk result (AreSmall (calls + 1) (sched_object service.new)) }
{
    let call = call(alloc, 1, 0, Some(prio))?;
    step(service, alloc, stops, calls, &call)
}

// Asks which thread is next.
fn next(
    service: &mut SchedService,
    alloc: Global,
    stops: &mut Once,
    calls: u64,
) -> Result<Answer, Outcome>
    requires few { calls < 2 ^ 32 }
    requires small { AreSmall calls (sched_object service.old) }
    ensures { OnOk result (AreSmall (calls + 1) (sched_object service.new)) }
{
    let call = call(alloc, 6, 0, None)?;
    step(service, alloc, stops, calls, &call)
}

// Calls a function on a thread that is there.
fn on(
    rt: &impl Abort,
    service: &mut SchedService,
    alloc: Global,
    stops: &mut Once,
    calls: u64,
    fun: u8,
    id: u64,
) -> Result<Answer, Outcome>
    requires fun { is_on fun ≡ true }
    requires few { calls < 2 ^ 32 }
    requires small { AreSmall calls (sched_object service.old) }
    ensures { OnOk result (AreSmall (calls + 1) (sched_object service.new)) }
{
    assert!(rt; service.thread(id).is_some());
    let call = call(alloc, fun, id, None)?;
    step(service, alloc, stops, calls, &call)
}

// Places a thread that is there.
fn place(
    rt: &impl Abort,
    service: &mut SchedService,
    alloc: Global,
    stops: &mut Once,
    calls: u64,
    id: u64,
    rank: u64,
) -> Result<Answer, Outcome>
    requires rank { rank ≤ 2 ^ 34 }
    requires few { calls < 2 ^ 32 }
    requires small { AreSmall calls (sched_object service.old) }
    ensures { OnOk result (AreSmall (calls + 1) (sched_object service.new)) }
{
    assert!(rt; service.thread(id).is_some());
    let call = call(alloc, 7, id, Some(rank))?;
    step(service, alloc, stops, calls, &call)
}

// Makes one call of a table.
fn make_call(
    rt: &impl Abort,
    service: &mut SchedService,
    alloc: Global,
    stops: &mut Once,
    calls: u64,
    what: Ask,
) -> Result<Answer, Outcome>
    requires few { calls < 2 ^ 32 }
    requires small { AreSmall calls (sched_object service.old) }
    ensures { OnOk result (AreSmall (calls + 1) (sched_object service.new)) }
{
    match what {
        Ask::Make(prio) => {
            assert!(rt; prio < 100);
            make(service, alloc, stops, calls, prio)
        }
        Ask::Yield(id) => on(rt, service, alloc, stops, calls, 2, id),
        Ask::Sleep(id) => on(rt, service, alloc, stops, calls, 3, id),
        Ask::Wake(id) => on(rt, service, alloc, stops, calls, 4, id),
        Ask::Wait(id) => on(rt, service, alloc, stops, calls, 5, id),
        Ask::Next => next(service, alloc, stops, calls),
        Ask::BoardSeat(id, rank) => {
            assert!(rt; rank < 100);
            place(rt, service, alloc, stops, calls, id, rank)
        }
        Ask::Exit(id) => on(rt, service, alloc, stops, calls, 8, id),
    }
}

// Plays a table of calls from a fresh service on, each with its answer.
fn play(
    rt: &impl Abort,
    alloc: Global,
    stops: &mut Once,
    table: &[(Ask, Answer)],
) -> Result<SchedService, Fail> {
    let mut service = SchedService::fresh(alloc, ());
    let mut calls = 0;
    'table: for (what, want) in table {
        assert!(rt; calls < 1000);
        let answer = make_call(rt, &mut service, alloc, stops, calls, *what)?;
        assert_eq!(rt; answer, *want, "call {calls}: {what:?}");
        calls += 1;
    }
    Ok(service)
}

#[test]
fn tells_which_is_next(rt: HostRuntime) -> Result<(), Fail> {
    let mut stops = Once::new(0);
    let table = [
        (Ask::Next, Answer::Refused(Code::NotFound)),
        (Ask::Make(5), Answer::Ranked(1, 1)),
        (Ask::Make(3), Answer::Ranked(2, 2)),
        (Ask::Make(3), Answer::Ranked(3, 3)),
        (Ask::Next, Answer::Done(2)),
        (Ask::Yield(2), Answer::Ranked(0, 4)),
        (Ask::Next, Answer::Done(3)),
        (Ask::Yield(1), Answer::Ranked(0, 5)),
        (Ask::Next, Answer::Done(3)),
        (Ask::Exit(3), Answer::Done(0)),
        (Ask::Next, Answer::Done(2)),
        (Ask::Exit(2), Answer::Done(0)),
        (Ask::Next, Answer::Done(1)),
        (Ask::Make(0), Answer::Ranked(4, 6)),
        (Ask::Next, Answer::Done(4)),
        (Ask::Exit(4), Answer::Done(0)),
        (Ask::Exit(1), Answer::Done(0)),
        (Ask::Next, Answer::Refused(Code::NotFound)),
        (Ask::Make(9), Answer::Ranked(5, 1)),
    ];
    let service = play(&rt, rt.alloc(), &mut stops, &table)?;
    assert_eq!(rt; service.live(), 1);
    assert_eq!(rt;
        stops.asked(),
        16,
        "two parts of a making, one of any other change"
    );
    Ok(())
}

#[test]
fn who_waits_is_blocked_while_it_sleeps(rt: HostRuntime) -> Result<(), Fail> {
    let mut stops = Once::new(0);
    let table = [
        (Ask::Make(1), Answer::Ranked(1, 1)),
        (Ask::Make(2), Answer::Ranked(2, 2)),
        (Ask::Wait(1), Answer::Done(0)),
        (Ask::Sleep(1), Answer::Done(0)),
        (Ask::Wait(1), Answer::Waits),
        (Ask::Next, Answer::Done(2)),
        (Ask::Sleep(2), Answer::Done(0)),
        (Ask::Sleep(2), Answer::Done(0)),
        (Ask::Next, Answer::Refused(Code::NotFound)),
        (Ask::Wake(1), Answer::Done(0)),
        (Ask::Wake(1), Answer::Done(0)),
        (Ask::Wait(1), Answer::Done(0)),
        (Ask::Next, Answer::Done(1)),
        (Ask::Yield(2), Answer::Ranked(0, 3)),
        (Ask::Wait(2), Answer::Waits),
        (Ask::Exit(2), Answer::Done(0)),
        (Ask::Make(1), Answer::Ranked(3, 2)),
        (Ask::Next, Answer::Done(1)),
    ];
    let service = play(&rt, rt.alloc(), &mut stops, &table)?;
    assert_eq!(rt; service.live(), 2);
    Ok(())
}

#[test]
fn threads_are_placed(rt: HostRuntime) -> Result<(), Fail> {
    let mut stops = Once::new(0);
    let table = [
        (Ask::Make(3), Answer::Ranked(1, 1)),
        (Ask::Make(3), Answer::Ranked(2, 2)),
        (Ask::BoardSeat(1, 9), Answer::Done(0)),
        (Ask::Next, Answer::Done(2)),
        (Ask::BoardSeat(2, 9), Answer::Done(0)),
        (Ask::Next, Answer::Done(1)),
        (Ask::Sleep(1), Answer::Done(0)),
        (Ask::Next, Answer::Done(2)),
        (Ask::BoardSeat(1, 0), Answer::Done(0)),
        (Ask::Make(3), Answer::Ranked(3, 10)),
        (Ask::BoardSeat(2, 20), Answer::Done(0)),
        (Ask::Next, Answer::Done(3)),
        (Ask::Wake(1), Answer::Done(0)),
        (Ask::Next, Answer::Done(1)),
        (Ask::BoardSeat(2, 5), Answer::Done(0)),
        (Ask::Yield(1), Answer::Ranked(0, 11)),
        (Ask::Next, Answer::Done(2)),
    ];
    let service = play(&rt, rt.alloc(), &mut stops, &table)?;
    for (id, rank) in [(1, 11), (2, 5), (3, 10)] {
        assert_eq!(rt;
            service.thread(id).map(|thread| thread.rank),
            Some(rank),
            "of {id}"
        );
    }
    Ok(())
}

#[test]
fn stops_at_each_part(rt: HostRuntime) -> Result<(), Fail> {
    let alloc = rt.alloc();
    for point in [1, 2] {
        let mut stops = Once::new(point);
        let mut service = SchedService::fresh(alloc, ());
        let stopped = make(&mut service, alloc, &mut stops, 0, 7).err();
        assert!(rt; matches!(stopped, Some(Outcome::Stopped)), "at {point}");
        assert_eq!(rt; stops.asked(), point);
    }
    let mut stops = Once::new(3);
    let mut service = SchedService::fresh(alloc, ());
    make(&mut service, alloc, &mut stops, 0, 7)?;
    let stopped = on(&rt, &mut service, alloc, &mut stops, 1, 3, 1).err();
    assert!(rt; matches!(stopped, Some(Outcome::Stopped)));
    assert_eq!(rt; stops.asked(), 3);
    Ok(())
}
