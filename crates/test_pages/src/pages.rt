// What no clause says: that calls on pages are answered where there is memory.
ghost use Rattle.std.specs.Prelude.{◌≡◌, [], ◌∷◌, IfOk};
ghost use Rattle.test_asking.specs.sg_facts.sg_base.declared.value.Value.TheVariants.{Word};

use sg_mm::MmService;
use std::alloc::Global;
use std::test::Fail;
use test_asking::facts::{Args, Call, Code, NoMemory, Outcome, Reply, Service, Stops, Value};
use test_asking::{Once, ask, call};

// What is asked.
#[derive(Clone, Copy, Debug)]
enum Asked {
    Get { client: u8, addr: u64 },
    Alias { parent: u64, space: u64, addr: u64 },
    Release(u64),
    Find { space: u64, addr: u64 },
}

// What is answered. A call on a page that isn't there isn't asked: the guard refuses it.
#[derive(Clone, Copy, Debug, PartialEq, Eq)]
enum Answer {
    Done(u64),
    Refused(Code),
    Unasked,
    Stopped,
    Other,
}

// The answer of an outcome.
fn answer_of(outcome: &Outcome) -> Answer {
    match outcome {
        Outcome::Replied {
            reply: Reply::Ok(good),
            patch: None,
        } => Answer::Done(good.desc),
        Outcome::Replied {
            reply: Reply::Refused(code),
            patch: None,
        } => Answer::Refused(*code),
        Outcome::Stopped => Answer::Stopped,
        _ => Answer::Other,
    }
}

// A call with one number.
fn with_one(alloc: Global, client: u8, fun: u8, n: u64) -> Result<Call, NoMemory>
    ensures { IfOk result (λ call. call ≡ record { client = client; seq = 1; fun = fun; desc = 0; args = Word n ∷ [] }) }
{
    let mut args = Args::new(alloc);
    args.push(Value::Word(n))?;
    Ok(Call {
        client,
        seq: 1,
        fun,
        desc: 0,
        args,
    })
}

// A call of the first client with two numbers.
fn with_two(alloc: Global, fun: u8, desc: u64, m: u64, n: u64) -> Result<Call, NoMemory>
    ensures { IfOk result (λ call. call ≡ record { client = 1; seq = 1; fun = fun; desc = desc; args = Word m ∷ Word n ∷ [] }) }
{
    let mut args = Args::new(alloc);
    args.push(Value::Word(m))?;
    args.push(Value::Word(n))?;
    Ok(Call {
        client: 1,
        seq: 1,
        fun,
        desc,
        args,
    })
}

// Asks for a page in the caller's space.
fn get(service: &mut MmService, alloc: Global, stops: &mut Once, client: u8, addr: u64) -> Answer {
    let given = service.given();
    if given >= 2000 || client == 0 || client > 64 {
        return Answer::Other;
    }
    match with_one(alloc, client, 1, addr) {
        Ok(call) => answer_of(&ask(service, alloc, stops, &call)),
        Err(_) => Answer::Other,
    }
}

// Asks for a page below another.
fn alias(
    service: &mut MmService,
    alloc: Global,
    stops: &mut Once,
    parent: u64,
    space: u64,
    addr: u64,
) -> Answer {
    let given = service.given();
    if given >= 2000 {
        return Answer::Other;
    }
    if service.page(parent).is_none() {
        return Answer::Unasked;
    }
    match with_two(alloc, 2, parent, space, addr) {
        Ok(call) => answer_of(&ask(service, alloc, stops, &call)),
        Err(_) => Answer::Other,
    }
}

// Asks for the end of a page.
fn release(service: &mut MmService, alloc: Global, stops: &mut Once, id: u64) -> Answer {
    let given = service.given();
    if given >= 2000 {
        return Answer::Other;
    }
    if service.page(id).is_none() {
        return Answer::Unasked;
    }
    answer_of(&ask(service, alloc, stops, &call(alloc, 64, 3, id)))
}

// Asks which page is in a place.
fn find(service: &mut MmService, alloc: Global, stops: &mut Once, space: u64, addr: u64) -> Answer {
    let given = service.given();
    if given >= 2000 {
        return Answer::Other;
    }
    match with_two(alloc, 4, 0, space, addr) {
        Ok(call) => answer_of(&ask(service, alloc, stops, &call)),
        Err(_) => Answer::Other,
    }
}

// Asks.
fn tried(service: &mut MmService, alloc: Global, stops: &mut Once, asked: Asked) -> Answer {
    match asked {
        Asked::Get { client, addr } => get(service, alloc, stops, client, addr),
        Asked::Alias {
            parent,
            space,
            addr,
        } => alias(service, alloc, stops, parent, space, addr),
        Asked::Release(id) => release(service, alloc, stops, id),
        Asked::Find { space, addr } => find(service, alloc, stops, space, addr),
    }
}

// A page of a client, and one below another.
fn of(client: u8, addr: u64) -> Asked {
    Asked::Get { client, addr }
}

fn below(parent: u64, space: u64, addr: u64) -> Asked {
    Asked::Alias {
        parent,
        space,
        addr,
    }
}

// The page in a place.
fn at(space: u64, addr: u64) -> Asked {
    Asked::Find { space, addr }
}

#[test]
fn answers_one_by_one(rt: HostRuntime) -> Result<(), Fail> {
    let alloc = rt.alloc();
    let mut stops = Once::new(0);
    let mut service = MmService::fresh(alloc, ());
    for (asked, answer) in [
        (of(1, 4096), Answer::Done(1)),
        (of(1, 4096), Answer::Refused(Code::Occupied)),
        (of(2, 4096), Answer::Done(2)),
        (below(1, 2, 4096), Answer::Refused(Code::Occupied)),
        (below(1, 2, 8192), Answer::Done(3)),
        (below(3, 3, u64::MAX), Answer::Done(4)),
        (at(2, 8192), Answer::Done(3)),
        (at(8192, 2), Answer::Refused(Code::NotFound)),
        (at(3, u64::MAX), Answer::Done(4)),
        (Asked::Release(3), Answer::Done(0)),
        (at(2, 8192), Answer::Refused(Code::NotFound)),
        (at(3, u64::MAX), Answer::Refused(Code::NotFound)),
        (below(3, 1, 0), Answer::Unasked),
        (Asked::Release(4), Answer::Unasked),
        (below(1, 2, 8192), Answer::Done(5)),
        (at(2, 8192), Answer::Done(5)),
        (Asked::Release(2), Answer::Done(0)),
        (at(1, 4096), Answer::Done(1)),
        (at(2, 4096), Answer::Refused(Code::NotFound)),
    ] {
        let got = tried(&mut service, alloc, &mut stops, asked);
        assert_eq!(rt; got, answer, "{asked:?}");
    }
    assert_eq!(rt; service.live(), 2);
    assert_eq!(rt; service.given(), 5);
    assert_eq!(rt; service.page(5).map(|page| page.parent), Some(1));
    assert_eq!(rt; stops.asked(), 17);
    Ok(())
}

#[test]
fn a_thousand_end_at_once(rt: HostRuntime) -> Result<(), Fail> {
    let alloc = rt.alloc();
    let mut stops = Once::new(0);
    let mut service = MmService::fresh(alloc, ());
    assert_eq!(rt; get(&mut service, alloc, &mut stops, 1, 0), Answer::Done(1));
    for n in 1..1000 {
        let made = alias(&mut service, alloc, &mut stops, n / 3 * 2 + 1, 1, n);
        assert_eq!(rt; made, Answer::Done(n + 1));
    }
    assert_eq!(rt;
        get(&mut service, alloc, &mut stops, 2, 0),
        Answer::Done(1001)
    );
    let gone = release(&mut service, alloc, &mut stops, 1);
    assert_eq!(rt; gone, Answer::Done(0));
    assert_eq!(rt; service.live(), 1);
    for n in 0..1000 {
        let found = find(&mut service, alloc, &mut stops, 1, n);
        assert_eq!(rt; found, Answer::Refused(Code::NotFound), "at {n}");
    }
    let found = find(&mut service, alloc, &mut stops, 2, 0);
    assert_eq!(rt; found, Answer::Done(1001));
    Ok(())
}

#[test]
fn stops_at_each_part(rt: HostRuntime) -> Result<(), Fail> {
    let alloc = rt.alloc();
    for (asked, first, last) in [
        (of(1, 8), 3, 4),
        (below(1, 1, 8), 3, 5),
        (Asked::Release(1), 3, 4),
    ] {
        for point in first..last + 1 {
            let mut stops = Once::new(point);
            let mut service = MmService::fresh(alloc, ());
            let made = tried(&mut service, alloc, &mut stops, of(1, 0));
            assert_eq!(rt; made, Answer::Done(1));
            let got = tried(&mut service, alloc, &mut stops, asked);
            assert_eq!(rt; got, Answer::Stopped, "{asked:?} at {point}");
            assert_eq!(rt; stops.asked(), point);
        }
    }
    Ok(())
}
