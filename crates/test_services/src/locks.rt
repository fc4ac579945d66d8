// What no clause says: that calls are answered where there is memory, and stopped where a point strikes.
ghost use Rattle.std.specs.Prelude.{◌≡◌, ◌≤◌, ◌<◌, ◌==◌, if◌then◌else◌, [], ◌∷◌, OnOk};
ghost use Rattle.sg_facts.specs.Object.{empty_object};
ghost use Rattle.sg_lock.specs.sg_slots.Slots.{object_of};
ghost use Rattle.sg_lock.specs.LockRow.{lock_body};

use sg_facts::{Call, Code, NoMemory, Outcome, Path, Reply, Service, Stops};
use sg_lock::{Lock, LockService};
use std::alloc::Global;
use std::process::Abort;
use std::test::Fail;
use test_asking::{Once, ask, call};

// Makes the first lock, and tells its descriptor.
fn make(
    service: &mut LockService,
    alloc: Global,
    stops: &mut Once,
    client: u8,
) -> Result<u64, Outcome>
    requires fresh { object_of lock_body service.old.slots ≡ empty_object }
    requires client_first { 1 ≤ client }
    requires client_last { client ≤ 64 }
    ensures { OnOk result (object_of lock_body service.new.slots
        ≡ object_of lock_body (record { entries = (1, record { creator = client; owner = 0 }) ∷ []; given = 1 })) }
{
    let call = call(alloc, client, 1, 0);
    match ask(service, alloc, stops, &call) {
        Outcome::Replied { reply, patch } => match reply {
            Reply::Ok(good) => Ok(good.desc),
            refused => Err(Outcome::Replied {
                reply: refused,
                patch,
            }),
        },
        other => Err(other),
    }
}

// Asks for a change of the one lock, which is as told, by a call, and tells the descriptor of the reply.
fn changed(
    service: &mut LockService,
    alloc: Global,
    stops: &mut Once,
    call: &Call,
    lock: Lock,
) -> Result<u64, Outcome>
    requires lock { object_of lock_body service.old.slots ≡ object_of lock_body (record { entries = (1, lock) ∷ []; given = 1 }) }
    requires call { call.now ≡ record { client = call.now.client; seq = 1; fun = call.now.fun; desc = 1; args = [] } }
    requires client_first { 1 ≤ call.now.client }
    requires client_last { call.now.client ≤ 64 }
    requires fun_first { 2 ≤ call.now.fun }
    requires fun_last { call.now.fun ≤ 4 }
    ensures { OnOk result (call.now.fun < 4 → object_of lock_body service.new.slots
        ≡ object_of lock_body (record { entries = (1, record { creator = lock.creator; owner = if call.now.fun == 2 then call.now.client else 0 }) ∷ []; given = 1 })) }
{
    match ask(service, alloc, stops, call) {
        Outcome::Replied { reply, patch } => match reply {
            Reply::Ok(good) => Ok(good.desc),
            refused => Err(Outcome::Replied {
                reply: refused,
                patch,
            }),
        },
        other => Err(other),
    }
}

// The same by the call of a function, by a client.
fn change(
    service: &mut LockService,
    alloc: Global,
    stops: &mut Once,
    client: u8,
    fun: u8,
    lock: Lock,
) -> Result<u64, Outcome>
    requires lock { object_of lock_body service.old.slots ≡ object_of lock_body (record { entries = (1, lock) ∷ []; given = 1 }) }
    requires client_first { 1 ≤ client }
    requires client_last { client ≤ 64 }
    requires fun_first { 2 ≤ fun }
    requires fun_last { fun ≤ 4 }
    ensures { OnOk result (fun < 4 → object_of lock_body service.new.slots
        ≡ object_of lock_body (record { entries = (1, record { creator = lock.creator; owner = if fun == 2 then client else 0 }) ∷ []; given = 1 })) }
{
    changed(service, alloc, stops, &call(alloc, client, fun, 1), lock)
}

// Asks for what changes nothing: the refusal of a call on the one lock, which is as told, or None where the caller
// waits.
fn refusal(
    service: &mut LockService,
    alloc: Global,
    stops: &mut Once,
    client: u8,
    fun: u8,
    lock: Lock,
) -> Result<Option<Code>, Outcome>
    requires lock { object_of lock_body service.old.slots ≡ object_of lock_body (record { entries = (1, lock) ∷ []; given = 1 }) }
    requires client_first { 1 ≤ client }
    requires client_last { client ≤ 64 }
    requires fun_first { 2 ≤ fun }
    requires fun_last { fun ≤ 4 }
    ensures { OnOk result (object_of lock_body service.new.slots ≡ object_of lock_body service.old.slots) }
{
    let call = call(alloc, client, fun, 1);
    match ask(service, alloc, stops, &call) {
        Outcome::Replied {
            reply: Reply::Refused(code),
            ..
        } => Ok(Some(code)),
        Outcome::Blocks => Ok(None),
        other => Err(other),
    }
}

// The calls on one lock are answered, from a fresh service on.
fn answers_on_one_lock(
    rt: &impl Abort,
    alloc: Global,
    service: &mut LockService,
    stops: &mut Once,
) -> Result<(), Fail>
    requires fresh { object_of lock_body service.old.slots ≡ empty_object }
{
    let free = Lock {
        creator: 1,
        owner: 0,
    };
    let taken = Lock {
        creator: 1,
        owner: 2,
    };
    assert_eq!(rt; make(service, alloc, stops, 1)?, 1);
    let code = refusal(service, alloc, stops, 1, 3, free)?;
    assert_eq!(rt; code, Some(Code::NotOwner), "released while free");
    assert_eq!(rt; change(service, alloc, stops, 2, 2, free)?, 0);
    let code = refusal(service, alloc, stops, 2, 2, taken)?;
    assert_eq!(rt; code, Some(Code::Held), "taken by its owner");
    let code = refusal(service, alloc, stops, 1, 2, taken)?;
    assert_eq!(rt; code, None, "taken by another");
    let code = refusal(service, alloc, stops, 1, 3, taken)?;
    assert_eq!(rt; code, Some(Code::NotOwner), "released by another");
    let code = refusal(service, alloc, stops, 2, 4, taken)?;
    assert_eq!(rt; code, Some(Code::Held), "freed while it is owned");
    assert_eq!(rt; change(service, alloc, stops, 2, 3, taken)?, 0);
    assert_eq!(rt; change(service, alloc, stops, 64, 4, free)?, 0);
    Ok(())
}

// Locks have no files, so a load changes nothing.
fn load_file(alloc: Global, service: &mut LockService) -> Result<(), NoMemory>
    ensures { object_of lock_body service.new.slots ≡ object_of lock_body service.old.slots }
{
    let path = Path::new(alloc);
    service.load(alloc, &path, b"a file")
}

#[test]
fn serves_one_lock(rt: HostRuntime) -> Result<(), Fail> {
    let alloc = rt.alloc();
    let mut stops = Once::new(0);
    let mut service = LockService::fresh(alloc, ());
    load_file(alloc, &mut service)?;
    answers_on_one_lock(&rt, alloc, &mut service, &mut stops)?;
    assert_eq!(rt; stops.asked(), 5);
    Ok(())
}

// Whether an answer is that the service stopped.
fn has_stopped(answer: Result<u64, Outcome>) -> bool {
    match answer {
        Err(Outcome::Stopped) => true,
        Ok(_) | Err(_) => false,
    }
}

// A lock isn't made where one of the parts of that is stopped.
fn stops_while_making(rt: &impl Abort, alloc: Global, point: u64) {
    let mut stops = Once::new(point);
    let mut service = LockService::fresh(alloc, ());
    assert!(rt;
        has_stopped(make(&mut service, alloc, &mut stops, 1)),
        "at {point}"
    );
    assert_eq!(rt; stops.asked(), point);
}

// A lock that is made, from a fresh service on, isn't taken where that is stopped; whether that is so.
fn stops_while_taking(
    alloc: Global,
    service: &mut LockService,
    stops: &mut Once,
) -> Result<bool, Outcome>
    requires fresh { object_of lock_body service.old.slots ≡ empty_object }
{
    let free = Lock {
        creator: 1,
        owner: 0,
    };
    make(service, alloc, stops, 1)?;
    Ok(has_stopped(change(service, alloc, stops, 2, 2, free)))
}

#[test]
fn stops_at_each_part(rt: HostRuntime) -> Result<(), Fail> {
    for point in [1, 2] {
        stops_while_making(&rt, rt.alloc(), point);
    }
    let mut service = LockService::fresh(rt.alloc(), ());
    let stopped = stops_while_taking(rt.alloc(), &mut service, &mut Once::new(3));
    assert!(rt; matches!(stopped, Ok(true)));
    Ok(())
}
