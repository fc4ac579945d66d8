// What no clause says: that a cell asks its service where there is memory, and boots another after one that failed.
ghost use Rattle.std.specs.Prelude.{◌≡◌, Some, IsSome, OnOk};
ghost use Rattle.sg_facts.specs.Object.{empty_object};

use sg_boot::Cell;
use sg_facts::{Outcome, Reply, Stops, Tag};
use sg_lock::LockService;
use std::alloc::Global;
use std::process::Abort;
use std::test::Fail;
use test_asking::{Once, call};

// Makes the first lock in a cell whose service holds none, and tells its descriptor.
fn make(cell: &mut Cell<LockService>, alloc: Global, stops: &mut Once) -> Result<u64, Outcome>
    requires { cell.old.running ≡ Some empty_object }
    ensures up { OnOk result (IsSome cell.new.running) }
{
    if cell.reserve(alloc).is_err() {
        return Err(Outcome::NoMemory);
    }
    let tag = Tag::Client { client: 1, seq: 1 };
    let shown = call(alloc, 1, 1, 0);
    match cell.invoke(alloc, stops, tag, &shown, call(alloc, 1, 1, 0)) {
        Outcome::Replied { reply, patch } => match reply {
            Reply::Ok(good) => Ok(good.desc),
            refused => Err(Outcome::Replied {
                reply: refused,
                patch,
            }),
        },
        other => Err(other),
    }
}

// Ends a cell where it stands. All its parts are written out wherever one is dropped, so that is done here alone.
fn discard(_cell: Cell<LockService>) {}

// A new cell makes a lock, is struck, and boots another service, which makes one too.
fn strike_and_boot(rt: &impl Abort, alloc: Global, cell: &mut Cell<LockService>) -> Result<(), Fail>
    requires { cell.old.running ≡ Some empty_object }
{
    let mut stops = Once::new(0);
    assert!(rt; cell.is_up());
    assert_eq!(rt; make(cell, alloc, &mut stops)?, 1);
    assert_eq!(rt; cell.trace().points, 3);
    cell.strike(4);
    assert!(rt; !cell.is_up());
    assert!(rt; cell.service().is_none());
    cell.reserve(alloc)?;
    cell.boot(alloc);
    assert_eq!(rt; cell.boot_number(), 2);
    assert_eq!(rt; cell.service().map(LockService::live), Some(0));
    assert_eq!(rt; make(cell, alloc, &mut stops)?, 1);
    assert_eq!(rt; cell.service().map(LockService::live), Some(1));
    cell.count(9);
    assert_eq!(rt; cell.trace().points, 9);
    Ok(())
}

#[test]
fn boots_after_a_strike(rt: HostRuntime) -> Result<(), Fail> {
    let mut cell = Cell::<LockService>::new(rt.alloc(), ())?;
    let done = strike_and_boot(&rt, rt.alloc(), &mut cell);
    discard(cell);
    done
}

// Whether a lock isn't made since the service stopped.
fn stops_while_making(alloc: Global, cell: &mut Cell<LockService>, stops: &mut Once) -> bool
    requires { cell.old.running ≡ Some empty_object }
{
    match make(cell, alloc, stops) {
        Err(Outcome::Stopped) => true,
        Ok(_) | Err(_) => false,
    }
}

// A new cell is down after a stop at a point, which its boot tells.
fn stop_at(rt: &impl Abort, alloc: Global, cell: &mut Cell<LockService>, point: u64)
    requires { cell.old.running ≡ Some empty_object }
{
    let mut stops = Once::new(point);
    assert!(rt; stops_while_making(alloc, cell, &mut stops), "at {point}");
    assert!(rt; !cell.is_up(), "at {point}");
    assert_eq!(rt; stops.asked(), point);
    assert_eq!(rt;
        cell.trace().boots.get(0).and_then(|boot| boot.stop),
        Some(point)
    );
}

#[test]
fn stops_at_a_part_and_after_the_reply(rt: HostRuntime) -> Result<(), Fail> {
    for point in [1, 2, 3] {
        let mut cell = Cell::<LockService>::new(rt.alloc(), ())?;
        stop_at(&rt, rt.alloc(), &mut cell, point);
        discard(cell);
    }
    Ok(())
}
