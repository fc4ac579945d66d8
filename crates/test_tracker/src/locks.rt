// Locks.
ghost use Rattle.std.specs.Prelude.{◌≡◌, ◌+◌, ◌≤◌, IfSome, OnOk};
ghost use Rattle.test_tables.specs.sg_lock.LockFacts.{lock_facts};
ghost use Rattle.test_tracker.specs.Answered.{HasOwner};

use crate::calls::{call, done};
use sg_track::Tracker;
use std::alloc::Global;
use std::process::Abort;
use std::test::Fail;
use test_tables::facts::{NoMemory, Tables, Value};
use test_tables::lock_tables;

// What is seen of the row of a lock.
#[derive(Clone, Copy, Debug, PartialEq, Eq)]
struct LockRow {
    creator: u8,
    state: u8,
    owner: Option<u64>,
    mask: u8,
}

// Tracks that a client made a lock.
fn make(
    alloc: Global,
    tracker: &mut Tracker,
    tables: &Tables,
    client: u8,
    id: u64,
) -> Result<(), NoMemory>
    requires locks { tables.now.iface.facts ≡ lock_facts }
    requires room { 1 ≤ tracker.old.spare }
    requires next { tracker.old.given + 1 ≡ id }
    ensures { OnOk result (tracker.new.given ≡ id) }
{
    let call = call(alloc, client, 1, 0, &[])?;
    tracker.track(tables, &call, &done(alloc, id));
    Ok(())
}

// Tracks that a client took a lock.
fn take(
    alloc: Global,
    tracker: &mut Tracker,
    tables: &Tables,
    client: u8,
    id: u64,
) -> Result<(), NoMemory>
    requires { tables.now.iface.facts ≡ lock_facts }
    ensures { OnOk result (tracker.new.given ≡ tracker.old.given) }
{
    let call = call(alloc, client, 2, id, &[])?;
    tracker.track(tables, &call, &done(alloc, 0));
    Ok(())
}

// The owner of a lock, 0 for none; None where there is no such lock.
fn owner_of(tracker: &Tracker, id: u64) -> Option<u64>
    ensures { IfSome result (HasOwner tracker.now.rows id) }
{
    match tracker.row(id) {
        Some(row) => match row.fields.get(0) {
            Some(Value::Word(owner)) => Some(*owner),
            Some(Value::Text(_)) | None => None,
        },
        None => None,
    }
}

// Tracks that a client released a lock that is there.
fn release(
    alloc: Global,
    tracker: &mut Tracker,
    tables: &Tables,
    client: u8,
    id: u64,
) -> Result<(), Fail>
    requires { tables.now.iface.facts ≡ lock_facts }
    ensures { OnOk result (tracker.new.given ≡ tracker.old.given) }
{
    let call = call(alloc, client, 3, id, &[])?;
    match owner_of(tracker, id) {
        Some(_) => {
            tracker.track(tables, &call, &done(alloc, 0));
            Ok(())
        }
        None => Err(Fail::new("no lock")),
    }
}

// Tracks that a client ended a lock.
fn free(
    alloc: Global,
    tracker: &mut Tracker,
    tables: &Tables,
    client: u8,
    id: u64,
) -> Result<(), NoMemory>
    requires { tables.now.iface.facts ≡ lock_facts }
{
    let call = call(alloc, client, 4, id, &[])?;
    tracker.track(tables, &call, &done(alloc, 0));
    Ok(())
}

// What is seen of a lock's row; None where there is none.
fn seen(tracker: &Tracker, id: u64) -> Option<LockRow> {
    let row = tracker.row(id)?;
    Some(LockRow {
        creator: row.creator,
        state: row.state,
        owner: owner_of(tracker, id),
        mask: row.mask(),
    })
}

// A free lock of a client.
fn free_of(creator: u8) -> Option<LockRow> {
    Some(LockRow {
        creator,
        state: 1,
        owner: Some(0),
        mask: 0,
    })
}

// A lock of a client that another owns.
fn taken_by(owner: u64, creator: u8) -> Option<LockRow> {
    Some(LockRow {
        creator,
        state: 2,
        owner: Some(owner),
        mask: 1,
    })
}

// Two locks, of clients 1 and 64.
fn make_two(alloc: Global, tracker: &mut Tracker, tables: &Tables) -> Result<(), Fail>
    requires locks { tables.now.iface.facts ≡ lock_facts }
    requires none { tracker.old.given ≡ 0 }
{
    tracker.reserve(alloc)?;
    make(alloc, tracker, tables, 1, 1)?;
    tracker.reserve(alloc)?;
    make(alloc, tracker, tables, 64, 2)?;
    Ok(())
}

// What is seen of the first lock when it is made, taken, released and taken by another client.
fn first_seen(
    alloc: Global,
    tracker: &mut Tracker,
    tables: &Tables,
) -> Result<[Option<LockRow>; 4], Fail>
    requires { tables.now.iface.facts ≡ lock_facts }
{
    let made = seen(tracker, 1);
    take(alloc, tracker, tables, 2, 1)?;
    let taken = seen(tracker, 1);
    release(alloc, tracker, tables, 2, 1)?;
    let released = seen(tracker, 1);
    take(alloc, tracker, tables, 64, 1)?;
    Ok([made, taken, released, seen(tracker, 1)])
}

// Of two locks the first is taken and released, and the second stays.
fn take_first(
    rt: &impl Abort,
    alloc: Global,
    tracker: &mut Tracker,
    tables: &Tables,
) -> Result<(), Fail>
    requires locks { tables.now.iface.facts ≡ lock_facts }
    requires none { tracker.old.given ≡ 0 }
{
    make_two(alloc, tracker, tables)?;
    let [made, taken, released, again] = first_seen(alloc, tracker, tables)?;
    assert_eq!(rt; made, free_of(1));
    assert_eq!(rt; taken, taken_by(2, 1));
    assert_eq!(rt; released, free_of(1));
    assert_eq!(rt; again, taken_by(64, 1));
    assert_eq!(rt; seen(tracker, 2), free_of(64));
    Ok(())
}

#[test]
fn locks_are_taken_and_released(rt: HostRuntime) -> Result<(), Fail> {
    let tables = lock_tables(rt.alloc())?;
    let mut tracker = Tracker::new(rt.alloc());
    take_first(&rt, rt.alloc(), &mut tracker, &tables)
}

// Of two locks the first ends.
fn end_first(
    rt: &impl Abort,
    alloc: Global,
    tracker: &mut Tracker,
    tables: &Tables,
) -> Result<(), Fail>
    requires locks { tables.now.iface.facts ≡ lock_facts }
    requires none { tracker.old.given ≡ 0 }
{
    make_two(alloc, tracker, tables)?;
    free(alloc, tracker, tables, 3, 1)?;
    assert!(rt; seen(tracker, 1).is_none());
    assert_eq!(rt; seen(tracker, 2), free_of(64));
    assert_eq!(rt; tracker.live(), 1);
    assert!(rt; !tracker.has_children(2));
    assert!(rt; tracker.ancestors(alloc, 2)?.is_empty());
    Ok(())
}

#[test]
fn locks_end_alone(rt: HostRuntime) -> Result<(), Fail> {
    let tables = lock_tables(rt.alloc())?;
    let mut tracker = Tracker::new(rt.alloc());
    end_first(&rt, rt.alloc(), &mut tracker, &tables)
}
