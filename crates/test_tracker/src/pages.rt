// Pages.
ghost use Rattle.std.specs.Prelude.{◌≡◌, ◌+◌, ◌≤◌, IfOk, OnOk};
ghost use Rattle.test_tables.specs.sg_mm.MmFacts.{mm_facts};

use crate::calls::{call, done};
use sg_track::Tracker;
use std::alloc::Global;
use std::process::Abort;
use std::test::Fail;
use test_tables::facts::{Code, NoMemory, Reply, Tables, Value};
use test_tables::mm_tables;

// Tracks that a client got a page at an address.
fn get(
    alloc: Global,
    tracker: &mut Tracker,
    tables: &Tables,
    client: u8,
    addr: u64,
    id: u64,
) -> Result<(), NoMemory>
    requires pages { tables.now.iface.facts ≡ mm_facts }
    requires room { 1 ≤ tracker.old.spare }
    requires next { tracker.old.given + 1 ≡ id }
    ensures { OnOk result (tracker.new.given ≡ id) }
{
    let call = call(alloc, client, 1, 0, &[addr])?;
    tracker.track(tables, &call, &done(alloc, id));
    Ok(())
}

// Tracks that a page was made below another that is there, at an address of a space.
fn alias(
    alloc: Global,
    tracker: &mut Tracker,
    tables: &Tables,
    parent: u64,
    space: u64,
    addr: u64,
    id: u64,
) -> Result<(), Fail>
    requires pages { tables.now.iface.facts ≡ mm_facts }
    requires room { 1 ≤ tracker.old.spare }
    requires next { tracker.old.given + 1 ≡ id }
    ensures { OnOk result (tracker.new.given ≡ id) }
{
    let call = call(alloc, 9, 2, parent, &[space, addr])?;
    match tracker.row(parent) {
        Some(_) => {
            tracker.track(tables, &call, &done(alloc, id));
            Ok(())
        }
        None => Err(Fail::new("no page")),
    }
}

// Tracks that a page was released.
fn release(alloc: Global, tracker: &mut Tracker, tables: &Tables, id: u64) -> Result<(), NoMemory>
    requires { tables.now.iface.facts ≡ mm_facts }
{
    let call = call(alloc, 9, 3, id, &[])?;
    tracker.track(tables, &call, &done(alloc, 0));
    Ok(())
}

// Tracks that a page was found.
fn find(alloc: Global, tracker: &mut Tracker, tables: &Tables, id: u64) -> Result<(), NoMemory>
    requires { tables.now.iface.facts ≡ mm_facts }
    ensures given { OnOk result (tracker.new.given ≡ tracker.old.given) }
    ensures spare { OnOk result (tracker.new.spare ≡ tracker.old.spare) }
{
    let call = call(alloc, 9, 4, 0, &[3, 4096])?;
    tracker.track(tables, &call, &done(alloc, id));
    Ok(())
}

// Four pages: 2 below 1, 3 below 2, and 4 beside.
fn make_four(alloc: Global, tracker: &mut Tracker, tables: &Tables) -> Result<(), Fail>
    requires pages { tables.now.iface.facts ≡ mm_facts }
    requires none { tracker.old.given ≡ 0 }
    ensures { OnOk result (tracker.new.given ≡ 4) }
{
    tracker.reserve(alloc)?;
    get(alloc, tracker, tables, 7, 4096, 1)?;
    tracker.reserve(alloc)?;
    alias(alloc, tracker, tables, 1, 8, 0, 2)?;
    tracker.reserve(alloc)?;
    alias(alloc, tracker, tables, 2, 0, 8192, 3)?;
    tracker.reserve(alloc)?;
    get(alloc, tracker, tables, 64, u64::MAX, 4)?;
    Ok(())
}

// Whether the row of an id has a function and a client as its maker, a parent, a space and an address, and that set of
// fields that aren't 0.
fn is_page(
    tracker: &Tracker,
    id: u64,
    by: (u8, u8),
    parent: u64,
    place: [u64; 2],
    mask: u8,
) -> bool {
    match tracker.row(id) {
        Some(row) => {
            row.id == id
                && (row.made, row.creator) == by
                && row.state == row.made
                && row.parent == parent
                && row.fields.as_slice()
                    == [Value::Word(place[0]), Value::Word(place[1])].as_slice()
                && row.mask() == mask
        }
        None => false,
    }
}

// Whether the four are as they were made.
fn are_four(tracker: &Tracker) -> bool {
    tracker.live() == 4
        && is_page(tracker, 1, (1, 7), 0, [7, 4096], 3)
        && is_page(tracker, 2, (2, 9), 1, [8, 0], 1)
        && is_page(tracker, 3, (2, 9), 2, [0, 8192], 2)
        && is_page(tracker, 4, (1, 64), 0, [64, u64::MAX], 3)
}

// Whether an id has these ancestors, nearest first.
fn is_below(alloc: Global, tracker: &Tracker, id: u64, want: &[u64]) -> Result<bool, NoMemory> {
    let above = tracker.ancestors(alloc, id)?;
    Ok(above.as_slice() == want)
}

// The four, and what stands above and below them.
fn look_at_four(
    rt: &impl Abort,
    alloc: Global,
    tracker: &mut Tracker,
    tables: &Tables,
) -> Result<(), Fail>
    requires pages { tables.now.iface.facts ≡ mm_facts }
    requires none { tracker.old.given ≡ 0 }
{
    make_four(alloc, tracker, tables)?;
    assert!(rt; are_four(tracker));
    assert!(rt; is_below(alloc, tracker, 3, &[2, 1])?);
    assert!(rt; is_below(alloc, tracker, 4, &[])?);
    assert!(rt; tracker.has_children(1) && tracker.has_children(2));
    assert!(rt; !tracker.has_children(3) && !tracker.has_children(4));
    Ok(())
}

#[test]
fn pages_stand_below_others(rt: HostRuntime) -> Result<(), Fail> {
    let tables = mm_tables(rt.alloc())?;
    let mut tracker = Tracker::new(rt.alloc());
    look_at_four(&rt, rt.alloc(), &mut tracker, &tables)
}

// The four, after the end of the first.
fn leave_one(
    rt: &impl Abort,
    alloc: Global,
    tracker: &mut Tracker,
    tables: &Tables,
) -> Result<(), Fail>
    requires pages { tables.now.iface.facts ≡ mm_facts }
    requires none { tracker.old.given ≡ 0 }
{
    make_four(alloc, tracker, tables)?;
    release(alloc, tracker, tables, 1)?;
    assert_eq!(rt; tracker.live(), 1);
    assert!(rt; is_page(tracker, 4, (1, 64), 0, [64, u64::MAX], 3));
    assert!(rt; tracker.row(1).is_none() && tracker.row(2).is_none() && tracker.row(3).is_none());
    Ok(())
}

#[test]
fn pages_end_with_all_below_them(rt: HostRuntime) -> Result<(), Fail> {
    let tables = mm_tables(rt.alloc())?;
    let mut tracker = Tracker::new(rt.alloc());
    leave_one(&rt, rt.alloc(), &mut tracker, &tables)
}

// The four, after a refusal and a query, and one page more, in room that was taken twice.
fn look_again(
    rt: &impl Abort,
    alloc: Global,
    tracker: &mut Tracker,
    tables: &Tables,
) -> Result<(), Fail>
    requires pages { tables.now.iface.facts ≡ mm_facts }
    requires none { tracker.old.given ≡ 0 }
{
    make_four(alloc, tracker, tables)?;
    tracker.reserve(alloc)?;
    tracker.reserve(alloc)?;
    let again = call(alloc, 7, 1, 0, &[4096])?;
    tracker.track(tables, &again, &Reply::Refused(Code::Occupied));
    find(alloc, tracker, tables, 2)?;
    assert!(rt; are_four(tracker));
    get(alloc, tracker, tables, 7, 0, 5)?;
    assert!(rt; is_page(tracker, 5, (1, 7), 0, [7, 0], 1));
    Ok(())
}

#[test]
fn refusals_and_queries_leave_the_rows(rt: HostRuntime) -> Result<(), Fail> {
    let tables = mm_tables(rt.alloc())?;
    let mut tracker = Tracker::new(rt.alloc());
    look_again(&rt, rt.alloc(), &mut tracker, &tables)
}
