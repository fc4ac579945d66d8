// What is refused, and what is needed.
ghost use Rattle.std.specs.Prelude.{◌≡◌};
ghost use Rattle.test_tables.specs.sg_lock.LockFacts.{lock_facts};

use crate::rows::{ALLOC, add_lock, call};
use sg_needs::{Tracker, file_needed, guard, wants_all};
use std::alloc::Global;
use std::process::Abort;
use std::test::Fail;
use test_tables::facts::{Code, NoMemory, Tables};
use test_tables::{lock_tables, ramfs_tables, sched_tables};

// The functions that are called on a lock.
const TAKE: u8 = 2;

const RELEASE: u8 = 3;

const FREE: u8 = 4;

// The function that puts a thread at the end of the queue.
const YIELD: u8 = 2;

// A call of client 1, and its refusal.
type Guarded = (u8, u64, Option<Code>);

// Where client 2 made lock 1.
static GUARDED: [Guarded; 6] = [
    (ALLOC, 0, None),
    (TAKE, 1, None),
    (FREE, 1, None),
    (TAKE, 2, Some(Code::NoDesc)),
    (FREE, 0, Some(Code::NoDesc)),
    (RELEASE, 1, Some(Code::BadState)),
];

// The guard's answer on a call of client 1.
fn guarded(alloc: Global, tables: &Tables, rows: &Tracker, fun: u8, desc: u64) -> Option<Code> {
    guard(tables.interface(), rows, &call(alloc, 1, fun, desc))
}

// Each call is refused as it should be.
fn guard_each(rt: &impl Abort, alloc: Global, tables: &Tables, rows: &Tracker) {
    for (fun, desc, refusal) in &GUARDED {
        let got = guarded(alloc, tables, rows, *fun, *desc);
        assert_eq!(rt; got, *refusal, "{fun} on {desc}");
    }
}

// Whether a take of a lock needs no other rows and no file.
fn take_needs_no_file(alloc: Global, tables: &Tables, rows: &Tracker) -> Result<bool, NoMemory> {
    let take = call(alloc, 1, TAKE, 1);
    let file = file_needed(alloc, tables.interface(), rows, &take)?;
    Ok(!wants_all(tables.interface(), TAKE) && file.is_none())
}

// Lock 1 is guarded, and a take of it needs no file.
fn look_at_lock(
    rt: &impl Abort,
    alloc: Global,
    tables: &Tables,
    rows: &mut Tracker,
) -> Result<(), NoMemory>
    requires locks { tables.now.iface.facts ≡ lock_facts }
    requires none { rows.old.given ≡ 0 }
{
    add_lock(alloc, rows, tables, 2, 1)?;
    guard_each(rt, alloc, tables, rows);
    assert!(rt; take_needs_no_file(alloc, tables, rows)?);
    Ok(())
}

#[test]
fn locks_are_guarded_and_need_no_file(rt: HostRuntime) -> Result<(), Fail> {
    let tables = lock_tables(rt.alloc())?;
    let mut rows = Tracker::new(rt.alloc());
    Ok(look_at_lock(&rt, rt.alloc(), &tables, &mut rows)?)
}

// Whether a write to a file needs it; the file of a descriptor that there isn't has the empty path.
fn write_needs_file(alloc: Global, tables: &Tables, rows: &Tracker) -> Result<bool, NoMemory> {
    let write = call(alloc, 1, 3, 7);
    let file = file_needed(alloc, tables.interface(), rows, &write)?;
    Ok(file.is_some_and(|path| path.is_empty()))
}

#[test]
fn a_write_needs_its_file(rt: HostRuntime) -> Result<(), Fail> {
    let tables = ramfs_tables(rt.alloc())?;
    let rows = Tracker::new(rt.alloc());
    let needs = write_needs_file(rt.alloc(), &tables, &rows)?;
    assert!(rt; needs);
    Ok(())
}

#[test]
fn a_yield_looks_at_all_threads(rt: HostRuntime) -> Result<(), Fail> {
    let tables = sched_tables(rt.alloc())?;
    assert!(rt; wants_all(tables.interface(), YIELD));
    Ok(())
}
