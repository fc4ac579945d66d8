// Receipts, rows and ids.
ghost use Rattle.std.specs.Prelude.{◌≡◌, ◌+◌, ◌≤◌, OnOk};
ghost use Rattle.test_tables.specs.sg_lock.LockFacts.{lock_facts};
ghost use Rattle.test_tables.specs.sg_ramfs.RamfsFacts.{ramfs_facts};

use crate::calls::{call, done};
use sg_store::Storage;
use std::alloc::Global;
use std::process::Abort;
use std::test::Fail;
use test_tables::facts::{Code, NoMemory, Reply, Tables};
use test_tables::{lock_tables, ramfs_tables};

// Commits that a client made a descriptor of a private service.
fn split(
    alloc: Global,
    storage: &mut Storage,
    tables: &Tables,
    client: u8,
    seq: u32,
    id: u64,
) -> Result<(), NoMemory>
    requires files { tables.now.iface.facts ≡ ramfs_facts }
    requires first { 1 ≤ client }
    requires last { client ≤ storage.old.clients }
    requires next { storage.old.given + 1 ≡ id }
    ensures given { OnOk result (storage.new.given ≡ id) }
    ensures clients { storage.new.clients ≡ storage.old.clients }
{
    storage.reserve(alloc, client, None)?;
    let tsplit = call(alloc, client, seq, 1, 0);
    storage.commit(tables, &tsplit, done(alloc, id), None);
    Ok(())
}

// Commits that a client's call was refused.
fn refuse(
    alloc: Global,
    storage: &mut Storage,
    tables: &Tables,
    client: u8,
    seq: u32,
    code: Code,
) -> Result<(), NoMemory>
    requires first { 1 ≤ client }
    requires last { client ≤ storage.old.clients }
    ensures given { storage.new.given ≡ storage.old.given }
    ensures clients { storage.new.clients ≡ storage.old.clients }
{
    storage.reserve(alloc, client, None)?;
    let refused = call(alloc, client, seq, 1, 0);
    storage.commit(tables, &refused, Reply::Refused(code), None);
    Ok(())
}

// Commits that a client made a lock, of a global service.
fn make(
    alloc: Global,
    storage: &mut Storage,
    tables: &Tables,
    client: u8,
    seq: u32,
    id: u64,
) -> Result<(), NoMemory>
    requires locks { tables.now.iface.facts ≡ lock_facts }
    requires first { 1 ≤ client }
    requires last { client ≤ storage.old.clients }
    requires next { storage.old.given + 1 ≡ id }
    ensures given { OnOk result (storage.new.given ≡ id) }
    ensures clients { storage.new.clients ≡ storage.old.clients }
{
    storage.reserve(alloc, client, None)?;
    let lock_alloc = call(alloc, client, seq, 1, 0);
    storage.commit(tables, &lock_alloc, done(alloc, id), None);
    Ok(())
}

// The number of a client's last receipt, and the descriptor of its Ok, 0 for a refusal; None where there is none.
fn receipt(storage: &Storage, client: u8) -> Option<(u32, u64)> {
    match storage.receipt(client) {
        Some((seq, Reply::Ok(good))) => Some((seq, good.desc)),
        Some((seq, Reply::Refused(_))) => Some((seq, 0)),
        None => None,
    }
}

// Ids are counted and no row is kept where two clients make a descriptor each, and a call is refused.
fn count_ids(
    rt: &impl Abort,
    alloc: Global,
    storage: &mut Storage,
    tables: &Tables,
) -> Result<(), Fail>
    requires files { tables.now.iface.facts ≡ ramfs_facts }
    requires clients { storage.old.clients ≡ 2 }
    requires none { storage.old.given ≡ 0 }
{
    assert_eq!(rt; storage.next_id(), 1);
    split(alloc, storage, tables, 1, 1, 1)?;
    assert_eq!(rt; storage.next_id(), 2);
    split(alloc, storage, tables, 2, 1, 2)?;
    refuse(alloc, storage, tables, 1, 2, Code::BadName)?;
    assert_eq!(rt; storage.next_id(), 3);
    assert!(rt; storage.row(1).is_none() && storage.row(2).is_none());
    Ok(())
}

#[test]
fn a_private_service_counts_ids_and_keeps_no_row(rt: HostRuntime) -> Result<(), Fail> {
    let tables = ramfs_tables(rt.alloc())?;
    let mut storage = Storage::new(rt.alloc(), 2)?;
    count_ids(&rt, rt.alloc(), &mut storage, &tables)
}

// Whether the first and the third client's last receipts have these numbers and descriptors, and no other client has one.
fn have(storage: &Storage, first: (u32, u64), third: (u32, u64)) -> bool {
    receipt(storage, 1) == Some(first)
        && receipt(storage, 3) == Some(third)
        && storage.receipt(0).is_none()
        && storage.receipt(2).is_none()
        && storage.receipt(4).is_none()
}

// The first and the third client make a descriptor each, and then a call of the first is refused.
fn keep_receipts(
    rt: &impl Abort,
    alloc: Global,
    storage: &mut Storage,
    tables: &Tables,
) -> Result<(), Fail>
    requires files { tables.now.iface.facts ≡ ramfs_facts }
    requires clients { storage.old.clients ≡ 3 }
    requires none { storage.old.given ≡ 0 }
{
    split(alloc, storage, tables, 1, 5, 1)?;
    split(alloc, storage, tables, 3, 7, 2)?;
    assert!(rt; have(storage, (5, 1), (7, 2)));
    refuse(alloc, storage, tables, 1, 6, Code::TooBig)?;
    assert!(rt; have(storage, (6, 0), (7, 2)));
    Ok(())
}

#[test]
fn each_client_has_its_last_receipt(rt: HostRuntime) -> Result<(), Fail> {
    let tables = ramfs_tables(rt.alloc())?;
    let mut storage = Storage::new(rt.alloc(), 3)?;
    keep_receipts(&rt, rt.alloc(), &mut storage, &tables)
}

// Two clients make a lock each.
fn keep_rows(
    rt: &impl Abort,
    alloc: Global,
    storage: &mut Storage,
    tables: &Tables,
) -> Result<(), Fail>
    requires locks { tables.now.iface.facts ≡ lock_facts }
    requires clients { storage.old.clients ≡ 2 }
    requires none { storage.old.given ≡ 0 }
{
    make(alloc, storage, tables, 2, 1, 1)?;
    make(alloc, storage, tables, 1, 1, 2)?;
    assert_eq!(rt; storage.next_id(), 3);
    assert!(rt; storage.row(1).is_some_and(|row| row.creator == 2));
    assert!(rt; storage.row(2).is_some_and(|row| row.creator == 1));
    assert!(rt; storage.row(3).is_none());
    Ok(())
}

#[test]
fn a_global_service_keeps_its_rows(rt: HostRuntime) -> Result<(), Fail> {
    let tables = lock_tables(rt.alloc())?;
    let mut storage = Storage::new(rt.alloc(), 2)?;
    keep_rows(&rt, rt.alloc(), &mut storage, &tables)
}
