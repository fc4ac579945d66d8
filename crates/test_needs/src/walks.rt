// The walk of a row, and its calls.
ghost use Rattle.std.specs.Prelude.{◌≡◌, ◌∷◌, [], ◌<◌, IfOk};
ghost use Rattle.test_tables.specs.sg_facts.sg_base.declared.value.Value.TheVariants.{Word};
ghost use Rattle.test_tables.specs.sg_lock.LockFacts.{lock_facts};

use crate::rows::ALLOC;
use sg_needs::{replayed_call, walk_of_row};
use std::alloc::Global;
use std::process::Abort;
use std::test::Fail;
use test_tables::facts::{Call, Fields, NoMemory, Row, Tables, Value};
use test_tables::lock_tables;

// The function that takes a lock.
const TAKE: u8 = 2;

// A lock that client 2 made, and that a client owns, 0 for none.
fn lock_of(alloc: Global, owner: u8) -> Result<Row, NoMemory>
    ensures { IfOk result (λ row. row ≡ record { id = 9; made = 1; creator = 2; parent = 0; state = row.state; fields = Word owner ∷ [] }) }
{
    let mut fields = Fields::new(alloc);
    fields.push(Value::Word(u64::from(owner)))?;
    Ok(Row {
        id: 9,
        made: ALLOC,
        creator: 2,
        parent: 0,
        state: if owner == 0 { ALLOC } else { TAKE },
        fields,
    })
}

// A call of the walk of a lock.
fn replayed(
    alloc: Global,
    tables: &Tables,
    owner: u8,
    is_first: bool,
    fun: u8,
) -> Result<Call, NoMemory>
    requires { tables.now.iface.facts ≡ lock_facts }
{
    let lock = lock_of(alloc, owner)?;
    if fun == TAKE {
        replayed_call(alloc, tables.interface(), &lock, is_first, TAKE)
    } else {
        replayed_call(alloc, tables.interface(), &lock, is_first, ALLOC)
    }
}

// Whether the walk of a lock is this.
fn is_walk(alloc: Global, tables: &Tables, owner: u8, walk: &[u8]) -> Result<bool, NoMemory>
    requires { tables.now.iface.facts ≡ lock_facts }
{
    let lock = lock_of(alloc, owner)?;
    let found = walk_of_row(tables, &lock);
    Ok(found.is_some_and(|found| found.as_slice() == walk))
}

// Whether a call of the walk of a lock that client 5 owns is a client's, of a function, on a descriptor.
fn is_replayed(
    alloc: Global,
    tables: &Tables,
    is_first: bool,
    fun: u8,
    client: u8,
    desc: u64,
) -> Result<bool, NoMemory>
    requires { tables.now.iface.facts ≡ lock_facts }
{
    let call = replayed(alloc, tables, 5, is_first, fun)?;
    Ok((call.client, call.fun, call.desc) == (client, fun, desc))
}

// A lock is made, and taken where it is owned; its maker makes it and its owner takes it.
fn walk_locks(rt: &impl Abort, alloc: Global, tables: &Tables) -> Result<(), NoMemory>
    requires { tables.now.iface.facts ≡ lock_facts }
{
    assert!(rt; is_walk(alloc, tables, 5, &[ALLOC, TAKE])?);
    assert!(rt; is_walk(alloc, tables, 0, &[ALLOC])?);
    assert!(rt; is_replayed(alloc, tables, true, ALLOC, 2, 0)?);
    assert!(rt; is_replayed(alloc, tables, false, TAKE, 5, 9)?);
    Ok(())
}

#[test]
fn a_lock_is_made_by_its_maker_and_taken_by_its_owner(rt: HostRuntime) -> Result<(), Fail> {
    let tables = lock_tables(rt.alloc())?;
    Ok(walk_locks(&rt, rt.alloc(), &tables)?)
}
