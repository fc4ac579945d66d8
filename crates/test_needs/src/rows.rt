// Calls, and rows of locks.
ghost use Rattle.std.specs.Prelude.{◌≡◌, ◌+◌, [], OnOk};
ghost use Rattle.test_tables.specs.sg_lock.LockFacts.{lock_facts};

use sg_needs::Tracker;
use std::alloc::Global;
use test_tables::facts::{Args, Bytes, Call, Good, NoMemory, Reply, Tables, Words};

/// The function that makes a lock.
pub(crate) const ALLOC: u8 = 1;

/// A client's first call of a function, without arguments.
pub(crate) fn call(alloc: Global, client: u8, fun: u8, desc: u64) -> Call
    ensures { result ≡ record { client = client; seq = 1; fun = fun; desc = desc; args = [] } }
{
    Call {
        client,
        seq: 1,
        fun,
        desc,
        args: Args::new(alloc),
    }
}

/// The row of one lock more, which a client made, under the next id.
pub(crate) fn add_lock(
    alloc: Global,
    rows: &mut Tracker,
    tables: &Tables,
    client: u8,
    id: u64,
) -> Result<(), NoMemory>
    requires locks { tables.now.iface.facts ≡ lock_facts }
    requires next { rows.old.given + 1 ≡ id }
    ensures given { OnOk result (rows.new.given ≡ id) }
{
    rows.reserve(alloc)?;
    let made = Reply::Ok(Good {
        desc: id,
        words: Words::new(alloc),
        bytes: Bytes::new(alloc),
    });
    rows.track(tables, &call(alloc, client, ALLOC, 0), &made);
    Ok(())
}
