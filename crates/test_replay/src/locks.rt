// A lock that is lost in a stop is rebuilt for the next call.
ghost use Rattle.std.specs.Prelude.{◌≡◌, ◌≤◌, [], IsSome};
ghost use Rattle.test_histories.specs.Written.{call_of};
ghost use Rattle.test_replay.specs.Turns.{HasFirst, HasNone, IsFresh, WalksLocks};

use crate::ending::discard;
use crate::turns::{first_take, lose, make, rebuild, take, walked_tables};
use sg_replay::{Advanced, Engine, Todo};
use std::alloc::Global;
use std::process::Abort;
use std::test::Fail;
use test_asking::Once;
use test_tables::LockService;
use test_tables::facts::{Call, NoMemory, Reply, Value};

// What is missing for a call.
fn missing(
    alloc: Global,
    engine: &mut Engine<LockService>,
    call: &Call,
) -> Result<Option<Todo>, NoMemory>
    ensures { engine.new ≡ engine.old }
{
    let file = engine.file_needed(alloc, call)?;
    Ok(engine.missing(call, &file))
}

// The owner of the first lock; None where it isn't tracked.
fn owner(engine: &Engine<LockService>) -> Option<u64> {
    match engine.row(1)?.fields.get(0) {
        Some(Value::Word(owner)) => Some(*owner),
        Some(Value::Text(_)) | None => None,
    }
}

// Whether client 2 owns the only lock, and has the receipt of its first call.
fn is_taken(engine: &Engine<LockService>) -> bool {
    owner(engine) == Some(2)
        && engine.service().map(LockService::live) == Some(1)
        && matches!(engine.receipt(2), Some((1, Reply::Ok(_))))
}

// A lock that is there is lost in a stop, and made again for client 2, who takes it.
fn lost_and_taken(
    rt: &impl Abort,
    alloc: Global,
    stops: &mut Once,
    engine: &mut Engine<LockService>,
    call: &Call,
) -> Result<(), Fail>
    requires take { call.now ≡ call_of 2 1 2 1 [] }
    requires clients { 2 ≤ engine.old.stored.clients }
    requires tables { WalksLocks engine.old.tables }
    requires up { IsSome engine.old.cell.running }
    requires first { HasFirst engine.old }
{
    lose(alloc, engine, call)?;
    assert!(rt; missing(alloc, engine, call)? == Some(Todo::Walk { id: 1, k: 1 }));
    match rebuild(alloc, stops, engine, call)? {
        Advanced::Replayed => {
            assert!(rt; missing(alloc, engine, call)?.is_none());
            take(alloc, stops, engine, call)?;
            assert!(rt; is_taken(engine));
            Ok(())
        }
        Advanced::Loaded | Advanced::Struck => Err(Fail::new("not rebuilt")),
    }
}

// What client 1 made, and a stop took, is made again for client 2, who takes it.
fn made_and_taken(
    rt: &impl Abort,
    alloc: Global,
    engine: &mut Engine<LockService>,
) -> Result<(), Fail>
    requires clients { 2 ≤ engine.old.stored.clients }
    requires tables { WalksLocks engine.old.tables }
    requires fresh { IsFresh engine.old }
    requires none { HasNone engine.old }
{
    let mut stops = Once::new(0);
    make(alloc, &mut stops, engine)?;
    assert!(rt; owner(engine) == Some(0));
    lost_and_taken(rt, alloc, &mut stops, engine, &first_take(alloc))
}

#[test]
fn a_lost_lock_is_made_again_and_taken(rt: HostRuntime) -> Result<(), Fail> {
    let tables = walked_tables(rt.alloc())?;
    let mut engine = Engine::<LockService>::new(rt.alloc(), (), tables, 2)?;
    let done = made_and_taken(&rt, rt.alloc(), &mut engine);
    discard(engine);
    done
}
