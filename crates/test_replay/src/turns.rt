// A lock that is made, lost in a stop, rebuilt, and taken.
ghost use Rattle.std.specs.Prelude.{◌≡◌, ◌≤◌, true, [], IfOk, IsSome, OnOk};
ghost use Rattle.test_tables.specs.sg_lock.LockFacts.{lock_facts};
ghost use Rattle.sg_replay.specs.declared.advance.Advanced.TheVariants.{Replayed};
ghost use Rattle.test_histories.specs.Written.{call_of};
ghost use Rattle.test_replay.specs.Turns.{HasFirst, HasNone, IsFresh, IsRebuilt, WalksLocks};

use sg_replay::{Advanced, Engine};
use std::alloc::Global;
use std::test::Fail;
use test_asking::{Once, call};
use test_tables::facts::{Call, Outcome, Tables};
use test_tables::{LockService, lock_tables};

/// The function that makes a lock.
const ALLOC: u8 = 1;

/// The function that takes a lock.
const TAKE: u8 = 2;

/// The tables of locks.
pub(crate) fn walked_tables(alloc: Global) -> Result<Tables, Fail>
    ensures { IfOk result WalksLocks }
{
    let tables = lock_tables(alloc)?;
    if makes_alone(&tables) {
        Ok(tables)
    } else {
        Err(Fail::new("another walk"))
    }
}

// Whether the walk of a lock that was made and isn't owned is its creation alone.
fn makes_alone(tables: &Tables) -> bool
    requires { tables.now.iface.facts ≡ lock_facts }
    ensures { result ≡ true → WalksLocks tables.now }
{
    match tables.walk(ALLOC, ALLOC, 0) {
        Some(walk) => walk.as_slice() == [ALLOC].as_slice(),
        None => false,
    }
}

/// The take of the first lock by client 2.
pub(crate) fn first_take(alloc: Global) -> Call
    ensures { result ≡ call_of 2 1 2 1 [] }
{
    call(alloc, 2, TAKE, 1)
}

/// Client 1 makes the first lock.
pub(crate) fn make(
    alloc: Global,
    stops: &mut Once,
    engine: &mut Engine<LockService>,
) -> Result<(), Fail>
    requires clients { 1 ≤ engine.old.stored.clients }
    requires fresh { IsFresh engine.old }
    requires none { HasNone engine.old }
    ensures first { OnOk result (HasFirst engine.new) }
    ensures up { OnOk result (IsSome engine.new.cell.running) }
    ensures clients { engine.new.stored.clients ≡ engine.old.stored.clients }
    ensures tables { engine.new.tables ≡ engine.old.tables }
{
    let alloc_call = call(alloc, 1, ALLOC, 0);
    let file = engine.file_needed(alloc, &alloc_call)?;
    engine.reserve(alloc, &alloc_call, &file)?;
    match engine.serve(alloc, stops, &alloc_call) {
        Outcome::Replied { reply, patch } => {
            engine.commit(&alloc_call, reply, patch);
            Ok(())
        }
        Outcome::Blocks | Outcome::Stopped | Outcome::NoMemory => Err(Fail::new("no lock")),
    }
}

/// The service stops, and boots.
pub(crate) fn lose(alloc: Global, engine: &mut Engine<LockService>, call: &Call) -> Result<(), Fail>
    requires up { IsSome engine.old.cell.running }
    requires first { HasFirst engine.old }
    ensures fresh { OnOk result (IsFresh engine.new) }
    ensures first { OnOk result (HasFirst engine.new) }
    ensures clients { engine.new.stored.clients ≡ engine.old.stored.clients }
    ensures tables { engine.new.tables ≡ engine.old.tables }
{
    let file = engine.file_needed(alloc, call)?;
    engine.reserve(alloc, call, &file)?;
    engine.strike(9);
    engine.boot(alloc);
    Ok(())
}

/// Replays what a call of the first lock needs, for client 2.
pub(crate) fn rebuild(
    alloc: Global,
    stops: &mut Once,
    engine: &mut Engine<LockService>,
    take: &Call,
) -> Result<Advanced, Fail>
    requires take { take.now ≡ call_of 2 1 2 1 [] }
    requires tables { WalksLocks engine.old.tables }
    requires fresh { IsFresh engine.old }
    requires first { HasFirst engine.old }
    ensures rebuilt { IfOk result (λ done. done ≡ Replayed → IsRebuilt engine.new) }
    ensures tracked { engine.new.tracked ≡ engine.old.tracked }
    ensures stored { engine.new.stored ≡ engine.old.stored }
{
    let file = engine.file_needed(alloc, take)?;
    match engine.missing(take, &file) {
        Some(todo) => Ok(engine.advance(alloc, stops, 2, &file, todo)?),
        None => Err(Fail::new("nothing is missing")),
    }
}

/// Client 2 takes the first lock.
pub(crate) fn take(
    alloc: Global,
    stops: &mut Once,
    engine: &mut Engine<LockService>,
    take: &Call,
) -> Result<(), Fail>
    requires take { take.now ≡ call_of 2 1 2 1 [] }
    requires clients { 2 ≤ engine.old.stored.clients }
    requires rebuilt { IsRebuilt engine.old }
    requires first { HasFirst engine.old }
{
    let file = engine.file_needed(alloc, take)?;
    engine.reserve(alloc, take, &file)?;
    match engine.serve(alloc, stops, take) {
        Outcome::Replied { reply, patch } => {
            engine.commit(take, reply, patch);
            Ok(())
        }
        Outcome::Blocks | Outcome::Stopped | Outcome::NoMemory => Err(Fail::new("not taken")),
    }
}
