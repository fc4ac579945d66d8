// A world on locks that two clients share, and the tests.
ghost use Rattle.std.specs.Prelude.{◌≡◌, [], true, IfOk, length};
ghost use Rattle.sg_log.specs.Log.{log_of};
ghost use Rattle.test_world.specs.test_tables.sg_lock.LockFacts.{lock_facts};
ghost use Rattle.test_passes.specs.Locks.{DeclaresLockCalls};
ghost use Rattle.test_passes.specs.Ready.{TakesLockCalls};

use crate::pairs::in_pairs;
use crate::turns::{CALLS, by_turns};
use crate::want::with_want;
use sg_log::{History, Host, NamedWorld, WorldNames};
use std::alloc::Global;
use std::marker::Brand;
use std::process::Abort;
use std::sync::Wait;
use std::test::Fail;
use std::thread::Threads;
use test_world::tables::{LockService, lock_tables};
use test_world::{Never, NoMemory, World, tells_reply};

// The number of clients.
const CLIENTS: u8 = 2;

// A world on locks in which nothing stops.
type LockWorld = World<LockService, Never>;

// Which calls the clients make.
#[derive(Clone, Copy, Debug)]
enum Play {
    // Ten of both by turns, and one that waits.
    Turns,
    // Pairs of both in two threads.
    Pairs,
    // Three of the first, where there is no memory for the offer or step of a number; so many are made again, and withdrawn.
    Want {
        at: u64,
        again: usize,
        withdrawn: usize,
    },
}

// What comes out of what two clients shared. That a world is dropped is so written out once.
trait Closes: Host {
    // The entries, and the number of withdrawn calls.
    fn closed(self) -> (History, usize);
}

impl<N: WorldNames> Closes for NamedWorld<LockService, Never, N> {
    fn closed(self) -> (History, usize) {
        let world = self.into_world();
        let withdrawn = world.withdrawn().len();
        let (history, _trace) = world.into_run();
        (history, withdrawn)
    }
}

// Whether the entries are the calls that are made by turns, in their order.
fn are_turns(alloc: Global, history: &History) -> Result<bool, NoMemory> {
    if history.len() != CALLS.len() {
        return Ok(false);
    }
    let mut all = true;
    'entries: for at in 0..history.len() {
        let entry = history.entry(alloc, at)?;
        let (client, asked, reply) = CALLS[at];
        all &= entry.call.client == client
            && (entry.call.fun, entry.call.desc) == asked.parts()
            && tells_reply(reply, &entry.reply);
    }
    Ok(all)
}

// Whether the calls of a client are numbered from 1 to a last one, in their order.
fn has_each_once(history: &History, client: u8, last: u32) -> bool {
    let mut seq: u32 = 0;
    'entries: for at in 0..history.len() {
        let call = history.at(at).call;
        if call.client == client {
            seq = seq.saturating_add(1);
            if call.seq != seq {
                return false;
            }
        }
    }
    seq == last
}

// Whether these are the entries of the calls, with so many withdrawn calls.
fn are_entries(
    alloc: Global,
    calls: Play,
    history: &History,
    left: usize,
) -> Result<bool, NoMemory> {
    Ok(match calls {
        Play::Turns => are_turns(alloc, history)? && left == 1,
        Play::Pairs => {
            history.len() == 201
                && has_each_once(history, 1, 101)
                && has_each_once(history, 2, 100)
                && left == 0
        }
        Play::Want { withdrawn, .. } => {
            history.len() == 3 && has_each_once(history, 1, 3) && left == withdrawn
        }
    })
}

// Makes the calls. Then there are their entries.
fn make_calls<R: Abort + Threads + Wait + Sync, H: Closes + Send>(
    rt: &R,
    alloc: Global,
    host: H,
    calls: Play,
) -> Result<(), Fail>
    requires may { TakesLockCalls H.may_offer }
    requires clients { H.clients ≡ 2 }
    requires log { H.log host ≡ [] }
{
    let played = match calls {
        Play::Turns => by_turns(rt, alloc, host),
        Play::Pairs => in_pairs(rt, alloc, host),
        Play::Want { at, again, .. } => with_want(rt, alloc, host, at, again),
    };
    let (history, withdrawn) = played?.closed();
    let are = are_entries(alloc, calls, &history, withdrawn)?;
    assert!(rt; are, "{calls:?}");
    Ok(())
}

// The clients of a world that is new make the calls, by its name.
fn in_named<R: Abort + Threads + Wait + Sync, N: WorldNames + Send + Sync>(
    rt: &R,
    alloc: Global,
    world: LockWorld,
    calls: Play,
) -> Result<(), Fail>
    requires declared { DeclaresLockCalls N.tables.iface }
    requires tables { world.tables ≡ N.tables }
    requires plan { world.plan ≡ N.plan }
    requires seats { length world.view.seats ≡ 2 }
    requires clients { N.clients ≡ 2 }
    requires log { log_of world.view ≡ [] }
{
    make_calls(rt, alloc, NamedWorld::<_, _, N>::new(world, CLIENTS), calls)
}

// Whether a world's interface declares the calls that make a lock, take it and release it.
fn declares_lock_calls(world: &LockWorld) -> bool
    requires { world.now.tables.iface.facts ≡ lock_facts }
    ensures { result ≡ true → DeclaresLockCalls world.now.tables.iface }
{
    let iface = world.interface();
    iface.declares(1) && iface.declares(2) && iface.declares(3)
}

// The same, by the name of its tables.
fn in_world<R: Abort + Threads + Wait + Sync>(
    rt: &R,
    alloc: Global,
    world: LockWorld,
    calls: Play,
) -> Result<(), Fail>
    requires facts { world.tables.iface.facts ≡ lock_facts }
    requires seats { length world.view.seats ≡ 2 }
    requires log { log_of world.view ≡ [] }
{
    assert!(rt; declares_lock_calls(&world));
    in_named::<_, Brand>(rt, alloc, world, calls)
}

// The same, of a world made here.
fn in_new_world<R: Abort + Threads + Wait + Sync>(
    rt: &R,
    alloc: Global,
    calls: Play,
) -> Result<(), Fail> {
    let tables = lock_tables(alloc)?;
    match World::new(alloc, (), tables, CLIENTS, Never::new()) {
        Ok(world) => in_world(rt, alloc, world, calls),
        Err(NoMemory) => Err(NoMemory)?,
    }
}

#[test]
fn two_clients_by_turns(rt: HostRuntime) -> Result<(), Fail> {
    in_new_world(&rt, rt.alloc(), Play::Turns)
}

#[test]
fn two_threads_in_pairs(rt: HostRuntime) -> Result<(), Fail> {
    in_new_world(&rt, rt.alloc(), Play::Pairs)
}

// A client's call takes an offer and two steps here: the service answers, and the reply is handed over.
#[test]
fn want_of_memory(rt: HostRuntime) -> Result<(), Fail> {
    for (at, again, withdrawn) in [
        (0, 0, 0),
        (1, 1, 0),
        (2, 1, 1),
        (3, 0, 0),
        (4, 1, 0),
        (5, 1, 1),
    ] {
        let calls = Play::Want {
            at,
            again,
            withdrawn,
        };
        in_new_world(&rt, rt.alloc(), calls)?;
    }
    Ok(())
}
