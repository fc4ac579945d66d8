// The threads of the clients.
ghost use Rattle.std.specs.Prelude.{◌≡◌, ◌≤◌, true, vec_capacity, vec_len};
ghost use Rattle.sg_facts.specs.sg_base.Lists.{Each};
ghost use Rattle.sg_log.specs.sg_turn.Passes.{standing_of};
ghost use Rattle.sg_log.specs.sg_turn.Told.{HasNoCall};
ghost use Rattle.sg_shared.specs.Inside.Seats.{AreSamePasses, IsSamePass, MayPlay};
ghost use Rattle.sg_sim.specs.sg_plain.Playing.Playable.{IsPlayable};

use crate::naming::Naming;
use crate::world::PlayedWorld;
use sg_edge::Gate;
use sg_facts::{Interface, Service};
use sg_log::{InvokeFault, Pass, PassList, Shared};
use sg_sim::{History, NextCall, Script, desc_of, ids_of, next_call};
use std::alloc::Global;
use std::snapshot::Snapshot;
use std::sync::Wait;
use std::sync::atomic::{AtomicU8, Ordering};
use std::thread;
use std::thread::{Promise, Scope, Threads};

/// The number that no client has.
pub const NOBODY: u8 = 0;

/// What the threads of a play have in common.
#[derive(Drop)]
pub struct Stage<'a, S: Service, N: Naming, G: Gate> {
    pub shared: &'a Shared<PlayedWorld<S, N>>,
    pub script: &'a Script,
    pub interface: &'a Interface,
    /// The entries that there were before the threads.
    pub setup: &'a History,
    pub gate: &'a G,
    /// A client whose thread isn't started; `NOBODY` before any is.
    pub unstarted: AtomicU8,
}

// That a pass which comes back from its thread is the one that went there.
#[derive(Drop)]
struct SamePass<S: Service, N: Naming>(Snapshot<Pass<PlayedWorld<S, N>>>);

impl<S: Service, N: Naming> Promise<Pass<PlayedWorld<S, N>>> for SamePass<S, N> {
    ghost kept_by = { λ p r. IsSamePass p.0.value r };
}

/// The calls that are left are made: each client makes its own in a thread of its own, and one whose thread isn't started leaves. The
/// passes come back when each thread ended.
pub fn play_clients<R: Threads + Wait + Sync, S: Service + Send, N: Naming + Send + Sync, G: Gate>(
    rt: &R,
    alloc: Global,
    stage: Stage<'_, S, N, G>,
    passes: PassList<PlayedWorld<S, N>>,
) -> PassList<PlayedWorld<S, N>>
where
    S::Image: Send,
    requires script { stage.script.now ≡ N.script }
    requires interface { stage.interface.now ≡ N.tables.iface }
    requires playable { IsPlayable N.tables.iface N.script }
    requires passes { Each (MayPlay stage.shared.now stage.setup.now.items) passes.items }
    ensures { AreSamePasses passes.items result.items }
{
    play_all(rt, alloc, &stage, passes)
}

// The same, on a stage that stays for as long.
fn play_all<R: Threads + Wait + Sync, S: Service + Send, N: Naming + Send + Sync, G: Gate>(
    rt: &R,
    alloc: Global,
    stage: &Stage<'_, S, N, G>,
    passes: PassList<PlayedWorld<S, N>>,
) -> PassList<PlayedWorld<S, N>>
where
    S::Image: Send,
    requires script { stage.now.script.now ≡ N.script }
    requires interface { stage.now.interface.now ≡ N.tables.iface }
    requires playable { IsPlayable N.tables.iface N.script }
    requires passes { Each (MayPlay stage.now.shared.now stage.now.setup.now.items) passes.items }
    ensures { AreSamePasses passes.items result.items }
{
    thread::scope(
        thread::scope_env(),
        rt,
        |scope| -> PassList<PlayedWorld<S, N>>
            requires script { stage.now.script.now ≡ N.script }
            requires interface { stage.now.interface.now ≡ N.tables.iface }
            requires playable { IsPlayable N.tables.iface N.script }
            requires passes { Each (MayPlay stage.now.shared.now stage.now.setup.now.items) passes.items }
            ensures { AreSamePasses passes.items result.items }
        { play_rest(rt, alloc, scope, stage, passes) },
    )
}

// Starts a thread for each of these clients, the last first, and takes the passes back in their order.
fn play_rest<'s, E, R: Threads + Wait + Sync, S: Service + Send, N: Naming + Send + Sync, G: Gate>(
    rt: &'s R,
    alloc: Global,
    scope: &Scope<'s, E>,
    stage: &'s Stage<'_, S, N, G>,
    mut passes: PassList<PlayedWorld<S, N>>,
) -> PassList<PlayedWorld<S, N>>
where
    S::Image: Send,
    requires script { stage.now.script.now ≡ N.script }
    requires interface { stage.now.interface.now ≡ N.tables.iface }
    requires playable { IsPlayable N.tables.iface N.script }
    requires passes { Each (MayPlay stage.now.shared.now stage.now.setup.now.items) passes.items }
    ensures same { AreSamePasses passes.items result.items }
    ensures count { vec_len result ≡ vec_len passes }
    ensures room { vec_capacity passes ≤ vec_capacity result }
{
    let Some(pass) = passes.pop() else {
        return passes;
    };
    let client = pass.client();
    let same = SamePass(Snapshot::of(&pass));
    let play = move || -> Pass<PlayedWorld<S, N>>
        requires script { stage.now.script.now ≡ N.script }
        requires interface { stage.now.interface.now ≡ N.tables.iface }
        requires playable { IsPlayable N.tables.iface N.script }
        requires pass { MayPlay stage.now.shared.now stage.now.setup.now.items pass }
        ensures { IsSamePass pass result }
    { play_client(rt, alloc, stage, pass) };
    match scope.spawn_with(same, play) {
        Ok(handle) => {
            let mut played = play_rest(rt, alloc, scope, stage, passes);
            played.push_reserved(handle.join(rt));
            played
        }
        Err(refused) => {
            stage.unstarted.store(client, Ordering::SeqCst);
            let pass = (refused.value)();
            let mut played = play_rest(rt, alloc, scope, stage, passes);
            played.push_reserved(pass);
            played
        }
    }
}

// Makes the calls that a client has left, and leaves where none of them is under way then. A client whose thread isn't started makes
// none.
fn play_client<R: Wait, S: Service, N: Naming, G: Gate>(
    rt: &R,
    alloc: Global,
    stage: &Stage<'_, S, N, G>,
    mut pass: Pass<PlayedWorld<S, N>>,
) -> Pass<PlayedWorld<S, N>>
    requires script { stage.now.script.now ≡ N.script }
    requires interface { stage.now.interface.now ≡ N.tables.iface }
    requires playable { IsPlayable N.tables.iface N.script }
    requires pass { MayPlay stage.now.shared.now stage.now.setup.now.items pass }
    ensures { IsSamePass pass result }
{
    let starts = stage.unstarted.load(Ordering::SeqCst) != pass.client();
    if starts && !make_calls(rt, alloc, stage, &mut pass) {
        return pass;
    }
    stage.shared.leave(rt, &mut pass);
    pass
}

// Makes the calls that a client has left, and passes the gate before it offers each, and after it was answered. Whether it has no call
// under way then; else its call can't be answered, and nobody can go on.
fn make_calls<R: Wait, S: Service, N: Naming, G: Gate>(
    rt: &R,
    alloc: Global,
    stage: &Stage<'_, S, N, G>,
    pass: &mut Pass<PlayedWorld<S, N>>,
) -> bool
    requires script { stage.now.script.now ≡ N.script }
    requires interface { stage.now.interface.now ≡ N.tables.iface }
    requires playable { IsPlayable N.tables.iface N.script }
    requires pass { MayPlay stage.now.shared.now stage.now.setup.now.items pass.old }
    ensures same { IsSamePass pass.old pass.new }
    ensures free { result ≡ true → HasNoCall (standing_of pass.new) }
{
    let client = pass.client();
    let Ok(mut given) = ids_of(alloc, stage.setup, client) else {
        return true;
    };
    for _ in rt.forever() {
        let next = next_call(
            alloc,
            stage.interface,
            stage.script,
            given.as_slice(),
            client,
        );
        let Ok(Some(call)) = next else {
            return true;
        };
        if given.reserve(1).is_err() {
            return true;
        }
        let seq = given.len() as u32 + 1;
        let NextCall { fun, desc, args } = call;
        stage.gate.before(client, seq);
        match stage.shared.play_call(rt, alloc, pass, fun, desc, args) {
            Ok(reply) => {
                given.add(desc_of(&reply));
                stage.gate.after(client, seq);
            }
            Err(InvokeFault::NoMemory) => return true,
            Err(InvokeFault::AllBlocked) => return false,
        }
    }
    unreachable!()
}
