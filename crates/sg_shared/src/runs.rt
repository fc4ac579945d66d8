// Plays a script on threads.
ghost use Rattle.std.specs.Prelude.{◌≡◌, [], true, false, IfOk};
ghost use Rattle.sg_edge.specs.Stops.{AscendsAbove, struck_of, up_to};
ghost use Rattle.sg_sim.specs.sg_plain.Calls.{most_client};
ghost use Rattle.sg_sim.specs.sg_plain.Playing.Playable.{IsPlayable};
ghost use Rattle.sg_sim.specs.Played.{IsPlayed};
ghost use Rattle.sg_shared.specs.Inside.Seats.{AllFree};
ghost use Rattle.sg_shared.specs.Reached.{IsReachedEnd};
ghost use Rattle.sg_sim.specs.Playing.{ComesTo, new_of};
ghost use Rattle.sg_sim.specs.sg_plain.Playing.Callers.{is_setting_up};
ghost use Rattle.sg_sim.specs.sg_plain.Answering.{no_query_waits};
ghost use Rattle.sg_sim.specs.sg_world.Worlded.{setting_of};

use crate::naming::Naming;
use crate::threads::{NOBODY, Stage, play_clients};
use crate::world::share_world;
use sg_edge::{AtPoints, Gate};
use sg_facts::{NoMemory, Service, Tables, TryCopy};
use sg_sim::{Play, Played, Script, discard, most_client};
use std::alloc::Global;
use std::marker::Brand;
use std::sync::Wait;
use std::sync::atomic::AtomicU8;
use std::thread::Threads;

/// Plays a script to its end on a service, by its tables: until no client can take a turn. Client 1 makes the calls of the setup here; then
/// each client with calls left makes them through its pass, in a thread of its own, and passes the gate before it offers a call and after
/// the call was answered. What is left then is played here. The service stops at the points of the script. `NoMemory` where memory was
/// wanting.
pub fn run<R: Threads + Wait + Sync, S: Service + Send, G: Gate>(
    rt: &R,
    alloc: Global,
    image: S::Image,
    tables: Tables,
    script: Script,
    gate: &G,
) -> Result<Played, NoMemory>
where
    S::Image: Send,
    requires service { tables.iface.facts ≡ S.facts }
    requires playable { IsPlayable tables.iface script }
    requires waits { no_query_waits tables.iface.facts ≡ true }
    requires stops { AscendsAbove 0 script.stops }
    ensures played { IfOk result (IsPlayed (record { interface = tables.iface; ask = S.ask; parts = S.parts; walks = tables.walks }) (λ asked struck plan. struck ≡ up_to asked plan) script script.stops) }
    ensures world { IfOk result (IsReachedEnd (setting_of S.ask S.sound S.parts tables) script) }
{
    let stops = AtPoints::new(script.stops.copy(alloc)?);
    run_named::<R, S, G, Brand>(rt, alloc, image, tables, script, stops, gate)
}

// Plays the script of a name by the tables of that name.
fn run_named<R: Threads + Wait + Sync, S: Service + Send, G: Gate, N: Naming + Send + Sync>(
    rt: &R,
    alloc: Global,
    image: S::Image,
    tables: Tables,
    script: Script,
    stops: AtPoints,
    gate: &G,
) -> Result<Played, NoMemory>
where
    S::Image: Send,
    requires tables { tables ≡ N.tables }
    requires script { script ≡ N.script }
    requires clients { N.clients ≡ most_client N.script.clients }
    requires stops { N.plan ≡ N.script.stops }
    requires service { tables.iface.facts ≡ S.facts }
    requires playable { IsPlayable tables.iface script }
    requires waits { no_query_waits tables.iface.facts ≡ true }
    requires plan { stops.plan ≡ script.stops }
    requires asked { stops.asked ≡ 0 }
    requires struck { struck_of stops ≡ [] }
    ensures played { IfOk result (IsPlayed (record { interface = N.tables.iface; ask = S.ask; parts = S.parts; walks = N.tables.walks }) (λ asked struck plan. struck ≡ up_to asked plan) N.script N.script.stops) }
    ensures world { IfOk result (IsReachedEnd (setting_of S.ask S.sound S.parts N.tables) N.script) }
{
    let interface = tables.interface().copy(alloc)?;
    let play = set_up(
        alloc,
        Play::<S, AtPoints>::new(alloc, image, tables, script, stops)?,
    )?;
    let (world, script) = play.parts();
    let Ok(setup) = world.history().copied(alloc) else {
        discard(world);
        return Err(NoMemory);
    };
    let clients = most_client(script.clients.as_slice());
    let (shared, passes) = share_world::<S, N>(alloc, world, clients)?;
    let stage = Stage {
        shared: &shared,
        script: &script,
        interface: &interface,
        setup: &setup,
        gate,
        unstarted: AtomicU8::new(NOBODY),
    };
    let passes = play_clients(rt, alloc, stage, passes);
    let world = shared.close(passes).into_world();
    Play::over(alloc, world, script)?.finish(alloc)
}

// A play in which nothing was done plays its setup. No client has a call under way then.
fn set_up<S: Service>(
    alloc: Global,
    mut play: Play<S, AtPoints>,
) -> Result<Play<S, AtPoints>, NoMemory>
    requires { play.view ≡ new_of play.script }
    ensures tables { IfOk result (λ p. p.tables ≡ play.tables) }
    ensures script { IfOk result (λ p. p.script ≡ play.script) }
    ensures plan { IfOk result (λ p. p.plan ≡ play.plan) }
    ensures done { IfOk result (λ p. is_setting_up play.script p.view.seats ≡ false) }
    ensures free { IfOk result (λ p. AllFree p.view) }
    ensures turns { IfOk result (λ p. ComesTo (setting_of S.ask S.sound S.parts play.tables) play.script (new_of play.script) p.view) }
{
    match play.setup(alloc) {
        Ok(()) => Ok(play),
        Err(NoMemory) => {
            play.abandon();
            Err(NoMemory)
        }
    }
}
