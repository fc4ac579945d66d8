// Plays of a script on a service, in one thread or with a thread for each client.
ghost use Rattle.std.specs.Prelude.{◌≡◌, [], true, IfOk};
ghost use Rattle.sg_edge.specs.Stops.{AscendsAbove, struck_of};
ghost use Rattle.sg_sim.specs.sg_plain.Playing.Playable.{IsPlayable};
ghost use Rattle.sg_shared.specs.Runs.{IsRunInOrder, IsRunOf};
ghost use Rattle.sg_sim.specs.sg_plain.Answering.{no_query_waits};

use crate::runs::run;
use sg_edge::{AtPoints, Gate};
use sg_facts::{NoMemory, Service, TryCopy};
use sg_sim::{Played, Script, play_script};
use sg_stub::{Accepted, compile};
use std::alloc::Global;
use std::sync::Wait;
use std::thread::Threads;

/// Plays a script in one thread on a service, under an accepted interface of it, until no client can take a turn. The service stops at
/// the script's points, and until then the turns are those of the play without stops. It answers `NoMemory` where there is no memory
/// for the play, or a step of it wanted memory.
pub fn simulate<S: Service>(
    alloc: Global,
    image: S::Image,
    accepted: &Accepted,
    script: Script,
) -> Result<Played, NoMemory>
    requires service { accepted.now.facts ≡ S.facts }
    requires waits { no_query_waits S.facts ≡ true }
    requires playable { IsPlayable accepted.now script }
    requires stops { AscendsAbove 0 script.stops }
    ensures { IfOk result (IsRunInOrder accepted.now (record { facts = S.facts; ask = S.ask; parts = S.parts }) script) }
{
    let stops = stops_of(alloc, &script)?;
    let tables = compile(alloc, accepted)?;
    play_script::<S, AtPoints>(alloc, image, tables, script, stops)
}

// The stops of a script, of which no point was asked yet.
fn stops_of(alloc: Global, script: &Script) -> Result<AtPoints, NoMemory>
    requires { AscendsAbove 0 script.now.stops }
    ensures plan { IfOk result (λ stops. stops.plan ≡ script.now.stops) }
    ensures asked { IfOk result (λ stops. stops.asked ≡ 0) }
    ensures struck { IfOk result (λ stops. struck_of stops ≡ []) }
{
    Ok(AtPoints::new(script.stops.copy(alloc)?))
}

/// Plays a script on a service, under an accepted interface of it, with a thread for each client, in whatever order they come. Each
/// thread passes the gate before it offers a call of its client, and after the call was answered. It answers `NoMemory` where there is
/// no memory for the play, or a step of it wanted memory; and it may wait.
pub fn share<R: Threads + Wait + Sync, S: Service + Send, G: Gate>(
    rt: &R,
    alloc: Global,
    image: S::Image,
    accepted: &Accepted,
    script: Script,
    gate: &G,
) -> Result<Played, NoMemory>
where
    S::Image: Send,
    requires service { accepted.now.facts ≡ S.facts }
    requires waits { no_query_waits S.facts ≡ true }
    requires playable { IsPlayable accepted.now script }
    requires stops { AscendsAbove 0 script.stops }
    ensures { IfOk result (IsRunOf accepted.now (record { facts = S.facts; ask = S.ask; parts = S.parts }) script) }
{
    let tables = compile(alloc, accepted)?;
    run::<R, S, G>(rt, alloc, image, tables, script, gate)
}
