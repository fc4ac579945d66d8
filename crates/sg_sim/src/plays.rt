// Plays a script.
ghost use Rattle.std.specs.Prelude.{◌≡◌, [], true, IfOk};
ghost use Rattle.sg_facts.specs.Trace.{run_of};
ghost use Rattle.sg_play.specs.sg_plain.Playing.Playable.{IsPlayable};
ghost use Rattle.sg_play.specs.sg_world.Worlded.{setting_of};
ghost use Rattle.sg_sim.specs.Played.{FollowsSchedule, IsPlayed};
ghost use Rattle.sg_sim.specs.Playing.{EndsAs, new_of};
ghost use Rattle.sg_play.specs.sg_plain.Answering.{no_query_waits};

use crate::{Play, Played};
use sg_facts::{NoMemory, Service, Stops, Tables};
use sg_play::Script;
use std::alloc::Global;

/// Plays a script to its end on a service, by its tables: until no client can take a turn. The service stops where its stops say, of
/// which none was asked yet, and until then the turns are those of the play without stops. `NoMemory` also where a step of its world
/// wanted memory.
pub fn play_script<S: Service, T: Stops>(
    alloc: Global,
    image: S::Image,
    tables: Tables,
    script: Script,
    stops: T,
) -> Result<Played, NoMemory>
    requires service { tables.iface.facts ≡ S.facts }
    requires playable { IsPlayable tables.iface script }
    requires waits { no_query_waits tables.iface.facts ≡ true }
    requires unasked { T.asked stops ≡ 0 }
    requires unstruck { T.struck stops ≡ [] }
    ensures played { IfOk result (IsPlayed (record { interface = tables.iface; ask = S.ask; parts = S.parts; walks = tables.walks }) T.test script (T.plan stops)) }
    ensures schedule { IfOk result (λ ended. FollowsSchedule tables.iface S.ask script (run_of ended.trace) ended.history.items) }
    ensures world { IfOk result (EndsAs (setting_of S.ask S.sound S.parts tables) script (new_of script)) }
{
    let play = Play::<S, T>::new(alloc, image, tables, script, stops)?;
    play.finish(alloc)
}
