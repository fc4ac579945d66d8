// The turn of a client.
ghost use Rattle.std.specs.Prelude.{◌≡◌, ◌≤◌, ℕ, List, [], true, IfOk, OnErr, length};
ghost use Rattle.sg_play.specs.sg_clients.Clients.{IsClient};
ghost use Rattle.sg_play.specs.Recovering.{RecoversSoFar};
ghost use Rattle.sg_play.specs.sg_plain.Playing.Callers.{is_setting_up};
ghost use Rattle.sg_play.specs.sg_plain.Playing.Plays.{IsPlaying};
ghost use Rattle.sg_sim.specs.Inside.Givens.{lists_of};
ghost use Rattle.sg_sim.specs.Inside.Taken.{MissesTurn, TakesTurn};
ghost use Rattle.sg_play.specs.sg_world.Worlded.{setting_of};

use crate::given::Given;
use sg_facts::{NoMemory, Service, Stops};
use sg_play::{Script, World, make_step, offer_next};
use std::alloc::Global;

/// A client takes its turn: it offers its next call where it has none under way, makes a step, and leaves after its last call. What it
/// is given is noted where a reply is handed over: the descriptor, 0 for none. None where no reply was.
pub fn take_turn<S: Service, T: Stops>(
    alloc: Global,
    world: &mut World<S, T>,
    script: &Script,
    given: &mut Given,
    client: u8,
) -> Result<Option<u64>, NoMemory>
    requires client { IsClient (length world.old.view.seats) client }
    requires setup { is_setting_up script.now world.old.view.seats ≡ true → client ≡ 1 }
    requires playing { IsPlaying world.old.tables.iface script.now world.old.view.history world.old.view.seats (lists_of given.old) }
    ensures taken { IfOk result (λ handed. TakesTurn (setting_of S.ask S.sound S.parts world.old.tables) script.now world.old.view (lists_of given.old) client handed world.new.view (lists_of given.new)) }
    ensures missed { OnErr result (MissesTurn (setting_of S.ask S.sound S.parts world.old.tables) script.now world.old.view (lists_of given.old) client world.new.view (lists_of given.new)) }
    ensures tables { world.new.tables ≡ world.old.tables }
    ensures plan { world.new.plan ≡ world.old.plan }
{
    given.reserve(client)?;
    offer_next(alloc, world, script, given.of(client), client)?;
    tell_world(world);
    let handed = make_step(alloc, world, script, client)?;
    if let Some(id) = handed {
        given.add(client, id);
    }
    tell_world(world);
    Ok(handed)
}

/// What a world keeps, for the proof: nothing is done, and it takes what these calls promise.
pub fn tell_world<S: Service, T: Stops>(world: &World<S, T>)
    ensures { RecoversSoFar (setting_of S.ask S.sound S.parts world.now.tables) world.now.view }
{
    let _ = world.interface();
    let _ = world.history();
    let _ = world.trace();
}
