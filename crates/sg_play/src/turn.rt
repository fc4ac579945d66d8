// What a client does in its turn: it offers its next call, makes a step, and leaves after its last call.
ghost use Rattle.std.specs.Prelude.{◌≡◌, ◌⊎◌, ◌≤◌, ℕ, List, true, None, IfOk, OnOk, OnErr, length};
ghost use Rattle.sg_world.specs.sg_clients.Clients.{IsClient};
ghost use Rattle.sg_plain.specs.sg_hist.Inside.Reads.{desc_of};
ghost use Rattle.sg_plain.specs.Playing.Callers.{is_setting_up};
ghost use Rattle.sg_plain.specs.Playing.Given.{given_in, with_handed};
ghost use Rattle.sg_plain.specs.Playing.Playable.{AreClients};
ghost use Rattle.sg_plain.specs.Playing.Plays.{IsPlaying};
ghost use Rattle.sg_play.specs.Turning.{StepsInTurn, with_leaving, with_offer};
ghost use Rattle.sg_plain.specs.sg_clients.WorldView.{happened, seat_of};
ghost use Rattle.sg_world.specs.Steps.{LackedMemory};
ghost use Rattle.sg_world.specs.Worlded.{setting_of};
ghost use Rattle.sg_plain.specs.sg_clients.declared.phase.Phase.TheVariants.{Idle};
ghost use Rattle.sg_plain.specs.Playing.Turns.{is_free_phase};

use crate::calls::next_call;
use crate::parts::script_call;
use sg_facts::{NextCall, NoMemory, Reply, Service, Stops};
use sg_plain::{Phase, Script};
use sg_world::{Did, World};
use std::alloc::Global;

/// A client that has no call under way offers the next call of its script, where it has one. After `NoMemory` nothing changed but the
/// number of events.
pub fn offer_next<S: Service, T: Stops>(
    alloc: Global,
    world: &mut World<S, T>,
    script: &Script,
    given: &[u64],
    client: u8,
) -> Result<(), NoMemory>
    requires client { IsClient (length world.old.view.seats) client }
    requires setup { is_setting_up script.now world.old.view.seats ≡ true → client ≡ 1 }
    requires playing { (all : List (List ℕ)) × (given_in all client ≡ given.now) × IsPlaying world.old.tables.iface script.now world.old.view.history world.old.view.seats all }
    ensures ok { OnOk result (world.new.view ≡ with_offer world.old.tables.iface.facts script.now world.old.view client) }
    ensures err { OnErr result ((world.new.view ≡ world.old.view) ⊎ (world.new.view ≡ happened world.old.view)) }
    ensures playing { (all : List (List ℕ)) → IsPlaying world.old.tables.iface script.now world.old.view.history world.old.view.seats all
        → IsPlaying world.old.tables.iface script.now world.new.view.history world.new.view.seats all }
    ensures setup { is_setting_up script.now world.new.view.seats ≡ true → client ≡ 1 }
    ensures tables { world.new.tables ≡ world.old.tables }
    ensures plan { world.new.plan ≡ world.old.plan }
{
    if !is_free(world.phase(client)) {
        return Ok(());
    }
    let next = next_call(alloc, world.interface(), script, given, client)?;
    let Some(call) = next else {
        return Ok(());
    };
    let NextCall { fun, desc, args } = call;
    world.offer(alloc, client, fun, desc, args)
}

/// A client makes a step, and leaves where its last call is answered. Gives the descriptor of the reply that was handed over, 0 for none;
/// None where no reply was.
pub fn make_step<S: Service, T: Stops>(
    alloc: Global,
    world: &mut World<S, T>,
    script: &Script,
    client: u8,
) -> Result<Option<u64>, NoMemory>
    requires client { IsClient (length world.old.view.seats) client }
    requires setup { is_setting_up script.now world.old.view.seats ≡ true → client ≡ 1 }
    requires playing { (all : List (List ℕ)) × IsPlaying world.old.tables.iface script.now world.old.view.history world.old.view.seats all }
    ensures steps { IfOk result (λ handed. StepsInTurn (setting_of S.ask S.sound S.parts world.old.tables) script.now world.old.view client handed world.new.view) }
    ensures wants { OnErr result (LackedMemory (setting_of S.ask S.sound S.parts world.old.tables) world.old.view client world.new.view) }
    ensures ok { (all : List (List ℕ)) → IsPlaying world.old.tables.iface script.now world.old.view.history world.old.view.seats all
        → IfOk result (λ handed. IsPlaying world.old.tables.iface script.now world.new.view.history world.new.view.seats (with_handed all client handed)) }
    ensures err { (all : List (List ℕ)) → IsPlaying world.old.tables.iface script.now world.old.view.history world.old.view.seats all
        → OnErr result (IsPlaying world.old.tables.iface script.now world.new.view.history world.new.view.seats all) }
    ensures tables { world.new.tables ≡ world.old.tables }
    ensures plan { world.new.plan ≡ world.old.plan }
{
    match world.step(alloc, client)? {
        Did::Answered(reply) => {
            leave_if_done(world, script, client);
            Ok(Some(desc_of(&reply)))
        }
        Did::Skipped
        | Did::Struck
        | Did::Booted
        | Did::Replayed
        | Did::Loaded
        | Did::Served
        | Did::Blocked
        | Did::Lost => Ok(None),
    }
}

// A client whose call was answered leaves where it has no more.
fn leave_if_done<S: Service, T: Stops>(world: &mut World<S, T>, script: &Script, client: u8)
    requires client { IsClient (length world.old.view.seats) client }
    requires idle { (seat_of world.old.view client).phase ≡ Idle }
    requires clients { AreClients 0 script.now.clients }
    ensures view { world.new.view ≡ with_leaving script.now world.old.view client }
    ensures playing { (all : List (List ℕ)) → IsPlaying world.old.tables.iface script.now world.old.view.history world.old.view.seats all
        → IsPlaying world.old.tables.iface script.now world.new.view.history world.new.view.seats all }
    ensures tables { world.new.tables ≡ world.old.tables }
    ensures plan { world.new.plan ≡ world.old.plan }
{
    let done = world.seq(client) as usize;
    if script_call(script, client, done).is_none() {
        world.leave(client);
    }
}

// Whether a client in a phase has no call under way.
fn is_free(phase: Phase) -> bool
    ensures { result ≡ is_free_phase phase }
{
    matches!(phase, Phase::Idle | Phase::Left)
}

/// The descriptor of a reply, 0 for none.
pub fn desc_of(reply: &Reply) -> u64
    ensures { result ≡ desc_of reply.now }
{
    match reply {
        Reply::Ok(good) => good.desc,
        Reply::Refused(_) => 0,
    }
}
