// A world that threads play a script on.
ghost use Rattle.std.specs.Prelude.{◌≡◌, true, IfOk};
ghost use Rattle.sg_facts.specs.sg_base.Lists.{Each};
ghost use Rattle.sg_log.specs.Names.{TellsWorld};
ghost use Rattle.sg_log.specs.sg_turn.Seats.{all_seats};
ghost use Rattle.sg_shared.specs.Inside.Keeping.{KeepsPlayed};
ghost use Rattle.sg_shared.specs.Inside.Seats.{AllFree, MayPlay};
ghost use Rattle.sg_shared.specs.Reached.{ComesByEvents};
ghost use Rattle.sg_sim.specs.Playing.{new_of};
ghost use Rattle.sg_sim.specs.sg_plain.Calls.{most_client};
ghost use Rattle.sg_sim.specs.sg_play.GoingOn.{MayGoOn};
ghost use Rattle.sg_sim.specs.sg_plain.Answering.{no_query_waits};
ghost use Rattle.sg_sim.specs.sg_world.Worlded.{setting_of};

use crate::naming::Naming;
use sg_edge::AtPoints;
use sg_facts::{Args, NoMemory, Service};
use sg_log::{Host, Kept, NamedWorld, PassList, Shared, Stepped, World, stepped_of};
use sg_sim::tell_world;
use std::alloc::Global;
use std::marker::Model;

/// A world whose clients make the calls of a script, each event in a hold of its own. Unless a call was withdrawn a play can go on over
/// it. Contracts see the world.
#[derive(Drop)]
pub struct PlayedWorld<S: Service, N: Naming> {
    named: NamedWorld<S, AtPoints, N>,
}

impl<S: Service, N: Naming> Model for PlayedWorld<S, N> {
    ghost use Rattle.sg_shared.specs.Inside.Keeping.{KeepsPlayed};
    ghost use Rattle.sg_sim.specs.sg_world.Worlded.{Worlded, setting_of};

    ghost Value = { Worlded };

    ghost view = { λ p. p.named.world };

    ghost invariant = { λ p. KeepsPlayed (setting_of S.ask S.sound S.parts N.tables) N.script p.named.world.view };
}

impl<S: Service, N: Naming> PlayedWorld<S, N> {
    /// A world over which a play of the named script can go on, by its tables, with so many clients.
    pub fn new(world: World<S, AtPoints>, clients: u8) -> PlayedWorld<S, N>
        requires tables { world.tables ≡ N.tables }
        requires plan { world.plan ≡ N.plan }
        requires count { clients ≡ N.clients }
        requires clients { clients ≡ most_client N.script.clients }
        requires waits { no_query_waits N.tables.iface.facts ≡ true }
        requires goes { MayGoOn (setting_of S.ask S.sound S.parts N.tables) N.script world.view }
        requires comes { ComesByEvents (setting_of S.ask S.sound S.parts N.tables) N.script (new_of N.script) world.view }
        ensures { result ≡ world }
    {
        PlayedWorld {
            named: NamedWorld::new(world, clients),
        }
    }

    /// The world. Unless a call was withdrawn a play can go on over it, and it comes of a new one by events.
    pub fn into_world(self) -> World<S, AtPoints>
        ensures world { result ≡ self }
        ensures tables { result.tables ≡ N.tables }
        ensures plan { result.plan ≡ N.plan }
        ensures keeps { KeepsPlayed (setting_of S.ask S.sound S.parts N.tables) N.script result.view }
    {
        self.named.into_world()
    }

    /// Its log tells it, for the proof: nothing is done.
    pub fn tell(&self)
        ensures { TellsWorld self.now.view }
    {
        self.named.tell();
    }
}

/// Shares a world over which a play of the named script can go on, by its tables, with so many clients of which none has a call under
/// way. After `NoMemory` the world is dropped.
pub fn share_world<S: Service, N: Naming>(
    alloc: Global,
    world: World<S, AtPoints>,
    clients: u8,
) -> Result<(Shared<PlayedWorld<S, N>>, PassList<PlayedWorld<S, N>>), NoMemory>
    requires tables { world.tables ≡ N.tables }
    requires plan { world.plan ≡ N.plan }
    requires count { clients ≡ N.clients }
    requires clients { clients ≡ most_client N.script.clients }
    requires waits { no_query_waits N.tables.iface.facts ≡ true }
    requires goes { MayGoOn (setting_of S.ask S.sound S.parts N.tables) N.script world.view }
    requires comes { ComesByEvents (setting_of S.ask S.sound S.parts N.tables) N.script (new_of N.script) world.view }
    requires free { AllFree world.view }
    ensures passes { IfOk result (λ s. s.1.items ≡ all_seats s.0 N.clients) }
    ensures play { IfOk result (λ s. Each (MayPlay s.0 world.view.history) s.1.items) }
{
    let played = PlayedWorld::new(world, clients);
    played.tell();
    Shared::new(alloc, played)
}

impl<S: Service, N: Naming> Kept for PlayedWorld<S, N> {
    ghost use Rattle.sg_log.specs.Log.{log_of};

    ghost log = { λ w. log_of w.view };

    ghost events = { λ w. w.view.events };
}

impl<S: Service, N: Naming> Host for PlayedWorld<S, N> {
    ghost use Rattle.sg_facts.specs.Legal.{LegalFrom};
    ghost use Rattle.sg_facts.specs.Object.{empty_object};
    ghost use Rattle.sg_log.specs.Names.{HasNoAnswer, phases_of};
    ghost use Rattle.sg_sim.specs.sg_play.NextCall.{IsNextCall};
    ghost use Rattle.sg_sim.specs.sg_clients.WorldView.{MayWithdraw, seat_of};

    ghost clients = { N.clients };

    ghost legal = { LegalFrom N.tables.iface S.ask empty_object };

    ghost waits = { HasNoAnswer N.tables.iface S.ask };

    ghost may_offer = { IsNextCall N.tables.iface N.script };

    ghost phases = { λ w. phases_of w.view };

    ghost may_give_up = { λ w client. MayWithdraw (seat_of w.view client).phase };

    fn client_count(&self) -> u8 {
        self.named.client_count()
    }

    fn offer(
        &mut self,
        alloc: Global,
        client: u8,
        fun: u8,
        desc: u64,
        args: Args,
    ) -> Result<(), NoMemory> {
        let named = &mut self.named;
        named.tell();
        named.offer_call(alloc, client, fun, desc, args)
    }

    fn step(&mut self, alloc: Global, client: u8) -> Result<Stepped, NoMemory> {
        let named = &mut self.named;
        tell_world(&named.world);
        let did = named.make_step(alloc, client);
        tell_world(&named.world);
        let did = did?;
        Ok(stepped_of(did))
    }

    fn may_withdraw(&self, client: u8) -> bool {
        self.named.may_withdraw(client)
    }

    fn is_all_blocked(&self, client: u8) -> bool {
        self.named.is_all_blocked(client)
    }

    fn is_waiting(&self, client: u8) -> bool {
        self.named.is_waiting(client)
    }

    fn withdraw(&mut self, client: u8) {
        self.named.withdraw_call(client);
    }

    fn leave(&mut self, client: u8) {
        let named = &mut self.named;
        named.tell();
        named.take_leave(client);
    }
}
