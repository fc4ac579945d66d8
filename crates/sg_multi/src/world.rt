// The world of one service, whichever it is.
ghost use Rattle.std.specs.Prelude.{◌≡◌, ◌+◌, ◌≤◌, ◌<◌, ◌^◌, [], List, IfOk, OnErr, OnOk, length, replicate, true};
ghost use Rattle.sg_edge.specs.Stops.{struck_of, up_to};
ghost use Rattle.sg_facts.specs.Interface.{declares};
ghost use Rattle.sg_facts.specs.Kinds.{AreWords, FitsKinds};
ghost use Rattle.sg_facts.specs.Limits.{last_client};
ghost use Rattle.sg_facts.specs.declared.entry.Entry.{Entry as IsEntry};
ghost use Rattle.sg_sim.specs.Played.{IsOfWorld};
ghost use Rattle.sg_sim.specs.sg_clients.WorldView.{IsFree, happened, new_world, no_seat, offered, seat_of, unanswered, with_leave};
ghost use Rattle.sg_sim.specs.sg_plain.Playing.Given.{GaveIds};
ghost use Rattle.sg_sim.specs.sg_play.NextCall.{IsResolved};
ghost use Rattle.sg_sim.specs.sg_play.Recovering.{RecoversSoFar};
ghost use Rattle.sg_sim.specs.sg_play.sg_clients.Clients.{IsClient};
ghost use Rattle.sg_sim.specs.sg_play.sg_hist.Recovered.{IsRecovered, struck_in};
ghost use Rattle.sg_sim.specs.sg_world.Steps.{AnswersLast, HasStepped, LackedMemory};
ghost use Rattle.sg_sim.specs.sg_world_laws.Setting.{stubs_of};

use sg_edge::AtPoints;
use sg_facts::{Args, Call, NoMemory, Service, Tables};
use sg_sim::{
    Did, EndList, Ended, NextCall, Phase, ScriptCall, World, discard, resolve, tell_world,
};
use std::alloc::Global;

/// The world of one service, whichever it is, that stops at points which are listed. Contracts see it as plain data, with what doesn't
/// change in it.
pub trait ServiceWorld {
    ghost use Rattle.sg_sim.specs.sg_world.Worlded.{Worlded};
    ghost use Rattle.sg_sim.specs.sg_world_laws.Setting.{Setting};

    ghost seen: { Self → Worlded };

    ghost setting: { Self → Setting };

    // Whether two worlds are of one service.
    ghost of_one: { Self → Self → Type 0 };

    /// How far a client has come with its call of this service.
    fn phase(&self, client: u8) -> Phase
        requires client { IsClient (length (seen self.now).view.seats) client }
        ensures { result ≡ (seat_of (seen self.now).view client).phase };

    /// The call that a client offered last, lent.
    fn call(&self, client: u8) -> &Call
        requires client { IsClient (length (seen self.now).view.seats) client }
        ensures { result.now ≡ (seat_of (seen self.now).view client).call };

    /// The number of a client's entries, which is that of its last; its next call has the next number.
    fn seq(&self, client: u8) -> u32
        requires client { IsClient (length (seen self.now).view.seats) client }
        ensures { result ≡ (seat_of (seen self.now).view client).seq };

    /// What a client says of a call that a script gives it, where its calls so far were given these descriptors.
    fn next_call(
        &self,
        alloc: Global,
        given: &[u64],
        call: &ScriptCall,
    ) -> Result<NextCall, NoMemory>
        ensures call { (own : List IsEntry) → GaveIds own given.now → IfOk result (IsResolved (seen self.now).tables.iface.facts own call.now) }
        ensures words { IfOk result (λ next. AreWords next.args) };

    /// The calls of this service that were done and what was done to it, copied, with these as its clients' ends.
    fn ended(&self, alloc: Global, ends: EndList) -> Result<Ended, NoMemory>
        ensures its { IfOk result (IsOfWorld (seen self.now).view) }
        ensures ends { IfOk result (λ ended. ended.ends ≡ ends) };

    /// The number of its steps that wanted memory, up to the greatest number.
    fn refused(&self) -> u64
        ensures { result ≡ (seen self.now).view.refused };

    /// What it keeps, for the proof: nothing is done. It stopped at the points of its plan that were asked, and at no others; and where no
    /// step wanted memory the run has recovered.
    fn tell(&self)
        ensures told { RecoversSoFar (setting self.now) (seen self.now).view }
        ensures recovered { let w = (seen self.now).view in w.refused ≡ 0 → IsRecovered (stubs_of (setting self.now)) w.history w.run (unanswered w) }
        ensures stopped { let run = (seen self.now).view.run in struck_in run ≡ up_to run.points (seen self.now).plan };

    /// A client offers a call of this service, under its next number there. After `NoMemory` only events are counted.
    fn offer(
        &mut self,
        alloc: Global,
        client: u8,
        fun: u8,
        desc: u64,
        args: Args,
    ) -> Result<(), NoMemory>
        requires client { IsClient (length (seen self.old).view.seats) client }
        requires free { IsFree (seat_of (seen self.old).view client).phase }
        requires numbered { (seat_of (seen self.old).view client).seq + 1 < 2 ^ 32 }
        requires declared { declares (seen self.old).tables.iface fun ≡ true }
        requires fits { FitsKinds (seen self.old).tables.iface.facts (record { client = client; seq = (seat_of (seen self.old).view client).seq + 1; fun = fun; desc = desc; args = args }) }
        requires words { AreWords args }
        ensures ok { OnOk result ((seen self.new).view ≡ happened (offered (seen self.old).view client
            (record { client = client; seq = (seat_of (seen self.old).view client).seq + 1; fun = fun; desc = desc; args = args }))) }
        ensures err { OnErr result ((seen self.new).view ≡ happened (seen self.old).view) }
        ensures tables { (seen self.new).tables ≡ (seen self.old).tables }
        ensures plan { (seen self.new).plan ≡ (seen self.old).plan }
        ensures service { of_one self.old self.new };

    /// One step of a client, in this world alone.
    fn step(&mut self, alloc: Global, client: u8) -> Result<Did, NoMemory>
        requires client { IsClient (length (seen self.old).view.seats) client }
        ensures did { IfOk result (λ did. HasStepped (setting self.old) (seen self.old).view client did (seen self.new).view × AnswersLast (seen self.new).view client did) }
        ensures err { OnErr result (LackedMemory (setting self.old) (seen self.old).view client (seen self.new).view) }
        ensures clients { length (seen self.new).view.seats ≡ length (seen self.old).view.seats }
        ensures tables { (seen self.new).tables ≡ (seen self.old).tables }
        ensures plan { (seen self.new).plan ≡ (seen self.old).plan }
        ensures service { of_one self.old self.new };

    /// A client that has no call of this service under way leaves. It takes no memory.
    fn leave(&mut self, client: u8)
        requires client { IsClient (length (seen self.old).view.seats) client }
        requires free { IsFree (seat_of (seen self.old).view client).phase }
        ensures view { (seen self.new).view ≡ happened (with_leave (seen self.old).view client) }
        ensures tables { (seen self.new).tables ≡ (seen self.old).tables }
        ensures plan { (seen self.new).plan ≡ (seen self.old).plan }
        ensures service { of_one self.old self.new };

    /// Ends it where it stands.
    fn end(self);
}

/// A world that is made of its service's image.
pub(crate) trait BeginsWorld: ServiceWorld {
    ghost use Rattle.sg_facts.specs.Facts.{Facts};

    type Image;

    ghost facts: { Facts };

    /// A world in which nothing was done, with clients from 1 to so many.
    fn begin<G: GivesTables>(
        alloc: Global,
        image: Self::Image,
        tables: G,
        clients: u8,
        stops: AtPoints,
    ) -> Result<Self, NoMemory>
        requires service { (G.tables tables).iface.facts ≡ facts }
        requires few { clients ≤ last_client }
        requires unasked { stops.asked ≡ 0 }
        requires unstruck { struck_of stops ≡ [] }
        ensures tables { IfOk result (λ w. (Self.seen w).tables ≡ G.tables tables) }
        ensures view { IfOk result (λ w. (Self.seen w).view ≡ new_world (replicate clients no_seat)) }
        ensures plan { IfOk result (λ w. (Self.seen w).plan ≡ stops.plan) };
}

/// What gives tables.
pub(crate) trait GivesTables {
    ghost use Rattle.sg_facts.specs.Tables.{Compiled};

    ghost tables: { Self → Compiled };

    /// The tables.
    fn given(self) -> Tables
        ensures { result ≡ tables self };
}

impl GivesTables for Tables {
    ghost tables = { λ t. t };

    fn given(self) -> Tables {
        self
    }
}

// ---- the world of a service

impl<S: Service> ServiceWorld for World<S, AtPoints> {
    ghost use Rattle.std.specs.Prelude.{⊤};
    ghost use Rattle.sg_sim.specs.sg_world.Worlded.{setting_of};

    ghost seen = { λ w. w };

    ghost setting = { λ w. setting_of S.ask S.sound S.parts w.tables };

    ghost of_one = { λ _ _. ⊤ };

    fn phase(&self, client: u8) -> Phase {
        World::phase(self, client)
    }

    fn call(&self, client: u8) -> &Call {
        World::call(self, client)
    }

    fn seq(&self, client: u8) -> u32 {
        World::seq(self, client)
    }

    fn next_call(
        &self,
        alloc: Global,
        given: &[u64],
        call: &ScriptCall,
    ) -> Result<NextCall, NoMemory> {
        resolve(alloc, World::interface(self), given, call)
    }

    fn ended(&self, alloc: Global, ends: EndList) -> Result<Ended, NoMemory> {
        Ok(Ended {
            history: World::history(self).copied(alloc)?,
            trace: World::trace(self).copied(alloc)?,
            ends,
        })
    }

    fn refused(&self) -> u64 {
        World::refused(self)
    }

    fn tell(&self) {
        tell_world(self);
        let _ = World::trace(self);
    }

    fn offer(
        &mut self,
        alloc: Global,
        client: u8,
        fun: u8,
        desc: u64,
        args: Args,
    ) -> Result<(), NoMemory> {
        World::offer(self, alloc, client, fun, desc, args)
    }

    fn step(&mut self, alloc: Global, client: u8) -> Result<Did, NoMemory> {
        World::step(self, alloc, client)
    }

    fn leave(&mut self, client: u8) {
        World::leave(self, client);
    }

    fn end(self) {
        discard(self);
    }
}

impl<S: Service> BeginsWorld for World<S, AtPoints> {
    type Image = S::Image;

    ghost facts = { S.facts };

    fn begin<G: GivesTables>(
        alloc: Global,
        image: S::Image,
        tables: G,
        clients: u8,
        stops: AtPoints,
    ) -> Result<Self, NoMemory> {
        World::new(alloc, image, tables.given(), clients, stops)
    }
}

// ---- a world that is reached by these traits alone

/// A world that is reached by these traits alone, so that no lifetime stands in what its functions name.
#[derive(Debug, Drop)]
pub(crate) struct Through<W> {
    world: W,
}

impl<W: ServiceWorld> ServiceWorld for Through<W> {
    ghost seen = { λ t. W.seen t.world };

    ghost setting = { λ t. W.setting t.world };

    ghost of_one = { λ old new. W.of_one old.world new.world };

    fn phase(&self, client: u8) -> Phase {
        self.world.phase(client)
    }

    fn call(&self, client: u8) -> &Call {
        self.world.call(client)
    }

    fn seq(&self, client: u8) -> u32 {
        self.world.seq(client)
    }

    fn next_call(
        &self,
        alloc: Global,
        given: &[u64],
        call: &ScriptCall,
    ) -> Result<NextCall, NoMemory> {
        self.world.next_call(alloc, given, call)
    }

    fn ended(&self, alloc: Global, ends: EndList) -> Result<Ended, NoMemory> {
        self.world.ended(alloc, ends)
    }

    fn refused(&self) -> u64 {
        self.world.refused()
    }

    fn tell(&self) {
        self.world.tell();
    }

    fn offer(
        &mut self,
        alloc: Global,
        client: u8,
        fun: u8,
        desc: u64,
        args: Args,
    ) -> Result<(), NoMemory> {
        self.world.offer(alloc, client, fun, desc, args)
    }

    fn step(&mut self, alloc: Global, client: u8) -> Result<Did, NoMemory> {
        self.world.step(alloc, client)
    }

    fn leave(&mut self, client: u8) {
        self.world.leave(client);
    }

    fn end(self) {
        self.world.end();
    }
}

impl<W: BeginsWorld> BeginsWorld for Through<W> {
    type Image = W::Image;

    ghost facts = { W.facts };

    fn begin<G: GivesTables>(
        alloc: Global,
        image: W::Image,
        tables: G,
        clients: u8,
        stops: AtPoints,
    ) -> Result<Self, NoMemory> {
        let world = W::begin(alloc, image, tables, clients, stops)?;
        Ok(Through { world })
    }
}
