// A world by a name.
ghost use Rattle.std.specs.Prelude.{◌≡◌, ◌+◌, ◌<◌, ◌≤◌, ◌^◌, [], ◌∷◌, ◌++◌, length, IfOk, OnErr, OnOk};
ghost use Rattle.sg_turn.specs.Hosts.{AddsLeave, AddsStep};
ghost use Rattle.sg_turn.specs.Told.{HasNoCall, asking, entries_by, entries_in, mark_by, next_call, standing_in};
ghost use Rattle.sg_turn.specs.sg_facts.Legal.{LegalFrom};
ghost use Rattle.sg_turn.specs.sg_facts.Object.{empty_object};
ghost use Rattle.sg_turn.specs.sg_facts.sg_base.Counts.{last_count};
ghost use Rattle.sg_turn.specs.Logs.{OneMore};
ghost use Rattle.sg_turn.specs.declared.log.LogMarkKind.TheVariants.{Offer, Withdraw};
ghost use Rattle.sg_log.specs.Dids.{stepped_of};
ghost use Rattle.sg_log.specs.Log.{log_of};
ghost use Rattle.sg_log.specs.Names.{MayOffer, TellsWorld, phases_of};
ghost use Rattle.sg_world.specs.Steps.{AnswersLast, HasStepped, LackedMemory};
ghost use Rattle.sg_world.specs.Worlded.{setting_of};
ghost use Rattle.sg_world.specs.sg_clients.WorldView.{MayWithdraw, happened, offered, seat_of, with_leave, withdrawn_by};

use sg_turn::{Args, Host, Kept, NoMemory, Service, Stepped, Stops};
use sg_world::{Did, Phase, World};
use std::alloc::Global;
use std::marker::{Brand, PhantomData};

/// Which world it is: its tables, how many clients it has, and the plan of its stops. Each sharing picks its own.
pub trait WorldNames {
    ghost use Rattle.std.specs.Prelude.{ℕ, List};
    ghost use Rattle.sg_turn.specs.sg_facts.Tables.{Compiled};

    ghost tables: { Compiled };

    ghost clients: { ℕ };

    ghost plan: { List ℕ };
}

impl WorldNames for Brand {
    ghost use Rattle.std.specs.Prelude.{[]};
    ghost use Rattle.sg_log.specs.Inside.Unpicked.{unpicked_tables};

    ghost tables = { unpicked_tables };

    ghost clients = { 0 };

    ghost plan = { [] };
}

/// A world of a name: with its tables, as many clients, and its plan of stops.
#[derive(Drop)]
pub struct NamedWorld<S: Service, T: Stops, N: WorldNames> {
    pub world: World<S, T>,
    clients: u8,
    of: PhantomData<N>,
    ghost tables: { world.tables ≡ N.tables },
    ghost plan: { world.plan ≡ N.plan },
    ghost seats: { length world.view.seats ≡ clients },
    ghost count: { clients ≡ N.clients },
    ghost some: { 1 ≤ clients },
    ghost events: { world.view.events ≤ last_count },
}

impl<S: Service, T: Stops, N: WorldNames> NamedWorld<S, T, N> {
    /// A world that has what the name says.
    pub fn new(world: World<S, T>, clients: u8) -> NamedWorld<S, T, N>
        requires tables { world.tables ≡ N.tables }
        requires plan { world.plan ≡ N.plan }
        requires seats { length world.view.seats ≡ clients }
        requires count { clients ≡ N.clients }
        requires some { 1 ≤ clients }
        ensures { result.world ≡ world }
    {
        let _events = world.events();
        NamedWorld {
            world,
            clients,
            of: PhantomData,
        }
    }

    /// The world. It has what the name says, and its log tells it.
    pub fn into_world(self) -> World<S, T>
        ensures world { result ≡ self.world }
        ensures tables { result.tables ≡ N.tables }
        ensures plan { result.plan ≡ N.plan }
        ensures clients { length result.view.seats ≡ N.clients }
        ensures told { TellsWorld result.view }
    {
        self.tell();
        let NamedWorld {
            world,
            clients: _,
            of: _,
        } = self;
        world
    }

    /// Its log tells it, for the proof: nothing is done.
    pub fn tell(&self)
        ensures { TellsWorld self.now.world.view }
    {
        let _told = self.world.marks();
    }

    /// A client offers a call, as `World::offer` has it.
    pub fn offer_call(
        &mut self,
        alloc: Global,
        client: u8,
        fun: u8,
        desc: u64,
        args: Args,
    ) -> Result<(), NoMemory>
        requires first { 1 ≤ client }
        requires last { client ≤ N.clients }
        requires free { HasNoCall (standing_in client (log_of self.old.world.view)) }
        requires numbered { length (entries_by client (log_of self.old.world.view)) + 1 < 2 ^ 32 }
        requires may { MayOffer N.tables.iface (next_call client (log_of self.old.world.view) fun desc args) }
        ensures ok { OnOk result (self.new.world.view ≡ happened (offered self.old.world.view client (next_call client (log_of self.old.world.view) fun desc args))) }
        ensures err { OnErr result (self.new.world.view ≡ happened self.old.world.view) }
        ensures offers { OnOk result (log_of self.new.world.view ≡ log_of self.old.world.view ++ mark_by client (Offer (next_call client (log_of self.old.world.view) fun desc args)) ∷ []) }
        ensures same { OnErr result (log_of self.new.world.view ≡ log_of self.old.world.view) }
        ensures events { OneMore self.old.world.view.events self.new.world.view.events }
    {
        let world = &mut self.world;
        let _told = world.marks();
        let _last = world.seq(client);
        world.offer(alloc, client, fun, desc, args)
    }

    /// A client makes a step, as `World::step` has it.
    pub fn make_step(&mut self, alloc: Global, client: u8) -> Result<Did, NoMemory>
        requires first { 1 ≤ client }
        requires last { client ≤ N.clients }
        ensures did { IfOk result (λ did. HasStepped (setting_of S.ask S.sound S.parts N.tables) self.old.world.view client did self.new.world.view) }
        ensures wants { OnErr result (LackedMemory (setting_of S.ask S.sound S.parts N.tables) self.old.world.view client self.new.world.view) }
        ensures answers { IfOk result (AnswersLast self.new.world.view client) }
        ensures stepped { IfOk result (λ did. AddsStep client (log_of self.old.world.view) (stepped_of did) (log_of self.new.world.view)) }
        ensures same { OnErr result (log_of self.new.world.view ≡ log_of self.old.world.view) }
        ensures legal { LegalFrom N.tables.iface S.ask empty_object (entries_in (log_of self.new.world.view)) }
        ensures events { OneMore self.old.world.view.events self.new.world.view.events }
    {
        let world = &mut self.world;
        let _told = world.marks();
        let _call = world.call(client);
        let did = world.step(alloc, client);
        let _new = world.marks();
        let _legal = world.history();
        did
    }

    /// A client withdraws its call, as `World::withdraw` has it.
    pub fn withdraw_call(&mut self, client: u8)
        requires first { 1 ≤ client }
        requires last { client ≤ N.clients }
        requires may { MayWithdraw (seat_of self.old.world.view client).phase }
        ensures view { self.new.world.view ≡ happened (withdrawn_by self.old.world.view client) }
        ensures withdraws { (call : _) → standing_in client (log_of self.old.world.view) ≡ asking call
            → log_of self.new.world.view ≡ log_of self.old.world.view ++ mark_by client (Withdraw call (phases_of self.old.world.view) (length (entries_in (log_of self.old.world.view)))) ∷ [] }
        ensures events { OneMore self.old.world.view.events self.new.world.view.events }
    {
        let world = &mut self.world;
        let _told = world.marks();
        world.withdraw(client);
    }

    /// A client that has no call under way leaves, as `World::leave` has it.
    pub fn take_leave(&mut self, client: u8)
        requires first { 1 ≤ client }
        requires last { client ≤ N.clients }
        requires free { HasNoCall (standing_in client (log_of self.old.world.view)) }
        ensures view { self.new.world.view ≡ happened (with_leave self.old.world.view client) }
        ensures leaves { AddsLeave client (log_of self.old.world.view) (log_of self.new.world.view) }
        ensures events { OneMore self.old.world.view.events self.new.world.view.events }
    {
        let world = &mut self.world;
        let _told = world.marks();
        world.leave(client);
    }
}

/// What a step came to for who shares the world: whether it handed a reply over.
pub fn stepped_of(did: Did) -> Stepped
    ensures { result ≡ stepped_of did }
{
    match did {
        Did::Answered(reply) => Stepped::Answered(reply),
        Did::Skipped
        | Did::Struck
        | Did::Booted
        | Did::Replayed
        | Did::Loaded
        | Did::Served
        | Did::Blocked
        | Did::Lost => Stepped::GoesOn,
    }
}

impl<S: Service, T: Stops, N: WorldNames> Kept for NamedWorld<S, T, N> {
    ghost use Rattle.sg_log.specs.Log.{log_of};

    ghost log = { λ n. log_of n.world.view };

    ghost events = { λ n. n.world.view.events };
}

impl<S: Service, T: Stops, N: WorldNames> Host for NamedWorld<S, T, N> {
    ghost use Rattle.sg_turn.specs.sg_facts.Legal.{LegalFrom};
    ghost use Rattle.sg_turn.specs.sg_facts.Object.{empty_object};
    ghost use Rattle.sg_log.specs.Names.{HasNoAnswer, MayOffer, phases_of};
    ghost use Rattle.sg_world.specs.sg_clients.WorldView.{MayWithdraw, seat_of};

    ghost clients = { N.clients };

    ghost legal = { LegalFrom N.tables.iface S.ask empty_object };

    ghost waits = { HasNoAnswer N.tables.iface S.ask };

    ghost may_offer = { λ own. MayOffer N.tables.iface };

    ghost phases = { λ n. phases_of n.world.view };

    ghost may_give_up = { λ n client. MayWithdraw (seat_of n.world.view client).phase };

    fn client_count(&self) -> u8 {
        self.clients
    }

    fn offer(
        &mut self,
        alloc: Global,
        client: u8,
        fun: u8,
        desc: u64,
        args: Args,
    ) -> Result<(), NoMemory> {
        self.offer_call(alloc, client, fun, desc, args)
    }

    fn step(&mut self, alloc: Global, client: u8) -> Result<Stepped, NoMemory> {
        Ok(stepped_of(self.make_step(alloc, client)?))
    }

    fn may_withdraw(&self, client: u8) -> bool {
        let _told = self.world.marks();
        matches!(self.world.phase(client), Phase::Asked | Phase::Blocked)
    }

    fn is_all_blocked(&self, client: u8) -> bool {
        let _told = self.world.marks();
        matches!(self.world.phase(client), Phase::Blocked) && self.world.all_blocked()
    }

    fn is_waiting(&self, client: u8) -> bool {
        matches!(self.world.phase(client), Phase::Blocked)
    }

    fn withdraw(&mut self, client: u8) {
        self.withdraw_call(client);
    }

    fn leave(&mut self, client: u8) {
        self.take_leave(client);
    }
}
