// The service, its clients, and what they did.
ghost use Rattle.std.specs.Prelude.{◌≡◌, ◌+◌, ◌≤◌, ◌<◌, ◌-◌, ◌^◌, ℕ, true, [], None, Some, IfOk, OnOk, OnErr, length, replicate};
ghost use Rattle.sg_clients.specs.Clients.{IsClient};
ghost use Rattle.std.specs.List.{list_all};
ghost use Rattle.std.specs.Option.{option_copied, option_map};
ghost use Rattle.sg_facts.specs.Kinds.{AreWords, FitsKinds};
ghost use Rattle.sg_facts.specs.Interface.{declares};
ghost use Rattle.sg_facts.specs.Limits.{last_client};
ghost use Rattle.sg_facts.specs.Legal.{LegalFrom, answer};
ghost use Rattle.sg_facts.specs.Object.{empty_object, object_of};
ghost use Rattle.sg_facts.specs.Trace.{run_of};
ghost use Rattle.sg_replay.specs.sg_hist.Clients.{calls_of};
ghost use Rattle.sg_replay.specs.sg_hist.Recovered.{AreInBoots, IsRecovered, struck_in};
ghost use Rattle.sg_replay.specs.sg_hist.Growing.{IsRecovering};
ghost use Rattle.sg_world_laws.specs.Ending.{HasLastBoot, IsEnding};
ghost use Rattle.sg_world_laws.specs.Seats.{last_of};
ghost use Rattle.sg_world_laws.specs.Setting.{IsSetting, stubs_of};
ghost use Rattle.sg_world.specs.Marked.{TellsAll};
ghost use Rattle.sg_world.specs.Steps.{AnswersLast, HasStepped, LackedMemory};
ghost use Rattle.sg_world.specs.Worlded.{CountsAll, setting_of};
ghost use Rattle.sg_clients.specs.declared.phase.Phase.TheVariants.{Blocked, Receipted};
ghost use Rattle.sg_clients.specs.WorldView.{IsFree, MayWithdraw, happened, is_at_rest, is_offered, with_leave, new_world, no_seat, offered, seat_of, unanswered, withdrawn_by};

use crate::did::Did;
use crate::inner::Inner;
use sg_clients::{Clients, Mark, MarkKind, Phase, Withdrawn};
use sg_facts::{Args, Call, Interface, NoMemory, RoomyList, Service, Stops, Tables, Trace};
use sg_replay::{Engine, History};
use std::alloc::Global;
use std::marker::Model;

/// A service that may stop at any point, its clients, and what they did. A client offers a call, and the world is made to step until
/// the call is answered. Contracts see it as plain data.
#[derive(Debug, Drop)]
pub struct World<S: Service, T: Stops> {
    inner: Inner<S, T>,
}

impl<S: Service, T: Stops> Model for World<S, T> {
    ghost use Rattle.std.specs.Prelude.{◌≡◌};
    ghost use Rattle.sg_replay.specs.sg_hist.Recovered.{AreInBoots};
    ghost use Rattle.sg_world_laws.specs.Ending.{IsEnding};
    ghost use Rattle.sg_world.specs.Inners.{IsInOrder, view_in};
    ghost use Rattle.sg_world.specs.Worlded.{CountsAll, Worlded, setting_of};

    ghost Value = { Worlded };

    ghost view = { λ w. record { tables = w.inner.engine.tables; view = view_in w.inner; plan = T.plan w.inner.stops } };

    ghost invariant = { λ w. IsInOrder S.facts S.ask S.sound S.parts T.test T.asked T.struck T.plan w.inner
        × CountsAll (setting_of S.ask S.sound S.parts w.inner.engine.tables) (view_in w.inner)
        × IsEnding (setting_of S.ask S.sound S.parts w.inner.engine.tables) (view_in w.inner)
        × AreInBoots w.inner.engine.tables.iface.facts (view_in w.inner).run 0 (view_in w.inner).history };
}

impl<S: Service, T: Stops> World<S, T> {
    /// A world of clients from 1 to so many, in which nothing was done: the service is up in its first boot, and every client is idle.
    pub fn new(
        alloc: Global,
        image: S::Image,
        tables: Tables,
        clients: u8,
        stops: T,
    ) -> Result<World<S, T>, NoMemory>
        requires service { tables.iface.facts ≡ S.facts }
        requires few { clients ≤ last_client }
        requires unasked { T.asked stops ≡ 0 }
        requires unstruck { T.struck stops ≡ [] }
        ensures tables { IfOk result (λ w. w.tables ≡ tables) }
        ensures view { IfOk result (λ w. w.view ≡ new_world (replicate clients no_seat)) }
        ensures plan { IfOk result (λ w. w.plan ≡ T.plan stops) }
    {
        let seats = Clients::new(alloc, clients)?;
        let mut marks = RoomyList::new(alloc);
        marks.reserve(usize::from(clients))?;
        Ok(World {
            inner: Inner {
                engine: Engine::new(alloc, image, tables, clients)?,
                stops,
                clients: seats,
                history: History::new(alloc),
                withdrawn: RoomyList::new(alloc),
                marks,
                events: 0,
                refused: 0,
            },
        })
    }

    /// The calls that were done, lent: a history of a service that never failed. Who waits, waits in a call that has no answer after
    /// them.
    pub fn history(&self) -> &History
        ensures items { result.now.items ≡ self.now.view.history }
        ensures legal { LegalFrom self.now.tables.iface S.ask empty_object self.now.view.history }
        ensures waits { let i = self.now.tables.iface in let w = self.now.view in (client : ℕ) → 1 ≤ client → client ≤ length w.seats
            → (seat_of w client).phase ≡ Blocked → answer i S.ask (object_of i.facts w.history) (seat_of w client).call ≡ None }
    {
        &self.inner.history
    }

    /// What was done to the service, lent: a run that recovers. Along the history the boots of the entries' items never go back, and where
    /// the service stopped right after a commit, no later entry has its item in that boot. Its points and its stops meet the test of the
    /// world's own stops. The points are counted exactly where no step wanted memory, and at least so where one did, up to the end of
    /// their count. The last boot isn't stopped while the service is up, and has the items of the replies that are held.
    pub fn trace(&self) -> &Trace
        ensures run { run_of result.now ≡ self.now.view.run }
        ensures recovering { let z = setting_of S.ask S.sound S.parts self.now.tables in let w = self.now.view in IsRecovering (stubs_of z) w.history w.run (unanswered w) }
        ensures recovered { let z = setting_of S.ask S.sound S.parts self.now.tables in let w = self.now.view in w.refused ≡ 0 → IsRecovered (stubs_of z) w.history w.run (unanswered w) }
        ensures held { AreInBoots self.now.tables.iface.facts self.now.view.run 0 self.now.view.history }
        ensures ending { IsEnding (setting_of S.ask S.sound S.parts self.now.tables) self.now.view }
        ensures last { HasLastBoot self.now.view }
        ensures stopped { let run = self.now.view.run in T.test run.points (struck_in run) self.now.plan }
        ensures points { CountsAll (setting_of S.ask S.sound S.parts self.now.tables) self.now.view }
    {
        self.inner.engine.trace()
    }

    /// The calls that were done and what was done to the service, given away; all else of the world ends.
    pub fn into_run(self) -> (History, Trace)
        ensures history { result.0.items ≡ self.view.history }
        ensures run { run_of result.1 ≡ self.view.run }
    {
        let Inner {
            engine,
            history,
            ..
        } = self.inner;
        (history, engine.into_trace())
    }

    /// The running service, lent; None exactly where it failed.
    pub fn service(&self) -> Option<&S>
        ensures { option_map S.object (option_copied result) ≡ self.now.view.running }
    {
        self.inner.engine.service()
    }

    /// What happened to the clients, in its order, lent. It tells of each entry and of each withdrawn call whose it is, and how far each
    /// client has come.
    pub fn marks(&self) -> &[Mark]
        ensures items { result.now ≡ self.now.view.marks }
        ensures told { TellsAll self.now.view }
    {
        self.inner.marks.as_slice()
    }

    /// The withdrawn calls, in their order, lent.
    pub fn withdrawn(&self) -> &[Withdrawn]
        ensures { result.now ≡ self.now.view.withdrawn }
    {
        self.inner.withdrawn.as_slice()
    }

    /// The number of its events, up to the greatest number; those that wanted memory are among them.
    pub fn events(&self) -> u64
        ensures { result ≡ self.now.view.events }
    {
        self.inner.events
    }

    /// The number of its steps that wanted memory, up to the greatest number.
    pub fn refused(&self) -> u64
        ensures { result ≡ self.now.view.refused }
    {
        self.inner.refused
    }

    /// How far a client has come with its call. Who waits, waits in a call that has no answer at the object of the history.
    pub fn phase(&self, client: u8) -> Phase
        requires client { IsClient (length self.now.view.seats) client }
        ensures phase { result ≡ (seat_of self.now.view client).phase }
        ensures waits { let i = self.now.tables.iface in let w = self.now.view in
            result ≡ Blocked → answer i S.ask (object_of i.facts w.history) (seat_of w client).call ≡ None }
    {
        self.inner.clients.phase(client)
    }

    /// The interface that the service is used by, lent. It can be recovered, by the walks of its tables, and the service keeps its laws.
    pub fn interface(&self) -> &Interface
        ensures interface { result.now ≡ self.now.tables.iface }
        ensures set { IsSetting (setting_of S.ask S.sound S.parts self.now.tables) }
    {
        self.inner.engine.interface()
    }

    /// The call that a client offered last, lent. While it isn't answered it is a call of that client's own; while its reply is to be
    /// handed over, the client's last entry is of it.
    pub fn call(&self, client: u8) -> &Call
        requires client { IsClient (length self.now.view.seats) client }
        ensures call { result.now ≡ (seat_of self.now.view client).call }
        ensures its { let s = seat_of self.now.view client in is_offered s.phase ≡ true → s.call.client ≡ client }
        ensures receipt { let s = seat_of self.now.view client in
            s.phase ≡ Receipted → last_of (calls_of self.now.view.history client) ≡ Some (record { call = s.call; reply = s.reply }) }
    {
        self.inner.clients.call(client)
    }

    /// The number of a client's last entry, 0 for none, which is how many entries it has. Its next call has the next number.
    pub fn seq(&self, client: u8) -> u32
        requires client { IsClient (length self.now.view.seats) client }
        ensures seq { result ≡ (seat_of self.now.view client).seq }
        ensures count { result ≡ length (calls_of self.now.view.history client) }
    {
        self.inner.clients.seq(client)
    }

    /// A client offers a call, under its next number; one that had left has come back by it. It keeps the memory that the call's
    /// entry, its reply and its withdrawal will take. After `NoMemory` the world is as before.
    pub fn offer(
        &mut self,
        alloc: Global,
        client: u8,
        fun: u8,
        desc: u64,
        args: Args,
    ) -> Result<(), NoMemory>
        requires client { IsClient (length self.old.view.seats) client }
        requires free { IsFree (seat_of self.old.view client).phase }
        requires numbered { (seat_of self.old.view client).seq + 1 < 2 ^ 32 }
        requires declared { declares self.old.tables.iface fun ≡ true }
        requires fits { FitsKinds self.old.tables.iface.facts (record { client = client; seq = (seat_of self.old.view client).seq + 1; fun = fun; desc = desc; args = args }) }
        requires words { AreWords args }
        ensures ok { OnOk result (self.new ≡ record self.old {
          view = happened (offered self.old.view client
              (record { client = client; seq = (seat_of self.old.view client).seq + 1; fun = fun; desc = desc; args = args }));
        }) }
        ensures err { OnErr result (self.new ≡ record self.old { view = happened self.old.view }) }
    {
        let clients = self.inner.clients.len();
        self.inner.events = self.inner.events.saturating_add(1);
        self.inner.history.reserve(clients)?;
        self.inner.withdrawn.reserve(clients)?;
        self.inner.marks.reserve(3 * clients + 1)?;
        let call = Call {
            client,
            seq: self.inner.clients.seq(client) + 1,
            fun,
            desc,
            args,
        };
        self.inner.clients.offer(alloc, call)?;
        self.inner.marks.add(Mark {
            client,
            kind: MarkKind::Offer,
        });
        Ok(())
    }

    /// A client withdraws its call, which is in no entry; its number is used again. It takes no memory.
    pub fn withdraw(&mut self, client: u8)
        requires client { IsClient (length self.old.view.seats) client }
        requires may { MayWithdraw (seat_of self.old.view client).phase }
        ensures { self.new ≡ record self.old { view = happened (withdrawn_by self.old.view client) } }
    {
        let entries = self.inner.history.len() as u64;
        self.inner.events = self.inner.events.saturating_add(1);
        let withdrawn = self.inner.clients.withdraw(client, entries);
        self.inner.withdrawn.add(withdrawn);
        self.inner.marks.add(Mark {
            client,
            kind: MarkKind::Withdraw,
        });
    }

    /// A client that has no call under way leaves. One that has left goes on to be so. It takes no memory.
    pub fn leave(&mut self, client: u8)
        requires client { IsClient (length self.old.view.seats) client }
        requires free { IsFree (seat_of self.old.view client).phase }
        ensures { self.new ≡ record self.old { view = happened (with_leave self.old.view client) } }
    {
        self.inner.events = self.inner.events.saturating_add(1);
        if !self.inner.clients.has_left(client) {
            self.inner.clients.leave(client);
            self.inner.marks.add(Mark {
                client,
                kind: MarkKind::Leave,
            });
        }
    }

    /// One step of a client. It hands over the reply that the client has a receipt for; or the reply that the client holds, once its
    /// call is committed, where the service still is in the boot that gave it, and else the client loses the reply. A call that is
    /// asked is refused by the guard, or boots a service that failed, or rebuilds what it needs by one step, or is served. After
    /// `NoMemory`, which comes of a call that the guard lets pass alone, only points and refused steps are counted, and the step may be
    /// made again.
    pub fn step(&mut self, alloc: Global, client: u8) -> Result<Did, NoMemory>
        requires client { IsClient (length self.old.view.seats) client }
        ensures did { IfOk result (λ did. HasStepped (setting_of S.ask S.sound S.parts self.old.tables) self.old.view client did self.new.view) }
        ensures err { OnErr result (LackedMemory (setting_of S.ask S.sound S.parts self.old.tables) self.old.view client self.new.view) }
        ensures answers { IfOk result (AnswersLast self.new.view client) }
        ensures clients { length self.new.view.seats ≡ length self.old.view.seats }
        ensures tables { self.new.tables ≡ self.old.tables }
        ensures plan { self.new.plan ≡ self.old.plan }
    {
        let did = self.inner.step(alloc, client);
        self.inner.events = self.inner.events.saturating_add(1);
        if did.is_err() {
            self.inner.refused = self.inner.refused.saturating_add(1);
        }
        did
    }

    /// Whether every client waits or has left.
    pub fn all_blocked(&self) -> bool
        ensures { result ≡ list_all is_at_rest self.now.view.seats }
    {
        self.inner.clients.all_at_rest()
    }
}
