// A client's call that needs nothing any more reaches the service.
ghost use Rattle.std.specs.Prelude.{◌≡◌, ◌<◌, ◌≤◌, ◌+◌, ◌-◌, ◌^◌, ◌++◌, ◌∷◌, [], ℕ, false, true, None, IsSome, IfOk, OnErr, length, slice_set};
ghost use Rattle.sg_clients.specs.Clients.{IsClient};
ghost use Rattle.std.specs.declared.option.Option.{Option as IsOption};
ghost use Rattle.sg_facts.specs.sg_base.Stops.{asked_after};
ghost use Rattle.sg_facts.specs.Facts.{is_visible};
ghost use Rattle.sg_facts.specs.declared.outcome.Patch.{Patch as IsPatch};
ghost use Rattle.sg_replay.specs.Missing.{missing};
ghost use Rattle.sg_clients.specs.WorldView.{is_offered, seat_in, with_points};
ghost use Rattle.sg_clients.specs.declared.phase.Phase.TheVariants.{Receipted};
ghost use Rattle.sg_facts.specs.sg_base.Reply.{FitsReplyRoom};
ghost use Rattle.sg_world.specs.Due.{needs_in};
ghost use Rattle.sg_world.specs.Inners.{IsInOrder, KeepsRest, view_in};
ghost use Rattle.sg_world.specs.Inside.Served.{HasServed, view_with};
ghost use Rattle.sg_world.specs.Steps.{Commits, Holds, PassesGuard, Steps};
ghost use Rattle.sg_world.specs.Worlded.{setting_of};

use crate::did::Did;
use crate::inner::Inner;
use crate::waking::wake_by;
use sg_clients::{Clients, Mark, MarkKind};
use sg_facts::{NoMemory, Outcome, Patch, Path, Point, Reply, Service, Stops};
use sg_replay::History;
use std::alloc::Global;

impl<S: Service, T: Stops> Inner<S, T> {
    /// Serves a client's call that has all that it needs, this file with it, where the point before was asked already. After
    /// `NoMemory` the world is as before.
    pub(crate) fn serve(
        &mut self,
        alloc: Global,
        client: u8,
        file: &Option<Path>,
    ) -> Result<Did, NoMemory>
        requires order { IsInOrder S.facts S.ask S.sound S.parts T.test T.asked T.struck T.plan self.old }
        requires client { IsClient (length self.old.clients) client }
        requires let_in { PassesGuard (setting_of S.ask S.sound S.parts self.old.engine.tables) (view_in self.old) client }
        requires up { IsSome self.old.engine.cell.running }
        requires file { file.now ≡ (needs_in (setting_of S.ask S.sound S.parts self.old.engine.tables) (view_in self.old) (seat_in self.old.clients client).call).file }
        requires whole { missing self.old.engine (needs_in (setting_of S.ask S.sound S.parts self.old.engine.tables) (view_in self.old) (seat_in self.old.clients client).call) ≡ None }
        ensures order { IsInOrder S.facts S.ask S.sound S.parts T.test T.asked T.struck T.plan self.new }
        ensures did { (asked : ℕ) → (view_in self.old).run.points ≡ asked_after asked 1
            → IfOk result (λ did. Steps (setting_of S.ask S.sound S.parts self.old.engine.tables) (with_points (view_in self.old) asked) client did (view_in self.new)) }
        ensures err { OnErr result (view_in self.new ≡ view_in self.old) }
        ensures rest { KeepsRest T.plan self.old self.new }
    {
        self.engine.reserve(alloc, self.clients.call(client), file)?;
        match self
            .engine
            .serve(alloc, &mut self.stops, self.clients.call(client))
        {
            Outcome::Replied { reply, patch } => Ok(self.answer(client, reply, patch)),
            Outcome::Blocks => {
                self.clients.block(client);
                Ok(Did::Blocked)
            }
            Outcome::Stopped => Ok(Did::Struck),
            Outcome::NoMemory => Err(NoMemory),
        }
    }

    // The service replied: a visible call is committed, after which the service may stop, and the reply of another is held.
    fn answer(&mut self, client: u8, reply: Reply, patch: Option<Patch>) -> Did
        requires service { self.old.engine.tables.iface.facts ≡ S.facts }
        requires client { IsClient (length self.old.clients) client }
        requires served { HasServed (setting_of S.ask S.sound S.parts self.old.engine.tables) T.test T.asked T.struck T.plan self.old client reply patch }
        ensures order { IsInOrder S.facts S.ask S.sound S.parts T.test T.asked T.struck T.plan self.new }
        ensures did { let z = setting_of S.ask S.sound S.parts self.old.engine.tables in
            (s : HasServed z T.test T.asked T.struck T.plan self.old client reply patch) (asked : ℕ) → (view_with s.before self.old).run.points ≡ asked_after asked 1
            → Steps z (with_points (view_with s.before self.old) asked) client result (view_in self.new) }
        ensures rest { KeepsRest T.plan self.old self.new }
    {
        let visible = self
            .engine
            .interface()
            .visible(self.clients.call(client).fun);
        if visible {
            self.commit(client, reply, patch);
            if self.strikes(Point::Stored) {
                Did::Struck
            } else {
                Did::Served
            }
        } else {
            self.hold(client, reply);
            Did::Served
        }
    }

    // A visible call that the service replied to is committed, and its client has a receipt for the reply.
    fn commit(&mut self, client: u8, reply: Reply, patch: Option<Patch>)
        requires service { self.old.engine.tables.iface.facts ≡ S.facts }
        requires client { IsClient (length self.old.clients) client }
        requires served { HasServed (setting_of S.ask S.sound S.parts self.old.engine.tables) T.test T.asked T.struck T.plan self.old client reply patch }
        requires visible { is_visible self.old.engine.tables.iface.facts (seat_in self.old.clients client).call.fun ≡ true }
        ensures order { IsInOrder S.facts S.ask S.sound S.parts T.test T.asked T.struck T.plan self.new }
        ensures up { IsSome self.new.engine.cell.running }
        ensures commits { let z = setting_of S.ask S.sound S.parts self.old.engine.tables in
            (s : HasServed z T.test T.asked T.struck T.plan self.old client reply patch) (asked : ℕ) → (view_with s.before self.old).run.points ≡ asked_after asked 1
            → Commits z (with_points (view_with s.before self.old) asked) client (view_in self.new) }
        ensures rest { KeepsRest T.plan self.old self.new }
    {
        let is_refusal = matches!(reply, Reply::Refused(_));
        enter(&mut self.clients, &mut self.history, client, &reply);
        let call = self.clients.call(client);
        let (fun, desc) = (call.fun, call.desc);
        self.engine.commit(call, reply, patch);
        wake_by(&mut self.clients, &self.engine, fun, desc, is_refusal);
        self.marks.add(Mark {
            client,
            kind: MarkKind::Entry,
        });
    }

    // The reply to a call that isn't visible is held by its client.
    fn hold(&mut self, client: u8, reply: Reply)
        requires service { self.old.engine.tables.iface.facts ≡ S.facts }
        requires client { IsClient (length self.old.clients) client }
        requires served { (patch : IsOption IsPatch) × HasServed (setting_of S.ask S.sound S.parts self.old.engine.tables) T.test T.asked T.struck T.plan self.old client reply patch }
        requires hidden { is_visible self.old.engine.tables.iface.facts (seat_in self.old.clients client).call.fun ≡ false }
        ensures order { IsInOrder S.facts S.ask S.sound S.parts T.test T.asked T.struck T.plan self.new }
        ensures holds { let z = setting_of S.ask S.sound S.parts self.old.engine.tables in
            (patch : IsOption IsPatch) (s : HasServed z T.test T.asked T.struck T.plan self.old client reply patch) (asked : ℕ) → (view_with s.before self.old).run.points ≡ asked_after asked 1
            → Holds z (with_points (view_with s.before self.old) asked) client (view_in self.new) }
        ensures rest { KeepsRest T.plan self.old self.new }
    {
        let boot = self.engine.boot_number();
        self.clients.hold(client, boot, reply);
    }
}

// A client's call is answered: its entry comes into the history, and its reply is to be handed over. It takes no memory.
fn enter(clients: &mut Clients, history: &mut History, client: u8, reply: &Reply)
    requires client { IsClient (length clients.old) client }
    requires offers { is_offered (seat_in clients.old client).phase ≡ true }
    requires fits { FitsReplyRoom reply.now }
    requires room { 0 < history.old.room }
    ensures number { (seat_in clients.old client).call.seq < 2 ^ 32 }
    ensures history { history.new.items ≡ history.old.items ++ record { call = (seat_in clients.old client).call; reply = reply.now } ∷ [] }
    ensures room { history.old.room ≤ history.new.room + 1 }
    ensures seats { let s = seat_in clients.old client in clients.new ≡ slice_set clients.old (client - 1) (record s { phase = Receipted; seq = s.call.seq; reply = reply.now }) }
{
    if history.add_lent(clients.call(client), reply) {
        clients.answer(client, reply);
    } else {
        let entry = clients.give(client, reply);
        history.add(entry);
    }
}
