// A reply is handed over or lost, and an answered call comes into the history.
ghost use Rattle.std.specs.Prelude.{◌≡◌, ◌≢◌, ◌⊎◌, ◌≤◌, None, Some, IsSome, length};
ghost use Rattle.sg_clients.specs.Clients.{IsClient};
ghost use Rattle.sg_facts.specs.sg_base.declared.reply.Reply.TheVariants.{Refused};
ghost use Rattle.sg_facts.specs.declared.entry.Entry.{Entry as IsEntry};
ghost use Rattle.sg_facts.specs.Guard.{guard as the_guard};
ghost use Rattle.sg_facts.specs.Object.{object_of};
ghost use Rattle.sg_clients.specs.WorldView.{answered_to, boot_number, committed, in_phase, reply_handed_over, seat_in};
ghost use Rattle.sg_clients.specs.declared.phase.Phase.TheVariants.{Asked, Held, Receipted};
ghost use Rattle.sg_world.specs.Inners.{IsInOrder, KeepsRest, view_in};

use crate::inner::Inner;
use crate::waking::wake;
use sg_clients::{Mark, MarkKind, Returned};
use sg_facts::{Code, Entry, Reply, Service, Stops};
use std::alloc::Global;

impl<S: Service, T: Stops> Inner<S, T> {
    /// The reply that a client has a receipt for is handed over. It takes no memory.
    pub(crate) fn hand_over(&mut self, alloc: Global, client: u8) -> Reply
        requires order { IsInOrder S.facts S.ask S.sound S.parts T.test T.asked T.struck T.plan self.old }
        requires client { IsClient (length self.old.clients) client }
        requires receipted { (seat_in self.old.clients client).phase ≡ Receipted }
        ensures order { IsInOrder S.facts S.ask S.sound S.parts T.test T.asked T.struck T.plan self.new }
        ensures reply { result ≡ (seat_in self.old.clients client).reply }
        ensures view { view_in self.new ≡ reply_handed_over (view_in self.old) client }
        ensures rest { KeepsRest T.plan self.old self.new }
    {
        let reply = self.clients.hand_over(alloc, client);
        self.marks.add(Mark {
            client,
            kind: MarkKind::Answer,
        });
        reply
    }

    /// A client loses the reply that it holds, since the service failed, and asks its call again. It takes no memory.
    pub(crate) fn lose(&mut self, client: u8)
        requires order { IsInOrder S.facts S.ask S.sound S.parts T.test T.asked T.struck T.plan self.old }
        requires client { IsClient (length self.old.clients) client }
        requires held { (seat_in self.old.clients client).phase ≡ Held }
        requires gone { (self.old.engine.cell.running ≡ None) ⊎ ((seat_in self.old.clients client).boot ≢ boot_number (view_in self.old)) }
        ensures order { IsInOrder S.facts S.ask S.sound S.parts T.test T.asked T.struck T.plan self.new }
        ensures view { view_in self.new ≡ in_phase (view_in self.old) client Asked }
        ensures rest { KeepsRest T.plan self.old self.new }
    {
        self.clients.lose(client);
    }

    /// The guard refuses a client's call, which is committed and told at once. It takes no memory.
    pub(crate) fn refuse(&mut self, alloc: Global, client: u8, code: Code) -> Reply
        requires order { IsInOrder S.facts S.ask S.sound S.parts T.test T.asked T.struck T.plan self.old }
        requires client { IsClient (length self.old.clients) client }
        requires asks { (seat_in self.old.clients client).phase ≡ Asked }
        requires refuses { the_guard self.old.engine.tables.iface (object_of self.old.engine.tables.iface.facts self.old.history.items) (seat_in self.old.clients client).call ≡ Some code }
        ensures order { IsInOrder S.facts S.ask S.sound S.parts T.test T.asked T.struck T.plan self.new }
        ensures reply { result ≡ Refused code }
        ensures view { let e : IsEntry = record { call = (seat_in self.old.clients client).call; reply = Refused code } in
            view_in self.new ≡ answered_to (committed self.old.engine.tables.iface.facts (view_in self.old) e) e }
        ensures rest { KeepsRest T.plan self.old self.new }
    {
        let call = self.clients.refuse(alloc, client);
        self.history.add(Entry {
            call,
            reply: Reply::Refused(code),
        });
        self.marks.add(Mark {
            client,
            kind: MarkKind::Entry,
        });
        self.marks.add(Mark {
            client,
            kind: MarkKind::Answer,
        });
        Reply::Refused(code)
    }

    /// The reply that a client holds, which the service gave in this boot, is committed with its call and handed over. It takes no
    /// memory.
    pub(crate) fn return_held(&mut self, alloc: Global, client: u8) -> Reply
        requires order { IsInOrder S.facts S.ask S.sound S.parts T.test T.asked T.struck T.plan self.old }
        requires client { IsClient (length self.old.clients) client }
        requires held { (seat_in self.old.clients client).phase ≡ Held }
        requires up { IsSome self.old.engine.cell.running }
        requires boot { (seat_in self.old.clients client).boot ≡ boot_number (view_in self.old) }
        ensures order { IsInOrder S.facts S.ask S.sound S.parts T.test T.asked T.struck T.plan self.new }
        ensures reply { result ≡ (seat_in self.old.clients client).reply }
        ensures view { let s = seat_in self.old.clients client in let e : IsEntry = record { call = s.call; reply = s.reply } in
            view_in self.new ≡ answered_to (committed self.old.engine.tables.iface.facts (view_in self.old) e) e }
        ensures rest { KeepsRest T.plan self.old self.new }
    {
        let Returned {
            entry,
            reply,
            answer,
        } = self.clients.give_back(alloc, client);
        self.engine.commit(&entry.call, reply, None);
        wake(&mut self.clients, &self.engine, &entry);
        self.history.add(entry);
        self.marks.add(Mark {
            client,
            kind: MarkKind::Entry,
        });
        self.marks.add(Mark {
            client,
            kind: MarkKind::Answer,
        });
        answer
    }
}
