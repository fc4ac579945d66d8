// The worlds of several services.
ghost use Rattle.std.specs.Prelude.{◌≡◌, ◌+◌, ◌++◌, ◌∷◌, ◌≤◌, ◌<◌, ◌^◌, [], IfOk, OnErr, OnOk, Some, length, slice_get, true};
ghost use Rattle.sg_edge.specs.Stops.{struck_of};
ghost use Rattle.sg_facts.specs.Interface.{declares};
ghost use Rattle.sg_facts.specs.Kinds.{AreWords, FitsKinds};
ghost use Rattle.sg_facts.specs.Limits.{last_client};
ghost use Rattle.sg_multi.specs.Members.{ChangesAt, IsNewMember, Membered, setting_in, view_in};
ghost use Rattle.sg_multi.specs.Serving.{IsPicked, answering_at, most_places, serving};
ghost use Rattle.sg_sim.specs.sg_play.sg_clients.Clients.{IsClient};
ghost use Rattle.sg_sim.specs.sg_clients.WorldView.{IsFree, WorldView, happened, offered, seat_of, with_leave};
ghost use Rattle.sg_sim.specs.sg_world.Steps.{AnswersLast, HasStepped, LackedMemory};

use crate::member::Member;
use crate::served::Served;
use crate::world::ServiceWorld;
use sg_edge::AtPoints;
use sg_facts::{Args, NoMemory, Tables};
use sg_interpret::Describes;
use sg_sim::Did;
use std::alloc::Global;
use std::marker::Model;

/// The worlds of several services, in the order of their interfaces. Contracts see the list of them.
#[derive(Drop)]
#[derive_where(Debug)]
pub struct Members<N: Describes> {
    list: Vec<Member<N>>,
}

impl<N: Describes> Model for Members<N> {
    ghost use Rattle.std.specs.Prelude.{List};
    ghost use Rattle.sg_multi.specs.Members.{Membered};

    ghost Value = { List Membered };

    ghost view = { λ members. members.list.items };
}

impl<N: Describes> Members<N> {
    /// No world. It takes no memory.
    pub fn new(alloc: Global) -> Members<N>
        ensures { result ≡ [] }
    {
        Members {
            list: Vec::new(alloc),
        }
    }

    /// Adds a world of a service in which nothing was done, with clients from 1 to so many. A service of one's own stands at a place, from
    /// 0. After `NoMemory` there are the worlds that there were.
    pub fn add(
        &mut self,
        alloc: Global,
        place: usize,
        service: Served,
        tables: Tables,
        clients: u8,
        stops: AtPoints,
    ) -> Result<(), NoMemory>
        requires there { place < most_places }
        requires picked { IsPicked (N.descriptions place) service }
        requires its { tables.iface.facts ≡ (answering_at service).facts }
        requires few { clients ≤ last_client }
        requires unasked { stops.asked ≡ 0 }
        requires unstruck { struck_of stops ≡ [] }
        ensures ok { OnOk result ((m : Membered) × (self.new ≡ self.old ++ m ∷ []) × IsNewMember (serving service) tables stops.plan clients m) }
        ensures err { OnErr result (self.new ≡ self.old) }
    {
        let member = Member::new(alloc, place, service, tables, clients, stops)?;
        match self.list.push(member) {
            Ok(()) => Ok(()),
            Err(refused) => {
                refused.value.end();
                Err(NoMemory)
            }
        }
    }

    /// How many there are.
    pub fn len(&self) -> usize
        ensures { result ≡ length self.now }
    {
        self.list.len()
    }

    /// The members, lent.
    pub fn as_slice(&self) -> &[Member<N>]
        ensures { result.now ≡ self.now }
    {
        self.list.as_slice()
    }

    /// A client offers a call in the world at a place, counted from 0, under its next number there. After `NoMemory` only events of that
    /// world are counted.
    pub fn offer(
        &mut self,
        alloc: Global,
        place: usize,
        client: u8,
        fun: u8,
        desc: u64,
        args: Args,
    ) -> Result<(), NoMemory>
        requires there { place < length self.old }
        requires client { (m : Membered) → slice_get self.old place ≡ Some m → IsClient (length (view_in m).seats) client }
        requires free { (m : Membered) → slice_get self.old place ≡ Some m → IsFree (seat_of (view_in m) client).phase }
        requires numbered { (m : Membered) → slice_get self.old place ≡ Some m → (seat_of (view_in m) client).seq + 1 < 2 ^ 32 }
        requires declared { (m : Membered) → slice_get self.old place ≡ Some m → declares m.world.tables.iface fun ≡ true }
        requires fits { (m : Membered) → slice_get self.old place ≡ Some m
            → FitsKinds m.world.tables.iface.facts (record { client = client; seq = (seat_of (view_in m) client).seq + 1; fun = fun; desc = desc; args = args }) }
        requires words { AreWords args }
        ensures ok { (m : Membered) → slice_get self.old place ≡ Some m → OnOk result (ChangesAt self.old place m (happened (offered (view_in m) client
            (record { client = client; seq = (seat_of (view_in m) client).seq + 1; fun = fun; desc = desc; args = args }))) self.new) }
        ensures err { (m : Membered) → slice_get self.old place ≡ Some m → OnErr result (ChangesAt self.old place m (happened (view_in m)) self.new) }
    {
        self.list[place].offer(alloc, client, fun, desc, args)
    }

    /// One step of a client in the world at a place, counted from 0.
    pub fn step(&mut self, alloc: Global, place: usize, client: u8) -> Result<Did, NoMemory>
        requires there { place < length self.old }
        requires client { (m : Membered) → slice_get self.old place ≡ Some m → IsClient (length (view_in m).seats) client }
        ensures did { (m : Membered) → slice_get self.old place ≡ Some m → IfOk result (λ did. (now : WorldView)
            × ChangesAt self.old place m now self.new × HasStepped (setting_in m) (view_in m) client did now × AnswersLast now client did) }
        ensures err { (m : Membered) → slice_get self.old place ≡ Some m → OnErr result ((now : WorldView)
            × ChangesAt self.old place m now self.new × LackedMemory (setting_in m) (view_in m) client now) }
    {
        self.list[place].step(alloc, client)
    }

    /// A client that has no call under way in the world at a place, counted from 0, leaves it. It takes no memory.
    pub fn leave(&mut self, place: usize, client: u8)
        requires there { place < length self.old }
        requires client { (m : Membered) → slice_get self.old place ≡ Some m → IsClient (length (view_in m).seats) client }
        requires free { (m : Membered) → slice_get self.old place ≡ Some m → IsFree (seat_of (view_in m) client).phase }
        ensures { (m : Membered) → slice_get self.old place ≡ Some m → ChangesAt self.old place m (happened (with_leave (view_in m) client)) self.new }
    {
        self.list[place].leave(client);
    }

    /// Ends the worlds where they stand.
    pub fn abandon(self) {}
}
