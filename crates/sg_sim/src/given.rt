// What the calls of the clients were given.
ghost use Rattle.std.specs.Prelude.{◌≡◌, ◌≤◌, ◌<◌, [], Some, IfOk, OnOk, length, replicate, take};
ghost use Rattle.sg_facts.specs.sg_base.Lent.{reply_in};
ghost use Rattle.sg_play.specs.sg_clients.Clients.{IsClient};
ghost use Rattle.sg_play.specs.sg_hist.Clients.{calls_of};
ghost use Rattle.sg_play.specs.sg_hist.Inside.Reads.{desc_of};
ghost use Rattle.sg_play.specs.sg_plain.Playing.Callers.{handed};
ghost use Rattle.sg_play.specs.sg_plain.Playing.Given.{GaveIds, HaveGiven, given_in, with_handed};
ghost use Rattle.sg_play.specs.sg_clients.WorldView.{seat_of};
ghost use Rattle.sg_sim.specs.Inside.Givens.{lists_of, room_for};

use sg_facts::{LentReply, NoMemory, RoomyList, Service, Stops};
use sg_play::{History, Phase, World};
use std::alloc::Global;
use std::marker::Model;

/// The descriptors that the calls of each client were given, in their order, for clients from 1. Contracts see each client's list with
/// the number of descriptors that it can take without memory.
#[derive(Debug, Drop)]
pub struct Given {
    lists: Vec<RoomyList<u64>>,
}

impl Model for Given {
    ghost use Rattle.std.specs.Prelude.{ℕ, List};
    ghost use Rattle.sg_facts.specs.sg_base.Room.{Roomy};

    ghost Value = { List (Roomy ℕ) };

    ghost view = { λ g. g.lists.items };
}

impl Given {
    /// Nothing yet, for so many clients.
    pub fn new(alloc: Global, clients: u8) -> Result<Given, NoMemory>
        ensures { IfOk result (λ given. lists_of given ≡ replicate clients []) }
    {
        let mut lists = Vec::with_capacity(alloc, usize::from(clients))?;
        'clients: for _ in 0..clients {
            lists.push(RoomyList::new(alloc))?;
        }
        Ok(Given { lists })
    }

    /// What the calls of a world's clients were given, of which there are so many: by its entries, one for each reply that was handed
    /// over.
    pub fn told_by<S: Service, T: Stops>(
        alloc: Global,
        world: &World<S, T>,
        clients: u8,
    ) -> Result<Given, NoMemory>
        requires { clients ≡ length world.now.view.seats }
        ensures { IfOk result (λ given. HaveGiven world.now.view.history world.now.view.seats (lists_of given)) }
    {
        let mut lists = Vec::with_capacity(alloc, usize::from(clients))?;
        'clients: for before in 0..clients {
            lists.push(handed_ids(alloc, world, before + 1)?)?;
        }
        Ok(Given { lists })
    }

    /// What a client's calls were given.
    pub fn of(&self, client: u8) -> &[u64]
        requires client { IsClient (length self.now) client }
        ensures { result.now ≡ given_in (lists_of self.now) client }
    {
        self.lists[usize::from(client) - 1].as_slice()
    }

    /// Takes the memory for a client's next. All that was given stays, whatever the answer.
    pub fn reserve(&mut self, client: u8) -> Result<(), NoMemory>
        requires client { IsClient (length self.old) client }
        ensures room { OnOk result (0 < room_for self.new client) }
        ensures lists { lists_of self.new ≡ lists_of self.old }
    {
        self.lists[usize::from(client) - 1].reserve(1)
    }

    /// A client's next call was given this, 0 for nothing.
    pub fn add(&mut self, client: u8, id: u64)
        requires client { IsClient (length self.old) client }
        requires room { 0 < room_for self.old client }
        ensures { lists_of self.new ≡ with_handed (lists_of self.old) client (Some id) }
    {
        self.lists[usize::from(client) - 1].add(id);
    }
}

/// The descriptors that a client's entries were given, in their order, 0 for none.
pub fn ids_of(alloc: Global, history: &History, client: u8) -> Result<RoomyList<u64>, NoMemory>
    ensures { IfOk result (λ ids. GaveIds (calls_of history.now.items client) ids.items) }
{
    let mut ids = RoomyList::new(alloc);
    for at in 0..history.len() {
        let entry = history.at(at);
        if entry.call.client == client {
            ids.reserve(1)?;
            ids.add(desc_in(&entry.reply));
        }
    }
    Ok(ids)
}

// The descriptor of a lent reply, 0 for none.
fn desc_in(reply: &LentReply) -> u64
    ensures { result ≡ desc_of (reply_in reply.now) }
{
    match reply {
        LentReply::Ok(good) => good.desc,
        LentReply::Refused(_) => 0,
    }
}

// Those of the replies that it was handed over.
fn handed_ids<S: Service, T: Stops>(
    alloc: Global,
    world: &World<S, T>,
    client: u8,
) -> Result<RoomyList<u64>, NoMemory>
    requires client { IsClient (length world.now.view.seats) client }
    ensures { IfOk result (λ ids. GaveIds (take (handed (seat_of world.now.view client)) (calls_of world.now.view.history client)) ids.items) }
{
    let _count = world.seq(client);
    let mut ids = ids_of(alloc, world.history(), client)?;
    if matches!(world.phase(client), Phase::Receipted) {
        let _last = ids.pop();
    }
    Ok(ids)
}
