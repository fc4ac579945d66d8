// A world with its interface beside it, so that each event is checked before it is made.
ghost use Rattle.std.specs.Prelude.{◌≡◌, ◌≤◌, ◌<◌, ◌+◌, ◌^◌, [], IfOk, length, true};
ghost use Rattle.sg_edge.specs.Stops.{AscendsAbove, struck_of};
ghost use Rattle.sg_discard.specs.sg_clients.WorldView.{IsFree, MayWithdraw, seat_of};

use crate::answers::tells;
use crate::events::{Asked, Event, args_of};
use crate::fits::{number_of, takes};
use sg_discard::{Did, Phase, World, discard};
use sg_edge::AtPoints;
use sg_facts::{
    Args, Bytes, Call, Interface, LAST_CLIENT, LentCall, LentTag, NoMemory, PointList, Reply,
    Service, Stops, Tables, Trace, TryCopy,
};
use sg_report::{End, EndList, Ended, text};
use std::alloc::Global;

/// Why an event wasn't made, or a play isn't as it is told.
#[derive(Clone, Copy, Debug, PartialEq, Eq)]
pub enum Unmade {
    /// There was no memory for it.
    NoMemory,
    /// It may not be made here.
    NotAllowed,
    /// A text doesn't tell it.
    Unread,
    /// The line of a number, from 0, tells no event.
    UnreadLine { at: usize },
    /// The event on the line of a number, from 0, didn't go as it is told.
    Otherwise { at: usize },
    /// The line of a number, from 0, tells what isn't seen.
    Unseen { at: usize },
    /// The printed run has another line of a number, from 0.
    Printed { at: usize },
    /// A client neither waits nor has left.
    NotAtRest,
    /// There are other entries or stops.
    OtherRun,
}

impl From<NoMemory> for Unmade {
    fn from(_: NoMemory) -> Self {
        Unmade::NoMemory
    }
}

/// The greatest number of a client's entries that a test comes to.
const MOST_ENTRIES: u32 = 10_000;

/// The greatest number of steps that a call takes in a test.
const MOST_STEPS: u32 = 1_000;

/// A world, its interface, and the number of its clients. Only `judged` owns one.
#[derive(Debug, Drop)]
pub struct Run<S: Service, T: Stops> {
    world: World<S, T>,
    iface: Interface,
    clients: u8,
    ghost same: { world.tables.iface ≡ iface },
    ghost seats: { length world.view.seats ≡ clients },
}

impl<S: Service, T: Stops> Run<S, T> {
    // A world of so many clients, in which nothing was done.
    #[tactic(auto, using(crate::proofs::Seats::seats_new))]
    fn new(
        alloc: Global,
        image: S::Image,
        tables: Tables,
        clients: u8,
        stops: T,
    ) -> Result<Self, Unmade>
        requires service { tables.iface.facts ≡ S.facts }
        requires unasked { T.asked stops ≡ 0 }
        requires unstruck { T.struck stops ≡ [] }
    {
        if clients > LAST_CLIENT {
            return Err(Unmade::NotAllowed);
        }
        let iface = tables.interface().copy(alloc)?;
        let world = World::new(alloc, image, tables, clients, stops)?;
        Ok(Run {
            world,
            iface,
            clients,
        })
    }

    /// The world, lent.
    pub fn world(&self) -> &World<S, T> {
        &self.world
    }

    /// How far a client has come with its call; None where there is no such client.
    pub fn phase(&self, client: u8) -> Option<Phase> {
        if self.has(client) {
            Some(self.world.phase(client))
        } else {
            None
        }
    }

    /// The number of a client's last entry; None where there is no such client.
    pub fn seq(&self, client: u8) -> Option<u32> {
        if self.has(client) {
            Some(self.world.seq(client))
        } else {
            None
        }
    }

    /// The number of clients.
    pub fn clients(&self) -> u8 {
        self.clients
    }

    // Whether there is a client of a number.
    fn has(&self, client: u8) -> bool
        ensures first { result ≡ true → 1 ≤ client }
        ensures last { result ≡ true → client ≤ self.now.clients }
    {
        1 <= client && client <= self.clients
    }

    /// A client offers a call, where it may.
    pub fn offer(&mut self, alloc: Global, client: u8, asked: &Asked) -> Result<(), Unmade> {
        match number_of(&self.iface, asked.fun) {
            Some(fun) => self.offer_call(alloc, client, fun, asked.desc, asked.args),
            None => Err(Unmade::Unread),
        }
    }

    // A client offers a call of the function of a number, where it may.
    #[tactic(auto, using(crate::proofs::Seats::seats_offered))]
    fn offer_call(
        &mut self,
        alloc: Global,
        client: u8,
        fun: u8,
        desc: u64,
        args: &str,
    ) -> Result<(), Unmade> {
        let args = args_of(alloc, args)?;
        if !self.may_offer(client) || !takes(&self.iface, fun, desc, &args) {
            return Err(Unmade::NotAllowed);
        }
        Ok(self.world.offer(alloc, client, fun, desc, args)?)
    }

    // Whether a client has no call under way, and may number another.
    fn may_offer(&self, client: u8) -> bool
        ensures first { result ≡ true → 1 ≤ client }
        ensures last { result ≡ true → client ≤ self.now.clients }
        ensures free { result ≡ true → IsFree (seat_of self.now.world.view client).phase }
        ensures numbered { result ≡ true → (seat_of self.now.world.view client).seq + 1 < 2 ^ 32 }
    {
        self.is_free(client) && self.world.seq(client) < MOST_ENTRIES
    }

    // Whether there is a client of a number, which has no call under way.
    fn is_free(&self, client: u8) -> bool
        ensures first { result ≡ true → 1 ≤ client }
        ensures last { result ≡ true → client ≤ self.now.clients }
        ensures free { result ≡ true → IsFree (seat_of self.now.world.view client).phase }
    {
        self.has(client) && has_none(self.world.phase(client))
    }

    // Whether there is a client of a number, whose call may be withdrawn.
    fn may_withdraw(&self, client: u8) -> bool
        ensures first { result ≡ true → 1 ≤ client }
        ensures last { result ≡ true → client ≤ self.now.clients }
        ensures may { result ≡ true → MayWithdraw (seat_of self.now.world.view client).phase }
    {
        self.has(client) && waits(self.world.phase(client))
    }

    /// A client takes a step.
    pub fn step(&mut self, alloc: Global, client: u8) -> Result<Did, Unmade> {
        if !self.has(client) {
            return Err(Unmade::NotAllowed);
        }
        Ok(self.world.step(alloc, client)?)
    }

    /// A client withdraws its call, where it may.
    #[tactic(auto, using(crate::proofs::Seats::seats_withdrawn))]
    pub fn withdraw(&mut self, client: u8) -> Result<(), Unmade> {
        if !self.may_withdraw(client) {
            return Err(Unmade::NotAllowed);
        }
        self.world.withdraw(client);
        Ok(())
    }

    /// A client leaves, where it may.
    #[tactic(auto, using(crate::proofs::Seats::seats_left))]
    pub fn leave(&mut self, client: u8) -> Result<(), Unmade> {
        if !self.is_free(client) {
            return Err(Unmade::NotAllowed);
        }
        self.world.leave(client);
        Ok(())
    }

    /// Makes an event, and says whether it went as it is told.
    pub fn make(&mut self, alloc: Global, event: &Event) -> Result<bool, Unmade> {
        match event {
            Event::Offer(client, asked) => {
                self.offer(alloc, *client, asked)?;
                Ok(true)
            }
            Event::Step(client, told) => Ok(tells(told, &self.step(alloc, *client)?)),
            Event::Withdraw(client) => {
                self.withdraw(*client)?;
                Ok(true)
            }
            Event::Leave(client) => {
                self.leave(*client)?;
                Ok(true)
            }
        }
    }

    /// Makes the events of lines, each of which goes as it is told.
    pub fn make_all(&mut self, alloc: Global, lines: &str) -> Result<(), Unmade> {
        for (at, line) in lines.lines().enumerate() {
            let Some(event) = Event::read(line) else {
                return Err(Unmade::UnreadLine { at });
            };
            if !self.make(alloc, &event)? {
                return Err(Unmade::Otherwise { at });
            }
        }
        Ok(())
    }

    /// A client makes a call; its reply, or None where the call waits.
    pub fn call(
        &mut self,
        alloc: Global,
        client: u8,
        asked: &Asked,
    ) -> Result<Option<Reply>, Unmade> {
        self.offer(alloc, client, asked)?;
        for _ in 0..MOST_STEPS {
            match self.step(alloc, client)? {
                Did::Answered(reply) => return Ok(Some(reply)),
                Did::Blocked => return Ok(None),
                _ => {}
            }
        }
        Err(Unmade::NotAllowed)
    }

    /// What was done, printed.
    pub fn printed(&self, alloc: Global) -> Result<Bytes, NoMemory> {
        let ended = Ended {
            history: self.world.history().copied(alloc)?,
            trace: self.world.trace().copied(alloc)?,
            ends: self.ends(alloc)?,
        };
        text(alloc, &self.iface, &ended, true)
    }

    // How each client ended.
    fn ends(&self, alloc: Global) -> Result<EndList, NoMemory> {
        let mut ends = EndList::new(alloc);
        for seat in 0..self.clients {
            let client = seat + 1;
            ends.push((client, self.end(alloc, client)?))?;
        }
        Ok(ends)
    }

    // How a client ended.
    fn end(&self, alloc: Global, client: u8) -> Result<End, NoMemory> {
        match (self.phase(client), last_asked(self.world.trace(), client)) {
            (Some(Phase::Blocked), Some(call)) => Ok(End::Blocked(call.copied(alloc)?)),
            _ => Ok(End::Done),
        }
    }
}

/// Who makes a run's events, and judges what came of them.
pub trait Judge<S: Service, T: Stops> {
    /// What is said of a run.
    type Said;

    /// Makes the events of a run in which nothing was done, and says what came of them.
    fn judge(&self, alloc: Global, run: &mut Run<S, T>) -> Self::Said;
}

/// What a judge says of a run of so many clients. The run is ended here and nowhere else: each place where a world is dropped takes
/// long to prove.
pub fn judged<S: Service, T: Stops, J: Judge<S, T>>(
    alloc: Global,
    image: S::Image,
    tables: Tables,
    clients: u8,
    stops: T,
    judge: &J,
) -> Result<J::Said, Unmade>
    requires service { tables.iface.facts ≡ S.facts }
    requires unasked { T.asked stops ≡ 0 }
    requires unstruck { T.struck stops ≡ [] }
{
    let mut run = Run::new(alloc, image, tables, clients, stops)?;
    let said = judge.judge(alloc, &mut run);
    let Run { world, .. } = run;
    discard(world);
    Ok(said)
}

// Whether a client in a phase has no call under way.
fn has_none(phase: Phase) -> bool
    ensures { result ≡ true → IsFree phase }
{
    match phase {
        Phase::Idle | Phase::Left => true,
        Phase::Asked | Phase::Held | Phase::Receipted | Phase::Blocked => false,
    }
}

// Whether the call of a client in a phase may be withdrawn.
fn waits(phase: Phase) -> bool
    ensures { result ≡ true → MayWithdraw phase }
{
    match phase {
        Phase::Asked | Phase::Blocked => true,
        Phase::Idle | Phase::Left | Phase::Held | Phase::Receipted => false,
    }
}

// The last call of a client that reached the service.
fn last_asked(trace: &Trace, client: u8) -> Option<LentCall<'_>> {
    let mut last = None;
    for boot in trace.boots.as_slice() {
        for at in 0..boot.items.len() {
            let item = boot.items.at(at);
            if is_of(&item.tag, client) {
                last = Some(item.shown);
            }
        }
    }
    last
}

// Whether an item is for a call of a client.
fn is_of(tag: &LentTag, client: u8) -> bool {
    match tag {
        LentTag::Client { client: asked, .. } => *asked == client,
        LentTag::Walk { .. } | LentTag::Load { .. } => false,
    }
}

/// Stops at these points, where their numbers ascend from 1.
pub fn stops_at(alloc: Global, points: &[u64]) -> Result<AtPoints, Unmade>
    ensures asked { IfOk result (λ stops. stops.asked ≡ 0) }
    ensures struck { IfOk result (λ stops. struck_of stops ≡ []) }
{
    if !ascends(0, points) {
        return Err(Unmade::NotAllowed);
    }
    Ok(AtPoints::new(PointList::from_slice(alloc, points)?))
}

// Whether numbers ascend, all of them above another.
fn ascends(low: u64, numbers: &[u64]) -> bool
    ensures { result ≡ true → AscendsAbove low numbers.now }
{
    match numbers {
        [] => true,
        [first, more @ ..] => low < *first && ascends(*first, more),
    }
}
