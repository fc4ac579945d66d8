// One client, with its call and the memory that was taken for it.
ghost use Rattle.std.specs.Prelude.{◌≡◌, ◌<◌, ◌^◌, true, Some, IsSome, OnErr, OnOk};
ghost use Rattle.sg_facts.specs.sg_base.Reply.{FitsReplyRoom};
ghost use Rattle.sg_clients.specs.Rooms.{FitsSeatRoom, HasSeatRoom};
ghost use Rattle.sg_clients.specs.WorldView.{is_at_rest, is_blocked_phase, is_left_phase, is_offered, no_reply, no_seat, woken_seat};
ghost use Rattle.sg_clients.specs.declared.phase.Phase.TheVariants.{Idle, Asked, Held, Receipted, Blocked, Left};

use crate::Phase;
use sg_facts::{
    Args, Bytes, Call, Entry, Good, LAST_CLIENT, NoMemory, Reply, SpareList, SpareReply, TryCopy,
    Words,
};
use std::alloc::Global;
use std::marker::Model;
use std::mem;

/// The greatest number of clients.
const MOST_CLIENTS: usize = LAST_CLIENT as usize;

/// Room that is kept from one call to the next: for the entry's reply, for the reply that is handed over, and for the phases at a
/// withdrawal.
#[derive(Debug, Drop)]
pub(crate) struct SeatSpare {
    pub(crate) entry: SpareReply,
    pub(crate) answer: SpareReply,
    pub(crate) phases: SpareList<Phase>,
}

impl SeatSpare {
    // No room yet. It takes no memory.
    fn new(alloc: Global) -> SeatSpare {
        SeatSpare {
            entry: SpareReply::new(alloc),
            answer: SpareReply::new(alloc),
            phases: SpareList::new(alloc),
        }
    }

    // Takes the memory for one call, where it isn't there. Room is never lost, whatever the answer.
    fn reserve(&mut self, alloc: Global) -> Result<(), NoMemory>
        ensures ok { OnOk result (HasSeatRoom self.new) }
        ensures kept { HasSeatRoom self.old → HasSeatRoom self.new }
    {
        self.entry.reserve(alloc)?;
        self.answer.reserve(alloc)?;
        self.phases.reserve(alloc, MOST_CLIENTS)?;
        Ok(())
    }
}

/// What a withdrawal takes: the copy of the call that was made when it was offered, and room for the phases.
#[derive(Debug, Drop)]
pub(crate) struct SeatRoom {
    pub(crate) call: Call,
    pub(crate) phases: Vec<Phase>,
}

/// An answered call whose reply was held: its entry, its reply for storage, and its reply for the client.
#[derive(Debug, Drop)]
pub struct Returned {
    pub entry: Entry,
    pub reply: Reply,
    pub answer: Reply,
}

/// A client of a world. While its call isn't answered, it has the memory that answering or withdrawing it takes.
#[derive(Debug, Drop)]
pub(crate) struct ClientSeat {
    phase: Phase,
    call: Call,
    seq: u32,
    boot: u64,
    reply: Reply,
    // While its call isn't answered, a copy of it, for its entry or its withdrawal.
    copy: Option<Call>,
    spare: SeatSpare,
}

impl Model for ClientSeat {
    ghost use Rattle.sg_clients.specs.Rooms.{KeepsRoom};
    ghost use Rattle.sg_clients.specs.WorldView.{Seat};

    ghost Value = { Seat };

    ghost view = { λ s. record { phase = s.phase; call = s.call; seq = s.seq; boot = s.boot; reply = s.reply } };

    ghost invariant = { λ s. KeepsRoom s.phase s.call s.reply s.copy s.spare };
}

impl ClientSeat {
    /// A client that did nothing yet. It takes no memory.
    pub(crate) fn new(alloc: Global) -> ClientSeat
        ensures { result ≡ no_seat }
    {
        ClientSeat {
            phase: Phase::Idle,
            call: Call {
                client: 0,
                seq: 0,
                fun: 0,
                desc: 0,
                args: Args::new(alloc),
            },
            seq: 0,
            boot: 0,
            reply: empty_reply(alloc),
            copy: None,
            spare: SeatSpare::new(alloc),
        }
    }

    /// How far it has come with its call.
    pub(crate) fn phase(&self) -> Phase
        ensures { result ≡ self.now.phase }
    {
        self.phase
    }

    /// Whether it waits or has left.
    pub(crate) fn is_at_rest(&self) -> bool
        ensures { result ≡ is_at_rest self.now }
    {
        matches!(self.phase, Phase::Blocked | Phase::Left)
    }

    /// Whether it waits.
    pub(crate) fn is_blocked(&self) -> bool
        ensures { result ≡ is_blocked_phase self.now.phase }
    {
        matches!(self.phase, Phase::Blocked)
    }

    /// Whether it has left.
    pub(crate) fn has_left(&self) -> bool
        ensures { result ≡ is_left_phase self.now.phase }
    {
        matches!(self.phase, Phase::Left)
    }

    /// The number of its last entry.
    pub(crate) fn seq(&self) -> u32
        ensures { result ≡ self.now.seq }
    {
        self.seq
    }

    /// The boot in which the service gave its last held reply.
    pub(crate) fn boot(&self) -> u64
        ensures { result ≡ self.now.boot }
    {
        self.boot
    }

    /// Its last call, lent.
    pub(crate) fn call(&self) -> &Call
        ensures { result.now ≡ self.now.call }
    {
        &self.call
    }

    /// Offers a call, and takes the memory that answering or withdrawing it takes. After `NoMemory` it is as before.
    pub(crate) fn offer(&mut self, alloc: Global, call: Call) -> Result<(), NoMemory>
        ensures ok { OnOk result (self.new ≡ record self.old { phase = Asked; call = call }) }
        ensures err { OnErr result (self.new ≡ self.old) }
    {
        self.spare.reserve(alloc)?;
        self.copy = Some(call.copy(alloc)?);
        self.phase = Phase::Asked;
        self.call = call;
        Ok(())
    }

    /// Waits in its call.
    pub(crate) fn block(&mut self)
        requires { is_offered self.old.phase ≡ true }
        ensures { self.new ≡ record self.old { phase = Blocked } }
    {
        self.phase = Phase::Blocked;
    }

    /// Asks its call again.
    pub(crate) fn ask_again(&mut self)
        requires { is_offered self.old.phase ≡ true }
        ensures { self.new ≡ record self.old { phase = Asked } }
    {
        self.phase = Phase::Asked;
    }

    /// Asks its call again, if it waits in it and the call meets a test.
    pub(crate) fn wake(&mut self, meets: bool)
        ensures { self.new ≡ woken_seat (λ call. meets) self.old }
    {
        if meets && self.is_blocked() {
            self.phase = Phase::Asked;
        }
    }

    /// Holds a reply that the service gave in a boot.
    pub(crate) fn hold(&mut self, boot: u64, reply: Reply)
        requires offers { is_offered self.old.phase ≡ true }
        requires fits { FitsReplyRoom reply }
        ensures { self.new ≡ record self.old { phase = Held; boot = boot; reply = reply } }
    {
        self.phase = Phase::Held;
        self.boot = boot;
        self.reply = reply;
    }

    /// Gets a reply that is to be handed over, and gives the entry.
    pub(crate) fn give(&mut self, reply: &Reply) -> Entry
        requires offers { is_offered self.old.phase ≡ true }
        requires fits { FitsReplyRoom reply.now }
        ensures entry { result ≡ record { call = self.old.call; reply = reply.now } }
        ensures number { result.call.seq < 2 ^ 32 }
        ensures seat { self.new ≡ record self.old { phase = Receipted; seq = self.old.call.seq; reply = reply.now } }
    {
        self.phase = Phase::Receipted;
        self.seq = self.call.seq;
        self.reply = self.spare.answer.fill(reply);
        Entry {
            call: take_copy(&mut self.copy),
            reply: self.spare.entry.fill(reply),
        }
    }

    /// Gets a reply that is to be handed over, where its entry was noted by loan.
    pub(crate) fn answer(&mut self, reply: &Reply)
        requires offers { is_offered self.old.phase ≡ true }
        requires fits { FitsReplyRoom reply.now }
        ensures number { self.old.call.seq < 2 ^ 32 }
        ensures seat { self.new ≡ record self.old { phase = Receipted; seq = self.old.call.seq; reply = reply.now } }
    {
        self.phase = Phase::Receipted;
        self.seq = number_of(&self.call);
        self.reply = self.spare.answer.fill(reply);
    }

    /// Gives the reply that it holds.
    pub(crate) fn give_back(&mut self, alloc: Global) -> Returned
        requires { is_offered self.old.phase ≡ true }
        ensures entry { result.entry ≡ record { call = self.old.call; reply = self.old.reply } }
        ensures number { result.entry.call.seq < 2 ^ 32 }
        ensures reply { result.reply ≡ self.old.reply }
        ensures answer { result.answer ≡ self.old.reply }
        ensures seat { self.new ≡ record self.old { phase = Idle; seq = self.old.call.seq; reply = no_reply } }
    {
        let reply = mem::replace(&mut self.reply, empty_reply(alloc));
        self.phase = Phase::Idle;
        self.seq = self.call.seq;
        Returned {
            entry: Entry {
                call: take_copy(&mut self.copy),
                reply: self.spare.entry.fill(&reply),
            },
            answer: self.spare.answer.fill(&reply),
            reply,
        }
    }

    /// Is refused its call, and gives the call for its entry.
    pub(crate) fn refuse(&mut self, alloc: Global) -> Call
        requires { is_offered self.old.phase ≡ true }
        ensures call { result ≡ self.old.call }
        ensures number { result.seq < 2 ^ 32 }
        ensures seat { self.new ≡ record self.old { phase = Idle; seq = self.old.call.seq; reply = no_reply } }
    {
        self.reply = empty_reply(alloc);
        self.phase = Phase::Idle;
        self.seq = self.call.seq;
        take_copy(&mut self.copy)
    }

    /// Hands its reply over.
    pub(crate) fn hand_over(&mut self, alloc: Global) -> Reply
        requires { self.old.phase ≡ Receipted }
        ensures reply { result ≡ self.old.reply }
        ensures seat { self.new ≡ record self.old { phase = Idle; reply = no_reply } }
    {
        self.phase = Phase::Idle;
        mem::replace(&mut self.reply, empty_reply(alloc))
    }

    /// Leaves.
    pub(crate) fn leave(&mut self)
        ensures { self.new ≡ record self.old { phase = Left } }
    {
        self.phase = Phase::Left;
    }

    /// Withdraws its call, and gives what was taken for that.
    pub(crate) fn withdraw(&mut self) -> SeatRoom
        requires { is_offered self.old.phase ≡ true }
        ensures room { FitsSeatRoom self.old.call result }
        ensures seat { self.new ≡ record self.old { phase = Idle } }
    {
        self.phase = Phase::Idle;
        SeatRoom {
            call: take_copy(&mut self.copy),
            phases: self.spare.phases.take(),
        }
    }
}

// The number of a call.
fn number_of(call: &Call) -> u32
    ensures { result ≡ call.now.seq }
{
    call.seq
}

// The copy of a call, which is given away.
fn take_copy(copy: &mut Option<Call>) -> Call
    requires { IsSome copy.old }
    ensures { copy.old ≡ Some result }
{
    match copy.take() {
        Some(call) => call,
        None => unreachable!(),
    }
}

// A reply that says nothing.
fn empty_reply(alloc: Global) -> Reply
    ensures { result ≡ no_reply }
{
    Reply::Ok(Good {
        desc: 0,
        words: Words::new(alloc),
        bytes: Bytes::new(alloc),
    })
}
