// The sharing.
ghost use Rattle.std.specs.Prelude.{◌≡◌, ◌+◌, ◌<◌, ◌^◌, length, map, OnOk, OnErr, IfOk};
ghost use Rattle.sg_turn.specs.Logs.{face_by};
ghost use Rattle.sg_turn.specs.Seats.{AllEndIn, all_seats, knowledge_of};
ghost use Rattle.sg_turn.specs.Inside.Calls.{EndsBlocked, HasHeld, IsOffered, IsUnderWay};
ghost use Rattle.sg_turn.specs.Passes.{AreAllPasses, HasCalled, HasInvoked, HasNoMemory, HasPlayed, StaysIn, call_by, own_entries, standing_of};
ghost use Rattle.sg_turn.specs.Told.{HasNoCall, left};

use crate::holds::HoldStep;
use crate::host::Host;
use crate::pass::{Pass, PassList};
use crate::pause::pause;
use crate::{Dealing, Turn, holds};
use sg_facts::{Args, NextCall, NoMemory, Reply};
use std::alloc::Global;
use std::marker::Model;
use std::sync::Wait;

/// Why a call has no reply. It is in no entry then.
#[derive(Clone, Copy, Debug, PartialEq, Eq)]
pub enum InvokeFault {
    /// There was no memory for it.
    NoMemory,
    /// It has no answer, and every client waits or has left.
    AllBlocked,
}

// What becomes of a call where nobody can go on.
#[derive(Clone, Copy)]
enum WhenBlocked {
    // Its client withdraws it.
    Withdraws,
    // It stays under way.
    Stays,
}

// What a hold came to.
#[derive(Drop)]
enum HoldEnd {
    // The call isn't answered yet.
    UnderWay,
    // Nor is it, and the step wanted memory.
    Short,
    // The call came to this.
    Ended(Result<Reply, InvokeFault>),
}

/// Clients of one world, shared by threads. Each thread brings the pass of its client. Contracts see which hand-over it is by, and what
/// the world showed at the beginning.
#[derive(Drop)]
pub struct Shared<H: Host> {
    turn: Turn<H>,
}

impl<H: Host> Model for Shared<H> {
    ghost use Rattle.sg_turn.specs.Seats.{TurnView};

    ghost Value = { TurnView };

    ghost view = { λ s. s.turn };
}

impl<H: Host> Shared<H> {
    /// Shares a world, with a pass for each of its clients in ascending numbers. After `NoMemory` the world is dropped.
    pub fn new(alloc: Global, world: H) -> Result<(Shared<H>, PassList<H>), NoMemory>
        ensures start { IfOk result (λ s. s.0.start ≡ face_by H.log H.events world) }
        ensures passes { IfOk result (λ s. s.1.items ≡ all_seats s.0 H.clients) }
    {
        let count = world.client_count();
        let Ok(mut passes) = Vec::with_capacity(alloc, usize::from(count)) else {
            return Err(NoMemory);
        };
        let Ok(mut dealing) = Dealing::new(alloc, world) else {
            return Err(NoMemory);
        };
        'dealing: for before in 0..count - 1 {
            passes.push_reserved(Pass {
                client: before + 1,
                seat: dealing.deal(),
            });
        }
        let (turn, seat) = dealing.deal_last();
        passes.push_reserved(Pass {
            client: count,
            seat,
        });
        Ok((Shared { turn }, passes))
    }

    /// Makes the next call of the pass's client: offers it, and then steps, one event a hold, until it has a reply. That is its client's
    /// one new entry, in a history that begins with all that the pass had seen, and that a service which never failed may have.
    ///
    /// `NoMemory` where memory was wanting before the call was an entry; it is withdrawn then where it was offered. `AllBlocked` where
    /// the call has no answer and, while this caller holds the world, every client waits or has left; it is withdrawn then. It may wait.
    pub fn invoke<R: Wait>(
        &self,
        rt: &R,
        alloc: Global,
        pass: &mut Pass<H>,
        fun: u8,
        desc: u64,
        args: Args,
    ) -> Result<Reply, InvokeFault>
        requires turn { pass.old.turn ≡ self.now.id }
        requires free { HasNoCall (standing_of pass.old) }
        requires numbered { length (own_entries pass.old) + 1 < 2 ^ 32 }
        requires may { H.may_offer (own_entries pass.old) (call_by pass.old fun desc args) }
        ensures { HasInvoked H.legal H.waits pass.old (call_by pass.old fun desc args) result pass.new }
    {
        let parts = NextCall { fun, desc, args };
        self.call(rt, alloc, pass, parts, WhenBlocked::Withdraws)
    }

    /// Makes the next call of the pass's client, as `invoke` does, but withdraws none that is blocked: after `AllBlocked` the call is
    /// still under way, and the pass can make no other. It may wait.
    pub fn play_call<R: Wait>(
        &self,
        rt: &R,
        alloc: Global,
        pass: &mut Pass<H>,
        fun: u8,
        desc: u64,
        args: Args,
    ) -> Result<Reply, InvokeFault>
        requires turn { pass.old.turn ≡ self.now.id }
        requires free { HasNoCall (standing_of pass.old) }
        requires numbered { length (own_entries pass.old) + 1 < 2 ^ 32 }
        requires may { H.may_offer (own_entries pass.old) (call_by pass.old fun desc args) }
        ensures { HasPlayed H.legal H.waits pass.old (call_by pass.old fun desc args) result pass.new }
    {
        let parts = NextCall { fun, desc, args };
        self.call(rt, alloc, pass, parts, WhenBlocked::Stays)
    }

    // Makes a call, of which this becomes where nobody can go on.
    fn call<R: Wait>(
        &self,
        rt: &R,
        alloc: Global,
        pass: &mut Pass<H>,
        parts: NextCall,
        blocked: WhenBlocked,
    ) -> Result<Reply, InvokeFault>
        requires turn { pass.old.turn ≡ self.now.id }
        requires free { HasNoCall (standing_of pass.old) }
        requires numbered { length (own_entries pass.old) + 1 < 2 ^ 32 }
        requires may { H.may_offer (own_entries pass.old) (call_by pass.old parts.fun parts.desc parts.args) }
        ensures { HasCalled H.legal (EndsBlocked H.waits blocked) pass.old (call_by pass.old parts.fun parts.desc parts.args) result pass.new }
    {
        if self.offer(rt, alloc, pass, parts).is_err() {
            return Err(InvokeFault::NoMemory);
        }
        let mut short = false;
        let mut waits = false;
        let mut asked: u32 = 0;
        for _ in rt.forever() {
            match self.go_on(rt, alloc, pass, short, blocked, &mut waits) {
                HoldEnd::UnderWay => {}
                HoldEnd::Short => short = true,
                HoldEnd::Ended(end) => return end,
            }
            if waits {
                asked = asked.saturating_add(1);
                pause(rt, asked);
            }
        }
        unreachable!()
    }

    // Offers the next call of the pass's client.
    fn offer<R: Wait>(
        &self,
        rt: &R,
        alloc: Global,
        pass: &mut Pass<H>,
        parts: NextCall,
    ) -> Result<(), NoMemory>
        requires turn { pass.old.turn ≡ self.now.id }
        requires free { HasNoCall (standing_of pass.old) }
        requires numbered { length (own_entries pass.old) + 1 < 2 ^ 32 }
        requires may { H.may_offer (own_entries pass.old) (call_by pass.old parts.fun parts.desc parts.args) }
        ensures ok { OnOk result (IsOffered pass.old (call_by pass.old parts.fun parts.desc parts.args) pass.new) }
        ensures err { OnErr result (HasNoMemory pass.old (call_by pass.old parts.fun parts.desc parts.args) pass.new) }
    {
        let held = self.turn.take(rt, &mut pass.seat);
        holds::offer(alloc, &self.turn, &mut pass.seat, pass.client, held, parts)
    }

    // Makes one event of a call that is under way: withdraws it where a step of it wanted memory, or where nobody can go on and it is
    // to be withdrawn then; else a step. It notes whether the call had to wait before.
    fn go_on<R: Wait>(
        &self,
        rt: &R,
        alloc: Global,
        pass: &mut Pass<H>,
        short: bool,
        blocked: WhenBlocked,
        waits: &mut bool,
    ) -> HoldEnd
        requires turn { pass.old.turn ≡ self.now.id }
        ensures { (old : _) (call : _) → IsUnderWay old call pass.old → HasHeld H.legal (EndsBlocked H.waits blocked) old call result pass.new }
    {
        let held = self.turn.take(rt, &mut pass.seat);
        *waits = held.value.is_waiting(pass.client);
        if short && holds::may_withdraw(&pass.seat, pass.client, &held) {
            holds::withdraw(&self.turn, &mut pass.seat, pass.client, held);
            return HoldEnd::Ended(Err(InvokeFault::NoMemory));
        }
        if matches!(blocked, WhenBlocked::Withdraws)
            && holds::is_all_blocked(&pass.seat, pass.client, &held)
        {
            holds::withdraw(&self.turn, &mut pass.seat, pass.client, held);
            return HoldEnd::Ended(Err(InvokeFault::AllBlocked));
        }
        match holds::step(alloc, &self.turn, &mut pass.seat, pass.client, held) {
            HoldStep::GoesOn => HoldEnd::UnderWay,
            HoldStep::AllBlocked => match blocked {
                WhenBlocked::Withdraws => HoldEnd::UnderWay,
                WhenBlocked::Stays => HoldEnd::Ended(Err(InvokeFault::AllBlocked)),
            },
            HoldStep::Answered(reply) => HoldEnd::Ended(Ok(reply)),
            HoldStep::Short => HoldEnd::Short,
        }
    }

    /// The pass's client leaves, which has no call under way. Nobody waits for it from then on. It may wait.
    pub fn leave<R: Wait>(&self, rt: &R, pass: &mut Pass<H>)
        requires turn { pass.old.turn ≡ self.now.id }
        requires free { HasNoCall (standing_of pass.old) }
        ensures stays { StaysIn pass.old pass.new }
        ensures left { standing_of pass.new ≡ left }
    {
        let held = self.turn.take(rt, &mut pass.seat);
        holds::leave(&self.turn, &mut pass.seat, pass.client, held);
    }

    /// A number of events of the world since the beginning, at least what the pass knew; the pass has seen the log after so many from
    /// then on. It never waits, whoever holds the world.
    pub fn progress(&self, pass: &mut Pass<H>) -> u64
        requires turn { pass.old.turn ≡ self.now.id }
        ensures stays { StaysIn pass.old pass.new }
        ensures stands { standing_of pass.new ≡ standing_of pass.old }
        ensures known { result ≡ pass.new.known }
    {
        self.turn.progress(&mut pass.seat)
    }

    /// Ends the sharing with all its passes, in ascending numbers, and gives the world out. Its log begins with all that each pass has
    /// seen, has the marks of each client as the client's pass has them, and counts an event at least for each hold that a pass knows of.
    /// It takes no memory.
    pub fn close(self, mut passes: PassList<H>) -> H
        requires { AreAllPasses self passes.items }
        ensures { AllEndIn self.start (face_by H.log H.events result) (map knowledge_of passes.items) }
    {
        let Shared { turn } = self;
        let Some(last) = passes.pop() else {
            unreachable!()
        };
        let Pass { client: _, seat } = last;
        let mut closing = turn.closing(seat);
        while let Some(pass) = passes.pop() {
            let Pass { client: _, seat } = pass;
            closing.gather(seat);
        }
        closing.end()
    }
}
