// What threads share, as its log tells it.
ghost use Rattle.std.specs.Prelude.{◌≡◌, ◌+◌, ◌≤◌, ◌<◌, ◌^◌, true, [], ◌∷◌, ◌++◌, length, OnOk, OnErr, IfOk};
ghost use Rattle.sg_turn.specs.Logs.{OneMore};
ghost use Rattle.sg_turn.specs.declared.log.LogMarkKind.TheVariants.{Offer, Withdraw};
ghost use Rattle.sg_turn.specs.Hosts.{AddsLeave, AddsStep};
ghost use Rattle.sg_turn.specs.Told.{AllRest, HasNoCall, asking, entries_by, entries_in, mark_by, next_call, standing_in};

use crate::Kept;
use sg_facts::{Args, NoMemory, Reply};
use std::alloc::Global;

/// What a step of a client came to.
#[derive(Debug, Drop)]
pub enum Stepped {
    /// Its call isn't answered yet.
    GoesOn,
    /// Its reply was handed over.
    Answered(Reply),
}

/// A world of clients that make calls, one event at a time. Contracts see it by its log alone, to which each event adds what it did.
pub trait Host: Kept {
    ghost use Rattle.std.specs.Prelude.{ℕ, List};
    ghost use Rattle.sg_facts.specs.sg_base.declared.call.Call.{Call};
    ghost use Rattle.sg_facts.specs.declared.entry.Entry.{Entry};

    /// How many clients there are.
    ghost clients: { ℕ };

    /// A history that a service which never failed may have.
    ghost legal: { List Entry → Type 0 };

    /// A call has no answer after a history.
    ghost waits: { List Entry → Call → Type 0 };

    /// A call that a client may offer that has these entries so far.
    ghost may_offer: { List Entry → Call → Type 0 };

    /// The phases of the clients, as numbers.
    ghost phases: { Self → List ℕ };

    /// A client's call may be withdrawn.
    ghost may_give_up: { Self → ℕ → Type 0 };

    fn client_count(&self) -> u8
        ensures count { result ≡ clients }
        ensures some { 1 ≤ result };

    /// A client offers a call, under its next number. After `NoMemory` nothing is offered.
    fn offer(
        &mut self,
        alloc: Global,
        client: u8,
        fun: u8,
        desc: u64,
        args: Args,
    ) -> Result<(), NoMemory>
        requires first { 1 ≤ client }
        requires last { client ≤ clients }
        requires free { HasNoCall (standing_in client (Self.log self.old)) }
        requires numbered { length (entries_by client (Self.log self.old)) + 1 < 2 ^ 32 }
        requires may { may_offer (entries_by client (Self.log self.old)) (next_call client (Self.log self.old) fun desc args) }
        ensures ok { OnOk result (Self.log self.new ≡ Self.log self.old ++ mark_by client (Offer (next_call client (Self.log self.old) fun desc args)) ∷ []) }
        ensures err { OnErr result (Self.log self.new ≡ Self.log self.old) }
        ensures events { OneMore (Self.events self.old) (Self.events self.new) };

    /// A client makes a step in its call. After `NoMemory` the step may be made again.
    fn step(&mut self, alloc: Global, client: u8) -> Result<Stepped, NoMemory>
        requires first { 1 ≤ client }
        requires last { client ≤ clients }
        ensures stepped { IfOk result (λ stepped. AddsStep client (Self.log self.old) stepped (Self.log self.new)) }
        ensures err { OnErr result (Self.log self.new ≡ Self.log self.old) }
        ensures legal { legal (entries_in (Self.log self.new)) }
        ensures events { OneMore (Self.events self.old) (Self.events self.new) };

    /// Whether a client's call may be withdrawn; it has no reply then.
    fn may_withdraw(&self, client: u8) -> bool
        requires first { 1 ≤ client }
        requires last { client ≤ clients }
        ensures may { result ≡ true → may_give_up self.now client }
        ensures asks { result ≡ true → (call : _) × (standing_in client (Self.log self.now) ≡ asking call) };

    /// Whether a client waits, in a call that has no answer, and each other waits too or has left.
    fn is_all_blocked(&self, client: u8) -> bool
        requires first { 1 ≤ client }
        requires last { client ≤ clients }
        ensures may { result ≡ true → may_give_up self.now client }
        ensures waits { result ≡ true
            → (call : _) × (standing_in client (Self.log self.now) ≡ asking call) × waits (entries_in (Self.log self.now)) call }
        ensures rest { result ≡ true → AllRest (phases self.now) };

    /// Whether a client's call has to wait, as far as is known before its next step.
    fn is_waiting(&self, client: u8) -> bool
        requires first { 1 ≤ client }
        requires last { client ≤ clients };

    /// A client withdraws its call.
    fn withdraw(&mut self, client: u8)
        requires first { 1 ≤ client }
        requires last { client ≤ clients }
        requires may { may_give_up self.old client }
        ensures log { (call : _) → standing_in client (Self.log self.old) ≡ asking call
            → Self.log self.new ≡ Self.log self.old ++ mark_by client (Withdraw call (phases self.old) (length (entries_in (Self.log self.old)))) ∷ [] }
        ensures events { OneMore (Self.events self.old) (Self.events self.new) };

    /// A client that has no call under way leaves.
    fn leave(&mut self, client: u8)
        requires first { 1 ≤ client }
        requires last { client ≤ clients }
        requires free { HasNoCall (standing_in client (Self.log self.old)) }
        ensures log { AddsLeave client (Self.log self.old) (Self.log self.new) }
        ensures events { OneMore (Self.events self.old) (Self.events self.new) };
}
