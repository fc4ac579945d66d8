// One event while a seat holds what is shared, which is given back after it.
ghost use Rattle.std.specs.Prelude.{◌≡◌, ◌+◌, ◌≤◌, ◌<◌, ◌^◌, true, [], ◌∷◌, ◌++◌, length, OnOk, OnErr};
ghost use Rattle.sg_turn.specs.Logs.{face_by};
ghost use Rattle.sg_turn.specs.declared.log.LogMarkKind.TheVariants.{Offer, Withdraw};
ghost use Rattle.sg_turn.specs.Hosts.{AddsLeave};
ghost use Rattle.sg_turn.specs.Inside.Calls.{GaveBack, GaveBackWith};
ghost use Rattle.sg_turn.specs.Inside.Events.{HasMadeStep};
ghost use Rattle.sg_turn.specs.Passes.{call_by, own_entries, seen_by, standing_of};
ghost use Rattle.sg_turn.specs.Told.{AllRest, HasNoCall, asking, mark_by};

use crate::host::{Host, Stepped};
use crate::{Hold, Seat, Turn};
use sg_facts::{NextCall, NoMemory, Reply};
use std::alloc::Global;

/// The client offers its next call.
pub fn offer<H: Host>(
    alloc: Global,
    turn: &Turn<H>,
    seat: &mut Seat<H>,
    client: u8,
    mut held: Hold<H>,
    parts: NextCall,
) -> Result<(), NoMemory>
    requires turn { seat.old.turn ≡ turn.now.id }
    requires holds { seat.old.holds ≡ true }
    requires client { client ≡ seat.old.number }
    requires first { 1 ≤ client }
    requires last { client ≤ H.clients }
    requires value { face_by H.log H.events held.value ≡ seat.old.face }
    requires free { HasNoCall (standing_of seat.old) }
    requires numbered { length (own_entries seat.old) + 1 < 2 ^ 32 }
    requires may { H.may_offer (own_entries seat.old) (call_by seat.old parts.fun parts.desc parts.args) }
    ensures ok { OnOk result (GaveBackWith seat.old seat.new (mark_by client (Offer (call_by seat.old parts.fun parts.desc parts.args)) ∷ [])) }
    ensures err { OnErr result (GaveBackWith seat.old seat.new []) }
{
    let NextCall { fun, desc, args } = parts;
    let offered = held.value.offer(alloc, client, fun, desc, args);
    turn.give(seat, held);
    offered
}

/// What a step in a hold came to.
#[derive(Drop)]
pub enum HoldStep {
    /// The call isn't answered yet.
    GoesOn,
    /// Nor is it, and its client waits, in a call that has no answer, and each other waits too or has left.
    AllBlocked,
    /// The reply was handed over.
    Answered(Reply),
    /// The step wanted memory.
    Short,
}

/// The client makes a step.
pub fn step<H: Host>(
    alloc: Global,
    turn: &Turn<H>,
    seat: &mut Seat<H>,
    client: u8,
    mut held: Hold<H>,
) -> HoldStep
    requires turn { seat.old.turn ≡ turn.now.id }
    requires holds { seat.old.holds ≡ true }
    requires client { client ≡ seat.old.number }
    requires first { 1 ≤ client }
    requires last { client ≤ H.clients }
    requires value { face_by H.log H.events held.value ≡ seat.old.face }
    ensures stepped { HasMadeStep H.waits client seat.old result seat.new }
    ensures same { GaveBack seat.old seat.new }
    ensures legal { H.legal (seen_by seat.new) }
{
    let end = match held.value.step(alloc, client) {
        Ok(Stepped::GoesOn) => {
            if held.value.is_all_blocked(client) {
                HoldStep::AllBlocked
            } else {
                HoldStep::GoesOn
            }
        }
        Ok(Stepped::Answered(reply)) => HoldStep::Answered(reply),
        Err(NoMemory) => HoldStep::Short,
    };
    turn.give(seat, held);
    end
}

/// The client withdraws its call.
pub fn withdraw<H: Host>(turn: &Turn<H>, seat: &mut Seat<H>, client: u8, mut held: Hold<H>)
    requires turn { seat.old.turn ≡ turn.now.id }
    requires holds { seat.old.holds ≡ true }
    requires client { client ≡ seat.old.number }
    requires first { 1 ≤ client }
    requires last { client ≤ H.clients }
    requires value { face_by H.log H.events held.value ≡ seat.old.face }
    requires may { H.may_give_up held.value client }
    requires asks { (call : _) × (standing_of seat.old ≡ asking call) }
    ensures same { GaveBack seat.old seat.new }
    ensures log { (call : _) → standing_of seat.old ≡ asking call
        → seat.new.face.log ≡ seat.old.face.log ++ mark_by client (Withdraw call (H.phases held.value) (length (seen_by seat.old))) ∷ [] }
{
    held.value.withdraw(client);
    turn.give(seat, held);
}

/// The client leaves.
pub fn leave<H: Host>(turn: &Turn<H>, seat: &mut Seat<H>, client: u8, mut held: Hold<H>)
    requires turn { seat.old.turn ≡ turn.now.id }
    requires holds { seat.old.holds ≡ true }
    requires client { client ≡ seat.old.number }
    requires first { 1 ≤ client }
    requires last { client ≤ H.clients }
    requires value { face_by H.log H.events held.value ≡ seat.old.face }
    requires free { HasNoCall (standing_of seat.old) }
    ensures left { AddsLeave client seat.old.face.log seat.new.face.log }
    ensures same { GaveBack seat.old seat.new }
{
    held.value.leave(client);
    turn.give(seat, held);
}

/// Whether the client's call may be withdrawn.
pub fn may_withdraw<H: Host>(seat: &Seat<H>, client: u8, held: &Hold<H>) -> bool
    requires client { client ≡ seat.now.number }
    requires first { 1 ≤ client }
    requires last { client ≤ H.clients }
    requires value { face_by H.log H.events held.now.value ≡ seat.now.face }
    ensures may { result ≡ true → H.may_give_up held.now.value client }
    ensures asks { result ≡ true → (call : _) × (standing_of seat.now ≡ asking call) }
{
    let _ = seat;
    held.value.may_withdraw(client)
}

/// Whether the client waits, in a call that has no answer, and each other waits too or has left.
pub fn is_all_blocked<H: Host>(seat: &Seat<H>, client: u8, held: &Hold<H>) -> bool
    requires client { client ≡ seat.now.number }
    requires first { 1 ≤ client }
    requires last { client ≤ H.clients }
    requires value { face_by H.log H.events held.now.value ≡ seat.now.face }
    ensures may { result ≡ true → H.may_give_up held.now.value client }
    ensures waits { result ≡ true → (call : _) × (standing_of seat.now ≡ asking call) × H.waits (seen_by seat.now) call }
    ensures rest { result ≡ true → AllRest (H.phases held.now.value) }
{
    let _ = seat;
    held.value.is_all_blocked(client)
}
