// The worlds of the members of a play, and how far its clients have come with their calls.
ghost use Rattle.std.specs.Prelude.{ℕ, ◌≡◌, ◌++◌, ◌∷◌, ◌≤◌, ◌<◌, ◌-◌, [], if◌then◌else◌, Some, OnErr, OnOk, false, true, length, option_map, slice_get};
ghost use Rattle.std.specs.Option.{option_copied};
ghost use Rattle.sg_multi.specs.Members.{Membered, setting_in, view_in};
ghost use Rattle.sg_multi.specs.sg_sim.Inside.Givens.{lists_of, room_for};
ghost use Rattle.sg_multi.specs.sg_sim.sg_plain.Calls.{most_client};
ghost use Rattle.sg_multi.specs.sg_sim.sg_plain.Playing.Given.{with_handed};
ghost use Rattle.sg_multi.specs.sg_sim.sg_plain.Playing.Turns.{is_free_phase};
ghost use Rattle.sg_multi.specs.sg_sim.sg_play.Recovering.{RecoversSoFar};
ghost use Rattle.sg_multi.specs.sg_sim.sg_play.Turning.{handed_by};
ghost use Rattle.sg_multi.specs.sg_sim.sg_play.sg_clients.Clients.{IsClient};
ghost use Rattle.sg_multi.specs.sg_sim.sg_clients.WorldView.{is_blocked_phase, seat_of};
ghost use Rattle.sg_multi.specs.Inside.Following.{players_now};
ghost use Rattle.sg_multi.specs.Inside.Turns.{KeepsRunning, SameMembers, TakesNextTurn, is_at_setup, may_go_now};
ghost use Rattle.sg_multi.specs.Inside.Whose.{next_of, seat_at};

use crate::world::ServiceWorld;
use crate::{Describes, Did, Given, Member, Members, NextCall, Phase, call_with_setup, desc_of};
use sg_facts::{Call, FIRST_CLIENT, NoMemory, RoomyList};
use sg_script::{MultiCall, MultiScript};
use std::alloc::Global;

/// The worlds of the members, what the calls of the clients were given, and the member of each entry, from 1, in the order of the commits.
#[derive(Drop)]
#[derive_where(Debug)]
pub(crate) struct Running<N: Describes> {
    pub(crate) members: Members<N>,
    pub(crate) given: Given,
    pub(crate) order: RoomyList<u8>,
    // How many turns of the schedule were taken or passed over.
    pub(crate) passed: usize,
    // The client of the last turn, 0 before the first.
    pub(crate) last: u8,
}

impl<N: Describes> Running<N> {
    /// The call that a client has under way or makes next, over all members; None where it has no more.
    pub(crate) fn next_call<'a>(&self, script: &'a MultiScript, client: u8) -> Option<&'a MultiCall>
        requires first { 1 ≤ client }
        requires last { client ≤ most_client script.now.clients }
        requires keeps { KeepsRunning script.now self.now }
        ensures { option_copied result ≡ next_of script.now (lists_of self.now.given) client }
    {
        let done = self.given.of(client).len();
        call_with_setup(
            script.setup.as_slice(),
            script.clients.as_slice(),
            client,
            done,
        )
    }

    /// Whether a client can take a turn: it has a call under way, or one more, and doesn't wait.
    pub(crate) fn can_go(&self, script: &MultiScript, client: u8) -> bool
        requires first { 1 ≤ client }
        requires last { client ≤ most_client script.now.clients }
        requires keeps { KeepsRunning script.now self.now }
        ensures { result ≡ may_go_now script.now self.now client }
    {
        match self.next_call(script, client) {
            Some(call) => !waits(self.phase(client, call.member)),
            None => false,
        }
    }

    /// Whether client 1 is still at the calls of the setup.
    pub(crate) fn is_setting_up(&self, script: &MultiScript) -> bool
        requires keeps { KeepsRunning script.now self.now }
        ensures { result ≡ is_at_setup script.now self.now }
    {
        self.given.of(FIRST_CLIENT).len() < script.setup.len()
    }

    /// A client takes its turn: it offers its next call where it has none under way, and makes a step in the world of that call's member.
    /// Nothing happens where it has no more. Where it was the client's turn in the play without stops, that is followed on, as soon as the turn
    /// is noted. After `NoMemory` the turn may be made again.
    pub(crate) fn take_turn(
        &mut self,
        alloc: Global,
        script: &MultiScript,
        client: u8,
    ) -> Result<(), NoMemory>
        requires first { 1 ≤ client }
        requires last { client ≤ most_client script.now.clients }
        requires setup { is_at_setup script.now self.old ≡ true → client ≡ 1 }
        requires keeps { KeepsRunning script.now self.old }
        ensures turned { OnOk result ((passed : ℕ) → TakesNextTurn script.now self.old client passed → KeepsRunning script.now (record self.new { passed = passed; last = client })) }
        ensures keeps { OnErr result (KeepsRunning script.now self.new) }
        ensures same { SameMembers self.old.members self.new.members }
    {
        let Some(call) = self.next_call(script, client) else {
            return Ok(());
        };
        self.offer(alloc, script, client, call)?;
        self.step(alloc, script, client, call.member)
    }

    // A client that has no call under way offers this one, which is its next, in the world of its member.
    fn offer(
        &mut self,
        alloc: Global,
        script: &MultiScript,
        client: u8,
        call: &MultiCall,
    ) -> Result<(), NoMemory>
        requires first { 1 ≤ client }
        requires last { client ≤ most_client script.now.clients }
        requires next { next_of script.now (lists_of self.old.given) client ≡ Some call.now }
        requires keeps { KeepsRunning script.now self.old }
        ensures keeps { KeepsRunning script.now self.new }
        ensures same { SameMembers self.old.members self.new.members }
        ensures given { self.new.given ≡ self.old.given }
        ensures passed { self.new.passed ≡ self.old.passed }
        ensures last { self.new.last ≡ self.old.last }
        ensures players { players_now self.new.members script.now (lists_of self.new.given) ≡ players_now self.old.members script.now (lists_of self.old.given) }
        ensures asked { OnOk result (is_free_phase (seat_at self.new.members (call.now.member - 1) client).phase ≡ false) }
    {
        let _ = script;
        if !is_free(self.phase(client, call.member)) {
            return Ok(());
        }
        let next = member_of(&self.members, call.member).next_call(
            alloc,
            self.given.of(client),
            &call.call,
        )?;
        let NextCall { fun, desc, args } = next;
        let place = usize::from(call.member) - 1;
        self.members.offer(alloc, place, client, fun, desc, args)
    }

    // A client makes a step in the world of a member. The member is noted where an entry was made, and what the client was given where a
    // reply was handed over.
    fn step(
        &mut self,
        alloc: Global,
        script: &MultiScript,
        client: u8,
        member: u8,
    ) -> Result<(), NoMemory>
        requires first { 1 ≤ client }
        requires last { client ≤ most_client script.now.clients }
        requires some { 1 ≤ member }
        requires there { member ≤ length self.old.members }
        requires next { option_map (λ c. c.member) (next_of script.now (lists_of self.old.given) client) ≡ Some member }
        requires busy { is_free_phase (seat_at self.old.members (member - 1) client).phase ≡ false }
        requires setup { is_at_setup script.now self.old ≡ true → client ≡ 1 }
        requires keeps { KeepsRunning script.now self.old }
        ensures turned { OnOk result ((passed : ℕ) → TakesNextTurn script.now self.old client passed → KeepsRunning script.now (record self.new { passed = passed; last = client })) }
        ensures keeps { OnErr result (KeepsRunning script.now self.new) }
        ensures same { SameMembers self.old.members self.new.members }
    {
        self.reserve(client)?;
        let before = entries_of(member_of(&self.members, member), client);
        let place = usize::from(member) - 1;
        let did = self.members.step(alloc, place, client)?;
        let after = entries_of(member_of(&self.members, member), client);
        self.note_entry(member, after > before);
        self.note_reply(client, handed(&did));
        Ok(())
    }

    // Takes the memory for an entry's place in the order and for what a client is given.
    fn reserve(&mut self, client: u8) -> Result<(), NoMemory>
        requires { IsClient (length self.old.given) client }
        ensures given { OnOk result (0 < room_for self.new.given client) }
        ensures order { OnOk result (0 < self.new.order.room) }
        ensures lists { lists_of self.new.given ≡ lists_of self.old.given }
        ensures items { self.new.order.items ≡ self.old.order.items }
        ensures members { self.new.members ≡ self.old.members }
        ensures passed { self.new.passed ≡ self.old.passed }
        ensures last { self.new.last ≡ self.old.last }
    {
        self.given.reserve(client)?;
        self.order.reserve(1)
    }

    // Notes the member of an entry, where one was made.
    fn note_entry(&mut self, member: u8, made: bool)
        requires { 0 < self.old.order.room }
        ensures items { self.new.order.items ≡ (if made then self.old.order.items ++ member ∷ [] else self.old.order.items) }
        ensures rest { self.new ≡ record self.old { order = self.new.order } }
    {
        if !made {
            return;
        }
        self.order.add(member);
    }

    // Notes what a client was given, where a reply was handed over.
    fn note_reply(&mut self, client: u8, handed: Option<u64>)
        requires client { IsClient (length self.old.given) client }
        requires room { 0 < room_for self.old.given client }
        ensures lists { lists_of self.new.given ≡ with_handed (lists_of self.old.given) client handed }
        ensures rest { self.new ≡ record self.old { given = self.new.given } }
    {
        let Some(id) = handed else {
            return;
        };
        self.given.add(client, id);
    }

    /// The call that a client offered last in the world of the member of a number, lent.
    pub(crate) fn call(&self, client: u8, member: u8) -> &Call
        requires some { 1 ≤ member }
        requires there { member ≤ length self.now.members }
        requires client { (m : Membered) → slice_get self.now.members (member - 1) ≡ Some m → IsClient (length (view_in m).seats) client }
        ensures { result.now ≡ (seat_at self.now.members (member - 1) client).call }
    {
        member_of(&self.members, member).call(client)
    }

    // How far a client has come in the world of the member of a number.
    fn phase(&self, client: u8, member: u8) -> Phase
        requires some { 1 ≤ member }
        requires there { member ≤ length self.now.members }
        requires client { (m : Membered) → slice_get self.now.members (member - 1) ≡ Some m → IsClient (length (view_in m).seats) client }
        ensures { result ≡ (seat_at self.now.members (member - 1) client).phase }
    {
        member_of(&self.members, member).phase(client)
    }
}

// The member of a number, from 1, lent.
fn member_of<N: Describes>(members: &Members<N>, number: u8) -> &Member<N>
    requires some { 1 ≤ number }
    requires there { number ≤ length members.now }
    ensures { slice_get members.now (number - 1) ≡ Some result.now }
{
    &members.as_slice()[usize::from(number) - 1]
}

// The number of a client's entries in the world of a member, and what that world keeps, for the proof.
fn entries_of<N: Describes>(member: &Member<N>, client: u8) -> u32
    requires client { IsClient (length (view_in member.now).seats) client }
    ensures seq { result ≡ (seat_of (view_in member.now) client).seq }
    ensures told { RecoversSoFar (setting_in member.now) (view_in member.now) }
{
    member.tell();
    member.seq(client)
}

// The descriptor of the reply that a step handed over, 0 for none; None where it handed none over.
fn handed(did: &Did) -> Option<u64>
    ensures { result ≡ handed_by did.now }
{
    match did {
        Did::Answered(reply) => Some(desc_of(reply)),
        Did::Skipped
        | Did::Struck
        | Did::Booted
        | Did::Replayed
        | Did::Loaded
        | Did::Served
        | Did::Blocked
        | Did::Lost => None,
    }
}

// Whether a client in a phase has no call under way.
fn is_free(phase: Phase) -> bool
    ensures { result ≡ is_free_phase phase }
{
    matches!(phase, Phase::Idle | Phase::Left)
}

// Whether a client in a phase waits.
fn waits(phase: Phase) -> bool
    ensures { result ≡ is_blocked_phase phase }
{
    matches!(phase, Phase::Blocked)
}
