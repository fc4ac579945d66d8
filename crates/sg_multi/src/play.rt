// A play over several services: whose turn it is, and the play to its end.
ghost use Rattle.std.specs.Prelude.{◌≡◌, ◌++◌, ◌∷◌, ◌≤◌, ◌<◌, [], IfOk, OnOk, length, map};
ghost use Rattle.sg_facts.specs.sg_base.Lists.{Each};
ghost use Rattle.sg_facts.specs.Limits.{last_client};
ghost use Rattle.sg_multi.specs.Members.{IsNewMember, Membered};
ghost use Rattle.sg_multi.specs.Serving.{IsOfServed, IsPicked, most_places, serving};
ghost use Rattle.sg_multi.specs.sg_edge.Stops.{AscendsAbove};
ghost use Rattle.sg_multi.specs.sg_sim.sg_plain.Calls.{most_client};
ghost use Rattle.sg_multi.specs.sg_sim.sg_script.Scripts.{most_members};
ghost use Rattle.sg_multi.specs.Beginning.{AreNewMembers, ArePicked};
ghost use Rattle.sg_multi.specs.Inside.Ended.{AreEndedMembers, IsEndedMember};
ghost use Rattle.sg_multi.specs.Inside.Turns.{IsOverNow, KeepsRunning, SameMembers};
ghost use Rattle.sg_multi.specs.Playable.{IsMultiPlayable};
ghost use Rattle.sg_multi.specs.Played.{AreOfMembers, IsMultiPlayed, stubs_by, stubs_in};

use crate::ended::{EndedList, MemberList, MultiEnd, MultiEnded};
use crate::ends::{ends_at, ends_of};
use crate::running::Running;
use crate::whose::next_turn;
use crate::world::ServiceWorld;
use crate::{AtPoints, Describes, Ended, Given, Member, Members, Served, most_client};
use sg_facts::{NoMemory, PointList, RoomyList, Tables, TryCopy, WalkList};
use sg_script::MultiScript;
use std::alloc::Global;
use std::marker::Model;

/// The greatest number of turns of a play. Each turn adds to the trace or to the history of a world, so that a play of more turns wants
/// memory.
const MOST_TURNS: u64 = u64::MAX;

/// The tables of a member, and the service that they are for.
#[derive(Debug, Drop)]
pub struct MemberTables {
    pub service: Served,
    pub tables: Tables,
}

/// A play of a script over several services: its clients make their calls, turn by turn, each call on its member, whose service may stop.
/// A client has one call at a time over all members. Contracts see it as plain data.
#[derive(Drop)]
#[derive_where(Debug)]
pub struct MultiPlay<N: Describes> {
    running: Running<N>,
    script: MultiScript,
}

impl<N: Describes> Model for MultiPlay<N> {
    ghost use Rattle.sg_multi.specs.Inside.Turns.{KeepsRunning};
    ghost use Rattle.sg_multi.specs.Playing.{MultiPlaying};

    ghost Value = { MultiPlaying };

    ghost view = { λ p. record { members = p.running.members; script = p.script; passed = p.running.passed; last = p.running.last } };

    ghost invariant = { λ p. KeepsRunning p.script p.running };
}

impl<N: Describes> MultiPlay<N> {
    /// The play of a script for members with these tables, which are copied. Nothing was done in it.
    pub fn new(
        alloc: Global,
        members: &[MemberTables],
        script: MultiScript,
    ) -> Result<MultiPlay<N>, NoMemory>
        requires picked { ArePicked N.descriptions members.now }
        requires services { Each (λ t. IsOfServed t.tables.iface t.service) members.now }
        requires few { length members.now ≤ most_places }
        requires playable { IsMultiPlayable (map (λ t. t.tables.iface) members.now) script }
        ensures members { IfOk result (λ p. map stubs_in p.members ≡ map stubs_by members.now) }
        ensures new { IfOk result (λ p. AreNewMembers members.now script.stops (most_client script.clients) p.members) }
        ensures script { IfOk result (λ p. p.script ≡ script) }
        ensures passed { IfOk result (λ p. p.passed ≡ 0) }
        ensures last { IfOk result (λ p. p.last ≡ 0) }
    {
        let clients = most_client(script.clients.as_slice());
        let given = Given::new(alloc, clients)?;
        let worlds = members_of(alloc, members, &script, clients)?;
        let order = RoomyList::new(alloc);
        Ok(MultiPlay {
            running: Running {
                members: worlds,
                given,
                order,
                passed: 0,
                last: 0,
            },
            script,
        })
    }

    /// Plays all that is left, to the end: until no client can take a turn. What it answers has the history and the trace of each member's
    /// world. Where no service was stopped, its entries are those of the play without stops. `NoMemory` also where a step of some world
    /// wanted memory.
    pub fn play(&mut self, alloc: Global) -> Result<MultiEnded, NoMemory>
        ensures played { IfOk result (IsMultiPlayed (map stubs_in self.old.members) self.old.script) }
        ensures worlds { IfOk result (λ came. AreOfMembers self.new.members came.members) }
        ensures members { SameMembers self.old.members self.new.members }
        ensures script { self.new.script ≡ self.old.script }
    {
        come_to_end(alloc, &mut self.running, &self.script)?;
        ended(alloc, &self.running, &self.script)
    }

    /// Ends the play where it stands.
    pub fn abandon(self) {
        self.running.members.abandon();
    }
}

// The worlds of members in which nothing was done, with clients from 1 to so many, which stop where the script says.
fn members_of<N: Describes>(
    alloc: Global,
    tables: &[MemberTables],
    script: &MultiScript,
    clients: u8,
) -> Result<Members<N>, NoMemory>
    requires picked { ArePicked N.descriptions tables.now }
    requires services { Each (λ t. IsOfServed t.tables.iface t.service) tables.now }
    requires few { length tables.now ≤ most_places }
    requires playable { IsMultiPlayable (map (λ t. t.tables.iface) tables.now) script.now }
    requires clients { clients ≡ most_client script.now.clients }
    ensures { IfOk result (AreNewMembers tables.now script.now.stops clients) }
{
    let mut members = Members::new(alloc);
    match add_members(alloc, &mut members, tables, script, clients) {
        Ok(()) => Ok(members),
        Err(NoMemory) => {
            members.abandon();
            Err(NoMemory)
        }
    }
}

// Adds all of them to none.
fn add_members<N: Describes>(
    alloc: Global,
    members: &mut Members<N>,
    tables: &[MemberTables],
    script: &MultiScript,
    clients: u8,
) -> Result<(), NoMemory>
    requires none { members.old ≡ [] }
    requires picked { ArePicked N.descriptions tables.now }
    requires services { Each (λ t. IsOfServed t.tables.iface t.service) tables.now }
    requires few { length tables.now ≤ most_places }
    requires playable { IsMultiPlayable (map (λ t. t.tables.iface) tables.now) script.now }
    requires clients { clients ≡ most_client script.now.clients }
    ensures { OnOk result (AreNewMembers tables.now script.now.stops clients members.new) }
{
    'tables: for place in 0..tables.len() {
        let stops = script.stops.as_slice();
        add_member(
            alloc,
            members,
            place,
            &tables[place],
            &stops[place],
            clients,
        )?;
    }
    Ok(())
}

// Adds the world of one, at its place, which stops at these points.
fn add_member<N: Describes>(
    alloc: Global,
    members: &mut Members<N>,
    place: usize,
    its: &MemberTables,
    stops: &PointList,
    clients: u8,
) -> Result<(), NoMemory>
    requires there { place < most_places }
    requires picked { IsPicked (N.descriptions place) its.now.service }
    requires service { IsOfServed its.now.tables.iface its.now.service }
    requires few { clients ≤ last_client }
    requires ascend { AscendsAbove 0 stops.now }
    ensures { OnOk result ((m : Membered) × (members.new ≡ members.old ++ m ∷ []) × IsNewMember (serving its.now.service) its.now.tables stops.now clients m) }
{
    let tables = copied(alloc, &its.tables)?;
    let points = stops.copy(alloc)?;
    let stops = AtPoints::new(points);
    members.add(alloc, place, its.service, tables, clients, stops)
}

// Equal tables.
fn copied(alloc: Global, tables: &Tables) -> Result<Tables, NoMemory>
    ensures { IfOk result (λ copy. copy ≡ tables.now) }
{
    let interface = tables.interface().copy(alloc)?;
    let walks = WalkList::from_slice(alloc, tables.lines())?;
    Ok(Tables::new(interface, walks))
}

// Plays turn by turn until no client can take one.
fn come_to_end<N: Describes>(
    alloc: Global,
    running: &mut Running<N>,
    script: &MultiScript,
) -> Result<(), NoMemory>
    requires keeps { KeepsRunning script.now running.old }
    ensures keeps { KeepsRunning script.now running.new }
    ensures same { SameMembers running.old.members running.new.members }
    ensures over { OnOk result (IsOverNow script.now running.new) }
{
    'turns: for _ in 0..MOST_TURNS {
        let Some(turn) = next_turn(running, script) else {
            return Ok(());
        };
        running.take_turn(alloc, script, turn.client)?;
        running.passed = turn.passed;
        running.last = turn.client;
    }
    Err(NoMemory)
}

// What a play came to, where nobody can take a turn.
fn ended<N: Describes>(
    alloc: Global,
    running: &Running<N>,
    script: &MultiScript,
) -> Result<MultiEnded, NoMemory>
    requires keeps { KeepsRunning script.now running.now }
    requires over { IsOverNow script.now running.now }
    ensures played { IfOk result (IsMultiPlayed (map stubs_in running.now.members) script.now) }
    ensures worlds { IfOk result (λ came. AreOfMembers running.now.members came.members) }
{
    let ends = ends_of(alloc, running, script)?;
    let members = ended_members(alloc, running.members.as_slice(), ends.as_slice())?;
    let order = MemberList::from_slice(alloc, running.order.as_slice())?;
    Ok(MultiEnded::new(order, members, ends))
}

// What the runs of members came to, whose clients ended so.
fn ended_members<N: Describes>(
    alloc: Global,
    members: &[Member<N>],
    ends: &[(u8, MultiEnd)],
) -> Result<EndedList, NoMemory>
    requires { length members.now ≤ most_members }
    ensures { IfOk result (AreEndedMembers members.now ends.now) }
{
    let mut ended = EndedList::new(alloc);
    let mut number: u8 = 0;
    'members: for member in members {
        number += 1;
        ended.push(ended_member(alloc, member, number, ends)?)?;
    }
    Ok(ended)
}

// What the run of the member of a number came to, from 1, where the clients ended so. `NoMemory` also where a step of its world wanted
// memory.
fn ended_member<N: Describes>(
    alloc: Global,
    member: &Member<N>,
    number: u8,
    ends: &[(u8, MultiEnd)],
) -> Result<Ended, NoMemory>
    ensures { IfOk result (IsEndedMember ends.now number member.now) }
{
    if member.refused() > 0 {
        return Err(NoMemory);
    }
    member.tell();
    let known = ends_at(alloc, number, ends)?;
    let ended = member.ended(alloc, known)?;
    Ok(ended)
}
