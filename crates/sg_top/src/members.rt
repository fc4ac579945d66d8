// The members of a play over several services, and the play over them.
ghost use Rattle.std.specs.Prelude.{◌≤◌, IfOk, length, map};
ghost use Rattle.sg_multi.specs.sg_facts.sg_base.Lists.{Each};
ghost use Rattle.sg_multi.specs.Beginning.{ArePicked};
ghost use Rattle.sg_multi.specs.Playable.{IsMultiPlayable};
ghost use Rattle.sg_multi.specs.Played.{IsMultiPlayed, stubs_by};
ghost use Rattle.sg_multi.specs.Serving.{IsOfServed, most_places};
ghost use Rattle.sg_top.specs.Inside.Ready.{IsAccepted};
ghost use Rattle.sg_top.specs.Inside.Several.{AreMembersOf, IsMemberOf};

use crate::ready::served_of;
use sg_judge::{AnyInterface, MultiScript, compile};
use sg_multi::{Describes, ListOf, MemberTables, MultiEnded, MultiPlay, NoMemory};
use std::alloc::Global;
use std::marker::Brand;

/// The service and the tables of each of these interfaces, which are accepted.
pub fn members_of(
    alloc: Global,
    interfaces: &[AnyInterface],
) -> Result<ListOf<MemberTables>, NoMemory>
    requires { Each IsAccepted interfaces.now }
    ensures { IfOk result (AreMembersOf interfaces.now) }
{
    let mut members = ListOf::new(alloc);
    'interfaces: for any in interfaces {
        members.push(member_of(alloc, any)?)?;
    }
    Ok(members)
}

// The service and the tables of an interface that is accepted.
fn member_of(alloc: Global, any: &AnyInterface) -> Result<MemberTables, NoMemory>
    requires { IsAccepted any.now }
    ensures { IfOk result (IsMemberOf any.now) }
{
    let service = served_of(any);
    let tables = compile(alloc, &any.accepted)?;
    Ok(MemberTables { service, tables })
}

/// The play of a script over these members, to its end.
pub fn play_over(
    alloc: Global,
    members: &[MemberTables],
    script: MultiScript,
) -> Result<MultiEnded, NoMemory>
    requires services { Each (λ t. IsOfServed t.tables.iface t.service) members.now }
    requires few { length members.now ≤ most_places }
    requires playable { IsMultiPlayable (map (λ t. t.tables.iface) members.now) script }
    ensures { IfOk result (IsMultiPlayed (map stubs_by members.now) script) }
{
    play_picked::<Brand>(alloc, members, script)
}

// The play of a script over members whose descriptions were picked.
fn play_picked<N: Describes>(
    alloc: Global,
    members: &[MemberTables],
    script: MultiScript,
) -> Result<MultiEnded, NoMemory>
    requires picked { ArePicked N.descriptions members.now }
    requires services { Each (λ t. IsOfServed t.tables.iface t.service) members.now }
    requires few { length members.now ≤ most_places }
    requires playable { IsMultiPlayable (map (λ t. t.tables.iface) members.now) script }
    ensures { IfOk result (IsMultiPlayed (map stubs_by members.now) script) }
{
    let mut play = MultiPlay::<N>::new(alloc, members, script)?;
    let came = play.play(alloc);
    play.abandon();
    came
}
