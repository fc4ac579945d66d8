// How clients end over several services.
ghost use Rattle.std.specs.Prelude.{◌≡◌, ◌++◌, ◌≤◌, IfOk, OnOk};
ghost use Rattle.sg_multi.specs.sg_sim.Inside.Givens.{lists_of};
ghost use Rattle.sg_multi.specs.sg_sim.sg_plain.Calls.{most_client};
ghost use Rattle.sg_multi.specs.sg_sim.sg_plain.Playing.Playable.{AreClients};
ghost use Rattle.sg_multi.specs.Calls.{has_multi_calls};
ghost use Rattle.sg_multi.specs.Ends.{end_at, ends_at};
ghost use Rattle.sg_multi.specs.Inside.Turns.{KeepsRunning, end_by, end_of_client, ends_up_to};

use crate::ended::{MultiEnd, MultiEndList};
use crate::running::Running;
use crate::{Describes, End, EndList, call_with_setup, most_client};
use sg_facts::{NoMemory, TryCopy};
use sg_script::MultiScript;
use std::alloc::Global;

/// How the clients with a call end, where nobody can take a turn.
pub(crate) fn ends_of<N: Describes>(
    alloc: Global,
    running: &Running<N>,
    script: &MultiScript,
) -> Result<MultiEndList, NoMemory>
    requires keeps { KeepsRunning script.now running.now }
    ensures { IfOk result (λ ends. ends ≡ ends_up_to running.now.members script.now (lists_of running.now.given) (most_client script.now.clients)) }
{
    let mut ends = MultiEndList::new(alloc);
    'clients: for before in 0..most_client(script.clients.as_slice()) {
        add_end(alloc, running, script, before + 1, &mut ends)?;
    }
    Ok(ends)
}

// Adds how a client ends, where it has a call.
fn add_end<N: Describes>(
    alloc: Global,
    running: &Running<N>,
    script: &MultiScript,
    client: u8,
    ends: &mut MultiEndList,
) -> Result<(), NoMemory>
    requires first { 1 ≤ client }
    requires last { client ≤ most_client script.now.clients }
    requires keeps { KeepsRunning script.now running.now }
    ensures { OnOk result (ends.new ≡ ends.old ++ end_by running.now.members script.now (lists_of running.now.given) client) }
{
    if !has_calls(script, client) {
        return Ok(());
    }
    let end = end_of(alloc, running, script, client)?;
    ends.push((client, end))?;
    Ok(())
}

// Whether a client has a call.
fn has_calls(script: &MultiScript, client: u8) -> bool
    requires { AreClients 0 script.now.clients }
    ensures { result ≡ has_multi_calls script.now client }
{
    let found = call_with_setup(
        script.setup.as_slice(),
        script.clients.as_slice(),
        client,
        0,
    );
    found.is_some()
}

// How a client ends.
fn end_of<N: Describes>(
    alloc: Global,
    running: &Running<N>,
    script: &MultiScript,
    client: u8,
) -> Result<MultiEnd, NoMemory>
    requires first { 1 ≤ client }
    requires last { client ≤ most_client script.now.clients }
    requires keeps { KeepsRunning script.now running.now }
    ensures { IfOk result (λ end. end ≡ end_of_client running.now.members script.now (lists_of running.now.given) client) }
{
    match running.next_call(script, client) {
        Some(call) => Ok(MultiEnd::Blocked {
            member: call.member,
            call: running.call(client, call.member).copy(alloc)?,
        }),
        None => Ok(MultiEnd::Done),
    }
}

/// How the clients end as far as the member of a number knows, from 1.
pub(crate) fn ends_at(
    alloc: Global,
    member: u8,
    ends: &[(u8, MultiEnd)],
) -> Result<EndList, NoMemory>
    ensures { IfOk result (λ known. known ≡ ends_at member ends.now) }
{
    let mut known = EndList::new(alloc);
    'ends: for pair in ends {
        known.push((pair.0, end_at(alloc, member, &pair.1)?))?;
    }
    Ok(known)
}

// How a client ends as far as the member of a number knows.
fn end_at(alloc: Global, member: u8, end: &MultiEnd) -> Result<End, NoMemory>
    ensures { IfOk result (λ known. known ≡ end_at member end.now) }
{
    match end {
        MultiEnd::Blocked { member: own, call } if *own == member => {
            Ok(End::Blocked(call.copy(alloc)?))
        }
        _ => Ok(End::Done),
    }
}
