// The printed run of a play over several services.
ghost use Rattle.std.specs.Prelude.{◌≡◌, ◌++◌, [], List, IfOk, OnOk, map, codes};
ghost use Rattle.std.specs.List.{flat_map};
ghost use Rattle.sg_report.specs.Report.{call_text};
ghost use Rattle.sg_multi.specs.Merged.{Merges, MultiEntry};
ghost use Rattle.sg_multi.specs.Report.{by_member, client_line, multi_end_text, multi_text_of, service_line, services_lines};

use crate::ended::{MultiEnd, MultiEnded};
use crate::merged::{at_number, push_merged};
use crate::play::MemberTables;
use crate::traced::push_all_traces;
use sg_facts::{Bytes, Call, Interface, LentCall, NoMemory};
use sg_report::{Ended, push_call, push_counts, push_number};
use std::alloc::Global;

/// The printed run of a play over several services: a line for each entry of the merged list, where a client's calls are numbered over all
/// members; a line for each client that has a call; the counts of entries, boots and replayed calls of each member; and with a trace what
/// was done to each member's service, boot by boot, where a client's call has its number over all members too, and a call without an entry
/// one more than all of its client's entries. What is of a member without tables is left out, and so are tables without a member.
///
/// `NoMemory` also where a client has more entries than 32 bits can count.
pub fn multi_text(
    alloc: Global,
    members: &[MemberTables],
    ended: &MultiEnded,
    with_trace: bool,
) -> Result<Bytes, NoMemory>
    ensures { (merged : List MultiEntry) → Merges ended.now.order (map (λ e. e.history.items) ended.now.members) merged
        → IfOk result (λ bytes. bytes ≡ multi_text_of (map (λ t. t.tables.iface.facts) members.now) merged ended.now with_trace) }
{
    let mut out = Bytes::new(alloc);
    let order = ended.order().as_slice();
    let runs = ended.members().as_slice();
    push_merged(alloc, &mut out, members, order, runs)?;
    push_ends(&mut out, members, ended.ends().as_slice())?;
    push_services(&mut out, members, runs)?;
    if with_trace {
        push_all_traces(alloc, &mut out, members, order, runs)?;
    }
    Ok(out)
}

// A line for each client.
fn push_ends(
    out: &mut Bytes,
    services: &[MemberTables],
    ends: &[(u8, MultiEnd)],
) -> Result<(), NoMemory>
    ensures { OnOk result (out.new ≡ out.old ++ flat_map (client_line (map (λ t. t.tables.iface.facts) services.now)) ends.now) }
{
    for (client, end) in ends {
        out.extend_from_slice(b"client ")?;
        push_number(out, u64::from(*client))?;
        push_end(out, services, end)?;
        out.extend_from_slice(b"\n")?;
    }
    Ok(())
}

// How a client ended.
fn push_end(out: &mut Bytes, services: &[MemberTables], end: &MultiEnd) -> Result<(), NoMemory>
    ensures { OnOk result (out.new ≡ out.old ++ multi_end_text (map (λ t. t.tables.iface.facts) services.now) end.now) }
{
    match end {
        MultiEnd::Done => out.extend_from_slice(b" done"),
        MultiEnd::Blocked { member, call } => {
            out.extend_from_slice(b" blocked ")?;
            push_call_of(out, services, *member, call)
        }
    }
}

// A call of the member of a number.
fn push_call_of(
    out: &mut Bytes,
    services: &[MemberTables],
    member: u8,
    call: &Call,
) -> Result<(), NoMemory>
    ensures { OnOk result (out.new ≡ out.old ++ by_member (map (λ t. t.tables.iface.facts) services.now) member (λ facts. call_text facts call.now)) }
{
    match at_number(services, member) {
        Some(service) => push_call(out, service.tables.interface(), &LentCall::of(call)),
        None => Ok(()),
    }
}

// A line for each member.
fn push_services(
    out: &mut Bytes,
    services: &[MemberTables],
    members: &[Ended],
) -> Result<(), NoMemory>
    ensures { OnOk result (out.new ≡ out.old ++ services_lines (map (λ t. t.tables.iface.facts) services.now) members.now) }
{
    let [service, other_services @ ..] = services else {
        return Ok(());
    };
    let [ended, other_members @ ..] = members else {
        return Ok(());
    };
    push_service(out, service.tables.interface(), ended)?;
    push_services(out, other_services, other_members)
}

// The counts of a member's run.
fn push_service(out: &mut Bytes, iface: &Interface, ended: &Ended) -> Result<(), NoMemory>
    ensures { OnOk result (out.new ≡ out.old ++ service_line iface.now.facts ended.now) }
{
    out.extend_from_slice(b"service ")?;
    out.extend_from_slice(iface.shape.name)?;
    out.extend_from_slice(b": ")?;
    push_counts(out, &ended.history, &ended.trace)?;
    out.extend_from_slice(b"\n")
}
