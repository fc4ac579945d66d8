// The traces of the members, with numbers of calls over all members.
ghost use Rattle.std.specs.Prelude.{◌≡◌, ◌+◌, ◌++◌, ◌≤◌, List, IfOk, OnOk, length, map};
ghost use Rattle.std.specs.List.{flat_map};
ghost use Rattle.sg_facts.specs.Inside.Rows.{boot_of};
ghost use Rattle.sg_facts.specs.Lent.{item_in, tag_in};
ghost use Rattle.sg_facts.specs.Words.{line_end};
ghost use Rattle.sg_report.specs.Inside.Pieces.{boot_lines};
ghost use Rattle.sg_report.specs.Report.{boots_lines, item_text};
ghost use Rattle.sg_multi.specs.Inside.Numbers.{number_by};
ghost use Rattle.sg_multi.specs.Merged.{Merges, MultiEntry, number_over_all};
ghost use Rattle.sg_multi.specs.Report.{renumbered, renumbered_boot, renumbered_item, trace_lines, traces_lines};

use crate::numbers::{CallKey, Numbers};
use crate::play::MemberTables;
use sg_facts::{BootLog, Bytes, Interface, ItemList, LentItem, LentTag, NoMemory};
use sg_report::{Ended, push_item, push_number, push_stop};
use std::alloc::Global;

/// The trace of each member. `NoMemory` also where a client has more entries than 32 bits can count.
pub(crate) fn push_all_traces(
    alloc: Global,
    out: &mut Bytes,
    services: &[MemberTables],
    order: &[u8],
    members: &[Ended],
) -> Result<(), NoMemory>
    ensures { (merged : List MultiEntry) → Merges order.now (map (λ e. e.history.items) members.now) merged
        → OnOk result (out.new ≡ out.old ++ traces_lines (number_over_all merged) 1 (map (λ t. t.tables.iface.facts) services.now) members.now) }
{
    let numbers = Numbers::of(alloc, order, members)?;
    push_traces(out, 0, services, members, &numbers)
}

// The traces of members that come after so many others.
fn push_traces(
    out: &mut Bytes,
    before: usize,
    services: &[MemberTables],
    members: &[Ended],
    numbers: &Numbers,
) -> Result<(), NoMemory>
    requires { before + length services.now ≤ usize.MAX }
    ensures { OnOk result (out.new ≡ out.old ++ traces_lines (number_by numbers.now) (before + 1) (map (λ t. t.tables.iface.facts) services.now) members.now) }
{
    let [service, other_services @ ..] = services else {
        return Ok(());
    };
    let [ended, other_members @ ..] = members else {
        return Ok(());
    };
    let iface = service.tables.interface();
    push_trace(out, before + 1, iface, ended, numbers)?;
    push_traces(out, before + 1, other_services, other_members, numbers)
}

// The trace of the member of a number, from 1.
fn push_trace(
    out: &mut Bytes,
    member: usize,
    iface: &Interface,
    ended: &Ended,
    numbers: &Numbers,
) -> Result<(), NoMemory>
    ensures { OnOk result (out.new ≡ out.old ++ trace_lines (number_by numbers.now member) iface.now.facts ended.now) }
{
    out.extend_from_slice(b"trace ")?;
    out.extend_from_slice(iface.shape.name)?;
    out.extend_from_slice(b"\n")?;
    push_boots(out, member, iface, ended.trace.boots.as_slice(), numbers)?;
    out.extend_from_slice(b"points ")?;
    push_number(out, ended.trace.points)?;
    out.extend_from_slice(b"\n")
}

// The boots of a member, numbered from 1.
fn push_boots(
    out: &mut Bytes,
    member: usize,
    iface: &Interface,
    boots: &[BootLog],
    numbers: &Numbers,
) -> Result<(), NoMemory>
    ensures { OnOk result (out.new ≡ out.old ++ boots_lines iface.now.facts 1 (map (renumbered_boot (number_by numbers.now member)) (map boot_of boots.now))) }
{
    'boots: for (at, boot) in boots.iter().enumerate() {
        push_boot(out, member, iface, at as u64 + 1, boot, numbers)?;
    }
    Ok(())
}

// A boot of a member under its number.
fn push_boot(
    out: &mut Bytes,
    member: usize,
    iface: &Interface,
    number: u64,
    boot: &BootLog,
    numbers: &Numbers,
) -> Result<(), NoMemory>
    ensures { OnOk result (out.new ≡ out.old ++ boot_lines iface.now.facts number (renumbered_boot (number_by numbers.now member) (boot_of boot.now))) }
{
    out.extend_from_slice(b"boot ")?;
    push_number(out, number)?;
    out.extend_from_slice(b"\n")?;
    push_items(out, member, iface, &boot.items, numbers)?;
    push_stop(out, boot.stop)
}

// A line for each item of a member.
fn push_items(
    out: &mut Bytes,
    member: usize,
    iface: &Interface,
    items: &ItemList,
    numbers: &Numbers,
) -> Result<(), NoMemory>
    ensures { OnOk result (out.new ≡ out.old ++ flat_map (λ item. item_text iface.now.facts item.tag item.shown item.outcome ++ line_end) (map (renumbered_item (number_by numbers.now member)) items.now.items)) }
{
    'items: for at in 0..items.len() {
        push_numbered_item(out, member, iface, &items.at(at), numbers)?;
    }
    Ok(())
}

// The line of an item of a member.
fn push_numbered_item(
    out: &mut Bytes,
    member: usize,
    iface: &Interface,
    item: &LentItem,
    numbers: &Numbers,
) -> Result<(), NoMemory>
    ensures { OnOk result (out.new ≡ out.old ++ (item_text iface.now.facts (renumbered (number_by numbers.now member) (item_in item.now).tag) (item_in item.now).shown (item_in item.now).outcome ++ line_end)) }
{
    let numbered = LentItem {
        tag: numbered_tag(member, item.tag, numbers)?,
        ..*item
    };
    push_item(out, iface, &numbered)?;
    out.extend_from_slice(b"\n")
}

// The tag of an item of a member, where a client's call has its number over all members.
fn numbered_tag<'a>(
    member: usize,
    tag: LentTag<'a>,
    numbers: &Numbers,
) -> Result<LentTag<'a>, NoMemory>
    ensures { IfOk result (λ numbered. tag_in numbered ≡ renumbered (number_by numbers.now member) (tag_in tag.entry)) }
{
    match tag {
        LentTag::Client { client, seq } => Ok(LentTag::Client {
            client,
            seq: numbers.number(CallKey {
                member,
                client,
                seq,
            })?,
        }),
        _ => Ok(tag),
    }
}
