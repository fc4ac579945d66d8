// The merged list of several services' entries, as it is printed.
ghost use Rattle.std.specs.Prelude.{◌≡◌, ◌+◌, ◌-◌, ◌++◌, ◌∷◌, [], List, Some, IfOk, OnOk, map, slice_get};
ghost use Rattle.std.specs.Option.{option_copied, option_map};
ghost use Rattle.sg_report.specs.sg_hist.Lent.{entry_in};
ghost use Rattle.sg_multi.specs.Inside.Numbers.{CountsOne, HasRead, counted, next_of};
ghost use Rattle.sg_multi.specs.Merged.{Merges, MultiEntry};
ghost use Rattle.sg_multi.specs.Report.{by_member, merged_line, merged_lines, under_number};
ghost use Rattle.sg_report.specs.Report.{entry_line};

use crate::numbers::{count_of, count_one};
use crate::play::MemberTables;
use sg_facts::{Bytes, LentCall, NoMemory};
use sg_report::{Ended, LentEntry, push_entry};
use std::alloc::Global;
use std::collections::BTreeMap;

/// How many entries of each member, from 1, and of each client were read.
#[derive(Debug, Drop)]
pub(crate) struct Reader {
    pub(crate) members: BTreeMap<u8, u32>,
    pub(crate) clients: BTreeMap<u8, u32>,
}

impl Reader {
    /// None were read.
    pub(crate) fn new(alloc: Global) -> Reader
        ensures { HasRead result [] }
    {
        Reader {
            members: BTreeMap::new(alloc),
            clients: BTreeMap::new(alloc),
        }
    }

    /// The next entry of the member of a number, lent; None where it has no more.
    pub(crate) fn next_entry<'a>(&self, members: &'a [Ended], member: u8) -> Option<LentEntry<'a>>
        ensures { option_map entry_in result ≡ next_of (map (λ e. e.history.items) members.now) self.now.members member }
    {
        let ended = at_number(members, member)?;
        ended.history.get(count_of(&self.members, member) as usize)
    }

    /// Notes that the next entry of a member was read, which is one of this client, and says how many of the client were read then.
    pub(crate) fn note(&mut self, member: u8, client: u8) -> Result<u32, NoMemory>
        ensures number { IfOk result (λ number. number ≡ counted self.old.clients client + 1) }
        ensures members { OnOk result (CountsOne self.old.members self.new.members member) }
        ensures clients { OnOk result (CountsOne self.old.clients self.new.clients client) }
    {
        count_one(&mut self.members, member)?;
        count_one(&mut self.clients, client)
    }
}

/// What a list has for the member of a number, from 1; None where it has nothing for it.
pub(crate) fn at_number<T>(list: &[T], member: u8) -> Option<&T>
    ensures { option_copied result ≡ slice_get list.now (member - 1) }
{
    list.get(usize::from(member).saturating_sub(1))
}

/// A line for each entry, in the order of their commits, where each call has its number over all members. `NoMemory` also where a client has
/// more entries than 32 bits can count.
pub(crate) fn push_merged(
    alloc: Global,
    out: &mut Bytes,
    services: &[MemberTables],
    order: &[u8],
    members: &[Ended],
) -> Result<(), NoMemory>
    ensures { (merged : List MultiEntry) → Merges order.now (map (λ e. e.history.items) members.now) merged
        → OnOk result (out.new ≡ out.old ++ merged_lines (map (λ t. t.tables.iface.facts) services.now) [] merged) }
{
    let mut reader = Reader::new(alloc);
    'entries: for member in order {
        push_next(out, &mut reader, services, members, *member)?;
    }
    Ok(())
}

// Reads the next entry of the member of a number, where it has one, and adds its line.
fn push_next(
    out: &mut Bytes,
    reader: &mut Reader,
    services: &[MemberTables],
    members: &[Ended],
    member: u8,
) -> Result<(), NoMemory>
    ensures read { (before : List MultiEntry) (e : MultiEntry) → e.member ≡ member → HasRead reader.old before
        → next_of (map (λ m. m.history.items) members.now) reader.old.members member ≡ Some e.entry → OnOk result (HasRead reader.new (before ++ e ∷ [])) }
    ensures line { (before : List MultiEntry) (e : MultiEntry) → e.member ≡ member → HasRead reader.old before
        → next_of (map (λ m. m.history.items) members.now) reader.old.members member ≡ Some e.entry
        → OnOk result (out.new ≡ out.old ++ merged_line (map (λ t. t.tables.iface.facts) services.now) before e) }
{
    let Some(entry) = reader.next_entry(members, member) else {
        return Ok(());
    };
    let number = reader.note(member, entry.call.client)?;
    push_numbered(out, services, member, &entry, number)
}

// The line of an entry of the member of a number, where its call has another number.
fn push_numbered(
    out: &mut Bytes,
    services: &[MemberTables],
    member: u8,
    entry: &LentEntry,
    number: u32,
) -> Result<(), NoMemory>
    ensures { OnOk result (out.new ≡ out.old ++ by_member (map (λ t. t.tables.iface.facts) services.now) member
        (λ facts. entry_line facts (under_number number (entry_in entry.now)))) }
{
    let numbered = LentEntry {
        call: LentCall {
            seq: number,
            ..entry.call
        },
        reply: entry.reply,
    };
    match at_number(services, member) {
        Some(service) => push_entry(out, service.tables.interface(), &numbered),
        None => Ok(()),
    }
}
