// The services: of each its shape, its standard interface, how many calls the setup makes, and its group of calls.
ghost use Rattle.std.specs.Fmt.{decimal};
ghost use Rattle.std.specs.Prelude.{◌≡◌, ◌≤◌, ◌++◌, true, map, OnOk, IfOk, MatchOption, codes};
ghost use Rattle.sg_facts.specs.Facts.{facts_of};
ghost use Rattle.sg_load.specs.Inside.{most_group, most_setup};
ghost use Rattle.sg_check.specs.Shapes.{are_shapes};
ghost use Rattle.sg_load.specs.Services.{facts_by, group_of, group_size, played_services, setup_count, standard};
ghost use Rattle.sg_load.specs.declared.kind.ServiceKind.{ServiceKind as Kind};
ghost use Rattle.sg_load.specs.declared.kind.ServiceKind.TheVariants.{Locks, Events, Pages, Files, Threads, Timers};

use crate::calls::{GroupState, add_call};
use crate::interface::declaring;
pub use sg_event::EventService;
use sg_event::functions::{
    FREE as EVT_FREE, SPLIT as EVT_SPLIT, TRIGGER as EVT_TRIGGER, WAIT as EVT_WAIT,
};
use sg_facts::{Interface, NoMemory, Shape, Text};
pub use sg_lock::LockService;
use sg_lock::functions::{RELEASE as LOCK_RELEASE, TAKE as LOCK_TAKE};
pub use sg_mm::MmService;
use sg_mm::functions::{
    ALIAS as MMAN_ALIAS_PAGE, FIND as MMAN_FIND, GET as MMAN_GET_PAGE, RELEASE as MMAN_RELEASE_PAGE,
};
use sg_plain::{Arg, CallList, text_of};
pub use sg_ramfs::RamfsService;
use sg_ramfs::functions::{
    READ as TREAD, RELEASE as TRELEASE, SEEK as TSEEK, SPLIT as TSPLIT, WRITE as TWRITE,
};
pub use sg_sched::SchedService;
use sg_sched::functions::{
    CREATE as SCHED_CREATE_THD, EXIT as SCHED_EXIT, NEXT as SCHED_NEXT, SLEEP as SCHED_SLEEP,
    YIELD as SCHED_YIELD,
};
pub use sg_timer::TimerService;
use sg_timer::functions::{
    CREATE as TMR_CREATE, FREE as TMR_FREE, SKIP as TMR_SKIP, TICK as TMR_TICK, WAIT as TMR_WAIT,
};
use std::alloc::Global;

/// One of the services.
#[derive(Clone, Copy, Debug, PartialEq, Eq)]
pub enum ServiceKind {
    Locks,
    Events,
    Pages,
    Files,
    Threads,
    Timers,
}

impl ServiceKind {
    /// The service of a name; None where none has it.
    pub fn named(name: &[u8]) -> Option<ServiceKind>
        ensures { MatchOption result ((kind : Kind) → name.now ≡ (facts_by kind).name → ⊥) (λ kind. name.now ≡ (facts_by kind).name) }
    {
        if name == LockService::shape().name {
            Some(ServiceKind::Locks)
        } else if name == EventService::shape().name {
            Some(ServiceKind::Events)
        } else if name == MmService::shape().name {
            Some(ServiceKind::Pages)
        } else if name == RamfsService::shape().name {
            Some(ServiceKind::Files)
        } else if name == SchedService::shape().name {
            Some(ServiceKind::Threads)
        } else if name == TimerService::shape().name {
            Some(ServiceKind::Timers)
        } else {
            None
        }
    }

    /// The shapes of all services.
    pub fn shapes() -> [Shape; 6]
        ensures facts { map facts_of result ≡ map (λ s. s.facts) played_services }
        ensures shapes { are_shapes (map facts_of result) ≡ true }
    {
        [
            LockService::shape(),
            EventService::shape(),
            MmService::shape(),
            RamfsService::shape(),
            SchedService::shape(),
            TimerService::shape(),
        ]
    }

    /// Its shape, with all of its functions.
    pub fn shape(self) -> Shape
        ensures { facts_of result ≡ facts_by self }
    {
        match self {
            ServiceKind::Locks => LockService::shape(),
            ServiceKind::Events => EventService::shape(),
            ServiceKind::Pages => MmService::shape(),
            ServiceKind::Files => RamfsService::shape(),
            ServiceKind::Threads => SchedService::shape(),
            ServiceKind::Timers => TimerService::shape(),
        }
    }

    /// Its standard interface, before that is known to fit: all of its shape, but for a service of which version 1 of the text declares
    /// less.
    pub(crate) fn standard_interface(self, alloc: Global) -> Result<Interface, NoMemory>
        ensures { IfOk result (λ iface. iface ≡ standard self) }
    {
        let shape = self.shape();
        match self {
            ServiceKind::Events => declaring(alloc, shape, EVENT_FUNS, &EVENT_MOVES),
            ServiceKind::Locks
            | ServiceKind::Pages
            | ServiceKind::Files
            | ServiceKind::Threads
            | ServiceKind::Timers => declaring(alloc, shape, shape.funs.len(), shape.moves),
        }
    }

    /// The number of the calls of the setup.
    pub(crate) fn setup_count(self) -> u32
        ensures count { result ≡ setup_count self }
        ensures few { result ≤ most_setup }
    {
        match self {
            ServiceKind::Locks => LOCKS,
            ServiceKind::Events => EVENTS,
            ServiceKind::Pages | ServiceKind::Files | ServiceKind::Threads | ServiceKind::Timers =>
                0,
        }
    }

    /// The number of a group's calls.
    pub(crate) fn group_size(self) -> u32
        ensures size { result ≡ group_size self }
        ensures some { (1 ≤ result) × (result ≤ most_group) }
    {
        match self {
            ServiceKind::Locks | ServiceKind::Events => 2,
            ServiceKind::Pages => 4,
            ServiceKind::Files | ServiceKind::Threads | ServiceKind::Timers => 5,
        }
    }

    /// Adds the group that stands there, from the number that was drawn for it.
    pub(crate) fn add_group(
        self,
        calls: &mut CallList,
        alloc: Global,
        at: GroupState,
        drawn: u32,
    ) -> Result<(), NoMemory>
        ensures { OnOk result (calls.new ≡ calls.old ++ group_of self at.client at.first at.group drawn) }
    {
        match self {
            ServiceKind::Locks => add_lock_group(calls, alloc, at, drawn),
            ServiceKind::Events => add_event_group(calls, alloc, at, drawn),
            ServiceKind::Pages => add_page_group(calls, alloc, at, drawn),
            ServiceKind::Files => add_file_group(calls, alloc, at, drawn),
            ServiceKind::Threads => add_thread_group(calls, alloc, at, drawn),
            ServiceKind::Timers => add_timer_group(calls, alloc, at, drawn),
        }
    }
}

// ---- locks

// The locks that the setup makes.
const LOCKS: u32 = 16;

// Takes a lock, and releases it.
fn add_lock_group(
    calls: &mut CallList,
    alloc: Global,
    at: GroupState,
    drawn: u32,
) -> Result<(), NoMemory>
    ensures { OnOk result (calls.new ≡ calls.old ++ group_of Locks at.client at.first at.group drawn) }
{
    let lock = 1 + u64::from(drawn % LOCKS);
    add_call(calls, LOCK_TAKE, vec![in alloc; Arg::Number(lock)]?)?;
    add_call(calls, LOCK_RELEASE, vec![in alloc; Arg::Number(lock)]?)
}

// ---- events

// The events that the setup makes.
const EVENTS: u32 = 16;

// The functions that version 1 of the events' text declares: the first four, without evt_take.
const EVENT_FUNS: usize = 4;

// The transitions that it declares.
const EVENT_MOVES: [(u8, u8); 3] = [
    (EVT_SPLIT, EVT_WAIT),
    (EVT_SPLIT, EVT_TRIGGER),
    (EVT_SPLIT, EVT_FREE),
];

// How much a trigger adds to an event's count.
const TRIGGER_COUNT: u64 = 1;

// Triggers an event, and waits for it.
fn add_event_group(
    calls: &mut CallList,
    alloc: Global,
    at: GroupState,
    drawn: u32,
) -> Result<(), NoMemory>
    ensures { OnOk result (calls.new ≡ calls.old ++ group_of Events at.client at.first at.group drawn) }
{
    let event = 1 + u64::from(drawn % EVENTS);
    let trigger = vec![in alloc; Arg::Number(event), Arg::Number(TRIGGER_COUNT)]?;
    add_call(calls, EVT_TRIGGER, trigger)?;
    add_call(calls, EVT_WAIT, vec![in alloc; Arg::Number(event)]?)
}

// ---- pages

// The pages that are mapped.
const PAGES: u32 = 64;

// The bytes of a page.
const PAGE_BYTES: u64 = 4096;

// The space of a client's aliases is this much above the client's number, so that none is a client's own.
const ALIAS_SPACES: u64 = 100;

// Maps a page at an address, makes an alias of it, finds it, and releases it.
fn add_page_group(
    calls: &mut CallList,
    alloc: Global,
    at: GroupState,
    drawn: u32,
) -> Result<(), NoMemory>
    ensures { OnOk result (calls.new ≡ calls.old ++ group_of Pages at.client at.first at.group drawn) }
{
    let addr = PAGE_BYTES * u64::from(drawn % PAGES);
    let client = u64::from(at.client);
    let alias = Arg::Number(ALIAS_SPACES + client);
    add_call(calls, MMAN_GET_PAGE, vec![in alloc; Arg::Number(addr)]?)?;
    add_call(
        calls,
        MMAN_ALIAS_PAGE,
        vec![in alloc; Arg::Back(at.first), alias, Arg::Number(addr)]?,
    )?;
    add_call(
        calls,
        MMAN_FIND,
        vec![in alloc; Arg::Number(client), Arg::Number(addr)]?,
    )?;
    add_call(
        calls,
        MMAN_RELEASE_PAGE,
        vec![in alloc; Arg::Back(at.first)]?,
    )
}

// ---- files

// The files.
const FILES: u32 = 16;

// The greatest number of bytes that a call reads.
const READ_BYTES: u64 = 64;

// The name of a file.
#[tactic(auto, using(crate::proofs::Services::name_is_text))]
fn file_name(alloc: Global, file: u32) -> Result<Text, NoMemory>
    ensures { IfOk result (λ name. name ≡ codes "f" ++ decimal file) }
{
    text_of(alloc, format!(in alloc; "f{file}")?.as_bytes())
}

// What a client writes in the group of a number.
#[tactic(auto, using(crate::proofs::Services::text_is_text))]
fn file_text(alloc: Global, client: u8, group: u32) -> Result<Text, NoMemory>
    ensures { IfOk result (λ text. text ≡ decimal client ++ (codes ":" ++ decimal group)) }
{
    text_of(alloc, format!(in alloc; "{client}:{group}")?.as_bytes())
}

// Opens a file as a root, writes into it, goes back to its start, reads it, and closes it.
fn add_file_group(
    calls: &mut CallList,
    alloc: Global,
    at: GroupState,
    drawn: u32,
) -> Result<(), NoMemory>
    ensures { OnOk result (calls.new ≡ calls.old ++ group_of Files at.client at.first at.group drawn) }
{
    let name = Arg::Text(file_name(alloc, drawn % FILES)?);
    let text = Arg::Text(file_text(alloc, at.client, at.group)?);
    add_call(calls, TSPLIT, vec![in alloc; Arg::Number(0), name]?)?;
    add_call(calls, TWRITE, vec![in alloc; Arg::Back(at.first), text]?)?;
    add_call(
        calls,
        TSEEK,
        vec![in alloc; Arg::Back(at.first), Arg::Number(0)]?,
    )?;
    add_call(
        calls,
        TREAD,
        vec![in alloc; Arg::Back(at.first), Arg::Number(READ_BYTES)]?,
    )?;
    add_call(calls, TRELEASE, vec![in alloc; Arg::Back(at.first)]?)
}

// ---- threads

// The priorities of threads, from 0.
const PRIORITIES: u32 = 8;

// Makes a thread, yields it, asks which is next, puts it to sleep, and ends it.
fn add_thread_group(
    calls: &mut CallList,
    alloc: Global,
    at: GroupState,
    drawn: u32,
) -> Result<(), NoMemory>
    ensures { OnOk result (calls.new ≡ calls.old ++ group_of Threads at.client at.first at.group drawn) }
{
    let priority = u64::from(drawn % PRIORITIES);
    add_call(
        calls,
        SCHED_CREATE_THD,
        vec![in alloc; Arg::Number(priority)]?,
    )?;
    add_call(calls, SCHED_YIELD, vec![in alloc; Arg::Back(at.first)]?)?;
    add_call(calls, SCHED_NEXT, Vec::new(alloc))?;
    add_call(calls, SCHED_SLEEP, vec![in alloc; Arg::Back(at.first)]?)?;
    add_call(calls, SCHED_EXIT, vec![in alloc; Arg::Back(at.first)]?)
}

// ---- timers

// The periods of timers, from 1.
const PERIODS: u32 = 16;

// Makes a timer of a period, with the client as its tag; advances it by as many ticks, waits for it, skips it, and ends it.
fn add_timer_group(
    calls: &mut CallList,
    alloc: Global,
    at: GroupState,
    drawn: u32,
) -> Result<(), NoMemory>
    ensures { OnOk result (calls.new ≡ calls.old ++ group_of Timers at.client at.first at.group drawn) }
{
    let period = 1 + u64::from(drawn % PERIODS);
    let tag = Arg::Number(u64::from(at.client));
    add_call(calls, TMR_CREATE, vec![in alloc; Arg::Number(period), tag]?)?;
    add_call(
        calls,
        TMR_TICK,
        vec![in alloc; Arg::Back(at.first), Arg::Number(period)]?,
    )?;
    add_call(calls, TMR_WAIT, vec![in alloc; Arg::Back(at.first)]?)?;
    add_call(calls, TMR_SKIP, vec![in alloc; Arg::Back(at.first)]?)?;
    add_call(calls, TMR_FREE, vec![in alloc; Arg::Back(at.first)]?)
}
