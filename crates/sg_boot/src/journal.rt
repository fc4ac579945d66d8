// What was done to a service, with room for more.
ghost use Rattle.std.specs.Prelude.{◌≡◌, ◌≢◌, ◌≤◌, [], length, map, IfOk, OnOk};
ghost use Rattle.sg_facts.specs.Trace.{run_of};
ghost use Rattle.sg_facts.specs.Inside.Items.{IsBriefItem};
ghost use Rattle.sg_facts.specs.Inside.Rows.{boot_of};
ghost use Rattle.sg_facts.specs.Lent.{item_asked};
ghost use Rattle.sg_facts.specs.Loads.{load_item};
ghost use Rattle.std.specs.Arc.{arc_value};
ghost use Rattle.sg_hist.specs.Growing.{booted, noted, struck};
ghost use Rattle.sg_boot.specs.Invoking.{item_of_call, with_item, with_stop};
ghost use Rattle.sg_boot.specs.Inside.Journals.{last_room};
ghost use Rattle.sg_boot.specs.Inside.Rooms.{FitsItemRoom};

use crate::load::LoadedFiles;
use crate::room::ItemRoom;
use sg_facts::{
    Asking, BootList, BootLog, Brief, Call, Item, ItemList, LoadNote, NoMemory, Outcome, Patch,
    Path, Tag, Trace,
};
use std::alloc::Global;
use std::marker::Model;
use std::sync::Arc;

/// A trace that has begun. Contracts see what it tells, and for how many items and boots more there is room. Room for what an item holds
/// is kept from one to the next, and so is the last load of each file.
#[derive(Debug, Drop)]
pub(crate) struct Journal {
    trace: Trace,
    loaded: LoadedFiles,
    room: ItemRoom,
    // Whether the room is enough for one item.
    ready: bool,
}

impl Model for Journal {
    ghost use Rattle.std.specs.Prelude.{◌≡◌, ◌≢◌, true, []};
    ghost use Rattle.sg_boot.specs.Inside.Journals.{Journaled, room_of};
    ghost use Rattle.sg_boot.specs.Inside.Spare.{HasItemRoom};
    ghost use Rattle.sg_facts.specs.Trace.{run_of};

    ghost Value = { Journaled };

    ghost view = { λ j. record { run = run_of j.trace; room = room_of j.ready j.trace.boots } };

    ghost invariant = { λ j. (j.trace.boots.items ≢ []) × (j.ready ≡ true → HasItemRoom j.room) };
}

impl Journal {
    /// The first boot, in which nothing was asked.
    pub(crate) fn new(alloc: Global) -> Result<Journal, NoMemory>
        ensures { IfOk result (λ journal. journal.run ≡ record { boots = booted []; points = 0 }) }
    {
        let mut boots = BootList::new(alloc);
        boots.reserve(1)?;
        boots.add(empty_boot(alloc));
        Ok(Journal {
            trace: Trace { boots, points: 0 },
            loaded: LoadedFiles::new(alloc),
            room: ItemRoom::new(alloc),
            ready: false,
        })
    }

    /// What was done, lent.
    pub(crate) fn trace(&self) -> &Trace
        ensures { run_of result.now ≡ self.now.run }
    {
        &self.trace
    }

    /// What was done, given away.
    pub(crate) fn into_trace(self) -> Trace
        ensures { run_of result ≡ self.run }
    {
        self.trace
    }

    /// The number of boots.
    pub(crate) fn boots(&self) -> u64
        ensures { result ≡ length self.now.run.boots }
    {
        self.trace.boots.len() as u64
    }

    /// Takes the memory for one item and one boot.
    pub(crate) fn reserve(&mut self, alloc: Global) -> Result<(), NoMemory>
        ensures ok { OnOk result (1 ≤ self.new.room) }
        ensures room { self.old.room ≤ self.new.room }
        ensures run { self.new.run ≡ self.old.run }
    {
        self.trace.boots.reserve(1)?;
        reserve_item(&mut self.trace.boots)?;
        if !self.ready {
            self.room.reserve(alloc)?;
            self.ready = true;
        }
        Ok(())
    }

    /// Notes the item of a call that was asked, with the number of points asked. What can be kept in brief takes no room but its place;
    /// any other outcome is copied into the room for it, and the arguments are those of the call that was asked.
    pub(crate) fn note_call(
        &mut self,
        tag: Tag,
        shown: &Call,
        call: Call,
        points: u64,
        outcome: &Outcome,
    )
        requires room { 1 ≤ self.old.room }
        requires fits { FitsItemRoom outcome.now }
        requires same { call ≡ record shown.now { desc = call.desc } }
        ensures { self.new.run ≡ with_item self.old.run (item_of_call tag shown.now call.desc points outcome.now) points }
    {
        self.trace.points = points;
        let asking = Asking {
            tag: &tag,
            shown,
            real: call.desc,
            points,
            outcome,
        };
        match asking.in_brief() {
            Some(brief) => note_brief(&mut self.trace.boots, &brief, &asking),
            None => {
                self.ready = false;
                let outcome = self.room.fill(outcome);
                note(
                    &mut self.trace.boots,
                    Item {
                        tag,
                        real: call.desc,
                        shown: shown_call(shown, call),
                        points,
                        outcome,
                    },
                );
            }
        }
    }

    /// A file as it is loaded: the patch of the whole file, shared with its last load where the bytes are still the same.
    pub(crate) fn file(
        &mut self,
        alloc: Global,
        key: &Path,
        bytes: &[u8],
    ) -> Result<Arc<Patch, Global>, NoMemory>
        ensures file { IfOk result (λ file. arc_value file ≡ record { key = key.now; from = 0; bytes = bytes.now }) }
        ensures run { self.new.run ≡ self.old.run }
        ensures room { self.new.room ≡ self.old.room }
    {
        self.loaded.file(alloc, key, bytes)
    }

    /// Notes a load, whose number of points is the number asked.
    pub(crate) fn note_load(&mut self, load: LoadNote)
        requires { 1 ≤ self.old.room }
        ensures { self.new.run ≡ with_item self.old.run (load_item load) load.points }
    {
        self.trace.points = load.points();
        note_load(&mut self.trace.boots, load);
    }

    /// Sets the number of points asked.
    pub(crate) fn count(&mut self, points: u64)
        ensures run { self.new.run ≡ record self.old.run { points = points } }
        ensures room { self.new.room ≡ self.old.room }
    {
        self.trace.points = points;
    }

    /// Ends the last boot at a point, which is the last that was asked.
    pub(crate) fn stop(&mut self, point: u64)
        ensures run { self.new.run ≡ with_stop self.old.run point }
        ensures room { self.old.room ≤ self.new.room }
    {
        stop_last(&mut self.trace.boots, point);
        self.trace.points = point;
    }

    /// Begins the next boot.
    pub(crate) fn boot(&mut self, alloc: Global)
        requires { 1 ≤ self.old.room }
        ensures { self.new.run ≡ record self.old.run { boots = booted self.old.run.boots } }
    {
        self.trace.boots.add(empty_boot(alloc));
    }
}

// A boot in which nothing was asked.
fn empty_boot(alloc: Global) -> BootLog
    ensures { boot_of result ≡ record { items = []; stop = None } }
{
    BootLog {
        items: ItemList::new(alloc),
        stop: None,
    }
}

// Takes the memory for one item more in the last boot.
fn reserve_item(boots: &mut BootList) -> Result<(), NoMemory>
    requires { boots.old.items ≢ [] }
    ensures begun { boots.new.items ≢ [] }
    ensures boots { map boot_of boots.new.items ≡ map boot_of boots.old.items }
    ensures room { boots.old.room ≤ boots.new.room }
    ensures last { last_room boots.old.items ≤ last_room boots.new.items }
    ensures ok { OnOk result (1 ≤ last_room boots.new.items) }
{
    match boots.pop() {
        Some(mut last) => {
            let reserved = last.items.reserve(1);
            boots.add(last);
            reserved
        }
        None => unreachable!(),
    }
}

// Adds an item to the last boot.
fn note(boots: &mut BootList, item: Item)
    requires begun { boots.old.items ≢ [] }
    requires room { 1 ≤ last_room boots.old.items }
    ensures begun { boots.new.items ≢ [] }
    ensures boots { map boot_of boots.new.items ≡ noted (map boot_of boots.old.items) item }
{
    match boots.pop() {
        Some(mut last) => {
            last.items.add(item);
            boots.add(last);
        }
        None => unreachable!(),
    }
}

// Adds the item of a load to the last boot.
fn note_load(boots: &mut BootList, load: LoadNote)
    requires begun { boots.old.items ≢ [] }
    requires room { 1 ≤ last_room boots.old.items }
    ensures begun { boots.new.items ≢ [] }
    ensures boots { map boot_of boots.new.items ≡ noted (map boot_of boots.old.items) (load_item load) }
{
    match boots.pop() {
        Some(mut last) => {
            last.items.add_load(load);
            boots.add(last);
        }
        None => unreachable!(),
    }
}

// The call that is shown, with the arguments of the one that was asked.
fn shown_call(shown: &Call, call: Call) -> Call
    requires { call ≡ record shown.now { desc = call.desc } }
    ensures { result ≡ shown.now }
{
    Call {
        args: call.args,
        client: shown.client,
        seq: shown.seq,
        fun: shown.fun,
        desc: shown.desc,
    }
}

// Adds an asking in brief to the last boot.
fn note_brief(boots: &mut BootList, brief: &Brief, asking: &Asking)
    requires begun { boots.old.items ≢ [] }
    requires room { 1 ≤ last_room boots.old.items }
    requires brief { IsBriefItem brief.now (item_asked asking.now) }
    ensures begun { boots.new.items ≢ [] }
    ensures boots { map boot_of boots.new.items ≡ noted (map boot_of boots.old.items) (item_asked asking.now) }
{
    match boots.pop() {
        Some(mut last) => {
            last.items.add_brief(brief, asking);
            boots.add(last);
        }
        None => unreachable!(),
    }
}

// Ends the last boot at a point.
fn stop_last(boots: &mut BootList, point: u64)
    requires { boots.old.items ≢ [] }
    ensures begun { boots.new.items ≢ [] }
    ensures boots { map boot_of boots.new.items ≡ struck (map boot_of boots.old.items) point }
    ensures room { boots.old.room ≤ boots.new.room }
    ensures last { last_room boots.new.items ≡ last_room boots.old.items }
{
    match boots.pop() {
        Some(mut last) => {
            last.stop = Some(point);
            boots.add(last);
        }
        None => unreachable!(),
    }
}
