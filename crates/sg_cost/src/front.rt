// The rows that the first entries of a history come to.
ghost use Rattle.std.specs.Prelude.{◌≡◌, ◌<◌, ◌≤◌, ◌+◌, ◌^◌, OnOk, Some, false, true, length, slice_get, take};
ghost use Rattle.std.specs.List.{list_all};
ghost use Rattle.sg_cost.specs.Inside.Fronts.{IsFront, MayBeTracked};
ghost use Rattle.sg_cost.specs.Inside.LastBoots.{is_over};
ghost use Rattle.sg_facts.specs.Inside.Rows.{given_after, track};
ghost use Rattle.sg_facts.specs.declared.entry.Entry.{Entry as IsEntry};
ghost use Rattle.sg_needs.specs.sg_track.Tracked.{MayTrack, Tracked};

use crate::last_boots::{LastBoots, last_boot};
use sg_facts::{Entry, NoMemory, Reply, Tables};
use sg_needs::Tracker;
use sg_report::History;
use std::alloc::Global;

/// The rows that the first entries of a history come to, and how many entries these are.
#[derive(Debug, Drop)]
pub(crate) struct FirstRows {
    pub(crate) rows: Tracker,
    pub(crate) place: usize,
}

impl FirstRows {
    /// No entry.
    pub(crate) fn new(alloc: Global) -> FirstRows
        ensures place { result.place ≡ 0 }
        ensures front { (facts : _) (history : _) → IsFront facts history 0 result.rows }
    {
        FirstRows {
            rows: Tracker::new(alloc),
            place: 0,
        }
    }

    /// Goes on until an entry that doesn't count before the boots after so many first ones.
    pub(crate) fn advance(
        &mut self,
        alloc: Global,
        tables: &Tables,
        history: &History,
        last: &LastBoots,
        first: u64,
    ) -> Result<(), NoMemory>
        requires may { MayBeTracked tables.now.iface.facts history.now.items }
        requires front { IsFront tables.now.iface.facts history.now.items self.old.place self.old.rows }
        requires over { list_all (is_over last.now.entries first) (take self.old.place history.now.items) ≡ true }
        ensures front { OnOk result (IsFront tables.now.iface.facts history.now.items self.new.place self.new.rows) }
        ensures over { OnOk result (list_all (is_over last.now.entries first) (take self.new.place history.now.items) ≡ true) }
        ensures next { OnOk result ((e : IsEntry) → slice_get history.now.items self.new.place ≡ Some e → is_over last.now.entries first e ≡ false) }
    {
        'entries: for at in self.place..history.len() {
            let entry = history.entry(alloc, at)?;
            if !is_over(last, &entry, first) {
                return Ok(());
            }
            self.track(alloc, tables, &entry)?;
        }
        Ok(())
    }

    /// Goes on to the end.
    pub(crate) fn finish(
        &mut self,
        alloc: Global,
        tables: &Tables,
        history: &History,
    ) -> Result<(), NoMemory>
        requires may { MayBeTracked tables.now.iface.facts history.now.items }
        requires front { IsFront tables.now.iface.facts history.now.items self.old.place self.old.rows }
        ensures { OnOk result (IsFront tables.now.iface.facts history.now.items (length history.now.items) self.new.rows) }
    {
        'entries: for at in self.place..history.len() {
            let entry = history.entry(alloc, at)?;
            self.track(alloc, tables, &entry)?;
        }
        Ok(())
    }

    // Does to the rows what an entry more does.
    fn track(&mut self, alloc: Global, tables: &Tables, entry: &Entry) -> Result<(), NoMemory>
        requires place { self.old.place + 1 < 2 ^ 64 }
        requires may { (t : Tracked) → t.rows ≡ self.old.rows.rows → t.given ≡ self.old.rows.given → 1 ≤ t.spare
            → MayTrack tables.now.iface.facts t entry.now.call entry.now.reply }
        ensures rows { OnOk result (self.new.rows.rows ≡ track tables.now.iface.facts self.old.rows.rows entry.now.call entry.now.reply) }
        ensures given { OnOk result (self.new.rows.given ≡ given_after tables.now.iface.facts self.old.rows.given entry.now.call entry.now.reply) }
        ensures place { OnOk result (self.new.place ≡ self.old.place + 1) }
    {
        self.rows.reserve(alloc)?;
        self.rows.track(tables, &entry.call, &entry.reply);
        self.place += 1;
        Ok(())
    }
}

// Whether an entry counts before the boots after so many first ones: a refusal changes nothing, and any other answer stands where the
// last boot of its call is.
fn is_over(last: &LastBoots, entry: &Entry, first: u64) -> bool
    ensures { result ≡ is_over last.now.entries first entry.now }
{
    match &entry.reply {
        Reply::Ok(_) => {
            let boot = last_boot(last, entry.call.client, entry.call.seq);
            1 <= boot && boot <= first
        }
        Reply::Refused(_) => true,
    }
}
