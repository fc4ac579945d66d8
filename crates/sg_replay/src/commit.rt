// Memory that is taken ahead for a call, and the commit of its answer.
ghost use Rattle.std.specs.Prelude.{◌≡◌, ◌≤◌, ◌==◌, ◌&&◌, ◌||◌, ℕ, List, false, Some, IfSome, OnOk, if◌then◌else◌};
ghost use Rattle.sg_facts.specs.Facts.{is_visible};
ghost use Rattle.sg_facts.specs.Inside.Rows.{given_after, track};
ghost use Rattle.sg_name.specs.Names.{named_at};
ghost use Rattle.sg_store.specs.Spans.{patched_at, stand_in};
ghost use Rattle.sg_store.specs.Stored.{HasRoom, bytes_of, receipt_at};
ghost use Rattle.sg_needs.specs.sg_track.Tracked.{spare_after};
ghost use Rattle.sg_replay.specs.Committing.{MayCommitAt, MayStore, is_written, name_left};
ghost use Rattle.sg_replay.specs.Engined.{IsEngine};
ghost use Rattle.sg_replay.specs.Present.{HasMark, is_present};

use crate::ended::forget_ended;
use crate::engine::Engine;
use crate::present::Present;
use sg_facts::{Call, NoMemory, Patch, Path, Reply, Service, Tables};
use sg_store::Storage;
use std::alloc::Global;

impl<S: Service> Engine<S> {
    /// Takes the memory for one boot, or for one `serve` and `commit` of a call that needs this file. What was done, what is
    /// stored, the rows, the names, and which files are present stay, the parts agree, and the cell loses no room, whatever the
    /// answer.
    pub fn reserve(
        &mut self,
        alloc: Global,
        call: &Call,
        file: &Option<Path>,
    ) -> Result<(), NoMemory>
        ensures cell_room { OnOk result (1 ≤ self.new.cell.room) }
        ensures row_room { OnOk result (1 ≤ self.new.tracked.spare) }
        ensures name_room { OnOk result (1 ≤ self.new.names.spare) }
        ensures stored_room { OnOk result (1 ≤ self.new.stored.spare) }
        ensures file_room { OnOk result (IfSome file.now (HasRoom self.new.stored)) }
        ensures mark { OnOk result (IfSome file.now (HasMark self.new.present)) }
        ensures agrees { IsEngine S.facts self.new }
        ensures cell_kept { self.old.cell.room ≤ self.new.cell.room }
        ensures rooms { (key : List ℕ) → HasRoom self.old.stored key → HasRoom self.new.stored key }
        ensures marks { (key : List ℕ) → HasMark self.old.present key → HasMark self.new.present key }
        ensures tables { self.new.tables ≡ self.old.tables }
        ensures running { self.new.cell.running ≡ self.old.cell.running }
        ensures run { self.new.cell.run ≡ self.old.cell.run }
        ensures rows { self.new.tracked.rows ≡ self.old.tracked.rows }
        ensures given { self.new.tracked.given ≡ self.old.tracked.given }
        ensures names { self.new.names.known ≡ self.old.names.known }
        ensures clients { self.new.stored.clients ≡ self.old.stored.clients }
        ensures receipts { self.new.stored.receipts ≡ self.old.stored.receipts }
        ensures stored_rows { self.new.stored.rows ≡ self.old.stored.rows }
        ensures stored_given { self.new.stored.given ≡ self.old.stored.given }
        ensures files { (key : List ℕ) → bytes_of self.new.stored key ≡ bytes_of self.old.stored key }
        ensures present { (key : List ℕ) → is_present self.new.present key ≡ is_present self.old.present key }
    {
        self.cell.reserve(alloc)?;
        self.rows.reserve(alloc)?;
        self.names.reserve()?;
        reserve_stored(&mut self.storage, alloc, call.client, file)?;
        prepare_file(&mut self.present, alloc, file)
    }

    /// Commits an answered call. The stubs' rows follow it, and the ids whose rows it ended lose their names. A
    /// visible call is stored: its receipt, what it makes of the stored rows and ids, and the patch that it wrote, whose file is
    /// present from then on. A call that isn't visible changes nothing that is stored. It takes no memory and can't fail.
    pub fn commit(&mut self, call: &Call, reply: Reply, patch: Option<Patch>)
        requires { MayCommitAt S.facts self.old call.now reply patch }
        ensures tables { self.new.tables ≡ self.old.tables }
        ensures cell { self.new.cell ≡ self.old.cell }
        ensures rows { self.new.tracked.rows ≡ track S.facts self.old.tracked.rows call.now reply }
        ensures given { self.new.tracked.given ≡ given_after S.facts self.old.tracked.given call.now reply }
        ensures spare { self.new.tracked.spare ≡ spare_after S.facts self.old.tracked.spare call.now reply }
        ensures names { (id : ℕ) → named_at self.new.names.known id ≡ name_left self.old.tracked.rows self.new.tracked.rows id (named_at self.old.names.known id) }
        ensures names_room { self.old.names.spare ≤ self.new.names.spare }
        ensures present { (key : List ℕ) → is_present self.new.present key ≡ (is_present self.old.present key || is_written patch key) }
        ensures marks { (key : List ℕ) → HasMark self.old.present key → HasMark self.new.present key }
        ensures receipts { (client : ℕ) → receipt_at self.new.stored client ≡ (if is_visible S.facts call.now.fun && (client == call.now.client) then Some (record { seq = call.now.seq; reply = reply }) else receipt_at self.old.stored client) }
        ensures files { (key : List ℕ) → bytes_of self.new.stored key ≡ patched_at patch key (bytes_of self.old.stored key) }
        ensures stands { (key : List ℕ) → stand_in self.new.stored.spans key ≡ stand_in self.old.stored.spans key }
        ensures stored_rows { self.new.stored.rows ≡ (if S.facts.global then track S.facts self.old.stored.rows call.now reply else self.old.stored.rows) }
        ensures stored_given { self.new.stored.given ≡ given_after S.facts self.old.stored.given call.now reply }
        ensures stored_spare { self.new.stored.spare ≡ (if S.facts.global then spare_after S.facts self.old.stored.spare call.now reply else self.old.stored.spare) }
        ensures clients { self.new.stored.clients ≡ self.old.stored.clients }
        ensures hidden { is_visible S.facts call.now.fun ≡ false → self.new.stored ≡ self.old.stored }
    {
        forget_ended(
            &mut self.names,
            &self.rows,
            self.tables.interface(),
            call,
            &reply,
        );
        self.rows.track(&self.tables, call, &reply);
        mark_written(&mut self.present, &patch);
        store(&mut self.storage, &self.tables, call, reply, patch);
    }
}

// Takes the memory to store one call that may write into a file. What is stored stays, whatever the answer.
fn reserve_stored(
    storage: &mut Storage,
    alloc: Global,
    client: u8,
    file: &Option<Path>,
) -> Result<(), NoMemory>
    ensures row { OnOk result (1 ≤ storage.new.spare) }
    ensures room { OnOk result (IfSome file.now (HasRoom storage.new)) }
    ensures rooms { (key : List ℕ) → HasRoom storage.old key → HasRoom storage.new key }
    ensures clients { storage.new.clients ≡ storage.old.clients }
    ensures receipts { storage.new.receipts ≡ storage.old.receipts }
    ensures rows { storage.new.rows ≡ storage.old.rows }
    ensures given { storage.new.given ≡ storage.old.given }
    ensures files { (key : List ℕ) → bytes_of storage.new key ≡ bytes_of storage.old key }
{
    match file {
        Some(key) => storage.reserve(alloc, client, Some(key)),
        None => storage.reserve(alloc, client, None),
    }
}

// Takes the memory for a needed file to become present. Which files are present stays, whatever the answer.
fn prepare_file(present: &mut Present, alloc: Global, file: &Option<Path>) -> Result<(), NoMemory>
    ensures mark { OnOk result (IfSome file.now (HasMark present.new)) }
    ensures marks { (key : List ℕ) → HasMark present.old key → HasMark present.new key }
    ensures present { (key : List ℕ) → is_present present.new key ≡ is_present present.old key }
{
    match file {
        Some(key) => present.prepare(alloc, key),
        None => Ok(()),
    }
}

// Makes the file that a patch wrote into present.
fn mark_written(present: &mut Present, patch: &Option<Patch>)
    requires { IfSome patch.now (λ p. HasMark present.old p.key) }
    ensures present { (key : List ℕ) → is_present present.new key ≡ (is_present present.old key || is_written patch.now key) }
    ensures marks { (key : List ℕ) → HasMark present.old key → HasMark present.new key }
{
    if let Some(patch) = patch {
        present.mark(&patch.key);
    }
}

// Stores an answered call, where it is visible.
fn store(storage: &mut Storage, tables: &Tables, call: &Call, reply: Reply, patch: Option<Patch>)
    requires { MayStore tables.now.iface.facts storage.old call.now reply patch }
    ensures receipts { (client : ℕ) → receipt_at storage.new client ≡ (if is_visible tables.now.iface.facts call.now.fun && (client == call.now.client) then Some (record { seq = call.now.seq; reply = reply }) else receipt_at storage.old client) }
    ensures rows { let facts = tables.now.iface.facts in storage.new.rows ≡ (if facts.global then track facts storage.old.rows call.now reply else storage.old.rows) }
    ensures given { storage.new.given ≡ given_after tables.now.iface.facts storage.old.given call.now reply }
    ensures files { (key : List ℕ) → bytes_of storage.new key ≡ patched_at patch key (bytes_of storage.old key) }
    ensures stands { (key : List ℕ) → stand_in storage.new.spans key ≡ stand_in storage.old.spans key }
    ensures spare { let facts = tables.now.iface.facts in storage.new.spare ≡ (if facts.global then spare_after facts storage.old.spare call.now reply else storage.old.spare) }
    ensures clients { storage.new.clients ≡ storage.old.clients }
    ensures hidden { is_visible tables.now.iface.facts call.now.fun ≡ false → storage.new ≡ storage.old }
{
    if tables.interface().visible(call.fun) {
        storage.commit(tables, call, reply, patch);
    }
}
