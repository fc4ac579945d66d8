// What outlives a stop.
ghost use Rattle.std.specs.Prelude.{◌≡◌, ◌+◌, ◌≤◌, ◌<◌, ◌^◌, ◌==◌, ℕ, List, [], None, Some, IfSome, IfOk, MatchOption, OnOk, length, if◌then◌else◌};
ghost use Rattle.std.specs.Option.{option_copied};
ghost use Rattle.sg_facts.specs.Inside.Rows.{given_after, track};
ghost use Rattle.sg_facts.specs.Track.{row_at};
ghost use Rattle.sg_store.specs.Committing.{MayCommit};
ghost use Rattle.sg_store.specs.Spans.{AreApart, GrowsTwice, cut, buffer_part, patched_at, shown_span, span_at, stand_in};
ghost use Rattle.sg_store.specs.Stored.{HasRoom, bytes_of, receipt_at};
ghost use Rattle.sg_track.specs.Tracked.{spare_after};

use crate::buffer::cut;
use crate::files::{Files, write_patch};
use crate::receipts::{Receipt, no_receipts, put_receipt, receipt_of};
use crate::rows::Rows;
use sg_facts::{Call, NoMemory, Patch, Path, Reply, Row, Tables};
use std::alloc::Global;
use std::marker::Model;

/// What outlives a stop of a service: for each client the receipt of its last visible call, the rows of a global service, the
/// number of ids given, and all files, in one buffer of bytes. Contracts see these, and for how many more rows and bytes there
/// is room.
#[derive(Debug, Drop)]
pub struct Storage {
    receipts: Vec<Option<Receipt>>,
    rows: Rows,
    files: Files,
}

impl Model for Storage {
    ghost use Rattle.std.specs.Prelude.{length};
    ghost use Rattle.sg_store.specs.Stored.{Stored};

    ghost Value = { Stored };

    ghost view = { λ s. record { clients = length s.receipts.items; receipts = s.receipts.items; rows = s.rows.rows; given = s.rows.given; spare = s.rows.spare; buffer = s.files.buffer; spans = s.files.spans } };
}

impl Storage {
    /// A storage for clients from 1 to so many, without receipts, rows, ids and files.
    pub fn new(alloc: Global, clients: u8) -> Result<Storage, NoMemory>
        ensures clients { IfOk result (λ s. s.clients ≡ clients) }
        ensures receipts { IfOk result (λ s. (client : ℕ) → receipt_at s client ≡ None) }
        ensures rows { IfOk result (λ s. s.rows ≡ []) }
        ensures given { IfOk result (λ s. s.given ≡ 0) }
        ensures files { IfOk result (λ s. (key : List ℕ) → bytes_of s key ≡ []) }
        ensures buffer { IfOk result (λ s. s.buffer ≡ []) }
    {
        Ok(Storage {
            receipts: no_receipts(alloc, clients)?,
            rows: Rows::new(alloc),
            files: Files::new(alloc),
        })
    }

    /// Number and reply of a client's last visible call that was committed; None exactly where none was.
    pub fn receipt(&self, client: u8) -> Option<(u32, &Reply)>
        ensures { MatchOption result (receipt_at self.now client ≡ None) (λ p. receipt_at self.now client ≡ Some (record { seq = p.0; reply = p.1.now })) }
    {
        match receipt_of(self.receipts.as_slice(), client) {
            Some(receipt) => Some((receipt.seq, &receipt.reply)),
            None => None,
        }
    }

    /// The row of an id; None exactly where no live row of a global service has the id.
    pub fn row(&self, id: u64) -> Option<&Row>
        ensures { option_copied result ≡ row_at self.now.rows id }
    {
        self.rows.row(id)
    }

    /// The next id: one more than were given.
    pub fn next_id(&self) -> u64
        requires { self.now.given + 1 < 2 ^ 64 }
        ensures { result ≡ self.now.given + 1 }
    {
        self.rows.next_id()
    }

    /// The number of ids given, which is the last of them.
    pub fn given(&self) -> u64
        ensures { result ≡ self.now.given }
    {
        self.rows.given()
    }

    /// The bytes of a file from a place up to another, lent from the buffer; None exactly where `from` is above `to`, or `to`
    /// past the file's length. A file that was never written has length 0.
    pub fn lend(&self, key: &Path, from: u32, to: u32) -> Option<&[u8]>
        ensures { option_copied result ≡ cut (bytes_of self.now key.now) from to }
    {
        cut(self.files.bytes(key), from, to)
    }

    /// The length of a file; 0 for one that was never written.
    pub fn len(&self, key: &Path) -> u32
        ensures { result ≡ length (bytes_of self.now key.now) }
    {
        self.files.len(key)
    }

    /// The one buffer of all files.
    pub fn buffer(&self) -> &[u8]
        ensures { result.now ≡ self.now.buffer }
    {
        self.files.buffer()
    }

    /// Place and length of a file in the buffer; None exactly where its length is 0. The files' rooms have no byte in common.
    pub fn span(&self, key: &Path) -> Option<(usize, usize)>
        ensures place { result ≡ shown_span (span_at self.now.spans key.now) }
        ensures some { IfSome result (λ p. buffer_part self.now.buffer p.0 p.1 ≡ bytes_of self.now key.now) }
        ensures within { IfSome result (λ p. p.0 + p.1 ≤ length self.now.buffer) }
        ensures none { result ≡ None → bytes_of self.now key.now ≡ [] }
        ensures only_none { bytes_of self.now key.now ≡ [] → result ≡ None }
        ensures apart { AreApart self.now.spans }
    {
        self.files.span(key)
    }

    /// Takes the memory for one commit of a client: a row, and at a path a patch of 256 bytes at any place up to 65,536. What
    /// is stored stays, and so does the room of every file, whatever the answer.
    pub fn reserve(
        &mut self,
        alloc: Global,
        _client: u8,
        key: Option<&Path>,
    ) -> Result<(), NoMemory>
        ensures row { OnOk result (1 ≤ self.new.spare) }
        ensures room { OnOk result (IfSome key.entry (λ k. HasRoom self.new k.now)) }
        ensures rooms { (key : List ℕ) → HasRoom self.old key → HasRoom self.new key }
        ensures twice { (key : List ℕ) → GrowsTwice self.old.spans self.new.spans key }
        ensures stays { (key : List ℕ) → HasRoom self.old key → stand_in self.new.spans key ≡ stand_in self.old.spans key }
        ensures clients { self.new.clients ≡ self.old.clients }
        ensures receipts { self.new.receipts ≡ self.old.receipts }
        ensures rows { self.new.rows ≡ self.old.rows }
        ensures given { self.new.given ≡ self.old.given }
        ensures files { (key : List ℕ) → bytes_of self.new key ≡ bytes_of self.old key }
    {
        self.rows.reserve(alloc)?;
        if let Some(key) = key {
            self.files.reserve(alloc, key)?;
        }
        Ok(())
    }

    /// Stores an answered call: its receipt, what it makes of the rows and the ids, and the patch that it wrote. It takes no
    /// memory and can't fail.
    pub fn commit(&mut self, tables: &Tables, call: &Call, reply: Reply, patch: Option<Patch>)
        requires { MayCommit tables.now.iface.facts self.old call.now reply patch }
        ensures receipts { (client : ℕ) → receipt_at self.new client ≡ (if client == call.now.client then Some (record { seq = call.now.seq; reply = reply }) else receipt_at self.old client) }
        ensures rows { let facts = tables.now.iface.facts in self.new.rows ≡ (if facts.global then track facts self.old.rows call.now reply else self.old.rows) }
        ensures given { self.new.given ≡ given_after tables.now.iface.facts self.old.given call.now reply }
        ensures files { (key : List ℕ) → bytes_of self.new key ≡ patched_at patch key (bytes_of self.old key) }
        ensures stands { (key : List ℕ) → stand_in self.new.spans key ≡ stand_in self.old.spans key }
        ensures spare { let facts = tables.now.iface.facts in self.new.spare ≡ (if facts.global then spare_after facts self.old.spare call.now reply else self.old.spare) }
        ensures clients { self.new.clients ≡ self.old.clients }
    {
        self.rows.follow(tables, call, &reply);
        write_patch(&mut self.files, patch);
        let receipt = Receipt {
            seq: call.seq,
            reply,
        };
        put_receipt(&mut self.receipts, call.client, receipt);
    }
}
