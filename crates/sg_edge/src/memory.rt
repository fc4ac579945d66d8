// A source and a sink in memory, with calls that fail on purpose.
ghost use Rattle.std.specs.Prelude.{◌≡◌, ◌==◌, ◌↔◌, ◌<◌, ◌≤◌, ◌++◌, [], true, false, Some, IfOk, IsOk, IsErr, OnOk, OnErr, length, take, drop, min};
ghost use Rattle.std.specs.List.{list_any};
ghost use Rattle.std.specs.Io.{ReadsAtMost};
ghost use Rattle.std.specs.Io.KnownBytes.{ReadConsumes, WriteAppends};
ghost use Rattle.sg_base.specs.Counts.{last_count};
ghost use Rattle.sg_edge.specs.Edge.{Rose, TakesSome, one_more};
ghost use Rattle.sg_edge.specs.Memory.{Calls, fresh_calls, next_fails, passed, failed, ReadsFront, WritesFront};

use crate::{Failed, Sink, Source};
use sg_base::NoMemory;
use std::alloc::Global;
use std::marker::Model;

// How the calls go: at most `most` bytes each, and those with the listed numbers fail.
#[derive(Debug, Drop)]
struct Faulty {
    most: usize,
    failing: Vec<u32>,
    made: u64,
    faults: u64,
}

impl Model for Faulty {
    ghost use Rattle.std.specs.Prelude.{◌≤◌};
    ghost use Rattle.sg_edge.specs.Memory.{Calls};

    ghost Value = { Calls };

    ghost view = { λ f. record { most = f.most; failing = f.failing.items; made = f.made; faults = f.faults } };

    ghost invariant = { λ f. 1 ≤ f.most };
}

impl Faulty {
    fn new(alloc: Global, most: usize, failing: &[u32]) -> Result<Faulty, NoMemory>
        requires { 1 ≤ most }
        ensures { IfOk result (λ calls. calls ≡ fresh_calls most failing.now) }
    {
        Ok(Faulty {
            most,
            failing: Vec::from_slice(alloc, failing)?,
            made: 0,
            faults: 0,
        })
    }

    // Counts a call, and says whether it goes on or is one of those that fail.
    fn start(&mut self) -> Result<(), Failed>
        ensures fails { IsErr result ↔ (next_fails self.old ≡ true) }
        ensures ok { OnOk result (self.new ≡ passed self.old) }
        ensures err { OnErr result (self.new ≡ failed self.old) }
        ensures counted { self.old.faults ≤ last_count }
    {
        self.made = self.made.saturating_add(1);
        if is_listed(&self.failing, self.made) {
            self.faults = self.faults.saturating_add(1);
            return Err(Failed);
        }
        Ok(())
    }

    // Counts a fault of a call that was counted as passed.
    fn fault(&mut self)
        ensures { (calls : Calls) → self.old ≡ passed calls → self.new ≡ failed calls }
    {
        self.faults = self.faults.saturating_add(1);
    }

    // The greatest number of bytes of a call.
    fn most(&self) -> usize
        ensures value { result ≡ self.now.most }
        ensures some { 1 ≤ self.now.most }
    {
        self.most
    }
}

// Whether this is one of the numbers.
fn is_listed(numbers: &[u32], number: u64) -> bool
    ensures { result ≡ list_any (λ n. n == number) numbers.now }
{
    numbers.iter().any(|n| u64::from(*n) == number)
}

/// A source in memory, which tells its bytes. Contracts see the bytes that are left, and how its reads go.
#[derive(Debug, Drop)]
pub struct MemSource {
    bytes: Vec<u8>,
    at: usize,
    calls: Faulty,
}

impl Model for MemSource {
    ghost use Rattle.std.specs.Prelude.{◌≤◌, drop, length};
    ghost use Rattle.sg_edge.specs.Memory.{Reads};

    ghost Value = { Reads };

    ghost view = { λ s. record { left = drop s.at s.bytes.items; calls = s.calls } };

    ghost invariant = { λ s. (s.at ≤ length s.bytes.items) × (1 ≤ s.calls.most) };
}

impl MemSource {
    /// A source of these bytes, which gives at most `most` of them (at least 1) a read. The reads whose numbers, from
    /// 1, are listed fail; one past the greatest u32 doesn't.
    pub fn new(
        alloc: Global,
        bytes: &[u8],
        most: usize,
        failing: &[u32],
    ) -> Result<MemSource, NoMemory>
        requires { 1 ≤ most }
        ensures { IfOk result (λ source. source ≡ record { left = bytes.now; calls = fresh_calls most failing.now }) }
    {
        Ok(MemSource {
            bytes: Vec::from_slice(alloc, bytes)?,
            at: 0,
            calls: Faulty::new(alloc, most, failing)?,
        })
    }
}

impl Source for MemSource {
    ghost left = { λ s. Some s.left };

    ghost faults = { λ s. s.calls.faults };

    /// Gives as many bytes as it may, has, and has room for. It fails exactly at the listed reads, and then gives none.
    fn read(&mut self, buf: &mut [u8]) -> Result<usize, Failed>
        ensures fails { IsErr result ↔ (next_fails self.old.calls ≡ true) }
        ensures ok { IfOk result (λ n. ReadsFront self.old buf.old n self.new buf.new) }
        ensures err { OnErr result (self.new ≡ record { left = self.old.left; calls = failed self.old.calls }) }
        ensures bound { ReadsAtMost result buf.new }
        ensures bytes { ReadConsumes (Some self.old.left) (Some self.new.left) result buf.new }
        ensures count { self.old.calls.faults ≤ self.new.calls.faults }
        ensures cause { OnErr result (Rose self.old.calls.faults self.new.calls.faults) }
        ensures steady { OnOk result (self.new.calls.faults ≡ self.old.calls.faults) }
        ensures once { OnErr result (self.new.calls.faults ≡ one_more self.old.calls.faults) }
    {
        self.calls.start()?;
        let count = copy_front(&self.bytes[self.at..], buf, self.calls.most());
        self.at += count;
        Ok(count)
    }
}

// Copies bytes from the front of one slice to the front of the other: as many as there are, as there is room for, and
// at most `most`.
fn copy_front(from: &[u8], to: &mut [u8], most: usize) -> usize
    ensures count { result ≡ min most (min (length to.old) (length from.now)) }
    ensures given { to.new ≡ take result from.now ++ drop result to.old }
    ensures front { from.now ≡ take result to.new ++ drop result from.now }
    ensures end { 1 ≤ most → result ≡ 0 → 0 < length to.new → from.now ≡ [] }
{
    let count = most.min(to.len().min(from.len()));
    to[..count].copy_from_slice(&from[..count]);
    count
}

/// A sink in memory, which tells its bytes. Contracts see the bytes written, and how its writes go.
#[derive(Debug, Drop)]
pub struct MemSink {
    bytes: Vec<u8>,
    calls: Faulty,
}

impl Model for MemSink {
    ghost use Rattle.std.specs.Prelude.{◌≤◌};
    ghost use Rattle.sg_edge.specs.Memory.{Writes};

    ghost Value = { Writes };

    ghost view = { λ s. record { written = s.bytes.items; calls = s.calls } };

    ghost invariant = { λ s. 1 ≤ s.calls.most };
}

impl MemSink {
    /// A sink that takes at most `most` bytes (at least 1) a write. The writes whose numbers, from 1, are listed fail;
    /// one past the greatest u32 doesn't.
    pub fn new(alloc: Global, most: usize, failing: &[u32]) -> Result<MemSink, NoMemory>
        requires { 1 ≤ most }
        ensures { IfOk result (λ sink. sink ≡ record { written = []; calls = fresh_calls most failing.now }) }
    {
        Ok(MemSink {
            bytes: Vec::new(alloc),
            calls: Faulty::new(alloc, most, failing)?,
        })
    }

    /// The bytes written so far, lent.
    pub fn written(&self) -> &[u8]
        ensures { result.now ≡ self.now.written }
    {
        self.bytes.as_slice()
    }
}

impl Sink for MemSink {
    ghost written = { λ s. Some s.written };

    ghost faults = { λ s. s.calls.faults };

    /// Takes as many bytes as it may. A listed write fails, and another only where there is no memory for the bytes,
    /// which an empty piece never needs; a write that fails takes none.
    fn write(&mut self, piece: &[u8]) -> Result<usize, Failed>
        ensures fails { next_fails self.old.calls ≡ true → IsErr result }
        ensures nothing { next_fails self.old.calls ≡ false → piece.now ≡ [] → IsOk result }
        ensures ok { IfOk result (λ n. WritesFront self.old piece.now n self.new) }
        ensures err { OnErr result (self.new ≡ record { written = self.old.written; calls = failed self.old.calls }) }
        ensures bound { IfOk result (TakesSome piece.now) }
        ensures bytes { WriteAppends (Some self.old.written) (Some self.new.written) result piece.now }
        ensures count { self.old.calls.faults ≤ self.new.calls.faults }
        ensures cause { OnErr result (Rose self.old.calls.faults self.new.calls.faults) }
        ensures steady { OnOk result (self.new.calls.faults ≡ self.old.calls.faults) }
        ensures once { OnErr result (self.new.calls.faults ≡ one_more self.old.calls.faults) }
    {
        self.calls.start()?;
        let count = piece.len().min(self.calls.most());
        match self.bytes.extend_from_slice(&piece[..count]) {
            Ok(()) => Ok(count),
            Err(_) => {
                self.calls.fault();
                Err(Failed)
            }
        }
    }
}
