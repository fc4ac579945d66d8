// Where bytes come from.
ghost use Rattle.std.specs.Prelude.{◌≡◌, ◌≢◌, ◌+◌, ◌-◌, ◌^◌, ◌<◌, ◌≤◌, ℕ, List, OnOk, OnErr, IfOk, length};
ghost use Rattle.std.specs.declared.option.Option.{Option};
ghost use Rattle.std.specs.Io.{ReadsAtMost};
ghost use Rattle.std.specs.Io.KnownBytes.{ReadConsumes, Consumes, IsAtEnd};
ghost use Rattle.sg_edge.specs.Edge.{Rose, ConsumesAtMost, one_more};
ghost use Rattle.sg_edge.specs.Intake.{TakesIn};

use sg_base::{Bytes, NoMemory};
use std::alloc::Global;

/// A read or a write failed.
#[derive(Clone, Copy, Debug, PartialEq, Eq)]
pub struct Failed;

/// Where bytes come from.
pub trait Source {
    /// The bytes that are still to come, where they are told.
    ghost left: { Self → Option (List ℕ) };

    /// How often a read failed, up to the greatest u64: a number that never falls.
    ghost faults: { Self → ℕ };

    /// Reads some bytes to the front of `buf`, and says how many. None for a `buf` with room is the end. After
    /// `Failed`, which counts as one fault, no byte is gone. An Ok leaves the count of faults as it was.
    fn read(&mut self, buf: &mut [u8]) -> Result<usize, Failed>
        ensures bound { ReadsAtMost result buf.new }
        ensures bytes { ReadConsumes (left self.old) (left self.new) result buf.new }
        ensures count { faults self.old ≤ faults self.new }
        ensures cause { OnErr result (Rose (faults self.old) (faults self.new)) }
        ensures steady { OnOk result (faults self.new ≡ faults self.old) }
        ensures once { OnErr result (faults self.new ≡ one_more (faults self.old)) };
}

/// What was taken in from a source.
#[derive(Debug, Drop)]
pub enum Intake {
    /// All that it had.
    Whole(Bytes),
    /// It had more bytes than the limit; one byte past the limit was read.
    TooLong,
}

/// Why nothing was taken in from a source.
#[derive(Clone, Copy, Debug, PartialEq, Eq)]
pub enum ReadError {
    /// There was no memory for the bytes.
    NoMemory,
    /// A read failed.
    Failed,
}

impl From<Failed> for ReadError {
    ghost use Rattle.sg_edge.specs.declared.source.ReadError.TheVariants.{Failed};

    ghost from_gives = { λ _ e. e ≡ Failed };

    fn from(_: Failed) -> Self {
        ReadError::Failed
    }
}

impl From<NoMemory> for ReadError {
    ghost use Rattle.sg_edge.specs.declared.source.ReadError.TheVariants.{NoMemory};

    ghost from_gives = { λ _ e. e ≡ NoMemory };

    fn from(_: NoMemory) -> Self {
        ReadError::NoMemory
    }
}

// How many bytes are asked for at once.
const CHUNK: usize = 4096;

/// Reads a source to its end, up to a limit in bytes: `Whole` with all that it had, at most `limit` bytes; or
/// `TooLong` once it has given one byte more than `limit`, and no further byte is read. The first failed read ends the
/// call with `Failed`; after any other answer the count of faults is as it was.
pub fn read_all<S: Source>(alloc: Global, source: &mut S, limit: usize) -> Result<Intake, ReadError>
    ensures taken { TakesIn limit (S.left source.old) (S.left source.new) result }
    ensures count { S.faults source.old ≤ S.faults source.new }
    ensures cause { result ≡ Err ReadError.Failed → Rose (S.faults source.old) (S.faults source.new) }
    ensures steady { result ≢ Err ReadError.Failed → S.faults source.new ≡ S.faults source.old }
    ensures once { result ≡ Err ReadError.Failed → S.faults source.new ≡ one_more (S.faults source.old) }
{
    let mut bytes = Bytes::new(alloc);
    let mut chunk = [0; CHUNK];
    'reads: loop {
        let spare = limit - bytes.len();
        let count = source.read(&mut chunk[..spare.min(CHUNK - 1) + 1])?;
        if count == 0 {
            return Ok(Intake::Whole(bytes));
        }
        if count > spare {
            return Ok(Intake::TooLong);
        }
        bytes.extend_from_slice(&chunk[..count])?;
    }
}
