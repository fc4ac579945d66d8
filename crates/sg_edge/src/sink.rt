// Where bytes go to.
ghost use Rattle.std.specs.Prelude.{◌≡◌, ◌<◌, ◌≤◌, ℕ, List, OnOk, OnErr, IfOk, IfErr, length, take};
ghost use Rattle.std.specs.declared.option.Option.{Option};
ghost use Rattle.std.specs.Io.KnownBytes.{WriteAppends, Appends};
ghost use Rattle.sg_edge.specs.Edge.{Rose, TakesSome, one_more};

use crate::Failed;

/// Where bytes go to.
pub trait Sink {
    /// The bytes written so far, where they are told.
    ghost written: { Self → Option (List ℕ) };

    /// How often a write failed, up to the greatest u64: a number that never falls.
    ghost faults: { Self → ℕ };

    /// Writes some bytes from the front of `piece`, and says how many: at least one of a piece that isn't empty.
    /// After `Failed`, which counts as one fault, none of them is written. An Ok leaves the count of faults as it was.
    fn write(&mut self, piece: &[u8]) -> Result<usize, Failed>
        ensures bound { IfOk result (TakesSome piece.now) }
        ensures bytes { WriteAppends (written self.old) (written self.new) result piece.now }
        ensures count { faults self.old ≤ faults self.new }
        ensures cause { OnErr result (Rose (faults self.old) (faults self.new)) }
        ensures steady { OnOk result (faults self.new ≡ faults self.old) }
        ensures once { OnErr result (faults self.new ≡ one_more (faults self.old)) };
}

/// A fault cut an output off.
#[derive(Clone, Copy, Debug, PartialEq, Eq)]
pub struct CutOff {
    /// How many bytes of the output were written before the fault: fewer than it has.
    pub written: usize,
}

/// Writes all bytes, in as many pieces as the sink takes them in. The first failed write ends the call, which says
/// how many bytes were written before. An Ok leaves the count of faults as it was.
pub fn write_all<S: Sink>(sink: &mut S, bytes: &[u8]) -> Result<(), CutOff>
    ensures whole { OnOk result (Appends (S.written sink.old) (S.written sink.new) bytes.now) }
    ensures front { IfErr result (λ cut. (cut.written < length bytes.now)
        × Appends (S.written sink.old) (S.written sink.new) (take cut.written bytes.now)) }
    ensures count { S.faults sink.old ≤ S.faults sink.new }
    ensures cause { OnErr result (Rose (S.faults sink.old) (S.faults sink.new)) }
    ensures steady { OnOk result (S.faults sink.new ≡ S.faults sink.old) }
    ensures once { OnErr result (S.faults sink.new ≡ one_more (S.faults sink.old)) }
{
    let mut written = 0;
    'pieces: while written < bytes.len() {
        match sink.write(&bytes[written..]) {
            Ok(count) => written += count,
            Err(_) => return Err(CutOff { written }),
        }
    }
    Ok(())
}
