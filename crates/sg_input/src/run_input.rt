// What an input with a printed run is, or why it is refused.
ghost use Rattle.std.specs.Prelude.{◌≡◌, ℕ, List, map, true, IfOk};
ghost use Rattle.sg_facts.specs.Facts.{Facts, facts_of};
ghost use Rattle.sg_facts.specs.Interface.{Declared};
ghost use Rattle.sg_facts.specs.declared.entry.Entry.{Entry};
ghost use Rattle.sg_facts.specs.sg_base.Room.{Roomy};
ghost use Rattle.sg_input.specs.sg_check_statements.Shapes.{are_shapes};
ghost use Rattle.sg_input.specs.declared.read.Read.{Read as AnyRead};
ghost use Rattle.sg_input.specs.Inputs.{AreTexts, IsHistoryOf, IsInterface, IsRunInputOf, IsSameRun, judged_by, most_run};
ghost use Rattle.sg_input.specs.Judged.{MayBeJudged, MayBeJudgedUnder, items_in};

use crate::limits::MOST_RUN;
use crate::lines::run_line;
use crate::parted::{InputParts, input_parts};
use crate::{Accepted, Read};
use sg_entries::{EntriesError, History, read_entries};
use sg_facts::{Interface, NoMemory, Shape};
use std::alloc::Global;

/// What an input is whose second text is a printed run, where its interface may be of one of these shapes: an interface that is
/// accepted with the history that the run printed, or else the line that refuses it, by the first of these that applies. `input
/// refused: NoDivider`, `input refused: TooLong` and `interface refused at L:C: KIND`: as `read_input` says, but for a run of
/// more than 67,108,864 bytes. `run refused at L:C: KIND`: the first fault of the run's entries. L and C are the line and the
/// byte in the line, from 1, in that text alone. Each call of the history is one that a client may make, and there are no more
/// than a script may have. The only error is want of memory.
pub fn read_run(
    alloc: Global,
    input: &[u8],
    shapes: &[Shape],
) -> Result<Read<(Accepted, History)>, NoMemory>
    requires { are_shapes (map facts_of shapes.now) ≡ true }
    ensures input { IfOk result (IsRunInputOf (judged_by (map facts_of shapes.now)) input.now) }
    // Nothing else may be answered.
    ensures only { (other : AnyRead (Declared × Roomy Entry)) → IsRunInputOf (judged_by (map facts_of shapes.now)) input.now other → IfOk result (λ made. IsSameRun made other) }
    ensures may { IfOk result MayBeJudged }
{
    run_input_of(alloc, input, shapes)
}

// What `read_run` answers.
fn run_input_of(
    alloc: Global,
    input: &[u8],
    shapes: &[Shape],
) -> Result<Read<(Accepted, History)>, NoMemory>
    requires { are_shapes (map facts_of shapes.now) ≡ true }
    ensures input { IfOk result (IsRunInputOf (judged_by (map facts_of shapes.now)) input.now) }
    ensures may { IfOk result MayBeJudged }
{
    match input_parts(alloc, input, MOST_RUN, shapes)? {
        Read::Ready(InputParts { accepted, second }) => with_run(alloc, accepted, second, shapes),
        Read::Refused(line) => Ok(Read::Refused(line)),
    }
}

// What an input with this printed run is, whose interface is accepted as one of these shapes.
fn with_run(
    alloc: Global,
    accepted: Accepted,
    run: &[u8],
    shapes: &[Shape],
) -> Result<Read<(Accepted, History)>, NoMemory>
    ensures input { IfOk result (λ made. (input interface : List ℕ) → AreTexts most_run input interface run.now
        → IsInterface (map facts_of shapes.now) interface accepted → IsRunInputOf (judged_by (map facts_of shapes.now)) input made) }
    ensures may { IfOk result MayBeJudged }
{
    match history_of(alloc, run, accepted.interface(), shapes)? {
        Read::Ready(history) => Ok(Read::Ready((accepted, history))),
        Read::Refused(line) => Ok(Read::Refused(line)),
    }
}

/// What a text is as a printed run of an interface: the history, or the line that refuses it, with the first fault of its entries. A function
/// that the interface doesn't declare shows its bytes where one of these shapes has it so. Each call of the history is one that a client
/// may make, and there are no more than a script may have. The only error is want of memory.
pub fn history_of(
    alloc: Global,
    run: &[u8],
    iface: &Interface,
    shapes: &[Shape],
) -> Result<Read<History>, NoMemory>
    ensures history { IfOk result (λ made. IsHistoryOf (map facts_of shapes.now) iface.now run.now (items_in made)) }
    ensures may { IfOk result (MayBeJudgedUnder iface.now) }
{
    match read_entries(alloc, run, iface, shapes) {
        Ok(history) => Ok(Read::Ready(history)),
        Err(EntriesError::NoMemory) => Err(NoMemory),
        Err(EntriesError::Fault { kind, at }) => {
            Ok(Read::Refused(run_line(alloc, run, kind, at)?))
        }
    }
}
