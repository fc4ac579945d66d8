// Whether a described service is safe, and if not, why.
ghost use Rattle.std.specs.Prelude.{◌≡◌, ◌≤◌, true, None, IfErr, IfOk, OnOk, length};
ghost use Rattle.std.specs.Option.{option_or};
ghost use Rattle.sg_known.specs.sg_facts.Limits.{most_funs};
ghost use Rattle.sg_known.specs.sg_described.Described.{described_of};
ghost use Rattle.sg_known.specs.sg_described.Safe.{IsPlain, IsSafe, is_plain};
ghost use Rattle.sg_known.specs.Surveys.{IsSurvey, subject_of};
ghost use Rattle.sg_safe.specs.Inside.Stages.{IsFound};
ghost use Rattle.sg_safe.specs.Reasons.{IsFirstError, counts_in, fails_in, unsafe_in, waits_in};

use crate::counting::{first_far, first_recounted};
use crate::reason::{SafeError, Unsafe};
use crate::replaying::{first_failure, next_failure};
use crate::spots::all_spots;
use crate::waiting::first_overtaken;
use sg_known::{Description, NoMemory, Survey, Walk, surveyed};
use std::alloc::Global;

/// A described service is safe (`IsSafe`): Ok exactly where it is and there is memory. Else the error tells the first reason why
/// it isn't, in the order of `Unsafe`, or that there was no memory. Of a description that keeps to what it has to by itself
/// (`IsPlain`), with at most `MOST_FUNS` functions.
pub fn safe(alloc: Global, description: &Description) -> Result<(), SafeError>
    requires plain { is_plain (described_of description.now) ≡ true }
    requires few { length (described_of description.now).facts.funs ≤ most_funs }
    ensures safe { OnOk result (IsSafe (described_of description.now)) }
    ensures reason { IfErr result (IsFirstError (described_of description.now)) }
{
    match unsafe_at(alloc, description)? {
        Some(reason) => Err(SafeError::Unsafe(reason)),
        None => Ok(()),
    }
}

// Why it can't be recovered.
fn unsafe_at(alloc: Global, description: &Description) -> Result<Option<Unsafe>, NoMemory>
    requires plain { IsPlain (described_of description.now) }
    requires few { length (described_of description.now).facts.funs ≤ most_funs }
    ensures { let d = described_of description.now in IfOk result (IsFound d (unsafe_in d)) }
{
    match miscounted(description) {
        Some(reason) => Ok(Some(reason)),
        None => Ok(unsafe_by(alloc, &surveyed(alloc, description)?)?),
    }
}

// Why words that count may do harm.
fn miscounted(description: &Description) -> Option<Unsafe>
    requires plain { IsPlain (described_of description.now) }
    requires few { length (described_of description.now).facts.funs ≤ most_funs }
    ensures { let d = described_of description.now in IsFound d (counts_in d) result }
{
    match first_far(description, 0, description.most) {
        Some(reason) => Some(reason),
        None => first_recounted(description, 1, description.shape.funs),
    }
}

// Why it can't be recovered, where words that count do no harm.
fn unsafe_by(alloc: Global, survey: &Survey<'_>) -> Result<Option<Unsafe>, NoMemory>
    requires survey { IsSurvey survey.now }
    requires plain { IsPlain (subject_of survey.now) }
    requires few { length (subject_of survey.now).facts.funs ≤ most_funs }
    ensures { let d = subject_of survey.now in IfOk result (IsFound d (option_or (waits_in d) (fails_in d))) }
{
    let description = survey.description;
    match first_overtaken(alloc, survey, 1, description.shape.funs)? {
        Some(reason) => Ok(Some(reason)),
        None => Ok(failing_by(alloc, survey)?),
    }
}

// Why replayed calls may fail.
fn failing_by(alloc: Global, survey: &Survey<'_>) -> Result<Option<Unsafe>, NoMemory>
    requires survey { IsSurvey survey.now }
    requires plain { IsPlain (subject_of survey.now) }
    requires few { length (subject_of survey.now).facts.funs ≤ most_funs }
    ensures { let d = subject_of survey.now in IfOk result (IsFound d (fails_in d)) }
{
    let description = survey.description;
    match first_failure(alloc, survey, 1, description.shape.funs)? {
        Some(call) => Ok(Some(Unsafe::Fails {
            walk: Walk::new(),
            call,
        })),
        None => {
            let reached = all_spots(alloc, description)?;
            Ok(next_failure(alloc, survey, reached.as_slice())?)
        }
    }
}
