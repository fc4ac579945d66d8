// Why a replayed call may fail.
ghost use Rattle.std.specs.Prelude.{◌≡◌, ◌+◌, ◌<◌, ◌≤◌, ◌^◌, ◌++◌, true, All, nat_le, nat_lt, IfOk, OnOk, length, map};
ghost use Rattle.std.specs.List.{list_all};
ghost use Rattle.std.specs.Option.{option_map, option_or};
ghost use Rattle.sg_known.specs.sg_facts.Facts.{fun_of_shape};
ghost use Rattle.sg_known.specs.sg_described.Described.{rule_of};
ghost use Rattle.sg_known.specs.sg_described.Known.{greatest};
ghost use Rattle.sg_known.specs.sg_described.Meaning.{most_at};
ghost use Rattle.sg_known.specs.sg_described.NeverZero.{is_never_zero};
ghost use Rattle.sg_known.specs.sg_described.Safe.{IsPlain};
ghost use Rattle.sg_known.specs.sg_described.Walking.{arg_known, bounds_at, caller_fits, field_known, known_at, left_most};
ghost use Rattle.sg_known.specs.Seen.{args_in, fields_in, known_in, pairs_of};
ghost use Rattle.sg_known.specs.Surveys.{IsSurvey, subject_of};
ghost use Rattle.sg_safe.specs.Inside.Replays.{IsLater, IsRowAt, clients_at, fields_from, past_at, spots_from, stops_at};
ghost use Rattle.sg_safe.specs.Inside.Routes.{IsReached, most_before, place_in};
ghost use Rattle.sg_safe.specs.Inside.Seen.{HasFewFields, pairs_in, shown};
ghost use Rattle.sg_safe.specs.Reasons.{but_walk, failing, fails_at, fails_by, fails_first, fails_on, first_from, first_in, known_spot, no_client, obstacle_at, past_most, stopping_rule};
ghost use Rattle.sg_known.specs.sg_walk.Marks.{known_of};

use crate::reason::{FailingCall, KnownField, KnownSpot, Obstacle, Unsafe};
use crate::spots::{Reached, blank_spot, loses, marks_of, spot_after, steps_from};
use sg_known::{
    ANY, ArgsKnown, Bounds, Effect, FieldState, FunShape, LAST_CLIENT, ListOf, NoMemory, RuleShape,
    Seen, Spot, Survey, ZERO, bounds_up_to, field_bounds, greatest_word, is_some_in, state_left,
    stops,
};
use std::alloc::Global;

// ---- what is known at a spot

// What is known of a field in a state, by its mark.
fn mark_bounds(survey: &Survey<'_>, state: u8, field: u8, mark: FieldState) -> Bounds
    requires survey { IsSurvey survey.now }
    requires field { field < length (subject_of survey.now).facts.fields }
    ensures { let d = subject_of survey.now in result ≡ bounds_at (known_of mark) (is_never_zero d.facts state field) (most_at (greatest d) field) }
{
    match mark {
        FieldState::Unset => ZERO,
        FieldState::Good => Bounds {
            least: if is_some_in(survey, state, field) {
                1
            } else {
                0
            },
            most: bounds_up_to(survey.greatest.as_slice(), field).most,
        },
        FieldState::Unknown => ANY,
    }
}

// Adds what is known of fields, numbered from one on.
fn add_bounds(
    fields: &mut Vec<Bounds>,
    survey: &Survey<'_>,
    state: u8,
    field: u8,
    marks: &[FieldState],
) -> Result<(), NoMemory>
    requires survey { IsSurvey survey.now }
    requires within { field + length marks.now ≤ length (subject_of survey.now).facts.fields }
    requires numbers { field + length marks.now < 2 ^ 8 }
    ensures { OnOk result (fields.new.items ≡ fields.old.items ++ fields_from (subject_of survey.now) state field (map known_of marks.now)) }
{
    match marks {
        [] => Ok(()),
        [first, rest @ ..] => {
            fields.push(mark_bounds(survey, state, field, *first))?;
            add_bounds(fields, survey, state, field + 1, rest)
        }
    }
}

// What is known of the row at a spot; of a call nothing yet.
fn seen_at<'a>(alloc: Global, survey: &'a Survey<'_>, spot: Spot) -> Result<Seen<'a>, NoMemory>
    requires survey { IsSurvey survey.now }
    requires fields { HasFewFields (subject_of survey.now) }
    ensures { let d = subject_of survey.now in IfOk result (λ seen. IsRowAt d (shown d spot) (known_in seen)) }
{
    let marks = marks_of(survey.description, &spot);
    let mut fields = Vec::with_capacity(alloc, marks.len())?;
    add_bounds(&mut fields, survey, spot.state, 0, marks)?;
    Ok(Seen {
        args: ArgsKnown::Any,
        state: Bounds {
            least: u64::from(spot.state),
            most: u64::from(spot.state),
        },
        fields,
    })
}

// What is known of the arguments of the replayed call of a function.
fn args_known<'a>(survey: &'a Survey<'_>, fun: u8) -> ArgsKnown<'a>
    requires { IsSurvey survey.now }
    ensures { args_in result ≡ arg_known (subject_of survey.now) fun }
{
    let description = survey.description;
    ArgsKnown::Carried(
        description.shape.fun(fun).effects,
        survey.greatest.as_slice(),
    )
}

// Adds what is known of fields with their marks, numbered from one on, by their greatest numbers.
fn add_known(
    known: &mut ListOf<KnownField>,
    fields: &[Bounds],
    most: &[u64],
    field: u8,
    marks: &[FieldState],
) -> Result<(), NoMemory>
    requires numbers { field + length marks.now < 2 ^ 8 }
    ensures { OnOk result (known.new ≡ known.old ++ spots_from fields.now most.now field marks.now) }
{
    match marks {
        [] => Ok(()),
        [first, rest @ ..] => {
            known.push(KnownField {
                mark: *first,
                bounds: field_bounds(fields, field),
                own: bounds_up_to(most, field),
            })?;
            add_known(known, fields, most, field + 1, rest)
        }
    }
}

// A spot with what is known of its fields.
fn known_of_spot(
    alloc: Global,
    survey: &Survey<'_>,
    spot: Spot,
    fields: &[Bounds],
) -> Result<KnownSpot, NoMemory>
    requires survey { IsSurvey survey.now }
    requires fields { HasFewFields (subject_of survey.now) }
    requires known { fields_in fields.now ≡ field_known (subject_of survey.now) (shown (subject_of survey.now) spot) }
    ensures { let d = subject_of survey.now in IfOk result (λ known. known ≡ known_spot d (shown d spot)) }
{
    let description = survey.description;
    let marks = marks_of(description, &spot);
    let mut known = ListOf::new(alloc);
    add_known(&mut known, fields, survey.greatest.as_slice(), 0, marks)?;
    Ok(KnownSpot {
        state: spot.state,
        fields: known,
    })
}

// ---- what may fail

// The first field that a function sets to its caller and that may hold no client, in the state that it leaves.
fn first_unheld(survey: &Survey<'_>, state: u8, effects: &[(u8, Effect)]) -> Option<Obstacle>
    requires survey { IsSurvey survey.now }
    requires within { list_all (λ e. nat_lt e.0 (length (subject_of survey.now).facts.fields)) (pairs_of effects.now) ≡ true }
    ensures { result ≡ clients_at (subject_of survey.now) state (pairs_of effects.now) }
{
    match effects {
        [] => None,
        [(field, effect), rest @ ..] => {
            if holds_client(survey, state, *field, *effect) {
                first_unheld(survey, state, rest)
            } else {
                Some(Obstacle::NoClient { field: *field })
            }
        }
    }
}

// Whether a field that an effect sets to the caller holds a client in a state.
fn holds_client(survey: &Survey<'_>, state: u8, field: u8, effect: Effect) -> bool
    requires survey { IsSurvey survey.now }
    requires within { field < length (subject_of survey.now).facts.fields }
    ensures { result ≡ caller_fits (subject_of survey.now) state (field, effect) }
{
    if !matches!(&effect, Effect::SetCaller) {
        return true;
    }
    is_some_in(survey, state, field)
        && bounds_up_to(survey.greatest.as_slice(), field).most <= u64::from(LAST_CLIENT)
}

// The first rule that may refuse or put off; they are numbered from one on.
fn first_stop(seen: &Seen<'_>, number: usize, rules: &[RuleShape]) -> Option<Obstacle>
    requires { number + length rules.now < 2 ^ 64 }
    ensures { result ≡ stops_at (known_in seen.now) number (map rule_of rules.now) }
{
    match rules {
        [] => None,
        [first, rest @ ..] => {
            if stops(seen, first) {
                Some(Obstacle::ByRule { rule: number })
            } else {
                first_stop(seen, number + 1, rest)
            }
        }
    }
}

// Whether a sum is up to a number.
fn sum_fits(one: u64, other: u64, most: u64) -> bool
    ensures { result ≡ nat_le (one + other) most }
{
    one <= most && other <= most - one
}

// Whether what an effect leaves is up to a number, by the field before, the row's field, and the returned word.
fn fits(effect: Effect, old: u64, own: u64, word: u64, most: u64) -> bool
    ensures { result ≡ nat_le (left_most effect old own word) most }
{
    match effect {
        Effect::SetCaller | Effect::SetArg(_) => own <= most,
        Effect::AddArg(_) => sum_fits(old, own, most),
        Effect::SetRet => word <= most,
        Effect::AddRet => sum_fits(old, word, most),
        Effect::Clear => true,
        Effect::SubOne | Effect::SubRet => old <= most,
    }
}

// The first field that effects may take past its greatest number.
fn first_past(
    survey: &Survey<'_>,
    seen: &Seen<'_>,
    word: u64,
    effects: &[(u8, Effect)],
) -> Option<Obstacle>
    requires { IsSurvey survey.now }
    ensures { result ≡ past_at (subject_of survey.now) (known_in seen.now) word (pairs_of effects.now) }
{
    match effects {
        [] => None,
        [(field, effect), rest @ ..] => {
            let old = field_bounds(seen.fields.as_slice(), *field).most;
            let own = bounds_up_to(survey.greatest.as_slice(), *field).most;
            let description = survey.description;
            let most = bounds_up_to(description.most, *field).most;
            if fits(*effect, old, own, word, most) {
                first_past(survey, seen, word, rest)
            } else {
                Some(Obstacle::PastMost { field: *field })
            }
        }
    }
}

// What may make the replayed call of a function fail at a spot, by what is known there, wherever it leads to.
fn any_obstacle(survey: &Survey<'_>, fun: u8, spot: Spot, seen: &Seen<'_>) -> Option<Obstacle>
    requires survey { IsSurvey survey.now }
    requires plain { IsPlain (subject_of survey.now) }
    requires known { known_in seen.now ≡ known_at (subject_of survey.now) fun (shown (subject_of survey.now) spot) }
    ensures { let d = subject_of survey.now in let s = shown d spot in
        result ≡ option_or (no_client d fun s) (option_or (stopping_rule d fun s) (past_most d fun s)) }
{
    let description = survey.description;
    let state = state_left(&description.shape, fun, spot.state);
    let effects = description.shape.fun(fun).effects;
    let rules = description.rules(fun);
    let past = first_past(survey, seen, greatest_word(seen, rules), effects);
    first_unheld(survey, state, effects).or(first_stop(seen, 1, rules).or(past))
}

// The same, unless it leads to where a field is lost for good. That is looked at last: it takes longest.
fn obstacle(survey: &Survey<'_>, fun: u8, spot: Spot, seen: &Seen<'_>) -> Option<Obstacle>
    requires survey { IsSurvey survey.now }
    requires plain { IsPlain (subject_of survey.now) }
    requires fields { HasFewFields (subject_of survey.now) }
    requires known { known_in seen.now ≡ known_at (subject_of survey.now) fun (shown (subject_of survey.now) spot) }
    ensures { let d = subject_of survey.now in result ≡ obstacle_at d fun (shown d spot) }
{
    match any_obstacle(survey, fun, spot, seen) {
        None => None,
        Some(found) => {
            let description = survey.description;
            if loses(description, spot_after(description, fun, spot)) {
                return None;
            }
            Some(found)
        }
    }
}

// ---- where it may fail

// Whether, and why, the replayed call of a function may fail at a spot, by what is known of the row there.
fn failure_at<'a>(
    alloc: Global,
    survey: &'a Survey<'_>,
    fun: u8,
    spot: Spot,
    seen: &mut Seen<'a>,
) -> Result<Option<FailingCall>, NoMemory>
    requires survey { IsSurvey survey.now }
    requires plain { IsPlain (subject_of survey.now) }
    requires fields { HasFewFields (subject_of survey.now) }
    requires row { let d = subject_of survey.now in IsRowAt d (shown d spot) (known_in seen.old) }
    ensures failure { let d = subject_of survey.now in IfOk result (λ found. found ≡ fails_at d fun (shown d spot)) }
    ensures row { let d = subject_of survey.now in IsRowAt d (shown d spot) (known_in seen.new) }
{
    seen.args = args_known(survey, fun);
    match obstacle(survey, fun, spot, seen) {
        None => Ok(None),
        Some(obstacle) => Ok(Some(FailingCall {
            fun,
            spot: known_of_spot(alloc, survey, spot, seen.fields.as_slice())?,
            obstacle,
        })),
    }
}

// Whether, and why, the first call may fail of a walk that begins with a function.
fn begin_failure(
    alloc: Global,
    survey: &Survey<'_>,
    number: u8,
    fun: &FunShape,
) -> Result<Option<FailingCall>, NoMemory>
    requires survey { IsSurvey survey.now }
    requires plain { IsPlain (subject_of survey.now) }
    requires fields { HasFewFields (subject_of survey.now) }
    ensures { IfOk result (λ found. found ≡ fails_first (subject_of survey.now) number (fun_of_shape fun.now)) }
{
    if !fun.is_creation() {
        return Ok(None);
    }
    let spot = blank_spot(survey.description, number);
    let mut seen = seen_at(alloc, survey, spot)?;
    failure_at(alloc, survey, number, spot, &mut seen)
}

/// The first call of a walk that may fail, where it begins with one of some functions, which are numbered from one on.
pub(crate) fn first_failure(
    alloc: Global,
    survey: &Survey<'_>,
    number: u8,
    funs: &[FunShape],
) -> Result<Option<FailingCall>, NoMemory>
    requires survey { IsSurvey survey.now }
    requires plain { IsPlain (subject_of survey.now) }
    requires fields { HasFewFields (subject_of survey.now) }
    requires numbers { number + length funs.now < 2 ^ 8 }
    ensures { IfOk result (λ found. found ≡ first_from (fails_first (subject_of survey.now)) number (map fun_of_shape funs.now)) }
{
    match funs {
        [] => Ok(None),
        [first, rest @ ..] => match begin_failure(alloc, survey, number, first)? {
            Some(found) => Ok(Some(found)),
            None => first_failure(alloc, survey, number + 1, rest),
        },
    }
}

// Whether, and why, the next call may fail of a walk that goes on from a spot by a pair.
fn step_failure<'a>(
    alloc: Global,
    survey: &'a Survey<'_>,
    spot: Spot,
    seen: &mut Seen<'a>,
    pair: (u8, u8),
) -> Result<Option<FailingCall>, NoMemory>
    requires survey { IsSurvey survey.now }
    requires plain { IsPlain (subject_of survey.now) }
    requires fields { HasFewFields (subject_of survey.now) }
    requires row { let d = subject_of survey.now in IsRowAt d (shown d spot) (known_in seen.old) }
    ensures row { let d = subject_of survey.now in IsRowAt d (shown d spot) (known_in seen.new) }
    ensures failure { let d = subject_of survey.now in IfOk result (λ found. found ≡ fails_by d (shown d spot) (pair.0, pair.1)) }
{
    if !steps_from(survey.description, spot, pair) {
        return Ok(None);
    }
    Ok(failure_at(alloc, survey, pair.1, spot, seen)?)
}

// The first next call that may fail, of a walk that goes on from a spot by one of some pairs.
fn steps_failure<'a>(
    alloc: Global,
    survey: &'a Survey<'_>,
    spot: Spot,
    seen: &mut Seen<'a>,
    steps: &[(u8, u8)],
) -> Result<Option<FailingCall>, NoMemory>
    requires survey { IsSurvey survey.now }
    requires plain { IsPlain (subject_of survey.now) }
    requires fields { HasFewFields (subject_of survey.now) }
    requires row { let d = subject_of survey.now in IsRowAt d (shown d spot) (known_in seen.old) }
    ensures { let d = subject_of survey.now in
        IfOk result (λ found. found ≡ first_in (fails_by d (shown d spot)) (pairs_in steps.now)) }
{
    match steps {
        [] => Ok(None),
        [first, rest @ ..] => match step_failure(alloc, survey, spot, seen, *first)? {
            Some(found) => Ok(Some(found)),
            None => steps_failure(alloc, survey, spot, seen, rest),
        },
    }
}

// The first next call that may fail, of a walk that goes on from a spot.
fn spot_failure(
    alloc: Global,
    survey: &Survey<'_>,
    spot: Spot,
) -> Result<Option<FailingCall>, NoMemory>
    requires survey { IsSurvey survey.now }
    requires plain { IsPlain (subject_of survey.now) }
    requires fields { HasFewFields (subject_of survey.now) }
    ensures { let d = subject_of survey.now in IfOk result (λ found. found ≡ fails_on d (shown d spot)) }
{
    let description = survey.description;
    let mut seen = seen_at(alloc, survey, spot)?;
    Ok(steps_failure(alloc, survey, spot, &mut seen, description.shape.steps)?)
}

/// The first next call that may fail, with its walk, where walks go on from where some have come to.
pub(crate) fn next_failure(
    alloc: Global,
    survey: &Survey<'_>,
    reached: &[Reached],
) -> Result<Option<Unsafe>, NoMemory>
    requires survey { IsSurvey survey.now }
    requires plain { IsPlain (subject_of survey.now) }
    requires fields { HasFewFields (subject_of survey.now) }
    requires reached { All (IsReached (subject_of survey.now) most_before) reached.now }
    ensures { let d = subject_of survey.now in IfOk result (IsLater d (first_in (fails_on d) (map (place_in d) reached.now))) }
{
    match reached {
        [] => Ok(None),
        [first, rest @ ..] => match spot_failure(alloc, survey, first.spot)? {
            Some(call) => Ok(Some(Unsafe::Fails {
                walk: first.walk,
                call,
            })),
            None => next_failure(alloc, survey, rest),
        },
    }
}
