// Where walks come to.
ghost use Rattle.std.specs.Prelude.{◌≡◌, ◌+◌, ◌-◌, ◌<◌, ◌≤◌, ◌^◌, ◌==◌, ◌&&◌, ◌++◌, true, ◌∷◌, [], ℕ, All, IfOk, OnOk, drop, length, map, not};
ghost use Rattle.std.specs.List.{flat_map, list_all, list_any};
ghost use Rattle.sg_known.specs.sg_facts.Facts.{fun_at, fun_of_shape};
ghost use Rattle.sg_known.specs.sg_facts.Interface.{has_pair};
ghost use Rattle.sg_known.specs.sg_facts.Limits.{most_fields};
ghost use Rattle.sg_known.specs.sg_facts.Walks.{first_spot, most_calls, next_spot};
ghost use Rattle.sg_known.specs.sg_described.Described.{Described, described_of};
ghost use Rattle.sg_known.specs.sg_described.NeverZero.{all_from};
ghost use Rattle.sg_known.specs.sg_described.Walking.{add_spots, begins, blank, brings_back, is_lost, is_step, is_stuck, is_unknown, nexts, spots_of, spots_within};
ghost use Rattle.sg_known.specs.Seen.{pairs_of};
ghost use Rattle.sg_safe.specs.Inside.Keys.{keyed};
ghost use Rattle.sg_safe.specs.Inside.Seen.{HasFewFields, pairs_in, shown, spot_in};
ghost use Rattle.sg_safe.specs.Inside.Routes.{HasKeys, IsDone, IsReached, add_begin, add_step, add_unlost, are_steps, most_before, nexts_by, place_in};
ghost use Rattle.sg_known.specs.sg_walk.Marks.{known_of};

use crate::spot_set::SpotSet;
use sg_known::{
    Description, Effect, FieldState, FunShape, ListOf, MOST_FIELDS, NoMemory, Spot, Walk, marked,
    state_left,
};
use std::alloc::Global;

/// Where a walk has come to, and the walk.
#[derive(Clone, Copy, Debug)]
pub(crate) struct Reached {
    pub spot: Spot,
    pub walk: Walk,
}

/// Where walks come to, in the order in which it was found, each spot once.
pub(crate) type ReachedList = ListOf<Reached>;

// The number of fields.
fn count(description: &Description) -> usize
    ensures { result ≡ length (described_of description.now).facts.fields }
{
    description.shape.fields.len()
}

/// The marks of the fields that there are.
pub(crate) fn marks_of<'a>(description: &Description, spot: &'a Spot) -> &'a [FieldState]
    requires { HasFewFields (described_of description.now) }
    ensures marks { map known_of result.now ≡ (shown (described_of description.now) spot.now).marks }
    ensures count { length result.now ≤ length (described_of description.now).facts.fields }
{
    &spot.marks[..count(description)]
}

/// Where a walk stands before its first call.
pub(crate) fn blank_spot(description: &Description, fun: u8) -> Spot
    requires { HasFewFields (described_of description.now) }
    ensures { shown (described_of description.now) result ≡ blank (described_of description.now) fun }
{
    Spot {
        state: fun,
        marks: [FieldState::Unset; MOST_FIELDS],
    }
}

/// Where a call leads to from a spot.
pub(crate) fn spot_after(description: &Description, fun: u8, spot: Spot) -> Spot
    requires { HasFewFields (described_of description.now) }
    ensures { let d = described_of description.now in shown d result ≡ next_spot d.facts fun (shown d spot) }
{
    Spot {
        state: state_left(&description.shape, fun, spot.state),
        marks: marked(
            spot.marks,
            count(description),
            description.shape.fun(fun).effects,
        ),
    }
}

// ---- fields that are lost

// Whether an effect sets a field of which nothing was known.
fn sets_back(effect: Effect) -> bool
    ensures { result ≡ brings_back effect }
{
    matches!(
        &effect,
        Effect::SetCaller | Effect::SetArg(_) | Effect::Clear
    )
}

// Whether some effect sets a field of which nothing was known.
fn some_sets_back(effects: &[(u8, Effect)], field: u8) -> bool
    ensures { result ≡ list_any (λ e. (e.0 == field) && brings_back e.1) (pairs_of effects.now) }
{
    match effects {
        [] => false,
        [(other, effect), rest @ ..] => {
            (*other == field && sets_back(*effect)) || some_sets_back(rest, field)
        }
    }
}

// Whether no recover step sets a field of which nothing was known.
fn stays_lost(description: &Description, field: u8, steps: &[(u8, u8)]) -> bool
    ensures { result ≡ list_all (λ s. not (list_any (λ e. (e.0 == field) && brings_back e.1) (fun_at (described_of description.now).facts.funs s.1).effects)) (pairs_in steps.now) }
{
    match steps {
        [] => true,
        [first, rest @ ..] => {
            !some_sets_back(description.shape.fun(first.1).effects, field)
                && stays_lost(description, field, rest)
        }
    }
}

// Whether nothing is known of a field.
fn is_nothing(mark: FieldState) -> bool
    ensures { result ≡ is_unknown (known_of mark) }
{
    matches!(&mark, FieldState::Unknown)
}

// Whether none of some fields is lost for good; they are numbered from one on.
fn none_lost(description: &Description, field: u8, marks: &[FieldState]) -> bool
    requires { field + length marks.now < 2 ^ 8 }
    ensures { result ≡ all_from (λ x m. not (is_unknown m && is_stuck (described_of description.now) x)) field (map known_of marks.now) }
{
    match marks {
        [] => true,
        [first, rest @ ..] => {
            !(is_nothing(*first) && stays_lost(description, field, description.shape.steps))
                && none_lost(description, field + 1, rest)
        }
    }
}

/// Whether a field is lost for good at a spot.
pub(crate) fn loses(description: &Description, spot: Spot) -> bool
    requires { HasFewFields (described_of description.now) }
    ensures { result ≡ is_lost (described_of description.now) (shown (described_of description.now) spot) }
{
    !none_lost(description, 0, &spot.marks[..count(description)])
}

// ---- spots, each once

// What was found, and the keys of its spots.
#[derive(Debug, Drop)]
struct Found {
    list: ReachedList,
    keys: SpotSet,
}

// Nothing. It takes no memory.
fn nothing(alloc: Global) -> Found
    ensures list { result.list ≡ [] }
    ensures keys { (d : Described) → HasKeys d result }
{
    Found {
        list: ReachedList::new(alloc),
        keys: SpotSet::new(alloc),
    }
}

// A spot with the marks of so many fields alone, by which it is looked up.
fn key_of(count: usize, spot: Spot) -> Spot
    requires { count ≤ most_fields }
    ensures { result ≡ keyed count spot }
{
    let mut marks = [FieldState::Unset; MOST_FIELDS];
    marks[..count].copy_from_slice(&spot.marks[..count]);
    Spot {
        state: spot.state,
        marks,
    }
}

// Adds a spot that isn't listed, unless a field is lost for good there.
fn add_one(found: &mut Found, description: &Description, reached: Reached) -> Result<(), NoMemory>
    requires fields { HasFewFields (described_of description.now) }
    requires keys { HasKeys (described_of description.now) found.old }
    ensures spots { let d = described_of description.now in let all = map (place_in d) in
        OnOk result (all found.new.list ≡ add_unlost d (all found.old.list) (place_in d reached)) }
    ensures keys { OnOk result (HasKeys (described_of description.now) found.new) }
    ensures reached { (calls : ℕ) → IsReached (described_of description.now) calls reached
        → OnOk result (All (IsReached (described_of description.now) calls) found.old.list → All (IsReached (described_of description.now) calls) found.new.list) }
{
    let key = key_of(count(description), reached.spot);
    if found.keys.has(key) {
        return Ok(());
    }
    if loses(description, reached.spot) {
        return Ok(());
    }
    found.keys.add(key)?;
    Ok(found.list.push(reached)?)
}

// ---- where walks lead to

// Where a walk of one call leads to.
fn begun(description: &Description, fun: u8) -> Result<Reached, NoMemory>
    requires { HasFewFields (described_of description.now) }
    ensures spot { let d = described_of description.now in IfOk result (λ r. place_in d r ≡ first_spot d.facts fun) }
    ensures walk { IfOk result (λ r. r.walk ≡ fun ∷ []) }
{
    let mut walk = Walk::new();
    walk.push(fun)?;
    Ok(Reached {
        spot: spot_after(description, fun, blank_spot(description, fun)),
        walk,
    })
}

// Where a walk leads to with one more call.
fn continued(description: &Description, from: &Reached, fun: u8) -> Result<Reached, NoMemory>
    requires fields { HasFewFields (described_of description.now) }
    requires room { length from.now.walk < most_calls }
    ensures spot { let d = described_of description.now in IfOk result (λ r. place_in d r ≡ next_spot d.facts fun (place_in d from.now)) }
    ensures walk { IfOk result (λ r. r.walk ≡ from.now.walk ++ fun ∷ []) }
{
    let mut walk = from.walk;
    walk.push(fun)?;
    Ok(Reached {
        spot: spot_after(description, fun, from.spot),
        walk,
    })
}

// Adds where the walk of one call leads to, where the function of a number makes a descriptor.
fn add_begin(
    found: &mut Found,
    description: &Description,
    number: u8,
    fun: &FunShape,
) -> Result<(), NoMemory>
    requires fields { HasFewFields (described_of description.now) }
    requires keys { HasKeys (described_of description.now) found.old }
    requires fun { fun_at (described_of description.now).facts.funs number ≡ fun_of_shape fun.now }
    ensures spots { let d = described_of description.now in let all = map (place_in d) in
        OnOk result (all found.new.list ≡ add_begin d (all found.old.list) number (fun_of_shape fun.now)) }
    ensures keys { OnOk result (HasKeys (described_of description.now) found.new) }
    ensures reached { OnOk result (All (IsReached (described_of description.now) 1) found.old.list → All (IsReached (described_of description.now) 1) found.new.list) }
{
    if !fun.is_creation() {
        return Ok(());
    }
    Ok(add_one(found, description, begun(description, number)?)?)
}

// Adds where walks of one call lead to, by functions that are numbered from one on: those of the description from there on.
fn add_begins(
    found: &mut Found,
    description: &Description,
    number: u8,
    funs: &[FunShape],
) -> Result<(), NoMemory>
    requires fields { HasFewFields (described_of description.now) }
    requires keys { HasKeys (described_of description.now) found.old }
    requires numbers { number + length funs.now < 2 ^ 8 }
    requires some { 1 ≤ number }
    requires funs { drop (number - 1) (described_of description.now).facts.funs ≡ map fun_of_shape funs.now }
    ensures spots { let d = described_of description.now in let all = map (place_in d) in
        OnOk result (all found.new.list ≡ add_spots (all found.old.list) (begins d number (map fun_of_shape funs.now))) }
    ensures keys { OnOk result (HasKeys (described_of description.now) found.new) }
    ensures reached { OnOk result (All (IsReached (described_of description.now) 1) found.old.list → All (IsReached (described_of description.now) 1) found.new.list) }
{
    match funs {
        [] => Ok(()),
        [first, rest @ ..] => {
            add_begin(found, description, number, first)?;
            Ok(add_begins(found, description, number + 1, rest)?)
        }
    }
}

/// Whether a pair is a recover step from a spot.
pub(crate) fn steps_from(description: &Description, spot: Spot, pair: (u8, u8)) -> bool
    ensures { (count : ℕ) → result ≡ is_step (described_of description.now) (spot_in count spot) (pair.0, pair.1) }
{
    pair.0 == spot.state && !description.shape.fun(pair.1).is_terminal()
}

// Adds where a walk leads to with one more call, by a recover step of the description.
fn add_step(
    found: &mut Found,
    description: &Description,
    from: &Reached,
    pair: (u8, u8),
) -> Result<(), NoMemory>
    requires fields { HasFewFields (described_of description.now) }
    requires keys { HasKeys (described_of description.now) found.old }
    requires room { length from.now.walk < most_calls }
    requires step { has_pair (described_of description.now).facts.steps pair.0 pair.1 ≡ true }
    ensures spots { let d = described_of description.now in let all = map (place_in d) in
        OnOk result (all found.new.list ≡ add_step d (all found.old.list) (place_in d from.now) (pair.0, pair.1)) }
    ensures keys { OnOk result (HasKeys (described_of description.now) found.new) }
    ensures reached { (calls : ℕ) → IsReached (described_of description.now) calls from.now
        → OnOk result (All (IsReached (described_of description.now) (calls + 1)) found.old.list → All (IsReached (described_of description.now) (calls + 1)) found.new.list) }
{
    if !steps_from(description, from.spot, pair) {
        return Ok(());
    }
    Ok(add_one(found, description, continued(description, from, pair.1)?)?)
}

// Adds where a walk leads to with one more call, by recover steps of the description.
fn add_steps(
    found: &mut Found,
    description: &Description,
    from: &Reached,
    steps: &[(u8, u8)],
) -> Result<(), NoMemory>
    requires fields { HasFewFields (described_of description.now) }
    requires keys { HasKeys (described_of description.now) found.old }
    requires room { length from.now.walk < most_calls }
    requires steps { are_steps (described_of description.now) (pairs_in steps.now) ≡ true }
    ensures spots { let d = described_of description.now in let all = map (place_in d) in
        OnOk result (all found.new.list ≡ add_spots (all found.old.list) (nexts_by d (place_in d from.now) (pairs_in steps.now))) }
    ensures keys { OnOk result (HasKeys (described_of description.now) found.new) }
    ensures reached { (calls : ℕ) → IsReached (described_of description.now) calls from.now
        → OnOk result (All (IsReached (described_of description.now) (calls + 1)) found.old.list → All (IsReached (described_of description.now) (calls + 1)) found.new.list) }
{
    match steps {
        [] => Ok(()),
        [first, rest @ ..] => {
            add_step(found, description, from, *first)?;
            Ok(add_steps(found, description, from, rest)?)
        }
    }
}

// Adds where walks lead to with one more call.
fn add_nexts(found: &mut Found, description: &Description, from: &[Reached]) -> Result<(), NoMemory>
    requires fields { HasFewFields (described_of description.now) }
    requires keys { HasKeys (described_of description.now) found.old }
    requires room { All (λ r. length r.walk < most_calls) from.now }
    ensures spots { let d = described_of description.now in let all = map (place_in d) in
        OnOk result (all found.new.list ≡ add_spots (all found.old.list) (flat_map (nexts d) (all from.now))) }
    ensures keys { OnOk result (HasKeys (described_of description.now) found.new) }
    ensures reached { (calls : ℕ) → All (IsReached (described_of description.now) calls) from.now
        → OnOk result (All (IsReached (described_of description.now) (calls + 1)) found.old.list → All (IsReached (described_of description.now) (calls + 1)) found.new.list) }
{
    match from {
        [] => Ok(()),
        [first, rest @ ..] => {
            add_steps(found, description, first, description.shape.steps)?;
            Ok(add_nexts(found, description, rest)?)
        }
    }
}

// Adds where walks lead to with one more call, by the spots that were found last: from the first ones, so many, it was done.
fn add_latest(
    alloc: Global,
    found: &mut Found,
    description: &Description,
    done: usize,
) -> Result<(), NoMemory>
    requires fields { HasFewFields (described_of description.now) }
    requires keys { HasKeys (described_of description.now) found.old }
    requires room { All (λ r. length r.walk < most_calls) found.old.list }
    requires done { let d = described_of description.now in IsDone d done (map (place_in d) found.old.list) }
    ensures spots { let d = described_of description.now in let all = map (place_in d) in
        OnOk result (all found.new.list ≡ add_spots (all found.old.list) (flat_map (nexts d) (all found.old.list))) }
    ensures keys { OnOk result (HasKeys (described_of description.now) found.new) }
    ensures reached { (calls : ℕ) → All (IsReached (described_of description.now) calls) found.old.list
        → OnOk result (All (IsReached (described_of description.now) (calls + 1)) found.new.list) }
{
    let latest = ReachedList::from_slice(alloc, &found.list.as_slice()[done..])?;
    Ok(add_nexts(found, description, latest.as_slice())?)
}

// The greatest number of calls after which a walk may still go on.
const MOST_BEFORE: u8 = 7;

// Where walks lead to that may go on, by where those of at most so many calls do; from the first of these the next calls are done.
fn further(
    alloc: Global,
    description: &Description,
    found: Found,
    done: usize,
    calls: u8,
) -> Result<ReachedList, NoMemory>
    requires fields { HasFewFields (described_of description.now) }
    requires keys { HasKeys (described_of description.now) found }
    requires some { 1 ≤ calls }
    requires most { calls ≤ most_before }
    requires done { let d = described_of description.now in IsDone d done (map (place_in d) found.list) }
    requires spots { map (place_in (described_of description.now)) found.list ≡ spots_within (described_of description.now) (calls - 1) }
    requires reached { All (IsReached (described_of description.now) calls) found.list }
    ensures spots { let d = described_of description.now in IfOk result (λ all. map (place_in d) all ≡ spots_of d) }
    ensures reached { IfOk result (All (IsReached (described_of description.now) most_before)) }
{
    if calls == MOST_BEFORE {
        return Ok(found.list);
    }
    let count = found.list.len();
    let mut all = found;
    add_latest(alloc, &mut all, description, done)?;
    further(alloc, description, all, count, calls + 1)
}

/// Where walks lead to that may go on.
pub(crate) fn all_spots(alloc: Global, description: &Description) -> Result<ReachedList, NoMemory>
    requires fields { HasFewFields (described_of description.now) }
    requires numbers { length (described_of description.now).facts.funs < 2 ^ 7 }
    ensures spots { let d = described_of description.now in IfOk result (λ all. map (place_in d) all ≡ spots_of d) }
    ensures reached { IfOk result (All (IsReached (described_of description.now) most_before)) }
{
    let mut first = nothing(alloc);
    add_begins(&mut first, description, 1, description.shape.funs)?;
    further(alloc, description, first, 0, 1)
}
