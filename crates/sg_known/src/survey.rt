// What is found of a description before it is checked.
ghost use Rattle.std.specs.Prelude.{◌≡◌, ◌+◌, ◌<◌, ◌^◌, ◌++◌, IfOk, OnOk, length, map};
ghost use Rattle.std.specs.List.{list_all};
ghost use Rattle.sg_described.specs.sg_facts.Facts.{facts_of, fun_of_shape};
ghost use Rattle.sg_described.specs.Described.{described_of};
ghost use Rattle.sg_described.specs.Known.{greatest_from, has_client, leaves_client};
ghost use Rattle.sg_described.specs.NeverZero.{is_never_zero};
ghost use Rattle.sg_known.specs.Seen.{pairs_of};
ghost use Rattle.sg_known.specs.Surveys.{IsSurvey, leaves_only_client, never_zero_from, subject_of};

use crate::states::{StateList, has_state, never_zero_states};
use sg_described::{
    Description, Effect, FieldShape, FunShape, LAST_CLIENT, ListOf, NoMemory, Shape,
};
use std::alloc::Global;

/// What is found of a description before it is checked: the greatest number that each field comes to, and the states in which it
/// is never 0.
#[derive(Debug, Drop)]
pub struct Survey<'a> {
    pub description: &'a Description,
    pub greatest: Vec<u64>,
    pub never_zero: ListOf<StateList>,
}

// Whether an effect leaves a client or none in its field, where one was there.
fn keeps_client(effect: Effect) -> bool
    ensures { result ≡ leaves_client effect }
{
    match effect {
        Effect::SetCaller | Effect::Clear | Effect::SubOne | Effect::SubRet => true,
        Effect::SetArg(_) | Effect::AddArg(_) | Effect::SetRet | Effect::AddRet => false,
    }
}

// Whether effects leave a client or none in a field.
fn keep_client(effects: &[(u8, Effect)], field: u8) -> bool
    ensures { result ≡ leaves_only_client field (pairs_of effects.now) }
{
    match effects {
        [] => true,
        [(other, effect), rest @ ..] => {
            (*other != field || keeps_client(*effect)) && keep_client(rest, field)
        }
    }
}

// Whether all functions do.
fn all_keep_client(funs: &[FunShape], field: u8) -> bool
    ensures { result ≡ list_all (λ f. leaves_only_client field f.effects) (map fun_of_shape funs.now) }
{
    match funs {
        [] => true,
        [first, rest @ ..] => keep_client(first.effects, field) && all_keep_client(rest, field),
    }
}

// Whether a field has only ever a client, or none.
fn holds_client(shape: &Shape, field: u8) -> bool
    ensures { result ≡ has_client (facts_of shape.now) field }
{
    all_keep_client(shape.funs, field)
}

// Adds the greatest numbers that fields come to, numbered from one on.
fn add_greatest(
    greatest: &mut Vec<u64>,
    shape: &Shape,
    field: u8,
    most: &[u64],
) -> Result<(), NoMemory>
    requires { field + length most.now < 2 ^ 8 }
    ensures { OnOk result (greatest.new.items ≡ greatest.old.items ++ greatest_from (facts_of shape.now) field most.now) }
{
    match most {
        [] => Ok(()),
        [first, rest @ ..] => {
            greatest.push(if holds_client(shape, field) {
                (*first).min(u64::from(LAST_CLIENT))
            } else {
                *first
            })?;
            add_greatest(greatest, shape, field + 1, rest)
        }
    }
}

// The greatest numbers that fields come to.
fn greatest_of(alloc: Global, shape: &Shape, most: &[u64]) -> Result<Vec<u64>, NoMemory>
    requires { length most.now < 2 ^ 8 }
    ensures { IfOk result (λ v. v.items ≡ greatest_from (facts_of shape.now) 0 most.now) }
{
    let mut greatest = Vec::new(alloc);
    add_greatest(&mut greatest, shape, 0, most)?;
    Ok(greatest)
}

// Adds the states in which fields are never 0, numbered from one on.
fn add_never_zero(
    never_zero: &mut ListOf<StateList>,
    alloc: Global,
    shape: &Shape,
    field: u8,
    fields: &[FieldShape],
) -> Result<(), NoMemory>
    requires funs { length (facts_of shape.now).funs < 2 ^ 7 }
    requires fields { field + length fields.now < 2 ^ 8 }
    ensures { OnOk result (never_zero.new ≡ never_zero.old ++ never_zero_from (facts_of shape.now) field (map (λ f. record { name = f.name.now; text = f.text }) fields.now)) }
{
    match fields {
        [] => Ok(()),
        [_, rest @ ..] => {
            never_zero.push(never_zero_states(alloc, shape, field)?)?;
            add_never_zero(never_zero, alloc, shape, field + 1, rest)
        }
    }
}

/// What is found of a description.
pub fn surveyed<'a>(alloc: Global, description: &'a Description) -> Result<Survey<'a>, NoMemory>
    requires funs { length (described_of description.now).facts.funs < 2 ^ 7 }
    requires fields { length (described_of description.now).facts.fields < 2 ^ 8 }
    requires most { length (described_of description.now).most < 2 ^ 8 }
    ensures is { IfOk result IsSurvey }
    ensures of { IfOk result (λ survey. subject_of survey ≡ described_of description.now) }
{
    let greatest = greatest_of(alloc, &description.shape, description.most)?;
    let mut never_zero = ListOf::new(alloc);
    add_never_zero(
        &mut never_zero,
        alloc,
        &description.shape,
        0,
        description.shape.fields,
    )?;
    Ok(Survey {
        description,
        greatest,
        never_zero,
    })
}

/// Whether a field is never 0 in a state.
pub fn is_some_in(survey: &Survey<'_>, state: u8, field: u8) -> bool
    requires survey { IsSurvey survey.now }
    requires field { field < length (subject_of survey.now).facts.fields }
    ensures { result ≡ is_never_zero (subject_of survey.now).facts state field }
{
    match survey.never_zero.get(usize::from(field)) {
        Some(states) => has_state(states.as_slice(), state),
        None => unreachable!(),
    }
}
