// The places that declared calls lead to.
ghost use Rattle.std.specs.Prelude.{◌≡◌, ◌+◌, ◌<◌, ◌≤◌, ◌^◌, ℕ, true, length, map, OnOk};
ghost use Rattle.std.specs.List.{Contains};
ghost use Rattle.sg_facts.specs.Facts.{fun_at};
ghost use Rattle.sg_facts.specs.Interface.{HasFewFields, moves_on};
ghost use Rattle.sg_facts.specs.Limits.{most_fields};
ghost use Rattle.sg_walk.specs.declared.place.Place.{Place as OnePlace};
ghost use Rattle.sg_walk.specs.ReachedStates.Inside.Places.{AddsJust, AreReached, IsMadeAt, IsClosed, IsLed, IsLedOn, IsLedWith, LeadsTo, LeadsBy, place_with};

use crate::effects::{effect_on, may_leave};
use crate::found::Found;
use crate::place::Place;
use sg_facts::{Effect, Interface, NoMemory};

// Adds the places in a state to which effects lead from a set of so many fields.
fn add_led(
    found: &mut Found,
    effects: &[(u8, Effect)],
    count: u8,
    old: u8,
    state: u8,
) -> Result<(), NoMemory>
    requires { count ≤ most_fields }
    ensures { OnOk result (AddsJust (IsLed (map (λ p. (p.0, p.1)) effects.now) count old state) found.old found.new) }
{
    add_on(found, effects, 0, count, old, Place { state, mask: 0 })?;
    Ok(())
}

// Adds the places to which effects lead from a set, where the fields before one are settled, and so many are left from there on.
#[cycle(adding)]
fn add_on(
    found: &mut Found,
    effects: &[(u8, Effect)],
    field: u8,
    count: u8,
    old: u8,
    settled: Place,
) -> Result<(), NoMemory>
    requires few { field + count ≤ most_fields }
    requires settled { settled.mask < 2 ^ field }
    ensures { OnOk result (AddsJust (IsLedOn (map (λ p. (p.0, p.1)) effects.now) field count old settled) found.old found.new) }
{
    if count == 0 {
        found.add(settled)?;
        return Ok(());
    }
    add_with(found, effects, field, count, old, settled, false)?;
    add_with(found, effects, field, count, old, settled, true)?;
    Ok(())
}

// Adds those of them where the next field is set, or not.
#[cycle(adding)]
fn add_with(
    found: &mut Found,
    effects: &[(u8, Effect)],
    field: u8,
    count: u8,
    old: u8,
    settled: Place,
    is_set: bool,
) -> Result<(), NoMemory>
    requires few { field + count ≤ most_fields }
    requires some { 0 < count }
    requires settled { settled.mask < 2 ^ field }
    ensures { OnOk result (AddsJust (IsLedWith (map (λ p. (p.0, p.1)) effects.now) field count old settled is_set) found.old found.new) }
{
    if !may_leave(effect_on(effects, field), old % 2 == 1, is_set) {
        return Ok(());
    }
    let next = with_field(settled, field, is_set);
    add_on(found, effects, field + 1, count - 1, old / 2, next)?;
    Ok(())
}

// A place where a field is set, or not, and no field from there on was.
fn with_field(settled: Place, field: u8, is_set: bool) -> Place
    requires field { field < most_fields }
    requires settled { settled.mask < 2 ^ field }
    ensures place { result ≡ place_with settled field is_set }
    ensures settled { result.mask < 2 ^ (field + 1) }
{
    if is_set {
        Place {
            state: settled.state,
            mask: settled.mask + bit(field),
        }
    } else {
        settled
    }
}

// The number of the set that has one field.
fn bit(field: u8) -> u8
    requires { field < most_fields }
    ensures value { result ≡ 2 ^ field }
    ensures few { result ≤ 128 }
{
    1 << field
}

/// Adds the places that a creation leads to.
pub fn add_begins(iface: &Interface, made: u8, found: &mut Found) -> Result<(), NoMemory>
    requires few { HasFewFields iface.now }
    ensures { OnOk result (AddsJust (IsMadeAt iface.now made) found.old found.new) }
{
    let fun = iface.fun(made);
    if iface.declares(made) && fun.is_creation() {
        let state = fun.leaves.state_after(made, made);
        add_led(found, fun.effects, field_count(iface), 0, state)?;
    }
    Ok(())
}

// Adds the places that one call of a function leads to from another.
fn add_by(iface: &Interface, fun: u8, place: Place, found: &mut Found) -> Result<(), NoMemory>
    requires few { HasFewFields iface.now }
    requires moves { moves_on iface.now place.state fun ≡ true }
    ensures { OnOk result (AddsJust (LeadsBy iface.now fun place) found.old found.new) }
{
    let called = iface.fun(fun);
    if !called.is_terminal() {
        let state = called.leaves.state_after(fun, place.state);
        add_led(found, called.effects, field_count(iface), place.mask, state)?;
    }
    Ok(())
}

// Adds the places that one call leads to from another.
fn add_next(
    iface: &Interface,
    moves: &[(u8, u8)],
    place: Place,
    found: &mut Found,
) -> Result<(), NoMemory>
    requires few { HasFewFields iface.now }
    requires moves { moves.now ≡ iface.now.moves }
    ensures { OnOk result (AddsJust (LeadsTo iface.now place) found.old found.new) }
{
    'moves: for (state, fun) in moves {
        if *state == place.state {
            add_by(iface, *fun, place, found)?;
        }
    }
    Ok(())
}

/// Adds all places that calls lead to from those that were found.
pub fn close(iface: &Interface, found: &mut Found) -> Result<(), NoMemory>
    requires few { HasFewFields iface.now }
    ensures closed { OnOk result (IsClosed iface.now found.new) }
    ensures kept { OnOk result ((p : OnePlace) → Contains found.old p → Contains found.new p) }
    ensures reached { OnOk result ((made : ℕ) → AreReached iface.now made found.old → AreReached iface.now made found.new) }
{
    let mut next = 0;
    'places: while let Some(place) = found.get(next) {
        let place = *place;
        add_next(iface, iface.moves.as_slice(), place, found)?;
        next += 1;
    }
    Ok(())
}

/// The number of fields of a row.
pub fn field_count(iface: &Interface) -> u8
    requires few { HasFewFields iface.now }
    ensures { result ≡ length iface.now.facts.fields }
{
    iface.shape.fields.len() as u8
}

/// The number of sets of so many fields.
pub fn set_count(fields: u8) -> u16
    requires { fields ≤ most_fields }
    ensures value { result ≡ 2 ^ fields }
    ensures few { result ≤ 256 }
{
    1 << fields
}
