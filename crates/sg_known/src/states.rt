// In which states a field is never 0.
ghost use Rattle.std.specs.Prelude.{◌≡◌, ℕ, ◌+◌, ◌≤◌, ◌<◌, ◌^◌, ◌++◌, IfOk, OnOk, filter, length, map};
ghost use Rattle.std.specs.List.{list_all};
ghost use Rattle.sg_described.specs.sg_facts.Facts.{facts_of, fun_of_shape, state_after};
ghost use Rattle.sg_described.specs.NeverZero.{all_from, is_listed, keeps_some, leaves_some, makes_some, moves_some, never_zero, states_from, states_left, stays_listed};
ghost use Rattle.sg_known.specs.Seen.{pairs_of};

use sg_described::{Effect, FunShape, ListOf, NoMemory, Shape};
use sg_walk::effect_on;
use std::alloc::Global;

/// Numbers of states.
pub type StateList = ListOf<u8>;

/// The state that a function leaves that is called in a state.
pub fn state_left(shape: &Shape, fun: u8, state: u8) -> u8
    ensures { result ≡ state_after (facts_of shape.now) fun state }
{
    shape.fun(fun).leaves.state_after(fun, state)
}

/// Whether a state is listed.
pub fn has_state(states: &[u8], state: u8) -> bool
    ensures { result ≡ is_listed states.now state }
{
    states.iter().any(|other| *other == state)
}

// Whether a field isn't 0 after an effect on it, or none, by whether it wasn't before.
fn stays_some(effect: Option<Effect>, some: bool) -> bool
    ensures { result ≡ leaves_some effect some }
{
    match effect {
        None | Some(Effect::AddArg(_) | Effect::AddRet) => some,
        Some(Effect::SetCaller) => true,
        Some(_) => false,
    }
}

// Whether a function that makes a descriptor in this state doesn't leave the field 0.
fn makes(shape: &Shape, field: u8, state: u8, number: u8, fun: &FunShape) -> bool
    ensures { result ≡ makes_some (facts_of shape.now) field state number (fun_of_shape fun.now) }
{
    !(fun.is_creation() && state_left(shape, number, number) == state)
        || stays_some(effect_on(fun.effects, field), false)
}

// Whether all functions do so, numbered from one on.
fn all_make(shape: &Shape, field: u8, state: u8, number: u8, funs: &[FunShape]) -> bool
    requires { number + length funs.now < 2 ^ 8 }
    ensures { result ≡ all_from (makes_some (facts_of shape.now) field state) number (map fun_of_shape funs.now) }
{
    match funs {
        [] => true,
        [first, rest @ ..] => {
            makes(shape, field, state, number, first)
                && all_make(shape, field, state, number + 1, rest)
        }
    }
}

// Whether a function that is called in a state and leaves this one doesn't leave the field 0.
fn moves(shape: &Shape, field: u8, states: &[u8], state: u8, pair: (u8, u8)) -> bool
    ensures { result ≡ moves_some (facts_of shape.now) field states.now state (pair.0, pair.1) }
{
    let fun = shape.fun(pair.1);
    !(!fun.is_creation() && !fun.is_terminal() && state_left(shape, pair.1, pair.0) == state)
        || stays_some(effect_on(fun.effects, field), has_state(states, pair.0))
}

// Whether all transitions do so.
fn all_move(shape: &Shape, field: u8, states: &[u8], state: u8, pairs: &[(u8, u8)]) -> bool
    ensures { result ≡ list_all (moves_some (facts_of shape.now) field states.now state) (map (λ p. (p.0, p.1)) pairs.now) }
{
    match pairs {
        [] => true,
        [first, rest @ ..] => {
            moves(shape, field, states, state, *first)
                && all_move(shape, field, states, state, rest)
        }
    }
}

// Whether a recover step, if it is from this state, leads to a listed one; of whichever field.
fn stays(shape: &Shape, states: &[u8], state: u8, pair: (u8, u8)) -> bool
    ensures { result ≡ stays_listed (facts_of shape.now) 0 states.now state (pair.0, pair.1) }
{
    pair.0 != state || has_state(states, state_left(shape, pair.1, pair.0))
}

// Whether all recover steps from this state lead to listed ones.
fn all_stay(shape: &Shape, states: &[u8], state: u8, pairs: &[(u8, u8)]) -> bool
    ensures { result ≡ list_all (stays_listed (facts_of shape.now) 0 states.now state) (map (λ p. (p.0, p.1)) pairs.now) }
{
    match pairs {
        [] => true,
        [first, rest @ ..] => {
            stays(shape, states, state, *first) && all_stay(shape, states, state, rest)
        }
    }
}

// Whether the field is never 0 in a state, if it never is in the listed ones.
fn keeps(shape: &Shape, field: u8, states: &[u8], state: u8) -> bool
    requires { length (facts_of shape.now).funs < 2 ^ 7 }
    ensures { result ≡ keeps_some (facts_of shape.now) field states.now state }
{
    all_make(shape, field, state, 1, shape.funs)
        && all_move(shape, field, states, state, shape.moves)
        && all_stay(shape, states, state, shape.steps)
}

// The states that keep to it.
fn kept(alloc: Global, shape: &Shape, field: u8, states: &[u8]) -> Result<StateList, NoMemory>
    requires { length (facts_of shape.now).funs < 2 ^ 7 }
    ensures { IfOk result (λ left. left ≡ filter (keeps_some (facts_of shape.now) field states.now) states.now) }
{
    let mut left = StateList::new(alloc);
    add_kept(&mut left, shape, field, states, states)?;
    Ok(left)
}

// Adds those of some states that keep to it.
fn add_kept(
    left: &mut StateList,
    shape: &Shape,
    field: u8,
    states: &[u8],
    some: &[u8],
) -> Result<(), NoMemory>
    requires { length (facts_of shape.now).funs < 2 ^ 7 }
    ensures { OnOk result (left.new ≡ left.old ++ filter (keeps_some (facts_of shape.now) field states.now) some.now) }
{
    match some {
        [] => Ok(()),
        [first, rest @ ..] => {
            if keeps(shape, field, states, *first) {
                left.push(*first)?;
            }
            add_kept(left, shape, field, states, rest)
        }
    }
}

// The states that are left, when those that don't keep to it have gone until all do.
fn settled(
    alloc: Global,
    shape: &Shape,
    field: u8,
    states: StateList,
) -> Result<StateList, NoMemory>
    requires { length (facts_of shape.now).funs < 2 ^ 7 }
    ensures { IfOk result (λ left. (n : ℕ) → length states ≤ n → left ≡ states_left (facts_of shape.now) field n states) }
{
    let left = kept(alloc, shape, field, states.as_slice())?;
    if left.len() == states.len() {
        return Ok(left);
    }
    Ok(settled(alloc, shape, field, left)?)
}

// The states that there are, numbered from one on.
fn add_states(states: &mut StateList, number: u8, funs: &[FunShape]) -> Result<(), NoMemory>
    requires { number + length funs.now < 2 ^ 8 }
    ensures { OnOk result (states.new ≡ states.old ++ states_from number (map fun_of_shape funs.now)) }
{
    match funs {
        [] => Ok(()),
        [_, rest @ ..] => {
            states.push(number)?;
            add_states(states, number + 1, rest)
        }
    }
}

/// The states in which a field is never 0.
pub fn never_zero_states(alloc: Global, shape: &Shape, field: u8) -> Result<StateList, NoMemory>
    requires { length (facts_of shape.now).funs < 2 ^ 7 }
    ensures { IfOk result (λ states. states ≡ never_zero (facts_of shape.now) field) }
{
    let mut states = StateList::new(alloc);
    add_states(&mut states, 1, shape.funs)?;
    Ok(settled(alloc, shape, field, states)?)
}
