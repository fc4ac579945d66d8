// The functions that can't be reached.
ghost use Rattle.std.specs.Prelude.{◌≡◌, ◌↔◌, ◌<◌, ◌&&◌, ◌==◌, ℕ, true, IfOk};
ghost use Rattle.std.specs.List.{list_any};
ghost use Rattle.sg_check_statements.specs.sg_facts.Fits.{needs_reach};
ghost use Rattle.sg_check.specs.Inside.Numbers.{has_number};
ghost use Rattle.sg_check.specs.Inside.Reached.{AreStates, AreTriples, AreUnreached, is_reached, is_unreached};

use crate::numbers::Numbers;
use sg_check_statements::{END_OF_FUNS, Interface, NoMemory};
use sg_walk::Triple;
use std::alloc::Global;

/// The numbers of the functions that are to be reached and aren't, where descriptors come to these triples.
pub fn unreached_of(
    alloc: Global,
    iface: &Interface,
    triples: &[Triple],
) -> Result<Numbers, NoMemory>
    requires { AreTriples iface.now triples.now }
    ensures { IfOk result (AreUnreached iface.now) }
{
    let states = states_of(alloc, triples)?;
    Ok(unreached_in(alloc, iface, &states)?)
}

// The numbers of the functions that are to be reached and aren't, where descriptors come to these states.
fn unreached_in(alloc: Global, iface: &Interface, states: &Numbers) -> Result<Numbers, NoMemory>
    ensures { IfOk result (λ numbers. (fun : ℕ) → (has_number numbers fun ≡ true) ↔ ((fun < 33) × (is_unreached iface.now states.now fun ≡ true))) }
{
    let mut unreached = Numbers::new(alloc);
    'funs: for fun in 0..END_OF_FUNS {
        if is_unreached(iface, states, fun) {
            unreached.add(usize::from(fun))?;
        }
    }
    Ok(unreached)
}

// The states of triples.
fn states_of(alloc: Global, triples: &[Triple]) -> Result<Numbers, NoMemory>
    ensures { IfOk result (AreStates triples.now) }
{
    let mut states = Numbers::new(alloc);
    'triples: for triple in triples {
        states.add(usize::from(triple.state))?;
    }
    Ok(states)
}

// Whether a function is to be reached and isn't.
fn is_unreached(iface: &Interface, states: &Numbers, fun: u8) -> bool
    ensures { result ≡ is_unreached iface.now states.now fun }
{
    needs_reach(iface, fun) && !is_reached(iface, states, fun)
}

// Whether a function is to be reached: it neither makes a descriptor nor is a query.
fn needs_reach(iface: &Interface, fun: u8) -> bool
    ensures { result ≡ needs_reach iface.now fun }
{
    let of = iface.fun(fun);
    !(of.is_creation() || of.is_query())
}

// Whether a function is a recover step, or may be called in one of these states.
fn is_reached(iface: &Interface, states: &Numbers, fun: u8) -> bool
    ensures { result ≡ is_reached iface.now states.now fun }
{
    is_second(iface.steps.as_slice(), fun) || is_called(iface.moves.as_slice(), states, fun)
}

// Whether a function stands second in a pair.
fn is_second(pairs: &[(u8, u8)], fun: u8) -> bool
    ensures { result ≡ list_any (λ p. p.1 == fun) pairs.now }
{
    pairs.iter().any(|pair| pair.1 == fun)
}

// Whether a function stands second in a pair whose first is one of these states.
fn is_called(pairs: &[(u8, u8)], states: &Numbers, fun: u8) -> bool
    ensures { result ≡ list_any (λ p. (p.1 == fun) && has_number states.now p.0) pairs.now }
{
    pairs
        .iter()
        .any(|pair| pair.1 == fun && states.has(usize::from(pair.0)))
}
