// What an interface declares of a shape.
ghost use Rattle.std.specs.Prelude.{◌≡◌, ◌+◌, ◌<◌, ◌^◌, ◌||◌, ◌==◌, map};
ghost use Rattle.std.specs.Int.{bit_at};
ghost use Rattle.sg_facts.specs.Facts.{is_visible, fun_at, fun_of_shape, has_flag};
ghost use Rattle.sg_facts.specs.Interface.{declares, moves_on, steps_on, has_pair};

use crate::shape::{CREATION_BIT, DATA_BIT};
use crate::{FunShape, Shape};
use sg_base::{NoMemory, PairList, TryCopy};
use std::alloc::Global;
use std::marker::Model;

/// What an interface declares of a service's shape. Contracts see the shape as plain data, and the other fields.
#[derive(Debug, Drop)]
pub struct Interface {
    pub shape: Shape,
    /// The declared functions: bit f - 1 for function f.
    pub declared: u32,
    /// The version of the language in which it is written: 1, 2 or 3.
    pub version: u8,
    /// Whether every live descriptor is rebuilt after a boot before any call is served; else each is when a call needs it.
    pub eager: bool,
    /// The declared transitions: pairs of a state and a function that may be called in it.
    pub moves: PairList,
    /// The declared recover steps: pairs of a state and a function that may be replayed in it.
    pub steps: PairList,
}

impl Model for Interface {
    ghost use Rattle.sg_facts.specs.Facts.{facts_of};
    ghost use Rattle.sg_facts.specs.Interface.{Declared};

    ghost Value = { Declared };

    ghost view = { λ i. record { facts = facts_of i.shape; declared = i.declared; version = i.version; eager = i.eager; moves = i.moves; steps = i.steps } };
}

impl Interface {
    /// Whether the function of a number, from 1, is declared.
    pub fn declares(&self, fun: u8) -> bool
        ensures { result ≡ declares self.now fun }
    {
        fun > 0 && has_bit(self.declared, fun - 1)
    }

    /// The function of a number, from 1; one without a name, parameters, flags and effects where the shape has none.
    pub fn fun(&self, number: u8) -> FunShape
        ensures { fun_of_shape result ≡ fun_at self.now.facts.funs number }
    {
        self.shape.fun(number)
    }

    /// Whether a function may be called in a state.
    pub fn moves_on(&self, state: u8, fun: u8) -> bool
        ensures { result ≡ moves_on self.now state fun }
    {
        has_pair(self.moves.as_slice(), state, fun)
    }

    /// Whether a function may be replayed in a state.
    pub fn steps_on(&self, state: u8, fun: u8) -> bool
        ensures { result ≡ steps_on self.now state fun }
    {
        has_pair(self.steps.as_slice(), state, fun)
    }

    /// Whether a call of a function is visible to other clients before it returns: the service is global, or the
    /// function uses its descriptor's file, or it makes a descriptor.
    pub fn visible(&self, fun: u8) -> bool
        ensures { result ≡ is_visible self.now.facts fun }
    {
        self.shape.global || (fun > 0 && shows(self.shape.funs, usize::from(fun) - 1))
    }
}

impl TryCopy for Interface {
    fn copy(&self, alloc: Global) -> Result<Self, NoMemory> {
        Ok(Interface {
            shape: self.shape,
            declared: self.declared,
            version: self.version,
            eager: self.eager,
            moves: self.moves.copy(alloc)?,
            steps: self.steps.copy(alloc)?,
        })
    }
}

// Whether a bit is set.
fn has_bit(number: u32, bit: u8) -> bool
    ensures { result ≡ (bit_at number bit == 1) }
{
    bit < 32 && (number >> bit) % 2 == 1
}

// Whether a pair is listed.
fn has_pair(pairs: &[(u8, u8)], first: u8, second: u8) -> bool
    ensures { result ≡ has_pair pairs.now first second }
{
    pairs.iter().any(|pair| pair.0 == first && pair.1 == second)
}

// Whether the function at a place, from 0, uses its descriptor's file or makes a descriptor.
fn shows(funs: &[FunShape], at: usize) -> bool
    requires { at < 2 ^ 8 }
    ensures { let f = fun_at (map fun_of_shape funs.now) (at + 1) in result ≡ (f.uses_file || f.creation) }
{
    match funs.get(at) {
        Some(fun) => has_flag(fun.flags, DATA_BIT) || has_flag(fun.flags, CREATION_BIT),
        None => false,
    }
}

// Whether a sum of flags has the flag of a bit.
pub(crate) fn has_flag(flags: u8, bit: u8) -> bool
    requires { bit < 8 }
    ensures { result ≡ has_flag flags bit }
{
    (flags >> bit) % 2 == 1
}
