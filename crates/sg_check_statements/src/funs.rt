// The functions of a service, by their names.
ghost use Rattle.std.specs.Prelude.{◌≡◌, ◌+◌, ◌<◌, ◌^◌, length, map, IfSome};
ghost use Rattle.sg_facts.specs.Facts.{facts_of, fun_at, fun_of_shape};
ghost use Rattle.sg_check_statements.specs.Says.{fun_number_from, fun_number};
ghost use Rattle.sg_check_statements.specs.Flaws.{fun_of_name};

use sg_facts::{FunShape, Leaves, Shape};

// What stands for a function that a shape hasn't.
const NO_FUN: FunShape = FunShape {
    name: &[],
    kinds: &[],
    flags: 0,
    leaves: Leaves::Own,
    effects: &[],
};

/// The number of the function of a name, from 1.
pub fn fun_number(shape: &Shape, name: &[u8]) -> Option<usize>
    ensures { result ≡ fun_number (facts_of shape.now).funs name.now }
{
    fun_number_from(1, shape.funs, name)
}

// The number of the function of a name, where the first of these functions has this number.
fn fun_number_from(first: usize, funs: &[FunShape], name: &[u8]) -> Option<usize>
    requires { first + length funs.now < 2 ^ 64 }
    ensures { result ≡ fun_number_from first (map fun_of_shape funs.now) name.now }
{
    match funs {
        [] => None,
        [fun, ..] if fun.name == name => Some(first),
        [_, rest @ ..] => fun_number_from(first + 1, rest, name),
    }
}

/// The function of a name; one without a name, parameters, flags and effects where the shape has none.
pub fn fun_of_name(shape: &Shape, name: &[u8]) -> FunShape
    ensures { fun_of_shape result ≡ fun_of_name (facts_of shape.now) name.now }
{
    match fun_number(shape, name) {
        Some(number) => fun_in(shape.funs, number),
        None => NO_FUN,
    }
}

// The function of a number, from 1.
fn fun_in(funs: &[FunShape], number: usize) -> FunShape
    ensures { fun_of_shape result ≡ fun_at (map fun_of_shape funs.now) number }
{
    if number == 0 {
        return NO_FUN;
    }
    match funs.get(number - 1) {
        Some(fun) => *fun,
        None => NO_FUN,
    }
}
