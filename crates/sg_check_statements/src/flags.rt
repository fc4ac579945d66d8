// Whether the flags of a function, and the state that it leaves, are declared as the service has them.
ghost use Rattle.std.specs.Prelude.{◌≡◌, Some, MatchOption, codes};
ghost use Rattle.std.specs.List.{list_any};
ghost use Rattle.sg_facts.specs.Facts.{facts_of, fun_of_shape};
ghost use Rattle.sg_check_statements.specs.Says.{agree, says};
ghost use Rattle.sg_check_statements.specs.Faults.{IsFirstStatement};
ghost use Rattle.sg_check_statements.specs.Inside.Pieces.{NoStatement, wrong_flag, fit_flags};
ghost use Rattle.sg_check_statements.specs.Flaws.{fit_leaves, leaves_another, leaves_some, is_declared};

use crate::funs::fun_of_name;
use crate::judge::{Judge, Statements, first_flaw};
use crate::said::{says, says_of};
use sg_facts::{FunShape, Leaves, Shape};
use sg_parse::Statement;

/// Looks for prototypes of functions whose flags, or whose state, are declared otherwise.
#[derive(Clone, Copy)]
pub struct Flags<'p, 's, 'a> {
    pub shape: &'p Shape,
    pub statements: &'p Statements<'s, 'a>,
}

impl Judge for Flags<'_, '_, '_> {
    ghost flaw = { λ j s. wrong_flag (facts_of j.shape.now) j.statements.now s };

    fn flaw_in(&self, statement: &Statement) -> Option<usize> {
        match statement {
            Statement::Proto { name, .. } => {
                if is_declared(self.shape, self.statements.all(), name.slice) {
                    None
                } else {
                    Some(name.at)
                }
            }
            _ => None,
        }
    }
}

/// The place of the first prototype whose function's flags, or whose state, are declared otherwise.
pub fn wrong_flag_in(shape: &Shape, statements: &[Statement]) -> Option<usize>
    ensures { MatchOption result
        (NoStatement (λ before s p. wrong_flag (facts_of shape.now) statements.now s ≡ Some p) statements.now)
        (IsFirstStatement (λ before s p. wrong_flag (facts_of shape.now) statements.now s ≡ Some p) statements.now) }
{
    let all = Statements::new(statements);
    first_flaw(
        &Flags {
            shape,
            statements: &all,
        },
        statements,
    )
}

// Whether the flags and the state of the function of a name are declared.
#[tactic(auto, unfolding(crate::specs::Flaws::is_declared))]
fn is_declared(shape: &Shape, statements: &[Statement], name: &[u8]) -> bool
    ensures { result ≡ is_declared (facts_of shape.now) statements.now name.now }
{
    let fun = fun_of_name(shape, name);
    fit_flags(statements, name, &fun) && fit_leaves(shape, statements, name, fun.leaves)
}

// Whether a flag is declared exactly where the function has it.
fn agrees(has: bool, statements: &[Statement], word: &[u8], name: &[u8]) -> bool
    ensures { result ≡ agree has (says statements.now word.now name.now) }
{
    has == says(statements, word, name)
}

// Whether the flags of a function are declared.
fn fit_flags(statements: &[Statement], name: &[u8], fun: &FunShape) -> bool
    ensures { result ≡ fit_flags statements.now name.now (fun_of_shape fun.now) }
{
    agrees(fun.is_creation(), statements, b"sm_creation", name)
        && agrees(fun.is_terminal(), statements, b"sm_terminal", name)
        && agrees(fun.may_block(), statements, b"sm_block", name)
        && agrees(fun.wakes(), statements, b"sm_wakeup", name)
        && agrees(fun.is_query(), statements, b"sm_query", name)
        && agrees(fun.looks_at_all(), statements, b"sm_needs_all", name)
        && agrees(fun.uses_file(), statements, b"resc_data", name)
}

// Whether the state that a function leaves is declared.
fn fit_leaves(shape: &Shape, statements: &[Statement], name: &[u8], leaves: Leaves) -> bool
    ensures { result ≡ fit_leaves (facts_of shape.now) statements.now name.now leaves }
{
    let keeps = says(statements, b"sm_keep", name);
    match leaves {
        Leaves::Own => !keeps && !leaves_some(statements, name),
        Leaves::Same => keeps && !leaves_some(statements, name),
        Leaves::Of(other) => {
            let state = shape.fun(other).name;
            !keeps
                && says_of(statements, b"sm_state", name, state)
                && !leaves_another(statements, name, state)
        }
    }
}

// Whether a statement names a state that a function leaves.
fn leaves_some(statements: &[Statement], fun: &[u8]) -> bool
    ensures { result ≡ list_any (leaves_some fun.now) statements.now }
{
    statements.iter().any(|statement| match statement {
        Statement::Two { word, first, .. } => {
            word.slice == b"sm_state".as_slice() && first.slice == fun
        }
        _ => false,
    })
}

/// Whether a statement names a state, other than this, that a function leaves.
pub fn leaves_another(statements: &[Statement], fun: &[u8], state: &[u8]) -> bool
    ensures { result ≡ list_any (leaves_another fun.now state.now) statements.now }
{
    statements.iter().any(|statement| match statement {
        Statement::Two {
            word,
            first,
            second,
        } => { word.slice == b"sm_state".as_slice() && first.slice == fun && second.slice != state }
        _ => false,
    })
}
