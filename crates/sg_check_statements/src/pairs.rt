// Whether the transitions, or the recover steps, that statements name are the service's.
ghost use Rattle.std.specs.Prelude.{◌≡◌, Some, MatchOption, codes};
ghost use Rattle.sg_check_statements.specs.Faults.{IsFirstStatement};
ghost use Rattle.sg_check_statements.specs.Inside.Pieces.{NoStatement, has_pair_at};
ghost use Rattle.sg_facts.specs.Facts.{facts_of};
ghost use Rattle.sg_facts.specs.Interface.{has_pair};
ghost use Rattle.sg_check_statements.specs.Flaws.{foreign};

use crate::funs::fun_number;
use crate::judge::{Judge, first_flaw};
use sg_facts::Shape;
use sg_parse::Statement;

/// Looks for pairs under a word that aren't among these pairs of the shape's functions.
#[derive(Clone, Copy)]
pub struct Pairs<'a> {
    pub shape: &'a Shape,
    pub word: &'a [u8],
    pub pairs: &'a [(u8, u8)],
}

impl Judge for Pairs<'_> {
    ghost flaw = { λ j s. foreign j.word.now j.pairs.now (facts_of j.shape.now) s };

    fn flaw_in(&self, statement: &Statement) -> Option<usize> {
        match statement {
            Statement::Two {
                word,
                first,
                second,
            } => {
                if word.slice == self.word && !self.has(first.slice, second.slice) {
                    Some(first.at)
                } else {
                    None
                }
            }
            _ => None,
        }
    }
}

impl Pairs<'_> {
    ghost use Rattle.sg_check_statements.specs.Says.{fun_number};

    // Whether the functions of these names are a pair.
    fn has(&self, first: &[u8], second: &[u8]) -> bool
        ensures { result ≡ has_pair_at self.now.pairs.now
            (fun_number (facts_of self.now.shape.now).funs first.now) (fun_number (facts_of self.now.shape.now).funs second.now) }
    {
        match (
            fun_number(self.shape, first),
            fun_number(self.shape, second),
        ) {
            (Some(first), Some(second)) => has_pair(self.pairs, first, second),
            _ => false,
        }
    }
}

/// Whether a pair is one of these.
pub fn has_pair(pairs: &[(u8, u8)], first: usize, second: usize) -> bool
    ensures { result ≡ has_pair pairs.now first second }
{
    pairs.iter().any(|pair| usize::from(pair.0) == first && usize::from(pair.1) == second)
}

/// The place of the first transition that isn't the service's.
pub fn foreign_transition(shape: &Shape, statements: &[Statement]) -> Option<usize>
    ensures { MatchOption result
        (NoStatement (λ before s p. foreign (codes "sm_transition") (facts_of shape.now).moves (facts_of shape.now) s ≡ Some p) statements.now)
        (IsFirstStatement (λ before s p. foreign (codes "sm_transition") (facts_of shape.now).moves (facts_of shape.now) s ≡ Some p) statements.now) }
{
    first_flaw(
        &Pairs {
            shape,
            word: b"sm_transition",
            pairs: shape.moves,
        },
        statements,
    )
}

/// The place of the first recover step that isn't the service's.
pub fn foreign_recover(shape: &Shape, statements: &[Statement]) -> Option<usize>
    ensures { MatchOption result
        (NoStatement (λ before s p. foreign (codes "sm_recover") (facts_of shape.now).steps (facts_of shape.now) s ≡ Some p) statements.now)
        (IsFirstStatement (λ before s p. foreign (codes "sm_recover") (facts_of shape.now).steps (facts_of shape.now) s ≡ Some p) statements.now) }
{
    first_flaw(
        &Pairs {
            shape,
            word: b"sm_recover",
            pairs: shape.steps,
        },
        statements,
    )
}
