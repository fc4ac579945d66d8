// The first prototype of one of some functions.
ghost use Rattle.std.specs.Prelude.{◌≡◌, Some, MatchOption};
ghost use Rattle.sg_check_statements.specs.sg_facts.Facts.{facts_of};
ghost use Rattle.sg_check_statements.specs.Faults.{IsFirstStatement};
ghost use Rattle.sg_check_statements.specs.Inside.Pieces.{NoStatement};
ghost use Rattle.sg_check.specs.Inside.Numbers.{marked};

use crate::numbers::Numbers;
use sg_check_statements::{Judge, Shape, Statement, first_flaw, fun_number};

/// Looks for prototypes of functions whose numbers are in a set.
#[derive(Clone, Copy)]
pub struct Marked<'a> {
    pub shape: &'a Shape,
    pub numbers: &'a Numbers,
}

impl Judge for Marked<'_> {
    ghost flaw = { λ j s. marked (facts_of j.shape.now) j.numbers.now s };

    fn flaw_in(&self, statement: &Statement) -> Option<usize> {
        match statement {
            Statement::Proto { name, .. } => {
                let number = fun_number(self.shape, name.slice).unwrap_or(0);
                if self.numbers.has(number) {
                    Some(name.at)
                } else {
                    None
                }
            }
            _ => None,
        }
    }
}

/// The place of the first prototype of a function whose number is in a set.
pub fn first_proto_in(shape: &Shape, numbers: &Numbers, statements: &[Statement]) -> Option<usize>
    ensures { MatchOption result
        (NoStatement (λ before s p. marked (facts_of shape.now) numbers.now s ≡ Some p) statements.now)
        (IsFirstStatement (λ before s p. marked (facts_of shape.now) numbers.now s ≡ Some p) statements.now) }
{
    first_flaw(&Marked { shape, numbers }, statements)
}
