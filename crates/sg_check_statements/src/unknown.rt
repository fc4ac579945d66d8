// Whether the functions that statements name are declared, and those that are declared the service's.
ghost use Rattle.std.specs.Prelude.{◌≡◌, ◌&&◌, not, Some, IfOk, MatchOption, codes};
ghost use Rattle.sg_check_statements.specs.Faults.{IsFirstStatement};
ghost use Rattle.sg_check_statements.specs.Inside.Pieces.{NoStatement, unknown};
ghost use Rattle.sg_facts.specs.Facts.{facts_of};
ghost use Rattle.std.specs.Bool.{then_some};
ghost use Rattle.sg_check_statements.specs.Says.{has_proto, names_two};

use crate::funs::fun_number;
use crate::judge::{Judge, first_flaw};
use crate::protos::Protos;
use sg_facts::{NoMemory, Shape};
use sg_parse::{Spelled, Statement};
use std::alloc::Global;

/// Looks for names of functions that have no prototype, and for prototypes of functions that the service hasn't.
#[derive(Clone, Copy)]
pub struct Unknown<'p, 's, 'a> {
    pub shape: &'p Shape,
    pub protos: &'p Protos<'s, 'a>,
}

impl Judge for Unknown<'_, '_, '_> {
    ghost flaw = { λ j s. unknown (facts_of j.shape.now) j.protos.now s };

    fn flaw_in(&self, statement: &Statement) -> Option<usize> {
        match statement {
            Statement::One { fun, .. } => bare(self.protos, fun),
            Statement::Two {
                word,
                first,
                second,
            } => bare(self.protos, first).or(bare_second(self.protos, word.slice, second)),
            Statement::Proto { name, .. } => match fun_number(self.shape, name.slice) {
                Some(_) => None,
                None => Some(name.at),
            },
            _ => None,
        }
    }
}

/// The place of the name of a function that has no prototype.
pub fn bare(protos: &Protos, name: &Spelled) -> Option<usize>
    ensures { result ≡ then_some (not (has_proto protos.now name.now.bytes)) name.now.at }
{
    if protos.has(name.slice) {
        None
    } else {
        Some(name.at)
    }
}

/// The place of a second name, where a word says that this is a function's, and the function has no prototype.
pub fn bare_second(protos: &Protos, word: &[u8], name: &Spelled) -> Option<usize>
    ensures { result ≡ then_some (names_two word.now && not (has_proto protos.now name.now.bytes)) name.now.at }
{
    if names_two(word) {
        bare(protos, name)
    } else {
        None
    }
}

// Whether a word says that its second name is a function's.
fn names_two(word: &[u8]) -> bool
    ensures { result ≡ names_two word.now }
{
    word == b"sm_state".as_slice()
        || word == b"sm_transition".as_slice()
        || word == b"sm_recover".as_slice()
}

/// The place of the first name of a function that has no prototype, or prototype of a function that the service hasn't.
pub fn unknown_in(
    alloc: Global,
    shape: &Shape,
    statements: &[Statement],
) -> Result<Option<usize>, NoMemory>
    ensures { IfOk result (λ r. MatchOption r
        (NoStatement (λ before s p. unknown (facts_of shape.now) statements.now s ≡ Some p) statements.now)
        (IsFirstStatement (λ before s p. unknown (facts_of shape.now) statements.now s ≡ Some p) statements.now)) }
{
    let protos = Protos::of(alloc, statements)?;
    Ok(first_flaw(
        &Unknown {
            shape,
            protos: &protos,
        },
        statements,
    ))
}
