// The kinds of faults up to whether a text makes a descriptor at all, looked for in the order of `CheckKind`.
ghost use Rattle.std.specs.Prelude.{◌≡◌, ℕ, ◌≤◌, None, Some, IfOk, map};
ghost use Rattle.std.specs.Result.{MatchResult};
ghost use Rattle.sg_facts.specs.Facts.{facts_of};
ghost use Rattle.sg_check_statements.specs.declared.fault.CheckError.TheVariants.{Fault};
ghost use Rattle.sg_check_statements.specs.Faults.{kind_rank};
ghost use Rattle.sg_check_statements.specs.Inside.OneKind.{IsFirstPlace};
ghost use Rattle.sg_check_statements.specs.Stages.{IsClear, IsFirstFault};

use crate::effects::wrong_effect_in;
use crate::fault::{CheckError, CheckFault, CheckKind};
use crate::flags::wrong_flag_in;
use crate::heads::wrong_fact;
use crate::pairs::{foreign_recover, foreign_transition};
use crate::params::bad_params_in;
use crate::protos::duplicate_in;
use crate::services::{no_creation, service_in};
use crate::unknown::unknown_in;
use sg_facts::{NoMemory, Shape};
use sg_parse::Tree;
use std::alloc::Global;

// The kinds that are looked for in a text once its service is known, in their order.
static KINDS: [CheckKind; 9] = [
    CheckKind::DuplicateName,
    CheckKind::UnknownFunction,
    CheckKind::BadParams,
    CheckKind::WrongFact,
    CheckKind::WrongFlag,
    CheckKind::WrongEffect,
    CheckKind::ForeignTransition,
    CheckKind::ForeignRecover,
    CheckKind::NoCreation,
];

/// The service of a text, where some function makes a descriptor, and nothing of the kinds before is wrong with the text. Else
/// the error tells, of the first ten kinds that are wrong, the first in the order of `CheckKind`, at its first place.
pub fn fit_one_by_one<'a>(
    alloc: Global,
    services: &'a [Shape],
    tree: &Tree,
) -> Result<&'a Shape, CheckError>
    ensures { MatchResult result (λ s. IsClear (map facts_of services.now) tree.now (facts_of s.now) 10) (IsFirstFault (map facts_of services.now) tree.now) }
{
    let shape = service_of(services, tree)?;
    for kind in &KINDS {
        unless(*kind, first_of(*kind, alloc, shape, tree)?)?;
    }
    Ok(shape)
}

/// Whether a text goes on to the next kind: an error tells the place of a fault of this kind, where there is one.
pub fn unless(kind: CheckKind, fault: Option<usize>) -> Result<(), CheckError>
    ensures { MatchResult result (λ _. fault ≡ None)
        (λ error. (at : ℕ) × (fault ≡ Some at) × (error ≡ Fault (record { kind = kind; at = at }))) }
{
    match fault {
        None => Ok(()),
        Some(at) => Err(CheckError::Fault(CheckFault { kind, at })),
    }
}

// The service of a text's name.
fn service_of<'a>(services: &'a [Shape], tree: &Tree) -> Result<&'a Shape, CheckError>
    ensures { MatchResult result (λ s. IsClear (map facts_of services.now) tree.now (facts_of s.now) 1) (IsFirstFault (map facts_of services.now) tree.now) }
{
    let name = &tree.facts.service;
    match service_in(services, name.slice) {
        Some(shape) => Ok(shape),
        None => Err(CheckError::Fault(CheckFault {
            kind: CheckKind::UnknownService,
            at: name.at,
        })),
    }
}

// The place of the first fault of this kind, one of `KINDS`, where a text of this service has one.
fn first_of(
    kind: CheckKind,
    alloc: Global,
    shape: &Shape,
    tree: &Tree,
) -> Result<Option<usize>, NoMemory>
    requires first { 1 ≤ kind_rank kind }
    requires last { kind_rank kind ≤ 9 }
    ensures { IfOk result (IsFirstPlace tree.now (facts_of shape.now) kind) }
{
    let statements = tree.statements.as_slice();
    match kind {
        CheckKind::DuplicateName => duplicate_in(alloc, statements),
        CheckKind::UnknownFunction => unknown_in(alloc, shape, statements),
        CheckKind::BadParams => Ok(bad_params_in(shape, statements)),
        CheckKind::WrongFact => Ok(wrong_fact(shape, &tree.facts)),
        CheckKind::WrongFlag => Ok(wrong_flag_in(shape, statements)),
        CheckKind::WrongEffect => Ok(wrong_effect_in(shape, statements)),
        CheckKind::ForeignTransition => Ok(foreign_transition(shape, statements)),
        CheckKind::ForeignRecover => Ok(foreign_recover(shape, statements)),
        CheckKind::NoCreation => Ok(no_creation(shape, statements)),
        CheckKind::UnknownService | CheckKind::Unreached | CheckKind::NoWalk => unreachable!(),
    }
}
