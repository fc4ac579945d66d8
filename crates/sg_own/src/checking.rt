// Whether a text that describes a service of its own is accepted.
ghost use Rattle.std.specs.Prelude.{◌≡◌, ◌≤◌, None, Some, true, length, IfErr, IfOk, OnOk};
ghost use Rattle.std.specs.Result.{MatchResult};
ghost use Rattle.sg_describe.specs.sg_facts.Facts.{facts_of};
ghost use Rattle.sg_describe.specs.sg_facts.Limits.{most_funs};
ghost use Rattle.sg_check.specs.sg_check_statements.Faults.{IsAccepted};
ghost use Rattle.sg_describe.specs.sg_described.Described.{described_of};
ghost use Rattle.sg_describe.specs.sg_described.Safe.{IsSafe, is_plain};
ghost use Rattle.sg_describe.specs.sg_shape.Faults.{HasNoShapeFlaw};
ghost use Rattle.sg_describe.specs.sg_shape.ShapeOfText.{shape_of_text};
ghost use Rattle.sg_describe.specs.DescribedText.{described_of_text};
ghost use Rattle.sg_own.specs.declared.fault.OwnError.TheVariants.{Fault};
ghost use Rattle.sg_safe.specs.Reasons.{IsReason, unsafe_in};
ghost use Rattle.sg_own.specs.Faults.{IsDescription, external_in, external_place, itself};
ghost use Rattle.sg_own.specs.OwnErrors.{IsOwnError};
ghost use Rattle.sg_own.specs.OwnInterfaces.{IsOwnInterface};

use crate::fault::{OwnError, OwnFault, OwnKind};
use crate::places::{kind_of, reason_place};
use sg_check::{Accepted, CheckError, CheckFault, CheckKind, check};
use sg_describe::{
    AnswerError, Description, Shape, ShapeError, Statement, Tree, describe, proto_place, shape_of,
};
use sg_safe::{SafeError, Unsafe, safe};
use std::alloc::Global;

/// The interface of a text that describes a service of its own and is accepted, with what the text describes.
#[derive(Debug, Drop)]
pub struct OwnInterface {
    /// The interface.
    pub accepted: Accepted,
    /// What its service does. Its lists are kept to the end of the program.
    pub description: Description,
}

/// The interface that a text declares, with what it describes, where it describes a service of its own that is safe (`IsSafe`) and each state of
/// which has a walk; else what is first wrong with it, at its first place, and, where the service isn't safe, why. Where there is no memory for
/// the work, the error is `NoMemory`.
pub fn check_own(alloc: Global, tree: &Tree) -> Result<OwnInterface, OwnError>
    ensures answer { MatchResult result (IsOwnInterface tree.now) (IsOwnError tree.now) }
{
    let shape = own_shape(alloc, tree)?;
    let description = own_description(alloc, tree, &shape)?;
    own_safety(alloc, tree, &shape, &description)?;
    let accepted = own_walks(alloc, tree, shape)?;
    match external_place(tree) {
        Some(at) => Err(fault(OwnKind::Walks(CheckKind::NoWalk), at)),
        None => Ok(OwnInterface {
            accepted,
            description,
        }),
    }
}

// The shape of a text, or what is first wrong with it.
fn own_shape(alloc: Global, tree: &Tree) -> Result<Shape, OwnError>
    ensures shape { IfOk result (λ shape. facts_of shape ≡ shape_of_text tree.now) }
    ensures sound { OnOk result (HasNoShapeFlaw tree.now) }
    ensures few { IfOk result (λ shape. length (facts_of shape).funs ≤ most_funs) }
    ensures fault { IfErr result (IsOwnError tree.now) }
{
    match shape_of(alloc, tree) {
        Ok(shape) => Ok(shape),
        Err(ShapeError::NoMemory) => Err(OwnError::NoMemory),
        Err(ShapeError::Fault(found)) => Err(fault(OwnKind::Shape(found.kind), found.at)),
    }
}

// What a text of this shape describes, or what is first wrong with what it says of answers.
fn own_description(alloc: Global, tree: &Tree, shape: &Shape) -> Result<Description, OwnError>
    requires shape { facts_of shape.now ≡ shape_of_text tree.now }
    requires sound { HasNoShapeFlaw tree.now }
    ensures described { IfOk result (λ d. described_of d ≡ described_of_text tree.now) }
    ensures flawless { OnOk result (IsDescription tree.now) }
    ensures plain { IfOk result (λ d. is_plain (described_of d) ≡ true) }
    ensures fault { IfErr result (IsOwnError tree.now) }
{
    match describe(alloc, tree, shape) {
        Ok(description) => Ok(description),
        Err(AnswerError::NoMemory) => Err(OwnError::NoMemory),
        Err(AnswerError::Fault(found)) => Err(fault(OwnKind::Answers(found.kind), found.at)),
    }
}

// A text of this shape that describes this service: it is safe, or why it isn't.
fn own_safety(
    alloc: Global,
    tree: &Tree,
    shape: &Shape,
    description: &Description,
) -> Result<(), OwnError>
    requires shape { facts_of shape.now ≡ shape_of_text tree.now }
    requires described { described_of description.now ≡ described_of_text tree.now }
    requires flawless { IsDescription tree.now }
    requires plain { is_plain (described_of description.now) ≡ true }
    requires few { length (facts_of shape.now).funs ≤ most_funs }
    ensures { MatchResult result (λ _. IsSafe (described_of_text tree.now)) (IsOwnError tree.now) }
{
    match safe(alloc, description) {
        Ok(()) => Ok(()),
        Err(SafeError::NoMemory) => Err(OwnError::NoMemory),
        Err(SafeError::Unsafe(reason)) => Err(unsafe_error(tree, shape, reason)),
    }
}

// The error of a text of this shape whose service can't be recovered.
fn unsafe_error(tree: &Tree, shape: &Shape, reason: Unsafe) -> OwnError
    requires shape { facts_of shape.now ≡ shape_of_text tree.now }
    requires described { IsDescription tree.now }
    requires reason { IsReason (described_of_text tree.now) (unsafe_in (described_of_text tree.now)) reason }
    ensures { IsOwnError tree.now result }
{
    OwnError::Fault(OwnFault {
        kind: OwnKind::Safety(kind_of(&reason)),
        at: reason_place(shape, tree.statements.as_slice(), &reason),
        reason: Some(reason),
    })
}

// The interface that a text of this shape declares, whose service is safe, where each state has a walk; or what is wrong with that.
fn own_walks(alloc: Global, tree: &Tree, shape: Shape) -> Result<Accepted, OwnError>
    requires shape { facts_of shape ≡ shape_of_text tree.now }
    requires described { IsDescription tree.now }
    requires safe { IsSafe (described_of_text tree.now) }
    ensures { MatchResult result (IsAccepted (itself tree.now) tree.now) (IsOwnError tree.now) }
{
    match check(alloc, tree, &[shape]) {
        Ok(accepted) => Ok(accepted),
        Err(CheckError::NoMemory) => Err(OwnError::NoMemory),
        Err(CheckError::Fault(CheckFault { kind, at })) => Err(fault(OwnKind::Walks(kind), at)),
    }
}

// A fault of another kind than that the service can't be recovered.
fn fault(kind: OwnKind, at: usize) -> OwnError
    ensures { result ≡ Fault (record { kind = kind; at = at; reason = None }) }
{
    OwnError::Fault(OwnFault {
        kind,
        at,
        reason: None,
    })
}

// The prototype of the first function that a statement says does something outside that can't be done again.
fn external_place(tree: &Tree) -> Option<usize>
    ensures { result ≡ external_place tree.now }
{
    let statements = tree.statements.as_slice();
    'statements: for statement in statements {
        if let Some(at) = external_in(statements, statement) {
            return Some(at);
        }
    }
    None
}

// The prototype of the function of which a statement says that.
fn external_in(statements: &[Statement], statement: &Statement) -> Option<usize>
    ensures { result ≡ external_in statements.now statement.now }
{
    match statement {
        Statement::External { fun } => proto_place(statements, fun.slice),
        _ => None,
    }
}
