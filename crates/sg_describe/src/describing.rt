// What a text describes, or what is first wrong with what it says of answers.
ghost use Rattle.std.specs.Prelude.{◌≡◌, ℕ, None, Some, true, IfErr, IfOk, OnOk};
ghost use Rattle.std.specs.Result.{MatchResult};
ghost use Rattle.sg_shape.specs.sg_facts.Facts.{facts_of};
ghost use Rattle.sg_shape.specs.Faults.{HasNoShapeFlaw};
ghost use Rattle.sg_shape.specs.ShapeOfText.{shape_of_text};
ghost use Rattle.sg_described.specs.Described.{described_of};
ghost use Rattle.sg_described.specs.Safe.{is_plain};
ghost use Rattle.sg_describe.specs.declared.fault.AnswerError.TheVariants.{Fault};
ghost use Rattle.sg_describe.specs.AnswerFaults.{HasNoAnswerFlaw, IsFirstAnswerError};
ghost use Rattle.sg_describe.specs.DescribedText.{described_of_text};
ghost use Rattle.sg_describe.specs.Inside.Parts.{HasFewNames};

use crate::fault::{AnswerError, AnswerFault, AnswerFaultKind};
use crate::flaws::flaw_of;
use crate::making::described;
use sg_described::Description;
use sg_shape::{Shape, Tree};
use std::alloc::Global;

// The kinds in the order in which they are looked for.
static KINDS: [AnswerFaultKind; 12] = [
    AnswerFaultKind::NotYet,
    AnswerFaultKind::UnknownField,
    AnswerFaultKind::UnknownCode,
    AnswerFaultKind::GuardsCode,
    AnswerFaultKind::NoArgument,
    AnswerFaultKind::TooBig,
    AnswerFaultKind::TwoAnswers,
    AnswerFaultKind::TwoLimits,
    AnswerFaultKind::MayNotBlock,
    AnswerFaultKind::NoWord,
    AnswerFaultKind::EndsWithWord,
    AnswerFaultKind::NotExternal,
];

/// What a text with which nothing is wrong by itself describes, where nothing is wrong with what it says of answers; else, of the kinds that are,
/// the first in the order of `AnswerFaultKind`, at its first place. The shape is the text's. Where there is no memory for the work, the error is
/// `NoMemory`. The description's lists are kept to the end of the program.
pub fn describe(alloc: Global, tree: &Tree, shape: &Shape) -> Result<Description, AnswerError>
    requires shape { facts_of shape.now ≡ shape_of_text tree.now }
    requires sound { HasNoShapeFlaw tree.now }
    ensures described { IfOk result (λ d. described_of d ≡ described_of_text tree.now) }
    ensures flawless { OnOk result (HasNoAnswerFlaw tree.now) }
    // So the laws of a service hold of it where it is safe.
    ensures plain { IfOk result (λ d. is_plain (described_of d) ≡ true) }
    ensures fault { IfErr result (IsFirstAnswerError tree.now) }
{
    flawless(tree, shape)?;
    Ok(described(alloc, tree.statements.as_slice(), shape)?)
}

// Nothing is wrong with what a text of this shape says of answers.
fn flawless(tree: &Tree, shape: &Shape) -> Result<(), AnswerError>
    requires shape { facts_of shape.now ≡ shape_of_text tree.now }
    requires few { HasFewNames (facts_of shape.now) }
    ensures { MatchResult result (λ _. HasNoAnswerFlaw tree.now) (IsFirstAnswerError tree.now) }
{
    for kind in &KINDS {
        unless(*kind, flaw_of(*kind, shape, tree))?;
    }
    Ok(())
}

// Whether a text goes on to the next kind: an error tells the place of a flaw of this kind, where there is one.
fn unless(kind: AnswerFaultKind, place: Option<usize>) -> Result<(), AnswerError>
    ensures { MatchResult result (λ _. place ≡ None)
        (λ error. (at : ℕ) × (place ≡ Some at) × (error ≡ Fault (record { kind = kind; at = at }))) }
{
    match place {
        None => Ok(()),
        Some(at) => Err(AnswerError::Fault(AnswerFault { kind, at })),
    }
}
