// Whether a text is accepted.
ghost use Rattle.std.specs.Prelude.{◌≡◌, ℕ, true, map, OnOk};
ghost use Rattle.std.specs.Result.{MatchResult};
ghost use Rattle.sg_check_statements.specs.sg_facts.Facts.{facts_of};
ghost use Rattle.sg_check_statements.specs.sg_facts.Interface.{HasFewFields};
ghost use Rattle.sg_check_statements.specs.Faults.{IsAccepted, IsFault};
ghost use Rattle.sg_check_statements.specs.Stages.{IsFirstFault};
ghost use Rattle.sg_check_statements.specs.declared.fault.CheckKind.{CheckKind as Kind};
ghost use Rattle.sg_check.specs.Inside.Answers.{IsThisFault};
ghost use Rattle.sg_check.specs.Inside.Reached.{AreTriples};
ghost use Rattle.sg_check.specs.Inside.Candidates.{HasReach, HasWalks, IsCandidate, IsStageOf};
ghost use Rattle.sg_check_statements.specs.Shapes.{are_shapes};

use crate::accepted::Accepted;
use crate::candidate::Candidate;
use crate::declared::interface_of;
use crate::protos::first_proto_in;
use crate::reached::unreached_of;
use crate::stuck::stuck_of;
use sg_check_statements::{CheckError, CheckKind, Shape, Tree, fit_one_by_one, unless};
use sg_walk::reachable;
use std::alloc::Global;

/// The interface that a text declares of one of these shapes, where nothing is wrong with it; else, of the kinds that are,
/// the first in the order of `CheckKind`, at its first place in the text. A shape has at most `MOST_FUNS` functions and `MOST_FIELDS` fields, its
/// numbers name its own functions, and no two of its functions have one name. Where there is no memory for the work, the error
/// is `NoMemory`.
pub fn check(alloc: Global, tree: &Tree, shapes: &[Shape]) -> Result<Accepted, CheckError>
    requires { are_shapes (map facts_of shapes.now) ≡ true }
    // An error tells what is first wrong.
    ensures answer { MatchResult result (IsAccepted (map facts_of shapes.now) tree.now) (IsFirstFault (map facts_of shapes.now) tree.now) }
    // Where something is wrong, the error tells that, or there is no memory.
    ensures fault { (kind : Kind) (at : ℕ) → IsFault (map facts_of shapes.now) tree.now kind at
        → MatchResult result (λ a. ⊥) (IsThisFault kind at) }
{
    accept(alloc, shapes, tree)
}

// The interface that a text declares, stage by stage: the faults of its statements, then functions that no descriptor can
// reach, then states without a walk.
fn accept(alloc: Global, shapes: &[Shape], tree: &Tree) -> Result<Accepted, CheckError>
    requires { are_shapes (map facts_of shapes.now) ≡ true }
    ensures { MatchResult result (IsAccepted (map facts_of shapes.now) tree.now) (IsFirstFault (map facts_of shapes.now) tree.now) }
{
    let candidate = candidate_of(alloc, shapes, tree)?;
    funs_reached(alloc, &candidate, tree)?;
    walks_fit(alloc, &candidate, tree)?;
    Ok(Accepted::new(candidate.iface))
}

// What a text declares of its service, with all that descriptors can come to, where none of the first ten kinds of faults is
// there.
fn candidate_of(alloc: Global, shapes: &[Shape], tree: &Tree) -> Result<Candidate, CheckError>
    requires { are_shapes (map facts_of shapes.now) ≡ true }
    ensures { MatchResult result (λ c. IsCandidate (map facts_of shapes.now) tree.now c 10) (IsFirstFault (map facts_of shapes.now) tree.now) }
{
    let shape = fit_one_by_one(alloc, shapes, tree)?;
    let iface = interface_of(alloc, shape, tree)?;
    let triples = reachable(alloc, &iface)?;
    Ok(Candidate {
        shape: *shape,
        iface,
        triples,
    })
}

// Each function that is declared can be reached.
fn funs_reached(alloc: Global, candidate: &Candidate, tree: &Tree) -> Result<(), CheckError>
    requires triples { AreTriples candidate.now.iface candidate.now.triples }
    ensures stage { IsStageOf tree.now candidate.now 10 result }
    ensures known { OnOk result (HasReach candidate.now.iface) }
{
    let unreached = unreached_of(alloc, &candidate.iface, candidate.triples.as_slice())?;
    let fault = first_proto_in(&candidate.shape, &unreached, tree.statements.as_slice());
    unless(CheckKind::Unreached, fault)
}

// Each state that descriptors can come to has its walks.
fn walks_fit(alloc: Global, candidate: &Candidate, tree: &Tree) -> Result<(), CheckError>
    requires few { HasFewFields candidate.now.iface }
    requires triples { AreTriples candidate.now.iface candidate.now.triples }
    ensures stage { IsStageOf tree.now candidate.now 11 result }
    ensures known { OnOk result (HasWalks candidate.now.iface) }
{
    let stuck = stuck_of(alloc, &candidate.iface, candidate.triples.as_slice())?;
    let fault = first_proto_in(&candidate.shape, &stuck, tree.statements.as_slice());
    unless(CheckKind::NoWalk, fault)
}
