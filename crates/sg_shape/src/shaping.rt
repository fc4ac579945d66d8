// The shape of a text, or what is first wrong with it.
ghost use Rattle.std.specs.Prelude.{◌≡◌, ℕ, ◌<◌, ◌≤◌, List, None, Some, true, length, nat_lt, find, slice_get, All, IfErr, IfOk, OnOk};
ghost use Rattle.std.specs.Option.{option_map};
ghost use Rattle.std.specs.Result.{MatchResult};
ghost use Rattle.sg_check_statements.specs.sg_facts.Allowed.{is_allowed};
ghost use Rattle.sg_check_statements.specs.sg_facts.Facts.{facts_of};
ghost use Rattle.sg_check_statements.specs.sg_facts.Limits.{most_fields, most_funs};
ghost use Rattle.sg_check_statements.specs.Shapes.{is_shape};
ghost use Rattle.sg_check_statements.specs.sg_parse.declared.tree.Statement.{Statement as One};
ghost use Rattle.sg_shape.specs.declared.fault.ShapeError.TheVariants.{Fault};
ghost use Rattle.sg_shape.specs.declared.fault.ShapeFaultKind.TheVariants.{Limit as limit};
ghost use Rattle.sg_shape.specs.Faults.{HasNoShapeFlaw, IsFirstShapeError, place_of};
ghost use Rattle.sg_shape.specs.Fields.{first_uses, uses_of};
ghost use Rattle.sg_shape.specs.Flaws.{limit_place};
ghost use Rattle.sg_shape.specs.Limits.{most_params};
ghost use Rattle.sg_shape.specs.Prototypes.{protos_of};
ghost use Rattle.sg_shape.specs.ShapeOfText.{shape_of_text};

use crate::fault::{ShapeError, ShapeFault, ShapeFaultKind};
use crate::fields::fields_of;
use crate::flaws::place_of;
use crate::limits::MOST_PARAMS;
use crate::making::made;
use crate::protos::{Proto, protos_of};
use crate::rules::first_extra_rule;
use crate::uses::{FieldUse, uses_of};
use sg_check_statements::{MOST_FUNS, Shape, Tree};
use std::alloc::Global;

// The kinds that are looked for in a text within the limits, in their order.
static KINDS: [ShapeFaultKind; 20] = [
    ShapeFaultKind::DuplicateName,
    ShapeFaultKind::UnknownFunction,
    ShapeFaultKind::BadParams,
    ShapeFaultKind::MixedField,
    ShapeFaultKind::TwoEffects,
    ShapeFaultKind::Contradiction,
    ShapeFaultKind::PrivateLooksAround,
    ShapeFaultKind::QueryTakes,
    ShapeFaultKind::FileWithoutDesc,
    ShapeFaultKind::TextChanged,
    ShapeFaultKind::BlocksOrMakes,
    ShapeFaultKind::StateOfOther,
    ShapeFaultKind::MakesOn,
    ShapeFaultKind::ActsOnNone,
    ShapeFaultKind::NoParents,
    ShapeFaultKind::ReplayWrites,
    ShapeFaultKind::ArgumentLost,
    ShapeFaultKind::ReplayUnknown,
    ShapeFaultKind::RecoverMakes,
    ShapeFaultKind::WrongFact,
];

/// The shape that a text declares by itself, where nothing is wrong with the text; else, of the kinds that are, the first in the order of
/// `ShapeFaultKind`, at its first place in the text. Where there is no memory for the work, the error is `NoMemory`. The shape's lists are kept
/// to the end of the program.
pub fn shape_of(alloc: Global, tree: &Tree) -> Result<Shape, ShapeError>
    ensures shape { IfOk result (λ shape. facts_of shape ≡ shape_of_text tree.now) }
    ensures flawless { OnOk result (HasNoShapeFlaw tree.now) }
    ensures fits { IfOk result (λ shape. is_shape (facts_of shape) ≡ true) }
    ensures allowed { IfOk result (λ shape. is_allowed (facts_of shape) ≡ true) }
    ensures fault { IfErr result (IsFirstShapeError tree.now) }
{
    let statements = tree.statements.as_slice();
    let protos = protos_of(alloc, statements)?;
    let uses = uses_of(alloc, statements, protos.as_slice())?;
    shape_with(alloc, tree, protos.as_slice(), uses.as_slice())
}

// The shape of a text with these prototypes and uses of fields, or what is first wrong with it.
fn shape_with<'a>(
    alloc: Global,
    tree: &Tree<'a>,
    protos: &[Proto<'_, 'a>],
    uses: &[FieldUse],
) -> Result<Shape, ShapeError>
    requires protos { protos.now ≡ protos_of tree.now.statements }
    requires uses { uses.now ≡ uses_of tree.now.statements }
    ensures { MatchResult result (λ shape. (facts_of shape ≡ shape_of_text tree.now) × HasNoShapeFlaw tree.now) (IsFirstShapeError tree.now) }
{
    let fields = fields_of(alloc, uses)?;
    within_limits(tree, protos, fields.next)?;
    let shape = made(alloc, tree, protos, fields.first.as_slice())?;
    flawless(alloc, tree, protos, uses, &shape)?;
    Ok(shape)
}

// Whether a text goes on to the next kind: an error tells the place of a flaw of this kind, where there is one.
fn unless(kind: ShapeFaultKind, place: Option<usize>) -> Result<(), ShapeError>
    ensures { MatchResult result (λ _. place ≡ None)
        (λ error. (at : ℕ) × (place ≡ Some at) × (error ≡ Fault (record { kind = kind; at = at }))) }
{
    match place {
        None => Ok(()),
        Some(at) => Err(ShapeError::Fault(ShapeFault { kind, at })),
    }
}

// A text with these prototypes is within the limits; the place is that of the first use of the first field past them.
#[tactic(auto, unfolding(crate::specs::Faults::place_of))]
fn within_limits(tree: &Tree, protos: &[Proto], next: Option<usize>) -> Result<(), ShapeError>
    requires protos { protos.now ≡ protos_of tree.now.statements }
    requires next { next ≡ option_map (λ u. u.name.at) (slice_get (first_uses (uses_of tree.now.statements)) most_fields) }
    ensures { MatchResult result (λ _. place_of tree.now limit ≡ None) (IsFirstShapeError tree.now) }
{
    let statements = tree.statements.as_slice();
    unless(
        ShapeFaultKind::Limit,
        extra_proto(protos).or(first_long(protos).or(next.or(first_extra_rule(statements)))),
    )
}

// The place of the first prototype past the greatest number of functions.
fn extra_proto(protos: &[Proto]) -> Option<usize>
    ensures { result ≡ option_map (λ p. p.name.at) (slice_get protos.now most_funs) }
{
    match protos.get(usize::from(MOST_FUNS)) {
        Some(proto) => Some(proto.at()),
        None => None,
    }
}

// The place of the first prototype of more than the greatest number of parameters.
fn first_long(protos: &[Proto]) -> Option<usize>
    ensures { result ≡ option_map (λ p. p.name.at) (find (λ p. nat_lt most_params (length p.params)) protos.now) }
{
    'protos: for proto in protos {
        if is_long(proto) {
            return Some(proto.at());
        }
    }
    None
}

// Whether a prototype has more than the greatest number of parameters.
fn is_long(proto: &Proto) -> bool
    ensures { result ≡ nat_lt most_params (length proto.now.params) }
{
    proto.params().len() > MOST_PARAMS
}

// Nothing of the other kinds is wrong with a text within the limits: one of this shape, with these prototypes and uses of fields.
fn flawless<'a>(
    alloc: Global,
    tree: &Tree<'a>,
    protos: &[Proto<'_, 'a>],
    uses: &[FieldUse],
    shape: &Shape,
) -> Result<(), ShapeError>
    requires limit { place_of tree.now limit ≡ None }
    requires protos { protos.now ≡ protos_of tree.now.statements }
    requires few_params { All (λ p. length p.params ≤ most_params) protos.now }
    requires uses { uses.now ≡ uses_of tree.now.statements }
    requires shape { facts_of shape.now ≡ shape_of_text tree.now }
    ensures { MatchResult result (λ _. HasNoShapeFlaw tree.now) (IsFirstShapeError tree.now) }
{
    for kind in &KINDS {
        unless(*kind, place_of(*kind, alloc, tree, protos, uses, shape)?)?;
    }
    Ok(())
}
