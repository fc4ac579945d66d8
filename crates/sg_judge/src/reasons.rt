// What is told besides of what is first wrong with a text.
ghost use Rattle.std.specs.Prelude.{◌≡◌, ◌+◌, ◌^◌, ◌<◌, ◌++◌, OnOk, IfOk, IfErr, length};
ghost use Rattle.std.specs.List.{flat_map};
ghost use Rattle.sg_explain.specs.sg_facts.Facts.{Facts, facts_of};
ghost use Rattle.sg_own.specs.Faults.{IsDescription};
ghost use Rattle.sg_own.specs.OwnErrors.{IsToldFault};
ghost use Rattle.sg_own.specs.sg_shape.Faults.{HasNoShapeFlaw};
ghost use Rattle.sg_own.specs.sg_shape.ShapeOfText.{shape_of_text};
ghost use Rattle.sg_own.specs.sg_check_statements.Shapes.{is_shape};
ghost use Rattle.sg_judge.specs.Inside.Told.{TellsMore, TellsWalkMore};
ghost use Rattle.sg_judge.specs.ReasonLines.{bounds_words, call_line, field_name, fields_words, obstacle_words, reason_line, walk_words};
ghost use Rattle.sg_own.specs.declared.fault.OwnKind.TheVariants.{Walks};
ghost use Rattle.sg_own.specs.sg_check_statements.declared.fault.CheckKind.TheVariants.{NoWalk};
ghost use Rattle.sg_own.specs.Faults.{IsOwnFault};

use sg_explain::{Bytes, NoMemory, Shape, Tree, put, put_names, put_stuck};
use sg_own::{
    Bounds, CheckError, CheckKind, FailingCall, KnownField, Obstacle, OwnFault, OwnKind,
    ShapeError, Unsafe, check, shape_of,
};
use std::alloc::Global;

/// Adds what is told besides of the first fault of a text.
pub(crate) fn put_more(
    out: &mut Bytes,
    alloc: Global,
    tree: &Tree,
    fault: &OwnFault,
) -> Result<(), NoMemory>
    requires { IsToldFault tree.now fault.now }
    ensures { OnOk result (TellsMore tree.now fault.now.kind fault.now.at out.old out.new) }
{
    match (fault.kind, &fault.reason) {
        (OwnKind::Safety(_), Some(reason)) => {
            let shape = own_shape(alloc, tree)?;
            put_reason(out, alloc, &shape, reason)
        }
        (OwnKind::Walks(CheckKind::NoWalk), _) => put_walk_more(out, alloc, tree, fault.at),
        _ => Ok(()),
    }
}

// The shape of a text with which nothing is wrong by itself.
fn own_shape(alloc: Global, tree: &Tree) -> Result<Shape, NoMemory>
    requires { HasNoShapeFlaw tree.now }
    ensures { IfOk result (λ shape. facts_of shape ≡ shape_of_text tree.now) }
{
    match shape_of(alloc, tree) {
        Ok(shape) => Ok(shape),
        Err(ShapeError::NoMemory) => Err(NoMemory),
        Err(ShapeError::Fault(_)) => unreachable!(),
    }
}

// Adds what is told besides of a state without a walk.
fn put_walk_more(out: &mut Bytes, alloc: Global, tree: &Tree, at: usize) -> Result<(), NoMemory>
    requires { IsOwnFault tree.now (Walks NoWalk) at }
    ensures { OnOk result (TellsWalkMore tree.now at out.old out.new) }
{
    let shape = own_shape(alloc, tree)?;
    match check(alloc, tree, &[shape]) {
        Ok(_) => put(out, &[b"it is sm_external: no walk begins with it\n"]),
        Err(CheckError::NoMemory) => Err(NoMemory),
        Err(CheckError::Fault(_)) => put_stuck(out, alloc, tree, at, &[shape]),
    }
}

// Adds the line of a reason.
fn put_reason(
    out: &mut Bytes,
    alloc: Global,
    shape: &Shape,
    reason: &Unsafe,
) -> Result<(), NoMemory>
    ensures { OnOk result (out.new ≡ out.old ++ reason_line (facts_of shape.now) reason.now) }
{
    match reason {
        Unsafe::CountsFar { field } | Unsafe::Recounts { field, .. } => {
            put(out, &[b"the field is ", field_name(shape, *field), b"\n"])
        }
        Unsafe::Overtaken { by, .. } => put(
            out,
            &[b"it may be let pass by ", shape.fun(*by).name, b"\n"],
        ),
        Unsafe::Fails { walk, call } => put_call(out, alloc, shape, walk.as_slice(), call),
    }
}

// Adds where a replayed call may fail.
fn put_call(
    out: &mut Bytes,
    alloc: Global,
    shape: &Shape,
    walk: &[u8],
    call: &FailingCall,
) -> Result<(), NoMemory>
    ensures { OnOk result (out.new ≡ out.old ++ call_line (facts_of shape.now) walk.now call.now) }
{
    put(out, &[b"replay of ", shape.fun(call.fun).name, b" after"])?;
    put_walk(out, shape, walk)?;
    put_fields(out, alloc, shape, 0, call.spot.fields.as_slice())?;
    put_obstacle(out, shape, call.obstacle)?;
    put(out, &[b"\n"])
}

// Adds the calls of a walk, or that there are none.
fn put_walk(out: &mut Bytes, shape: &Shape, walk: &[u8]) -> Result<(), NoMemory>
    ensures { OnOk result (out.new ≡ out.old ++ walk_words (facts_of shape.now) walk.now) }
{
    if walk.is_empty() {
        put(out, &[b" no call"])
    } else {
        put_names(out, shape, walk)
    }
}

// Adds what is known of fields, which are numbered from a number on.
fn put_fields(
    out: &mut Bytes,
    alloc: Global,
    shape: &Shape,
    first: usize,
    fields: &[KnownField],
) -> Result<(), NoMemory>
    requires { first + length fields.now < 2 ^ 64 }
    ensures { OnOk result (out.new ≡ out.old ++ fields_words (facts_of shape.now) first fields.now) }
{
    match fields {
        [] => Ok(()),
        [field, rest @ ..] => {
            put(out, &[b"; ", name_of(shape, first)])?;
            put_bounds(out, alloc, field.bounds)?;
            put_fields(out, alloc, shape, first + 1, rest)
        }
    }
}

// Adds the numbers that a field can have.
fn put_bounds(out: &mut Bytes, alloc: Global, bounds: Bounds) -> Result<(), NoMemory>
    ensures { OnOk result (out.new ≡ out.old ++ bounds_words bounds) }
{
    let least = bounds.least;
    let most = bounds.most;
    if least == most {
        let said = format!(in alloc; " {least}")?;
        return out.extend_from_slice(said.as_bytes());
    }
    let said = format!(in alloc; " {least} to {most}")?;
    out.extend_from_slice(said.as_bytes())
}

// Adds the field that a replayed call fails by.
fn put_obstacle(out: &mut Bytes, shape: &Shape, obstacle: Obstacle) -> Result<(), NoMemory>
    ensures { OnOk result (out.new ≡ out.old ++ obstacle_words (facts_of shape.now) obstacle) }
{
    match obstacle {
        Obstacle::ByRule { .. } => Ok(()),
        Obstacle::NoClient { field } => {
            put(out, &[b"; the client would be ", field_name(shape, field)])
        }
        Obstacle::PastMost { field } => put(out, &[b"; the field is ", field_name(shape, field)]),
    }
}

// The name of the field of a number.
fn field_name(shape: &Shape, field: u8) -> &'static [u8]
    ensures { result.now ≡ field_name (facts_of shape.now) field }
{
    name_of(shape, usize::from(field))
}

// The same by a number of any size.
fn name_of(shape: &Shape, field: usize) -> &'static [u8]
    ensures { result.now ≡ field_name (facts_of shape.now) field }
{
    match shape.fields.get(field) {
        Some(field) => field.name,
        None => &[],
    }
}
