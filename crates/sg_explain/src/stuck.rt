// What a descriptor can come to in a state, and no walk restores.
ghost use Rattle.std.specs.Prelude.{◌≡◌, ◌==◌, ◌&&◌, ◌||◌, ◌++◌, nat_le, nat_lt, ℕ, List, true, map, Some, IfOk, OnOk};
ghost use Rattle.std.specs.List.{Contains};
ghost use Rattle.std.specs.Option.{option_copied, option_map};
ghost use Rattle.sg_input.specs.sg_facts.Facts.{facts_of};
ghost use Rattle.sg_input.specs.sg_facts.Interface.{Declared, HasFewFields};
ghost use Rattle.sg_input.specs.sg_check.Inside.Reached.{AreTriples};
ghost use Rattle.sg_input.specs.sg_check_statements.Shapes.{are_shapes};
ghost use Rattle.sg_input.specs.sg_check_statements.Faults.{IsFault};
ghost use Rattle.sg_input.specs.sg_check_statements.Flaws.{HasNoWalk, IsProtoWhere};
ghost use Rattle.sg_input.specs.sg_check_statements.Says.{service_of};
ghost use Rattle.sg_input.specs.sg_check_statements.declared.fault.CheckKind.TheVariants.{NoWalk as no_walk};
ghost use Rattle.sg_input.specs.sg_parse.declared.tree.Statement.{Statement as Written};
ghost use Rattle.sg_input.specs.sg_walk.LeastWalks.{AreLeastWalks};
ghost use Rattle.sg_input.specs.sg_walk.ReachedStates.Triples.{IsReachedTriple};
ghost use Rattle.sg_explain.specs.Stuck.{IsFirstStuck, IsStuckLine};
ghost use Rattle.sg_explain.specs.Inside.Pieces.{stuck_line};
ghost use Rattle.sg_explain.specs.Inside.Search.{GoesOn, IsFoundAt, IsFoundIn, TellsStuck, TellsStuckIn, earlier, proto_at};

use crate::parts::put;
use crate::rebuilt::put_come_to;
use sg_input::{
    Bytes, Interface, NoMemory, Shape, Statement, Tree, Triple, Walks, fun_number, interface_of,
    reachable,
};
use std::alloc::Global;

/// Adds the line of the first of what a descriptor can come to in a state that no walk restores, where a text is refused for that state at
/// this place.
pub fn put_stuck(
    out: &mut Bytes,
    alloc: Global,
    tree: &Tree,
    at: usize,
    shapes: &[Shape],
) -> Result<(), NoMemory>
    requires shapes { are_shapes (map facts_of shapes.now) ≡ true }
    requires fault { IsFault (map facts_of shapes.now) tree.now no_walk at }
    ensures { OnOk result ((line : List ℕ) × IsStuckLine (map facts_of shapes.now) tree.now at line × (out.new ≡ out.old ++ line)) }
{
    match shape_of(shapes, tree) {
        Some(shape) => put_stuck_of(out, alloc, shape, tree, at, shapes),
        None => unreachable!(),
    }
}

// The same for a text of the service that has this shape.
fn put_stuck_of(
    out: &mut Bytes,
    alloc: Global,
    shape: &Shape,
    tree: &Tree,
    at: usize,
    shapes: &[Shape],
) -> Result<(), NoMemory>
    requires shapes { are_shapes (map facts_of shapes.now) ≡ true }
    requires service { service_of (map facts_of shapes.now) tree.now.facts.service.bytes ≡ Some (facts_of shape.now) }
    requires fault { IsFault (map facts_of shapes.now) tree.now no_walk at }
    ensures { OnOk result ((line : List ℕ) × IsStuckLine (map facts_of shapes.now) tree.now at line × (out.new ≡ out.old ++ line)) }
{
    let iface = interface_of(alloc, shape, tree)?;
    let triples = reachable(alloc, &iface)?;
    let triple = stuck_at(
        alloc,
        &iface,
        triples.as_slice(),
        tree.statements.as_slice(),
        at,
    )?;
    put_stuck_line(out, shape, triple)
}

// Adds the line of what no walk restores.
fn put_stuck_line(out: &mut Bytes, shape: &Shape, triple: Triple) -> Result<(), NoMemory>
    ensures { OnOk result (out.new ≡ out.old ++ stuck_line (facts_of shape.now) triple) }
{
    put_come_to(out, shape, triple.made, triple.state, triple.mask)?;
    put(out, &[b"no walk of at most 8 calls rebuilds it\n"])
}

// The shape of the service that a text names.
fn shape_of<'a>(shapes: &'a [Shape], tree: &Tree) -> Option<&'a Shape>
    ensures { option_map (λ s. facts_of s) (option_copied result) ≡ service_of (map facts_of shapes.now) tree.now.facts.service.bytes }
{
    shape_named(shapes, tree.facts.service.slice)
}

// The first of these shapes that has a name.
fn shape_named<'a>(shapes: &'a [Shape], name: &[u8]) -> Option<&'a Shape>
    ensures { option_map (λ s. facts_of s) (option_copied result) ≡ service_of (map facts_of shapes.now) name.now }
{
    match shapes {
        [] => None,
        [shape, ..] if shape.name == name => Some(shape),
        [_, rest @ ..] => shape_named(rest, name),
    }
}

// The first of what descriptors can come to that no walk restores, in the state whose prototype stands at a place; these triples are all
// that descriptors can come to.
fn stuck_at(
    alloc: Global,
    iface: &Interface,
    triples: &[Triple],
    statements: &[Statement],
    at: usize,
) -> Result<Triple, NoMemory>
    requires few { HasFewFields iface.now }
    requires triples { AreTriples iface.now triples.now }
    requires there { (proto : Written) × Contains statements.now proto × IsProtoWhere iface.now.facts (HasNoWalk iface.now) proto at }
    ensures { IfOk result (λ t. (proto : Written) × Contains statements.now proto × IsProtoWhere iface.now.facts (λ n. IsFirstStuck iface.now n t) proto at) }
{
    'statements: for statement in statements {
        let found = stuck_in(alloc, iface, triples, statement, at)?;
        match found {
            Some(triple) => return Ok(triple),
            None => {}
        }
    }
    unreachable!()
}

// The first of what descriptors can come to that no walk restores, in the state of a statement, where this is a prototype at a place.
fn stuck_in(
    alloc: Global,
    iface: &Interface,
    triples: &[Triple],
    statement: &Statement,
    at: usize,
) -> Result<Option<Triple>, NoMemory>
    requires few { HasFewFields iface.now }
    requires triples { AreTriples iface.now triples.now }
    ensures { IfOk result (IsFoundIn iface.now statement.now at) }
{
    match proto_at(&iface.shape, statement, at) {
        Some(state) => first_stuck(alloc, iface, triples, state),
        None => Ok(None),
    }
}

// The number of the function whose prototype stands at a place, 0 where the service hasn't the function; None where the statement is none
// at this place.
fn proto_at(shape: &Shape, statement: &Statement, at: usize) -> Option<usize>
    ensures { result ≡ proto_at (facts_of shape.now) statement.now at }
{
    match statement {
        Statement::Proto { name, .. } => {
            if name.at == at {
                Some(fun_number(shape, name.slice).unwrap_or(0))
            } else {
                None
            }
        }
        _ => None,
    }
}

// The first in a state of these triples, which are all that descriptors can come to, that no walk restores.
fn first_stuck(
    alloc: Global,
    iface: &Interface,
    triples: &[Triple],
    state: usize,
) -> Result<Option<Triple>, NoMemory>
    requires few { HasFewFields iface.now }
    requires triples { AreTriples iface.now triples.now }
    ensures { IfOk result (IsFoundAt iface.now state) }
{
    let walks = Walks::new(alloc, iface)?;
    let mut first = None;
    'triples: for triple in triples {
        first = go_on(&walks, state, first, *triple);
    }
    Ok(first)
}

// The first so far that no walk restores, where one triple more is looked at, by the least walks of an interface.
fn go_on(walks: &Walks, state: usize, first: Option<Triple>, triple: Triple) -> Option<Triple>
    ensures { (i : Declared) → AreLeastWalks i walks.now → IsReachedTriple i triple → GoesOn i state first triple result }
{
    if is_stuck_in(walks, state, triple) {
        Some(earlier(first, triple))
    } else {
        first
    }
}

// The first of two triples of one state, by creations and then by sets.
fn earlier(first: Option<Triple>, triple: Triple) -> Triple
    ensures { result ≡ earlier first triple }
{
    match first {
        Some(first) => {
            if is_no_later(first, triple) {
                first
            } else {
                triple
            }
        }
        None => triple,
    }
}

// Whether a triple comes no later than another of its state.
fn is_no_later(triple: Triple, other: Triple) -> bool
    ensures { result ≡ (nat_lt triple.made other.made || ((triple.made == other.made) && nat_le triple.mask other.mask)) }
{
    triple.made < other.made || (triple.made == other.made && triple.mask <= other.mask)
}

// Whether a triple is of a state, and no walk restores it.
fn is_stuck_in(walks: &Walks, state: usize, triple: Triple) -> bool
    ensures { (i : Declared) → AreLeastWalks i walks.now → IsReachedTriple i triple → TellsStuckIn i state triple result }
{
    if is_of(triple, state) {
        is_stuck(walks, triple)
    } else {
        false
    }
}

// Whether a triple is of a state.
fn is_of(triple: Triple, state: usize) -> bool
    ensures { result ≡ (triple.state == state) }
{
    usize::from(triple.state) == state
}

// Whether no walk restores a triple.
fn is_stuck(walks: &Walks, triple: Triple) -> bool
    ensures { (i : Declared) → AreLeastWalks i walks.now → IsReachedTriple i triple → TellsStuck i triple result }
{
    walks.get(triple.made, triple.state, triple.mask).is_none()
}
