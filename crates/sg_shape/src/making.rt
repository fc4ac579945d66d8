// The shape that a text declares.
ghost use Rattle.std.specs.Prelude.{◌≡◌, ◌≤◌, codes, length, map, nat_lt, All, IfOk};
ghost use Rattle.std.specs.List.{list_any};
ghost use Rattle.std.specs.Str.{bytes_eq};
ghost use Rattle.sg_check_statements.specs.sg_facts.Facts.{facts_of, fun_of_shape};
ghost use Rattle.sg_check_statements.specs.sg_facts.Limits.{most_fields, most_funs};
ghost use Rattle.sg_shape.specs.Fields.{first_uses, uses_of};
ghost use Rattle.sg_shape.specs.Inside.Parts.{fields_in};
ghost use Rattle.sg_shape.specs.Limits.{most_params};
ghost use Rattle.sg_shape.specs.Prototypes.{protos_of};
ghost use Rattle.sg_shape.specs.ShapeOfText.{parents_of, shape_of_text};

use crate::fields::field_shapes;
use crate::funs::fun_shapes;
use crate::keeping::kept_name;
use crate::pairs::pairs_of;
use crate::protos::Proto;
use crate::uses::FieldUse;
use sg_check_statements::{Facts, FieldShape, FunShape, NoMemory, Parents, Shape, Tree};
use std::alloc::Global;

/// The shape that a text within the limits declares: with these prototypes, and these first uses of its fields.
pub fn made<'a>(
    alloc: Global,
    tree: &Tree<'a>,
    protos: &[Proto<'_, 'a>],
    first: &[FieldUse],
) -> Result<Shape, NoMemory>
    requires protos { protos.now ≡ protos_of tree.now.statements }
    requires few_protos { length protos.now ≤ most_funs }
    requires few_params { All (λ p. length p.params ≤ most_params) protos.now }
    requires fields { first.now ≡ first_uses (uses_of tree.now.statements) }
    requires few_fields { length first.now ≤ most_fields }
    ensures { IfOk result (λ shape. facts_of shape ≡ shape_of_text tree.now) }
{
    let statements = tree.statements.as_slice();
    let fields = field_shapes(alloc, first)?;
    let funs = fun_shapes(alloc, statements, protos, fields)?;
    Ok(Shape {
        name: name_of(alloc, &tree.facts)?,
        parents: parents_of(&tree.facts),
        subtree: is_subtree(&tree.facts),
        global: is_global(&tree.facts),
        block: may_block(funs),
        has_data: has_some(fields),
        resc_data: use_files(funs),
        fields,
        funs,
        moves: pairs_of(alloc, b"sm_transition", statements, protos)?,
        steps: pairs_of(alloc, b"sm_recover", statements, protos)?,
    })
}

// The name of a text's service, kept to the end of the program.
fn name_of(alloc: Global, facts: &Facts) -> Result<&'static [u8], NoMemory>
    ensures { IfOk result (λ name. name.now ≡ facts.now.service.bytes) }
{
    Ok(kept_name(alloc, facts.service.slice)?)
}

// Which parents a head says that descriptors may have.
fn parents_of(facts: &Facts) -> Parents
    ensures { result ≡ parents_of facts.now.parent.bytes }
{
    let word = facts.parent.slice;
    if word == b"same".as_slice() {
        Parents::Same
    } else if word == b"cross".as_slice() {
        Parents::Cross
    } else {
        Parents::Never
    }
}

// Whether a head says that closing a descriptor closes what stands below it.
fn is_subtree(facts: &Facts) -> bool
    ensures { result ≡ bytes_eq facts.now.close.bytes (codes "subtree") }
{
    facts.close.slice == b"subtree".as_slice()
}

// Whether a head says that descriptors are shared by all clients.
fn is_global(facts: &Facts) -> bool
    ensures { result ≡ bytes_eq facts.now.global.bytes (codes "true") }
{
    facts.global.slice == b"true".as_slice()
}

// Whether one of these functions may block.
fn may_block(funs: &[FunShape]) -> bool
    ensures { result ≡ list_any (λ f. f.block) (map fun_of_shape funs.now) }
{
    match funs {
        [] => false,
        [fun, rest @ ..] => fun.may_block() || may_block(rest),
    }
}

// Whether one of these functions uses a file.
fn use_files(funs: &[FunShape]) -> bool
    ensures { result ≡ list_any (λ f. f.uses_file) (map fun_of_shape funs.now) }
{
    match funs {
        [] => false,
        [fun, rest @ ..] => fun.uses_file() || use_files(rest),
    }
}

// Whether there are fields.
fn has_some(fields: &[FieldShape]) -> bool
    ensures { result ≡ nat_lt 0 (length (fields_in fields.now)) }
{
    match fields {
        [] => false,
        [_, ..] => true,
    }
}
