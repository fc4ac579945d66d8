// Where something is wrong with a text by itself.
ghost use Rattle.std.specs.Prelude.{◌≡◌, ◌≢◌, ◌≤◌, [], length, find, slice_get, unwrap_or, All, IfOk};
ghost use Rattle.std.specs.List.{filter_map};
ghost use Rattle.std.specs.Option.{option_map};
ghost use Rattle.sg_check_statements.specs.sg_facts.Facts.{facts_of};
ghost use Rattle.sg_check_statements.specs.Effects.{declared_effects};
ghost use Rattle.sg_check_statements.specs.Flaws.{fun_of_name};
ghost use Rattle.sg_check_statements.specs.NameSet.{has_name};
ghost use Rattle.sg_check_statements.specs.Says.{fun_number};
ghost use Rattle.sg_shape.specs.declared.fault.ShapeFaultKind.TheVariants.{Limit as limit, PrivateLooksAround as looks_around};
ghost use Rattle.sg_shape.specs.Fields.{uses_of};
ghost use Rattle.sg_shape.specs.Faults.{place_of};
ghost use Rattle.sg_shape.specs.Flaws.{contradicts, has_two, is_flawed, is_forbidden, is_mixed, is_text_name, second_place, unknown_name, unknown_place};
ghost use Rattle.sg_shape.specs.Inside.Parts.{fields_in};
ghost use Rattle.sg_shape.specs.Limits.{most_params};
ghost use Rattle.sg_shape.specs.Prototypes.{names_of, protos_of};
ghost use Rattle.sg_shape.specs.ShapeOfText.{shape_of_text};

use crate::effects::{effects_of, has_two};
use crate::fault::ShapeFaultKind;
use crate::forbidden::is_forbidden;
use crate::funs::state_of;
use crate::params::are_params;
use crate::protos::Proto;
use crate::uses::FieldUse;
use sg_check_statements::{
    FieldShape, NoMemory, Parents, Protos, Shape, Statement, Tree, bare, bare_second, fun_number,
    fun_of_name, leaves_another, says, wrong_fact,
};
use std::alloc::Global;

/// The first place at which something of a kind, which isn't `Limit`, is wrong with a text within the limits: one of this shape, with these
/// prototypes and these uses of fields.
#[tactic(auto, unfolding(crate::specs::Faults::place_of))]
pub fn place_of<'a>(
    kind: ShapeFaultKind,
    alloc: Global,
    tree: &Tree<'a>,
    protos: &[Proto<'_, 'a>],
    uses: &[FieldUse],
    shape: &Shape,
) -> Result<Option<usize>, NoMemory>
    requires kind { kind ≢ limit }
    requires protos { protos.now ≡ protos_of tree.now.statements }
    requires few_params { All (λ p. length p.params ≤ most_params) protos.now }
    requires uses { uses.now ≡ uses_of tree.now.statements }
    requires shape { facts_of shape.now ≡ shape_of_text tree.now }
    ensures { IfOk result (λ place. place ≡ place_of tree.now kind) }
{
    let statements = tree.statements.as_slice();
    match kind {
        ShapeFaultKind::Limit => unreachable!(),
        ShapeFaultKind::DuplicateName => Ok(second_place(protos)),
        ShapeFaultKind::UnknownFunction => Ok(unknown_place(alloc, statements)?),
        ShapeFaultKind::MixedField => Ok(mixed_place(shape.fields, uses)),
        ShapeFaultKind::PrivateLooksAround => Ok(private_place(alloc, tree, protos, shape)?),
        ShapeFaultKind::WrongFact => Ok(wrong_fact(shape, &tree.facts)),
        _ => Ok(flawed_place(kind, alloc, shape, statements, protos)?),
    }
}

// The place of the first prototype that has the name of one before it.
fn second_place(protos: &[Proto]) -> Option<usize>
    ensures { result ≡ second_place [] protos.now }
{
    'protos: for (number, proto) in protos.iter().enumerate() {
        if has_name(&protos[..number], proto.name()) {
            return Some(proto.at());
        }
    }
    None
}

// Whether some prototype is of the function of a name.
fn has_name(protos: &[Proto], name: &[u8]) -> bool
    ensures { result ≡ has_name (names_of protos.now) name.now }
{
    match protos {
        [] => false,
        [proto, rest @ ..] => proto.name() == name || has_name(rest, name),
    }
}

// The place of the first name of a function that has no prototype.
fn unknown_place(alloc: Global, statements: &[Statement]) -> Result<Option<usize>, NoMemory>
    ensures { IfOk result (λ place. place ≡ unknown_place statements.now) }
{
    let protos = Protos::of(alloc, statements)?;
    Ok(first_unknown(&protos, statements))
}

// The place of the first name in statements of a function that has none of these prototypes.
fn first_unknown(protos: &Protos, statements: &[Statement]) -> Option<usize>
    ensures { result ≡ slice_get (filter_map (unknown_name protos.now) statements.now) 0 }
{
    'statements: for statement in statements {
        if let Some(at) = unknown_name(protos, statement) {
            return Some(at);
        }
    }
    None
}

// The place of a name in a statement of a function that has none of these prototypes.
fn unknown_name(protos: &Protos, statement: &Statement) -> Option<usize>
    ensures { result ≡ unknown_name protos.now statement.now }
{
    match statement {
        Statement::One { fun, .. } | Statement::External { fun } | Statement::Answer { fun, .. } =>
            { bare(protos, fun) }
        Statement::Two {
            word,
            first,
            second,
        } => bare(protos, first).or(bare_second(protos, word.slice, second)),
        _ => None,
    }
}

// The place of the first of some uses that has its field, one of these, otherwise than that is.
fn mixed_place(fields: &[FieldShape], uses: &[FieldUse]) -> Option<usize>
    ensures { result ≡ option_map (λ u. u.name.at) (find (is_mixed (fields_in fields.now)) uses.now) }
{
    'uses: for one in uses {
        if is_mixed(fields, one) {
            return Some(one.at());
        }
    }
    None
}

// Whether a use has its field as a number where that is a text, or as a text where that is a number.
fn is_mixed(fields: &[FieldShape], one: &FieldUse) -> bool
    ensures { result ≡ is_mixed (fields_in fields.now) one.now }
{
    match one.text() {
        Some(text) => text != is_text_name(fields, one.name()),
        None => false,
    }
}

// Whether the field of a name is a text.
fn is_text_name(fields: &[FieldShape], name: &[u8]) -> bool
    ensures { result ≡ is_text_name (fields_in fields.now) name.now }
{
    match fields {
        [] => false,
        [field, ..] if field.name == name => field.text,
        [_, rest @ ..] => is_text_name(rest, name),
    }
}

// The place at which a private service is said to look around: at the fact that descriptors may have parents of other clients, or at the
// first prototype of a function that looks at all rows.
#[tactic(auto, unfolding(crate::specs::Faults::place_of))]
fn private_place<'a>(
    alloc: Global,
    tree: &Tree<'a>,
    protos: &[Proto<'_, 'a>],
    shape: &Shape,
) -> Result<Option<usize>, NoMemory>
    requires protos { protos.now ≡ protos_of tree.now.statements }
    requires few_params { All (λ p. length p.params ≤ most_params) protos.now }
    requires shape { facts_of shape.now ≡ shape_of_text tree.now }
    ensures { IfOk result (λ place. place ≡ place_of tree.now looks_around) }
{
    if !shape.global && matches!(shape.parents, Parents::Cross) {
        return Ok(Some(tree.facts.parent.at));
    }
    let statements = tree.statements.as_slice();
    let kind = ShapeFaultKind::PrivateLooksAround;
    Ok(flawed_place(kind, alloc, shape, statements, protos)?)
}

// The place of the first prototype that has a flaw of a kind.
fn flawed_place<'a>(
    kind: ShapeFaultKind,
    alloc: Global,
    shape: &Shape,
    statements: &[Statement<'a>],
    protos: &[Proto<'_, 'a>],
) -> Result<Option<usize>, NoMemory>
    requires { All (λ p. length p.params ≤ most_params) protos.now }
    ensures { IfOk result (λ place. place ≡ option_map (λ p. p.name.at) (find (is_flawed kind (facts_of shape.now) statements.now) protos.now)) }
{
    'protos: for proto in protos {
        let flawed = is_flawed(kind, alloc, shape, statements, proto)?;
        if flawed {
            return Ok(Some(proto.at()));
        }
    }
    Ok(None)
}

// Whether a prototype has a flaw of a kind.
fn is_flawed<'a>(
    kind: ShapeFaultKind,
    alloc: Global,
    shape: &Shape,
    statements: &[Statement<'a>],
    proto: &Proto<'_, 'a>,
) -> Result<bool, NoMemory>
    requires { length proto.now.params ≤ most_params }
    ensures { IfOk result (λ flawed. flawed ≡ is_flawed kind (facts_of shape.now) statements.now proto.now) }
{
    match kind {
        ShapeFaultKind::BadParams => Ok(!are_params(proto.params())),
        ShapeFaultKind::TwoEffects => Ok(has_two_effects(alloc, statements, proto)?),
        ShapeFaultKind::Contradiction => Ok(contradicts(statements, proto.name())),
        _ => Ok(is_of_forbidden(kind, shape, proto.name())),
    }
}

// Whether a prototype is said to do two things to a field.
fn has_two_effects<'a>(
    alloc: Global,
    statements: &[Statement<'a>],
    proto: &Proto<'_, 'a>,
) -> Result<bool, NoMemory>
    requires { length proto.now.params ≤ most_params }
    ensures { IfOk result (λ two. two ≡ has_two (declared_effects statements.now proto.now.name.bytes proto.now.ret proto.now.params)) }
{
    let effects = effects_of(alloc, statements, proto)?;
    Ok(has_two(effects.as_slice()))
}

// Whether statements say of a function that it leaves two states, or a state beside the one before.
fn contradicts(statements: &[Statement], fun: &[u8]) -> bool
    ensures { result ≡ contradicts statements.now fun.now }
{
    match state_of(statements, fun) {
        Some(state) => {
            says(statements, b"sm_keep", fun) || leaves_another(statements, fun, state)
        }
        None => false,
    }
}

// Whether the function of a name has a flaw of a kind.
fn is_of_forbidden(kind: ShapeFaultKind, shape: &Shape, name: &[u8]) -> bool
    ensures { result ≡ is_forbidden kind (facts_of shape.now) (unwrap_or (fun_number (facts_of shape.now).funs name.now) 0) (fun_of_name (facts_of shape.now) name.now) }
{
    let number = fun_number(shape, name).unwrap_or(0);
    is_forbidden(kind, shape, number, &fun_of_name(shape, name))
}
