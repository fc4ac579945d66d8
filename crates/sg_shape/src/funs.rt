// The functions of a text.
ghost use Rattle.std.specs.Prelude.{◌≡◌, ◌<◌, ◌≤◌, ◌^◌, length, map, All, IfOk};
ghost use Rattle.std.specs.Option.{option_copied};
ghost use Rattle.sg_check_statements.specs.sg_facts.Facts.{fun_of_shape};
ghost use Rattle.sg_check_statements.specs.sg_facts.Fields.{number_of};
ghost use Rattle.sg_check_statements.specs.sg_facts.Limits.{most_fields, most_funs};
ghost use Rattle.sg_shape.specs.Fields.{fields_of_text};
ghost use Rattle.sg_shape.specs.Inside.Parts.{fields_in, flags_said};
ghost use Rattle.sg_shape.specs.Limits.{most_params};
ghost use Rattle.sg_shape.specs.Prototypes.{protos_of};
ghost use Rattle.sg_shape.specs.ShapeOfText.{function_of, leaves_of, state_in, state_of};

use crate::effects::{effects_of, numbered};
use crate::keeping::{kept, kept_name};
use crate::params::{kinds_of, later};
use crate::protos::{Proto, number_in};
use sg_check_statements::{FieldShape, FunShape, Leaves, NoMemory, Statement, says};
use std::alloc::Global;

/// The functions of a text with these prototypes and fields, kept to the end of the program.
pub fn fun_shapes<'a>(
    alloc: Global,
    statements: &[Statement<'a>],
    protos: &[Proto<'_, 'a>],
    fields: &[FieldShape],
) -> Result<&'static [FunShape], NoMemory>
    requires protos { protos.now ≡ protos_of statements.now }
    requires few_protos { length protos.now ≤ most_funs }
    requires few_params { All (λ p. length p.params ≤ most_params) protos.now }
    requires fields { fields_in fields.now ≡ fields_of_text statements.now }
    requires few_fields { length fields.now ≤ most_fields }
    ensures { IfOk result (λ funs. map fun_of_shape funs.now ≡ map (function_of statements.now) protos.now) }
{
    let mut funs = Vec::new(alloc);
    'protos: for proto in protos {
        funs.push(fun_shape(alloc, statements, protos, fields, proto)?)?;
    }
    Ok(kept(funs))
}

// The function of a prototype.
fn fun_shape<'a>(
    alloc: Global,
    statements: &[Statement<'a>],
    protos: &[Proto<'_, 'a>],
    fields: &[FieldShape],
    proto: &Proto<'_, 'a>,
) -> Result<FunShape, NoMemory>
    requires protos { protos.now ≡ protos_of statements.now }
    requires few_protos { length protos.now ≤ most_funs }
    requires few_params { length proto.now.params ≤ most_params }
    requires fields { fields_in fields.now ≡ fields_of_text statements.now }
    requires few_fields { length fields.now ≤ most_fields }
    ensures { IfOk result (λ f. fun_of_shape f ≡ function_of statements.now proto.now) }
{
    let name = proto.name();
    let effects = effects_of(alloc, statements, proto)?;
    Ok(FunShape {
        name: kept_name(alloc, name)?,
        kinds: kinds_of(alloc, later(proto.params()))?,
        flags: flags_of(statements, name),
        leaves: leaves_of(statements, protos, name),
        effects: numbered(alloc, fields, effects.as_slice())?,
    })
}

// The sum of the flags that statements say of a function.
fn flags_of(statements: &[Statement], name: &[u8]) -> u8
    ensures { result ≡ number_of (flags_said statements.now name.now) }
{
    // in the order of the bits of `FunShape::CREATION` to `FunShape::DATA`
    sum_of(&[
        says(statements, b"sm_creation", name),
        says(statements, b"sm_terminal", name),
        says(statements, b"sm_block", name),
        says(statements, b"sm_wakeup", name),
        says(statements, b"sm_query", name),
        says(statements, b"sm_needs_all", name),
        says(statements, b"resc_data", name),
    ])
}

// The sum of at most eight flags: bit i for the flag at the place i.
fn sum_of(flags: &[bool]) -> u8
    requires { length flags.now ≤ 8 }
    ensures sum { result ≡ number_of flags.now }
    ensures bound { result < 2 ^ length flags.now }
{
    match flags {
        [] => 0,
        [flag, rest @ ..] => u8::from(*flag) + 2 * sum_of(rest),
    }
}

// The state that a function leaves.
fn leaves_of(statements: &[Statement], protos: &[Proto], name: &[u8]) -> Leaves
    requires protos { protos.now ≡ protos_of statements.now }
    requires few { length protos.now ≤ most_funs }
    ensures { result ≡ leaves_of statements.now name.now }
{
    if says(statements, b"sm_keep", name) {
        return Leaves::Same;
    }
    match state_of(statements, name) {
        Some(state) => Leaves::Of(number_in(protos, state)),
        None => Leaves::Own,
    }
}

/// The first state that statements say a function leaves, by the name of its function.
pub fn state_of<'a>(statements: &[Statement<'a>], fun: &[u8]) -> Option<&'a [u8]>
    ensures { option_copied result ≡ state_of fun.now statements.now }
{
    'statements: for statement in statements {
        if let Some(state) = state_in(statement, fun) {
            return Some(state);
        }
    }
    None
}

// The state that a statement says a function leaves.
fn state_in<'a>(statement: &Statement<'a>, fun: &[u8]) -> Option<&'a [u8]>
    ensures { option_copied result ≡ state_in fun.now statement.now }
{
    match statement {
        Statement::Two {
            word,
            first,
            second,
        } => {
            if word.slice == b"sm_state".as_slice() && first.slice == fun {
                Some(second.slice)
            } else {
                None
            }
        }
        _ => None,
    }
}
