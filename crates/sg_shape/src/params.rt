// Parameters of prototypes.
ghost use Rattle.std.specs.Prelude.{◌≡◌, ◌||◌, count_by, drop, map, codes, IfOk};
ghost use Rattle.std.specs.List.{list_all};
ghost use Rattle.sg_check_statements.specs.Params.{has_word};
ghost use Rattle.sg_shape.specs.Flaws.{are_params, has_its_type, is_id_param};
ghost use Rattle.sg_shape.specs.ShapeOfText.{kind_of};

use crate::keeping::kept;
use sg_check_statements::{Kind, NoMemory, Param, has_word, is_caller};
use std::alloc::Global;

/// The parameters after the caller.
pub fn later<'t, 'a>(params: &'t [Param<'a>]) -> &'t [Param<'a>]
    ensures { result.now ≡ drop 1 params.now }
{
    match params {
        [] => &[],
        [_, later @ ..] => later,
    }
}

/// What parameters after the caller are, kept to the end of the program.
pub fn kinds_of(alloc: Global, params: &[Param]) -> Result<&'static [Kind], NoMemory>
    ensures { IfOk result (λ kinds. kinds.now ≡ map kind_of params.now) }
{
    let mut kinds = Vec::new(alloc);
    'params: for param in params {
        kinds.push(kind_of(param))?;
    }
    Ok(kept(kinds))
}

// What a parameter after the caller is.
fn kind_of(param: &Param) -> Kind
    ensures { result ≡ kind_of param.now }
{
    if has_word(&param.form, b"desc") {
        Kind::Desc
    } else if has_word(&param.form, b"parent_desc") {
        Kind::Parent
    } else if param.ty.stars == 0 {
        Kind::Word
    } else {
        Kind::Text
    }
}

/// Whether parameters are those of some function.
pub fn are_params(params: &[Param]) -> bool
    ensures { result ≡ are_params params.now }
{
    match params {
        [] => false,
        [caller, later @ ..] => {
            is_caller(caller) && have_their_types(later) && count_ids(later) <= 1
        }
    }
}

// Whether each parameter is no text where it is a descriptor, a parent or an addend.
fn have_their_types(params: &[Param]) -> bool
    ensures { result ≡ list_all has_its_type params.now }
{
    params.iter().all(|param| has_its_type(param))
}

// The number of parameters that are a descriptor or a parent.
fn count_ids(params: &[Param]) -> usize
    ensures { result ≡ count_by is_id_param params.now }
{
    params.iter().filter(|param| is_id_param(param)).count()
}

// Whether a parameter is no text where it is a descriptor, a parent or an addend.
fn has_its_type(param: &Param) -> bool
    ensures { result ≡ has_its_type param.now }
{
    !(is_id_param(param) || has_word(&param.form, b"desc_data_add")) || param.ty.stars == 0
}

/// Whether a parameter is a descriptor or a parent.
pub fn is_id_param(param: &Param) -> bool
    ensures { result ≡ is_id_param param.now }
{
    has_word(&param.form, b"desc") || has_word(&param.form, b"parent_desc")
}
