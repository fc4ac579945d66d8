// The texts of types, parameters and returns.
ghost use Rattle.std.specs.Prelude.{◌≡◌, ◌++◌, OnOk, codes, List, ℕ};
ghost use Rattle.std.specs.List.{flat_map};
ghost use Rattle.sg_print.specs.Printed.{type_text, ret_text, param_text, returned_text};
ghost use Rattle.sg_print.specs.Inside.Pieces.{names_text, fields_text, type_before_comma, params_text};

use crate::parts::{put, put_stars};
use sg_facts::{Bytes, NoMemory};
use sg_parse::{Param, Ret, Spelled, TypeName};

// Adds names at the end, with a space between two.
fn put_names(out: &mut Bytes, names: &[Spelled<'_>]) -> Result<(), NoMemory>
    ensures { OnOk result (out.new ≡ out.old ++ names_text names.now) }
{
    let Some((first, more)) = names.split_first() else {
        return Ok(());
    };
    out.extend_from_slice(first.slice)?;
    for name in more {
        put(out, &[b" ", name.slice])?;
    }
    Ok(())
}

/// Adds fields at the end, with a comma and a space between two.
pub fn put_fields(out: &mut Bytes, fields: &[Spelled<'_>]) -> Result<(), NoMemory>
    ensures { OnOk result (out.new ≡ out.old ++ fields_text fields.now) }
{
    let Some((first, more)) = fields.split_first() else {
        return Ok(());
    };
    out.extend_from_slice(first.slice)?;
    for field in more {
        put(out, &[b", ", field.slice])?;
    }
    Ok(())
}

// Adds a type before a name or a form.
fn put_type(out: &mut Bytes, ty: &TypeName<'_>) -> Result<(), NoMemory>
    ensures { OnOk result (out.new ≡ out.old ++ type_text ty.now) }
{
    put_names(out, ty.names.as_slice())?;
    out.push(b' ')?;
    put_stars(out, ty.stars)
}

// Adds a type before a comma.
fn put_type_before_comma(out: &mut Bytes, ty: &TypeName<'_>) -> Result<(), NoMemory>
    ensures { OnOk result (out.new ≡ out.old ++ type_before_comma ty.now) }
{
    if ty.stars == 0 {
        put_names(out, ty.names.as_slice())
    } else {
        put_type(out, ty)
    }
}

// Adds a parameter.
fn put_param(out: &mut Bytes, param: &Param<'_>) -> Result<(), NoMemory>
    ensures { OnOk result (out.new ≡ out.old ++ param_text param.now) }
{
    put_type(out, &param.ty)?;
    match &param.form {
        None => put(out, &[param.name.slice]),
        Some(form) => put(out, &[form.slice, b"(", param.name.slice, b")"]),
    }
}

/// Adds parameters at the end, with a comma and a space between two.
pub fn put_params(out: &mut Bytes, params: &[Param<'_>]) -> Result<(), NoMemory>
    ensures { OnOk result (out.new ≡ out.old ++ params_text params.now) }
{
    let Some((first, more)) = params.split_first() else {
        return Ok(());
    };
    put_param(out, first)?;
    for param in more {
        put(out, &[b", "])?;
        put_param(out, param)?;
    }
    Ok(())
}

// Adds what becomes of a returned word.
fn put_returned(
    out: &mut Bytes,
    what: &[u8],
    ty: &TypeName<'_>,
    field: &Spelled<'_>,
) -> Result<(), NoMemory>
    ensures { OnOk result (out.new ≡ out.old ++ returned_text what.now ty.now field.now) }
{
    put(out, &[what, b"("])?;
    put_type_before_comma(out, ty)?;
    put(out, &[b", ", field.slice, b") "])
}

/// Adds what stands before the name of a function.
pub fn put_ret(out: &mut Bytes, ret: &Ret<'_>) -> Result<(), NoMemory>
    ensures { OnOk result (out.new ≡ out.old ++ ret_text ret.now) }
{
    match ret {
        Ret::Plain(ty) => put_type(out, ty),
        Ret::Set { ty, field } => put_returned(out, b"desc_data_retval", ty, field),
        Ret::Add { ty, field } => put_returned(out, b"desc_data_retval_add", ty, field),
        Ret::Sub { ty, field } => put_returned(out, b"desc_data_retval_sub", ty, field),
    }
}
