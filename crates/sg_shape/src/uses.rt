// The uses of fields in a text.
ghost use Rattle.std.specs.Prelude.{◌≡◌, ◌++◌, IfOk, OnOk};
ghost use Rattle.std.specs.List.{filter_map, flat_map};
ghost use Rattle.sg_shape.specs.Fields.{param_use, ret_use, uses_of, word_use};
ghost use Rattle.sg_shape.specs.Prototypes.{protos_of};

use crate::adding::add;
use crate::protos::Proto;
use sg_check_statements::{ListOf, NoMemory, Param, Ret, Spelled, Statement, has_word};
use std::alloc::Global;
use std::marker::Model;

/// A use of a field in a text. Contracts see the name with its place, and whether the field is a text there.
#[derive(Drop)]
pub struct FieldUse<'a> {
    name: &'a [u8],
    at: usize,
    text: Option<bool>,
}

/// Uses of fields, in their order.
pub type UseList<'a> = ListOf<FieldUse<'a>>;

impl<'a> Model for FieldUse<'a> {
    ghost use Rattle.sg_shape.specs.Fields.{Use};

    ghost Value = { Use };

    ghost view = { λ u. record { name = record { bytes = u.name.now; at = u.at }; text = u.text } };
}

impl<'a> FieldUse<'a> {
    /// A use at a name; whether the field is a text there, where the use tells that.
    pub fn new(name: &Spelled<'a>, text: Option<bool>) -> FieldUse<'a>
        ensures { result ≡ record { name = name.now; text = text } }
    {
        FieldUse {
            name: name.slice,
            at: name.at,
            text,
        }
    }

    /// The field's name.
    pub fn name(&self) -> &'a [u8]
        ensures { result.now ≡ self.now.name.bytes }
    {
        self.name
    }

    /// The place of the name, counted from 0.
    pub fn at(&self) -> usize
        ensures { result ≡ self.now.name.at }
    {
        self.at
    }

    /// Whether the field is a text there, where the use tells that.
    pub fn text(&self) -> Option<bool>
        ensures { result ≡ self.now.text }
    {
        self.text
    }

    /// The same use.
    pub fn same(&self) -> FieldUse<'a>
        ensures { result ≡ self.now }
    {
        FieldUse {
            name: self.name,
            at: self.at,
            text: self.text,
        }
    }
}

/// The uses of fields in a text with these prototypes: those in their parameters, those in what they return, and those in other statements.
pub fn uses_of<'a>(
    alloc: Global,
    statements: &[Statement<'a>],
    protos: &[Proto<'_, 'a>],
) -> Result<UseList<'a>, NoMemory>
    requires { protos.now ≡ protos_of statements.now }
    ensures { IfOk result (λ uses. uses ≡ uses_of statements.now) }
{
    let mut uses = UseList::new(alloc);
    add_params(&mut uses, protos)?;
    add_rets(&mut uses, protos)?;
    add_words(&mut uses, statements)?;
    Ok(uses)
}

// Adds the uses in the parameters of prototypes.
fn add_params<'a>(uses: &mut UseList<'a>, protos: &[Proto<'_, 'a>]) -> Result<(), NoMemory>
    ensures { OnOk result (uses.new ≡ uses.old ++ flat_map (λ p. filter_map param_use p.params) protos.now) }
{
    'protos: for proto in protos {
        add_of_proto(uses, proto.params())?;
    }
    Ok(())
}

// Adds the uses in the parameters of a prototype.
fn add_of_proto<'a>(uses: &mut UseList<'a>, params: &[Param<'a>]) -> Result<(), NoMemory>
    ensures { OnOk result (uses.new ≡ uses.old ++ filter_map param_use params.now) }
{
    'params: for param in params {
        add(uses, param_use(param))?;
    }
    Ok(())
}

// Adds the uses in what prototypes return.
fn add_rets<'a>(uses: &mut UseList<'a>, protos: &[Proto<'_, 'a>]) -> Result<(), NoMemory>
    ensures { OnOk result (uses.new ≡ uses.old ++ filter_map (λ p. ret_use p.ret) protos.now) }
{
    'protos: for proto in protos {
        add(uses, ret_use(proto.ret()))?;
    }
    Ok(())
}

// Adds the uses in statements that are no prototypes.
fn add_words<'a>(uses: &mut UseList<'a>, statements: &[Statement<'a>]) -> Result<(), NoMemory>
    ensures { OnOk result (uses.new ≡ uses.old ++ filter_map word_use statements.now) }
{
    'statements: for statement in statements {
        add(uses, word_use(statement))?;
    }
    Ok(())
}

// The use in a parameter.
fn param_use<'a>(param: &Param<'a>) -> Option<FieldUse<'a>>
    ensures { result ≡ param_use param.now }
{
    if has_word(&param.form, b"desc_data") || has_word(&param.form, b"desc_data_add") {
        Some(FieldUse::new(&param.name, Some(param.ty.stars != 0)))
    } else {
        None
    }
}

// The use in what a prototype returns.
fn ret_use<'a>(ret: &Ret<'a>) -> Option<FieldUse<'a>>
    ensures { result ≡ ret_use ret.now }
{
    match ret {
        Ret::Plain(_) => None,
        Ret::Set { field, .. } | Ret::Add { field, .. } | Ret::Sub { field, .. } => {
            Some(FieldUse::new(field, Some(false)))
        }
    }
}

// The use in a statement that is no prototype.
fn word_use<'a>(statement: &Statement<'a>) -> Option<FieldUse<'a>>
    ensures { result ≡ word_use statement.now }
{
    match statement {
        Statement::Two { word, second, .. } => {
            if word.slice == b"desc_data_clear".as_slice() {
                Some(FieldUse::new(second, None))
            } else if word.slice == b"desc_data_sub".as_slice() {
                Some(FieldUse::new(second, Some(false)))
            } else {
                None
            }
        }
        _ => None,
    }
}
