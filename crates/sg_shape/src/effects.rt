// What a text says that functions do to fields.
ghost use Rattle.std.specs.Prelude.{◌≡◌, ◌<◌, ◌≤◌, [], ◌∷◌, ◌++◌, length, IfOk, OnOk};
ghost use Rattle.std.specs.List.{flat_map, list_any};
ghost use Rattle.std.specs.Option.{option_map, option_to_list};
ghost use Rattle.sg_check_statements.specs.sg_facts.Limits.{most_fields};
ghost use Rattle.sg_check_statements.specs.Effects.{arg_effects, declared_effects};
ghost use Rattle.sg_check_statements.specs.Inside.Pieces.{caller_effects, later_effects, ret_effects, statement_effects};
ghost use Rattle.sg_shape.specs.Flaws.{clash, has_two};
ghost use Rattle.sg_shape.specs.Inside.Parts.{arg_effect, fields_in};
ghost use Rattle.sg_shape.specs.Limits.{most_params};
ghost use Rattle.sg_shape.specs.ShapeOfText.{effect_on_name, numbered};

use crate::adding::add;
use crate::keeping::kept;
use crate::params::is_id_param;
use crate::protos::Proto;
use sg_check_statements::{
    Effect, FieldShape, ListOf, NoMemory, Param, Ret, Spelled, Statement, has_word,
};
use std::alloc::Global;
use std::marker::Model;

/// What a function does to the field of a name. Contracts see a pair of both.
#[derive(Drop)]
pub struct NamedEffect<'a> {
    field: &'a [u8],
    effect: Effect,
}

/// Effects on fields by their names, in their order.
pub type EffectList<'a> = ListOf<NamedEffect<'a>>;

impl<'a> Model for NamedEffect<'a> {
    ghost use Rattle.std.specs.Prelude.{ℕ, List};
    ghost use Rattle.sg_check_statements.specs.sg_facts.declared.shape.Effect.{Effect};

    ghost Value = { List ℕ × Effect };

    ghost view = { λ e. (e.field.now, e.effect) };
}

impl<'a> NamedEffect<'a> {
    ghost use Rattle.std.specs.Str.{bytes_eq};

    // What is done to the field of a name.
    fn new(field: &Spelled<'a>, effect: Effect) -> NamedEffect<'a>
        ensures { result ≡ (field.now.bytes, effect) }
    {
        NamedEffect {
            field: field.slice,
            effect,
        }
    }

    // The field's name.
    fn field(&self) -> &'a [u8]
        ensures { result.now ≡ self.now.0 }
    {
        self.field
    }

    // Whether it is the field of a name.
    fn is_on(&self, name: &[u8]) -> bool
        ensures { result ≡ bytes_eq self.now.0 name.now }
    {
        self.field == name
    }

    // What is done to it.
    fn effect(&self) -> Effect
        ensures { result ≡ self.now.1 }
    {
        self.effect
    }
}

/// All that a text declares for the function of a prototype, which has at most `MOST_PARAMS` parameters.
pub fn effects_of<'a>(
    alloc: Global,
    statements: &[Statement<'a>],
    proto: &Proto<'_, 'a>,
) -> Result<EffectList<'a>, NoMemory>
    requires { length proto.now.params ≤ most_params }
    ensures { IfOk result (λ effects. effects ≡ declared_effects statements.now proto.now.name.bytes proto.now.ret proto.now.params) }
{
    let mut effects = EffectList::new(alloc);
    add_params(&mut effects, proto.params())?;
    add(&mut effects, ret_effect(proto.ret()))?;
    add_words(&mut effects, statements, proto.name())?;
    Ok(effects)
}

// Adds the effects that parameters declare.
fn add_params<'a>(effects: &mut EffectList<'a>, params: &[Param<'a>]) -> Result<(), NoMemory>
    requires { length params.now ≤ most_params }
    ensures { OnOk result (effects.new ≡ effects.old ++ (caller_effects params.now ++ later_effects params.now)) }
{
    match params {
        [] => Ok(()),
        [caller, later @ ..] => {
            add(effects, caller_effect(caller))?;
            add_args(effects, later)
        }
    }
}

// Adds the effects that later parameters declare.
fn add_args<'a>(effects: &mut EffectList<'a>, params: &[Param<'a>]) -> Result<(), NoMemory>
    requires { length params.now < most_params }
    ensures { OnOk result (effects.new ≡ effects.old ++ arg_effects 0 params.now) }
{
    let mut number = 0;
    'params: for param in params {
        if is_id_param(param) {
            continue;
        }
        add(effects, arg_effect(number, param))?;
        number += 1;
    }
    Ok(())
}

// Adds the effects that statements of their own declare for the function of a name.
fn add_words<'a>(
    effects: &mut EffectList<'a>,
    statements: &[Statement<'a>],
    fun: &[u8],
) -> Result<(), NoMemory>
    ensures { OnOk result (effects.new ≡ effects.old ++ flat_map (statement_effects fun.now) statements.now) }
{
    'statements: for statement in statements {
        add(effects, word_effect(statement, fun))?;
    }
    Ok(())
}

// The effect that the first parameter declares.
fn caller_effect<'a>(caller: &Param<'a>) -> Option<NamedEffect<'a>>
    ensures { option_to_list result ≡ caller_effects (caller.now ∷ []) }
{
    if has_word(&caller.form, b"desc_data") {
        Some(NamedEffect::new(&caller.name, Effect::SetCaller))
    } else {
        None
    }
}

// The effect that an argument declares.
fn arg_effect<'a>(number: u8, param: &Param<'a>) -> Option<NamedEffect<'a>>
    ensures { result ≡ arg_effect number param.now }
{
    if has_word(&param.form, b"desc_data") {
        Some(NamedEffect::new(&param.name, Effect::SetArg(number)))
    } else if has_word(&param.form, b"desc_data_add") {
        Some(NamedEffect::new(&param.name, Effect::AddArg(number)))
    } else {
        None
    }
}

// The effect that the return declares.
fn ret_effect<'a>(ret: &Ret<'a>) -> Option<NamedEffect<'a>>
    ensures { option_to_list result ≡ ret_effects ret.now }
{
    match ret {
        Ret::Plain(_) => None,
        Ret::Set { field, .. } => Some(NamedEffect::new(field, Effect::SetRet)),
        Ret::Add { field, .. } => Some(NamedEffect::new(field, Effect::AddRet)),
        Ret::Sub { field, .. } => Some(NamedEffect::new(field, Effect::SubRet)),
    }
}

// The effect that a statement of its own declares for the function of a name.
fn word_effect<'a>(statement: &Statement<'a>, fun: &[u8]) -> Option<NamedEffect<'a>>
    ensures { option_to_list result ≡ statement_effects fun.now statement.now }
{
    match statement {
        Statement::Two {
            word,
            first,
            second,
        } => {
            if first.slice != fun {
                None
            } else if word.slice == b"desc_data_clear".as_slice() {
                Some(NamedEffect::new(second, Effect::Clear))
            } else if word.slice == b"desc_data_sub".as_slice() {
                Some(NamedEffect::new(second, Effect::SubOne))
            } else {
                None
            }
        }
        _ => None,
    }
}

/// Effects by the numbers of these fields, kept to the end of the program.
pub fn numbered(
    alloc: Global,
    fields: &[FieldShape],
    effects: &[NamedEffect],
) -> Result<&'static [(u8, Effect)], NoMemory>
    requires { length fields.now ≤ most_fields }
    ensures { IfOk result (λ list. list.now ≡ numbered 0 (fields_in fields.now) effects.now) }
{
    let mut list = Vec::new(alloc);
    let mut number = 0;
    'fields: for field in fields {
        add_numbered(&mut list, number, effect_on(effects, field.name))?;
        number += 1;
    }
    Ok(kept(list))
}

// Adds an effect with the number of its field, where there is one.
fn add_numbered(
    list: &mut Vec<(u8, Effect)>,
    number: u8,
    found: Option<Effect>,
) -> Result<(), NoMemory>
    ensures { OnOk result (list.new.items ≡ list.old.items ++ option_to_list (option_map (λ e. (number, e)) found)) }
{
    if let Some(effect) = found {
        list.push((number, effect))?;
    }
    Ok(())
}

// The first of some effects that is on the field of a name.
fn effect_on(effects: &[NamedEffect], name: &[u8]) -> Option<Effect>
    ensures { result ≡ effect_on_name effects.now name.now }
{
    'effects: for one in effects {
        if one.is_on(name) {
            return Some(one.effect());
        }
    }
    None
}

/// Whether some field has two of these effects.
pub fn has_two(effects: &[NamedEffect]) -> bool
    ensures { result ≡ has_two effects.now }
{
    effects.iter().any(|one| clashes(one, effects))
}

// Whether one of these effects is on the field of an effect, and isn't the same.
fn clashes(one: &NamedEffect, effects: &[NamedEffect]) -> bool
    ensures { result ≡ list_any (clash one.now) effects.now }
{
    effects.iter().any(|other| other.field() == one.field() && other.effect() != one.effect())
}
