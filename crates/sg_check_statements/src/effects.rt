// Whether the effects of a function are declared as the service has them.
ghost use Rattle.std.specs.Prelude.{◌≡◌, ◌&&◌, not, Some, MatchOption};
ghost use Rattle.std.specs.Bool.{then_some};
ghost use Rattle.sg_check_statements.specs.Flaws.{fun_of_name};
ghost use Rattle.sg_check_statements.specs.Faults.{IsFirstStatement};
ghost use Rattle.sg_check_statements.specs.Inside.Pieces.{NoStatement, wrong_effect, service_effects};
ghost use Rattle.std.specs.List.{list_any, list_all};
ghost use Rattle.std.specs.Str.{bytes_eq};
ghost use Rattle.sg_facts.specs.Facts.{facts_of, fun_of_shape};
ghost use Rattle.sg_check_statements.specs.Inside.Changes.{change_effect};
ghost use Rattle.sg_facts.specs.Words.{field_name};
ghost use Rattle.sg_check_statements.specs.Effects.{declared_effects, same_effect, same_effects, has_effect};

use crate::change::Change;
use crate::declared::{Proto, Test, any_declared};
use crate::funs::fun_of_name;
use crate::judge::{Judge, Statements, first_flaw};
use sg_facts::{Effect, FunShape, Shape, field_name};
use sg_parse::{Param, Ret, Spelled, Statement};

/// Looks for prototypes of functions whose effects are declared otherwise.
#[derive(Clone, Copy)]
pub struct Effects<'p, 's, 'a> {
    pub shape: &'p Shape,
    pub statements: &'p Statements<'s, 'a>,
}

impl Judge for Effects<'_, '_, '_> {
    ghost flaw = { λ j s. wrong_effect (facts_of j.shape.now) j.statements.now s };

    fn flaw_in(&self, statement: &Statement) -> Option<usize> {
        match statement {
            Statement::Proto { ret, name, params } => {
                flaw_of(self.shape, self.statements, ret, name, params.as_slice())
            }
            _ => None,
        }
    }
}

// The place of a prototype's name, where the effects of the function are declared otherwise.
fn flaw_of<'a>(
    shape: &Shape,
    statements: &Statements,
    ret: &Ret<'a>,
    name: &Spelled<'a>,
    params: &[Param<'a>],
) -> Option<usize>
    ensures { result ≡ then_some (not (same_effects (declared_effects statements.now name.now.bytes ret.now params.now)
        (service_effects (facts_of shape.now) (fun_of_name (facts_of shape.now) name.now.bytes)))) name.now.at }
{
    let fun = fun_of_name(shape, name.slice);
    let proto = Proto {
        statements,
        name: name.slice,
        ret,
        params,
    };
    if fit_effects(shape, &fun, &proto) {
        None
    } else {
        Some(name.at)
    }
}

/// The place of the first prototype whose effects aren't its function's.
pub fn wrong_effect_in(shape: &Shape, statements: &[Statement]) -> Option<usize>
    ensures { MatchOption result
        (NoStatement (λ before s p. wrong_effect (facts_of shape.now) statements.now s ≡ Some p) statements.now)
        (IsFirstStatement (λ before s p. wrong_effect (facts_of shape.now) statements.now s ≡ Some p) statements.now) }
{
    let all = Statements::new(statements);
    first_flaw(
        &Effects {
            shape,
            statements: &all,
        },
        statements,
    )
}

// Whether the effects that are declared are those of the function.
fn fit_effects(shape: &Shape, fun: &FunShape, proto: &Proto) -> bool
    ensures { result ≡ same_effects
        (declared_effects proto.now.statements.now proto.now.name.now proto.now.ret.now proto.now.params.now)
        (service_effects (facts_of shape.now) (fun_of_shape fun.now)) }
{
    are_known(shape, fun, proto) && are_declared(shape, fun, proto)
}

// Whether all effects that are declared are the function's.
fn are_known(shape: &Shape, fun: &FunShape, proto: &Proto) -> bool
    ensures { result ≡ list_all (has_effect (service_effects (facts_of shape.now) (fun_of_shape fun.now)))
        (declared_effects proto.now.statements.now proto.now.name.now proto.now.ret.now proto.now.params.now) }
{
    !any_declared(&Foreign { shape, fun }, proto)
}

// Whether all effects of the function are declared.
fn are_declared(shape: &Shape, fun: &FunShape, proto: &Proto) -> bool
    ensures { result ≡ list_all (has_effect
        (declared_effects proto.now.statements.now proto.now.name.now proto.now.ret.now proto.now.params.now))
        (service_effects (facts_of shape.now) (fun_of_shape fun.now)) }
{
    all_declared(shape, fun.effects, proto)
}

// Whether all of these effects are declared.
fn all_declared(shape: &Shape, effects: &[(u8, Effect)], proto: &Proto) -> bool
    ensures { result ≡ list_all (λ e. has_effect
        (declared_effects proto.now.statements.now proto.now.name.now proto.now.ret.now proto.now.params.now)
        (field_name (facts_of shape.now).fields e.0, e.1)) effects.now }
{
    effects.iter().all(|effect| is_declared(field_name(shape.fields, effect.0), effect.1, proto))
}

// Whether an effect is declared.
fn is_declared(field: &[u8], effect: Effect, proto: &Proto) -> bool
    ensures { result ≡ has_effect
        (declared_effects proto.now.statements.now proto.now.name.now proto.now.ret.now proto.now.params.now)
        (field.now, effect) }
{
    any_declared(&Same { field, effect }, proto)
}

// Whether a function has an effect.
fn has_effect(shape: &Shape, fun: &FunShape, field: &[u8], change: Change) -> bool
    ensures { result ≡ has_effect (service_effects (facts_of shape.now) (fun_of_shape fun.now)) (field.now, change_effect change) }
{
    is_among(shape, fun.effects, field, change)
}

// Whether an effect is one of these.
fn is_among(shape: &Shape, effects: &[(u8, Effect)], field: &[u8], change: Change) -> bool
    ensures { result ≡ list_any (λ e. bytes_eq (field_name (facts_of shape.now).fields e.0) field.now && same_effect e.1 (change_effect change)) effects.now }
{
    effects.iter().any(|effect| field_name(shape.fields, effect.0) == field && change.is(effect.1))
}

// The effects that a function hasn't.
#[derive(Clone, Copy)]
struct Foreign<'a> {
    shape: &'a Shape,
    fun: &'a FunShape,
}

impl Test for Foreign<'_> {
    ghost use Rattle.std.specs.Prelude.{not};

    ghost passes = { λ t e. not (has_effect (service_effects (facts_of t.shape.now) (fun_of_shape t.fun.now)) e) };

    fn has(&self, field: &[u8], change: Change) -> bool {
        !has_effect(self.shape, self.fun, field, change)
    }
}

// An effect on a field of this name.
#[derive(Clone, Copy)]
struct Same<'a> {
    field: &'a [u8],
    effect: Effect,
}

impl Test for Same<'_> {
    ghost passes = { λ t e. bytes_eq e.0 t.field.now && same_effect e.1 t.effect };

    fn has(&self, field: &[u8], change: Change) -> bool {
        field == self.field && change.is(self.effect)
    }
}
