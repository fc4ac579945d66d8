// What no shape may have.
ghost use Rattle.std.specs.Prelude.{◌≡◌, ◌≤◌, ◌==◌, length, map, not, count_by};
ghost use Rattle.std.specs.List.{list_all, list_any};
ghost use Rattle.sg_check_statements.specs.sg_facts.Allowed.{count_args, each_arg, has_no_parents, is_never, is_text_field, leaves_known, leaves_own};
ghost use Rattle.sg_check_statements.specs.sg_facts.Facts.{facts_of, fun_of_shape, takes_parent, writes};
ghost use Rattle.sg_check_statements.specs.sg_facts.Walks.{carries_arg};
ghost use Rattle.sg_shape.specs.Flaws.{is_forbidden, replays};
ghost use Rattle.sg_shape.specs.Inside.Parts.{fields_in};

use crate::fault::ShapeFaultKind;
use sg_check_statements::{Effect, FieldShape, FunShape, Kind, Leaves, Parents, Shape};

/// Whether a function of a shape, with its number, has a flaw of a kind.
pub fn is_forbidden(kind: ShapeFaultKind, shape: &Shape, number: usize, fun: &FunShape) -> bool
    ensures { result ≡ is_forbidden kind (facts_of shape.now) number (fun_of_shape fun.now) }
{
    match kind {
        ShapeFaultKind::PrivateLooksAround => !shape.global && fun.looks_at_all(),
        ShapeFaultKind::QueryTakes => fun.is_query() && fun.takes_id(),
        ShapeFaultKind::FileWithoutDesc => fun.uses_file() && !fun.takes_desc(),
        ShapeFaultKind::TextChanged => !fun.is_creation() && changes_text(shape, fun),
        ShapeFaultKind::BlocksOrMakes => {
            fun.may_block() && (fun.is_creation() || fun.is_terminal())
        }
        ShapeFaultKind::StateOfOther => !leaves_own(shape, fun.leaves),
        ShapeFaultKind::MakesOn => {
            fun.is_creation() && (fun.is_query() || fun.is_terminal() || fun.takes_desc())
        }
        ShapeFaultKind::ActsOnNone => { !fun.is_creation() && !fun.is_query() && !fun.takes_desc() }
        ShapeFaultKind::NoParents => matches!(shape.parents, Parents::Never) && fun.takes_parent(),
        ShapeFaultKind::ReplayWrites => replays(shape, number, fun) && writes(fun),
        ShapeFaultKind::ArgumentLost => replays(shape, number, fun) && loses_argument(fun),
        ShapeFaultKind::ReplayUnknown => {
            replays(shape, number, fun) && !has_no_parents(shape) && leaves_unknown(fun)
        }
        ShapeFaultKind::RecoverMakes => fun.is_creation() && is_step(shape, number),
        ShapeFaultKind::Limit
        | ShapeFaultKind::DuplicateName
        | ShapeFaultKind::UnknownFunction
        | ShapeFaultKind::BadParams
        | ShapeFaultKind::MixedField
        | ShapeFaultKind::TwoEffects
        | ShapeFaultKind::Contradiction
        | ShapeFaultKind::WrongFact => false,
    }
}

// Whether a function changes a text.
fn changes_text(shape: &Shape, fun: &FunShape) -> bool
    ensures { result ≡ list_any (λ e. is_text_field (facts_of shape.now).fields e.0) (fun_of_shape fun.now).effects }
{
    effects(fun)
        .iter()
        .any(|effect| is_text_field(shape.fields, effect.0))
}

// What a function does to fields.
fn effects(fun: &FunShape) -> &'static [(u8, Effect)]
    ensures { result.now ≡ (fun_of_shape fun.now).effects }
{
    fun.effects
}

// Whether the field of a number is a text.
fn is_text_field(fields: &[FieldShape], number: u8) -> bool
    ensures { result ≡ is_text_field (fields_in fields.now) number }
{
    match fields.get(usize::from(number)) {
        Some(field) => field.text,
        None => false,
    }
}

// Whether the function whose state another leaves leaves its own.
fn leaves_own(shape: &Shape, leaves: Leaves) -> bool
    ensures { result ≡ leaves_own (facts_of shape.now).funs leaves }
{
    match leaves {
        Leaves::Own | Leaves::Same => true,
        Leaves::Of(other) => matches!(shape.fun(other).leaves, Leaves::Own),
    }
}

// Whether a function, with its number, is replayed: it makes a descriptor, or is a recover step.
fn replays(shape: &Shape, number: usize, fun: &FunShape) -> bool
    ensures { result ≡ replays (facts_of shape.now) number (fun_of_shape fun.now) }
{
    fun.is_creation() || is_step(shape, number)
}

// Whether the function of a number is a recover step.
fn is_step(shape: &Shape, number: usize) -> bool
    ensures { result ≡ list_any (λ s. s.1 == number) (facts_of shape.now).steps }
{
    is_second(shape.steps, number)
}

// Whether a number stands second in a pair.
fn is_second(pairs: &[(u8, u8)], number: usize) -> bool
    ensures { result ≡ list_any (λ s. s.1 == number) pairs.now }
{
    pairs.iter().any(|pair| usize::from(pair.1) == number)
}

// Whether a function writes the file of its descriptor.
fn writes(fun: &FunShape) -> bool
    ensures { result ≡ writes (fun_of_shape fun.now) }
{
    fun.uses_file() && !fun.shows_bytes()
}

// Whether some argument of a function goes into no field, or into two.
fn loses_argument(fun: &FunShape) -> bool
    ensures { result ≡ not (each_arg (fun_of_shape fun.now).effects (count_args (fun_of_shape fun.now).kinds)) }
{
    !each_arg(effects(fun), count_args(fun.kinds))
}

// Whether each of so many arguments goes into one field.
fn each_arg(effects: &[(u8, Effect)], count: usize) -> bool
    ensures { result ≡ each_arg effects.now count }
{
    if count == 0 {
        return true;
    }
    carriers(effects, count - 1) == 1 && each_arg(effects, count - 1)
}

// The number of effects that carry the argument of a number.
fn carriers(effects: &[(u8, Effect)], number: usize) -> usize
    ensures { result ≡ count_by (λ e. carries_arg number e.1) effects.now }
{
    effects
        .iter()
        .filter(|effect| carries_arg(effect.1, number))
        .count()
}

// Whether an effect carries the argument of a number.
fn carries_arg(effect: Effect, number: usize) -> bool
    ensures { result ≡ carries_arg number effect }
{
    match effect {
        Effect::SetArg(own) | Effect::AddArg(own) => usize::from(own) == number,
        Effect::SetCaller
        | Effect::SetRet
        | Effect::AddRet
        | Effect::Clear
        | Effect::SubOne
        | Effect::SubRet => false,
    }
}

/// The number of parameters that are neither descriptor nor parent.
pub fn count_args(kinds: &[Kind]) -> usize
    ensures count { result ≡ count_args kinds.now }
    ensures bound { result ≤ length kinds.now }
{
    match kinds {
        [] => 0,
        [Kind::Desc | Kind::Parent, rest @ ..] => count_args(rest),
        [Kind::Word | Kind::Text, rest @ ..] => 1 + count_args(rest),
    }
}

// Whether no function takes a parent.
fn has_no_parents(shape: &Shape) -> bool
    ensures { result ≡ has_no_parents (facts_of shape.now) }
{
    take_no_parents(shape.funs)
}

// Whether none of these functions takes a parent.
fn take_no_parents(funs: &[FunShape]) -> bool
    ensures { result ≡ list_all (λ f. not (takes_parent f)) (map fun_of_shape funs.now) }
{
    match funs {
        [] => true,
        [fun, rest @ ..] => !fun.takes_parent() && take_no_parents(rest),
    }
}

// Whether a function leaves a field that the row doesn't tell.
fn leaves_unknown(fun: &FunShape) -> bool
    ensures { result ≡ not (list_all (λ e. leaves_known e.1) (fun_of_shape fun.now).effects) }
{
    !are_known(effects(fun))
}

// Whether each of these effects leaves what the row tells, or nothing.
fn are_known(effects: &[(u8, Effect)]) -> bool
    ensures { result ≡ list_all (λ e. leaves_known e.1) effects.now }
{
    effects.iter().all(|effect| leaves_known(effect.1))
}

// Whether an effect leaves what the row tells, or nothing.
fn leaves_known(effect: Effect) -> bool
    ensures { result ≡ leaves_known effect }
{
    matches!(
        effect,
        Effect::SetCaller | Effect::SetArg(_) | Effect::Clear
    )
}
