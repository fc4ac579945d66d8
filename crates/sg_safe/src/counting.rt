// Fields that count.
ghost use Rattle.std.specs.Prelude.{◌≡◌, ◌+◌, ◌<◌, ◌^◌, ◌==◌, ◌&&◌, length, map};
ghost use Rattle.std.specs.Bool.{then_some};
ghost use Rattle.std.specs.List.{list_any};
ghost use Rattle.sg_known.specs.sg_facts.Allowed.{is_replayed};
ghost use Rattle.sg_known.specs.sg_facts.Counted.{is_counted, raises_by_word};
ghost use Rattle.sg_known.specs.sg_facts.Facts.{facts_of, fun_of_shape};
ghost use Rattle.sg_known.specs.sg_described.Described.{described_of};
ghost use Rattle.sg_known.specs.sg_described.Safe.{adds};
ghost use Rattle.sg_known.specs.Seen.{pairs_of};
ghost use Rattle.sg_safe.specs.Inside.Seen.{pairs_in};
ghost use Rattle.sg_safe.specs.Reasons.{counts_far, first_from, first_in, recounts};

use crate::reason::Unsafe;
use sg_known::{Description, Effect, FunShape, Shape};

// A number that no word of a service comes near of.
const SLOW: u64 = 1 << 34;

// Whether an effect raises its field by the returned word.
fn raises(effect: Effect) -> bool
    ensures { result ≡ raises_by_word effect }
{
    matches!(&effect, Effect::SetRet | Effect::AddRet)
}

// Whether some effect raises a field by the returned word.
fn some_raises(effects: &[(u8, Effect)], field: u8) -> bool
    ensures { result ≡ list_any (λ e. (e.0 == field) && raises_by_word e.1) (pairs_of effects.now) }
{
    match effects {
        [] => false,
        [(other, effect), rest @ ..] => {
            (*other == field && raises(*effect)) || some_raises(rest, field)
        }
    }
}

// Whether some function does.
fn any_raises(funs: &[FunShape], field: u8) -> bool
    ensures { result ≡ list_any (λ f. list_any (λ e. (e.0 == field) && raises_by_word e.1) f.effects) (map fun_of_shape funs.now) }
{
    match funs {
        [] => false,
        [first, rest @ ..] => some_raises(first.effects, field) || any_raises(rest, field),
    }
}

// Whether a field counts.
fn counts(shape: &Shape, field: u8) -> bool
    ensures { result ≡ is_counted (facts_of shape.now) field }
{
    any_raises(shape.funs, field)
}

/// The first field that counts and may go too far; fields are numbered from one on.
pub(crate) fn first_far(description: &Description, field: u8, most: &[u64]) -> Option<Unsafe>
    requires { field + length most.now < 2 ^ 8 }
    ensures { result ≡ first_from (counts_far (described_of description.now)) field most.now }
{
    match most {
        [] => None,
        [first, rest @ ..] => {
            if counts(&description.shape, field) && *first > SLOW {
                Some(Unsafe::CountsFar { field })
            } else {
                first_far(description, field + 1, rest)
            }
        }
    }
}

// Whether an effect adds.
fn adds_more(effect: Effect) -> bool
    ensures { result ≡ adds effect }
{
    matches!(&effect, Effect::AddArg(_) | Effect::AddRet)
}

// The first field that counts and that effects of a function add to.
fn first_added(shape: &Shape, fun: u8, effects: &[(u8, Effect)]) -> Option<Unsafe>
    ensures { result ≡ first_in (λ e. then_some (is_counted (facts_of shape.now) e.0 && adds e.1) (Unsafe.Recounts fun e.0)) (pairs_of effects.now) }
{
    match effects {
        [] => None,
        [(field, effect), rest @ ..] => {
            if counts(shape, *field) && adds_more(*effect) {
                Some(Unsafe::Recounts { fun, field: *field })
            } else {
                first_added(shape, fun, rest)
            }
        }
    }
}

// Whether a function is a recover step.
fn steps_to(steps: &[(u8, u8)], fun: u8) -> bool
    ensures { result ≡ list_any (λ s. s.1 == fun) (pairs_in steps.now) }
{
    match steps {
        [] => false,
        [first, rest @ ..] => first.1 == fun || steps_to(rest, fun),
    }
}

// Whether a function is replayed.
fn is_replayed(shape: &Shape, fun: u8) -> bool
    ensures { result ≡ is_replayed (facts_of shape.now) fun }
{
    shape.fun(fun).is_creation() || steps_to(shape.steps, fun)
}

// The first field that counts and that a function adds to, if it is replayed.
fn recounted(description: &Description, number: u8, fun: &FunShape) -> Option<Unsafe>
    ensures { result ≡ recounts (described_of description.now) number (fun_of_shape fun.now) }
{
    if is_replayed(&description.shape, number) {
        first_added(&description.shape, number, fun.effects)
    } else {
        None
    }
}

/// The first field that counts and that a replayed function adds to; functions are numbered from one on.
pub(crate) fn first_recounted(
    description: &Description,
    number: u8,
    funs: &[FunShape],
) -> Option<Unsafe>
    requires { number + length funs.now < 2 ^ 8 }
    ensures { result ≡ first_from (recounts (described_of description.now)) number (map fun_of_shape funs.now) }
{
    match funs {
        [] => None,
        [first, rest @ ..] => match recounted(description, number, first) {
            Some(found) => Some(found),
            None => first_recounted(description, number + 1, rest),
        },
    }
}
