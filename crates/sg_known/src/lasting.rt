// What goes on to hold through effects.
ghost use Rattle.std.specs.Prelude.{◌≡◌, ◌==◌, map};
ghost use Rattle.std.specs.List.{list_all, list_any};
ghost use Rattle.sg_described.specs.Described.{rule_of};
ghost use Rattle.sg_described.specs.Waiting.{is_left, never_falls, never_lowers, never_raises, never_rises, stands_on, stays_out, term_is_left, test_is_left, test_lasts};
ghost use Rattle.sg_known.specs.Seen.{pairs_of};

use crate::known::waits;
use sg_described::{Effect, Operand, Relation, RuleShape, Term, Test};
use sg_walk::effect_on;

// Whether an effect is on a field.
fn touches(effects: &[(u8, Effect)], field: u8) -> bool
    ensures { result ≡ list_any (λ e. e.0 == field) (pairs_of effects.now) }
{
    match effects {
        [] => false,
        [(other, _), rest @ ..] => *other == field || touches(rest, field),
    }
}

// Whether effects leave an operand as it is.
fn leave(effects: &[(u8, Effect)], operand: Operand) -> bool
    ensures { result ≡ is_left (pairs_of effects.now) operand }
{
    match operand {
        Operand::Own(field) => !touches(effects, field),
        _ => true,
    }
}

// Whether effects leave a term as it is.
fn leave_term(effects: &[(u8, Effect)], term: Term) -> bool
    ensures { result ≡ term_is_left (pairs_of effects.now) term }
{
    match term {
        Term::Only(a) => leave(effects, a),
        Term::Plus(a, b) | Term::Minus(a, b) | Term::Least(a, b) | Term::Greatest(a, b) => {
            leave(effects, a) && leave(effects, b)
        }
    }
}

// Whether an effect, or none, never raises its field.
fn raises_never(effect: Option<Effect>) -> bool
    ensures { result ≡ never_raises effect }
{
    match effect {
        None | Some(Effect::Clear | Effect::SubOne | Effect::SubRet) => true,
        Some(_) => false,
    }
}

// Whether an effect, or none, never lowers its field.
fn lowers_never(effect: Option<Effect>) -> bool
    ensures { result ≡ never_lowers effect }
{
    match effect {
        None | Some(Effect::AddArg(_) | Effect::AddRet) => true,
        Some(_) => false,
    }
}

// Whether effects never raise a term.
fn never_raise(effects: &[(u8, Effect)], term: Term) -> bool
    ensures { result ≡ never_rises (pairs_of effects.now) term }
{
    leave_term(effects, term)
        || match term {
            Term::Only(Operand::Own(field)) => raises_never(effect_on(effects, field)),
            _ => false,
        }
}

// Whether effects never lower a term.
fn never_lower(effects: &[(u8, Effect)], term: Term) -> bool
    ensures { result ≡ never_falls (pairs_of effects.now) term }
{
    leave_term(effects, term)
        || match term {
            Term::Only(Operand::Own(field)) => lowers_never(effect_on(effects, field)),
            _ => false,
        }
}

// Whether two terms that stand so to each other go on to.
fn stand_on(effects: &[(u8, Effect)], relation: Relation, left: Term, right: Term) -> bool
    ensures { result ≡ stands_on relation (pairs_of effects.now) left right }
{
    match relation {
        Relation::Is | Relation::IsNot => false,
        Relation::Below => never_raise(effects, left) && never_lower(effects, right),
        Relation::Above => never_lower(effects, left) && never_raise(effects, right),
    }
}

// Whether effects leave a test as it is.
fn leave_test(effects: &[(u8, Effect)], test: &Test) -> bool
    ensures { result ≡ test_is_left (pairs_of effects.now) test.now }
{
    leave_term(effects, test.left) && leave_term(effects, test.right)
}

// Whether a test that holds goes on to.
fn lasts(effects: &[(u8, Effect)], test: &Test) -> bool
    ensures { result ≡ test_lasts (pairs_of effects.now) test.now }
{
    leave_test(effects, test) || stand_on(effects, test.relation, test.left, test.right)
}

/// Whether tests that hold go on to.
pub fn all_last(effects: &[(u8, Effect)], tests: &[Test]) -> bool
    ensures { result ≡ list_all (test_lasts (pairs_of effects.now)) tests.now }
{
    tests.iter().all(|test| lasts(effects, test))
}

// Whether effects leave tests as they are.
fn leave_tests(effects: &[(u8, Effect)], tests: &[Test]) -> bool
    ensures { result ≡ list_all (test_is_left (pairs_of effects.now)) tests.now }
{
    tests.iter().all(|test| leave_test(effects, test))
}

// Whether a rule doesn't come in between.
fn keeps_out(effects: &[(u8, Effect)], rule: &RuleShape) -> bool
    ensures { result ≡ stays_out (pairs_of effects.now) (rule_of rule.now) }
{
    waits(rule.verdict) || leave_tests(effects, rule.tests)
}

/// Whether no rule comes in between.
pub fn all_keep_out(effects: &[(u8, Effect)], rules: &[RuleShape]) -> bool
    ensures { result ≡ list_all (stays_out (pairs_of effects.now)) (map rule_of rules.now) }
{
    match rules {
        [] => true,
        [first, rest @ ..] => keeps_out(effects, first) && all_keep_out(effects, rest),
    }
}
