// Where in a text it stands why its service can't be recovered.
ghost use Rattle.std.specs.Prelude.{◌≡◌};
ghost use Rattle.sg_describe.specs.sg_facts.Facts.{facts_of};
ghost use Rattle.sg_own.specs.SafePlaces.{call_place, fun_place, kind_of, obstacle_kind, most_place, reason_place, rule_at, rule_place};

use crate::fault::SafetyKind;
use sg_describe::{Rule, Shape, Statement, most_said, proto_place, rules_said};
use sg_safe::{FailingCall, Obstacle, Unsafe};

/// The kind of a reason.
pub fn kind_of(reason: &Unsafe) -> SafetyKind
    ensures { result ≡ kind_of reason.now }
{
    match reason {
        Unsafe::CountsFar { .. } => SafetyKind::CountsFar,
        Unsafe::Recounts { .. } => SafetyKind::Recounts,
        Unsafe::Overtaken { .. } => SafetyKind::Overtaken,
        Unsafe::Fails { call, .. } => obstacle_kind(call.obstacle),
    }
}

// The kind of what may make a replayed call fail.
fn obstacle_kind(obstacle: Obstacle) -> SafetyKind
    ensures { result ≡ obstacle_kind obstacle }
{
    match obstacle {
        Obstacle::NoClient { .. } => SafetyKind::NoClient,
        Obstacle::ByRule { .. } => SafetyKind::Refusable,
        Obstacle::PastMost { .. } => SafetyKind::Overflows,
    }
}

/// Where it stands in the statements of a text of this shape why its service can't be recovered: a number that is too great where it is said, a
/// rule where it stands, else the function's prototype.
pub fn reason_place(shape: &Shape, statements: &[Statement], reason: &Unsafe) -> usize
    ensures { result ≡ reason_place (facts_of shape.now) statements.now reason.now }
{
    match reason {
        Unsafe::CountsFar { field } => most_place(shape, statements, *field),
        Unsafe::Recounts { fun, .. } => fun_place(shape, statements, *fun),
        Unsafe::Overtaken { waiter, rule, .. } => rule_at(shape, statements, *waiter, *rule),
        Unsafe::Fails { call, .. } => call_place(shape, statements, call),
    }
}

// Where it stands what may make a replayed call fail: the rule, else the function's prototype.
fn call_place(shape: &Shape, statements: &[Statement], call: &FailingCall) -> usize
    ensures { result ≡ call_place (facts_of shape.now) statements.now call.now }
{
    match call.obstacle {
        Obstacle::ByRule { rule } => rule_at(shape, statements, call.fun, rule),
        Obstacle::NoClient { .. } | Obstacle::PastMost { .. } => {
            fun_place(shape, statements, call.fun)
        }
    }
}

// The place of the prototype of a function; 0 where it has none.
fn fun_place(shape: &Shape, statements: &[Statement], fun: u8) -> usize
    ensures { result ≡ fun_place (facts_of shape.now) statements.now fun }
{
    proto_place(statements, shape.fun(fun).name).unwrap_or(0)
}

// The place of a rule of a function, both numbered from 1; 0 where there is none.
fn rule_at(shape: &Shape, statements: &[Statement], fun: u8, rule: usize) -> usize
    ensures { result ≡ rule_at (facts_of shape.now) statements.now fun rule }
{
    match rules_said(statements, shape.fun(fun).name).get(rule.saturating_sub(1)) {
        Some(rule) => rule_place(rule),
        None => 0,
    }
}

// The place of a rule.
fn rule_place(rule: &Rule) -> usize
    ensures { result ≡ rule_place rule.now }
{
    match rule {
        Rule::Refuse { at, .. }
        | Rule::Wait { at, .. }
        | Rule::Give { at, .. }
        | Rule::GiveRow { at, .. }
        | Rule::GiveFirst { at, .. } => *at,
    }
}

// The place of what is said of the greatest number of a field, which is numbered from 0; 0 where nothing is.
fn most_place(shape: &Shape, statements: &[Statement], field: u8) -> usize
    ensures { result ≡ most_place (facts_of shape.now) statements.now field }
{
    match shape.fields.get(usize::from(field)) {
        Some(field) => match most_said(statements, field.name) {
            Some(most) => most.at,
            None => 0,
        },
        None => 0,
    }
}
