// The rules of a text.
ghost use Rattle.std.specs.Prelude.{◌≡◌, slice_get};
ghost use Rattle.std.specs.List.{filter_map};
ghost use Rattle.sg_shape.specs.Flaws.{extra_rule, rule_at};

use crate::limits::MOST_RULES;
use sg_check_statements::{Rule, Statement};

/// The place of the first rule in statements past the greatest number of a function's.
pub fn first_extra_rule(statements: &[Statement]) -> Option<usize>
    ensures { result ≡ slice_get (filter_map extra_rule statements.now) 0 }
{
    'statements: for statement in statements {
        if let Some(at) = extra_rule(statement) {
            return Some(at);
        }
    }
    None
}

// The place of the first rule of a statement past the greatest number of them.
fn extra_rule(statement: &Statement) -> Option<usize>
    ensures { result ≡ extra_rule statement.now }
{
    match statement {
        Statement::Answer { rules, .. } => match rules.as_slice().get(MOST_RULES) {
            Some(rule) => Some(rule_at(rule)),
            None => None,
        },
        _ => None,
    }
}

/// The place of a rule: that of its first word.
pub fn rule_at(rule: &Rule) -> usize
    ensures { result ≡ rule_at rule.now }
{
    match rule {
        Rule::Refuse { at, .. }
        | Rule::Wait { at, .. }
        | Rule::Give { at, .. }
        | Rule::GiveRow { at, .. }
        | Rule::GiveFirst { at, .. } => *at,
    }
}
