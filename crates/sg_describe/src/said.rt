// What the statements of a text say of greatest numbers and of answers.
ghost use Rattle.std.specs.Prelude.{◌≡◌, [], unwrap_or};
ghost use Rattle.std.specs.Option.{option_copied};
ghost use Rattle.sg_describe.specs.Said.{most_in, most_said, proto_in, proto_place, rules_in, rules_said};
ghost use Rattle.sg_describe.specs.Said.{first_in};

use sg_shape::{Rule, Spelled, Statement};

/// What the first statement that tells it says is the greatest number of the field of a name.
pub fn most_said<'t, 'a>(statements: &'t [Statement<'a>], field: &[u8]) -> Option<&'t Spelled<'a>>
    ensures { option_copied result ≡ most_said field.now statements.now }
{
    'statements: for statement in statements {
        if let Some(most) = most_in(statement, field) {
            return Some(most);
        }
    }
    None
}

// What a statement says is the greatest number of the field of a name.
fn most_in<'t, 'a>(statement: &'t Statement<'a>, field: &[u8]) -> Option<&'t Spelled<'a>>
    ensures { option_copied result ≡ most_in field.now statement.now }
{
    match statement {
        Statement::Most { field: of, most } if of.slice == field => Some(most),
        _ => None,
    }
}

/// The rules by which the function of a name answers, of the first statement that tells them; none where there isn't one.
pub fn rules_said<'t, 'a>(statements: &'t [Statement<'a>], fun: &[u8]) -> &'t [Rule<'a>]
    ensures { result.now ≡ rules_said fun.now statements.now }
{
    told(answer_said(statements, fun))
}

// The rules that are told; none where none are.
fn told<'t, 'a>(rules: Option<&'t [Rule<'a>]>) -> &'t [Rule<'a>]
    ensures { result.now ≡ unwrap_or (option_copied rules.entry) [] }
{
    match rules {
        Some(rules) => rules,
        None => &[],
    }
}

/// The rules of the first statement that says how the function of a name answers.
pub fn answer_said<'t, 'a>(statements: &'t [Statement<'a>], fun: &[u8]) -> Option<&'t [Rule<'a>]>
    ensures { option_copied result ≡ first_in (rules_in fun.now) statements.now }
{
    'statements: for statement in statements {
        if let Some(rules) = rules_in(statement, fun) {
            return Some(rules);
        }
    }
    None
}

// The rules by which a statement says that the function of a name answers.
fn rules_in<'t, 'a>(statement: &'t Statement<'a>, fun: &[u8]) -> Option<&'t [Rule<'a>]>
    ensures { option_copied result ≡ rules_in fun.now statement.now }
{
    match statement {
        Statement::Answer { fun: of, rules } if of.slice == fun => Some(rules.as_slice()),
        _ => None,
    }
}

/// The place of the name of a function in its prototype.
pub fn proto_place(statements: &[Statement], fun: &[u8]) -> Option<usize>
    ensures { result ≡ proto_place fun.now statements.now }
{
    'statements: for statement in statements {
        if let Some(at) = proto_in(statement, fun) {
            return Some(at);
        }
    }
    None
}

// The place of the name of a function in a statement that is its prototype.
fn proto_in(statement: &Statement, fun: &[u8]) -> Option<usize>
    ensures { result ≡ proto_in fun.now statement.now }
{
    match statement {
        Statement::Proto { name, .. } if name.slice == fun => Some(name.at),
        _ => None,
    }
}
