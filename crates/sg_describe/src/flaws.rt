// Where something is wrong with what a text says of answers.
ghost use Rattle.std.specs.Prelude.{◌≡◌, ◌==◌, ◌+◌, ◌<◌, ◌^◌, [], is_none, length, map, not};
ghost use Rattle.std.specs.List.{list_all, list_any};
ghost use Rattle.sg_shape.specs.sg_facts.Allowed.{is_never, is_replayed, wants_word};
ghost use Rattle.sg_shape.specs.sg_facts.Counted.{takes_word};
ghost use Rattle.sg_shape.specs.sg_facts.Facts.{facts_of, fun_of_shape};
ghost use Rattle.sg_described.specs.Safe.{is_plain_kind};
ghost use Rattle.sg_describe.specs.AnswerFaults.{flaw_of};
ghost use Rattle.sg_describe.specs.AnswerFlaws.{fun_flaw, funs_flaw, gives_always, head_flaw, is_flawed, is_later_word, lacks_word, not_yet_in, repeat_place, repeats, replays_text, statement_flaw, text_param};
ghost use Rattle.sg_describe.specs.Said.{first_in};

use crate::fault::AnswerFaultKind;
use crate::names::field_number;
use crate::rule_flaws::Wanted;
use crate::said::{answer_said, most_said, proto_place, rules_said};
use sg_shape::{
    Effect, FunShape, Kind, Param, Parents, Rule, Shape, Spelled, Statement, Tree, fun_of_name,
    has_word, number_of_digits,
};

/// The first place at which a text of a shape, which has fewer than 255 functions, has a flaw of a kind.
pub fn flaw_of(kind: AnswerFaultKind, shape: &Shape, tree: &Tree) -> Option<usize>
    requires { length (facts_of shape.now).funs < 255 }
    ensures { result ≡ flaw_of kind (facts_of shape.now) tree.now }
{
    let statements = tree.statements.as_slice();
    head_flaw(kind, shape, tree)
        .or(first_flaw(kind, shape, statements))
        .or(funs_flaw(kind, shape, statements, 1, shape.funs))
        .or(repeat_place(kind, statements))
}

// The fact at the head of a text of a shape that has a flaw of a kind: that can't be judged yet.
fn head_flaw(kind: AnswerFaultKind, shape: &Shape, tree: &Tree) -> Option<usize>
    ensures { result ≡ head_flaw kind (facts_of shape.now) tree.now }
{
    if kind != AnswerFaultKind::NotYet {
        return None;
    }
    if !matches!(shape.parents, Parents::Never) {
        return Some(tree.facts.parent.at);
    }
    if shape.subtree {
        return Some(tree.facts.close.at);
    }
    if shape.resc_data {
        Some(tree.facts.resc_data.at)
    } else {
        None
    }
}

// ---- statements

// The place in the first statement that has a flaw of a kind, whatever the others.
fn first_flaw(kind: AnswerFaultKind, shape: &Shape, statements: &[Statement]) -> Option<usize>
    ensures { result ≡ first_in (statement_flaw kind (facts_of shape.now)) statements.now }
{
    'statements: for statement in statements {
        if let Some(at) = statement_flaw(kind, shape, statement) {
            return Some(at);
        }
    }
    None
}

// The place in a statement that has a flaw of a kind, whatever the others.
fn statement_flaw(kind: AnswerFaultKind, shape: &Shape, statement: &Statement) -> Option<usize>
    ensures { result ≡ statement_flaw kind (facts_of shape.now) statement.now }
{
    match (kind, statement) {
        (AnswerFaultKind::NotYet, _) => not_yet_in(statement),
        (AnswerFaultKind::UnknownField, Statement::Most { field, .. })
            if field_number(shape, field.slice).is_none() => { Some(field.at) }
        (AnswerFaultKind::TooBig, Statement::Most { most, .. })
            if number_of_digits(most.slice).is_none() => { Some(most.at) }
        (AnswerFaultKind::NotExternal, Statement::External { fun })
            if !fun_of_name(shape, fun.slice).is_creation() => { Some(fun.at) }
        _ => None,
    }
}

// The place in a statement of what can't be judged yet.
fn not_yet_in(statement: &Statement) -> Option<usize>
    ensures { result ≡ not_yet_in statement.now }
{
    match statement {
        Statement::One { word, .. } if is_later_word(word.slice) => Some(word.at),
        Statement::Proto { params, .. } => first_text_param(params.as_slice()),
        Statement::Unique { fields } => first_place(fields.as_slice()),
        _ => None,
    }
}

// Whether a word is that for queries, or for functions that look at all rows.
fn is_later_word(word: &[u8]) -> bool
    ensures { result ≡ is_later_word word.now }
{
    word == b"sm_query".as_slice() || word == b"sm_needs_all".as_slice()
}

// The place of the first of names.
fn first_place(names: &[Spelled]) -> Option<usize>
    ensures { result ≡ first_in (λ name. Some name.at) names.now }
{
    match names.first() {
        Some(name) => Some(name.at),
        None => None,
    }
}

// The place of the first parameter that is a text in a field.
fn first_text_param(params: &[Param]) -> Option<usize>
    ensures { result ≡ first_in text_param params.now }
{
    'params: for param in params {
        if let Some(at) = text_param(param) {
            return Some(at);
        }
    }
    None
}

// The place of a parameter that is a text in a field.
fn text_param(param: &Param) -> Option<usize>
    ensures { result ≡ text_param param.now }
{
    let in_field = has_word(&param.form, b"desc_data") || has_word(&param.form, b"desc_data_add");
    if in_field && param.ty.stars != 0 {
        Some(param.name.at)
    } else {
        None
    }
}

// The first statement that says something a second time.
fn repeat_place(kind: AnswerFaultKind, statements: &[Statement]) -> Option<usize>
    ensures { result ≡ repeat_place kind [] statements.now }
{
    'statements: for (number, statement) in statements.iter().enumerate() {
        if let Some(at) = repeats(kind, &statements[..number], statement) {
            return Some(at);
        }
    }
    None
}

// The place where a statement says again what one of these says.
fn repeats(kind: AnswerFaultKind, before: &[Statement], statement: &Statement) -> Option<usize>
    ensures { result ≡ repeats kind before.now statement.now }
{
    match (kind, statement) {
        (AnswerFaultKind::TwoAnswers, Statement::Answer { fun, .. })
            if answer_said(before, fun.slice).is_some() => { Some(fun.at) }
        (AnswerFaultKind::TwoLimits, Statement::Most { field, .. })
            if most_said(before, field.slice).is_some() => { Some(field.at) }
        _ => None,
    }
}

// ---- functions

// The place in the first of these functions that has a flaw of a kind; they are numbered from a number on.
fn funs_flaw(
    kind: AnswerFaultKind,
    shape: &Shape,
    statements: &[Statement],
    first: u8,
    funs: &[FunShape],
) -> Option<usize>
    requires { first + length funs.now < 2 ^ 8 }
    ensures { result ≡ funs_flaw kind (facts_of shape.now) statements.now first (map fun_of_shape funs.now) }
{
    match funs {
        [] => None,
        [fun, rest @ ..] => match fun_flaw(kind, shape, statements, first, fun) {
            Some(at) => Some(at),
            None => funs_flaw(kind, shape, statements, first + 1, rest),
        },
    }
}

// The place of a flaw of a kind in a function, with its number: its prototype, or else a place in its rules.
fn fun_flaw(
    kind: AnswerFaultKind,
    shape: &Shape,
    statements: &[Statement],
    number: u8,
    fun: &FunShape,
) -> Option<usize>
    ensures { result ≡ fun_flaw kind (facts_of shape.now) statements.now number (fun_of_shape fun.now) }
{
    let proto = if is_flawed(kind, shape, statements, number, fun) {
        proto_place(statements, fun.name)
    } else {
        None
    };
    let wanted = Wanted { kind, shape, fun };
    proto.or(wanted.in_rules(rules_said(statements, fun.name)))
}

// Whether a function, with its number, has a flaw of a kind that stands at its prototype.
fn is_flawed(
    kind: AnswerFaultKind,
    shape: &Shape,
    statements: &[Statement],
    number: u8,
    fun: &FunShape,
) -> bool
    ensures { result ≡ is_flawed kind (facts_of shape.now) statements.now number (fun_of_shape fun.now) }
{
    match kind {
        AnswerFaultKind::NotYet => is_replayed(shape, number) && !takes_plain(fun),
        AnswerFaultKind::NoWord => lacks_word(fun, rules_said(statements, fun.name)),
        _ => false,
    }
}

// Whether the function of a number is replayed: it makes a descriptor, or is a recover step.
fn is_replayed(shape: &Shape, number: u8) -> bool
    ensures { result ≡ is_replayed (facts_of shape.now) number }
{
    shape.fun(number).is_creation() || is_second(shape.steps, number)
}

// Whether a number stands second in a pair.
fn is_second(pairs: &[(u8, u8)], number: u8) -> bool
    ensures { result ≡ list_any (λ p. p.1 == number) pairs.now }
{
    pairs.iter().any(|pair| pair.1 == number)
}

// Whether each parameter of a function is the descriptor or a number.
fn takes_plain(fun: &FunShape) -> bool
    ensures { result ≡ list_all is_plain_kind (fun_of_shape fun.now).kinds }
{
    fun.kinds
        .iter()
        .all(|kind| matches!(kind, Kind::Desc | Kind::Word))
}

// Whether a function takes its returned word into a field, and none of its rules always gives one.
fn lacks_word(fun: &FunShape, rules: &[Rule]) -> bool
    ensures { result ≡ lacks_word (fun_of_shape fun.now) rules.now }
{
    wants_word(fun) && !give_word(rules)
}

// Whether one of some rules always gives a word.
fn give_word(rules: &[Rule]) -> bool
    ensures { result ≡ list_any gives_always rules.now }
{
    rules.iter().any(|rule| gives_always(rule))
}

// Whether a function takes a returned word into a field.
fn wants_word(fun: &FunShape) -> bool
    ensures { result ≡ wants_word (fun_of_shape fun.now) }
{
    take_word(fun.effects)
}

// Whether one of some effects takes a returned word.
fn take_word(effects: &[(u8, Effect)]) -> bool
    ensures { result ≡ list_any (λ e. takes_word e.1) effects.now }
{
    effects.iter().any(|effect| takes_word(effect.1))
}

// Whether an effect takes a returned word.
fn takes_word(effect: Effect) -> bool
    ensures { result ≡ takes_word effect }
{
    match effect {
        Effect::SetRet | Effect::AddRet | Effect::SubRet => true,
        Effect::SetCaller
        | Effect::SetArg(_)
        | Effect::AddArg(_)
        | Effect::Clear
        | Effect::SubOne => false,
    }
}

// Whether a rule gives a word, whatever the call.
fn gives_always(rule: &Rule) -> bool
    ensures { result ≡ gives_always rule.now }
{
    match rule {
        Rule::Give { when, .. } => when.tests.is_empty() && when.rows.is_none(),
        Rule::Refuse { .. } | Rule::Wait { .. } | Rule::GiveRow { .. } | Rule::GiveFirst { .. } =>
            false,
    }
}
