// Whether who waits goes on to wait.
ghost use Rattle.std.specs.Prelude.{◌≡◌, ◌+◌, ◌-◌, ◌<◌, ◌≤◌, ◌^◌, ◌==◌, ◌++◌, IfOk, OnOk, not, drop, length, map, take, vec_len};
ghost use Rattle.std.specs.List.{list_all};
ghost use Rattle.sg_known.specs.sg_facts.Allowed.{implies};
ghost use Rattle.sg_known.specs.sg_facts.Facts.{fun_of_shape, state_after};
ghost use Rattle.sg_known.specs.sg_facts.Interface.{has_pair};
ghost use Rattle.sg_known.specs.sg_described.Described.{described_of, rule_of, rules_at};
ghost use Rattle.sg_known.specs.sg_described.Known.{between};
ghost use Rattle.sg_known.specs.sg_described.Waiting.{is_met_at, is_within, known_after, known_where, leaves_waiting, waits_on};
ghost use Rattle.sg_known.specs.Seen.{known_in, pairs_of};
ghost use Rattle.sg_safe.specs.Inside.Seen.{bounds_left};
ghost use Rattle.sg_known.specs.Surveys.{IsSurvey, subject_of};
ghost use Rattle.sg_safe.specs.Reasons.{first_from, overtaken, overtaken_at, overtaken_by};

use crate::reason::Unsafe;
use sg_known::{
    ArgsKnown, Bounds, Description, Effect, FunShape, NoMemory, RuleShape, Seen, Survey,
    all_keep_out, all_last, applies_surely, bounds_after, effect_on, narrow_all, state_left,
    stop_surely, waits,
};
use std::alloc::Global;

/// A rule by which a caller may wait: its function, its number, the rules before it, and the rule.
#[derive(Clone, Copy, Debug)]
pub(crate) struct WaitRule<'a> {
    pub waiter: u8,
    pub number: usize,
    pub before: &'a [RuleShape],
    pub rule: &'a RuleShape,
}

// ---- what is known where a rule applies

// Each field up to its greatest number.
fn all_up_to(alloc: Global, most: &[u64]) -> Result<Vec<Bounds>, NoMemory>
    ensures { IfOk result (λ v. v.items ≡ map (λ m. between 0 m) most.now) }
{
    Ok(
        most.iter()
            .map(|most| Bounds {
                least: 0,
                most: *most,
            })
            .collect(alloc)?,
    )
}

// What is known of the row of a call to which a rule applies.
fn seen_where<'a>(
    alloc: Global,
    survey: &Survey<'a>,
    rule: &RuleShape,
) -> Result<Seen<'a>, NoMemory>
    requires { IsSurvey survey.now }
    ensures known { IfOk result (λ seen. known_in seen ≡ known_where (subject_of survey.now) (rule_of rule.now)) }
    ensures count { IfOk result (λ seen. vec_len seen.fields ≡ vec_len survey.now.greatest) }
{
    let description = survey.description;
    let mut seen = Seen {
        args: ArgsKnown::Any,
        state: Bounds {
            least: 0,
            most: description.shape.funs.len() as u64,
        },
        fields: all_up_to(alloc, survey.greatest.as_slice())?,
    };
    narrow_all(&mut seen, rule.tests);
    Ok(seen)
}

// Adds what is known of fields after effects, numbered from one on.
fn add_after(
    after: &mut Vec<Bounds>,
    effects: &[(u8, Effect)],
    field: u8,
    fields: &[Bounds],
    most: &[u64],
) -> Result<(), NoMemory>
    requires { field + length fields.now < 2 ^ 8 }
    ensures { OnOk result (after.new.items ≡ after.old.items ++ bounds_left (pairs_of effects.now) field fields.now most.now) }
{
    if let [first, fields @ ..] = fields {
        if let [greatest, most @ ..] = most {
            after.push(bounds_after(effect_on(effects, field), *greatest, *first))?;
            return add_after(after, effects, field + 1, fields, most);
        }
    }
    Ok(())
}

// What is known of the row after an Ok of a function that keeps its state.
fn seen_after<'a>(
    alloc: Global,
    survey: &Survey<'_>,
    fun: u8,
    seen: &Seen<'a>,
) -> Result<Seen<'a>, NoMemory>
    requires survey { IsSurvey survey.now }
    requires count { vec_len seen.now.fields ≡ vec_len survey.now.greatest }
    requires few { vec_len survey.now.greatest < 2 ^ 8 }
    ensures { IfOk result (λ after. known_in after ≡ known_after (subject_of survey.now) fun (known_in seen.now)) }
{
    let description = survey.description;
    let mut fields = Vec::new(alloc);
    add_after(
        &mut fields,
        description.shape.fun(fun).effects,
        0,
        seen.fields.as_slice(),
        survey.greatest.as_slice(),
    )?;
    Ok(Seen {
        args: seen.args,
        state: seen.state,
        fields,
    })
}

// Whether a rule that made wait goes on to.
fn goes_on(
    alloc: Global,
    survey: &Survey<'_>,
    wait: WaitRule<'_>,
    seen: &Seen<'_>,
    fun: u8,
) -> Result<bool, NoMemory>
    requires survey { IsSurvey survey.now }
    requires count { vec_len seen.now.fields ≡ vec_len survey.now.greatest }
    requires few { vec_len survey.now.greatest < 2 ^ 8 }
    ensures { IfOk result (λ b. b ≡ waits_on (subject_of survey.now) fun (map rule_of wait.entry.before.now) (rule_of wait.entry.rule.now) (known_in seen.now)) }
{
    let description = survey.description;
    let effects = description.shape.fun(fun).effects;
    if !all_keep_out(effects, wait.before) {
        return Ok(false);
    }
    if all_last(effects, wait.rule.tests) {
        return Ok(true);
    }
    let after = seen_after(alloc, survey, fun, seen)?;
    Ok(applies_surely(&after, wait.rule))
}

// ---- where two functions may be called

// Whether a pair is listed.
fn has(pairs: &[(u8, u8)], first: u8, second: u8) -> bool
    ensures { result ≡ has_pair (map (λ p. (p.0, p.1)) pairs.now) first second }
{
    match pairs {
        [] => false,
        [pair, rest @ ..] => (pair.0 == first && pair.1 == second) || has(rest, first, second),
    }
}

// Whether a number is within bounds.
fn is_in(bounds: Bounds, number: u8) -> bool
    ensures { result ≡ is_within bounds number }
{
    bounds.least <= u64::from(number) && u64::from(number) <= bounds.most
}

// Whether two functions may both be called in the state of a pair, which is within bounds.
fn meet(description: &Description, waiter: u8, fun: u8, states: Bounds, pair: (u8, u8)) -> bool
    ensures { result ≡ is_met_at (described_of description.now) waiter fun states (pair.0, pair.1) }
{
    pair.1 == fun && is_in(states, pair.0) && has(description.shape.moves, pair.0, waiter)
}

// Whether they are never called in one state.
fn never(description: &Description, waiter: u8, fun: u8, states: Bounds, pairs: &[(u8, u8)]) -> bool
    ensures { result ≡ list_all (λ m. not (is_met_at (described_of description.now) waiter fun states m)) (map (λ p. (p.0, p.1)) pairs.now) }
{
    match pairs {
        [] => true,
        [first, rest @ ..] => {
            !meet(description, waiter, fun, states, *first)
                && never(description, waiter, fun, states, rest)
        }
    }
}

// Whether the other function leaves the state where they meet.
fn keeps(description: &Description, waiter: u8, fun: u8, states: Bounds, pairs: &[(u8, u8)]) -> bool
    ensures { result ≡ list_all (λ m. implies (is_met_at (described_of description.now) waiter fun states m) (state_after (described_of description.now).facts fun m.0 == m.0)) (map (λ p. (p.0, p.1)) pairs.now) }
{
    match pairs {
        [] => true,
        [first, rest @ ..] => {
            (state_left(&description.shape, fun, first.0) == first.0
                || !meet(description, waiter, fun, states, *first))
                && keeps(description, waiter, fun, states, rest)
        }
    }
}

// ---- who waits

// Whether a function leaves who waits waiting.
fn leaves(
    alloc: Global,
    survey: &Survey<'_>,
    wait: WaitRule<'_>,
    seen: &Seen<'_>,
    number: u8,
    fun: &FunShape,
) -> Result<bool, NoMemory>
    requires survey { IsSurvey survey.now }
    requires known { known_in seen.now ≡ known_where (subject_of survey.now) (rule_of wait.rule.now) }
    requires count { vec_len seen.now.fields ≡ vec_len survey.now.greatest }
    requires few { vec_len survey.now.greatest < 2 ^ 8 }
    ensures { IfOk result (λ b. b ≡ leaves_waiting (subject_of survey.now) wait.entry.waiter (map rule_of wait.entry.before.now) (rule_of wait.entry.rule.now) number (fun_of_shape fun.now)) }
{
    let description = survey.description;
    let moves = description.shape.moves;
    if fun.is_creation()
        || fun.is_terminal()
        || fun.wakes()
        || never(description, wait.waiter, number, seen.state, moves)
        || stop_surely(seen, description.rules(number))
    {
        return Ok(true);
    }
    if !keeps(description, wait.waiter, number, seen.state, moves) {
        return Ok(false);
    }
    Ok(goes_on(alloc, survey, wait, seen, number)?)
}

// The first function that may let pass who waits by a rule, numbered from one on.
fn passed_by(
    alloc: Global,
    survey: &Survey<'_>,
    wait: WaitRule<'_>,
    seen: &Seen<'_>,
    number: u8,
    funs: &[FunShape],
) -> Result<Option<Unsafe>, NoMemory>
    requires survey { IsSurvey survey.now }
    requires known { known_in seen.now ≡ known_where (subject_of survey.now) (rule_of wait.rule.now) }
    requires before { map rule_of wait.before.now ≡ take (wait.number - 1) (rules_at (subject_of survey.now) wait.waiter) }
    requires count { vec_len seen.now.fields ≡ vec_len survey.now.greatest }
    requires few { vec_len survey.now.greatest < 2 ^ 8 }
    requires numbers { number + length funs.now < 2 ^ 8 }
    ensures { IfOk result (λ found. found ≡ first_from (overtaken_by (subject_of survey.now) wait.entry.waiter wait.entry.number (rule_of wait.entry.rule.now)) number (map fun_of_shape funs.now)) }
{
    match funs {
        [] => Ok(None),
        [first, rest @ ..] => {
            if leaves(alloc, survey, wait, seen, number, first)? {
                passed_by(alloc, survey, wait, seen, number + 1, rest)
            } else {
                Ok(Some(Unsafe::Overtaken {
                    waiter: wait.waiter,
                    rule: wait.number,
                    by: number,
                }))
            }
        }
    }
}

// Who may be let pass that waits by a rule.
fn overtaken_by_rule(
    alloc: Global,
    survey: &Survey<'_>,
    wait: WaitRule<'_>,
) -> Result<Option<Unsafe>, NoMemory>
    requires survey { IsSurvey survey.now }
    requires before { map rule_of wait.before.now ≡ take (wait.number - 1) (rules_at (subject_of survey.now) wait.waiter) }
    requires few { vec_len survey.now.greatest < 2 ^ 8 }
    requires numbers { length (subject_of survey.now).facts.funs < 2 ^ 7 }
    ensures { IfOk result (λ found. found ≡ overtaken_at (subject_of survey.now) wait.entry.waiter wait.entry.number (rule_of wait.entry.rule.now)) }
{
    if !waits(wait.rule.verdict) {
        return Ok(None);
    }
    let seen = seen_where(alloc, survey, wait.rule)?;
    let description = survey.description;
    passed_by(alloc, survey, wait, &seen, 1, description.shape.funs)
}

// Who may be let pass that waits for a function, by its rules from a place on.
fn overtaken_at_rules(
    alloc: Global,
    survey: &Survey<'_>,
    waiter: u8,
    rules: &[RuleShape],
    at: usize,
) -> Result<Option<Unsafe>, NoMemory>
    requires survey { IsSurvey survey.now }
    requires rules { map rule_of rules.now ≡ rules_at (subject_of survey.now) waiter }
    requires few { vec_len survey.now.greatest < 2 ^ 8 }
    requires numbers { length (subject_of survey.now).facts.funs < 2 ^ 7 }
    requires at { at ≤ length rules.now }
    ensures { IfOk result (λ found. found ≡ first_from (overtaken_at (subject_of survey.now) waiter) (at + 1) (drop at (map rule_of rules.now))) }
{
    match rules.get(at) {
        None => Ok(None),
        Some(rule) => {
            let wait = WaitRule {
                waiter,
                number: at + 1,
                before: &rules[..at],
                rule,
            };
            match overtaken_by_rule(alloc, survey, wait)? {
                Some(found) => Ok(Some(found)),
                None => Ok(overtaken_at_rules(alloc, survey, waiter, rules, at + 1)?),
            }
        }
    }
}

/// The first who waits for one of some functions and may be let pass; they are numbered from one on.
pub(crate) fn first_overtaken(
    alloc: Global,
    survey: &Survey<'_>,
    number: u8,
    funs: &[FunShape],
) -> Result<Option<Unsafe>, NoMemory>
    requires survey { IsSurvey survey.now }
    requires few { vec_len survey.now.greatest < 2 ^ 8 }
    requires numbers { length (subject_of survey.now).facts.funs < 2 ^ 7 }
    requires rest { number + length funs.now < 2 ^ 8 }
    ensures { IfOk result (λ found. found ≡ first_from (overtaken (subject_of survey.now)) number (map fun_of_shape funs.now)) }
{
    match funs {
        [] => Ok(None),
        [_, rest @ ..] => {
            let description = survey.description;
            let rules = description.rules(number);
            match overtaken_at_rules(alloc, survey, number, rules, 0)? {
                Some(found) => Ok(Some(found)),
                None => first_overtaken(alloc, survey, number + 1, rest),
            }
        }
    }
}
