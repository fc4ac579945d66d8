// What is known of the numbers that rules read.
ghost use Rattle.std.specs.Prelude.{◌≡◌, ◌+◌, ◌-◌, min, max, map};
ghost use Rattle.sg_described.specs.Described.{rule_of};
ghost use Rattle.sg_described.specs.Known.{between, bounds_after, is_give, is_wait, may_stop, never, never_applies, never_stands, operand_in, surely, surely_apart, surely_applies, surely_same, surely_stands, surely_stops, term_in, word_by, word_most};
ghost use Rattle.sg_described.specs.Meaning.{last_word};
ghost use Rattle.sg_described.specs.Walking.{carrier};
ghost use Rattle.sg_described.specs.sg_facts.Walks.{carries_arg};
ghost use Rattle.sg_known.specs.Seen.{args_in, fields_in, known_in, pairs_of, up_to};

use sg_described::{
    Bounds, Effect, FIRST_CLIENT, LAST_CLIENT, Operand, Relation, RuleShape, Term, Test, Verdict,
};

/// What is known of a call and its row.
#[derive(Debug, Drop)]
pub struct Seen<'a> {
    pub args: ArgsKnown<'a>,
    pub state: Bounds,
    pub fields: Vec<Bounds>,
}

/// What is known of the arguments of a call.
#[derive(Clone, Copy, Debug)]
pub enum ArgsKnown<'a> {
    /// Nothing.
    Any,
    /// Each is up to the greatest number of the field that carries it: effects, and the greatest numbers of fields.
    Carried(&'a [(u8, Effect)], &'a [u64]),
}

/// What is 0.
pub const ZERO: Bounds = Bounds { least: 0, most: 0 };

/// Any number of 64 bits.
pub const ANY: Bounds = Bounds {
    least: 0,
    most: u64::MAX,
};

// ---- operands and terms

/// A field up to its greatest number.
pub fn bounds_up_to(most: &[u64], field: u8) -> Bounds
    ensures { result ≡ up_to most.now field }
{
    match most.get(usize::from(field)) {
        Some(most) => Bounds {
            least: 0,
            most: *most,
        },
        None => ZERO,
    }
}

// Whether an effect carries an argument into its field.
fn carries(effect: Effect, at: u8) -> bool
    ensures { result ≡ carries_arg at effect }
{
    match effect {
        Effect::SetArg(other) | Effect::AddArg(other) => other == at,
        _ => false,
    }
}

// The field that carries an argument.
fn carrier(effects: &[(u8, Effect)], at: u8) -> Option<u8>
    ensures { result ≡ carrier (pairs_of effects.now) at }
{
    match effects {
        [] => None,
        [(field, effect), rest @ ..] => {
            if carries(*effect, at) {
                Some(*field)
            } else {
                carrier(rest, at)
            }
        }
    }
}

// What is known of an argument.
fn arg_bounds(args: ArgsKnown<'_>, at: u8) -> Bounds
    ensures { result ≡ args_in args.entry at }
{
    match args {
        ArgsKnown::Any => ANY,
        ArgsKnown::Carried(effects, most) => match carrier(effects, at) {
            Some(field) => bounds_up_to(most, field),
            None => ZERO,
        },
    }
}

/// What is known of a field.
pub fn field_bounds(fields: &[Bounds], at: u8) -> Bounds
    ensures { result ≡ fields_in fields.now at }
{
    match fields.get(usize::from(at)) {
        Some(bounds) => *bounds,
        None => ZERO,
    }
}

// What is known of an operand.
fn operand_bounds(seen: &Seen<'_>, operand: Operand) -> Bounds
    ensures { result ≡ operand_in (known_in seen.now) operand }
{
    match operand {
        Operand::Number(number) => Bounds {
            least: number,
            most: number,
        },
        Operand::Caller => Bounds {
            least: u64::from(FIRST_CLIENT),
            most: u64::from(LAST_CLIENT),
        },
        Operand::State => seen.state,
        Operand::Argument(at) => arg_bounds(seen.args, at),
        Operand::Own(at) => field_bounds(seen.fields.as_slice(), at),
    }
}

// What is known of a term.
fn term_bounds(seen: &Seen<'_>, term: Term) -> Bounds
    ensures { result ≡ term_in (known_in seen.now) term }
{
    match term {
        Term::Only(a) => operand_bounds(seen, a),
        Term::Plus(a, b) => sum(operand_bounds(seen, a), operand_bounds(seen, b)),
        Term::Minus(a, b) => difference(operand_bounds(seen, a), operand_bounds(seen, b)),
        Term::Least(a, b) => least(operand_bounds(seen, a), operand_bounds(seen, b)),
        Term::Greatest(a, b) => greatest(operand_bounds(seen, a), operand_bounds(seen, b)),
    }
}

// The sum of two numbers, at most the greatest of 64 bits.
fn sum(a: Bounds, b: Bounds) -> Bounds
    ensures { result ≡ between (min (a.least + b.least) last_word) (min (a.most + b.most) last_word) }
{
    Bounds {
        least: a.least.saturating_add(b.least),
        most: a.most.saturating_add(b.most),
    }
}

// The difference of two numbers, at least 0.
fn difference(a: Bounds, b: Bounds) -> Bounds
    ensures { result ≡ between (a.least - b.most) (a.most - b.least) }
{
    Bounds {
        least: a.least.saturating_sub(b.most),
        most: a.most.saturating_sub(b.least),
    }
}

// The least of two numbers.
fn least(a: Bounds, b: Bounds) -> Bounds
    ensures { result ≡ between (min a.least b.least) (min a.most b.most) }
{
    Bounds {
        least: a.least.min(b.least),
        most: a.most.min(b.most),
    }
}

// The greatest of two numbers.
fn greatest(a: Bounds, b: Bounds) -> Bounds
    ensures { result ≡ between (max a.least b.least) (max a.most b.most) }
{
    Bounds {
        least: a.least.max(b.least),
        most: a.most.max(b.most),
    }
}

// ---- tests

// Whether two numbers are surely one.
fn are_same(a: Bounds, b: Bounds) -> bool
    ensures { result ≡ surely_same a b }
{
    a.least == a.most && b.least == b.most && a.least == b.least
}

// Whether two numbers surely aren't one.
fn are_apart(a: Bounds, b: Bounds) -> bool
    ensures { result ≡ surely_apart a b }
{
    a.most < b.least || b.most < a.least
}

// Whether two numbers surely stand so to each other.
fn stand_surely(relation: Relation, a: Bounds, b: Bounds) -> bool
    ensures { result ≡ surely_stands relation a b }
{
    match relation {
        Relation::Is => are_same(a, b),
        Relation::IsNot => are_apart(a, b),
        Relation::Below => a.most < b.least,
        Relation::Above => b.most < a.least,
    }
}

// Whether they surely don't.
fn stand_never(relation: Relation, a: Bounds, b: Bounds) -> bool
    ensures { result ≡ never_stands relation a b }
{
    match relation {
        Relation::Is => are_apart(a, b),
        Relation::IsNot => are_same(a, b),
        Relation::Below => b.most <= a.least,
        Relation::Above => a.most <= b.least,
    }
}

// Whether a test surely holds.
fn holds_surely(seen: &Seen<'_>, test: &Test) -> bool
    ensures { result ≡ surely (known_in seen.now) test.now }
{
    stand_surely(
        test.relation,
        term_bounds(seen, test.left),
        term_bounds(seen, test.right),
    )
}

// Whether a test surely doesn't hold.
fn holds_never(seen: &Seen<'_>, test: &Test) -> bool
    ensures { result ≡ never (known_in seen.now) test.now }
{
    stand_never(
        test.relation,
        term_bounds(seen, test.left),
        term_bounds(seen, test.right),
    )
}

// ---- rules

/// Whether a rule surely applies.
pub fn applies_surely(seen: &Seen<'_>, rule: &RuleShape) -> bool
    ensures { result ≡ surely_applies (known_in seen.now) (rule_of rule.now) }
{
    rule.tests.iter().all(|test| holds_surely(seen, test))
}

/// Whether a rule surely doesn't apply.
pub fn applies_never(seen: &Seen<'_>, rule: &RuleShape) -> bool
    ensures { result ≡ never_applies (known_in seen.now) (rule_of rule.now) }
{
    rule.tests.iter().any(|test| holds_never(seen, test))
}

/// Whether a verdict is to wait.
pub fn waits(verdict: Verdict) -> bool
    ensures { result ≡ is_wait verdict }
{
    matches!(&verdict, Verdict::Wait)
}

// Whether a verdict gives a word.
fn gives(verdict: Verdict) -> bool
    ensures { result ≡ is_give verdict }
{
    matches!(&verdict, Verdict::Give(_))
}

/// Whether a rule may refuse or put off.
pub fn stops(seen: &Seen<'_>, rule: &RuleShape) -> bool
    ensures { result ≡ may_stop (known_in seen.now) (rule_of rule.now) }
{
    !gives(rule.verdict) && !applies_never(seen, rule)
}

/// Whether rules surely refuse or put off.
pub fn stop_surely(seen: &Seen<'_>, rules: &[RuleShape]) -> bool
    ensures { result ≡ surely_stops (known_in seen.now) (map rule_of rules.now) }
{
    match rules {
        [] => false,
        [first, rest @ ..] => {
            if gives(first.verdict) {
                applies_never(seen, first) && stop_surely(seen, rest)
            } else {
                applies_surely(seen, first) || stop_surely(seen, rest)
            }
        }
    }
}

// The greatest word that a verdict gives.
fn word_in(seen: &Seen<'_>, verdict: Verdict) -> u64
    ensures { result ≡ word_by (known_in seen.now) verdict }
{
    match verdict {
        Verdict::Give(term) => term_bounds(seen, term).most,
        Verdict::Refuse(_) | Verdict::Wait => 0,
    }
}

/// The greatest word that rules give.
pub fn greatest_word(seen: &Seen<'_>, rules: &[RuleShape]) -> u64
    ensures { result ≡ word_most (known_in seen.now) (map rule_of rules.now) }
{
    match rules {
        [] => 0,
        [first, rest @ ..] => word_in(seen, first.verdict).max(greatest_word(seen, rest)),
    }
}

// ---- effects

/// A field after the effect on it, or none.
pub fn bounds_after(effect: Option<Effect>, most: u64, bounds: Bounds) -> Bounds
    ensures { result ≡ bounds_after effect most bounds }
{
    match effect {
        None => bounds,
        Some(Effect::SetCaller) => Bounds {
            least: most.min(1),
            most: most.min(u64::from(LAST_CLIENT)),
        },
        Some(Effect::SetArg(_) | Effect::SetRet) => Bounds { least: 0, most },
        Some(Effect::AddArg(_) | Effect::AddRet) => Bounds {
            least: bounds.least,
            most,
        },
        Some(Effect::Clear) => ZERO,
        Some(Effect::SubOne) => Bounds {
            least: bounds.least.saturating_sub(1),
            most: bounds.most.saturating_sub(1),
        },
        Some(Effect::SubRet) => Bounds {
            least: 0,
            most: bounds.most,
        },
    }
}
