// Which rule applies to a call, and what it says.
ghost use Rattle.std.specs.Prelude.{◌≡◌, map};
ghost use Rattle.sg_described.specs.Described.{rule_of};
ghost use Rattle.sg_described.specs.Meaning.{applies, holds, operand_of, stands, term_of, verdict_of};
ghost use Rattle.sg_interpret.specs.Inside.Views.{env_in};

use crate::view::{View, argument, field};
use sg_described::{Operand, Relation, RuleShape, Term, Test, Verdict};

// The number that an operand reads.
fn operand_word(view: &View<'_>, operand: Operand) -> u64
    ensures { result ≡ operand_of (env_in view.now) operand }
{
    match operand {
        Operand::Number(number) => number,
        Operand::Caller => u64::from(view.call.client),
        Operand::State => u64::from(view.state),
        Operand::Argument(at) => argument(view.call, at),
        Operand::Own(at) => field(view.fields, at),
    }
}

/// The number that a term gives.
pub(crate) fn term_word(view: &View<'_>, term: Term) -> u64
    ensures { result ≡ term_of (env_in view.now) term }
{
    match term {
        Term::Only(a) => operand_word(view, a),
        Term::Plus(a, b) => operand_word(view, a).saturating_add(operand_word(view, b)),
        Term::Minus(a, b) => operand_word(view, a).saturating_sub(operand_word(view, b)),
        Term::Least(a, b) => operand_word(view, a).min(operand_word(view, b)),
        Term::Greatest(a, b) => operand_word(view, a).max(operand_word(view, b)),
    }
}

// Whether two numbers stand so to each other.
fn stands_so(relation: Relation, left: u64, right: u64) -> bool
    ensures { result ≡ stands relation left right }
{
    match relation {
        Relation::Is => left == right,
        Relation::IsNot => left != right,
        Relation::Below => left < right,
        Relation::Above => left > right,
    }
}

// Whether a test holds.
fn test_holds(view: &View<'_>, test: &Test) -> bool
    ensures { result ≡ holds (env_in view.now) test.now }
{
    stands_so(
        test.relation,
        term_word(view, test.left),
        term_word(view, test.right),
    )
}

// Whether a rule applies.
fn rule_applies(view: &View<'_>, rule: &RuleShape) -> bool
    ensures { result ≡ applies (env_in view.now) (rule_of rule.now) }
{
    rule.tests.iter().all(|test| test_holds(view, test))
}

/// The verdict of the first rule that applies; None where none does.
pub(crate) fn first_verdict(view: &View<'_>, rules: &[RuleShape]) -> Option<Verdict>
    ensures { result ≡ verdict_of (env_in view.now) (map rule_of rules.now) }
{
    match rules {
        [] => None,
        [first, rest @ ..] => {
            if rule_applies(view, first) {
                Some(first.verdict)
            } else {
                first_verdict(view, rest)
            }
        }
    }
}
