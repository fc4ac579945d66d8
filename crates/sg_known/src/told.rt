// What tests that hold tell of a row.
ghost use Rattle.std.specs.Prelude.{◌≡◌, vec_len};
ghost use Rattle.sg_described.specs.Known.{after_test, after_tests, after_told, told_by};
ghost use Rattle.sg_known.specs.Seen.{known_in};

use crate::known::Seen;
use sg_described::{Bounds, Operand, Relation, Term, Test};

// What is known of a number that stands so to another.
fn told(relation: Relation, number: u64, bounds: Bounds) -> Bounds
    ensures { result ≡ told_by relation number bounds }
{
    match relation {
        Relation::Is => Bounds {
            least: number,
            most: number,
        },
        Relation::IsNot => told_apart(number, bounds),
        Relation::Below => Bounds {
            least: bounds.least,
            most: bounds.most.min(number.saturating_sub(1)),
        },
        Relation::Above => Bounds {
            least: bounds.least.max(number.saturating_add(1)),
            most: bounds.most,
        },
    }
}

// What is known of a number that isn't another.
fn told_apart(number: u64, bounds: Bounds) -> Bounds
    ensures { result ≡ told_by Relation.IsNot number bounds }
{
    Bounds {
        least: if number == bounds.least {
            number.saturating_add(1)
        } else {
            bounds.least
        },
        most: if number == bounds.most {
            number.saturating_sub(1)
        } else {
            bounds.most
        },
    }
}

// Narrows what is known by an operand that stands so to a number.
fn narrow_operand(seen: &mut Seen<'_>, operand: Operand, relation: Relation, number: u64)
    ensures known { known_in seen.new ≡ after_told (vec_len seen.old.fields) operand relation number (known_in seen.old) }
    ensures count { vec_len seen.new.fields ≡ vec_len seen.old.fields }
{
    match operand {
        Operand::Own(at) => {
            let at = usize::from(at);
            if at < seen.fields.len() {
                seen.fields[at] = told(relation, number, seen.fields[at]);
            }
        }
        Operand::State => seen.state = told(relation, number, seen.state),
        Operand::Number(_) | Operand::Caller | Operand::Argument(_) => {}
    }
}

// Narrows what is known by a test that holds.
fn narrow(seen: &mut Seen<'_>, test: &Test)
    ensures known { known_in seen.new ≡ after_test (vec_len seen.old.fields) test.now (known_in seen.old) }
    ensures count { vec_len seen.new.fields ≡ vec_len seen.old.fields }
{
    if let Term::Only(operand) = test.left {
        if let Term::Only(Operand::Number(number)) = test.right {
            narrow_operand(seen, operand, test.relation, number);
        }
    }
}

/// Narrows what is known by tests that hold.
pub fn narrow_all(seen: &mut Seen<'_>, tests: &[Test])
    ensures known { known_in seen.new ≡ after_tests (vec_len seen.old.fields) tests.now (known_in seen.old) }
    ensures count { vec_len seen.new.fields ≡ vec_len seen.old.fields }
{
    if let [first, rest @ ..] = tests {
        narrow(seen, first);
        narrow_all(seen, rest);
    }
}
