// The services among which that of a text is looked for.
ghost use Rattle.std.specs.Prelude.{◌≡◌, map, true};
ghost use Rattle.std.specs.Result.{MatchResult};
ghost use Rattle.sg_facts.specs.Facts.{facts_of};
ghost use Rattle.sg_stub.specs.sg_check_statements.Shapes.{are_shapes};
ghost use Rattle.sg_stub.specs.sg_check_statements.Faults.{IsAccepted};
ghost use Rattle.sg_stub.specs.sg_check_statements.Stages.{IsFirstFault};
ghost use Rattle.sg_input.specs.Verdicts.{is_own, services_for};

use crate::Accepted;
use sg_facts::Shape;
use sg_print::Tree;
use sg_stub::{CheckError, check};
use std::alloc::Global;

// The version of the language whose texts describe services of their own.
const OWN_VERSION: u8 = 3;

/// Whether a text describes a service of its own: it is of version 3.
pub fn is_own(tree: &Tree) -> bool
    ensures { result ≡ is_own tree.now }
{
    tree.facts.version == OWN_VERSION
}

/// What the checker answers of a text whose service may be one of these shapes; one that describes its own is of none of them.
pub fn check_for(alloc: Global, tree: &Tree, shapes: &[Shape]) -> Result<Accepted, CheckError>
    requires { are_shapes (map facts_of shapes.now) ≡ true }
    ensures answer { MatchResult result (IsAccepted (services_for (map facts_of shapes.now) tree.now) tree.now)
        (IsFirstFault (services_for (map facts_of shapes.now) tree.now) tree.now) }
{
    if is_own(tree) {
        check(alloc, tree, &[])
    } else {
        check(alloc, tree, shapes)
    }
}
