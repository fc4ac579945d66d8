// Laws of the definitions.
ghost use Rattle.std.specs.Prelude.{◌≡◌, List};
ghost use Rattle.sg_facts.specs.Facts.{Facts};
ghost use Rattle.sg_facts.specs.Interface.{Declared};
ghost use Rattle.sg_parse.specs.declared.tree.Tree.{Tree};
ghost use Rattle.sg_parse.specs.Grammar.Plain.{plain};
ghost use Rattle.sg_parse.specs.Grammar.Upgraded.{upgraded};
ghost use Rattle.sg_check_statements.specs.Faults.{IsAccepted};

/// Whether a text is accepted depends neither on the places of its names nor on its version: what is equal but for places to
/// what it is upgraded to is accepted too, with the same interface but for the version.
pub fn accepted_anywhere()
    ensures { (services : List Facts) (one other : Tree) (i : Declared) → plain other ≡ plain (upgraded one)
        → IsAccepted services one i → IsAccepted services other (record i { version = (upgraded one).facts.version }) }
{}
