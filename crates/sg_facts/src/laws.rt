// Laws of the definitions.
ghost use Rattle.std.specs.Prelude.{◌↔◌, List};
ghost use Rattle.sg_facts.specs.Interface.{Declared};
ghost use Rattle.sg_facts.specs.Object.{empty_object};
ghost use Rattle.sg_facts.specs.Legal.{Table, IsLegal, LegalFrom};

/// A history is legal, place by place, exactly where it is legal from its front on: the form that is read and the form
/// that proofs go by are one.
pub fn legal_from_the_front()
    ensures { (i : Declared) (ask : Table) (history : List _) → IsLegal i ask history ↔ LegalFrom i ask empty_object history }
{}
