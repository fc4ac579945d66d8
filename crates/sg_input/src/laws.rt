// Laws of verdicts and of inputs.
ghost use Rattle.std.specs.Prelude.{◌≡◌, ℕ, List, Ok};
ghost use Rattle.sg_facts.specs.Facts.{Facts};
ghost use Rattle.sg_facts.specs.Interface.{Declared};
ghost use Rattle.sg_print.specs.Printed.{printed};
ghost use Rattle.sg_print.specs.sg_parse.declared.tree.Tree.{Tree};
ghost use Rattle.sg_print.specs.sg_parse.Grammar.Parses.{Parses};
ghost use Rattle.sg_print.specs.sg_parse.Grammar.Upgraded.{IsFree, upgraded};
ghost use Rattle.sg_stub.specs.sg_check_statements.Faults.{IsAccepted};
ghost use Rattle.sg_script.specs.declared.script.Script.{Script};
ghost use Rattle.sg_input.specs.declared.read.Read.{Read};
ghost use Rattle.sg_input.specs.declared.refusal.RefusalKind.{RefusalKind};
ghost use Rattle.sg_input.specs.Divider.{IsCut};
ghost use Rattle.sg_input.specs.Inputs.{IsInputOf, IsInterface, judged_by};
ghost use Rattle.sg_input.specs.Verdicts.{IsRefused, IsVerdict, services_for};

/// Of a text one thing alone can be said: it isn't accepted and refused, it is refused for one kind at one place, and there is
/// one line for it.
pub fn one_verdict()
    ensures refusal { (services : List Facts) (text : List ℕ) (one other : RefusalKind) (here there : ℕ)
        → IsRefused services text one here → IsRefused services text other there → (one ≡ other) × (here ≡ there) }
    ensures verdict { (services : List Facts) (text : List ℕ) (one other : Read (List ℕ))
        → IsVerdict services text one → IsVerdict services text other → one ≡ other }
{}

/// What an accepted text is upgraded to is accepted, as a text of any length, and declares the same interface but for the version,
/// where no name in the text is the word that version 2 keeps for itself.
pub fn upgrades_are_accepted()
    ensures { (services : List Facts) (text : List ℕ) (tree : Tree) (i : Declared) → Parses text (Ok tree) → IsAccepted (services_for services tree) tree i → IsFree tree
        → IsInterface services (printed (upgraded tree)) (record i { version = 2 }) }
{}

/// An input is divided in one way at most.
pub fn one_cut()
    ensures { (input before behind before' behind' : List ℕ) → IsCut input before behind → IsCut input before' behind'
        → (before ≡ before') × (behind ≡ behind') }
{}

/// An input is one thing: it is refused with one line, or ready with one interface and one script.
pub fn one_input()
    ensures { (services : List Facts) (input : List ℕ) (one other : Read (Declared × Script)) → IsInputOf (judged_by services) input one → IsInputOf (judged_by services) input other → one ≡ other }
{}
