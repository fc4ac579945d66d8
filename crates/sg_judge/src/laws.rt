// Laws of what is said of texts and of inputs.
ghost use Rattle.std.specs.Prelude.{◌≡◌, ◌↔◌, ℕ, List};
ghost use Rattle.sg_explain.specs.sg_facts.Facts.{Facts};
ghost use Rattle.sg_explain.specs.sg_input.declared.read.Read.{Read};
ghost use Rattle.sg_explain.specs.sg_facts.Interface.{Declared};
ghost use Rattle.sg_explain.specs.sg_input.Inputs.{IsInputOf, IsRefusedText};
ghost use Rattle.sg_explain.specs.sg_input.MultiInputs.{IsMultiInputOf};
ghost use Rattle.sg_explain.specs.sg_input.declared.read.Read.TheVariants.{Refused};
ghost use Rattle.sg_explain.specs.sg_input.sg_script.declared.script.Script.{Script};
ghost use Rattle.sg_explain.specs.sg_input.sg_script.declared.multi.MultiScript.{MultiScript};
ghost use Rattle.sg_judge.specs.AnyInputs.{any_judging};
ghost use Rattle.sg_judge.specs.Said.{IsChecked};

/// Of a text one thing alone can be said, whatever its version.
pub fn one_verdict()
    ensures { (services : List Facts) (text : List ℕ) (one other : Read (List ℕ)) → IsChecked services text one → IsChecked services text other → one ≡ other }
{}

/// An input is one thing, whatever the version of its interface: it is refused with one line, or ready with one interface and one script.
pub fn one_any_input()
    ensures { (services : List Facts) (input : List ℕ) (one other : Read (Declared × Script)) → IsInputOf (any_judging services) input one
        → IsInputOf (any_judging services) input other → one ≡ other }
{}

/// So is one for several services: it is refused with one line, or ready with one list of interfaces and one script.
pub fn one_any_multi()
    ensures { (services : List Facts) (input : List ℕ) (one other : Read (List Declared × MultiScript)) → IsMultiInputOf (any_judging services) input one
        → IsMultiInputOf (any_judging services) input other → one ≡ other }
{}

/// The interface of an input is refused with the line that `check` refuses it with.
pub fn refused_alike()
    ensures { (services : List Facts) (text line : List ℕ) → IsRefusedText (any_judging services) text line ↔ IsChecked services text (Refused line) }
{}
