// Laws of the definitions.
ghost use Rattle.std.specs.Prelude.{◌≡◌, ◌⊎◌, ℕ};
ghost use Rattle.sg_describe.specs.sg_facts.Interface.{Declared};
ghost use Rattle.sg_check.specs.sg_check_statements.declared.fault.CheckKind.{CheckKind};
ghost use Rattle.sg_check.specs.sg_check_statements.declared.fault.CheckKind.TheVariants.{NoCreation, NoWalk, Unreached};
ghost use Rattle.sg_check.specs.sg_check_statements.sg_parse.declared.tree.Tree.{Tree};
ghost use Rattle.sg_describe.specs.sg_described.DescribedLaws.{KeepsLaws};
ghost use Rattle.sg_describe.specs.DescribedText.{described_of_text};
ghost use Rattle.sg_own.specs.declared.fault.OwnKind.{OwnKind};
ghost use Rattle.sg_own.specs.declared.fault.OwnKind.TheVariants.{Walks};
ghost use Rattle.sg_own.specs.Faults.{IsOwnAccepted, IsOwnFault};

/// A text that describes a service of its own isn't accepted where something is wrong with it, and one thing alone is first wrong, at one place.
pub fn one_own_verdict()
    ensures not_both { (tree : Tree) (i : Declared) (kind : OwnKind) (at : ℕ) → IsOwnAccepted tree i → IsOwnFault tree kind at → ⊥ }
    ensures alone { (tree : Tree) (one other : OwnKind) (here there : ℕ) → IsOwnFault tree one here → IsOwnFault tree other there
        → (one ≡ other) × (here ≡ there) }
    ensures interface { (tree : Tree) (one other : Declared) → IsOwnAccepted tree one → IsOwnAccepted tree other → one ≡ other }
{}

/// Checked against itself, such a text has no other faults than those that speak of what descriptors come to.
pub fn own_kinds()
    ensures { (tree : Tree) (kind : CheckKind) (at : ℕ) → IsOwnFault tree (Walks kind) at
        → (kind ≡ NoCreation) ⊎ ((kind ≡ Unreached) ⊎ (kind ≡ NoWalk)) }
{}

/// The service that an accepted text describes keeps the laws of every service.
pub fn accepted_services_keep_laws()
    ensures { (tree : Tree) (i : Declared) → IsOwnAccepted tree i → KeepsLaws (described_of_text tree) }
{}
