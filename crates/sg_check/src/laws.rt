// Laws of the definitions.
ghost use Rattle.std.specs.Prelude.{◌≡◌, ℕ, List};
ghost use Rattle.sg_check_statements.specs.sg_facts.Facts.{Facts};
ghost use Rattle.sg_check_statements.specs.sg_parse.declared.tree.Tree.{Tree};
ghost use Rattle.sg_check_statements.specs.Faults.{IsFault};
ghost use Rattle.sg_check_statements.specs.declared.fault.CheckKind.{CheckKind};

/// Of a text at most one thing is first wrong, at one place.
pub fn one_fault()
    ensures { (services : List Facts) (tree : Tree) (one other : CheckKind) (here there : ℕ)
        → IsFault services tree one here → IsFault services tree other there → (one ≡ other) × (here ≡ there) }
{}
