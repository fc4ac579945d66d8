// Laws of rules.
ghost use Rattle.std.specs.Prelude.{◌≡◌, List};
ghost use Rattle.sg_lex.specs.Lexeme.{Lexeme};
ghost use Rattle.sg_rules.specs.declared.tree.Rule.{Rule};
ghost use Rattle.sg_rules.specs.Grammar.Sentence.{AreRules};

/// Tokens are rules of one tree at most.
pub fn rules_have_one_tree()
    ensures { (tokens : List Lexeme) (one other : List Rule) → AreRules tokens one → AreRules tokens other → one ≡ other }
{}
