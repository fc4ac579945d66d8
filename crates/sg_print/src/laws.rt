// Laws of the canonical text.
ghost use Rattle.std.specs.Prelude.{◌≡◌, Ok, List, ℕ};
ghost use Rattle.sg_parse.specs.declared.tree.Tree.{Tree};
ghost use Rattle.sg_parse.specs.Grammar.Parses.{Parses};
ghost use Rattle.sg_parse.specs.Grammar.Plain.{plain};
ghost use Rattle.sg_parse.specs.Grammar.Upgraded.{IsFree, upgraded};
ghost use Rattle.sg_print.specs.Printed.{printed};
ghost use Rattle.sg_print.specs.PrintsBack.{PrintsBack};

/// The canonical text of the tree of a text is a sentence, and its tree is that tree but for the places of names.
pub fn prints_parse_back()
    ensures { (text : List ℕ) (tree : Tree) → Parses text (Ok tree) → PrintsBack tree }
{}

/// The tree of a text that has no name which version 2 keeps for itself, as one of version 2 where it is of version 1, prints as a
/// text, whose tree is that tree but for the places of names.
pub fn upgrades_parse_back()
    ensures { (text : List ℕ) (tree : Tree) → Parses text (Ok tree) → IsFree tree → PrintsBack (upgraded tree) }
{}

/// Trees that are equal but for the places of names have one canonical text.
pub fn places_are_not_printed()
    ensures { (one other : Tree) → plain one ≡ plain other → printed one ≡ printed other }
{}
