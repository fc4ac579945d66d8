// Laws of sentences and of what a parser has to answer.
ghost use Rattle.std.specs.Prelude.{◌≡◌, ◌≢◌, ℕ, List, Err as failed};
ghost use Rattle.std.specs.declared.result.Result.{Result};
ghost use Rattle.sg_rules.specs.sg_lex.Lexeme.{Lexeme};
ghost use Rattle.sg_rules.specs.declared.error.ParseError.{ParseError};
ghost use Rattle.sg_rules.specs.declared.error.ParseError.TheVariants.{NoMemory as no_memory};
ghost use Rattle.sg_parse.specs.declared.tree.Tree.{Tree};
ghost use Rattle.sg_parse.specs.Grammar.Parses.{Parses};
ghost use Rattle.sg_parse.specs.Grammar.Sentence.{IsSentence};

/// A sentence has one tree.
pub fn one_tree()
    ensures { (tokens : List Lexeme) (one other : Tree) → IsSentence tokens one → IsSentence tokens other → one ≡ other }
{}

/// A text has just one answer, out of memory aside: the tree of a sentence, or the one error at the one place.
pub fn one_answer()
    ensures some { (text : List ℕ) → (answer : Result Tree ParseError) × Parses text answer × (answer ≢ failed no_memory) }
    ensures alone { (text : List ℕ) (one other : Result Tree ParseError) → Parses text one → Parses text other →
        one ≢ failed no_memory → other ≢ failed no_memory → one ≡ other }
{}
