// Laws of scripts and of what a parser has to answer.
ghost use Rattle.std.specs.Prelude.{◌≡◌, ◌≢◌, Bool, ℕ, List, Err as failed};
ghost use Rattle.std.specs.declared.result.Result.{Result};
ghost use Rattle.sg_lex.specs.Lexeme.{Lexeme};
ghost use Rattle.sg_script_parse.specs.declared.error.ScriptSyntax.{ScriptSyntax};
ghost use Rattle.sg_script_parse.specs.declared.error.ScriptSyntax.TheVariants.{NoMemory as no_memory};
ghost use Rattle.sg_script_parse.specs.declared.tree.Part.{Part};
ghost use Rattle.sg_script_parse.specs.Grammar.Parses.{ScriptParses};
ghost use Rattle.sg_script_parse.specs.Grammar.Sentence.{IsScriptSentence};

/// A script has one list of parts, as one for several services or as one for one.
pub fn one_list_of_parts()
    ensures { (several : Bool) (tokens : List Lexeme) (one other : List Part) → IsScriptSentence several tokens one → IsScriptSentence several tokens other → one ≡ other }
{}

/// A text has just one answer, out of memory aside: the parts of a script, or the one error at the one place.
pub fn one_answer()
    ensures some { (several : Bool) (text : List ℕ) → (answer : Result (List Part) ScriptSyntax) × ScriptParses several text answer × (answer ≢ failed no_memory) }
    ensures alone { (several : Bool) (text : List ℕ) (one other : Result (List Part) ScriptSyntax) → ScriptParses several text one → ScriptParses several text other →
        one ≢ failed no_memory → other ≢ failed no_memory → one ≡ other }
{}
