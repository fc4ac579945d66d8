// The whole of a script.
ghost use Rattle.std.specs.Prelude.{◌≡◌, ◌≢◌, ◌⊎◌, List, false, length, true, Err as failed};
ghost use Rattle.std.specs.declared.result.Result.{Result as Answered};
ghost use Rattle.sg_lex.specs.Tokens.{answers_of};
ghost use Rattle.sg_script_parse.specs.declared.error.ScriptSyntax.{ScriptSyntax as Fault};
ghost use Rattle.sg_script_parse.specs.declared.tree.Part.{Part as Written};
ghost use Rattle.sg_script_parse.specs.Grammar.Parses.{ScriptParses};
ghost use Rattle.sg_script_parse.specs.Grammar.Inside.States.{script_start, scripts};
ghost use Rattle.sg_lex.specs.Inside.Automata.{read, Answers};

use crate::error::ScriptSyntax;
use crate::parts::parts;
use crate::tree::PartList;
use sg_lex::Reader;
use std::alloc::Global;

/// The parts of a script for one service. What they spell is lent from the text.
///
/// `Syntax` where the tokens before the place begin a script and those with the token at it don't; or where they begin one
/// and no token begins at the place, or a text or a comment without an end; or, at the text's length, where the text's
/// tokens begin a script and are none. `NoMemory` where there was no memory for the parts; nothing else is told then.
#[tactic(auto, using(crate::proofs::Whole::may, crate::proofs::Whole::only))]
pub fn parse<'a>(alloc: Global, text: &'a [u8]) -> Result<PartList<'a>, ScriptSyntax>
    ensures answer { ScriptParses false text.now result }
    // No other answer may be given, out of memory aside.
    ensures only { (other : Answered (List Written) Fault) → ScriptParses false text.now other → other ≢ failed ScriptSyntax.NoMemory →
        (result ≡ other) ⊎ (result ≡ failed ScriptSyntax.NoMemory) }
{
    parts_of(alloc, text, false)
}

/// The parts of a script for several services, in which each `stop` names its service; else as `parse` says.
#[tactic(auto, using(crate::proofs::Whole::may, crate::proofs::Whole::only))]
pub fn parse_multi<'a>(alloc: Global, text: &'a [u8]) -> Result<PartList<'a>, ScriptSyntax>
    ensures answer { ScriptParses true text.now result }
    // No other answer may be given, out of memory aside.
    ensures only { (other : Answered (List Written) Fault) → ScriptParses true text.now other → other ≢ failed ScriptSyntax.NoMemory →
        (result ≡ other) ⊎ (result ≡ failed ScriptSyntax.NoMemory) }
{
    parts_of(alloc, text, true)
}

// The parts that are read, of a script for several services or for one, or why there are none.
fn parts_of<'a>(alloc: Global, text: &'a [u8], several: bool) -> Result<PartList<'a>, ScriptSyntax>
    ensures { Answers scripts (read scripts (script_start several) (record { rest = answers_of text.now; end = length text.now })) result }
{
    let mut reader = Reader::new(text);
    parts(&mut reader, alloc, several)
}
