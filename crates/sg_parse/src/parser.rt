// The whole of a text.
ghost use Rattle.std.specs.Prelude.{◌≡◌, ◌≢◌, ◌⊎◌, length, Err as failed};
ghost use Rattle.std.specs.declared.result.Result.{Result as Answered};
ghost use Rattle.sg_rules.specs.sg_lex.Tokens.{answers_of};
ghost use Rattle.sg_rules.specs.declared.error.ParseError.{ParseError as Fault};
ghost use Rattle.sg_parse.specs.declared.tree.Tree.{Tree as Whole};
ghost use Rattle.sg_parse.specs.Grammar.Parses.{Parses};
ghost use Rattle.sg_parse.specs.Grammar.Inside.States.{start, trees};
ghost use Rattle.sg_rules.specs.sg_lex.Inside.Automata.{read, Answers};

use crate::head::facts;
use crate::statements::statements;
use crate::tree::Tree;
use sg_rules::{ParseError, Reader};
use std::alloc::Global;

/// The tree of a text, of whichever version the text is. Its names are lent from the text.
///
/// `Lex` where the tokens before the place begin a sentence and the lexer finds no token there. `Syntax` where the tokens
/// before the place begin a sentence and those with the token at it don't; or, at the text's length, where the text's tokens
/// begin a sentence and are none. `NoMemory` where there was no memory for the tree; nothing else is told then.
#[tactic(auto, using(crate::proofs::Whole::may, crate::proofs::Whole::only))]
pub fn parse<'a>(alloc: Global, text: &'a [u8]) -> Result<Tree<'a>, ParseError>
    ensures answer { Parses text.now result }
    // No other answer may be given, out of memory aside.
    ensures only { (other : Answered Whole Fault) → Parses text.now other → other ≢ failed ParseError.NoMemory →
        (result ≡ other) ⊎ (result ≡ failed ParseError.NoMemory) }
{
    tree_of(alloc, text)
}

// The tree that is read, or why there is none.
fn tree_of<'a>(alloc: Global, text: &'a [u8]) -> Result<Tree<'a>, ParseError>
    ensures { Answers trees (read trees start (record { rest = answers_of text.now; end = length text.now })) result }
{
    let mut reader = Reader::new(text);
    let facts = facts(&mut reader)?;
    statements(&mut reader, alloc, facts)
}
