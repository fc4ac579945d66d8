//! The interface language: the grammar, with the tree of a text, and the parser, which answers with that tree or with the
//! place at which a text ceases to be one.
//!
//! - `tree`: a text's tree (`Tree`), whose names are lent from the text (`Spelled`)
//! - `words`: the words that the grammar keeps for itself
//! - `laws`: a sentence has one tree, and a text one answer
//! - `reader`: tokens taken from a text, and the error where another comes than may
//! - `head`, `types`, `params`, `statements`: the parts of the grammar, as they are read
//! - `parser`: the whole (`parse`)
#![tactic(auto)]

mod head;
mod laws;
mod params;
mod parser;
mod reader;
mod statements;
mod tree;
mod types;
mod words;

pub use laws::{one_answer, one_tree};
pub use parser::parse;
pub use sg_rules::{
    Keyword, LexFault, Lexer, Operand, Operator, ParseError, Pick, PickList, Relation, RowTest,
    Rule, RuleList, Spelled, SpelledList, Term, TermList, Test, TestList, Tests, Token, TokenKind,
    What, first_token, number_of_digits,
};
pub use tree::{Facts, Param, ParamList, Ret, Statement, StatementList, Tree, TypeName};
pub use words::Sort;
