//! The rules that say what a function of a described service answers: their grammar, with the trees of rules, and their parser;
//! and the tokens of a text as a text of its version has them.
//!
//! - `version`: the versions that keep words for themselves (`Newer`)
//! - `tokens`: what a parser takes the tokens of a text from, as its version has them (`Reader`)
//! - `tree`: rules (`Rule`), tests and numbers, whose names are lent from the text
//! - `words`: the words of rules (`Keyword`), and what a token has to be
//! - `error`: why a text has no tree (`ParseError`)
//! - `laws`: rules have one tree
//! - `reader`: tokens taken from a text, and the error where another comes than may
//! - `terms`, `conditions`: numbers, tests and what is asked of rows, as they are read
//! - `rules`: the rules of a function (`parse_rules`)
#![tactic(auto)]

mod conditions;
mod error;
mod laws;
mod reader;
mod rules;
mod terms;
mod tokens;
mod tree;
mod version;
mod words;

pub use error::ParseError;
pub use laws::rules_have_one_tree;
pub use rules::parse_rules;
pub use sg_base::{ListOf, NoMemory};
pub use sg_lex::{
    IsKind, IsMark, IsWord, LexFault, Lexer, Spelled, SpelledList, Token, TokenKind, TokenTest,
    first_token, number_of_digits,
};
pub use tokens::Reader;
pub use tree::{
    Operand, Operator, Pick, PickList, Relation, RowTest, Rule, RuleList, Term, TermList, Test,
    TestList, Tests, What,
};
pub use version::Newer;
pub use words::Keyword;
