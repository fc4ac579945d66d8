//! The canonical text of a tree of the interface language, which reads back as the tree that it is of; and the text of tables.
//!
//! - `statements`: the text of a tree (`print`)
//! - `types`: the texts of types, parameters and returns; `rules`: the texts of rules
//! - `tables`: the text of tables (`print_tables`); `funs`: the lines of functions
//! - `parts`: texts in a row
//! - `words`: the words for when descriptors are rebuilt
//! - `laws`: a printed tree reads back, as one of version 2 too; and places are not printed
#![tactic(auto)]

mod funs;
mod laws;
mod parts;
mod rules;
mod statements;
mod tables;
mod types;
mod words;

pub use laws::{places_are_not_printed, prints_parse_back, upgrades_parse_back};
pub use rules::{put_rule, put_term, put_tests};
pub use sg_parse::{
    Facts, LexFault, Lexer, ParseError, Ret, Rule, Statement, Tests, Token, TokenKind, Tree,
    first_token, parse,
};
pub use statements::print;
pub use tables::print_tables;
