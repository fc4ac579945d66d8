//! The language of scripts: the grammar, with the parts of a script as they are written, and the parser, which answers with
//! those parts or with the place at which a text ceases to be a script.
//!
//! - `tree`: the parts of a script (`Part`), whose words, numbers and texts are lent from the text (`Spelled`)
//! - `args`: the arguments of a call (`WrittenArgList`)
//! - `error`: why a text is no script (`ScriptSyntax`)
//! - `laws`: a script has one list of parts, and a text one answer
//! - `reader`: tokens taken from a text, and the error where another comes than may
//! - `calls`, `parts`: calls with their arguments, and the parts of a script, as they are read
//! - `parser`: the whole, of a script for one service (`parse`) or for several (`parse_multi`)
#![tactic(auto)]

mod args;
mod calls;
mod error;
mod laws;
mod parser;
mod parts;
mod reader;
mod tree;

pub use args::WrittenArgList;
pub use error::ScriptSyntax;
pub use laws::{one_answer, one_list_of_parts};
pub use parser::{parse, parse_multi};
pub use sg_lex::{Spelled, SpelledList, number_of_digits};
pub use tree::{Part, PartList, WrittenArg, WrittenCall, WrittenCallList};
