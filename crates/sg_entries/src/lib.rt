//! The entries of a printed run, read again for an interface; and the line of an entry by itself: its grammar, with the tree of a
//! line, and the parser, which answers with that tree or with the place at which the line ceases to be an entry's.
//!
//! - `reading`: the history that a text prints (`read_entries`)
//! - `error`: why a text has none (`EntriesError`, `EntriesKind`)
//! - `lines`: the lines in which entries stand; `rest`: what is left of a text
//! - `placing`: what a line stands for, with places in its text; `outline`: what is first wrong with an entry as its outline tells;
//!   `making`: what a written entry stands for, or what is first wrong with it
//! - `laws`: a text that prints a history is read to it (`printed_is_read`), and to nothing else (`one_reading`); the
//!   first flaw comes before all others (`first_flaw_comes_first`)
//! - `tree`: an entry (`WrittenEntry`), whose numbers, names and texts are lent from the line (`Spelled`), and its outline
//!   (`EntryOutline`); `syntax`: why a line is no entry (`EntrySyntax`)
//! - `line`: what is still to be read of a line; `list`: lists of one; `pieces`, `call`, `code`, `answer`: the parts of an entry,
//!   as they are read; `shown`: whether the functions of a name show their bytes
//! - `parser`: the whole (`parse_entry`), and the outline of it (`parse_outline`); `parse_laws`: a line has one entry, and one answer
//!
//! `specs/Lines.antt` says which lines of a text are entries', `specs/Flaws.antt` what can be wrong with these, `specs/Standing.antt`
//! what they stand for, `specs/Reads.antt` what is answered on a text, and `specs/Printed.antt` which text prints a history.
#![tactic(auto)]

mod answer;
mod call;
mod code;
mod error;
mod laws;
mod line;
mod lines;
mod list;
mod making;
mod outline;
mod parse_laws;
mod parser;
mod pieces;
mod placing;
mod reading;
mod rest;
mod shown;
mod syntax;
mod tree;

pub use error::{EntriesError, EntriesKind};
pub use laws::{first_flaw_comes_first, one_reading, printed_is_read};
pub use parse_laws::{one_answer, one_tree};
pub use parser::{parse_entry, parse_outline};
pub use reading::read_entries;
pub use sg_lex::{Spelled, SpelledList};
pub use sg_report::History;
pub use syntax::EntrySyntax;
pub use tree::{EntryOutline, WrittenAnswer, WrittenArg, WrittenArgList, WrittenEntry};
