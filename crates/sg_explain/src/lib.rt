//! Why an input is refused, in words; or, where nothing is wrong with it, how all that its descriptors can come to is rebuilt.
//!
//! - `explaining`: what is explained of an input (`explain`)
//! - `reasons`: why the text of an interface is refused
//! - `stuck`: what a descriptor can come to that no walk restores
//! - `words`: the sentences of each kind of fault
//! - `places`: a place in a text as it is shown
//! - `rebuilt`: how what descriptors come to is rebuilt, and the counts of a script
//! - `parts`: texts in a row
//!
//! `specs/Explained.antt` says what is explained of an input, and `specs/Words.antt` has the sentences.
#![tactic(auto)]

mod explaining;
mod parts;
mod places;
mod reasons;
mod rebuilt;
mod stuck;
mod words;

pub use explaining::{explain, told_of, with_fault};
pub use parts::put;
pub use reasons::put_why;
pub use rebuilt::{put_counts, put_names};
pub use sg_input::{
    Accepted, Bytes, CheckError, History, InputTexts, Interface, Lexer, ListOf, MOST_DIVIDER,
    MOST_INPUT, MOST_INTERFACE, MOST_MULTI_INPUT, MOST_RUN, MOST_RUN_INPUT, MOST_SCRIPT,
    MOST_SERVICES, MultiScript, MultiTexts, NoMemory, ParseError, Read, RefusalKind, Rule, Script,
    ScriptError, ScriptFault, Shape, Statement, TOO_LONG, Tests, Tree, TryCopy, accepted_line,
    check_for, compile, compiled, cut, history_of, interface_line, is_own, member_line,
    multi_script_of, multi_texts_of, one_cut, one_input, parse, print_tables, put_rule, put_term,
    put_tests, read_input, read_script, refusal_line, refusal_name, script_of, texts_of, upgraded,
    verdict,
};
pub use stuck::put_stuck;
pub use words::{Sentences, TOO_LONG_EXPLAINED, check_words};
