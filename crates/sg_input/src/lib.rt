//! What is said of an interface text, and the input of a play: the text of an interface, a line of `%%` alone, and a script
//! for it.
//!
//! - `judging`: what is said of a text (`verdict`), by its tables (`compiled`), and by what it is
//!   upgraded to (`upgraded`); what comes of it before that (`examine`)
//! - `read`: what a text or an input stands for, or the line that refuses it (`Read`)
//! - `refusal`: why a text is refused (`RefusalKind`)
//! - `places`: the line of a place (`line_of`), and the byte in its line (`column_of`)
//! - `parted`: the two texts of an input (`texts_of`), and an input up to the second
//! - `reading`: what an input is, or the line that refuses it (`read_input`), and what a text is as a script (`script_of`, and for several services
//!   `multi_script_of`)
//! - `run_input`: what an input with a printed run is, or the line that refuses it (`read_run`), and what a text is as a printed run
//!   (`history_of`)
//! - `dividing`: the texts of an input that is divided more than once (`multi_texts_of`)
//! - `among`: the services among which that of a text is looked for
//! - `divider`: the two texts before and after the first line of `%%` alone (`cut`)
//! - `limits`: the greatest numbers of bytes, and of services
//! - `lines`: the lines that are said of a text, and those that refuse an input
//! - `laws`: of a text one thing alone can be said; what is upgraded is accepted; an input is divided in one way, and is one thing
//!
//! `specs/Verdicts.antt` says when which line is the right one for a text, and `specs/Lines.antt` how the lines read that refuse a text
//! or an input, with the line and the column of a place; `specs/Divider.antt` says where an input is divided, and `specs/Inputs.antt` when
//! which line is the right one for it, and `specs/MultiInputs.antt` for one for several services.
#![tactic(auto)]

mod among;
mod divider;
mod dividing;
mod judging;
mod laws;
mod limits;
mod lines;
mod parted;
mod places;
mod read;
mod reading;
mod refusal;
mod run_input;

pub use among::{check_for, is_own};
pub use divider::cut;
pub use dividing::{MultiTexts, multi_texts_of};
pub use judging::{compiled, examine, upgraded, verdict};
pub use laws::{one_cut, one_input, one_verdict, upgrades_are_accepted};
pub use limits::{
    MOST_DIVIDER, MOST_INPUT, MOST_INTERFACE, MOST_MULTI_INPUT, MOST_RUN, MOST_RUN_INPUT,
    MOST_SCRIPT, MOST_SERVICES,
};
pub use lines::{TOO_LONG, accepted_line, interface_line, member_line, refusal_line, script_line};
pub use parted::{InputTexts, texts_of};
pub use places::{column_of, line_of};
pub use read::Read;
pub use reading::{multi_script_of, read_input, script_of};
pub use refusal::{RefusalKind, refusal_name};
pub use run_input::{history_of, read_run};
pub use sg_entries::History;
pub use sg_facts::{
    Bytes, Effect, FieldShape, FunShape, Interface, Kind, Leaves, ListOf, MOST_FIELDS, NoMemory,
    PairList, Parents, Shape, Tables, TryCopy, Walk, WalkLine,
};
pub use sg_print::{
    Lexer, ParseError, Rule, Tests, parse, print_tables, put_rule, put_term, put_tests,
};
pub use sg_script::{
    CallList, MultiScript, Script, ScriptError, ScriptFault, ScriptKind, read as read_script,
};
pub use sg_stub::{
    Accepted, CheckError, CheckFault, CheckKind, Protos, Statement, Tree, Triple, Walks, check,
    compile, fun_number, interface_of, reachable, restores, says_of,
};
