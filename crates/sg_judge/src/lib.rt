//! What is said of the text of an interface, whatever its version, and what an input is: a text of version 3 describes a service of its own and is judged by itself.
//!
//! - `judging`: the verdict on a text, its tables, and its canonical text (`verdict`, `compiled`, `upgraded`)
//! - `inputs`: what an input is, or the line that refuses it (`read_any_input`, `read_any_run`)
//! - `members`: what an input for several services is, or the line that refuses it (`read_any_multi`)
//! - `examining`: what comes of a text before anything is said of it
//! - `interface`: an interface that is accepted, and whose service it is of (`AnyInterface`), and several of them (`AnyMembers`)
//! - `explaining`: what is explained of an input (`explain`): `words` has the sentences of each kind of fault, `reasons` why a described service
//!   can't be recovered, `answers` how functions answer
//! - `lines`: the line that refuses a text which describes a service of its own; `names`: the names of what can be wrong with one
//! - `laws`: of a text one thing alone can be said (`one_verdict`), an input is one thing (`one_any_input`, `one_any_multi`), and its interfaces are
//!   refused as texts are (`refused_alike`)
//!
//! `specs/Said.antt` says what is said of a text, `specs/AnyInputs.antt` what an input is, and `specs/OwnExplained.antt` what is explained of one; `specs/Names.antt` and
//! `specs/OwnWords.antt` have the names and the sentences of each kind of fault, `specs/AnswerLines.antt` those of rules, and
//! `specs/ReasonLines.antt` the lines of reasons.
#![tactic(auto)]

mod answers;
mod examining;
mod explaining;
mod inputs;
mod interface;
mod judging;
mod laws;
mod lines;
mod members;
mod names;
mod reasons;
mod words;

pub use explaining::explain;
pub use inputs::{read_any_input, read_any_run};
pub use interface::{AnyInterface, AnyMembers};
pub use judging::{compiled, upgraded, verdict};
pub use laws::{one_any_input, one_any_multi, one_verdict, refused_alike};
pub use members::read_any_multi;
pub use sg_explain::{
    History, MOST_DIVIDER, MOST_INPUT, MOST_INTERFACE, MOST_MULTI_INPUT, MOST_RUN_INPUT,
    MOST_SCRIPT, MultiScript, Read, Script, TOO_LONG, TOO_LONG_EXPLAINED, compile, cut, one_cut,
    one_input, parse, read_input,
};
pub use sg_own::Description;
