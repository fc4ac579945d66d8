// The sentences of each kind of thing that can be wrong with a text that describes a service of its own.
ghost use Rattle.std.specs.Prelude.{◌≡◌};
ghost use Rattle.sg_judge.specs.OwnWords.{answer_words, own_words, safety_words, shape_words};

use sg_explain::{Sentences, check_words};
use sg_own::{AnswerFaultKind, OwnKind, SafetyKind, ShapeFaultKind};

/// The sentences of a kind.
pub(crate) fn own_words(kind: OwnKind) -> Sentences
    ensures { result ≡ own_words kind }
{
    match kind {
        OwnKind::Shape(kind) => shape_words(kind),
        OwnKind::Answers(kind) => answer_words(kind),
        OwnKind::Safety(kind) => safety_words(kind),
        OwnKind::Walks(kind) => check_words(kind),
    }
}

// The sentences of its shape.
fn shape_words(kind: ShapeFaultKind) -> Sentences
    ensures { result ≡ shape_words kind }
{
    match kind {
        ShapeFaultKind::Limit => Sentences {
            before: b"There is one function, parameter, field or rule too many at ",
            after: b".",
            meant: b"A service has at most 32 functions and 8 fields, and a function at most 256 parameters and 32 rules.",
        },
        ShapeFaultKind::DuplicateName => Sentences {
            before: b"The function ",
            after: b" has a prototype already.",
            meant: b"A function has one prototype: usually this one is a copy, or another function is meant.",
        },
        ShapeFaultKind::UnknownFunction => Sentences {
            before: b"The text has no prototype of ",
            after: b".",
            meant: b"Usually the name is misspelt, or the prototype was left out.",
        },
        ShapeFaultKind::BadParams => Sentences {
            before: b"The parameters of ",
            after: b" can't be those of a function.",
            meant: b"The first is the caller, and neither a descriptor nor an addend; of the others at most one is desc or parent_desc, and such a one and an addend are no texts.",
        },
        ShapeFaultKind::MixedField => Sentences {
            before: b"The field ",
            after: b" is a number at one place and a text at another.",
            meant: b"Usually a star is missing in a type, or another field is meant.",
        },
        ShapeFaultKind::TwoEffects => Sentences {
            before: b"The function ",
            after: b" does two things to one field.",
            meant: b"An Ok does one thing to a field: usually one of the desc_data words names another field.",
        },
        ShapeFaultKind::Contradiction => Sentences {
            before: b"What is said of the state that ",
            after: b" leaves contradicts itself.",
            meant: b"A function has one sm_state at the most, and none beside sm_keep.",
        },
        ShapeFaultKind::PrivateLooksAround => Sentences {
            before: b"In a private service ",
            after: b" would look at other clients' descriptors.",
            meant: b"desc_is_global = false goes with neither desc_has_parent = cross nor sm_needs_all.",
        },
        ShapeFaultKind::QueryTakes => Sentences {
            before: b"The query ",
            after: b" takes a descriptor or a parent.",
            meant: b"Usually sm_query doesn't belong to it.",
        },
        ShapeFaultKind::FileWithoutDesc => Sentences {
            before: b"The function ",
            after: b" uses a file and takes no descriptor.",
            meant: b"resc_data says that a function reads or writes the file of its descriptor.",
        },
        ShapeFaultKind::TextChanged => Sentences {
            before: b"The function ",
            after: b" changes a text.",
            meant: b"A text is set by the function that makes a descriptor, and not again.",
        },
        ShapeFaultKind::BlocksOrMakes => Sentences {
            before: b"The function ",
            after: b" may block, and makes or ends a descriptor.",
            meant: b"Usually it is two functions: one that makes or ends, and one that waits.",
        },
        ShapeFaultKind::StateOfOther => Sentences {
            before: b"The function ",
            after: b" leaves the state of one that leaves another.",
            meant: b"sm_state(f, g) names a g that leaves its own state: usually the function is meant whose state g leaves.",
        },
        ShapeFaultKind::MakesOn => Sentences {
            before: b"The function ",
            after: b" makes a descriptor, and is a query, or takes or ends one.",
            meant: b"A creation takes no desc, and is neither sm_terminal nor sm_query.",
        },
        ShapeFaultKind::ActsOnNone => Sentences {
            before: b"The function ",
            after: b" neither makes a descriptor nor takes one.",
            meant: b"Usually desc is missing at a parameter, or sm_creation or sm_query at the function.",
        },
        ShapeFaultKind::NoParents => Sentences {
            before: b"The function ",
            after: b" takes a parent, and descriptors have none.",
            meant: b"Usually desc_has_parent = same or cross is meant.",
        },
        ShapeFaultKind::ReplayWrites => Sentences {
            before: b"The replayed function ",
            after: b" writes a file.",
            meant: b"Files come back from storage; a recover step may set the place in one.",
        },
        ShapeFaultKind::ArgumentLost => Sentences {
            before: b"An argument of the replayed function ",
            after: b" goes into no field, or into two.",
            meant: b"Each argument of a creation or of a recover step is desc_data or desc_data_add of one field, so that the call can be made again.",
        },
        ShapeFaultKind::ReplayUnknown => Sentences {
            before: b"The replayed function ",
            after: b" leaves a field unknown.",
            meant: b"Where descriptors have parents, a replayed function sets its fields to arguments or to the caller.",
        },
        ShapeFaultKind::RecoverMakes => Sentences {
            before: b"The recover step ",
            after: b" makes a descriptor.",
            meant: b"sm_recover(f, g) says that g is replayed on a descriptor that is there.",
        },
        ShapeFaultKind::WrongFact => Sentences {
            before: b"The statements say otherwise than ",
            after: b".",
            meant: b"desc_block is true where some function is sm_block, desc_has_data where there is a field, and resc_has_data where some function is resc_data.",
        },
    }
}

// The sentences of what it says of answers.
fn answer_words(kind: AnswerFaultKind) -> Sentences
    ensures { result ≡ answer_words kind }
{
    match kind {
        AnswerFaultKind::NotYet => Sentences {
            before: b"What stands here can be described, and can't be judged yet: ",
            after: b".",
            meant: b"Parents, subtree, files, queries, functions that look at all rows, texts in fields, unique keys and rules about other rows are left to a later version of the program.",
        },
        AnswerFaultKind::UnknownField => Sentences {
            before: b"There is no field or function ",
            after: b".",
            meant: b"Fields are what the desc_data words name; a function's name stands for the state that it leaves.",
        },
        AnswerFaultKind::UnknownCode => Sentences {
            before: b"There is no code ",
            after: b".",
            meant: b"A service refuses by NotOwner, Held, Occupied, NotFound, Overflow, Gap, TooBig or BadName.",
        },
        AnswerFaultKind::GuardsCode => Sentences {
            before: b"The code ",
            after: b" is the guard's.",
            meant: b"NoDesc, NoParent, BadState, HasChildren and Full are found before the service is asked.",
        },
        AnswerFaultKind::NoArgument => Sentences {
            before: b"The function has no number at the place ",
            after: b" of its parameters.",
            meant: b"$k is the k-th parameter after the caller, from 1; it is no descriptor, no parent and no text.",
        },
        AnswerFaultKind::TooBig => Sentences {
            before: b"The number ",
            after: b" is above 18446744073709551615.",
            meant: b"A number has 64 bits.",
        },
        AnswerFaultKind::TwoAnswers => Sentences {
            before: b"What ",
            after: b" answers is said already.",
            meant: b"All rules of a function stand in one sm_answer.",
        },
        AnswerFaultKind::TwoLimits => Sentences {
            before: b"The greatest number of ",
            after: b" is said already.",
            meant: b"",
        },
        AnswerFaultKind::MayNotBlock => Sentences {
            before: b"The rule at ",
            after: b" lets callers wait, and the function may not block.",
            meant: b"Usually sm_block is missing; a function that makes or ends a descriptor never waits.",
        },
        AnswerFaultKind::NoWord => Sentences {
            before: b"A field takes the word that ",
            after: b" returns, and some Ok of it has none.",
            meant: b"Usually a `give TERM;` without tests is missing at the end of its rules.",
        },
        AnswerFaultKind::EndsWithWord => Sentences {
            before: b"The rule at ",
            after: b" gives a word in a function that ends its descriptor.",
            meant: b"A function that is sm_terminal gives no word: usually another function is to give it, before.",
        },
        AnswerFaultKind::NotExternal => Sentences {
            before: b"The function ",
            after: b" makes no descriptor.",
            meant: b"sm_external says of a function that makes descriptors that it can't be done again.",
        },
    }
}

// The sentences of why its service can't be recovered.
fn safety_words(kind: SafetyKind) -> Sentences
    ensures { result ≡ safety_words kind }
{
    match kind {
        SafetyKind::CountsFar => Sentences {
            before: b"The number ",
            after: b" is too great for a field that takes returned words.",
            meant: b"Such a field counts: its greatest number is at most 17179869184.",
        },
        SafetyKind::Recounts => Sentences {
            before: b"The replayed function ",
            after: b" adds to a field that takes returned words.",
            meant: b"What is counted would be counted again: usually a function of its own for replays sets the field.",
        },
        SafetyKind::Overtaken => Sentences {
            before: b"A client that waits by the rule at ",
            after: b" may be let pass without a wake-up.",
            meant: b"Usually sm_wakeup of the function below is missing: a client that is woken for nothing asks again.",
        },
        SafetyKind::NoClient => Sentences {
            before: b"The replayed function ",
            after: b" sets a field to its caller, and no client may be known.",
            meant: b"In each state that it leaves the field has to be a client: usually another function is to be the recover step.",
        },
        SafetyKind::Refusable => Sentences {
            before: b"The rule at ",
            after: b" may refuse or put off a replayed call.",
            meant: b"Usually a function of its own for replays, which only sets fields and has no rules, is to be the recover step.",
        },
        SafetyKind::Overflows => Sentences {
            before: b"A replayed call of ",
            after: b" may take a field past its greatest number.",
            meant: b"Usually the recover step is to set the field, and not to add to it; or the greatest number is too small.",
        },
    }
}
