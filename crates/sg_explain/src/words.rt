// The sentences of each kind of fault.
ghost use Rattle.std.specs.Prelude.{◌≡◌};
ghost use Rattle.sg_explain.specs.Words.{check_words, refusal_words, script_words};

use sg_input::{CheckKind, RefusalKind, ScriptKind};
use std::marker::Model;

/// What is told of an input that is too long: the line that refuses it, and how long it may be.
pub const TOO_LONG_EXPLAINED: &[u8] =
    b"input refused: TooLong\nAn interface has at most 65536 bytes, and a script at most 4194304.\n";

/// What is said of a kind of fault: a sentence that says what is wrong, in two parts around what stands at the place, and one that says
/// what is usually meant.
#[derive(Debug, Drop)]
pub struct Sentences {
    pub before: &'static [u8],
    pub after: &'static [u8],
    pub meant: &'static [u8],
}

impl Model for Sentences {
    ghost use Rattle.sg_explain.specs.Words.{Sentences as Said};

    ghost Value = { Said };

    ghost view = { λ s. record { before = s.before.now; after = s.after.now; meant = s.meant.now } };
}

/// The sentences of a text that is refused.
pub(crate) fn refusal_words(kind: RefusalKind) -> Sentences
    ensures { result ≡ refusal_words kind }
{
    match kind {
        RefusalKind::Lex => Sentences {
            before: b"No token can be read at ",
            after: b".",
            meant: b"A token is a word, a number, a text between double quotes, or one of { } ( ) = , ; * $; a text or a comment may lack its end.",
        },
        RefusalKind::Syntax => Sentences {
            before: b"Something else has to stand here than ",
            after: b".",
            meant: b"Usually a bracket, a comma or a semicolon is missing just before, or a word of the language stands where a name has to.",
        },
        RefusalKind::Check(kind) => check_words(kind),
    }
}

/// The sentences of an interface that isn't accepted.
pub fn check_words(kind: CheckKind) -> Sentences
    ensures { result ≡ check_words kind }
{
    match kind {
        CheckKind::UnknownService => Sentences {
            before: b"There is no service with the name ",
            after: b".",
            meant: b"Usually the name is misspelt; the services are those that the program has built in.",
        },
        CheckKind::DuplicateName => Sentences {
            before: b"The function ",
            after: b" has a prototype already.",
            meant: b"A function has one prototype: usually this one is a copy, or another function is meant.",
        },
        CheckKind::UnknownFunction => Sentences {
            before: b"The service has no function ",
            after: b", or the text has no prototype of it.",
            meant: b"Usually the name is misspelt, or the prototype was left out.",
        },
        CheckKind::BadParams => Sentences {
            before: b"The parameters of ",
            after: b" aren't those that the service has.",
            meant: b"The first is the client; the others have the number, the order and the kinds of the service's, with desc and parent_desc where it has them.",
        },
        CheckKind::WrongFact => Sentences {
            before: b"The service has another value here than ",
            after: b".",
            meant: b"The facts at the head are those of the service, as they are: they can't be chosen.",
        },
        CheckKind::WrongFlag => Sentences {
            before: b"The flags of ",
            after: b", or the state that it leaves, aren't the service's.",
            meant: b"Usually a statement on it is missing or too many: sm_creation, sm_terminal, sm_block, sm_wakeup, sm_query, sm_needs_all, resc_data, sm_state or sm_keep.",
        },
        CheckKind::WrongEffect => Sentences {
            before: b"What ",
            after: b" does to fields isn't what the service's does.",
            meant: b"Usually a desc_data word is missing or too many in its prototype or on it, or it names another field.",
        },
        CheckKind::ForeignTransition => Sentences {
            before: b"The service has no such transition from ",
            after: b".",
            meant: b"sm_transition(f, g) says that g may be called in the state f: usually the two are exchanged, or another state is meant.",
        },
        CheckKind::ForeignRecover => Sentences {
            before: b"The service has no such recover step from ",
            after: b".",
            meant: b"sm_recover(f, g) says that g may be replayed in the state f: usually the two are exchanged, or another state is meant.",
        },
        CheckKind::NoCreation => Sentences {
            before: b"In the text that begins with ",
            after: b" no function makes a descriptor.",
            meant: b"Usually the prototype of the function that makes descriptors was left out.",
        },
        CheckKind::Unreached => Sentences {
            before: b"The function ",
            after: b" can be called in no state that a descriptor can come to.",
            meant: b"Usually a sm_transition to it is missing, or one on the way to it.",
        },
        CheckKind::NoWalk => Sentences {
            before: b"A descriptor in the state ",
            after: b" can't always be rebuilt.",
            meant: b"Usually a sm_recover is missing: one that leads to this state, or one that sets the fields.",
        },
    }
}

/// The sentences of a script that is refused.
pub(crate) fn script_words(kind: ScriptKind) -> Sentences
    ensures { result ≡ script_words kind }
{
    match kind {
        ScriptKind::Syntax => Sentences {
            before: b"Something else has to stand here than ",
            after: b".",
            meant: b"Usually a bracket, a comma or a semicolon is missing just before; a script has the parts setup, client, schedule and stop.",
        },
        ScriptKind::UnknownFunction => Sentences {
            before: b"The interface declares no function ",
            after: b".",
            meant: b"Usually the name is misspelt, or the interface has no prototype of it.",
        },
        ScriptKind::UnknownService => Sentences {
            before: b"No interface of the input is of the service ",
            after: b".",
            meant: b"Usually the name is misspelt, or the interface is missing.",
        },
        ScriptKind::BadArgs => Sentences {
            before: b"The arguments of ",
            after: b" don't fit its parameters.",
            meant: b"There is one for each parameter after the caller: a text for a text, and else a number, or $k for what the client's k-th call was given, a call before this one.",
        },
        ScriptKind::BadClient => Sentences {
            before: b"There is no client ",
            after: b".",
            meant: b"Clients have the numbers 1 to 64.",
        },
        ScriptKind::Twice => Sentences {
            before: b"The part ",
            after: b" is there already.",
            meant: b"A script has one setup, one schedule, one stop and one part for each client: usually two parts are to be one, or another client is meant.",
        },
        ScriptKind::NotAscending => Sentences {
            before: b"The stop ",
            after: b" isn't above the one before it.",
            meant: b"Stops are numbers of points, from 1 on, each above the one before.",
        },
        ScriptKind::Blocking => Sentences {
            before: b"The function ",
            after: b" may block, and stands in setup.",
            meant: b"Nobody could wake its caller during the setup: usually the call belongs to a client's part.",
        },
        ScriptKind::Limit => Sentences {
            before: b"A limit is passed at ",
            after: b".",
            meant: b"A number is at most 18446744073709551615, a text has at most 256 bytes, and a script has at most 65536 calls and 64 stops.",
        },
    }
}
