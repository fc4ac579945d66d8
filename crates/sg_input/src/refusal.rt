// Why a text is refused.
ghost use Rattle.std.specs.Prelude.{◌≡◌};
ghost use Rattle.sg_input.specs.Verdicts.{refusal_name};
ghost use Rattle.sg_input.specs.Inside.Said.{check_name};

use sg_stub::CheckKind;

/// Why a text is refused.
#[derive(Clone, Copy, Debug, PartialEq, Eq)]
pub enum RefusalKind {
    /// No token begins at the place.
    Lex,
    /// The tokens can't go on so there, or the text ends there too early.
    Syntax,
    /// The text is a sentence, and its interface isn't accepted.
    Check(CheckKind),
}

/// The name of a kind, as it is written.
pub fn refusal_name(kind: RefusalKind) -> &'static str
    ensures { result.now ≡ refusal_name kind }
{
    match kind {
        RefusalKind::Lex => "Lex",
        RefusalKind::Syntax => "Syntax",
        RefusalKind::Check(kind) => check_name_of(kind),
    }
}

// The name of a kind of fault of the checker.
fn check_name_of(kind: CheckKind) -> &'static str
    ensures { result.now ≡ check_name kind }
{
    match kind {
        CheckKind::UnknownService => "UnknownService",
        CheckKind::DuplicateName => "DuplicateName",
        CheckKind::UnknownFunction => "UnknownFunction",
        CheckKind::BadParams => "BadParams",
        CheckKind::WrongFact => "WrongFact",
        CheckKind::WrongFlag => "WrongFlag",
        CheckKind::WrongEffect => "WrongEffect",
        CheckKind::ForeignTransition => "ForeignTransition",
        CheckKind::ForeignRecover => "ForeignRecover",
        CheckKind::NoCreation => "NoCreation",
        CheckKind::Unreached => "Unreached",
        CheckKind::NoWalk => "NoWalk",
    }
}
