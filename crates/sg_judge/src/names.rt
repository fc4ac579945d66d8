// The names of what can be wrong with a text that describes a service of its own.
ghost use Rattle.std.specs.Prelude.{◌≡◌};
ghost use Rattle.sg_judge.specs.Names.{answer_name, own_name, safety_name, shape_name};

use sg_explain::{RefusalKind, refusal_name};
use sg_own::{AnswerFaultKind, OwnKind, SafetyKind, ShapeFaultKind};

/// The name of a kind, as it is written.
pub(crate) fn own_name(kind: OwnKind) -> &'static str
    ensures { result.now ≡ own_name kind }
{
    match kind {
        OwnKind::Shape(kind) => shape_name(kind),
        OwnKind::Answers(kind) => answer_name(kind),
        OwnKind::Safety(kind) => safety_name(kind),
        OwnKind::Walks(kind) => refusal_name(RefusalKind::Check(kind)),
    }
}

// The name of what is wrong with its shape.
fn shape_name(kind: ShapeFaultKind) -> &'static str
    ensures { result.now ≡ shape_name kind }
{
    match kind {
        ShapeFaultKind::Limit => "Limit",
        ShapeFaultKind::DuplicateName => "DuplicateName",
        ShapeFaultKind::UnknownFunction => "UnknownFunction",
        ShapeFaultKind::BadParams => "BadParams",
        ShapeFaultKind::MixedField => "MixedField",
        ShapeFaultKind::TwoEffects => "TwoEffects",
        ShapeFaultKind::Contradiction => "Contradiction",
        ShapeFaultKind::PrivateLooksAround => "PrivateLooksAround",
        ShapeFaultKind::QueryTakes => "QueryTakes",
        ShapeFaultKind::FileWithoutDesc => "FileWithoutDesc",
        ShapeFaultKind::TextChanged => "TextChanged",
        ShapeFaultKind::BlocksOrMakes => "BlocksOrMakes",
        ShapeFaultKind::StateOfOther => "StateOfOther",
        ShapeFaultKind::MakesOn => "MakesOn",
        ShapeFaultKind::ActsOnNone => "ActsOnNone",
        ShapeFaultKind::NoParents => "NoParents",
        ShapeFaultKind::ReplayWrites => "ReplayWrites",
        ShapeFaultKind::ArgumentLost => "ArgumentLost",
        ShapeFaultKind::ReplayUnknown => "ReplayUnknown",
        ShapeFaultKind::RecoverMakes => "RecoverMakes",
        ShapeFaultKind::WrongFact => "WrongFact",
    }
}

// The name of what is wrong with what it says of answers.
fn answer_name(kind: AnswerFaultKind) -> &'static str
    ensures { result.now ≡ answer_name kind }
{
    match kind {
        AnswerFaultKind::NotYet => "NotYet",
        AnswerFaultKind::UnknownField => "UnknownField",
        AnswerFaultKind::UnknownCode => "UnknownCode",
        AnswerFaultKind::GuardsCode => "GuardsCode",
        AnswerFaultKind::NoArgument => "NoArgument",
        AnswerFaultKind::TooBig => "TooBig",
        AnswerFaultKind::TwoAnswers => "TwoAnswers",
        AnswerFaultKind::TwoLimits => "TwoLimits",
        AnswerFaultKind::MayNotBlock => "MayNotBlock",
        AnswerFaultKind::NoWord => "NoWord",
        AnswerFaultKind::EndsWithWord => "EndsWithWord",
        AnswerFaultKind::NotExternal => "NotExternal",
    }
}

// The name of why its service can't be recovered.
fn safety_name(kind: SafetyKind) -> &'static str
    ensures { result.now ≡ safety_name kind }
{
    match kind {
        SafetyKind::CountsFar => "CountsFar",
        SafetyKind::Recounts => "Recounts",
        SafetyKind::Overtaken => "Overtaken",
        SafetyKind::NoClient => "NoClient",
        SafetyKind::Refusable => "Refusable",
        SafetyKind::Overflows => "Overflows",
    }
}
