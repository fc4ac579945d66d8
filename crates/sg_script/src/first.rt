// The first of the flaws that were noted.
ghost use Rattle.std.specs.Prelude.{◌≡◌, ◌++◌, ◌∷◌, [], None};
ghost use Rattle.sg_script.specs.Flaws.{script_flaw_if, script_kind_rank};
ghost use Rattle.sg_script.specs.Inside.Firsts.{first_of_two, first_after, is_not_after};

use crate::fault::{ScriptFault, ScriptKind};
use std::marker::Model;

/// The first of the flaws that were noted. Contracts see it; None where none was.
#[derive(Drop)]
pub struct First {
    fault: Option<ScriptFault>,
}

impl Model for First {
    ghost use Rattle.std.specs.declared.option.Option.{Option as Maybe};
    ghost use Rattle.sg_script.specs.declared.fault.ScriptFault.{ScriptFault as OneFault};

    ghost Value = { Maybe OneFault };

    ghost view = { λ f. f.fault };
}

impl First {
    /// No flaw so far.
    pub fn new() -> Self
        ensures { result ≡ None }
    {
        First { fault: None }
    }

    /// The first of the flaws that were noted.
    pub fn fault(&self) -> Option<ScriptFault>
        ensures { result ≡ self.now }
    {
        self.fault
    }

    /// Notes a flaw of a kind at a place, where there is one.
    pub fn note_if(&mut self, flawed: bool, kind: ScriptKind, at: usize)
        ensures { self.new ≡ first_after self.old (script_flaw_if flawed kind at) }
    {
        if flawed {
            self.fault = Some(first_of_two(self.fault, ScriptFault { at, kind }));
        }
    }
}

// The first of a flaw before, where there is one, and another.
fn first_of_two(before: Option<ScriptFault>, next: ScriptFault) -> ScriptFault
    ensures { result ≡ first_of_two before next }
{
    match before {
        Some(fault) if is_not_after(fault, next) => fault,
        _ => next,
    }
}

// Whether a flaw comes before another, or is the same.
fn is_not_after(fault: ScriptFault, next: ScriptFault) -> bool
    ensures { result ≡ is_not_after fault next }
{
    fault.at < next.at
        || (fault.at == next.at && script_kind_rank(fault.kind) <= script_kind_rank(next.kind))
}

// The place of a kind in the order of kinds at one place.
fn script_kind_rank(kind: ScriptKind) -> u8
    ensures { result ≡ script_kind_rank kind }
{
    match kind {
        ScriptKind::Syntax => 0,
        ScriptKind::UnknownFunction => 1,
        ScriptKind::UnknownService => 2,
        ScriptKind::BadArgs => 3,
        ScriptKind::BadClient => 4,
        ScriptKind::Twice => 5,
        ScriptKind::NotAscending => 6,
        ScriptKind::Blocking => 7,
        ScriptKind::Limit => 8,
    }
}
