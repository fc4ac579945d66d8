// The arguments of a script's call.
ghost use Rattle.std.specs.Prelude.{◌≡◌, [], ◌∷◌};

use crate::script::Arg;
use std::marker::Model;
use std::slice;

/// The arguments of a call, one for each parameter after the caller. One alone stands in the list itself; only more take a block of
/// memory. Contracts see the list of them.
#[derive(Debug, Drop)]
pub struct ArgList {
    kept: KeptArgs,
}

// Where the arguments stand.
#[derive(Debug, Drop)]
pub(crate) enum KeptArgs {
    One(Arg),
    Any(Vec<Arg>),
}

impl Model for ArgList {
    ghost use Rattle.std.specs.Prelude.{List};
    ghost use Rattle.sg_script.specs.Inside.Args.{args_of};
    ghost use Rattle.sg_script.specs.declared.script.Arg.{Arg as IsArg};

    ghost Value = { List IsArg };

    ghost view = { λ a. args_of a.kept };
}

impl ArgList {
    /// One argument. It takes no memory.
    pub fn of_one(arg: Arg) -> ArgList
        ensures { result ≡ arg ∷ [] }
    {
        ArgList {
            kept: KeptArgs::One(arg),
        }
    }

    /// What a vector has. It takes no memory.
    pub fn from_vec(args: Vec<Arg>) -> ArgList
        ensures { result ≡ args.items }
    {
        ArgList {
            kept: KeptArgs::Any(args),
        }
    }

    /// The arguments, lent.
    pub fn as_slice(&self) -> &[Arg]
        ensures { result.now ≡ self.now }
    {
        match &self.kept {
            KeptArgs::One(arg) => slice::from_ref(arg),
            KeptArgs::Any(args) => args.as_slice(),
        }
    }
}
