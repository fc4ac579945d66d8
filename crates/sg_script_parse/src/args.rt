// The arguments of a call, as they are written.
ghost use Rattle.std.specs.Prelude.{◌≡◌, [], ◌∷◌, ◌++◌, IfOk, OnOk, OnErr};

use crate::tree::WrittenArg;
use sg_base::NoMemory;
use sg_lex::Spelled;
use std::alloc::Global;
use std::marker::Model;
use std::{mem, slice};

/// The arguments of a call. One alone stands in the list itself; only more take a block of memory. Contracts see the list of them.
#[derive(Debug, Drop)]
pub struct WrittenArgList<'a> {
    kept: KeptArgs<'a>,
}

// Where the arguments stand.
#[derive(Debug, Drop)]
pub(crate) enum KeptArgs<'a> {
    One(WrittenArg<'a>),
    Any(Vec<WrittenArg<'a>>),
}

impl<'a> Model for WrittenArgList<'a> {
    ghost use Rattle.std.specs.Prelude.{List};
    ghost use Rattle.sg_script_parse.specs.Inside.Args.{args_of};
    ghost use Rattle.sg_script_parse.specs.declared.tree.WrittenArg.{WrittenArg as IsArg};

    ghost Value = { List IsArg };

    ghost view = { λ a. args_of a.kept };
}

impl<'a> WrittenArgList<'a> {
    /// No argument. It takes no memory.
    pub(crate) fn new(alloc: Global) -> WrittenArgList<'a>
        ensures { result ≡ [] }
    {
        WrittenArgList {
            kept: KeptArgs::Any(Vec::new(alloc)),
        }
    }

    /// One argument. It takes no memory.
    pub(crate) fn of_one(arg: WrittenArg<'a>) -> WrittenArgList<'a>
        ensures { result ≡ arg.entry ∷ [] }
    {
        WrittenArgList {
            kept: KeptArgs::One(arg),
        }
    }

    /// Adds an argument at the end. After `NoMemory` the list is as before.
    pub(crate) fn push(&mut self, alloc: Global, arg: WrittenArg<'a>) -> Result<(), NoMemory>
        ensures ok { OnOk result (self.new ≡ self.old ++ arg.entry ∷ []) }
        ensures err { OnErr result (self.new ≡ self.old) }
    {
        match &mut self.kept {
            KeptArgs::One(first) => self.kept = KeptArgs::Any(two(alloc, first, arg)?),
            KeptArgs::Any(args) => args.push(arg)?,
        }
        Ok(())
    }

    /// The arguments, lent.
    pub fn as_slice(&self) -> &[WrittenArg<'a>]
        ensures { result.now ≡ self.now }
    {
        match &self.kept {
            KeptArgs::One(arg) => slice::from_ref(arg),
            KeptArgs::Any(args) => args.as_slice(),
        }
    }
}

// A list of an argument, which is taken, and another. After `NoMemory` the first is as before.
fn two<'a>(
    alloc: Global,
    first: &mut WrittenArg<'a>,
    second: WrittenArg<'a>,
) -> Result<Vec<WrittenArg<'a>>, NoMemory>
    ensures ok { IfOk result (λ args. args.items ≡ first.old ∷ second.entry ∷ []) }
    ensures err { OnErr result (first.new ≡ first.old) }
{
    let mut args = Vec::with_capacity(alloc, 2)?;
    args.push_reserved(mem::replace(first, blank()));
    args.push_reserved(second);
    Ok(args)
}

// An argument that says nothing.
fn blank<'a>() -> WrittenArg<'a> {
    WrittenArg::Number(Spelled { slice: &[], at: 0 })
}
