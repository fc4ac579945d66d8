// Calls that are added to a script, and where a group of them stands.
ghost use Rattle.std.specs.Prelude.{◌≡◌, ◌++◌, [], ◌∷◌, OnOk, IfOk, replicate};
ghost use Rattle.sg_load.specs.Services.{call};

use sg_facts::NoMemory;
use sg_plain::{Arg, ArgList, CallList, ScriptCall};
use std::alloc::Global;

/// Where a group stands: its client, the number of its first call among the client's calls, and its own number among the
/// client's groups, both from 1.
#[derive(Clone, Copy, Debug)]
pub(crate) struct GroupState {
    pub(crate) client: u8,
    pub(crate) first: u32,
    pub(crate) group: u32,
}

/// Adds a call of a function.
pub(crate) fn add_call(calls: &mut CallList, fun: u8, args: Vec<Arg>) -> Result<(), NoMemory>
    ensures { OnOk result (calls.new ≡ calls.old ++ call fun args.items ∷ []) }
{
    calls.push(ScriptCall {
        fun,
        args: ArgList::from_vec(args),
    })
}

/// So many calls of a function without arguments.
#[tactic(auto, using(crate::proofs::Steps::times_none, crate::proofs::Steps::times_more))]
pub(crate) fn times(alloc: Global, count: u32, fun: u8) -> Result<CallList, NoMemory>
    ensures { IfOk result (λ calls. calls ≡ replicate count (call fun [])) }
{
    let mut calls = CallList::new(alloc);
    'each: for done in 0..count {
        add_call(&mut calls, fun, Vec::new(alloc))?;
    }
    Ok(calls)
}
