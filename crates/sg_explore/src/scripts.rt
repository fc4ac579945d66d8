// A script with other stops.
ghost use Rattle.std.specs.Prelude.{◌≡◌, IfOk};

use sg_facts::{ListOf, NoMemory, PointList, TryCopy};
use sg_shared::{Arg, ArgList, CallList, ClientList, Script, ScriptCall};
use std::alloc::Global;

/// A script with these stops in place of its own.
pub(crate) fn with_stops(
    alloc: Global,
    script: &Script,
    stops: PointList,
) -> Result<Script, NoMemory>
    ensures { IfOk result (λ made. made ≡ record script.now { stops = stops }) }
{
    Ok(Script {
        setup: copied_calls(alloc, script.setup.as_slice())?,
        clients: copied_clients(alloc, script.clients.as_slice())?,
        schedule: script.schedule.copy(alloc)?,
        stops,
    })
}

// Equal clients with their calls.
fn copied_clients(alloc: Global, clients: &[(u8, CallList)]) -> Result<ClientList, NoMemory>
    ensures { IfOk result (λ copy. copy ≡ clients.now) }
{
    let mut copy = ListOf::new(alloc);
    'each: for (client, calls) in clients {
        copy.push((*client, copied_calls(alloc, calls.as_slice())?))?;
    }
    Ok(copy)
}

// Equal calls.
fn copied_calls(alloc: Global, calls: &[ScriptCall]) -> Result<CallList, NoMemory>
    ensures { IfOk result (λ copy. copy ≡ calls.now) }
{
    let mut copy = ListOf::new(alloc);
    'each: for call in calls {
        copy.push(copied_call(alloc, call)?)?;
    }
    Ok(copy)
}

// An equal call.
fn copied_call(alloc: Global, call: &ScriptCall) -> Result<ScriptCall, NoMemory>
    ensures { IfOk result (λ copy. copy ≡ call.now) }
{
    Ok(ScriptCall {
        fun: call.fun,
        args: copied_args(alloc, call.args.as_slice())?,
    })
}

// Equal arguments.
fn copied_args(alloc: Global, args: &[Arg]) -> Result<ArgList, NoMemory>
    ensures { IfOk result (λ copy. copy ≡ args.now) }
{
    let mut copy = Vec::with_capacity(alloc, args.len())?;
    'each: for arg in args {
        copy.push(copied_arg(alloc, arg)?)?;
    }
    Ok(ArgList::from_vec(copy))
}

// An equal argument.
fn copied_arg(alloc: Global, arg: &Arg) -> Result<Arg, NoMemory>
    ensures { IfOk result (λ copy. copy ≡ arg.now) }
{
    match arg {
        Arg::Number(number) => Ok(Arg::Number(*number)),
        Arg::Text(text) => Ok(Arg::Text(text.copy(alloc)?)),
        Arg::Back(back) => Ok(Arg::Back(*back)),
    }
}
