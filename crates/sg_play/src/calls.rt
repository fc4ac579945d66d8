// What a call of a script comes to, by the descriptors that its client's earlier calls were given.
ghost use Rattle.std.specs.Prelude.{◌≡◌, ◌+◌, ◌∷◌, [], List, None, IfOk, IfSome, length, slice_get};
ghost use Rattle.sg_facts.specs.Kinds.{AreWords};
ghost use Rattle.sg_facts.specs.declared.entry.Entry.{Entry as IsEntry};
ghost use Rattle.sg_plain.specs.Calls.{script_calls};
ghost use Rattle.sg_plain.specs.Playing.Given.{GaveIds};
ghost use Rattle.sg_plain.specs.Playing.Playable.{IsPlayable};
ghost use Rattle.sg_play.specs.NextCall.{IsNextCall, IsResolved};
ghost use Rattle.sg_plain.specs.Script.{arg_value, desc_among, id_of_call, value_of, values_of};

use crate::parts::script_call;
use sg_facts::{Args, Interface, Kind, NextCall, NoMemory, TryCopy, Value};
use sg_plain::{Arg, Script, ScriptCall};
use std::alloc::Global;

/// The next call of a client, whose calls so far were given these descriptors; None where it has no more.
pub fn next_call(
    alloc: Global,
    interface: &Interface,
    script: &Script,
    given: &[u64],
    client: u8,
) -> Result<Option<NextCall>, NoMemory>
    requires { IsPlayable interface.now script.now }
    ensures some { (own : List IsEntry) → GaveIds own given.now → IfOk result (λ next. IfSome next (λ call.
        IsNextCall interface.now script.now own (record { client = client; seq = length own + 1; fun = call.fun; desc = call.desc; args = call.args }))) }
    ensures none { IfOk result (λ next. next ≡ None → slice_get (script_calls script.now client) (length given.now) ≡ None) }
{
    let Some(call) = script_call(script, client, given.len()) else {
        return Ok(None);
    };
    Ok(Some(resolve(alloc, interface, given, call)?))
}

/// What a client says of a call that a script gives it, where its calls so far were given these descriptors.
pub fn resolve(
    alloc: Global,
    interface: &Interface,
    given: &[u64],
    call: &ScriptCall,
) -> Result<NextCall, NoMemory>
    ensures call { (own : List IsEntry) → GaveIds own given.now → IfOk result (IsResolved interface.now.facts own call.now) }
    ensures words { IfOk result (λ next. AreWords next.args) }
{
    let kinds = interface.fun(call.fun).kinds;
    let desc = desc_among(given, kinds, call.args.as_slice());
    let args = values_of(alloc, given, kinds, call.args.as_slice())?;
    Ok(NextCall {
        fun: call.fun,
        desc,
        args,
    })
}

// The descriptor or parent among arguments, 0 where no parameter is one.
fn desc_among(given: &[u64], kinds: &[Kind], args: &[Arg]) -> u64
    ensures { (own : List IsEntry) → GaveIds own given.now → result ≡ desc_among own kinds.now args.now }
{
    for (kind, arg) in kinds.iter().zip(args) {
        match kind {
            Kind::Desc | Kind::Parent => return arg_value(given, arg),
            Kind::Word | Kind::Text => (),
        }
    }
    0
}

// The other arguments, in their order.
fn values_of(alloc: Global, given: &[u64], kinds: &[Kind], args: &[Arg]) -> Result<Args, NoMemory>
    ensures values { (own : List IsEntry) → GaveIds own given.now → IfOk result (λ values. values ≡ values_of own kinds.now args.now) }
    ensures words { IfOk result AreWords }
{
    let mut values = Args::new(alloc);
    for (kind, arg) in kinds.iter().zip(args) {
        match kind {
            Kind::Desc | Kind::Parent => (),
            Kind::Word | Kind::Text => values.push(value_of(alloc, given, arg)?)?,
        }
    }
    Ok(values)
}

// An argument as a value.
fn value_of(alloc: Global, given: &[u64], arg: &Arg) -> Result<Value, NoMemory>
    ensures value { (own : List IsEntry) → GaveIds own given.now → IfOk result (λ value. value ≡ value_of own arg.now) }
    ensures words { IfOk result (λ value. AreWords (value ∷ [])) }
{
    match arg {
        Arg::Number(number) => Ok(Value::Word(*number)),
        Arg::Text(text) => Ok(Value::Text(text.copy(alloc)?)),
        Arg::Back(call) => Ok(Value::Word(id_of_call(given, *call))),
    }
}

// An argument as a number.
fn arg_value(given: &[u64], arg: &Arg) -> u64
    ensures { (own : List IsEntry) → GaveIds own given.now → result ≡ arg_value own arg.now }
{
    match arg {
        Arg::Number(number) => *number,
        Arg::Text(_) => 0,
        Arg::Back(call) => id_of_call(given, *call),
    }
}

// The descriptor that the call of a number was given, 0 for none.
fn id_of_call(given: &[u64], call: u32) -> u64
    ensures { (own : List IsEntry) → GaveIds own given.now → result ≡ id_of_call own call }
{
    if call == 0 {
        return 0;
    }
    match given.get(call as usize - 1) {
        Some(id) => *id,
        None => 0,
    }
}
