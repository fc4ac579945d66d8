// Calls on services, through their bound alone.
ghost use Rattle.std.specs.Prelude.{◌≡◌, []};
ghost use Rattle.sg_facts.specs.Kinds.{MayAsk};
ghost use Rattle.sg_facts.specs.Invoke.{Invokes};

use sg_facts::{Args, Call, Outcome, Service, Stops};
use std::alloc::Global;

/// Asks a service through its bound alone.
pub fn ask<S: Service, T: Stops>(
    service: &mut S,
    alloc: Global,
    stops: &mut T,
    call: &Call,
) -> Outcome
    requires { MayAsk S.facts (S.object service.old) call.now }
    ensures { Invokes S.facts S.ask S.parts (S.object service.old) call.now
        (record { asked = T.asked stops.old; struck = T.struck stops.old }) result
        (S.object service.new) (record { asked = T.asked stops.new; struck = T.struck stops.new }) }
{
    service.invoke(alloc, stops, call)
}

/// A call without arguments.
pub fn call(alloc: Global, client: u8, fun: u8, desc: u64) -> Call
    ensures { result ≡ record { client = client; seq = 1; fun = fun; desc = desc; args = [] } }
{
    Call {
        client,
        seq: 1,
        fun,
        desc,
        args: Args::new(alloc),
    }
}
