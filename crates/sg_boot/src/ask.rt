// Asking a service, with the point after its reply.
ghost use Rattle.std.specs.Prelude.{◌≡◌};
ghost use Rattle.sg_facts.specs.Invoke.{FitsRoom};
ghost use Rattle.sg_facts.specs.Kinds.{MayAsk};
ghost use Rattle.sg_boot.specs.Inside.Asking.{Asks};
ghost use Rattle.sg_boot.specs.Inside.Rooms.{FitsItemRoom};

use sg_facts::{Call, Outcome, Point, Service, Stops};
use std::alloc::Global;

/// Asks a service, and then the point after its reply. `Stopped` comes from a part of an Ok or from that point; nothing is
/// known of the service's value then.
pub(crate) fn ask<S: Service, T: Stops>(
    service: &mut S,
    alloc: Global,
    stops: &mut T,
    call: &Call,
) -> Outcome
    requires { MayAsk S.facts (S.object service.old) call.now }
    ensures outcome { Asks S.facts S.ask S.parts (S.object service.old) call.now
        (record { asked = T.asked stops.old; struck = T.struck stops.old }) result
        (S.object service.new) (record { asked = T.asked stops.new; struck = T.struck stops.new }) }
    ensures room { FitsItemRoom result }
    ensures fits { FitsRoom (S.object service.old) result }
    ensures plan { T.plan stops.new ≡ T.plan stops.old }
    ensures test { T.test (T.asked stops.old) (T.struck stops.old) (T.plan stops.old)
        → T.test (T.asked stops.new) (T.struck stops.new) (T.plan stops.new) }
{
    match service.invoke(alloc, stops, call) {
        Outcome::Replied { reply, patch } => {
            if stops.strikes(Point::Effect) {
                Outcome::Stopped
            } else {
                Outcome::Replied { reply, patch }
            }
        }
        Outcome::Blocks => Outcome::Blocks,
        Outcome::Stopped => Outcome::Stopped,
        Outcome::NoMemory => Outcome::NoMemory,
    }
}
