// Serving a call that needs nothing any more.
ghost use Rattle.std.specs.Prelude.{◌≡◌, ◌+◌, ◌≤◌, Some};
ghost use Rattle.sg_facts.specs.Invoke.{FitsRoom};
ghost use Rattle.sg_facts.specs.Object.{Object};
ghost use Rattle.sg_replay.specs.Serving.{MayServe, ServesOne, makes};

use crate::engine::Engine;
use crate::names::{real_call, tell};
use sg_facts::{Call, Outcome, Service, Stops, Tables, Tag};
use std::alloc::Global;

impl<S: Service> Engine<S> {
    /// Serves a call that needs nothing any more: asks the running service under its own ids, and tells its answer under the
    /// clients'. What a creation made gets the next id, which stands for the service's from then on. `Stopped` comes where the
    /// service stopped within the call or at the point after its reply: it has failed then. After `NoMemory` nothing changed, and
    /// nothing was asked. The rows, the receipts, the files and which of them are present stay, whatever the answer. A reply has
    /// at most 4 words and 256 bytes, and a patch fits its file as the service had it.
    pub fn serve<T: Stops>(&mut self, alloc: Global, stops: &mut T, call: &Call) -> Outcome
        requires { MayServe S.facts S.ask self.old call.now }
        ensures outcome { (held : Object) → self.old.cell.running ≡ Some held → ServesOne S.facts S.ask S.parts held self.old call.now
            (record { asked = T.asked stops.old; struck = T.struck stops.old }) result
            self.new (record { asked = T.asked stops.new; struck = T.struck stops.new }) }
        ensures fits { (held : Object) → self.old.cell.running ≡ Some held → FitsRoom held result }
        ensures names_room { self.old.names.spare ≤ self.new.names.spare + 1 }
        ensures tables { self.new.tables ≡ self.old.tables }
        ensures stored { self.new.stored ≡ self.old.stored }
        ensures tracked { self.new.tracked ≡ self.old.tracked }
        ensures present { self.new.present ≡ self.old.present }
        ensures plan { T.plan stops.new ≡ T.plan stops.old }
        ensures test { T.test (T.asked stops.old) (T.struck stops.old) (T.plan stops.old)
            → T.test (T.asked stops.new) (T.struck stops.new) (T.plan stops.new) }
    {
        let Ok(real) = real_call(alloc, &self.names, call) else {
            return Outcome::NoMemory;
        };
        let tag = Tag::Client {
            client: call.client,
            seq: call.seq,
        };
        match self.cell.invoke(alloc, stops, tag, call, real) {
            Outcome::Replied { reply, patch } => {
                let is_new = makes(&self.tables, call);
                let next = self.storage.next_id();
                let reply = tell(&mut self.names, is_new, next, reply);
                Outcome::Replied { reply, patch }
            }
            Outcome::Blocks => Outcome::Blocks,
            Outcome::Stopped => Outcome::Stopped,
            Outcome::NoMemory => Outcome::NoMemory,
        }
    }
}

// Whether a call makes a descriptor.
fn makes(tables: &Tables, call: &Call) -> bool
    ensures { result ≡ makes tables.now.iface.facts call.now }
{
    tables.interface().fun(call.fun).is_creation()
}
