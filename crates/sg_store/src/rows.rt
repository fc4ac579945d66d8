// The rows of a global service, and the number of ids given.
ghost use Rattle.std.specs.Prelude.{◌≡◌, ◌+◌, ◌≤◌, ◌<◌, ◌^◌, [], false, OnOk, if◌then◌else◌};
ghost use Rattle.std.specs.Option.{option_copied};
ghost use Rattle.sg_facts.specs.Inside.Rows.{given_after, track};
ghost use Rattle.sg_facts.specs.Track.{row_at};
ghost use Rattle.sg_store.specs.Committing.{MayFollow, NamesNext};
ghost use Rattle.sg_track.specs.Tracked.{spare_after};

use sg_facts::{Call, Interface, NoMemory, Reply, Row, Tables};
use sg_track::Tracker;
use std::alloc::Global;
use std::marker::Model;

/// The rows of a global service, and the number of ids given. Contracts see both, and for how many more rows there is room.
#[derive(Debug, Drop)]
pub(crate) struct Rows {
    tracker: Tracker,
    given: u64,
}

impl Model for Rows {
    ghost use Rattle.std.specs.Prelude.{◌≡◌};
    ghost use Rattle.sg_track.specs.Tracked.{Tracked};

    ghost Value = { Tracked };

    ghost view = { λ r. r.tracker };

    ghost invariant = { λ r. r.given ≡ r.tracker.given };
}

impl Rows {
    /// No row, and no id given. It takes no memory.
    pub(crate) fn new(alloc: Global) -> Rows
        ensures rows { result.rows ≡ [] }
        ensures given { result.given ≡ 0 }
    {
        Rows {
            tracker: Tracker::new(alloc),
            given: 0,
        }
    }

    /// The row of an id; None exactly where there is none.
    pub(crate) fn row(&self, id: u64) -> Option<&Row>
        ensures { option_copied result ≡ row_at self.now.rows id }
    {
        self.tracker.row(id)
    }

    /// The next id: one more than were given.
    pub(crate) fn next_id(&self) -> u64
        requires { self.now.given + 1 < 2 ^ 64 }
        ensures { result ≡ self.now.given + 1 }
    {
        self.given + 1
    }

    /// The number of ids given.
    pub(crate) fn given(&self) -> u64
        ensures { result ≡ self.now.given }
    {
        self.given
    }

    /// Takes the memory for one more row. Rows and ids stay, whatever the answer.
    pub(crate) fn reserve(&mut self, alloc: Global) -> Result<(), NoMemory>
        ensures ok { OnOk result (1 ≤ self.new.spare) }
        ensures rows { self.new.rows ≡ self.old.rows }
        ensures given { self.new.given ≡ self.old.given }
    {
        self.tracker.reserve(alloc)
    }

    /// Does to rows and ids what an answered call does: under a global service it is tracked, under a private one the ids alone
    /// are counted. It takes no memory.
    pub(crate) fn follow(&mut self, tables: &Tables, call: &Call, reply: &Reply)
        requires { MayFollow tables.now.iface.facts self.old call.now reply.now }
        ensures rows { let facts = tables.now.iface.facts in self.new.rows ≡ (if facts.global then track facts self.old.rows call.now reply.now else self.old.rows) }
        ensures given { self.new.given ≡ given_after tables.now.iface.facts self.old.given call.now reply.now }
        ensures spare { let facts = tables.now.iface.facts in self.new.spare ≡ (if facts.global then spare_after facts self.old.spare call.now reply.now else self.old.spare) }
    {
        let interface = tables.interface();
        self.given = given_after(interface, self.given, call, reply);
        if interface.shape.global {
            self.tracker.track(tables, call, reply);
        } else {
            count_id(&mut self.tracker, interface, call, reply);
        }
    }
}

// The number of ids given after an answered call.
fn given_after(interface: &Interface, given: u64, call: &Call, reply: &Reply) -> u64
    requires { NamesNext interface.now.facts given call.now reply.now }
    ensures { result ≡ given_after interface.now.facts given call.now reply.now }
{
    match reply {
        Reply::Ok(good) => {
            if interface.fun(call.fun).is_creation() {
                good.desc
            } else {
                given
            }
        }
        Reply::Refused(_) => given,
    }
}

// Counts the id that an Ok of a creation gives.
fn count_id(tracker: &mut Tracker, interface: &Interface, call: &Call, reply: &Reply)
    requires { NamesNext interface.now.facts tracker.old.given call.now reply.now }
    ensures rows { tracker.new.rows ≡ tracker.old.rows }
    ensures given { tracker.new.given ≡ given_after interface.now.facts tracker.old.given call.now reply.now }
    ensures spare { tracker.new.spare ≡ tracker.old.spare }
{
    match reply {
        Reply::Ok(good) => {
            // Nothing is done: the proof takes what is known of this value.
            let _next = good.desc;
            if interface.fun(call.fun).is_creation() {
                tracker.skip();
            }
        }
        Reply::Refused(_) => {}
    }
}
