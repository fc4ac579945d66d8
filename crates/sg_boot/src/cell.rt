// A service with its journal.
ghost use Rattle.std.specs.Prelude.{◌≡◌, ◌≤◌, true, [], length, None, Some, IsSome, IfOk, OnOk, OnErr};
ghost use Rattle.std.specs.Option.{is_some, option_copied, option_map};
ghost use Rattle.sg_facts.specs.Invoke.{FitsRoom, loaded};
ghost use Rattle.sg_facts.specs.Object.{Object, empty_object};
ghost use Rattle.sg_facts.specs.Trace.{run_of};
ghost use Rattle.sg_hist.specs.Growing.{booted};
ghost use Rattle.sg_boot.specs.Cells.{IsCell};
ghost use Rattle.sg_boot.specs.Invoking.{Invoked, MayInvoke, with_item, with_stop};
ghost use Rattle.sg_hist.specs.Recovered.{item_of_load};

use crate::ask::ask;
use crate::journal::Journal;
use sg_facts::{Call, LoadNote, NoMemory, Outcome, Path, Service, Stops, Tag, Trace};
use std::alloc::Global;
use std::marker::Model;

/// A service with the trace of what was done to it. While the service is up, it holds what the items of this boot make of an
/// empty one; a service that failed is let go, and its value never read. Contracts see what the running service holds, what the
/// trace tells, and for how many items and boots more there is room.
#[derive(Debug, Drop)]
pub struct Cell<S: Service> {
    image: S::Image,
    service: Option<S>,
    journal: Journal,
}

impl<S: Service> Model for Cell<S> {
    ghost use Rattle.std.specs.Option.{option_map};
    ghost use Rattle.sg_boot.specs.Cells.{Celled, IsCell};

    ghost Value = { Celled };

    ghost view = { λ c. record { running = option_map S.object c.service; run = c.journal.run; room = c.journal.room } };

    ghost invariant = { λ c. IsCell S.facts (option_map S.object c.service) c.journal.run.boots };
}

impl<S: Service> Cell<S> {
    /// A service of an image that is up in its first boot, and to which nothing was done.
    pub fn new(alloc: Global, image: S::Image) -> Result<Cell<S>, NoMemory>
        ensures running { IfOk result (λ cell. cell.running ≡ Some empty_object) }
        ensures run { IfOk result (λ cell. cell.run ≡ record { boots = booted []; points = 0 }) }
    {
        Ok(Cell {
            image,
            journal: Journal::new(alloc)?,
            service: Some(S::fresh(alloc, image)),
        })
    }

    /// Whether the service is up.
    pub fn is_up(&self) -> bool
        ensures up { result ≡ is_some self.now.running }
        ensures kept { IsCell S.facts self.now.running self.now.run.boots }
    {
        self.service.is_some()
    }

    /// The number of this boot, from 1: the number of boots in the trace.
    pub fn boot_number(&self) -> u64
        ensures { result ≡ length self.now.run.boots }
    {
        self.journal.boots()
    }

    /// What was done to the service, lent.
    pub fn trace(&self) -> &Trace
        ensures run { run_of result.now ≡ self.now.run }
        ensures kept { IsCell S.facts self.now.running self.now.run.boots }
    {
        self.journal.trace()
    }

    /// What was done to the service, given away; the service is let go.
    pub fn into_trace(self) -> Trace
        ensures { run_of result ≡ self.run }
    {
        self.journal.into_trace()
    }

    /// The running service, lent; None exactly where the service failed.
    pub fn service(&self) -> Option<&S>
        ensures { option_map S.object (option_copied result) ≡ self.now.running }
    {
        self.service.as_ref()
    }

    /// Takes the memory for one boot, and for one item of `invoke` whole: 4 words, a key, and two lists of 256 bytes. What was
    /// done stays and room is never lost, whatever the answer.
    pub fn reserve(&mut self, alloc: Global) -> Result<(), NoMemory>
        ensures ok { OnOk result (1 ≤ self.new.room) }
        ensures room { self.old.room ≤ self.new.room }
        ensures running { self.new.running ≡ self.old.running }
        ensures run { self.new.run ≡ self.old.run }
    {
        self.journal.reserve(alloc)
    }

    /// Asks the running service a call, and then the point after its reply, and notes the item with the number of points asked,
    /// in the room that was taken for it. `shown` is the call under the clients' ids: the same but for its descriptor. `Stopped` comes from a part of an Ok or from
    /// that point: the service has failed then, and its boot ends at the last point asked. After `NoMemory`, which is the
    /// service's own, nothing changed. A reply has at most 4 words and 256 bytes, and a patch fits its file.
    pub fn invoke<T: Stops>(
        &mut self,
        alloc: Global,
        stops: &mut T,
        tag: Tag,
        shown: &Call,
        call: Call,
    ) -> Outcome
        requires { MayInvoke S.facts self.old tag shown.now call }
        ensures outcome { (held : Object) → self.old.running ≡ Some held → Invoked S.facts S.ask S.parts held self.old tag shown.now call
            (record { asked = T.asked stops.old; struck = T.struck stops.old }) result
            self.new (record { asked = T.asked stops.new; struck = T.struck stops.new }) }
        ensures fits { (held : Object) → self.old.running ≡ Some held → FitsRoom held result }
        ensures plan { T.plan stops.new ≡ T.plan stops.old }
        ensures test { T.test (T.asked stops.old) (T.struck stops.old) (T.plan stops.old)
            → T.test (T.asked stops.new) (T.struck stops.new) (T.plan stops.new) }
    {
        let outcome = match &mut self.service {
            Some(service) => ask(service, alloc, stops, &call),
            None => unreachable!(),
        };
        match outcome {
            Outcome::NoMemory => Outcome::NoMemory,
            Outcome::Stopped => {
                let point = stops.asked();
                self.journal
                    .note_call(tag, shown, call, point, &Outcome::Stopped);
                fail(&mut self.service, &mut self.journal, point);
                Outcome::Stopped
            }
            outcome => {
                self.journal
                    .note_call(tag, shown, call, stops.asked(), &outcome);
                outcome
            }
        }
    }

    /// Loads a file whole into the running service for a client, and notes the item with the number of points asked. After
    /// `NoMemory` nothing changed.
    pub fn load(
        &mut self,
        alloc: Global,
        client: u8,
        points: u64,
        key: &Path,
        bytes: &[u8],
    ) -> Result<(), NoMemory>
        requires files { S.facts.resc_data ≡ true }
        requires up { IsSome self.old.running }
        requires room { 1 ≤ self.old.room }
        ensures running { OnOk result ((held : Object) → self.old.running ≡ Some held → self.new.running ≡ Some (loaded S.facts held key.now bytes.now)) }
        ensures run { OnOk result (self.new.run ≡ with_item self.old.run (item_of_load client points key.now bytes.now) points) }
        ensures err { OnErr result ((self.new.running ≡ self.old.running) × (self.new.run ≡ self.old.run) × (self.new.room ≡ self.old.room)) }
    {
        let file = self.journal.file(alloc, key, bytes)?;
        match &mut self.service {
            Some(service) => service.load(alloc, key, bytes)?,
            None => unreachable!(),
        }
        self.journal.note_load(LoadNote::new(client, points, file));
        Ok(())
    }

    /// Sets the number of points asked.
    pub fn count(&mut self, points: u64)
        ensures running { self.new.running ≡ self.old.running }
        ensures run { self.new.run ≡ record self.old.run { points = points } }
        ensures room { self.new.room ≡ self.old.room }
    {
        self.journal.count(points);
    }

    /// Stops the service at a point, which is the last that was asked. It has failed then.
    pub fn strike(&mut self, point: u64)
        requires { IsSome self.old.running }
        ensures running { self.new.running ≡ None }
        ensures run { self.new.run ≡ with_stop self.old.run point }
        ensures room { self.old.room ≤ self.new.room }
    {
        fail(&mut self.service, &mut self.journal, point);
    }

    /// Boots a fresh service after one that failed.
    pub fn boot(&mut self, alloc: Global)
        requires failed { self.old.running ≡ None }
        requires room { 1 ≤ self.old.room }
        ensures running { self.new.running ≡ Some empty_object }
        ensures run { self.new.run ≡ record self.old.run { boots = booted self.old.run.boots } }
    {
        self.journal.boot(alloc);
        self.service = Some(S::fresh(alloc, self.image));
    }
}

// Lets a service go that has failed, and ends its boot at a point, which is the last that was asked.
fn fail<S: Service>(service: &mut Option<S>, journal: &mut Journal, point: u64)
    ensures service { service.new ≡ None }
    ensures run { journal.new.run ≡ with_stop journal.old.run point }
    ensures room { journal.old.room ≤ journal.new.room }
{
    *service = None;
    journal.stop(point);
}
