// The service is used: it may stop at a point between calls, is booted where it failed, and is rebuilt by one step more.
ghost use Rattle.std.specs.Prelude.{◌≡◌, ◌≤◌, ℕ, None, Some, IsSome, IfOk, OnOk, OnErr, if◌then◌else◌, length};
ghost use Rattle.sg_clients.specs.Clients.{IsClient};
ghost use Rattle.sg_facts.specs.sg_base.Stops.{asked_after};
ghost use Rattle.sg_replay.specs.Missing.{missing};
ghost use Rattle.sg_clients.specs.WorldView.{rebooted, seat_in, struck_at, with_points};
ghost use Rattle.sg_world.specs.Due.{needs_in};
ghost use Rattle.sg_world.specs.Inners.{IsInOrder, KeepsRest, view_in};
ghost use Rattle.sg_world.specs.Steps.{PassesGuard, Steps};
ghost use Rattle.sg_world.specs.Worlded.{setting_of};

use crate::did::Did;
use crate::inner::Inner;
use sg_facts::{NoMemory, Path, Point, Service, Stops};
use sg_replay::{Advanced, Todo};
use std::alloc::Global;

impl<S: Service, T: Stops> Inner<S, T> {
    /// Asks whether the service stops at a point between calls, and stops it there if it does. It takes no memory.
    pub(crate) fn strikes(&mut self, point: Point) -> bool
        requires order { IsInOrder S.facts S.ask S.sound S.parts T.test T.asked T.struck T.plan self.old }
        requires up { IsSome self.old.engine.cell.running }
        ensures order { IsInOrder S.facts S.ask S.sound S.parts T.test T.asked T.struck T.plan self.new }
        ensures view { let w = view_in self.old in let asked = asked_after w.run.points 1 in view_in self.new ≡ (if result then struck_at w asked else with_points w asked) }
        ensures rest { KeepsRest T.plan self.old self.new }
    {
        let strikes = self.stops.strikes(point);
        let asked = self.stops.asked();
        if strikes {
            self.engine.strike(asked);
        } else {
            self.engine.count(asked);
        }
        strikes
    }

    /// Boots the service that failed afresh, for a client whose call needs this; whoever waits is asked again. After `NoMemory` the
    /// world is as before.
    pub(crate) fn boot(
        &mut self,
        alloc: Global,
        client: u8,
        file: &Option<Path>,
    ) -> Result<(), NoMemory>
        requires order { IsInOrder S.facts S.ask S.sound S.parts T.test T.asked T.struck T.plan self.old }
        requires client { IsClient (length self.old.clients) client }
        requires failed { self.old.engine.cell.running ≡ None }
        ensures order { IsInOrder S.facts S.ask S.sound S.parts T.test T.asked T.struck T.plan self.new }
        ensures ok { OnOk result (view_in self.new ≡ rebooted (view_in self.old)) }
        ensures err { OnErr result (view_in self.new ≡ view_in self.old) }
        ensures rest { KeepsRest T.plan self.old self.new }
    {
        self.engine.reserve(alloc, self.clients.call(client), file)?;
        self.engine.boot(alloc);
        self.clients.wake_all();
        Ok(())
    }

    /// Does what is to be done next for a client's call that needs this file, where the point before was asked already. After
    /// `NoMemory` the world is as before.
    pub(crate) fn advance(
        &mut self,
        alloc: Global,
        client: u8,
        file: &Option<Path>,
        todo: Todo,
    ) -> Result<Did, NoMemory>
        requires order { IsInOrder S.facts S.ask S.sound S.parts T.test T.asked T.struck T.plan self.old }
        requires client { IsClient (length self.old.clients) client }
        requires let_in { PassesGuard (setting_of S.ask S.sound S.parts self.old.engine.tables) (view_in self.old) client }
        requires up { IsSome self.old.engine.cell.running }
        requires file { file.now ≡ (needs_in (setting_of S.ask S.sound S.parts self.old.engine.tables) (view_in self.old) (seat_in self.old.clients client).call).file }
        requires due { missing self.old.engine (needs_in (setting_of S.ask S.sound S.parts self.old.engine.tables) (view_in self.old) (seat_in self.old.clients client).call) ≡ Some todo }
        ensures order { IsInOrder S.facts S.ask S.sound S.parts T.test T.asked T.struck T.plan self.new }
        ensures did { (asked : ℕ) → (view_in self.old).run.points ≡ asked_after asked 1
            → IfOk result (λ did. Steps (setting_of S.ask S.sound S.parts self.old.engine.tables) (with_points (view_in self.old) asked) client did (view_in self.new)) }
        ensures err { OnErr result (view_in self.new ≡ view_in self.old) }
        ensures rest { KeepsRest T.plan self.old self.new }
    {
        match self
            .engine
            .advance(alloc, &mut self.stops, client, file, todo)?
        {
            Advanced::Replayed => Ok(Did::Replayed),
            Advanced::Loaded => Ok(Did::Loaded),
            Advanced::Struck => Ok(Did::Struck),
        }
    }
}
