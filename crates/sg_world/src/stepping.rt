// One step of a client: which of its lines it takes.
ghost use Rattle.std.specs.Prelude.{◌≡◌, ◌≤◌, ℕ, None, Some, IsSome, IfOk, OnErr, length};
ghost use Rattle.sg_clients.specs.Clients.{IsClient};
ghost use Rattle.sg_facts.specs.sg_base.Stops.{asked_after};
ghost use Rattle.sg_clients.specs.WorldView.{seat_in, with_points};
ghost use Rattle.sg_clients.specs.declared.phase.Phase.TheVariants.{Asked, Held};
ghost use Rattle.sg_world.specs.Due.{needs_in};
ghost use Rattle.sg_world.specs.Inners.{IsInOrder, KeepsRest, view_in};
ghost use Rattle.sg_world.specs.Inside.Lines.{NoMemoryLeft};
ghost use Rattle.sg_world.specs.Steps.{PassesGuard, Steps};
ghost use Rattle.sg_world.specs.Worlded.{setting_of};

use crate::did::Did;
use crate::inner::Inner;
use sg_clients::Phase;
use sg_facts::{NoMemory, Path, Point, Service, Stops};
use std::alloc::Global;

impl<S: Service, T: Stops> Inner<S, T> {
    /// One step of a client. After `NoMemory` nothing changed but the number of points.
    pub(crate) fn step(&mut self, alloc: Global, client: u8) -> Result<Did, NoMemory>
        requires order { IsInOrder S.facts S.ask S.sound S.parts T.test T.asked T.struck T.plan self.old }
        requires client { IsClient (length self.old.clients) client }
        ensures order { IsInOrder S.facts S.ask S.sound S.parts T.test T.asked T.struck T.plan self.new }
        ensures did { IfOk result (λ did. Steps (setting_of S.ask S.sound S.parts self.old.engine.tables) (view_in self.old) client did (view_in self.new)) }
        ensures err { OnErr result (NoMemoryLeft (setting_of S.ask S.sound S.parts self.old.engine.tables) (view_in self.old) client (view_in self.new)) }
        ensures rest { KeepsRest T.plan self.old self.new }
    {
        match self.clients.phase(client) {
            Phase::Idle | Phase::Blocked | Phase::Left => Ok(Did::Skipped),
            Phase::Receipted => Ok(Did::Answered(self.hand_over(alloc, client))),
            Phase::Held => Ok(self.return_or_lose(alloc, client)),
            Phase::Asked => self.judge(alloc, client),
        }
    }

    // A client that holds a reply returns it where the service is still in the boot in which it gave it, and else loses it.
    fn return_or_lose(&mut self, alloc: Global, client: u8) -> Did
        requires order { IsInOrder S.facts S.ask S.sound S.parts T.test T.asked T.struck T.plan self.old }
        requires client { IsClient (length self.old.clients) client }
        requires held { (seat_in self.old.clients client).phase ≡ Held }
        ensures order { IsInOrder S.facts S.ask S.sound S.parts T.test T.asked T.struck T.plan self.new }
        ensures did { Steps (setting_of S.ask S.sound S.parts self.old.engine.tables) (view_in self.old) client result (view_in self.new) }
        ensures rest { KeepsRest T.plan self.old self.new }
    {
        let boot = self.clients.boot(client);
        if self.engine.is_up() && boot == self.engine.boot_number() {
            Did::Answered(self.return_held(alloc, client))
        } else {
            self.lose(client);
            Did::Lost
        }
    }

    // The guard judges a client's call first.
    fn judge(&mut self, alloc: Global, client: u8) -> Result<Did, NoMemory>
        requires order { IsInOrder S.facts S.ask S.sound S.parts T.test T.asked T.struck T.plan self.old }
        requires client { IsClient (length self.old.clients) client }
        requires asks { (seat_in self.old.clients client).phase ≡ Asked }
        ensures order { IsInOrder S.facts S.ask S.sound S.parts T.test T.asked T.struck T.plan self.new }
        ensures did { IfOk result (λ did. Steps (setting_of S.ask S.sound S.parts self.old.engine.tables) (view_in self.old) client did (view_in self.new)) }
        ensures err { OnErr result (NoMemoryLeft (setting_of S.ask S.sound S.parts self.old.engine.tables) (view_in self.old) client (view_in self.new)) }
        ensures rest { KeepsRest T.plan self.old self.new }
    {
        match self.engine.guard(self.clients.call(client)) {
            Some(code) => Ok(Did::Answered(self.refuse(alloc, client, code))),
            None => self.let_in(alloc, client),
        }
    }

    // A call that the guard lets pass boots a service that failed, and else uses it.
    fn let_in(&mut self, alloc: Global, client: u8) -> Result<Did, NoMemory>
        requires order { IsInOrder S.facts S.ask S.sound S.parts T.test T.asked T.struck T.plan self.old }
        requires client { IsClient (length self.old.clients) client }
        requires let_in { PassesGuard (setting_of S.ask S.sound S.parts self.old.engine.tables) (view_in self.old) client }
        ensures order { IsInOrder S.facts S.ask S.sound S.parts T.test T.asked T.struck T.plan self.new }
        ensures did { IfOk result (λ did. Steps (setting_of S.ask S.sound S.parts self.old.engine.tables) (view_in self.old) client did (view_in self.new)) }
        ensures err { OnErr result (NoMemoryLeft (setting_of S.ask S.sound S.parts self.old.engine.tables) (view_in self.old) client (view_in self.new)) }
        ensures rest { KeepsRest T.plan self.old self.new }
    {
        let file = self.engine.file_needed(alloc, self.clients.call(client))?;
        if !self.engine.is_up() {
            self.boot(alloc, client, &file)?;
            return Ok(Did::Booted);
        }
        if self.strikes(Point::Idle) {
            return Ok(Did::Struck);
        }
        self.use_service(alloc, client, &file)
    }

    // Rebuilds what the call still needs by one step, or serves it.
    fn use_service(
        &mut self,
        alloc: Global,
        client: u8,
        file: &Option<Path>,
    ) -> Result<Did, NoMemory>
        requires order { IsInOrder S.facts S.ask S.sound S.parts T.test T.asked T.struck T.plan self.old }
        requires client { IsClient (length self.old.clients) client }
        requires let_in { PassesGuard (setting_of S.ask S.sound S.parts self.old.engine.tables) (view_in self.old) client }
        requires up { IsSome self.old.engine.cell.running }
        requires file { file.now ≡ (needs_in (setting_of S.ask S.sound S.parts self.old.engine.tables) (view_in self.old) (seat_in self.old.clients client).call).file }
        ensures order { IsInOrder S.facts S.ask S.sound S.parts T.test T.asked T.struck T.plan self.new }
        ensures did { (asked : ℕ) → (view_in self.old).run.points ≡ asked_after asked 1
            → IfOk result (λ did. Steps (setting_of S.ask S.sound S.parts self.old.engine.tables) (with_points (view_in self.old) asked) client did (view_in self.new)) }
        ensures err { OnErr result (view_in self.new ≡ view_in self.old) }
        ensures rest { KeepsRest T.plan self.old self.new }
    {
        match self.engine.missing(self.clients.call(client), file) {
            Some(todo) => self.advance(alloc, client, file, todo),
            None => self.serve(alloc, client, file),
        }
    }
}
