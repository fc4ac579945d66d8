// Want of memory at one event.
ghost use Rattle.std.specs.Prelude.{◌≡◌};
ghost use Rattle.sg_log.specs.sg_turn.Logs.{OneMore};

use sg_log::{Args, Host, Kept, NoMemory, Stepped};
use std::alloc::Global;

/// What is shared, with no memory for one of the offers and steps.
#[derive(Drop)]
pub struct Short<H: Host> {
    pub host: H,
    // The number of that event among those that are left, from 1; 0 where it was.
    at: u64,
    events: u64,
}

impl<H: Host> Short<H> {
    /// There is no memory for the offer or step of a number, from 1.
    pub fn new(host: H, at: u64) -> Short<H>
        ensures { result.host ≡ host }
    {
        Short {
            host,
            at,
            events: 0,
        }
    }

    // Counts an event.
    fn count(&mut self)
        ensures host { self.new.host ≡ self.old.host }
        ensures events { OneMore self.old.events self.new.events }
    {
        self.events = self.events.saturating_add(1);
    }

    // Counts an offer or a step. Whether there is no memory for it.
    fn is_short(&mut self) -> bool
        ensures host { self.new.host ≡ self.old.host }
        ensures events { OneMore self.old.events self.new.events }
    {
        self.count();
        let short = self.at == 1;
        self.at = self.at.saturating_sub(1);
        short
    }
}

impl<H: Host> Kept for Short<H> {
    ghost log = { λ s. H.log s.host };

    ghost events = { λ s. s.events };
}

impl<H: Host> Host for Short<H> {
    ghost clients = { H.clients };

    ghost legal = { λ history. Unit {0} };

    ghost waits = { H.waits };

    ghost may_offer = { H.may_offer };

    ghost phases = { λ s. H.phases s.host };

    ghost may_give_up = { λ s client. H.may_give_up s.host client };

    fn client_count(&self) -> u8 {
        self.host.client_count()
    }

    fn offer(
        &mut self,
        alloc: Global,
        client: u8,
        fun: u8,
        desc: u64,
        args: Args,
    ) -> Result<(), NoMemory> {
        if self.is_short() {
            return Err(NoMemory);
        }
        self.host.offer(alloc, client, fun, desc, args)
    }

    fn step(&mut self, alloc: Global, client: u8) -> Result<Stepped, NoMemory> {
        if self.is_short() {
            return Err(NoMemory);
        }
        self.host.step(alloc, client)
    }

    fn may_withdraw(&self, client: u8) -> bool {
        self.host.may_withdraw(client)
    }

    fn is_all_blocked(&self, client: u8) -> bool {
        self.host.is_all_blocked(client)
    }

    fn is_waiting(&self, client: u8) -> bool {
        self.host.is_waiting(client)
    }

    fn withdraw(&mut self, client: u8) {
        self.count();
        self.host.withdraw(client);
    }

    fn leave(&mut self, client: u8) {
        self.count();
        self.host.leave(client);
    }
}
