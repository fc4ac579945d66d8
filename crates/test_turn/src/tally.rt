// A value that notes who held it.
ghost use Rattle.std.specs.Prelude.{◌≡◌, []};
ghost use Rattle.sg_turn.specs.Logs.{OneMore};
ghost use Rattle.sg_turn.specs.Seats.{AddsMarks};
ghost use Rattle.test_turn.specs.Tallies.{answers};

use sg_turn::Kept;
use std::alloc::{AllocError, Global};

/// The clients that noted themselves, in their order, and how often one tried to.
#[derive(Drop)]
pub struct Tally {
    pub clients: Vec<u8>,
    pub events: u64,
}

impl Kept for Tally {
    ghost log = { λ t. answers t.clients.items };

    ghost events = { λ t. t.events };
}

impl Tally {
    /// A tally that nobody held yet.
    pub fn new(alloc: Global) -> Tally
        ensures clients { result.clients.items ≡ [] }
    {
        Tally {
            clients: Vec::new(alloc),
            events: 0,
        }
    }

    /// Notes a client, unless memory is wanting.
    pub fn note(&mut self, client: u8) -> Result<(), AllocError>
        ensures marks { AddsMarks client (answers self.old.clients.items) (answers self.new.clients.items) }
        ensures events { OneMore self.old.events self.new.events }
    {
        self.events = self.events.saturating_add(1);
        self.clients.push(client)?;
        Ok(())
    }

    /// How often a client stands in it.
    pub fn count(&self, client: u8) -> usize {
        self.clients
            .iter()
            .filter(|noted| **noted == client)
            .count()
    }
}
