// What descriptors can come to, to be looked up.
ghost use Rattle.std.specs.Prelude.{◌≡◌, IfOk};
ghost use Rattle.sg_stub.specs.Inside.Triples.{SameTriples, has_triple};

use sg_check::{NoMemory, Triple};
use std::alloc::Global;
use std::collections::HashSet;
use std::marker::Model;

/// Creations, states and sets of fields that belong together, in no order. Contracts see their list.
#[derive(Debug, Drop)]
pub struct TripleSet {
    triples: HashSet<(u8, u8, u8)>,
}

impl Model for TripleSet {
    ghost use Rattle.std.specs.Prelude.{List, ℕ};

    ghost Value = { List (ℕ × ℕ × ℕ) };

    ghost view = { λ s. s.triples.keys };
}

impl TripleSet {
    /// The set of these.
    pub fn new(alloc: Global, triples: &[Triple]) -> Result<TripleSet, NoMemory>
        ensures { IfOk result (SameTriples triples.now) }
    {
        let mut set = HashSet::new(alloc);
        'triples: for triple in triples {
            set.insert((triple.made, triple.state, triple.mask))?;
        }
        Ok(TripleSet { triples: set })
    }

    /// Whether a creation, a state and a set of fields are in it.
    pub fn has(&self, made: u8, state: u8, mask: u8) -> bool
        ensures { result ≡ has_triple self.now made state mask }
    {
        self.triples.contains(&(made, state, mask))
    }
}
