// Recover steps, to be looked up.
ghost use Rattle.std.specs.Prelude.{◌≡◌, ℕ, IfOk};
ghost use Rattle.sg_facts.specs.Interface.{has_pair};
ghost use Rattle.sg_walk.specs.Inside.StepSets.{SamePairs};

use sg_facts::NoMemory;
use std::alloc::Global;
use std::collections::HashSet;
use std::marker::Model;

/// Pairs of a state and a function, in no order. Contracts see their list.
#[derive(Debug, Drop)]
pub struct StepSet {
    pairs: HashSet<(u8, u8)>,
}

impl Model for StepSet {
    ghost use Rattle.std.specs.Prelude.{List, ℕ};

    ghost Value = { List (ℕ × ℕ) };

    ghost view = { λ s. s.pairs.keys };
}

impl StepSet {
    /// The set of these pairs.
    pub fn new(alloc: Global, pairs: &[(u8, u8)]) -> Result<StepSet, NoMemory>
        ensures { IfOk result (SamePairs pairs.now) }
    {
        let mut set = HashSet::new(alloc);
        'pairs: for pair in pairs {
            set.insert(*pair)?;
        }
        Ok(StepSet { pairs: set })
    }

    /// Whether a pair is in the set.
    pub fn has(&self, state: u8, fun: u8) -> bool
        ensures { result ≡ has_pair self.now state fun }
    {
        self.pairs.contains(&(state, fun))
    }
}
