// Sets of function numbers.
ghost use Rattle.std.specs.Prelude.{◌≡◌, [], OnOk, OnErr};
ghost use Rattle.sg_check.specs.Inside.Numbers.{GainsNumber, has_number};

use sg_check_statements::NoMemory;
use std::alloc::Global;
use std::collections::HashSet;
use std::marker::Model;

/// A set of function numbers. Contracts see them in some order.
#[derive(Debug, Drop)]
pub struct Numbers {
    numbers: HashSet<usize>,
}

impl Model for Numbers {
    ghost use Rattle.std.specs.Prelude.{ℕ, List};

    ghost Value = { List ℕ };

    ghost view = { λ n. n.numbers.keys };
}

impl Numbers {
    /// None. It takes no memory.
    pub fn new(alloc: Global) -> Numbers
        ensures { result ≡ [] }
    {
        Numbers {
            numbers: HashSet::new(alloc),
        }
    }

    /// Whether the set has a number.
    pub fn has(&self, number: usize) -> bool
        ensures { result ≡ has_number self.now number }
    {
        self.numbers.contains(&number)
    }

    /// Adds a number. After `NoMemory` the set is as before.
    pub fn add(&mut self, number: usize) -> Result<(), NoMemory>
        ensures ok { OnOk result (GainsNumber self.old self.new number) }
        ensures err { OnErr result (self.new ≡ self.old) }
    {
        self.numbers.insert(number)?;
        Ok(())
    }
}
