// Sets of names.
ghost use Rattle.std.specs.Prelude.{◌≡◌, ◌||◌, ℕ, List, [], OnOk, OnErr};
ghost use Rattle.sg_check_statements.specs.NameSet.{has_name};
ghost use Rattle.std.specs.Str.{bytes_eq};

use sg_facts::NoMemory;
use std::alloc::Global;
use std::collections::HashSet;
use std::marker::Model;

/// A set of names. Contracts see their bytes, in some order.
#[derive(Drop)]
pub struct NameSet<'a> {
    names: HashSet<&'a [u8]>,
}

impl<'a> Model for NameSet<'a> {
    ghost use Rattle.std.specs.Prelude.{ℕ, List, map};

    ghost Value = { List (List ℕ) };

    ghost view = { λ n. map (λ k. k.now) n.names.keys };
}

impl<'a> NameSet<'a> {
    /// None. It takes no memory.
    pub fn new(alloc: Global) -> NameSet<'a>
        ensures { result ≡ [] }
    {
        NameSet {
            names: HashSet::new(alloc),
        }
    }

    /// Whether the set has a name.
    pub fn has(&self, name: &[u8]) -> bool
        ensures { result ≡ has_name self.now name.now }
    {
        self.names.contains(name)
    }

    /// Adds a name. After `NoMemory` the set is as before.
    pub fn add(&mut self, name: &'a [u8]) -> Result<(), NoMemory>
        ensures ok { OnOk result ((other : List ℕ) → has_name self.new other ≡ (bytes_eq name.now other || has_name self.old other)) }
        ensures err { OnErr result (self.new ≡ self.old) }
    {
        self.names.insert(name)?;
        Ok(())
    }
}
