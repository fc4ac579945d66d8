// The least walks of an interface, found together and kept to be looked up.
ghost use Rattle.std.specs.Prelude.{◌≡◌, ◌≤◌, ℕ, Bool, false, List, None, Some, length, IfNone, IfOk, IfSome, OnOk, OnErr, if◌then◌else◌};
ghost use Rattle.std.specs.Option.{option_or};
ghost use Rattle.sg_facts.specs.Fields.{number_of};
ghost use Rattle.sg_facts.specs.Interface.{Declared, HasFewFields};
ghost use Rattle.sg_facts.specs.Walks.{IsWalkOf, begin_of, most_calls, restores};
ghost use Rattle.sg_walk.specs.LeastWalks.{AreLeastWalks, same_key, walk_at};

use crate::filling::fill;
use sg_facts::{Interface, NoMemory, Walk};
use std::alloc::Global;
use std::collections::HashMap;
use std::marker::Model;

/// Walks by the creation that they begin with, and by the state and the set of fields that they restore. Contracts see the list
/// of them all, in no order.
#[derive(Debug, Drop)]
pub struct Walks {
    walks: HashMap<(u8, u8, u8), Walk>,
}

impl Model for Walks {
    ghost use Rattle.std.specs.Prelude.{List, ℕ};

    ghost Value = { List ((ℕ × ℕ × ℕ) × List ℕ) };

    ghost view = { λ w. w.walks.entries };
}

impl Walks {
    /// The least walks of an interface: of what each function makes, in each state, with each set of fields, the walk that restores
    /// these. Rows have at most 8 fields.
    pub fn new(alloc: Global, iface: &Interface) -> Result<Walks, NoMemory>
        requires { HasFewFields iface.now }
        ensures { IfOk result (AreLeastWalks iface.now) }
    {
        let mut walks = Walks::none(alloc);
        fill(alloc, iface, &mut walks)?;
        Ok(walks)
    }

    // No walk. It takes no memory.
    fn none(alloc: Global) -> Walks
        ensures { (made state mask : ℕ) → walk_at result made state mask ≡ None }
    {
        Walks {
            walks: HashMap::new(alloc),
        }
    }

    /// The walk of what a function made, in a state, with the set of fields that has a number (bit i for field i). Of an interface's
    /// least walks it is the shortest that restores these, and of those as long the first by function numbers; None then says that no
    /// walk of at most 8 calls restores them.
    pub fn get(&self, made: u8, state: u8, mask: u8) -> Option<Walk>
        ensures at { result ≡ walk_at self.now made state mask }
        ensures least { (i : Declared) → AreLeastWalks i self.now → IfSome result (λ walk.
            (set : List Bool) × (number_of set ≡ mask) × IsWalkOf i walk made state set) }
        ensures none { (i : Declared) → AreLeastWalks i self.now → IfNone result ((walk : List ℕ) (set : List Bool) → begin_of walk ≡ made
            → length walk ≤ most_calls → number_of set ≡ mask → restores i walk state set ≡ false) }
    {
        self.at(made, state, mask)
    }

    // The walk that stands there.
    fn at(&self, made: u8, state: u8, mask: u8) -> Option<Walk>
        ensures { result ≡ walk_at self.now made state mask }
    {
        match self.walks.get(&(made, state, mask)) {
            Some(walk) => Some(*walk),
            None => None,
        }
    }

    // Puts a walk where none is. After `NoMemory` the walks are as before.
    pub(crate) fn put(&mut self, made: u8, state: u8, mask: u8, walk: Walk) -> Result<(), NoMemory>
        ensures ok { OnOk result ((m s k : ℕ) → walk_at self.new m s k
            ≡ option_or (walk_at self.old m s k) (if same_key (made, state, mask) (m, s, k) then Some walk else None)) }
        ensures err { OnErr result (self.new ≡ self.old) }
    {
        let key = (made, state, mask);
        if self.walks.contains_key(&key) {
            return Ok(());
        }
        self.walks.insert(key, walk)?;
        Ok(())
    }
}
