// The keys of an order.
ghost use Rattle.std.specs.Prelude.{◌≡◌, ℕ, true, false, OnOk, OnErr};
ghost use Rattle.sg_slots.specs.Inside.QueueKeys.{has, GainsKey, LosesKey, IsFound};

use crate::Standing;
use sg_facts::NoMemory;
use std::collections::BTreeSet;

/// An entry in an order: by two numbers, then by its id.
#[derive(Clone, Copy, Debug, PartialEq, Eq, PartialOrd, Ord)]
pub(crate) struct Key {
    pub first: u64,
    pub second: u64,
    pub id: u64,
}

impl Key {
    /// The key of the entry of an id.
    pub(crate) fn new(id: u64, standing: Standing) -> Self
        ensures { result ≡ record { first = standing.first; second = standing.second; id = id } }
    {
        Key {
            first: standing.first,
            second: standing.second,
            id,
        }
    }
}

/// Adds a key, or none. After `NoMemory` the keys are as before.
pub(crate) fn add(keys: &mut BTreeSet<Key>, key: Option<Key>) -> Result<(), NoMemory>
    ensures ok { OnOk result (GainsKey keys.old keys.new key) }
    ensures err { OnErr result (keys.new ≡ keys.old) }
{
    if let Some(key) = key {
        keys.insert(key)?;
    }
    Ok(())
}

/// Takes a key out, unless it is one to keep. It takes no memory.
pub(crate) fn take_out(keys: &mut BTreeSet<Key>, key: Option<Key>, kept: Option<Key>)
    ensures { LosesKey keys.old keys.new key kept }
{
    if key == kept {
        return;
    }
    if let Some(key) = key {
        keys.remove(&key);
    }
}

/// Whether a key has this first number.
pub(crate) fn has_first(keys: &BTreeSet<Key>, first: u64) -> bool
    ensures found { result ≡ true → IsFound keys.now first }
    ensures none { result ≡ false → (second id : ℕ) → has keys.now (record { first = first; second = second; id = id }) ≡ false }
{
    let least = Key {
        first,
        second: 0,
        id: 0,
    };
    match keys.range(least..).next() {
        Some(key) => key.first == first,
        None => false,
    }
}
