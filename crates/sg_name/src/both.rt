// The two maps of names, each by itself.
ghost use Rattle.std.specs.Prelude.{◌≡◌, ◌≤◌, ◌+◌, None, Some, IsSome, IfNone, nat_eq};
ghost use Rattle.indexmap.specs.IndexMap.{IsUnchanged, Updates, get, index_map_len, spare};
ghost use Rattle.sg_name.specs.Names.{IsOneToOne, real_at};
ghost use Rattle.sg_name.specs.Inside.Both.{GoesBack};

use crate::named::Standing;
use indexmap::IndexMap;

/// Adds a value under a key that is new. It takes no memory.
pub(crate) fn add<V: Drop>(map: &mut IndexMap<u64, V>, key: u64, value: V)
    requires room { 1 ≤ spare map.old }
    requires unknown { get nat_eq map.old key ≡ None }
    ensures updates { Updates nat_eq map.old map.new key (Some value) }
    ensures len { index_map_len map.new ≡ index_map_len map.old + 1 }
    ensures spare { spare map.old ≤ spare map.new + 1 }
{
    match map.insert(key, value) {
        Ok(_) => {}
        Err(_) => unreachable!(),
    }
}

/// Sets what stands for an id, and returns the service id that stood for it; None, and nothing is set, where none did.
pub(crate) fn exchange(
    standings: &mut IndexMap<u64, Standing>,
    id: u64,
    standing: Standing,
) -> Option<u64>
    ensures old { result ≡ real_at standings.old.entries id }
    ensures updates { IsSome result → Updates nat_eq standings.old standings.new id (Some standing) }
    ensures unknown { IfNone result (IsUnchanged standings.old standings.new) }
    ensures len { index_map_len standings.new ≡ index_map_len standings.old }
    ensures spare { spare standings.new ≡ spare standings.old }
{
    match standings.get_mut(&id) {
        Some(one) => {
            let old = one.real;
            *one = standing;
            Some(old)
        }
        None => None,
    }
}

/// Makes the map of service ids anew: each goes back to the id that it stands for. It takes no memory.
pub(crate) fn refill(ids: &mut IndexMap<u64, u64>, standings: &IndexMap<u64, Standing>)
    requires room { index_map_len standings.now ≤ index_map_len ids.old + spare ids.old }
    requires apart { IsOneToOne standings.now.entries }
    ensures back { GoesBack standings.now.entries ids.new.entries }
    ensures len { index_map_len ids.new ≡ index_map_len standings.now }
    ensures spare { index_map_len ids.old + spare ids.old ≤ index_map_len standings.now + spare ids.new }
{
    ids.clear();
    'all: for (id, standing) in standings {
        add(ids, standing.real, *id);
    }
}
