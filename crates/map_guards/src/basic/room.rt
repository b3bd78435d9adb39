//! An empty map, its capacity, several values replaced at once, and a reattach that needs no room.

ghost use Rattle.std.specs.FinMap as map;
ghost use Rattle.std.specs.Prelude.{◌≡◌, ◌≤◌, Some, IfOk, OnOk, IsOk, ◌↔◌, map as list_map};
ghost use Rattle.slotmap_core.specs.Words.{places, IsDetached, CanReplace, with_values};

use slotmap_basic::SlotMap;
use slotmap_core::errors::ReattachError;
use slotmap_core::keys::Key;
use slotmap_core::primary::Detaching;

/// All slots count, vacant ones too.
/// Refuses `capacity_counts_live_keys`: `value` and `places` of `capacity`.
pub fn capacity_counts_all_slots<K: Key, V: Drop>(store: &SlotMap<K, V>) -> usize
    ensures { places store.now ≤ result }
{
    store.capacity()
}

/// Guards of `replace_disjoint`.
pub fn replace_disjoint<K: Key, V: Drop, const N: usize>(
    store: &mut SlotMap<K, V>,
    keys: [K; N],
    values: [V; N],
) -> Result<[V; N], [V; N]>
    // It succeeds exactly where each key is live and no two are equal.
    // Refuses `replace_disjoint_takes_equal_keys`: `which` of `replace_disjoint`.
    ensures replace_disjoint_takes_live_keys_that_differ { IsOk result ↔ CanReplace store.old (list_map K.data_of keys) }
    // The values that the keys had are returned, in their order. Each key has the value at its
    // position, and nothing else changes.
    // Holds by `value` and `ok` of `replace_disjoint`.
    ensures replace_disjoint_exchanges_each_value_old { IfOk result (λ before. list_map (map.get store.old.live) (list_map K.data_of keys) ≡ list_map Some before) }
    ensures replace_disjoint_exchanges_each_value_new { OnOk result (store.new ≡ with_values store.old (list_map K.data_of keys) values) }
{
    store.replace_disjoint(keys, values)
}

/// As a primary map it never fails with `Memory`.
/// Refuses `reattach_reserves_first`: `err` of `reattach` of `Detaching`.
pub fn reattach_by_the_trait_needs_no_memory<K: Key, V: Drop>(
    store: &mut SlotMap<K, V>,
    key: K,
    value: V,
) -> Result<(), ReattachError<V>>
    ensures { IsDetached store.old (K.data_of key) → IsOk result }
{
    Detaching::reattach(store, key, value)
}
