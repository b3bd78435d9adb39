//! Slots and capacity.

ghost use Rattle.std.specs.Prelude.{◌≡◌, ◌+◌, ◌<◌, ◌≤◌, None, OnOk, OnErr, IsOk, Err, max, true};
ghost use Rattle.slotmap_core.specs.Words.{Key as KeyOf, most, get, entry, has_entry, CallableOnEach, keyed};

use slotmap_core::errors::{PutError, ReserveError};
use slotmap_core::keys::Key;
use slotmap_core::secondary::OrPut;
use slotmap_secondary::SecondaryMap;
use std::alloc::Global;

/// It fails with `TooGreat` exactly above the limit.
/// Refuses `with_capacity_beyond_the_limit`: `err` and `fits` of `with_capacity`.
pub fn with_capacity_is_too_great_above_the_limit_alone<K: Key, V: Drop>(
    alloc: Global,
    capacity: usize,
) -> Result<SecondaryMap<K, V>, ReserveError>
    ensures above { result ≡ Err ReserveError.TooGreat → most < capacity }
    ensures within { OnOk result (capacity ≤ most) }
    ensures memory { result ≡ Err ReserveError.Memory → capacity ≤ most }
{
    SecondaryMap::with_capacity(alloc, capacity)
}

/// Index 0 doesn't count.
/// Refuses `capacity_counts_index_0_too`: `value` and `valid` of `capacity`.
pub fn capacity_is_the_largest_index<K: Key, V: Drop>(store: &SecondaryMap<K, V>) -> usize
    ensures fits { store.now.places ≤ result + 1 }
{
    store.capacity()
}

/// Guards of `set_capacity` and of `try_set_capacity`.
pub fn set_capacity<K: Key, V: Drop>(
    store: &mut SecondaryMap<K, V>,
    capacity: usize,
    tries: bool,
) -> Result<(), ReserveError>
    // There is memory for the index then.
    // Refuses `set_capacity_keeps_the_number_alone`, `try_set_capacity_asks_for_half`: `sets` of
    // `set_capacity` and `sets` of `try_set_capacity`.
    ensures set_capacity_makes_room { OnOk result (capacity ≤ store.new.capacity) }
    // Where there is memory already, it succeeds and changes nothing.
    // Refuses `set_capacity_asks_where_there_is_memory`,
    // `set_capacity_takes_memory_though_there_is_some`.
    ensures set_capacity_with_room_changes_nothing_succeeds { capacity ≤ store.old.capacity → capacity ≤ most → IsOk result }
    ensures set_capacity_with_room_changes_nothing_unchanged { capacity ≤ store.old.capacity → store.new ≡ store.old }
    // Where it fails, nothing changes; it is `TooGreat` exactly above the limit. The pairs stay.
    // Refuses `set_capacity_takes_memory_and_says_too_great`.
    ensures failed_set_capacity_changes_nothing_unchanged { OnErr result (store.new ≡ store.old) }
    ensures failed_set_capacity_changes_nothing_above { result ≡ Err ReserveError.TooGreat → most < capacity }
    ensures failed_set_capacity_changes_nothing_within { result ≡ Err ReserveError.Memory → capacity ≤ most }
    ensures set_capacity_keeps_the_pairs { store.new.pairs ≡ store.old.pairs }
{
    if tries {
        store.try_set_capacity(capacity)
    } else {
        store.set_capacity(capacity)
    }
}

/// Where there is memory for the index, the capacity stays. There are slots up to the index, and no
/// more.
/// Refuses `insert_takes_memory_though_there_is_some`: `room` and `places` of `insert`.
pub fn insert_makes_slots_up_to_the_index<K: Key, V: Drop>(
    store: &mut SecondaryMap<K, V>,
    key: K,
    value: V,
) -> Result<Option<V>, PutError<V>>
    ensures capacity { (K.data_of key).index ≤ store.old.capacity → store.new.capacity ≡ store.old.capacity }
    ensures places { has_entry (entry store.old.pairs (K.data_of key)) ≡ true → OnOk result (store.new.places ≡ max store.old.places ((K.data_of key).index + 1)) }
{
    store.insert(key, value)
}

/// Slots are made up to the index of a key that is placed, with the capacity that there was, if it is
/// enough. Else the map is as it was.
/// Refuses `or_put_makes_a_slot_too_many`, `or_put_makes_slots_where_it_keeps`,
/// `or_put_takes_memory_though_there_is_some`: `places` of `or_put`.
pub fn or_put_makes_the_slots_of_a_placed_key_alone<K: Key, V: Drop>(
    store: &mut SecondaryMap<K, V>,
    key: K,
    value: V,
) -> OrPut<V>
    ensures placed { result ≡ OrPut.Placed → store.new.places ≡ max store.old.places ((K.data_of key).index + 1) }
    ensures capacity { (K.data_of key).index ≤ store.old.capacity → store.new.capacity ≡ store.old.capacity }
    ensures kept { result ≡ OrPut.Kept value → store.new ≡ store.old }
{
    store.or_put(key, value)
}

/// The slots and the capacity stay.
/// Holds by `removes` of `remove`.
pub fn remove_keeps_slots_and_capacity<K: Key, V: Drop>(
    store: &mut SecondaryMap<K, V>,
    key: K,
) -> Option<V>
    ensures { (store.new.places ≡ store.old.places) × (store.new.capacity ≡ store.old.capacity) }
{
    store.remove(key)
}

/// The slots and the capacity stay.
/// Holds by `keeps` of `retain`.
pub fn retain_keeps_slots_and_capacity<K: Key, V: Drop, F: FnMut(K, &mut V) -> bool + Drop>(
    store: &mut SecondaryMap<K, V>,
    f: F,
)
    requires { CallableOnEach F.FnMut K.data_of f (keyed store.old.pairs) }
    ensures { (store.new.places ≡ store.old.places) × (store.new.capacity ≡ store.old.capacity) }
{
    store.retain(f);
}

/// No key is left, and the slots and the capacity stay.
/// Refuses `clear_starts_at_place_1`: `empty` of `clear`.
pub fn clear_leaves_nothing_but_memory<K: Key, V: Drop>(store: &mut SecondaryMap<K, V>)
    ensures none { (key : KeyOf) → get store.new.pairs key ≡ None }
    ensures rest { (store.new.places ≡ store.old.places) × (store.new.capacity ≡ store.old.capacity) }
{
    store.clear();
}
