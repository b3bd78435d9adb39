//! Memory for keys.

ghost use Rattle.std.specs.FinMap as map;
ghost use Rattle.std.specs.Prelude.{◌≡◌, ◌+◌, ◌<◌, ◌≤◌, None, OnOk, IsOk, Err, ◌≢◌, true};
ghost use Rattle.slotmap_core.specs.Words.{Key as KeyOf, get, is_null, CallableOnEach, keyed};
ghost use Rattle.slotmap_sparse.specs.Content.{most_keys, room};

use slotmap_core::errors::{PutError, ReserveError};
use slotmap_core::keys::Key;
use slotmap_core::secondary::OrPut;
use slotmap_sparse::SparseSecondaryMap;

/// Guards of `reserve` and of `try_reserve`.
pub fn reserve<K: Key, V: Drop>(
    store: &mut SparseSecondaryMap<K, V>,
    additional: usize,
    tries: bool,
) -> Result<(), ReserveError>
    // There is memory for so many more keys then.
    // Refuses `reserve_asks_for_half`: `makes_room` of `reserve` and `makes_room` of `try_reserve`.
    ensures reserve_makes_room { OnOk result (map.len store.old.pairs + additional ≤ store.new.capacity) }
    // Where there is memory already, it succeeds and changes nothing.
    // Refuses `reserve_takes_more_where_there_is_room`.
    ensures reserve_with_room_changes_nothing_succeeds { map.len store.old.pairs + additional ≤ store.old.capacity → map.len store.old.pairs + additional ≤ most_keys → IsOk result }
    ensures reserve_with_room_changes_nothing_unchanged { map.len store.old.pairs + additional ≤ store.old.capacity → store.new ≡ store.old }
    // It fails with `TooGreat` exactly above the limit, and asks for no memory then. The pairs
    // stay.
    // Refuses `reserve_takes_memory_and_says_too_great`, `reserve_takes_the_greatest_number`.
    ensures reserve_is_too_great_above_the_limit_alone_above { result ≡ Err ReserveError.TooGreat → most_keys < map.len store.old.pairs + additional }
    ensures reserve_is_too_great_above_the_limit_alone_within { OnOk result (map.len store.old.pairs + additional ≤ most_keys) }
    ensures reserve_is_too_great_above_the_limit_alone_unchanged { result ≡ Err ReserveError.TooGreat → store.new ≡ store.old }
    ensures reserve_is_too_great_above_the_limit_alone_keeps { store.new.pairs ≡ store.old.pairs }
{
    if tries {
        store.try_reserve(additional)
    } else {
        store.reserve(additional)
    }
}

/// Guards of `insert`.
pub fn insert<K: Key, V: Drop>(
    store: &mut SparseSecondaryMap<K, V>,
    key: K,
    value: V,
) -> Result<Option<V>, PutError<V>>
    // Where the index has a pair, it succeeds.
    // Refuses `insert_asks_for_memory_where_a_pair_stands`: `absent` of `insert`.
    ensures insert_over_a_pair_needs_no_memory_succeeds { map.contains_key store.old.pairs (K.data_of key).index ≡ true → IsOk result }
    // For the null key it asks for no memory.
    // Holds by `null` of `insert`.
    ensures insert_of_the_null_key_asks_for_no_memory { is_null (K.data_of key) ≡ true → store.new.capacity ≡ store.old.capacity }
{
    store.insert(key, value)
}

/// Guards of `or_put`.
pub fn or_put<K: Key, V: Drop>(store: &mut SparseSecondaryMap<K, V>, key: K, value: V) -> OrPut<V>
    // Where there is memory for one more key, or a pair at the index, memory can't run out.
    // Refuses `or_put_says_memory_at_an_older_pair_when_full`: `room` and `absent` of `or_put`.
    ensures or_put_with_room_needs_no_memory_room { map.len store.old.pairs < store.old.capacity → result ≢ OrPut.Memory value }
    ensures or_put_with_room_needs_no_memory_stood { map.contains_key store.old.pairs (K.data_of key).index ≡ true → result ≢ OrPut.Memory value }
    // For the null key it asks for no memory.
    // Holds by `null` of `or_put`.
    ensures or_put_of_the_null_key_asks_for_no_memory { is_null (K.data_of key) ≡ true → store.new.capacity ≡ store.old.capacity }
{
    store.or_put(key, value)
}

/// There is room for as many further keys.
/// Holds by `room` of `retain`.
pub fn retain_loses_no_room<K: Key, V: Drop, F: FnMut(K, &mut V) -> bool + Drop>(
    store: &mut SparseSecondaryMap<K, V>,
    f: F,
)
    requires { CallableOnEach F.FnMut K.data_of f (keyed store.old.pairs) }
    ensures { room store.old ≤ room store.new }
{
    store.retain(f);
}

/// So it is with `remove`.
/// Holds by `room` of `remove`.
pub fn remove_loses_no_room<K: Key, V: Drop>(
    store: &mut SparseSecondaryMap<K, V>,
    key: K,
) -> Option<V>
    ensures { room store.old ≤ room store.new }
{
    store.remove(key)
}

/// No key is left.
/// Refuses `clear_keeps_the_keys`: `empty` of `clear`.
pub fn clear_leaves_no_key<K: Key, V: Drop>(store: &mut SparseSecondaryMap<K, V>)
    ensures none { (key : KeyOf) → get store.new.pairs key ≡ None }
{
    store.clear();
}

/// Nor does a `Drain` that is dropped lose capacity.
/// Holds by `capacity` of its drop, and `map` and `same_reference` of `drain`.
pub fn drain_loses_no_capacity<K: Key, V: Drop>(store: &mut SparseSecondaryMap<K, V>)
    ensures { store.old.capacity ≤ store.new.capacity }
{
    store.drain();
}
