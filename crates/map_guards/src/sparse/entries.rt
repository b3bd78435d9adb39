//! Entries of a key.

ghost use Rattle.std.specs.FinMap as map;
ghost use Rattle.std.specs.Prelude.{◌≡◌, ◌<◌, ◌≤◌, Some, None, OnSome, true, false};
ghost use Rattle.slotmap_core.specs.Words.{MutBor, bind, is_null};
ghost use Rattle.slotmap_sparse.specs.Content.{room};

use slotmap_core::keys::Key;
use slotmap_sparse::{Entry, SparseSecondaryMap};

/// It asks for no memory.
/// Refuses `try_entry_asks_for_memory_at_a_pair`: `never_refused` of `entry`.
pub fn entry_never_fails<K: Key, V: Drop>(store: &mut SparseSecondaryMap<K, V>, key: K) -> bool
    ensures { result ≡ true }
{
    store.entry(key).is_ok()
}

/// A key at whose index nothing stands gets the value, where there is room: what is written then is
/// found under it, and nothing else changes.
/// Refuses `vacant_insert_puts_under_another_key`, `or_insert_with_puts_under_another_key`,
/// `or_default_puts_under_the_null_key`: `ok` of `try_entry`, and `writes_back` and `room` of
/// `or_insert`, of `or_insert_with`, of `or_default` and of `insert` of `VacantEntry`.
pub fn vacant_entry_puts_under_its_key<K: Key, V: Default + Drop, F: FnOnce() -> V + Drop>(
    store: &mut SparseSecondaryMap<K, V>,
    key: K,
    value: V,
    f: F,
    last: V,
    way: u8,
)
    requires absent { map.get store.old.pairs (K.data_of key).index ≡ None }
    requires not_null { is_null (K.data_of key) ≡ false }
    requires room { map.len store.old.pairs < store.old.capacity }
    requires callable { F.pre f }
    ensures { store.new.pairs ≡ bind store.old.pairs (K.data_of key) last }
{
    if let Ok(Entry::Vacant(found)) = store.try_entry(key) {
        match way {
            0 => {
                if let Ok(place) = found.insert(value) {
                    *place = last;
                }
            }
            1 => {
                if let Ok(place) = Entry::Vacant(found).or_insert(value) {
                    *place = last;
                }
            }
            2 => {
                if let Ok(place) = Entry::Vacant(found).or_insert_with(f) {
                    *place = last;
                }
            }
            _ => {
                if let Ok(place) = Entry::Vacant(found).or_default() {
                    *place = last;
                }
            }
        }
    }
}

/// The closure of `and_modify` changes the value of the entry's key, and no other.
/// Holds by `ok` of `try_entry`, and `value`, `same_map`, `in_place` and `same_writes` of
/// `and_modify`.
pub fn modified_value_is_that_of_the_key<K: Key, V: Drop, F: FnOnce(&mut V) + Drop>(
    store: &mut SparseSecondaryMap<K, V>,
    key: K,
    f: F,
    value: V,
    last: V,
)
    requires absent { map.get store.old.pairs (K.data_of key).index ≡ None }
    requires not_null { is_null (K.data_of key) ≡ false }
    requires room { map.len store.old.pairs < store.old.capacity }
    requires callable { (shown : MutBor V) → F.pre f shown }
    ensures { store.new.pairs ≡ bind store.old.pairs (K.data_of key) last }
{
    if let Ok(found) = store.try_entry(key) {
        if let Ok(place) = found.and_modify(f).or_insert(value) {
            *place = last;
        }
    }
}

/// No room is lost by an entry that is removed.
/// Holds by `ok` of `try_entry`, `room` of `remove_entry` and `room` of `remove` of `OccupiedEntry`.
pub fn removed_entry_loses_no_room<K: Key, V: Drop>(
    store: &mut SparseSecondaryMap<K, V>,
    key: K,
    whole: bool,
) -> Option<V>
    ensures { OnSome result (room store.old ≤ room store.new) }
{
    match store.try_entry(key) {
        Ok(Entry::Occupied(found)) if whole => Some(found.remove_entry().1),
        Ok(Entry::Occupied(found)) => Some(found.remove()),
        _ => None,
    }
}
