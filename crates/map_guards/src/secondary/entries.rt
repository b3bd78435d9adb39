//! Entries of a key.

ghost use Rattle.std.specs.Prelude.{◌≡◌, ◌≢◌, ◌≤◌};
ghost use Rattle.slotmap_core.specs.Words.{MutBor, entry, bind, vacant, no_entry};

use slotmap_core::keys::Key;
use slotmap_secondary::{Entry, SecondaryMap};

/// A vacant entry gets the new value, however it is made: what is written then is found under the
/// key, and nothing else changes.
/// Refuses `vacant_insert_puts_under_another_key`: `ok` of `try_entry`, `writes_back` of
/// `or_insert`, `writes_back` of `or_insert_with`, `writes_back` of `or_default`, and `writes_back`
/// and `value` of `insert` of `VacantEntry`.
pub fn vacant_entry_puts_under_its_key<K: Key, V: Default + Drop, F: FnOnce() -> V + Drop>(
    store: &mut SecondaryMap<K, V>,
    key: K,
    value: V,
    f: F,
    last: V,
    way: u8,
)
    requires { F.pre f }
    ensures { entry store.old.pairs (K.data_of key) ≡ vacant → (K.data_of key).index ≤ store.old.capacity → store.new.pairs ≡ bind store.old.pairs (K.data_of key) last }
{
    if let Ok(Entry::Vacant(found)) = store.try_entry(key) {
        match way {
            0 => *found.insert(value) = last,
            1 => *Entry::Vacant(found).or_insert(value) = last,
            2 => *Entry::Vacant(found).or_insert_with(f) = last,
            _ => *Entry::Vacant(found).or_default() = last,
        }
    }
}

/// The closure of `and_modify` changes the value of the entry's key, and no other.
/// Refuses `and_modify_changes_another_key`: `ok` of `try_entry`, and `value`, `same_map`,
/// `in_place` and `same_writes` of `and_modify`.
pub fn modified_value_is_that_of_the_key<K: Key, V: Drop, F: FnOnce(&mut V) + Drop>(
    store: &mut SecondaryMap<K, V>,
    key: K,
    f: F,
    value: V,
    last: V,
)
    requires { (shown : MutBor V) → F.pre f shown }
    ensures written { entry store.old.pairs (K.data_of key) ≢ no_entry → (K.data_of key).index ≤ store.old.capacity → store.new.pairs ≡ bind store.old.pairs (K.data_of key) last }
{
    if let Ok(found) = store.try_entry(key) {
        *found.and_modify(f).or_insert(value) = last;
    }
}
