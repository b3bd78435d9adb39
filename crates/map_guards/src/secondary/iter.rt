//! Iterators over the keys and values, and the iterator by value.

ghost use Rattle.std.specs.FinMap as map;
ghost use Rattle.std.specs.Prelude.{◌≡◌, IfSome, true};
ghost use Rattle.slotmap_core.specs.Words.{IsListing, keyed, contains_key};

use slotmap_core::keys::Key;
use slotmap_secondary::{IntoIter, Iter, Keys, SecondaryMap, Values};

/// Each key is yielded once with its value, by ascending index, and so are the keys and the values
/// alone.
/// Refuses `iter_numbers_from_1`: `in_order` of `iter`, `in_order` of `keys` and `in_order` of
/// `values`.
pub fn iterators_list_each_once<K: Key, V>(
    store: &SecondaryMap<K, V>,
) -> (Iter<'_, K, V>, Keys<'_, K, V>, Values<'_, K, V>)
    ensures pairs { result.0 ≡ map.entries (keyed store.now.pairs) }
    ensures keys { result.1 ≡ map.keys (keyed store.now.pairs) }
    ensures values { result.2 ≡ map.values (keyed store.now.pairs) }
{
    (store.iter(), store.keys(), store.values())
}

/// A map by value yields each key once with its value.
/// Refuses `into_iter_starts_at_its_end`: `into_iter_gives`.
pub fn owned_iterator_lists_each_pair<K: Key, V: Drop>(store: SecondaryMap<K, V>) -> IntoIter<K, V>
    ensures { IsListing (keyed store.pairs) result }
{
    store.into_iter()
}

/// The key is in the map and has the index.
/// Refuses `key_at_reads_another_slot`: `there` of `key_at`.
pub fn key_at_returns_the_key_of_the_index<K: Key, V: Drop>(
    store: &SecondaryMap<K, V>,
    index: usize,
) -> Option<K>
    ensures there { IfSome result (λ key. contains_key store.now.pairs (K.data_of key) ≡ true) }
    ensures index { IfSome result (λ key. (K.data_of key).index ≡ index) }
{
    store.key_at(index)
}
