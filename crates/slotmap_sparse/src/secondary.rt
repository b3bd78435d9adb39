//! The trait `Secondary` for this map.

use crate::SparseSecondaryMap;
use slotmap_core::errors::PutError;
use slotmap_core::keys::Key;
use slotmap_core::secondary::{OrPut, Secondary};
use std::hash::BuildHasher;

impl<K: Key, V: Drop, S: BuildHasher + Drop> Secondary<K, V> for SparseSecondaryMap<K, V, S> {
    ghost pairs = { λ m. m.pairs };

    fn len(&self) -> usize {
        SparseSecondaryMap::len(self)
    }

    fn contains_key(&self, key: K) -> bool {
        SparseSecondaryMap::contains_key(self, key)
    }

    fn get(&self, key: K) -> Option<&V> {
        SparseSecondaryMap::get(self, key)
    }

    fn insert(&mut self, key: K, value: V) -> Result<Option<V>, PutError<V>> {
        SparseSecondaryMap::insert(self, key, value)
    }

    fn remove(&mut self, key: K) -> Option<V> {
        SparseSecondaryMap::remove(self, key)
    }

    fn or_put(&mut self, key: K, value: V) -> OrPut<V> {
        SparseSecondaryMap::or_put(self, key, value)
    }
}
