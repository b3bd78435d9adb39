//! The calls that remove one value.

ghost use Rattle.std.specs.FinMap as map;
ghost use Rattle.std.specs.Prelude.{◌≡◌, ◌≤◌, Some, IfNone, true};
ghost use Rattle.slotmap_core.specs.Words.{get, contains_key, remove};
ghost use Rattle.slotmap_sparse.specs.Content.{IsSparseContent, room};
ghost use Rattle.slotmap_sparse.specs.Drain.{TakesPair};

use crate::SparseSecondaryMap;
use slotmap_core::keys::Key;
use std::hash::BuildHasher;

impl<K: Key, V: Drop, S: BuildHasher + Drop> SparseSecondaryMap<K, V, S> {
    /// Removes a key and returns its value, or `None` if the key isn't in the map.
    ///
    /// If it isn't, nothing changes. Takes constant time and allocates nothing. The map then has
    /// memory for at least as many more keys as before.
    ///
    /// ```
    /// assert_eq!(rt; map.remove(a), Some(1));
    /// assert_eq!(rt; map.remove(a), None);
    /// ```
    #[inline(always)]
    pub fn remove(&mut self, key: K) -> Option<V>
        ensures value { result ≡ get self.old.pairs (K.data_of key) }
        ensures removes { self.new.pairs ≡ remove self.old.pairs (K.data_of key) }
        ensures unchanged { IfNone result (self.new ≡ self.old) }
        ensures room { room self.old ≤ room self.new }
        ensures valid { IsSparseContent self.new }
    {
        if self.contains_key(key) {
            Some(self.take_live(key))
        } else {
            None
        }
    }

    // Removes a key that is in the map, and returns its value.
    #[inline(always)]
    pub(crate) fn take_live(&mut self, key: K) -> V
        requires { contains_key self.old.pairs (K.data_of key) ≡ true }
        ensures value { get self.old.pairs (K.data_of key) ≡ Some result }
        ensures removes { self.new.pairs ≡ remove self.old.pairs (K.data_of key) }
        ensures room { room self.old ≤ room self.new }
        ensures valid { IsSparseContent self.new }
    {
        let (_, value) = self.take_slot(key).unwrap();
        value
    }

    // Removes what is at the index of a key, whatever its version.
    #[inline(always)]
    pub(crate) fn take_slot(&mut self, key: K) -> Option<(u32, V)>
        ensures value { result ≡ map.get self.old.pairs (K.data_of key).index }
        ensures removes { self.new.pairs ≡ map.remove self.old.pairs (K.data_of key).index }
        ensures room { room self.old ≤ room self.new }
        ensures valid { IsSparseContent self.new }
    {
        self.slots.remove(&key.data().idx())
    }

    // Removes the first key of the hash map, and returns it with its value.
    #[inline(always)]
    pub(crate) fn take_first(&mut self) -> Option<(K, V)>
        ensures takes { TakesPair K.data_of self.old result self.new }
        ensures room { room self.old ≤ room self.new }
        ensures valid { IsSparseContent self.new }
    {
        let Some(key) = self.keys().next() else {
            return None;
        };
        Some((key, self.take_live(key)))
    }
}
