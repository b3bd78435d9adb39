//! The calls that remove one value.

ghost use Rattle.std.specs.Prelude.{◌≡◌, ◌<◌, Some, true};
ghost use Rattle.slotmap_core.specs.Words.{get, contains_key, remove};
ghost use Rattle.slotmap_secondary.specs.Content.{IsSideContent};

use crate::SecondaryMap;
use crate::slot::Slot;
use slotmap_core::keys::{Key, KeyData};
use std::mem;

impl<K: Key, V: Drop> SecondaryMap<K, V> {
    ghost use Rattle.slotmap_secondary.specs.Drain.{TakesAt};

    /// Removes a key and returns its value, or `None` if the key isn't in the map.
    ///
    /// If it isn't, nothing changes. Takes constant time and allocates nothing. It frees nothing.
    ///
    /// ```
    /// assert_eq!(rt; map.remove(a), Some(1));
    /// assert_eq!(rt; map.remove(a), None);
    /// ```
    pub fn remove(&mut self, key: K) -> Option<V>
        ensures value { result ≡ get self.old.pairs (K.data_of key) }
        ensures removes { self.new ≡ record self.old { pairs = remove self.old.pairs (K.data_of key) } }
        ensures valid { IsSideContent self.new }
    {
        // `get` tests what kind of slot it is, and `take_live` then needs no test.
        if self.get(key).is_some() {
            Some(self.take_live(key))
        } else {
            None
        }
    }

    // Removes a key that is in the map, and returns its value; compares no versions.
    pub(crate) fn take_live(&mut self, key: K) -> V
        requires { contains_key self.old.pairs (K.data_of key) ≡ true }
        ensures value { get self.old.pairs (K.data_of key) ≡ Some result }
        ensures removes { self.new ≡ record self.old { pairs = remove self.old.pairs (K.data_of key) } }
        ensures valid { IsSideContent self.new }
    {
        let index = key.data().idx() as usize;
        let value = self.slots[index].take();
        self.len -= 1;
        value
    }

    // Removes the key at an index that has a slot, and returns it with its value.
    pub(crate) fn take_at(&mut self, index: usize) -> Option<(K, V)>
        requires { index < self.old.places }
        ensures takes { TakesAt K.data_of self.old index result self.new }
        ensures valid { IsSideContent self.new }
    {
        match mem::replace(&mut self.slots[index], Slot::Vacant(0)) {
            Slot::Vacant(_) => None,
            Slot::Occupied(version, value) => {
                self.len -= 1;
                Some((K::from(KeyData::exact(index as u32, version)), value))
            }
        }
    }
}
