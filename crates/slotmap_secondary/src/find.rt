//! What the map holds at an index, and what a key finds there.

ghost use Rattle.std.specs.FinMap as map;
ghost use Rattle.std.specs.Prelude.{◌≡◌, ◌<◌, None, IfSome, IfNone, true};
ghost use Rattle.slotmap_core.specs.Words.{contains_key, entry};
ghost use Rattle.slotmap_secondary.specs.Content.{IsSideContent};

use crate::SecondaryMap;
use crate::slot::{Found, Slot};
use slotmap_core::keys::{Key, KeyData};
use slotmap_core::limits::NULL_INDEX;

impl<K: Key, V: Drop> SecondaryMap<K, V> {
    ghost use Rattle.slotmap_secondary.specs.Found.{is_found};

    // What the key's entry is.
    pub(crate) fn find(&self, key: K) -> Found
        ensures found { is_found result (entry self.now.pairs (K.data_of key)) }
        ensures valid { IsSideContent self.now }
    {
        let index = key.data().idx() as usize;
        if index < self.place_count() {
            self.find_in(key)
        } else if index == NULL_INDEX {
            Found::NoEntry
        } else {
            Found::Vacant
        }
    }

    // The same for a key whose slot exists.
    pub(crate) fn find_in(&self, key: K) -> Found
        requires { (K.data_of key).index < self.now.places }
        ensures found { is_found result (entry self.now.pairs (K.data_of key)) }
        ensures valid { IsSideContent self.now }
    {
        let key = key.data();
        self.slots[key.idx() as usize].find(key.version())
    }

    // How many slots there are.
    pub(crate) fn place_count(&self) -> usize
        ensures count { result ≡ self.now.places }
        ensures valid { IsSideContent self.now }
    {
        self.slots.len()
    }

    /// Returns the key at an index, or `None` if no key of this index is in the map.
    ///
    /// Constant time; allocates nothing. Rust lacks this call.
    ///
    /// ```
    /// assert_eq!(rt; map.key_at(a.data().idx() as usize), Some(a));
    /// assert_eq!(rt; map.key_at(b.data().idx() as usize), None);
    /// ```
    pub fn key_at(&self, index: usize) -> Option<K>
        ensures there { IfSome result (λ key.
            (contains_key self.now.pairs (K.data_of key) ≡ true) × ((K.data_of key).index ≡ index)) }
        ensures none { IfNone result (map.get self.now.pairs index ≡ None) }
        ensures valid { IsSideContent self.now }
    {
        match self.slots.get(index)? {
            Slot::Vacant(_) => None,
            Slot::Occupied(version, _) => Some(K::from(KeyData::exact(index as u32, *version))),
        }
    }
}
