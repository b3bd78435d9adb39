//! Look-ups: which keys are in the map, and their values; and several values replaced at once.

ghost use Rattle.std.specs.Prelude.{◌≡◌, ◌↔◌, IsTrue, IsOk, IfOk, OnOk, OnErr, IfErr, option_copied, Some, true, map as map_list};
ghost use Rattle.slotmap_core.specs.Words.{sem, option_copied_mut, get, contains_key, bind};
ghost use Rattle.slotmap_core.specs.Several.{CanReplace, AreValuesOf, with_values};
ghost use Rattle.slotmap_sparse.specs.Content.{IsSparseContent, sparse_with_value};
ghost use Rattle.slotmap_sparse.specs.Lends.{lends_get, lends_value};

use crate::SparseSecondaryMap;
use slotmap_core::keys::Key;
use std::hash::BuildHasher;
use std::mem;
use std::ops::{Index, IndexMut};

impl<K: Key, V: Drop, S: BuildHasher + Drop> SparseSecondaryMap<K, V, S> {
    /// Returns whether the key is in the map, in constant time.
    ///
    /// The null key never is, nor is a key at whose index the map holds another version.
    ///
    /// ```
    /// assert!(rt; map.contains_key(a));
    /// assert!(rt; !map.contains_key(b));
    /// ```
    pub fn contains_key(&self, key: K) -> bool
        ensures value { result ≡ contains_key self.now.pairs (K.data_of key) }
        ensures valid { IsSparseContent self.now }
    {
        self.get(key).is_some()
    }

    /// Returns a reference to the value of a key, or `None` if the key isn't in the map.
    ///
    /// Takes constant time.
    ///
    /// ```
    /// assert_eq!(rt; map.get(a).copied(), Some(1));
    /// assert_eq!(rt; map.get(b), None);
    /// ```
    pub fn get(&self, key: K) -> Option<&V>
        ensures value { option_copied result ≡ get self.now.pairs (K.data_of key) }
        ensures valid { IsSparseContent self.now }
    {
        match self.slot(key) {
            Some((version, value)) => {
                if *version == key.data().version() {
                    Some(value)
                } else {
                    None
                }
            }
            None => None,
        }
    }

    /// Returns a reference to the value of a key that is in the map.
    ///
    /// The caller has to prove that the key is in the map. So the call is safe, where Rust's is
    /// `unsafe`. It looks the key up, as Rust's does. Takes constant time.
    ///
    /// ```
    /// map.insert(b, 2)?;
    /// assert_eq!(rt; *map.get_unchecked(b), 2);
    /// ```
    pub fn get_unchecked(&self, key: K) -> &V
        requires { contains_key self.now.pairs (K.data_of key) ≡ true }
        ensures value { get self.now.pairs (K.data_of key) ≡ Some result.now }
        ensures valid { IsSparseContent self.now }
    {
        self.get(key).unwrap()
    }

    /// Returns a mutable reference to the value of a key, or `None` if the key isn't in the map.
    ///
    /// Once the reference ends, the key has the last value written through it, and all else is as
    /// before. Takes constant time.
    ///
    /// ```
    /// if let Some(value) = map.get_mut(a) {
    ///     *value = 8;
    /// }
    /// assert_eq!(rt; map.get(a).copied(), Some(8));
    /// ```
    pub fn get_mut(&mut self, key: K) -> Option<&mut V>
        ensures* writes_back { sem 𝓛 (lends_get K.row V.row S.row S.Hasher.row S.BuildHasher S.Hasher.Hasher self.entry (K.data_of key) result) }
        ensures value { option_copied_mut result ≡ get self.old.pairs (K.data_of key) }
        ensures valid { IsSparseContent self.old }
    {
        let key = key.data();
        let Some(slot) = self.slots.get_mut(&key.idx()) else {
            return None;
        };
        if slot.0 != key.version() {
            return None;
        }
        Some(&mut slot.1)
    }

    /// Returns a mutable reference to the value of a key that is in the map.
    ///
    /// The caller has to prove that the key is in the map. So the call is safe, where Rust's is
    /// `unsafe`. It looks the key up, as Rust's does. Takes constant time.
    ///
    /// ```
    /// *map.get_unchecked_mut(a) = 8;
    /// assert_eq!(rt; map.get(a).copied(), Some(8));
    /// ```
    pub fn get_unchecked_mut(&mut self, key: K) -> &mut V
        requires { contains_key self.old.pairs (K.data_of key) ≡ true }
        ensures* writes_back { sem 𝓛 (lends_value K.row V.row S.row S.Hasher.row S.BuildHasher S.Hasher.Hasher self.entry (K.data_of key) result) }
        ensures value { get self.old.pairs (K.data_of key) ≡ Some result.now }
        ensures valid { IsSparseContent self.old }
    {
        let index = key.data().idx();
        &mut self.slots.get_mut(&index).unwrap().1
    }

    /// Replaces the value of `keys[i]` by `values[i]`, for each i, and returns the old values.
    ///
    /// It fails if and only if one of the keys isn't in the map, or two of them are equal. Then
    /// nothing changes, and the error holds `values`.
    ///
    /// It allocates nothing. It looks up each key, and compares each with each; so its time doesn't
    /// depend on the size of the map. Rust's `get_disjoint_mut` returns mutable references instead.
    ///
    /// ```
    /// map.insert(b, 2)?;
    /// assert_eq!(rt; map.replace_disjoint([a, b], [3, 4])?, [1, 2]);
    /// assert!(rt; map.replace_disjoint([a, a], [5, 6]).is_err());
    /// assert_eq!(rt; (map[a], map[b]), (3, 4));
    /// ```
    pub fn replace_disjoint<const N: usize>(
        &mut self,
        keys: [K; N],
        mut values: [V; N],
    ) -> Result<[V; N], [V; N]>
        ensures which { IsOk result ↔ CanReplace get self.old.pairs (map_list K.data_of keys) }
        ensures value { IfOk result (AreValuesOf get self.old.pairs (map_list K.data_of keys)) }
        ensures ok { OnOk result (self.new ≡ record self.old {
          pairs = with_values bind self.old.pairs (map_list K.data_of keys) values;
        }) }

        ensures err { IfErr result (λ back. back ≡ values) }
        ensures unchanged { OnErr result (self.new ≡ self.old) }

        ensures valid { IsSparseContent self.new }
    {
        if !self.can_replace(&keys) {
            return Err(values);
        }
        for i in 0..N {
            self.swap_value(keys[i], &mut values[i]);
        }
        Ok(values)
    }

    // Whether each key is in the map, and no two are equal.
    fn can_replace(&self, keys: &[K]) -> bool
        ensures which { IsTrue result ↔ CanReplace get self.now.pairs (map_list K.data_of keys.now) }
        ensures valid { IsSparseContent self.now }
    {
        self.note_valid();
        for i in 0..keys.len() {
            let key = keys[i];
            if !self.contains_key(key) || keys[..i].contains(&key) {
                return false;
            }
        }
        true
    }

    // Swaps the value of a key that is in the map with another.
    fn swap_value(&mut self, key: K, value: &mut V)
        requires { contains_key self.old.pairs (K.data_of key) ≡ true }
        ensures put { self.new ≡ sparse_with_value self.old (K.data_of key) value.old }
        ensures taken { get self.old.pairs (K.data_of key) ≡ Some value.new }
        ensures valid { IsSparseContent self.new }
    {
        mem::swap(self.get_unchecked_mut(key), value);
    }
}

impl<K: Key, V: Drop, S: BuildHasher + Drop> Index<K> for SparseSecondaryMap<K, V, S> {
    type Output = V;

    ghost can_index = { λ m key. contains_key m.pairs (K.data_of key) ≡ true };

    ghost index_gives = { λ m key value. get m.pairs (K.data_of key) ≡ Some value };

    /// Returns a reference to the value of a key that is in the map.
    ///
    /// The caller has to prove that the key is in the map; Rust panics if it isn't. Takes constant
    /// time.
    ///
    /// ```
    /// map.insert(b, 2)?;
    /// assert_eq!(rt; (map[a], map[b]), (1, 2));
    /// ```
    fn index(&self, key: K) -> &V {
        self.get_unchecked(key)
    }
}

impl<K: Key, V: Drop, S: BuildHasher + Drop> IndexMut<K> for SparseSecondaryMap<K, V, S> {
    /// Returns a mutable reference to the value of a key that is in the map.
    ///
    /// The caller has to prove that the key is in the map; Rust panics if it isn't. Takes constant
    /// time.
    ///
    /// ```
    /// map[a] = 8;
    /// assert_eq!(rt; map[a], 8);
    /// ```
    fn index_mut(&mut self, key: K) -> &mut V
        requires { contains_key self.old.pairs (K.data_of key) ≡ true }
        ensures* writes_back { sem 𝓛 (lends_value K.row V.row S.row S.Hasher.row S.BuildHasher S.Hasher.Hasher self.entry (K.data_of key) result) }
        ensures value { get self.old.pairs (K.data_of key) ≡ Some result.now }
        ensures valid { IsSparseContent self.old }
    {
        self.get_unchecked_mut(key)
    }
}
