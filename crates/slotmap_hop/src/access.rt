//! Look-ups: which keys are live, and their values, of one key and of several at once.

ghost use Rattle.std.specs.FinMap as map;
ghost use Rattle.std.specs.Prelude.{◌≡◌, ◌↔◌, IsTrue, IsOk, IfOk, OnOk, OnErr, IfErr, IfNone, IfSome, option_copied, Some, false, map as map_list};
ghost use Rattle.slotmap_core.specs.Words.{sem, option_copied_mut, IsLive, CanReplace, AreValuesOf};
ghost use Rattle.slotmap_hop.specs.HopContent.{IsHopContent, StaysHop, hop_with_value, hop_with_values};

use crate::HopSlotMap;
use crate::links::Slot;
use slotmap_core::keys::Key;
use slotmap_core::sure::rule_out;
use std::mem;
use std::ops::{Index, IndexMut};

impl<K: Key, V: Drop> HopSlotMap<K, V> {
    ghost use Rattle.slotmap_hop.specs.Lends.{lends_get, lends_value};

    // The index of a live key's slot.
    pub(crate) fn live_index(&self, key: K) -> Option<usize>
        ensures live { IfSome result (λ index.
            IsLive self.now.content (K.data_of key) × (index ≡ (K.data_of key).index)) }
        ensures absent { IfNone result (map.contains_key self.now.content.live (K.data_of key) ≡ false) }
        ensures valid { IsHopContent self.now }
    {
        self.note_valid();
        let key = key.data();
        let index = key.idx() as usize;
        if self.slots.get(index)?.version() == key.version() {
            Some(index)
        } else {
            None
        }
    }

    /// Returns whether this key is live.
    ///
    /// A removed key isn't live, nor is the null key. A key of another map is live here only if
    /// this map has a live key of the same index and version. Constant time.
    ///
    /// ```
    /// assert!(rt; map.contains_key(a));
    /// map.remove(a);
    /// assert!(rt; !map.contains_key(a));
    /// assert!(rt; !map.contains_key(DefaultKey::null()));
    /// ```
    pub fn contains_key(&self, key: K) -> bool
        ensures value { result ≡ map.contains_key self.now.content.live (K.data_of key) }
        ensures valid { IsHopContent self.now }
    {
        self.live_index(key).is_some()
    }

    /// Returns the value of a live key, or `None` if the key isn't live.
    ///
    /// Constant time.
    ///
    /// ```
    /// assert_eq!(rt; map.get(b), Some(&2));
    /// map.remove(b);
    /// assert_eq!(rt; map.get(b), None);
    /// ```
    pub fn get(&self, key: K) -> Option<&V>
        ensures value { option_copied result ≡ map.get self.now.content.live (K.data_of key) }
        ensures valid { IsHopContent self.now }
    {
        let index = self.live_index(key)?;
        match &self.slots[index] {
            Slot::Occupied(_, _, value) => Some(value),
            _ => {
                rule_out(true);
                unreachable!()
            }
        }
    }

    /// Returns the value of a live key, without checking its version.
    ///
    /// The contract requires that the key is live. So this call is safe; Rust's is `unsafe`.
    /// Constant time.
    ///
    /// ```
    /// assert_eq!(rt; *map.get_unchecked(a), 1);
    /// ```
    pub fn get_unchecked(&self, key: K) -> &V
        requires { IsLive self.now.content (K.data_of key) }
        ensures value { map.get self.now.content.live (K.data_of key) ≡ Some result.now }
        ensures valid { IsHopContent self.now }
    {
        self.note_valid();
        let index = key.data().idx() as usize;
        match &self.slots[index] {
            Slot::Occupied(_, _, value) => value,
            _ => {
                rule_out(true);
                unreachable!()
            }
        }
    }

    /// Returns a mutable reference to the value of a live key, or `None` if the key isn't live.
    ///
    /// Once the reference ends, the key has the last value written through it. All else is as
    /// before. Constant time.
    ///
    /// ```
    /// if let Some(value) = map.get_mut(a) {
    ///     *value = 5;
    /// }
    /// assert_eq!(rt; map.get(a), Some(&5));
    /// ```
    pub fn get_mut(&mut self, key: K) -> Option<&mut V>
        ensures* writes_back { sem 𝓛 (lends_get K.row V.row self.entry (K.data_of key) result) }
        ensures value { option_copied_mut result ≡ map.get self.old.content.live (K.data_of key) }
        ensures valid { IsHopContent self.old }
    {
        if self.contains_key(key) {
            Some(self.get_unchecked_mut(key))
        } else {
            None
        }
    }

    /// Returns a mutable reference to the value of a live key, without checking its version.
    ///
    /// The contract requires that the key is live. So this call is safe; Rust's is `unsafe`.
    /// Constant time.
    ///
    /// ```
    /// *map.get_unchecked_mut(a) = 5;
    /// assert_eq!(rt; map.get(a), Some(&5));
    /// ```
    pub fn get_unchecked_mut(&mut self, key: K) -> &mut V
        requires { IsLive self.old.content (K.data_of key) }
        ensures* writes_back { sem 𝓛 (lends_value K.row V.row self.entry (K.data_of key) result) }
        ensures value { map.get self.old.content.live (K.data_of key) ≡ Some result.now }
        ensures valid { IsHopContent self.old }
    {
        let index = key.data().idx() as usize;
        match &mut self.slots[index] {
            Slot::Occupied(_, _, value) => value,
            _ => {
                rule_out(true);
                unreachable!()
            }
        }
    }

    /// Sets the value of a live key and returns the old value.
    ///
    /// If the key isn't live, nothing changes, and the new value is returned as the error. Constant
    /// time. Rust lacks this call.
    ///
    /// ```
    /// assert_eq!(rt; map.replace(a, 5), Ok(1));
    /// map.remove(a);
    /// assert_eq!(rt; map.replace(a, 6), Err(6));
    /// ```
    pub fn replace(&mut self, key: K, value: V) -> Result<V, V>
        ensures ok { IfOk result (λ before. map.get self.old.content.live (K.data_of key) ≡ Some before) }
        ensures replaces { OnOk result (self.new ≡ hop_with_value self.old (K.data_of key) value) }
        ensures err { IfErr result (λ back. (map.contains_key self.old.content.live (K.data_of key) ≡ false) × (back ≡ value)) }
        ensures unchanged { OnErr result (self.new ≡ self.old) }
        ensures valid { StaysHop self.old self.new }
    {
        match self.get_mut(key) {
            Some(stored) => Ok(mem::replace(stored, value)),
            None => Err(value),
        }
    }

    /// Replaces the value of `keys[i]` by `values[i]`, for each i, and returns the old values.
    ///
    /// If one of the keys isn't live, or two are equal, nothing changes, and the new values are
    /// returned as the error. It looks up each key and compares each two, and allocates nothing.
    /// Its time doesn't depend on the size of the map. In Rust `get_disjoint_mut` returns
    /// references instead.
    ///
    /// ```
    /// assert_eq!(rt; map.replace_disjoint([a, b], [5, 6]), Ok([1, 2]));
    /// assert_eq!(rt; map.get(b), Some(&6));
    /// assert_eq!(rt; map.replace_disjoint([a, a], [7, 8]), Err([7, 8]));
    /// ```
    pub fn replace_disjoint<const N: usize>(
        &mut self,
        keys: [K; N],
        mut values: [V; N],
    ) -> Result<[V; N], [V; N]>
        ensures which { IsOk result ↔ CanReplace self.old.content (map_list K.data_of keys) }
        ensures value { IfOk result (AreValuesOf self.old.content (map_list K.data_of keys)) }
        ensures ok { OnOk result (self.new ≡ hop_with_values self.old (map_list K.data_of keys) values) }

        ensures err { IfErr result (λ given. given ≡ values) }
        ensures unchanged { OnErr result (self.new ≡ self.old) }

        ensures valid { StaysHop self.old self.new }
    {
        if !self.can_replace(&keys) {
            return Err(values);
        }
        for i in 0..N {
            self.swap_value(keys[i], &mut values[i]);
        }
        Ok(values)
    }

    // Returns whether each key is live, and no two are equal.
    fn can_replace(&self, keys: &[K]) -> bool
        ensures which { IsTrue result ↔ CanReplace self.now.content (map_list K.data_of keys.now) }
        ensures valid { IsHopContent self.now }
    {
        self.note_valid();
        for i in 0..keys.len() {
            let key = keys[i];
            if !self.contains_key(key) || keys[..i].contains(&key) {
                return false;
            }
        }
        true
    }

    // Exchanges the value of a live key for another.
    fn swap_value(&mut self, key: K, value: &mut V)
        requires { IsLive self.old.content (K.data_of key) }
        ensures replaces { self.new ≡ hop_with_value self.old (K.data_of key) value.old }
        ensures value { map.get self.old.content.live (K.data_of key) ≡ Some value.new }
    {
        mem::swap(self.get_unchecked_mut(key), value);
    }
}

impl<K: Key, V: Drop> Index<K> for HopSlotMap<K, V> {
    type Output = V;

    ghost can_index = { λ m key. IsLive m.content (K.data_of key) };

    ghost index_gives = { λ m key value. map.get m.content.live (K.data_of key) ≡ Some value };

    /// Returns the value of a live key, without checking its version.
    ///
    /// The contract requires that the key is live; in Rust any other key panics. Constant time.
    ///
    /// ```
    /// assert_eq!(rt; map[a] + map[b], 3);
    /// ```
    fn index(&self, key: K) -> &V {
        self.get_unchecked(key)
    }
}

impl<K: Key, V: Drop> IndexMut<K> for HopSlotMap<K, V> {
    ghost use Rattle.slotmap_hop.specs.Lends.{lends_value};

    /// Returns a mutable reference to the value of a live key, without checking its version.
    ///
    /// The contract requires that the key is live; in Rust any other key panics. Constant time.
    ///
    /// ```
    /// map[a] = 5;
    /// assert_eq!(rt; map.get(a), Some(&5));
    /// ```
    fn index_mut(&mut self, key: K) -> &mut V
        requires { IsLive self.old.content (K.data_of key) }
        ensures* writes_back { sem 𝓛 (lends_value K.row V.row self.entry (K.data_of key) result) }
        ensures value { map.get self.old.content.live (K.data_of key) ≡ Some result.now }
        ensures valid { IsHopContent self.old }
    {
        self.get_unchecked_mut(key)
    }
}
