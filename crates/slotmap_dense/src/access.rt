//! Look-ups: which keys are live, and their values.

ghost use Rattle.std.specs.FinMap as map;
ghost use Rattle.std.specs.Prelude.{◌≡◌, ◌≢◌, ◌<◌, ◌↔◌, ◌∷◌, length, slice_get, IsTrue, IsOk, IfOk, OnOk, OnErr, IfErr, IsSome, IfSome, option_copied, Some};
ghost use Rattle.slotmap_core.specs.Words.{[], map as map_list, sem, option_copied_mut, IsLive};
ghost use Rattle.slotmap_core.specs.Several.{CanReplace, AreValuesOf, with_values};
ghost use Rattle.slotmap_dense.specs.Dense.{IsDense, value_of, with_value_of};
ghost use Rattle.slotmap_dense.specs.Lends.{lends_two, lends_get, lends_value};
ghost use Rattle.slotmap_dense.specs.Call.{StaysDense};

use crate::DenseSlotMap;
use slotmap_core::keys::Key;
use std::mem;
use std::ops::{Index, IndexMut};

// Returns mutable references to two elements of a slice.
fn two_of<V>(values: &mut [V], first: usize, second: usize) -> (&mut V, &mut V)
    requires apart { first ≢ second }
    requires first { first < length values.old }
    requires second { second < length values.old }
    ensures* writes_back { sem 𝓛 (lends_two V.row values.entry first second result) }
    ensures first { slice_get values.old first ≡ Some result.0.now }
    ensures second { slice_get values.old second ≡ Some result.1.now }
{
    if first < second {
        let (front, back) = values.split_at_mut(second);
        (&mut front[first], &mut back[0])
    } else {
        let (front, back) = values.split_at_mut(first);
        (&mut back[0], &mut front[second])
    }
}

impl<K: Key, V: Drop> DenseSlotMap<K, V> {
    /// Returns whether this key is live.
    ///
    /// A removed or detached key isn't live, nor is the null key. A key of another map is live here
    /// only if this map has a live key of the same index and version. Constant time.
    ///
    /// ```
    /// assert!(rt; map.contains_key(a));
    /// map.remove(a);
    /// assert!(rt; !map.contains_key(a));
    /// assert!(rt; !map.contains_key(DefaultKey::null()));
    /// ```
    pub fn contains_key(&self, key: K) -> bool
        ensures value { result ≡ map.contains_key self.now.content.live (K.data_of key) }
        ensures valid { IsDense self.now }
    {
        self.slots.contains_key(key.data())
    }

    /// Returns the value of a live key, or `None` if the key isn't live.
    ///
    /// Constant time.
    ///
    /// ```
    /// assert_eq!(rt; map.get(b), Some(&2));
    /// map.remove(b);
    /// assert_eq!(rt; map.get(b), None);
    /// ```
    pub fn get(&self, key: K) -> Option<&V>
        ensures value { option_copied result ≡ map.get self.now.content.live (K.data_of key) }
        ensures valid { IsDense self.now }
    {
        let position = *self.slots.get(key.data())?;
        Some(&self.values[position as usize])
    }

    /// Returns the value of a live key, without checking its version.
    ///
    /// The contract requires that the key is live. So this call is safe; Rust's is `unsafe`.
    /// Constant time.
    ///
    /// ```
    /// assert_eq!(rt; *map.get_unchecked(a), 1);
    /// ```
    pub fn get_unchecked(&self, key: K) -> &V
        requires { IsLive self.now.content (K.data_of key) }
        ensures value { map.get self.now.content.live (K.data_of key) ≡ Some result.now }
        ensures valid { IsDense self.now }
    {
        let position = *self.slots.get_unchecked(key.data());
        &self.values[position as usize]
    }

    /// Returns a mutable reference to the value of a live key, or `None` if the key isn't live.
    ///
    /// Once the reference ends, the key has the last value written through it. All else is as
    /// before. Constant time.
    ///
    /// ```
    /// if let Some(value) = map.get_mut(a) {
    ///     *value = 5;
    /// }
    /// assert_eq!(rt; map.get(a), Some(&5));
    /// ```
    pub fn get_mut(&mut self, key: K) -> Option<&mut V>
        ensures* writes_back { sem 𝓛 (lends_get K.row V.row K.Key self.entry (K.data_of key) result) }
        ensures value { option_copied_mut result ≡ map.get self.old.content.live (K.data_of key) }
        ensures valid { IsDense self.old }
    {
        if self.contains_key(key) {
            Some(self.get_unchecked_mut(key))
        } else {
            None
        }
    }

    /// Returns a mutable reference to the value of a live key, without checking its version.
    ///
    /// The contract requires that the key is live. So this call is safe; Rust's is `unsafe`.
    /// Constant time.
    ///
    /// ```
    /// *map.get_unchecked_mut(a) = 5;
    /// assert_eq!(rt; map.get(a), Some(&5));
    /// ```
    pub fn get_unchecked_mut(&mut self, key: K) -> &mut V
        requires { IsLive self.old.content (K.data_of key) }
        ensures* writes_back { sem 𝓛 (lends_value K.row V.row K.Key self.entry (K.data_of key) result) }
        ensures value { map.get self.old.content.live (K.data_of key) ≡ Some result.now }
        ensures valid { IsDense self.old }
    {
        let position = *self.slots.get_unchecked(key.data()) as usize;
        &mut self.values[position]
    }

    /// Sets the value of a live key and returns the old value.
    ///
    /// If the key isn't live, nothing changes, and the new value is returned as the error. Constant
    /// time. Rust lacks this call.
    ///
    /// ```
    /// assert_eq!(rt; map.replace(a, 5), Ok(1));
    /// map.remove(a);
    /// assert_eq!(rt; map.replace(a, 6), Err(6));
    /// ```
    pub fn replace(&mut self, key: K, value: V) -> Result<V, V>
        ensures ok { IfOk result (λ before. map.get self.old.content.live (K.data_of key) ≡ Some before) }
        ensures replaces { OnOk result (self.new ≡ with_value_of self.old (K.data_of key) value) }
        ensures err { IfErr result (λ back. ¬ (IsLive self.old.content (K.data_of key)) × (back ≡ value)) }
        ensures unchanged { OnErr result (self.new ≡ self.old) }
        ensures valid { StaysDense self.old self.new }
    {
        match self.get_mut(key) {
            Some(place) => Ok(mem::replace(place, value)),
            None => Err(value),
        }
    }

    /// Replaces the value of `keys[i]` by `values[i]`, for each i, and returns the old values.
    ///
    /// If one of the keys isn't live, or two are equal, nothing changes, and the new values are
    /// returned as the error. It looks up each key and compares each two, and allocates nothing.
    /// Its time doesn't depend on the size of the map. Rust lacks this call.
    ///
    /// ```
    /// assert_eq!(rt; map.replace_disjoint([a, b], [5, 6]), Ok([1, 2]));
    /// assert_eq!(rt; map.get(b), Some(&6));
    /// assert_eq!(rt; map.replace_disjoint([a, a], [7, 8]), Err([7, 8]));
    /// ```
    pub fn replace_disjoint<const N: usize>(
        &mut self,
        keys: [K; N],
        mut values: [V; N],
    ) -> Result<[V; N], [V; N]>
        ensures which { IsOk result ↔ CanReplace value_of self.old (map_list K.data_of keys) }
        ensures value { IfOk result (AreValuesOf value_of self.old (map_list K.data_of keys)) }
        ensures ok { OnOk result (self.new ≡ with_values with_value_of self.old (map_list K.data_of keys) values) }

        ensures err { IfErr result (λ back. back ≡ values) }
        ensures unchanged { OnErr result (self.new ≡ self.old) }

        ensures valid { StaysDense self.old self.new }
    {
        self.note_valid();
        if !self.can_replace(&keys) {
            return Err(values);
        }
        for i in 0..N {
            self.swap_value(keys[i], &mut values[i]);
        }
        Ok(values)
    }

    /// Returns whether each key is live and no two are equal.
    ///
    /// If it returns `true`, `replace_disjoint` and `get_disjoint_mut` succeed with these keys;
    /// else they fail. It looks up each key and compares each two, and allocates nothing. Rust
    /// lacks this call.
    ///
    /// ```
    /// assert!(rt; map.can_replace(&[a, b]));
    /// assert!(rt; !map.can_replace(&[a, a]));
    /// ```
    pub fn can_replace(&self, keys: &[K]) -> bool
        ensures which { IsTrue result ↔ CanReplace value_of self.now (map_list K.data_of keys.now) }
        ensures valid { IsDense self.now }
    {
        self.note_valid();
        for i in 0..keys.len() {
            let key = keys[i];
            if !self.contains_key(key) || keys[..i].contains(&key) {
                return false;
            }
        }
        true
    }

    // Exchanges the value of a live key for another.
    fn swap_value(&mut self, key: K, value: &mut V)
        requires { IsLive self.old.content (K.data_of key) }
        ensures put { self.new ≡ with_value_of self.old (K.data_of key) value.old }
        ensures taken { map.get self.old.content.live (K.data_of key) ≡ Some value.new }
        ensures valid { IsDense self.new }
    {
        mem::swap(self.get_unchecked_mut(key), value);
    }

    // Returns mutable references to the values of two keys that are live and not equal.
    fn lend_two(&mut self, first: K, second: K) -> (&mut V, &mut V)
        requires first { IsLive self.old.content (K.data_of first) }
        requires second { IsLive self.old.content (K.data_of second) }
        requires apart { K.data_of first ≢ K.data_of second }
        ensures first { map.get self.old.content.live (K.data_of first) ≡ Some result.0.now }
        ensures second { map.get self.old.content.live (K.data_of second) ≡ Some result.1.now }
        ensures valid { IsDense self.old }
    {
        let i = *self.slots.get_unchecked(first.data()) as usize;
        let j = *self.slots.get_unchecked(second.data()) as usize;
        two_of(self.values_as_mut_slice(), i, j)
    }

    /// Returns mutable references to the values of two keys, or `None` if one isn't live or they
    /// are equal.
    ///
    /// The contract says what the references show. It doesn't say what the map holds once they end,
    /// nor after `None`. A caller who needs that uses [`DenseSlotMap::replace_disjoint`], or calls
    /// [`DenseSlotMap::can_replace`] first. In Rust there may be any number of keys. Constant time;
    /// allocates nothing.
    ///
    /// ```
    /// if let Some((first, second)) = map.get_disjoint_mut([a, b]) {
    ///     *first = *second;
    /// }
    /// assert_eq!(rt; map.get(a), Some(&2));
    /// ```
    pub fn get_disjoint_mut(&mut self, keys: [K; 2]) -> Option<(&mut V, &mut V)>
        ensures which { IsSome result ↔ CanReplace value_of self.old (map_list K.data_of keys) }
        ensures value { IfSome result (λ pair. AreValuesOf value_of self.old (map_list K.data_of keys) (pair.0.now ∷ pair.1.now ∷ [])) }
        ensures valid { IsDense self.old }
    {
        if self.can_replace(&keys) {
            Some(self.get_disjoint_unchecked_mut(keys))
        } else {
            None
        }
    }

    /// Returns mutable references to the values of two keys that are live and not equal, without
    /// checking their versions.
    ///
    /// The contract requires that the keys are live and not equal. So this call is safe; Rust's is
    /// `unsafe`. As at `get_disjoint_mut`, the contract doesn't say what the map holds once the
    /// references end. Constant time.
    ///
    /// ```
    /// let (first, second) = map.get_disjoint_unchecked_mut([a, b]);
    /// *first = *second;
    /// assert_eq!(rt; map.get(a), Some(&2));
    /// ```
    pub fn get_disjoint_unchecked_mut(&mut self, keys: [K; 2]) -> (&mut V, &mut V)
        requires { CanReplace value_of self.old (map_list K.data_of keys) }
        ensures value { AreValuesOf value_of self.old (map_list K.data_of keys) (result.0.now ∷ result.1.now ∷ []) }
        ensures valid { IsDense self.old }
    {
        self.lend_two(keys[0], keys[1])
    }
}

impl<K: Key, V: Drop> Index<K> for DenseSlotMap<K, V> {
    type Output = V;

    ghost can_index = { λ m key. IsLive m.content (K.data_of key) };

    ghost index_gives = { λ m key value. map.get m.content.live (K.data_of key) ≡ Some value };

    /// Returns the value of a live key, without checking its version.
    ///
    /// The contract requires that the key is live; in Rust any other key panics. Constant time.
    ///
    /// ```
    /// assert_eq!(rt; map[a] + map[b], 3);
    /// ```
    fn index(&self, key: K) -> &V {
        self.get_unchecked(key)
    }
}

impl<K: Key, V: Drop> IndexMut<K> for DenseSlotMap<K, V> {
    /// Returns a mutable reference to the value of a live key, without checking its version.
    ///
    /// The contract requires that the key is live; in Rust any other key panics. Constant time.
    ///
    /// ```
    /// map[a] = 5;
    /// assert_eq!(rt; map.get(a), Some(&5));
    /// ```
    fn index_mut(&mut self, key: K) -> &mut V
        requires { IsLive self.old.content (K.data_of key) }
        ensures* writes_back { sem 𝓛 (lends_value K.row V.row K.Key self.entry (K.data_of key) result) }
        ensures value { map.get self.old.content.live (K.data_of key) ≡ Some result.now }
        ensures valid { IsDense self.old }
    {
        self.get_unchecked_mut(key)
    }
}
