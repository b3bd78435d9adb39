//! The calls that put one value under a key.

ghost use Rattle.std.specs.FinMap as map;
ghost use Rattle.std.specs.Prelude.{◌≡◌, ◌<◌, ◌≤◌, ◌+◌, Some, None, IfOk, OnOk, OnErr, IfErr, IsOk, true, false};
ghost use Rattle.slotmap_core.specs.Words.{get, put, bind, is_null, value_at, RefusesPut, OrPuts};
ghost use Rattle.slotmap_core.specs.declared.secondary.OrPut.TheVariants as or_put;
ghost use Rattle.slotmap_sparse.specs.Content.{IsSparseContent};
ghost use Rattle.slotmap_sparse.specs.Found.{put_over};

use crate::SparseSecondaryMap;
use crate::find::{Found, is_null};
use slotmap_core::errors::PutError;
use slotmap_core::keys::{Key, is_older_version};
use slotmap_core::secondary::OrPut;
use std::alloc::AllocError;
use std::hash::BuildHasher;
use std::mem;

impl<K: Key, V: Drop, S: BuildHasher + Drop> SparseSecondaryMap<K, V, S> {
    // Makes sure that there is memory for this many more keys.
    pub(crate) fn make_room(&mut self, additional: usize) -> Result<(), AllocError>
        ensures ok { OnOk result (map.len self.old.pairs + additional ≤ self.new.capacity) }
        ensures keeps { self.new.pairs ≡ self.old.pairs }
        ensures capacity { self.old.capacity ≤ self.new.capacity }
        ensures room { map.len self.old.pairs + additional ≤ self.old.capacity → IsOk result }
        ensures valid { IsSparseContent self.new }
    {
        self.slots.reserve(additional)
    }

    // Puts the value under a key whose index is vacant, if there is memory for it.
    #[inline(always)]
    pub(crate) fn add(&mut self, key: K, value: V) -> Result<(), PutError<V>>
        requires not_null { is_null (K.data_of key) ≡ false }
        requires absent { map.get self.old.pairs (K.data_of key).index ≡ None }
        ensures ok { OnOk result (self.new.pairs ≡ bind self.old.pairs (K.data_of key) value) }
        ensures err { IfErr result (λ error. error.0 ≡ value) }
        ensures unchanged { OnErr result (self.new.pairs ≡ self.old.pairs) }
        ensures capacity { self.old.capacity ≤ self.new.capacity }
        ensures room { map.len self.old.pairs < self.old.capacity → IsOk result }
        ensures valid { IsSparseContent self.new }
    {
        let key = key.data();
        match self.slots.insert(key.idx(), (key.version(), value)) {
            Ok(_) => Ok(()),
            Err(refused) => {
                let (_, (_, value)) = refused.value;
                Err(PutError(value))
            }
        }
    }

    // Puts the value over what is at the key's index, unless that is newer. If nothing is there,
    // returns the value as an error.
    #[inline(always)]
    pub(crate) fn put_over(&mut self, key: K, value: V) -> Result<Option<V>, V>
        ensures value { IfOk result (λ before. before ≡ get self.old.pairs (K.data_of key)) }
        ensures ok { OnOk result (self.new ≡ record self.old { pairs = put self.old.pairs (K.data_of key) value }) }
        ensures err { IfErr result (λ back. back ≡ value) }
        ensures absent { OnErr result (map.get self.old.pairs (K.data_of key).index ≡ None) }
        ensures unchanged { OnErr result (self.new ≡ self.old) }
        ensures valid { IsSparseContent self.new }
    {
        let key = key.data();
        let Some(slot) = self.slots.get_mut(&key.idx()) else {
            return Err(value);
        };
        Ok(replace(slot, key.version(), value))
    }

    /// Inserts a value under a key, and returns the value that the key had.
    ///
    /// An older key at the same index is removed, and its value is dropped. If the key is null, or
    /// older than the key at its index, nothing changes: the value is dropped, and `None` is
    /// returned.
    ///
    /// If the allocation fails, the map holds what it held and the error holds the value; Rust
    /// aborts. A call allocates only if nothing is at the key's index, and never fails while the
    /// map holds fewer keys than `capacity()`. Takes constant time, except if the table grows or is built anew.
    ///
    /// ```
    /// assert_eq!(rt; map.insert(a, 5)?, Some(1));
    /// primary.remove(a);
    /// let newer = primary.insert(30)?; // reuses the slot of a
    /// assert_eq!(rt; map.insert(newer, 6)?, None);
    /// assert_eq!(rt; map.insert(a, 7)?, None); // older: without effect
    /// assert_eq!(rt; map[newer], 6);
    /// ```
    #[inline(always)]
    pub fn insert(&mut self, key: K, value: V) -> Result<Option<V>, PutError<V>>
        ensures value { IfOk result (λ before. before ≡ get self.old.pairs (K.data_of key)) }
        ensures ok { OnOk result (self.new.pairs ≡ put self.old.pairs (K.data_of key) value) }

        // Fails only if nothing is at the index, and the map is at its capacity.
        ensures err { IfErr result (λ error. RefusesPut self.old.pairs (K.data_of key) value error.0) }
        ensures absent { OnErr result (map.get self.old.pairs (K.data_of key).index ≡ None) }
        ensures unchanged { OnErr result (self.new.pairs ≡ self.old.pairs) }
        ensures room { map.len self.old.pairs < self.old.capacity → IsOk result }

        // Allocates only if nothing is at the index, and never for the null key.
        ensures stood { map.contains_key self.old.pairs (K.data_of key).index ≡ true
            → self.new.capacity ≡ self.old.capacity }
        ensures null { is_null (K.data_of key) ≡ true → self.new ≡ self.old }
        ensures capacity { self.old.capacity ≤ self.new.capacity }
        ensures valid { IsSparseContent self.new }
    {
        self.note_valid();
        if is_null(key) {
            return Ok(None);
        }
        match self.put_over(key, value) {
            Ok(before) => Ok(before),
            Err(value) => {
                self.add(key, value)?;
                Ok(None)
            }
        }
    }

    /// Inserts a value under a key if the key's entry is vacant, and returns the value otherwise.
    ///
    /// The result is one of these:
    ///
    /// - `Placed`: the value was inserted, as by `insert`.
    /// - `Kept`: the key has a value already.
    /// - `NoEntry`: `entry` would return `None`.
    /// - `Memory`: the allocation failed. A call allocates only if nothing is at the key's index, so
    ///   it can't fail where an older key is. There `entry` removes the older key before it inserts.
    ///
    /// Only `Placed` changes what the map holds. It costs what `insert` does. Rust lacks this call.
    ///
    /// ```
    /// assert!(rt; matches!(map.or_put(b, 5), OrPut::Placed));
    /// assert!(rt; matches!(map.or_put(b, 6), OrPut::Kept(6)));
    /// assert!(rt; matches!(map.or_put(DefaultKey::null(), 7), OrPut::NoEntry(7)));
    /// ```
    pub fn or_put(&mut self, key: K, value: V) -> OrPut<V>
        ensures does { OrPuts self.old.pairs (K.data_of key) value result self.new.pairs }
        ensures room { result ≡ or_put.Memory value → self.old.capacity ≤ map.len self.old.pairs }
        ensures absent { result ≡ or_put.Memory value → map.get self.old.pairs (K.data_of key).index ≡ None }

        // Allocates only if nothing is at the index, and never for the null key.
        ensures stood { map.contains_key self.old.pairs (K.data_of key).index ≡ true
            → self.new.capacity ≡ self.old.capacity }
        ensures null { is_null (K.data_of key) ≡ true → self.new ≡ self.old }
        ensures capacity { self.old.capacity ≤ self.new.capacity }
        ensures valid { IsSparseContent self.new }
    {
        match self.find(key) {
            Found::No => OrPut::NoEntry(value),
            Found::Occupied => OrPut::Kept(value),
            Found::Outdated | Found::Empty => match self.insert(key, value) {
                Ok(_) => OrPut::Placed,
                Err(PutError(value)) => OrPut::Memory(value),
            },
        }
    }
}

// Puts the value over what is in a slot, unless that is newer. Returns the value that the version
// had.
fn replace<V: Drop>(slot: &mut (u32, V), version: u32, value: V) -> Option<V>
    ensures value { result ≡ value_at version (Some slot.old) }
    ensures puts { slot.new ≡ put_over version value slot.old }
{
    if slot.0 == version {
        return Some(mem::replace(&mut slot.1, value));
    }
    if !is_older_version(version, slot.0) {
        *slot = (version, value);
    }
    None
}
