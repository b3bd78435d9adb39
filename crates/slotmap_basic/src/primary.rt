//! `SlotMap` as a primary map: each call is the map's own.

ghost use Rattle.slotmap_core.specs.Words.{true, refl};

use crate::SlotMap;
use slotmap_core::errors::{
    InsertError, InsertWithError, OutOfMemory, ReattachError, ReserveError, TryInsertError,
};
use slotmap_core::keys::Key;
use slotmap_core::primary::{Detaching, Primary};
use std::alloc::Global;

impl<K: Key, V: Drop> Primary<K, V> for SlotMap<K, V> {
    const REUSES: bool = true;

    ghost REUSES = { true };

    ghost STACKED = { true };

    ghost content = { λ m. m };

    fn with_key(alloc: Global) -> Result<Self, ReserveError> {
        SlotMap::with_key(alloc)
    }

    fn with_capacity_and_key(alloc: Global, capacity: usize) -> Result<Self, ReserveError> {
        SlotMap::with_capacity_and_key(alloc, capacity)
    }

    fn len(&self) -> usize {
        SlotMap::len(self)
    }

    fn is_empty(&self) -> bool {
        SlotMap::is_empty(self)
    }

    fn capacity(&self) -> usize {
        SlotMap::capacity(self)
    }

    fn contains_key(&self, key: K) -> bool {
        SlotMap::contains_key(self, key)
    }

    fn get(&self, key: K) -> Option<&V> {
        SlotMap::get(self, key)
    }

    fn insert(&mut self, value: V) -> Result<K, InsertError<V>> {
        SlotMap::insert(self, value)
    }

    fn remove(&mut self, key: K) -> Option<V> {
        SlotMap::remove(self, key)
    }

    fn try_insert_with_key<E, F>(&mut self, f: F) -> Result<K, TryInsertError<E>>
    where
        F: FnOnce(K) -> Result<V, E> + Drop,
    {
        SlotMap::try_insert_with_key(self, f)
    }

    fn insert_with_key<F: FnOnce(K) -> V>(&mut self, f: F) -> Result<K, InsertWithError>
    where
        F: Drop,
    {
        SlotMap::insert_with_key(self, f)
    }

    fn replace(&mut self, key: K, value: V) -> Result<V, V> {
        SlotMap::replace(self, key, value)
    }

    fn reserve(&mut self, additional: usize) -> Result<(), ReserveError> {
        SlotMap::reserve(self, additional)
    }

    fn try_reserve(&mut self, additional: usize) -> Result<(), ReserveError> {
        SlotMap::try_reserve(self, additional)
    }

    fn retain<F: FnMut(K, &mut V) -> bool>(&mut self, f: F)
    where
        F: Drop,
        V: Drop,
    {
        SlotMap::retain(self, f);
    }

    fn clear(&mut self)
    where
        V: Drop,
    {
        SlotMap::clear(self);
    }

    fn drain_into(&mut self, out: &mut Vec<(K, V)>) -> Result<(), OutOfMemory> {
        SlotMap::drain_into(self, out)
    }

    fn keys_into(&self, out: &mut Vec<K>) -> Result<(), OutOfMemory> {
        SlotMap::keys_into(self, out)
    }
}

impl<K: Key, V: Drop> Detaching<K, V> for SlotMap<K, V> {
    fn detach(&mut self, key: K) -> Option<V> {
        SlotMap::detach(self, key)
    }

    fn reattach(&mut self, key: K, value: V) -> Result<(), ReattachError<V>> {
        SlotMap::reattach(self, key, value)
    }

    ghost last_freed_first = { refl };
}
