//! Iteration over a map: by a loop, and by a chain of iterators.

ghost use Rattle.std.specs.Prelude.{◌≡◌, ℕ, ◌+◌, ◌<◌, ◌≤◌, ◌↔◌, ◌^◌, ◌%◌, ◌==◌, false, IsTrue, IfSome, IfNone, IfOk, OnOk, Some, sum, count_by};
ghost use Rattle.std.specs.FinMap as map;
ghost use Rattle.slotmap.specs.Words.{Key as KeyOf};

use slotmap::{DefaultKey, InsertError, Key, SlotMap};
use std::alloc::{AllocError, Global};

/// A key that has this value.
pub fn find_key<K: Key>(store: &SlotMap<K, u64>, wanted: u64) -> Option<K>
    ensures found { IfSome result (λ key. map.get store.now.live (K.data_of key) ≡ Some wanted) }
    ensures none { IfNone result ((k : KeyOf) → map.get store.now.live k ≡ Some wanted → ⊥) }
{
    for (key, value) in store.iter() {
        if *value == wanted {
            return Some(key);
        }
    }
    None
}

/// Whether a live key has this value: each is looked at, by a call for each that keeps no reference.
pub fn has_value<K: Key>(store: &SlotMap<K, u64>, wanted: u64) -> bool
    ensures none { result ≡ false → (k : KeyOf) → map.get store.now.live k ≡ Some wanted → ⊥ }
{
    let mut last: Option<K> = None;
    while let Some((key, value)) = store.next_after(last) {
        if *value == wanted {
            return true;
        }
        last = Some(key);
    }
    false
}

/// Whether each value is at most `most`.
pub fn all_at_most<K: Key>(store: &SlotMap<K, u64>, most: u64) -> bool
    ensures { IsTrue result ↔ ((k : KeyOf) (v : ℕ) → map.get store.now.live k ≡ Some v → v ≤ most) }
{
    for (_, value) in store.iter() {
        if *value > most {
            return false;
        }
    }
    true
}

/// Stores the numbers below `count`.
pub fn fill(store: &mut SlotMap<DefaultKey, usize>, count: usize) -> Result<(), InsertError<usize>>
    ensures { OnOk result (map.len store.new.live ≡ map.len store.old.live + count) }
{
    for i in 0..count {
        store.insert(i)?;
    }
    Ok(())
}

/// The sum of the values.
pub fn total(store: &SlotMap<DefaultKey, u64>) -> u64
    requires { sum (map.values store.now.live) < 2 ^ 64 }
    ensures { result ≡ sum (map.values store.now.live) }
{
    store.values().copied().sum()
}

/// How many values are even.
pub fn count_even(store: &SlotMap<DefaultKey, u64>) -> usize
    ensures { result ≡ count_by (λ value. value % 2 == 0) (map.values store.now.live) }
{
    store.values().filter(|value| **value % 2 == 0).count()
}

/// The live keys, by ascending index.
pub fn all_keys(
    alloc: Global,
    store: &SlotMap<DefaultKey, u64>,
) -> Result<Vec<DefaultKey>, AllocError>
    ensures { IfOk result (λ keys. keys.items ≡ map.keys store.now.live) }
{
    store.keys().collect(alloc)
}
