//! Calls of `retain`: with a closure that reads, one that writes, one that counts, and one that names a
//! key.

ghost use Rattle.std.specs.Prelude.{◌≡◌, ◌<◌, ◌+◌, ◌%◌, ◌==◌, ◌/◌, ℕ, Some, None, min, if◌then◌else◌};
ghost use Rattle.std.specs.Option.{option_and_then, option_map};
ghost use Rattle.std.specs.FinMap as map;
ghost use Rattle.slotmap.specs.Words.{Key as KeyOf, IsLive};

use slotmap::{DefaultKey, Key, SlotMap};

/// Keeps the keys with even values.
pub fn keep_even<K: Key>(store: &mut SlotMap<K, u64>)
    ensures { (k : KeyOf) → map.get store.new.live k ≡ option_and_then
        (λ value. if value % 2 == 0 then Some value else None) (map.get store.old.live k) }
{
    store.retain(|_, value| *value % 2 == 0);
}

/// Halves each value, and keeps every key.
pub fn halve_all<K: Key>(store: &mut SlotMap<K, u64>)
    ensures { (k : KeyOf) → map.get store.new.live k ≡ option_map (λ value. value / 2) (map.get store.old.live k) }
{
    store.retain(|_, value| {
        *value /= 2;
        true
    });
}

/// Adds one to each value, if all are small.
pub fn raise_all<K: Key>(store: &mut SlotMap<K, u8>)
    requires small { (k : KeyOf) (n : ℕ) → map.get store.old.live k ≡ Some n → n < 10 }
    ensures { (k : KeyOf) → map.get store.new.live k ≡ option_map (λ n. n + 1) (map.get store.old.live k) }
{
    store.retain(|_, value| {
        *value += 1;
        true
    });
}

/// Keeps `most` entries at most: the closure counts those that it keeps.
pub fn keep_first(store: &mut SlotMap<DefaultKey, u64>, most: usize)
    ensures count { map.len store.new.live ≡ min most (map.len store.old.live) }
    ensures kept { (k : KeyOf) → IsLive store.new k → map.get store.new.live k ≡ map.get store.old.live k }
{
    let mut kept: usize = 0;
    store.retain(|_, _| {
        if kept < most {
            kept += 1;
            true
        } else {
            false
        }
    });
}

/// Removes one key by `retain`, and leaves every other one.
pub fn keep_others(store: &mut SlotMap<DefaultKey, u64>, key: DefaultKey)
    ensures { store.new.live ≡ map.remove store.old.live key }
{
    store.retain(|k, _| k != key);
}
