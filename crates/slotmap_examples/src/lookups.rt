//! Values by their keys: stored, read, written and removed.

ghost use Rattle.std.specs.Prelude.{◌≡◌, ◌≢◌, ℕ, ◌+◌, ◌<◌, ◌^◌, IfOk, OnOk, Some, None, if◌then◌else◌};
ghost use Rattle.std.specs.FinMap as map;
ghost use Rattle.slotmap.specs.Words.{Key as KeyOf, IsLive, with_value};

use slotmap::{DefaultKey, InsertError, Key, SlotMap};

/// Stores a value, and reads it back.
pub fn store_and_read(
    store: &mut SlotMap<DefaultKey, u32>,
    value: u32,
) -> Result<u32, InsertError<u32>>
    ensures { IfOk result (λ read. read ≡ value) }
{
    let key = store.insert(value)?;
    Ok(store[key])
}

/// Stores two values under two keys.
pub fn store_two<K: Key>(store: &mut SlotMap<K, u32>) -> Result<(K, K), InsertError<u32>>
    ensures differ { IfOk result (λ keys. K.data_of keys.0 ≢ K.data_of keys.1) }
    ensures first { IfOk result (λ keys. map.get store.new.live (K.data_of keys.0) ≡ Some 1) }
    ensures second { IfOk result (λ keys. map.get store.new.live (K.data_of keys.1) ≡ Some 2) }
    ensures len { OnOk result (map.len store.new.live ≡ map.len store.old.live + 2) }
{
    let first = store.insert(1)?;
    let second = store.insert(2)?;
    Ok((first, second))
}

/// Sets the value of a key, and returns whether the key is live.
pub fn set<K: Key>(store: &mut SlotMap<K, u64>, key: K, value: u64) -> bool
    ensures which { result ≡ map.contains_key store.old.live (K.data_of key) }
    ensures new { store.new ≡ if result then with_value store.old (K.data_of key) value else store.old }
{
    match store.get_mut(key) {
        Some(place) => {
            *place = value;
            true
        }
        None => false,
    }
}

/// Adds one to the value of a key.
pub fn add_one<K: Key>(store: &mut SlotMap<K, u64>, key: K)
    requires live { IsLive store.old (K.data_of key) }
    requires fits { (n : ℕ) → map.get store.old.live (K.data_of key) ≡ Some n → n + 1 < 2 ^ 64 }
    ensures { (n : ℕ) × (map.get store.old.live (K.data_of key) ≡ Some n)
        × (store.new ≡ with_value store.old (K.data_of key) (n + 1)) }
{
    store[key] += 1;
}

/// Removes a key, and leaves every other one.
pub fn forget<K: Key>(store: &mut SlotMap<K, u64>, key: K)
    ensures gone { map.get store.new.live (K.data_of key) ≡ None }
    ensures others { (q : KeyOf) → q ≢ K.data_of key → map.get store.new.live q ≡ map.get store.old.live q }
{
    store.remove(key);
}
