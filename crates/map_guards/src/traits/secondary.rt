//! Guards of the calls of `Secondary`.
#![tactic(auto, using(slotmap_core::proofs::ForCallers::SecondaryCallers::secondary))]

ghost use Rattle.std.specs.FinMap as map;
ghost use Rattle.std.specs.Prelude.{◌≡◌, ◌≢◌, ℕ, true, false, Some, None, IfErr, OnOk, OnErr};
ghost use Rattle.slotmap_core.specs.Words.{Key as KeyOf, get, entry, has_entry, bind, is_null, is_older, vacant, no_entry};

use slotmap_core::errors::PutError;
use slotmap_core::keys::Key;
use slotmap_core::secondary::{OrPut, Secondary};

/// Guards of `insert`.
pub fn insert<K: Key, V: Drop, S: Secondary<K, V>>(
    store: &mut S,
    key: K,
    value: V,
) -> Result<Option<V>, PutError<V>>
    // A key that has an entry has the value then, and nothing is found under other versions of its
    // index.
    // Holds by `ok` of `insert`.
    ensures inserted_value_is_found { has_entry (entry (S.pairs store.old) (K.data_of key)) ≡ true → OnOk result (get (S.pairs store.new) (K.data_of key) ≡ Some value) }
    ensures older_version_is_gone { has_entry (entry (S.pairs store.old) (K.data_of key)) ≡ true → OnOk result ((other : KeyOf) →
        other.index ≡ (K.data_of key).index → other.version ≢ (K.data_of key).version → get (S.pairs store.new) other ≡ None) }
    // A key that is older than the one at its index changes nothing; half of all versions are older. Nor
    // does the null key.
    // Refuses `insert_overwrites_a_newer_key`, `insert_overwrites_newer_keys`,
    // `insert_stores_the_null_key`: `ok` and `unchanged` of `insert`.
    ensures insert_ignores_older_keys { (pair : ℕ × V) → map.get (S.pairs store.old) (K.data_of key).index ≡ Some pair → pair.0 ≢ (K.data_of key).version →
        is_older (K.data_of key).version pair.0 ≡ true → S.pairs store.new ≡ S.pairs store.old }
    ensures insert_ignores_the_null_key { is_null (K.data_of key) ≡ true → S.pairs store.new ≡ S.pairs store.old }
    // Nothing changes at other indices.
    // Holds by `ok` and `unchanged` of `insert`.
    ensures insert_keeps_other_indices { (other : KeyOf) → other.index ≢ (K.data_of key).index → get (S.pairs store.new) other ≡ get (S.pairs store.old) other }
    // It fails only where the key's entry is vacant, and the error holds the value.
    // Holds by `err` of `insert`.
    ensures insert_fails_at_a_vacant_entry_alone { OnErr result (entry (S.pairs store.old) (K.data_of key) ≡ vacant) }
    ensures failed_insert_returns_the_value { IfErr result (λ error. error.0 ≡ value) }
{
    store.insert(key, value)
}

/// Guards of `remove`.
pub fn remove<K: Key, V: Drop, S: Secondary<K, V>>(store: &mut S, key: K) -> Option<V>
    // The key is found no longer, and nothing changes at other indices.
    // Holds by `removes` of `remove`.
    ensures removed_key_is_gone { get (S.pairs store.new) (K.data_of key) ≡ None }
    ensures remove_keeps_other_indices { (other : KeyOf) → other.index ≢ (K.data_of key).index → get (S.pairs store.new) other ≡ get (S.pairs store.old) other }
    // Where the key has no value, nothing changes.
    // Holds by `removes` of `remove`.
    ensures removal_of_a_stale_key_changes_nothing { get (S.pairs store.old) (K.data_of key) ≡ None → S.pairs store.new ≡ S.pairs store.old }
{
    store.remove(key)
}

/// Guards of `or_put`.
pub fn or_put<K: Key, V: Drop, S: Secondary<K, V>>(store: &mut S, key: K, value: V) -> OrPut<V>
    // It says `Placed` exactly of a vacant entry, whose key has the value then.
    // Refuses `or_put_says_placed_for_want_of_memory`: `does` of `or_put`.
    ensures or_put_places_at_a_vacant_entry { result ≡ OrPut.Placed → entry (S.pairs store.old) (K.data_of key) ≡ vacant }
    ensures or_put_places_the_value { result ≡ OrPut.Placed → S.pairs store.new ≡ bind (S.pairs store.old) (K.data_of key) value }
    // A key that has a value keeps it, and the new value comes back.
    // Holds by `does` of `or_put`.
    ensures or_put_keeps_a_value { (standing : V) → get (S.pairs store.old) (K.data_of key) ≡ Some standing → is_null (K.data_of key) ≡ false →
        (result ≡ OrPut.Kept value) × (S.pairs store.new ≡ S.pairs store.old) }
    // A key with no entry changes nothing, and the value comes back.
    // Holds by `does` of `or_put`.
    ensures or_put_returns_the_value_of_no_entry { entry (S.pairs store.old) (K.data_of key) ≡ no_entry → (result ≡ OrPut.NoEntry value) × (S.pairs store.new ≡ S.pairs store.old) }
{
    store.or_put(key, value)
}
