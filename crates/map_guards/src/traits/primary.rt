//! Guards of the calls of `Primary` and `Detaching`.
#![tactic(auto, using(slotmap_core::proofs::ForCallers::Callers::keys, slotmap_core::proofs::ForCallers::Callers::inserted_fresh))]

ghost use Rattle.std.specs.FinMap as map;
ghost use Rattle.std.specs.FinSet as set;
ghost use Rattle.std.specs.Prelude.{◌≡◌, ◌+◌, ◌<◌, ◌≤◌, ◌∷◌, ◌||◌, ◌&&◌, ◌≢◌, ℕ, List, true, false, Some, None, Ok, Err};
ghost use Rattle.std.specs.Prelude.{IfOk, IfErr, OnOk, OnErr, IsOk, option_map, drop};
ghost use Rattle.slotmap_core.specs.Words.{Key as KeyOf, IsLive, IsDetached, HasVacant, used, places, most, Keeps};
ghost use Rattle.slotmap_core.specs.Words.{has_left, is_last, next_version};

use slotmap_core::errors::{
    InsertError, InsertWithError, ReattachError, ReserveError, TryInsertError,
};
use slotmap_core::keys::Key;
use slotmap_core::primary::{Detaching, Primary};
use std::alloc::Global;

/// In a new map no key is live, detached or retired, and no slot is vacant. It fails with `TooGreat`
/// exactly above the limit.
/// Holds by `starts` of `with_key`, and `starts` and `err` of `with_capacity_and_key`.
pub fn new_map_is_empty<K: Key, V: Drop, M: Primary<K, V>>(
    alloc: Global,
    capacity: Option<usize>,
) -> Result<M, ReserveError>
    ensures live { IfOk result (λ made. (M.content made).live ≡ map.empty) }
    ensures others { IfOk result (λ made. ((M.content made).detached ≡ set.empty) × ((M.content made).retired ≡ set.empty) × ((M.content made).next ≡ map.empty)) }
    ensures above { (asked : ℕ) → capacity ≡ Some asked → result ≡ Err ReserveError.TooGreat → most < asked }
    ensures within { (asked : ℕ) → capacity ≡ Some asked → result ≡ Err ReserveError.Memory → asked ≤ most }
{
    match capacity {
        None => M::with_key(alloc),
        Some(capacity) => M::with_capacity_and_key(alloc, capacity),
    }
}

/// A map that reuses the slot freed last offers its index.
/// Holds by `valid` of each call.
pub fn slot_freed_last_is_offered<K: Key, V: Drop, M: Primary<K, V>>(store: &M) -> usize
    ensures { (index : ℕ) (rest : List ℕ) → used (M.content store.now) < most →
        (M.content store.now).stack ≡ Some (index ∷ rest) → (M.content store.now).offer.index ≡ index }
{
    store.len()
}

/// Guards of `insert`.
pub fn insert<K: Key, V: Drop, M: Primary<K, V>>(
    store: &mut M,
    value: V,
) -> Result<K, InsertError<V>>
    // The key is the one that the map offers, and wasn't live. It has the value, and every other key has
    // its own. Its slot is vacant no longer, room for one key is used, and the index freed before it is
    // reused next. Detached and retired keys stay so, whatever the call returns.
    // Refuses `insert_answers_the_null_key`, `insert_always_makes_a_place`: `ok` and `valid` of `insert`.
    ensures insert_returns_the_offer { IfOk result (λ key. K.data_of key ≡ (M.content store.old).offer) }
    ensures inserted_key_is_new { IfOk result (λ key. map.get (M.content store.old).live (K.data_of key) ≡ None) }
    ensures insert_changes_one_key { IfOk result (λ key. (M.content store.new).live ≡ map.insert (M.content store.old).live (K.data_of key) value) }
    ensures insert_fills_its_slot { IfOk result (λ key. (M.content store.new).next ≡ map.remove (M.content store.old).next (K.data_of key).index) }
    ensures insert_uses_room_for_one { OnOk result ((M.content store.old).room ≤ (M.content store.new).room + 1) }
    ensures insert_takes_from_the_stack { OnOk result ((M.content store.new).stack ≡ option_map (drop 1) (M.content store.old).stack) }
    ensures insert_keeps_detached_keys { (M.content store.new).detached ≡ (M.content store.old).detached }
    ensures insert_keeps_retired_keys { (M.content store.new).retired ≡ (M.content store.old).retired }
    // Where there is room, it succeeds, and the capacity stays. So it succeeds where a map reuses its slots
    // and one is vacant.
    // Refuses `insert_reserves_first`, `insert_says_memory_where_there_is_room`: `err`, `valid` and
    // `reuses` of `insert`.
    ensures insert_with_room_succeeds { 0 < (M.content store.old).room → IsOk result }
    ensures insert_with_room_keeps_the_capacity { 0 < (M.content store.old).room → (M.content store.new).capacity ≡ (M.content store.old).capacity }
    ensures insert_into_a_vacant_slot_succeeds { M.REUSES ≡ true → HasVacant (M.content store.old) → IsOk result }
    // It fails with `Full` exactly at the limit, and with `Memory` only below it. The error holds the
    // value, and the map what it held.
    // Refuses `insert_says_full_for_want_of_memory`: `err` and `valid` of `insert`.
    ensures insert_says_full_at_the_limit { (back : V) → result ≡ Err (InsertError.Full back) → (used (M.content store.old) ≡ most) × (back ≡ value) }
    ensures insert_says_memory_below_it { (back : V) → result ≡ Err (InsertError.Memory back) → (used (M.content store.old) < most) × (back ≡ value) }
    ensures failed_insert_keeps_all { OnErr result (Keeps (M.content store.old) (M.content store.new)) }
{
    store.insert(value)
}

/// Guards of `insert_with_key`.
pub fn insert_with_key<K: Key, V: Drop, M: Primary<K, V>, F: FnOnce(K) -> V + Drop>(
    store: &mut M,
    f: F,
) -> Result<K, InsertWithError>
    requires { used (M.content store.old) < most → (key : K) → K.data_of key ≡ (M.content store.old).offer → F.pre f key }
    // The closure is called with the key that is returned, and only where there is a slot.
    // Refuses `insert_with_key_calls_its_closure_where_the_map_is_full`,
    // `insert_with_key_shows_another_key`: the premise and `ok` of `insert_with_key`.
    ensures insert_with_key_stores_what_the_closure_returns { IfOk result (λ key. (v : V) × F.post f key v
        × ((M.content store.new).live ≡ map.insert (M.content store.old).live (K.data_of key) v)) }
    // Where there is room, it succeeds, and the capacity stays. So it does where a map reuses its slots and
    // one is vacant.
    // Refuses `insert_with_key_reserves_first`: `err`, `valid` and `reuses` of `insert_with_key`.
    ensures insert_with_key_into_a_vacant_slot_succeeds { M.REUSES ≡ true → HasVacant (M.content store.old) → IsOk result }
    ensures insert_with_key_with_room_succeeds { 0 < (M.content store.old).room → IsOk result }
    ensures insert_with_key_with_room_keeps_the_capacity { 0 < (M.content store.old).room → (M.content store.new).capacity ≡ (M.content store.old).capacity }
    // Where it fails, the map holds what it held; it is `Full` exactly at the limit.
    // Holds by `valid` and `err` of `insert_with_key`.
    ensures failed_insert_with_key_keeps_all { OnErr result (Keeps (M.content store.old) (M.content store.new)) }
    ensures insert_with_key_says_full_at_the_limit { result ≡ Err InsertWithError.Full → used (M.content store.old) ≡ most }
    ensures insert_with_key_says_memory_below_it { result ≡ Err InsertWithError.Memory → used (M.content store.old) < most }
{
    store.insert_with_key(f)
}

/// Guards of `try_insert_with_key`.
pub fn try_insert_with_key<K, V, M, E, F>(store: &mut M, f: F) -> Result<K, TryInsertError<E>>
where
    K: Key,
    V: Drop,
    M: Primary<K, V>,
    F: FnOnce(K) -> Result<V, E> + Drop,
    requires { used (M.content store.old) < most → (key : K) → K.data_of key ≡ (M.content store.old).offer → F.pre f key }
    // The closure is called with the key that is returned, and only where there is a slot.
    // Holds by the premise and `ok` of `try_insert_with_key`.
    ensures try_insert_with_key_stores_what_the_closure_returns { IfOk result (λ key. (v : V) × F.post f key (Ok v)
        × ((M.content store.new).live ≡ map.insert (M.content store.old).live (K.data_of key) v)) }
    // Where the closure fails, the map holds what it held, and offers the same key. Nothing is allocated
    // where there is room.
    // Refuses `try_insert_with_key_clears_the_map_after_an_error`,
    // `try_insert_with_key_frees_another_slot_after_an_error`,
    // `try_insert_with_key_passes_the_slot_over_after_an_error`,
    // `try_insert_with_key_passes_the_place_over_after_an_error`,
    // `try_insert_with_key_reserves_after_an_error`: `valid` of `try_insert_with_key`.
    ensures failed_closure_keeps_all { OnErr result (Keeps (M.content store.old) (M.content store.new)) }
    ensures try_insert_with_key_with_room_keeps_the_capacity { 0 < (M.content store.old).room → (M.content store.new).capacity ≡ (M.content store.old).capacity }
    // Where there is room, it fails only with the closure's error for the new key. Where a map reuses its
    // slots and one is vacant, memory can't run out.
    // Holds by `err` and `reuses` of `try_insert_with_key`.
    ensures error_of_the_closure_comes_back { 0 < (M.content store.old).room →
        IfErr result (λ error. (e : E) × (error ≡ TryInsertError.Closure e) ×
        ((key : K) × (K.data_of key ≡ (M.content store.old).offer) × F.post f key (Err e))) }
    ensures try_insert_with_key_into_a_vacant_slot_needs_no_memory { M.REUSES ≡ true → HasVacant (M.content store.old) → result ≢ Err TryInsertError.Memory }
{
    store.try_insert_with_key(f)
}

/// Guards of `remove`.
pub fn remove<K: Key, V: Drop, M: Primary<K, V>>(store: &mut M, key: K) -> Option<V>
    // The key is found no longer. Before the last key of a slot is removed, the slot isn't retired: it is
    // vacant, and its next key is newer. It is the next that is reused, in a map that reuses the one freed
    // last. There is room for one key more.
    // Refuses `remove_keeps_the_place`: `value`, `removes` and `live` of `remove`.
    ensures removed_key_is_gone { map.get (M.content store.new).live (K.data_of key) ≡ None }
    ensures removed_slot_is_vacant { IsLive (M.content store.old) (K.data_of key) → is_last (K.data_of key) ≡ false →
        ((M.content store.new).next ≡ map.insert (M.content store.old).next (K.data_of key).index (next_version (K.data_of key)))
        × ((M.content store.new).retired ≡ (M.content store.old).retired) × ((M.content store.old).room + 1 ≤ (M.content store.new).room) }
    ensures removed_slot_is_reused_first { IsLive (M.content store.old) (K.data_of key) → is_last (K.data_of key) ≡ false →
        (rest : List ℕ) → (M.content store.old).stack ≡ Some rest → (M.content store.new).stack ≡ Some ((K.data_of key).index ∷ rest) }
    // The slot of a last key is never vacant again.
    // Holds by `value` and `removes` of `remove`.
    ensures last_key_retires_its_slot { IsLive (M.content store.old) (K.data_of key) → is_last (K.data_of key) ≡ true →
        ((M.content store.new).retired ≡ set.insert (M.content store.old).retired (K.data_of key)) × ((M.content store.new).next ≡ (M.content store.old).next) }
    // Nothing is allocated or freed, and detached keys stay so.
    // Refuses `remove_reserves`: `valid`, `removes` and `unchanged` of `remove`.
    ensures remove_keeps_the_capacity { (M.content store.new).capacity ≡ (M.content store.old).capacity }
    ensures remove_keeps_detached_keys { (M.content store.new).detached ≡ (M.content store.old).detached }
{
    store.remove(key)
}

/// A live key gets the value, and every other key keeps its own. The old value comes back.
/// Refuses `replace_hands_the_new_value_back_as_the_old`: `ok`, `replaces` and `err` of `replace`.
pub fn replace_exchanges_the_value<K: Key, V: Drop, M: Primary<K, V>>(
    store: &mut M,
    key: K,
    value: V,
) -> Result<V, V>
    ensures succeeds { IsLive (M.content store.old) (K.data_of key) → IsOk result }
    ensures old { IfOk result (λ before. map.get (M.content store.old).live (K.data_of key) ≡ Some before) }
    ensures new { OnOk result ((M.content store.new).live ≡ map.insert (M.content store.old).live (K.data_of key) value) }
{
    store.replace(key, value)
}

/// Guards of `reserve` and of `try_reserve`.
pub fn reserve<K: Key, V: Drop, M: Primary<K, V>>(
    store: &mut M,
    additional: usize,
    tries: bool,
) -> Result<(), ReserveError>
    // There is room for so many more keys. The map holds what it held, and no capacity is lost.
    // Refuses `reserve_makes_room_for_half`, `try_reserve_makes_no_room`: `makes_room` of `reserve` and
    // `makes_room` of `try_reserve`.
    ensures reserve_makes_room { OnOk result (additional ≤ (M.content store.new).room) }
    ensures reserve_makes_capacity { OnOk result (map.len (M.content store.old).live + additional ≤ (M.content store.new).capacity) }
    ensures reserve_keeps_all { Keeps (M.content store.old) (M.content store.new) }
    ensures reserve_loses_no_capacity { (M.content store.old).capacity ≤ (M.content store.new).capacity }
    // Where there is room already, it succeeds and changes nothing.
    // Refuses `reserve_takes_more_where_there_is_room`.
    ensures reserve_with_room_succeeds { additional ≤ (M.content store.old).room → IsOk result }
    ensures reserve_with_room_changes_nothing { additional ≤ (M.content store.old).room → M.content store.new ≡ M.content store.old }
    // It fails with `TooGreat` exactly above the limit.
    // Holds by `err` of `reserve` and `err` of `try_reserve`.
    ensures reserve_is_too_great_above_the_limit { result ≡ Err ReserveError.TooGreat → most < used (M.content store.old) + additional }
    ensures reserve_succeeds_within_it { OnOk result (used (M.content store.old) + additional ≤ most) }
    ensures reserve_needs_memory_within_it { result ≡ Err ReserveError.Memory → used (M.content store.old) + additional ≤ most }
{
    if tries {
        store.try_reserve(additional)
    } else {
        store.reserve(additional)
    }
}

/// Guards of `clear`.
pub fn clear<K: Key, V: Drop, M: Primary<K, V>>(store: &mut M)
    // No key is live. A detached key stays detached. There are as many slots and as much capacity as
    // before.
    // Refuses `clear_leaves_the_first_key`, `clear_frees_a_detached_key`, `clear_reserves`: `empty`,
    // `leaves` and `valid` of `clear`.
    ensures clear_leaves_no_key { (key : KeyOf) → map.get (M.content store.new).live key ≡ None }
    ensures clear_keeps_detached_keys { (M.content store.new).detached ≡ (M.content store.old).detached }
    ensures clear_keeps_slots { places (M.content store.new) ≡ places (M.content store.old) }
    ensures clear_keeps_the_capacity { (M.content store.new).capacity ≡ (M.content store.old).capacity }
    // A slot is retired exactly if its last key is removed. That of each other key is vacant, and its
    // next key is newer.
    // Holds by `leaves` of `clear`.
    ensures clear_retires_after_a_last_key_alone { (key : KeyOf) → set.contains (M.content store.new).retired key
        ≡ (set.contains (M.content store.old).retired key || has_left (M.content store.old) (M.content store.new) key && is_last key) }
    ensures clear_frees_each_slot { (key : KeyOf) → has_left (M.content store.old) (M.content store.new) key ≡ true → is_last key ≡ false →
        map.get (M.content store.new).next key.index ≡ Some (next_version key) }
{
    store.clear();
}

/// Guards of `detach`.
pub fn detach<K: Key, V: Drop, M: Detaching<K, V>>(store: &mut M, key: K) -> Option<V>
    // The key is detached, and its slot is neither vacant nor retired. The capacity stays.
    // Refuses `detach_frees_the_place`, `detach_leaves_the_slot_vacant`, `detach_reserves`: `value`,
    // `detaches` and `valid` of `detach`.
    ensures detached_key_is_kept { IsLive (M.content store.old) (K.data_of key) → (M.content store.new).detached ≡ set.insert (M.content store.old).detached (K.data_of key) }
    ensures detached_slot_is_not_vacant { IsLive (M.content store.old) (K.data_of key) → (M.content store.new).next ≡ (M.content store.old).next }
    ensures detached_slot_is_not_retired { IsLive (M.content store.old) (K.data_of key) → (M.content store.new).retired ≡ (M.content store.old).retired }
    ensures detach_keeps_the_capacity { (M.content store.new).capacity ≡ (M.content store.old).capacity }
{
    store.detach(key)
}

/// Guards of `reattach`.
pub fn reattach<K: Key, V: Drop, M: Detaching<K, V>>(
    store: &mut M,
    key: K,
    value: V,
) -> Result<(), ReattachError<V>>
    // A key that was detached has the value, and is detached no longer. Every other key has its own
    // value, and no slot changes.
    // Refuses `reattach_accepts_any_key_that_is_not_live`: `ok` of `reattach`.
    ensures reattached_key_was_detached { OnOk result (IsDetached (M.content store.old) (K.data_of key)) }
    ensures reattached_key_has_the_value { OnOk result ((M.content store.new).live ≡ map.insert (M.content store.old).live (K.data_of key) value) }
    ensures reattached_key_is_detached_no_longer { OnOk result ((M.content store.new).detached ≡ set.remove (M.content store.old).detached (K.data_of key)) }
    ensures reattach_keeps_slots { OnOk result ((M.content store.new).next ≡ (M.content store.old).next) }
    // With room a detached key is bound, and the capacity stays. A map that reuses its slots needs none.
    // Where the call fails, the map holds what it held.
    // Holds by `err` and `valid` of `reattach`.
    ensures reattach_with_room_succeeds { 0 < (M.content store.old).room → IsDetached (M.content store.old) (K.data_of key) → IsOk result }
    ensures reattach_with_room_keeps_the_capacity { 0 < (M.content store.old).room → (M.content store.new).capacity ≡ (M.content store.old).capacity }
    ensures reattach_where_slots_are_reused_succeeds { M.REUSES ≡ true → IsDetached (M.content store.old) (K.data_of key) → IsOk result }
    ensures failed_reattach_keeps_all { OnErr result (Keeps (M.content store.old) (M.content store.new)) }
{
    store.reattach(key, value)
}
