//! Guards of the calls of a map of keys alone.
#![tactic(auto, using(crate::proofs::GuardLemmas::calls))]

ghost use Rattle.std.specs.FinMap as map;
ghost use Rattle.std.specs.Prelude.{◌≡◌, ◌≢◌, ◌≤◌, None, true, min, length, take, map as list_map};
ghost use Rattle.slotmap_core.specs.Words.{IsLive, IsDetached, places, used, most, Key, ffi};
ghost use Rattle.slotmap_c.specs.Calls.{key_of, above};
ghost use Rattle.slotmap_c.specs.Status.{ok, no_more};

use crate::keys::handle::KeysHandle;
use crate::keys::{
    slotmap_keys_capacity, slotmap_keys_clear, slotmap_keys_clone, slotmap_keys_contains,
    slotmap_keys_detach, slotmap_keys_insert, slotmap_keys_len, slotmap_keys_list_after,
    slotmap_keys_next, slotmap_keys_reattach, slotmap_keys_remove, slotmap_keys_reserve,
};
use std::alloc::Global;

/// The key that is written is live.
/// Refuses `keys_insert_writes_another_key`: `says` of `slotmap_keys_insert`.
fn keys_inserted_key_is_live(this: &mut KeysHandle, out: &mut u64) -> u32
    ensures { result ≡ ok → IsLive this.new.map (key_of out.new) }
{
    slotmap_keys_insert(this, out)
}

/// Only the offered key is added.
/// Holds by `says` of `slotmap_keys_insert`.
fn keys_insert_keeps_other_keys(this: &mut KeysHandle, out: &mut u64) -> u32
    ensures { result ≡ ok → this.new.map.live ≡ map.insert this.old.map.live this.old.map.offer tt }
{
    slotmap_keys_insert(this, out)
}

/// At the limit no key is made.
/// Refuses `keys_insert_says_ok_where_the_map_is_full`: `says` of `slotmap_keys_insert`.
fn keys_insert_into_a_full_map_fails(this: &mut KeysHandle, out: &mut u64) -> u32
    ensures { used this.old.map ≡ most → result ≢ ok }
{
    slotmap_keys_insert(this, out)
}

/// The answer is true of the live keys alone.
/// Refuses `keys_contains_says_the_reverse`: `value` of `slotmap_keys_contains`.
fn keys_contained_key_is_live(this: &mut KeysHandle, number: u64) -> bool
    ensures { result ≡ true → IsLive this.old.map (key_of number) }
{
    slotmap_keys_contains(this, number)
}

/// The key isn't live afterwards.
/// Refuses `keys_remove_removes_nothing`: `live` of `slotmap_keys_remove`.
fn keys_removed_key_is_gone(this: &mut KeysHandle, number: u64) -> u32
    ensures { map.get this.new.map.live (key_of number) ≡ None }
{
    slotmap_keys_remove(this, number)
}

/// No slot is kept for it.
/// Refuses `keys_remove_detaches`: `removes` of `slotmap_keys_remove`.
fn keys_removed_key_is_not_detached(this: &mut KeysHandle, number: u64) -> u32
    ensures { result ≡ ok → this.new.map.detached ≡ this.old.map.detached }
{
    slotmap_keys_remove(this, number)
}

/// A live key can be removed.
/// Refuses `keys_remove_says_the_reverse`: `says` of `slotmap_keys_remove`.
fn keys_removal_of_a_live_key_succeeds(this: &mut KeysHandle, number: u64) -> u32
    ensures { IsLive this.old.map (key_of number) → result ≡ ok }
{
    slotmap_keys_remove(this, number)
}

/// Its slot is kept.
/// Refuses `keys_detach_removes`: `detaches` of `slotmap_keys_detach`.
fn keys_detached_key_is_kept(this: &mut KeysHandle, number: u64) -> u32
    ensures { result ≡ ok → IsDetached this.new.map (key_of number) }
{
    slotmap_keys_detach(this, number)
}

/// The key is live again.
/// Refuses `keys_reattach_binds_another_key`: `says` of `slotmap_keys_reattach`.
fn keys_reattached_key_is_live(this: &mut KeysHandle, number: u64) -> u32
    ensures { result ≡ ok → IsLive this.new.map (key_of number) }
{
    slotmap_keys_reattach(this, number)
}

/// An empty map has no key.
/// Refuses `keys_len_counts_slots`: `value` of `slotmap_keys_len`.
fn keys_len_of_no_key_is_0(this: &mut KeysHandle) -> usize
    ensures { this.old.map.live ≡ map.empty → result ≡ 0 }
{
    slotmap_keys_len(this)
}

/// Each slot has memory.
/// Refuses `keys_capacity_counts_live_keys`: `places` of `slotmap_keys_capacity`.
fn keys_capacity_is_for_every_slot(this: &mut KeysHandle) -> usize
    ensures { this.old.is_open ≡ true → places this.old.map ≤ result }
{
    slotmap_keys_capacity(this)
}

/// There is room for so many keys.
/// Refuses `keys_reserve_reserves_nothing`: `says` of `slotmap_keys_reserve`.
fn keys_reserved_room_is_there(this: &mut KeysHandle, additional: usize) -> u32
    ensures { result ≡ ok → additional ≤ this.new.map.room }
{
    slotmap_keys_reserve(this, additional)
}

/// No key is live afterwards.
/// Refuses `keys_clear_clears_nothing`: `empty` of `slotmap_keys_clear`.
fn keys_cleared_map_has_no_key(this: &mut KeysHandle)
    ensures { (q : Key) → map.get this.new.map.live q ≡ None }
{
    slotmap_keys_clear(this)
}

/// The copy has each key.
/// Refuses `keys_clone_copies_nothing`: `says` of `slotmap_keys_clone`.
fn keys_copy_has_the_same_keys(alloc: Global, this: &mut KeysHandle, copy: &mut KeysHandle) -> u32
    ensures { result ≡ ok → copy.new.map.live ≡ this.old.map.live }
{
    slotmap_keys_clone(alloc, this, copy)
}

/// From a key that none comes after, no key is found.
/// Refuses `keys_next_begins_anew`: `says` of `slotmap_keys_next`.
fn keys_next_finds_no_key_after_the_last(this: &mut KeysHandle, number: u64, out: &mut u64) -> u32
    ensures { ((other : Key) → IsLive this.old.map other → other.index ≤ (key_of number).index) → result ≡ no_more }
{
    slotmap_keys_next(this, number, out)
}

/// What is written is the number of a live key.
/// Refuses `keys_next_writes_the_old_key`: `says` of `slotmap_keys_next`.
fn keys_next_key_is_live(this: &mut KeysHandle, number: u64, out: &mut u64) -> u32
    ensures { result ≡ ok → (key : Key) × (out.new ≡ ffi key) × IsLive this.old.map key }
{
    slotmap_keys_next(this, number, out)
}

/// Where no key comes later, nothing is written.
/// Holds by `says` of `slotmap_keys_next`.
fn keys_next_writes_only_what_it_found(this: &mut KeysHandle, number: u64, out: &mut u64) -> u32
    ensures { result ≡ no_more → out.new ≡ out.old }
{
    slotmap_keys_next(this, number, out)
}

/// An array gets as many keys as it has elements, or as there are.
/// Refuses `keys_list_after_begins_anew`, `keys_list_after_repeats_a_key`: `count` of `slotmap_keys_list_after`.
fn keys_listed_keys_are_as_many_as_fit(
    this: &mut KeysHandle,
    number: u64,
    keys: &mut [u64],
) -> usize
    ensures { result ≡ min (length keys.old) (map.len (above (key_of number).index this.old.map.live)) }
{
    slotmap_keys_list_after(this, number, keys)
}

/// The array begins with the numbers of the first of these keys.
/// Refuses `keys_list_after_writes_another_key`: `keys` of `slotmap_keys_list_after`.
fn keys_listed_keys_are_the_first(this: &mut KeysHandle, number: u64, keys: &mut [u64]) -> usize
    ensures { take result keys.new ≡ take result (list_map (λ pair. ffi pair.0) (map.entries (above (key_of number).index this.old.map.live))) }
{
    slotmap_keys_list_after(this, number, keys)
}
