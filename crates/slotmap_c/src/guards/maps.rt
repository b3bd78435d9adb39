//! Guards of the calls of a map.
#![tactic(auto, using(crate::proofs::GuardLemmas::calls))]

ghost use Rattle.std.specs.FinMap as map;
ghost use Rattle.std.specs.Prelude.{◌≡◌, ◌≢◌, ◌≤◌, Some, None, true, false};
ghost use Rattle.slotmap_core.specs.Words.{IsLive, IsDetached, places, used, most, Key, ffi};
ghost use Rattle.slotmap_c.specs.Calls.{key_of};
ghost use Rattle.slotmap_c.specs.Status.{ok, closed, no_more};

use crate::handle::Handle;
use crate::iterating::slotmap_next;
use crate::keyed::{
    slotmap_contains, slotmap_delete, slotmap_detach, slotmap_get, slotmap_insert,
    slotmap_reattach, slotmap_remove, slotmap_set,
};
use crate::whole::{
    slotmap_capacity, slotmap_clear, slotmap_clone, slotmap_free, slotmap_len, slotmap_reserve,
};
use std::alloc::Global;

/// The key that is written has the value.
/// Refuses `insert_inserts_another_value`, `insert_writes_another_key`: `says` of `slotmap_insert`.
fn inserted_value_is_found(this: &mut Handle, value: u64, out: &mut u64) -> u32
    ensures { result ≡ ok → map.get this.new.map.live (key_of out.new) ≡ Some value }
{
    slotmap_insert(this, value, out)
}

/// At the limit no key is made.
/// Refuses `insert_says_ok_where_the_map_is_full`: `says` of `slotmap_insert`.
fn insert_into_a_full_map_fails(this: &mut Handle, value: u64, out: &mut u64) -> u32
    ensures { used this.old.map ≡ most → result ≢ ok }
{
    slotmap_insert(this, value, out)
}

/// Where it fails, it writes nothing, and no key is lost.
/// Holds by `says` of `slotmap_insert`.
fn failed_insert_writes_nothing(this: &mut Handle, value: u64, out: &mut u64) -> u32
    ensures { result ≢ ok → (out.new ≡ out.old) × (this.new.map.live ≡ this.old.map.live) }
{
    slotmap_insert(this, value, out)
}

/// A closed handle takes no value.
/// Holds by `says` of `slotmap_insert`.
fn insert_into_a_closed_handle_fails(this: &mut Handle, value: u64, out: &mut u64) -> u32
    ensures { this.old.is_open ≡ false → result ≡ closed }
{
    slotmap_insert(this, value, out)
}

/// The answer is true of the live keys alone.
/// Refuses `contains_says_the_reverse`: `value` of `slotmap_contains`.
fn contained_key_is_live(this: &mut Handle, number: u64) -> bool
    ensures { result ≡ true → IsLive this.old.map (key_of number) }
{
    slotmap_contains(this, number)
}

/// The value that is written is that of the key.
/// Refuses `get_reads_another_key`: `says` of `slotmap_get`.
fn value_that_is_read_is_the_keys(this: &mut Handle, number: u64, out: &mut u64) -> u32
    ensures { result ≡ ok → map.get this.old.map.live (key_of number) ≡ Some out.new }
{
    slotmap_get(this, number, out)
}

/// Where the key isn't live, nothing is written.
/// Refuses `a_look_up_that_fails_writes`: `says` of `slotmap_get`.
fn failed_get_writes_nothing(this: &mut Handle, number: u64, out: &mut u64) -> u32
    ensures { result ≢ ok → out.new ≡ out.old }
{
    slotmap_get(this, number, out)
}

/// A look-up leaves the handle and its map as they were.
/// Holds by `map` of `slotmap_get`.
fn get_changes_nothing(this: &mut Handle, number: u64, out: &mut u64) -> u32
    ensures map { this.new.map ≡ this.old.map }
    ensures open { this.new.is_open ≡ this.old.is_open }
{
    slotmap_get(this, number, out)
}

/// The key has the new value.
/// Refuses `set_writes_another_value`: `replaces` of `slotmap_set`.
fn value_that_is_set_is_found(this: &mut Handle, number: u64, value: u64, out: &mut u64) -> u32
    ensures { result ≡ ok → map.get this.new.map.live (key_of number) ≡ Some value }
{
    slotmap_set(this, number, value, out)
}

/// The value that is written is the one that the key had.
/// Refuses `set_hands_the_new_value_back`: `says` of `slotmap_set`.
fn set_writes_the_old_value(this: &mut Handle, number: u64, value: u64, out: &mut u64) -> u32
    ensures { result ≡ ok → map.get this.old.map.live (key_of number) ≡ Some out.new }
{
    slotmap_set(this, number, value, out)
}

/// The key isn't live afterwards.
/// Holds by `live` of `slotmap_remove`.
fn removed_key_is_gone(this: &mut Handle, number: u64, out: &mut u64) -> u32
    ensures { map.get this.new.map.live (key_of number) ≡ None }
{
    slotmap_remove(this, number, out)
}

/// No slot is kept for it.
/// Refuses `remove_detaches`: `removes` of `slotmap_remove`.
fn removed_key_is_not_detached(this: &mut Handle, number: u64, out: &mut u64) -> u32
    ensures { result ≡ ok → this.new.map.detached ≡ this.old.map.detached }
{
    slotmap_remove(this, number, out)
}

/// The key isn't live afterwards.
/// Refuses `delete_deletes_nothing`: `live` of `slotmap_delete`.
fn deleted_key_is_gone(this: &mut Handle, number: u64) -> u32
    ensures { map.get this.new.map.live (key_of number) ≡ None }
{
    slotmap_delete(this, number)
}

/// Its slot is kept.
/// Refuses `detach_removes`: `detaches` of `slotmap_detach`.
fn detached_key_is_kept(this: &mut Handle, number: u64, out: &mut u64) -> u32
    ensures { result ≡ ok → IsDetached this.new.map (key_of number) }
{
    slotmap_detach(this, number, out)
}

/// The key has the value.
/// Refuses `reattach_binds_another_value`: `says` of `slotmap_reattach`.
fn reattached_key_has_the_value(this: &mut Handle, number: u64, value: u64) -> u32
    ensures { result ≡ ok → map.get this.new.map.live (key_of number) ≡ Some value }
{
    slotmap_reattach(this, number, value)
}

/// An empty map has no key.
/// Refuses `len_counts_slots`: `value` of `slotmap_len`.
fn len_of_no_key_is_0(this: &mut Handle) -> usize
    ensures { this.old.map.live ≡ map.empty → result ≡ 0 }
{
    slotmap_len(this)
}

/// Each slot has memory.
/// Refuses `capacity_counts_live_keys`: `places` of `slotmap_capacity`.
fn capacity_is_for_every_slot(this: &mut Handle) -> usize
    ensures { this.old.is_open ≡ true → places this.old.map ≤ result }
{
    slotmap_capacity(this)
}

/// There is room for so many keys.
/// Refuses `reserve_reserves_nothing`: `says` of `slotmap_reserve`.
fn reserved_room_is_there(this: &mut Handle, additional: usize) -> u32
    ensures { result ≡ ok → additional ≤ this.new.map.room }
{
    slotmap_reserve(this, additional)
}

/// No key is live afterwards.
/// Refuses `clear_clears_nothing`: `empty` of `slotmap_clear`.
fn cleared_map_has_no_key(this: &mut Handle)
    ensures { (q : Key) → map.get this.new.map.live q ≡ None }
{
    slotmap_clear(this)
}

/// The copy has each key and its value.
/// Refuses `clone_copies_nothing`: `says` of `slotmap_clone`.
fn copy_has_the_same_keys(alloc: Global, this: &mut Handle, copy: &mut Handle) -> u32
    ensures { result ≡ ok → copy.new.map.live ≡ this.old.map.live }
{
    slotmap_clone(alloc, this, copy)
}

/// An open handle isn't overwritten.
/// Refuses `clone_closes_an_open_copy`: `says` of `slotmap_clone`.
fn open_copy_stays(alloc: Global, this: &mut Handle, copy: &mut Handle) -> u32
    ensures { copy.old.is_open ≡ true → copy.new.is_open ≡ true }
{
    slotmap_clone(alloc, this, copy)
}

/// The handle is closed afterwards, and can be opened.
/// Holds by `open` of `slotmap_free`.
fn freed_handle_is_closed(alloc: Global, this: &mut Handle)
    ensures { this.new.is_open ≡ false }
{
    slotmap_free(alloc, this)
}

/// From a key that none comes after, no key is found.
/// Refuses `next_begins_anew`: `says` of `slotmap_next`.
fn next_finds_no_key_after_the_last(
    this: &mut Handle,
    number: u64,
    key_out: &mut u64,
    value_out: &mut u64,
) -> u32
    ensures { ((other : Key) → IsLive this.old.map other → other.index ≤ (key_of number).index) → result ≡ no_more }
{
    slotmap_next(this, number, key_out, value_out)
}

/// What is written are the number of a live key, and its value.
/// Refuses `next_writes_another_value`, `next_writes_the_old_key`: `says` of `slotmap_next`.
fn next_value_is_the_keys(
    this: &mut Handle,
    number: u64,
    key_out: &mut u64,
    value_out: &mut u64,
) -> u32
    ensures { result ≡ ok → (key : Key) × (key_out.new ≡ ffi key) × (map.get this.old.map.live key ≡ Some value_out.new) }
{
    slotmap_next(this, number, key_out, value_out)
}

/// Where no key comes later, nothing is written.
/// Refuses `next_says_no_more_where_it_wrote`: `says` of `slotmap_next`.
fn next_writes_only_what_it_found(
    this: &mut Handle,
    number: u64,
    key_out: &mut u64,
    value_out: &mut u64,
) -> u32
    ensures { result ≡ no_more → (key_out.new ≡ key_out.old) × (value_out.new ≡ value_out.old) }
{
    slotmap_next(this, number, key_out, value_out)
}
