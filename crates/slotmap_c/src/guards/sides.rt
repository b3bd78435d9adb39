//! Guards of the calls of a side table.
#![tactic(auto, using(crate::proofs::GuardLemmas::tables))]

ghost use Rattle.std.specs.FinMap as map;
ghost use Rattle.std.specs.Prelude.{◌≡◌, ◌≢◌, ◌≤◌, Some, true};
ghost use Rattle.slotmap_core.specs.Words.{most, get, remove, contains_key};
ghost use Rattle.slotmap_c.specs.Calls.{key_of};
ghost use Rattle.slotmap_c.specs.Status.{ok, no_memory};

use crate::side::handle::SideHandle;
use crate::side::{
    slotmap_side_clone, slotmap_side_contains, slotmap_side_exchange, slotmap_side_get,
    slotmap_side_len, slotmap_side_put, slotmap_side_remove, slotmap_side_reserve,
};
use std::alloc::Global;

/// Where the put succeeds, the key has the value.
/// Refuses `side_put_puts_another_value`, `side_put_says_ok_to_an_older_key`: `says` of `slotmap_side_put`.
fn entry_of_a_put_is_found(this: &mut SideHandle, number: u64, value: u64) -> u32
    ensures { result ≡ ok → get this.new.side.pairs (key_of number) ≡ Some value }
{
    slotmap_side_put(this, number, value)
}

/// Where there is memory for the index, the allocation can't fail.
/// Refuses `side_put_gives_up_at_a_new_key`: `room` of `slotmap_side_put`.
fn put_with_room_never_lacks_memory(this: &mut SideHandle, number: u64, value: u64) -> u32
    ensures { (key_of number).index ≤ this.old.side.capacity → result ≢ no_memory }
{
    slotmap_side_put(this, number, value)
}

/// Where it fails, it writes nothing.
/// Holds by `unwritten` of `slotmap_side_exchange`.
fn failed_exchange_writes_nothing(
    this: &mut SideHandle,
    number: u64,
    value: u64,
    key_out: &mut u64,
    value_out: &mut u64,
) -> u32
    ensures { result ≢ ok → (key_out.new ≡ key_out.old) × (value_out.new ≡ value_out.old) }
{
    slotmap_side_exchange(this, number, value, key_out, value_out)
}

/// The answer is true of the keys of the table alone.
/// Refuses `side_contains_says_the_reverse`: `value` of `slotmap_side_contains`.
fn contained_key_has_an_entry(this: &mut SideHandle, number: u64) -> bool
    ensures { result ≡ true → contains_key this.old.side.pairs (key_of number) ≡ true }
{
    slotmap_side_contains(this, number)
}

/// The value that is written is that of the key.
/// Refuses `side_get_reads_another_key`: `says` of `slotmap_side_get`.
fn side_value_that_is_read_is_the_keys(this: &mut SideHandle, number: u64, out: &mut u64) -> u32
    ensures { result ≡ ok → get this.old.side.pairs (key_of number) ≡ Some out.new }
{
    slotmap_side_get(this, number, out)
}

/// Only the other entries are left.
/// Refuses `side_remove_removes_nothing`: `removes` of `slotmap_side_remove`.
fn side_removal_takes_the_entry_out(this: &mut SideHandle, number: u64, out: &mut u64) -> u32
    ensures { this.new.side.pairs ≡ remove this.old.side.pairs (key_of number) }
{
    slotmap_side_remove(this, number, out)
}

/// An empty table has no key.
/// Refuses `side_len_counts_slots`: `value` of `slotmap_side_len`.
fn side_len_of_no_key_is_0(this: &mut SideHandle) -> usize
    ensures { this.old.side.pairs ≡ map.empty → result ≡ 0 }
{
    slotmap_side_len(this)
}

/// There is memory for each index up to the number.
/// Refuses `side_reserve_reserves_nothing`: `says` of `slotmap_side_reserve`.
fn side_reserve_makes_room(this: &mut SideHandle, capacity: usize) -> u32
    ensures { result ≡ ok → capacity ≤ this.new.side.capacity }
{
    slotmap_side_reserve(this, capacity)
}

/// Where there is memory already, the call can't fail.
/// Refuses `side_reserve_refuses_a_small_capacity`: `room` of `slotmap_side_reserve`.
fn side_reserve_of_what_is_there_succeeds(this: &mut SideHandle, capacity: usize) -> u32
    ensures { this.old.is_open ≡ true → capacity ≤ this.old.side.capacity → capacity ≤ most → result ≡ ok }
{
    slotmap_side_reserve(this, capacity)
}

/// The copy has each key and its value.
/// Refuses `side_clone_copies_nothing`: `says` of `slotmap_side_clone`.
fn side_copy_has_the_same_entries(
    alloc: Global,
    this: &mut SideHandle,
    copy: &mut SideHandle,
) -> u32
    ensures { result ≡ ok → copy.new.side.pairs ≡ this.old.side.pairs }
{
    slotmap_side_clone(alloc, this, copy)
}
