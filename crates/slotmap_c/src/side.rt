//! The calls of a side table: values of 64 bits under the keys of a map.

ghost use Rattle.std.specs.FinMap as map;
ghost use Rattle.std.specs.Prelude.{◌≡◌, ◌≢◌, ◌≤◌, true, false, length, min, map as list_map};
ghost use Rattle.slotmap_core.specs.Words.{get, contains_key, remove, most, keyed, ffi};
ghost use Rattle.slotmap_secondary.specs.Content.{IsSideContent};
ghost use Rattle.slotmap_c.specs.Calls.{key_of, FindSays, ListsFirst};
ghost use Rattle.slotmap_c.specs.Side.{no_side};
ghost use Rattle.slotmap_c.specs.SideCalls.{SideOpensWith, SideNewSays, SideCloneSays, SideReserveSays, PutSays, SidePutSays, numbered, WritesPair};
ghost use Rattle.slotmap_c.specs.Status.{ok, no_memory};

use crate::keyed::{found, key};
use crate::status::{CLOSED, FULL, NO_ENTRY, NO_MEMORY, OK, OPEN};
use slotmap_core::errors::ReserveError;
use slotmap_core::keys::{DefaultKey, Key};
use std::alloc::Global;

pub(crate) mod handle;

use handle::{Side, SideHandle};

// Opens a closed handle with a side table.
fn opens(alloc: Global, this: &mut SideHandle, made: Side) -> u32
    requires { this.old.is_open ≡ false }
    ensures { SideOpensWith made this.old.side result this.new.is_open this.new.side }
{
    match Box::new(alloc, made) {
        Ok(inside) => {
            this.put(inside);
            OK
        }
        Err(_) => NO_MEMORY,
    }
}

/// Makes an empty side table in a closed handle.
#[unsafe(no_mangle)]
pub extern "C" fn slotmap_side_new(alloc: Global, this: &mut SideHandle) -> u32
    ensures says { SideNewSays this.old.is_open this.old.side result this.new.is_open this.new.side }
    ensures valid { result ≡ ok → IsSideContent this.new.side }
{
    if !this.is_closed() {
        return OPEN;
    }
    match Side::new(alloc) {
        Ok(made) => opens(alloc, this, made),
        Err(_) => NO_MEMORY,
    }
}

/// Frees the table of an open handle, which is closed then. A closed handle stays closed.
#[unsafe(no_mangle)]
pub extern "C" fn slotmap_side_free(alloc: Global, this: &mut SideHandle)
    ensures open { this.new.is_open ≡ false }
    ensures side { this.new.side ≡ no_side }
{
    let _inside = this.take(alloc);
}

/// Makes a copy of an open handle's table in a closed handle.
#[unsafe(no_mangle)]
pub extern "C" fn slotmap_side_clone(
    alloc: Global,
    this: &mut SideHandle,
    copy: &mut SideHandle,
) -> u32
    ensures says { SideCloneSays this.old.is_open this.old.side copy.old.is_open copy.old.side result copy.new.is_open copy.new.side }
    ensures valid { result ≡ ok → IsSideContent copy.new.side }
    ensures open { this.new.is_open ≡ this.old.is_open }
    ensures side { this.new.side ≡ this.old.side }
{
    if this.is_closed() {
        return CLOSED;
    }
    if !copy.is_closed() {
        return OPEN;
    }
    match Side::clone(this.inside()) {
        Ok(made) => opens(alloc, copy, made),
        Err(_) => NO_MEMORY,
    }
}

/// Returns the number of keys.
#[unsafe(no_mangle)]
pub extern "C" fn slotmap_side_len(this: &mut SideHandle) -> usize
    ensures value { result ≡ map.len this.old.side.pairs }
    ensures open { this.new.is_open ≡ this.old.is_open }
    ensures side { this.new.side ≡ this.old.side }
{
    if this.is_closed() {
        return 0;
    }
    this.inside().len()
}

/// Returns the largest index for which memory is allocated.
#[unsafe(no_mangle)]
pub extern "C" fn slotmap_side_capacity(this: &mut SideHandle) -> usize
    ensures value { result ≡ this.old.side.capacity }
    ensures open { this.new.is_open ≡ this.old.is_open }
    ensures side { this.new.side ≡ this.old.side }
{
    if this.is_closed() {
        return 0;
    }
    this.inside().capacity()
}

/// Allocates memory for each index up to `capacity`.
#[unsafe(no_mangle)]
pub extern "C" fn slotmap_side_reserve(this: &mut SideHandle, capacity: usize) -> u32
    ensures says { SideReserveSays this.old.is_open this.old.side capacity result this.new.side }
    ensures keeps { this.new.side ≡ record this.old.side { capacity = this.new.side.capacity } }
    ensures limit { result ≡ ok → capacity ≤ most }
    ensures grows { this.old.side.capacity ≤ this.new.side.capacity }
    ensures room { this.old.is_open ≡ true → capacity ≤ this.old.side.capacity → capacity ≤ most → result ≡ ok }
    ensures had_room { capacity ≤ this.old.side.capacity → this.new.side ≡ this.old.side }
    ensures unchanged { result ≢ ok → this.new.side ≡ this.old.side }
    ensures valid { this.old.is_open ≡ true → IsSideContent this.new.side }
    ensures open { this.new.is_open ≡ this.old.is_open }
{
    if this.is_closed() {
        return CLOSED;
    }
    match this.inside().set_capacity(capacity) {
        Ok(()) => OK,
        Err(ReserveError::TooGreat) => FULL,
        Err(ReserveError::Memory) => NO_MEMORY,
    }
}

/// Removes all keys.
#[unsafe(no_mangle)]
pub extern "C" fn slotmap_side_clear(this: &mut SideHandle)
    ensures empty { this.new.side ≡ record this.old.side { pairs = map.empty } }
    ensures valid { this.old.is_open ≡ true → IsSideContent this.new.side }
    ensures open { this.new.is_open ≡ this.old.is_open }
{
    if !this.is_closed() {
        this.inside().clear();
    }
}

// Puts a value under a key, unless the key has no entry.
fn put(inside: &mut Side, key: DefaultKey, value: u64) -> u32
    ensures says { PutSays inside.old key value result inside.new }
    ensures room { key.index ≤ inside.old.capacity → result ≢ no_memory }
    ensures valid { IsSideContent inside.new }
{
    match inside.insert(key, value) {
        Ok(_) => {
            if inside.contains_key(key) {
                OK
            } else {
                NO_ENTRY
            }
        }
        Err(_) => NO_MEMORY,
    }
}

/// Puts a value under a key, in place of the value of this key or of an older one at its index.
#[unsafe(no_mangle)]
pub extern "C" fn slotmap_side_put(this: &mut SideHandle, number: u64, value: u64) -> u32
    ensures says { SidePutSays this.old.is_open this.old.side (key_of number) value result this.new.side }
    ensures room { (key_of number).index ≤ this.old.side.capacity → result ≢ no_memory }
    ensures valid { this.old.is_open ≡ true → IsSideContent this.new.side }
    ensures open { this.new.is_open ≡ this.old.is_open }
{
    if this.is_closed() {
        return CLOSED;
    }
    put(this.inside(), key(number), value)
}

// Returns the key at an index as a number, and its value.
fn pair_at(inside: &Side, index: usize) -> Option<(u64, u64)>
    ensures { result ≡ numbered index (map.get inside.now.pairs index) }
{
    match inside.key_at(index) {
        Some(key) => Some((key.data().as_ffi(), *inside.get_unchecked(key))),
        None => None,
    }
}

// Writes a key and its value, or the key 0 and no value.
fn write_pair(pair: Option<(u64, u64)>, key_out: &mut u64, value_out: &mut u64)
    ensures { WritesPair pair key_out.new value_out.old value_out.new }
{
    match pair {
        Some((key, value)) => {
            *key_out = key;
            *value_out = value;
        }
        None => *key_out = 0,
    }
}

/// Puts a value under a key as `slotmap_side_put` does, and writes the key that stood at its index,
/// with its value. It writes the key 0 if none stood there.
#[unsafe(no_mangle)]
pub extern "C" fn slotmap_side_exchange(
    this: &mut SideHandle,
    number: u64,
    value: u64,
    key_out: &mut u64,
    value_out: &mut u64,
) -> u32
    ensures says { SidePutSays this.old.is_open this.old.side (key_of number) value result this.new.side }
    ensures displaces { result ≡ ok → WritesPair (numbered (key_of number).index (map.get this.old.side.pairs (key_of number).index))
        key_out.new value_out.old value_out.new }
    ensures unwritten { result ≢ ok → (key_out.new ≡ key_out.old) × (value_out.new ≡ value_out.old) }
    ensures room { (key_of number).index ≤ this.old.side.capacity → result ≢ no_memory }
    ensures valid { this.old.is_open ≡ true → IsSideContent this.new.side }
    ensures open { this.new.is_open ≡ this.old.is_open }
{
    if this.is_closed() {
        return CLOSED;
    }
    let key = key(number);
    let inside = this.inside();
    let stood = pair_at(inside, key.data().idx() as usize);
    let status = put(inside, key, value);
    if status == OK {
        write_pair(stood, key_out, value_out);
    }
    status
}

/// Returns whether a key has a value.
#[unsafe(no_mangle)]
pub extern "C" fn slotmap_side_contains(this: &mut SideHandle, number: u64) -> bool
    ensures value { result ≡ contains_key this.old.side.pairs (key_of number) }
    ensures open { this.new.is_open ≡ this.old.is_open }
    ensures side { this.new.side ≡ this.old.side }
{
    if this.is_closed() {
        return false;
    }
    this.inside().contains_key(key(number))
}

/// Writes the value of a key.
#[unsafe(no_mangle)]
pub extern "C" fn slotmap_side_get(this: &mut SideHandle, number: u64, out: &mut u64) -> u32
    ensures says { FindSays (get this.old.side.pairs (key_of number)) result out.old out.new }
    ensures open { this.new.is_open ≡ this.old.is_open }
    ensures side { this.new.side ≡ this.old.side }
{
    if this.is_closed() {
        return found(None, out);
    }
    let value = match this.inside().get(key(number)) {
        Some(value) => Some(*value),
        None => None,
    };
    found(value, out)
}

/// Removes a key, and writes its value.
#[unsafe(no_mangle)]
pub extern "C" fn slotmap_side_remove(this: &mut SideHandle, number: u64, out: &mut u64) -> u32
    ensures says { FindSays (get this.old.side.pairs (key_of number)) result out.old out.new }
    ensures removes { this.new.side ≡ record this.old.side { pairs = remove this.old.side.pairs (key_of number) } }
    ensures valid { this.old.is_open ≡ true → IsSideContent this.new.side }
    ensures open { this.new.is_open ≡ this.old.is_open }
{
    if this.is_closed() {
        return found(None, out);
    }
    found(this.inside().remove(key(number)), out)
}

// Writes the keys and their values, by ascending index, as far as both arrays go.
fn list(inside: &Side, keys: &mut [u64], values: &mut [u64]) -> usize
    ensures count { result ≡ min (min (length keys.old) (length values.old)) (map.len (keyed inside.now.pairs)) }
    ensures keys { ListsFirst result (list_map (λ pair. ffi pair.0) (map.entries (keyed inside.now.pairs))) keys.old keys.new }
    ensures values { ListsFirst result (list_map (λ pair. pair.1) (map.entries (keyed inside.now.pairs))) values.old values.new }
{
    let mut count = 0;
    for (key, value) in inside.iter() {
        if count >= keys.len() || count >= values.len() {
            break;
        }
        keys[count] = key.data().as_ffi();
        values[count] = *value;
        count += 1;
    }
    count
}

/// Writes the keys and their values, by ascending index, as far as both arrays go, and returns how
/// many it wrote.
#[unsafe(no_mangle)]
pub extern "C" fn slotmap_side_list(
    this: &mut SideHandle,
    keys: &mut [u64],
    values: &mut [u64],
) -> usize
    ensures count { result ≡ min (min (length keys.old) (length values.old)) (map.len (keyed this.old.side.pairs)) }
    ensures keys { ListsFirst result (list_map (λ pair. ffi pair.0) (map.entries (keyed this.old.side.pairs))) keys.old keys.new }
    ensures values { ListsFirst result (list_map (λ pair. pair.1) (map.entries (keyed this.old.side.pairs))) values.old values.new }
    ensures open { this.new.is_open ≡ this.old.is_open }
    ensures side { this.new.side ≡ this.old.side }
{
    if this.is_closed() {
        return 0;
    }
    list(this.inside(), keys, values)
}
