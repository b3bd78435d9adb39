//! The calls of a map of keys alone: those of `SlotMap<DefaultKey, ()>`.

ghost use Rattle.std.specs.FinMap as map;
ghost use Rattle.std.specs.Prelude.{◌≡◌, ◌∷◌, [], ◌≢◌, ◌≤◌, IfSome, IfNone, true, false, length, min, map as list_map};
ghost use Rattle.slotmap_core.specs.Words.{HasVacant, IsContent, Removes, Detaches, StaysValid, MayGrow, Leaves, FreesByIndex, MakesRoom, places, ffi};
ghost use Rattle.slotmap_c.specs.Calls.{key_of, above, ListsFirst, OpensWith, NewSays, CloneSays, ReserveSays, InsertSays, DeleteSays, ReattachSays, NextKeySays};
ghost use Rattle.slotmap_c.specs.Held.{nothing};
ghost use Rattle.slotmap_c.specs.Status.{ok};

use crate::iterating::number_of;
use crate::keyed::key;
use crate::status::{CLOSED, FULL, NO_MEMORY, NO_MORE, NOT_DETACHED, NOT_LIVE, OK, OPEN};
use slotmap_core::errors::{InsertError, ReserveError};
use slotmap_core::keys::{DefaultKey, Key};
use std::alloc::Global;

pub(crate) mod handle;

use handle::{KeyMap, KeysHandle};

// Opens a closed handle with a map.
fn opens(alloc: Global, this: &mut KeysHandle, made: KeyMap) -> u32
    requires { this.old.is_open ≡ false }
    ensures { OpensWith made this.old.map result this.new.is_open this.new.map }
{
    match Box::new(alloc, made) {
        Ok(inside) => {
            this.put(inside);
            OK
        }
        Err(_) => NO_MEMORY,
    }
}

/// Makes an empty map in a closed handle.
#[unsafe(no_mangle)]
pub extern "C" fn slotmap_keys_open(alloc: Global, this: &mut KeysHandle) -> u32
    ensures says { NewSays this.old.is_open this.old.map result this.new.is_open this.new.map }
    ensures valid { result ≡ ok → IsContent true this.new.map }
{
    if !this.is_closed() {
        return OPEN;
    }
    match KeyMap::new(alloc) {
        Ok(made) => opens(alloc, this, made),
        Err(_) => NO_MEMORY,
    }
}

/// Frees the map of an open handle, which is closed then. A closed handle stays closed.
#[unsafe(no_mangle)]
pub extern "C" fn slotmap_keys_free(alloc: Global, this: &mut KeysHandle)
    ensures open { this.new.is_open ≡ false }
    ensures map { this.new.map ≡ nothing }
{
    let _inside = this.take(alloc);
}

/// Makes a copy of an open handle's map in a closed handle.
#[unsafe(no_mangle)]
pub extern "C" fn slotmap_keys_clone(
    alloc: Global,
    this: &mut KeysHandle,
    copy: &mut KeysHandle,
) -> u32
    ensures says { CloneSays this.old.is_open this.old.map copy.old.is_open copy.old.map result copy.new.is_open copy.new.map }
    ensures valid { result ≡ ok → IsContent true copy.new.map }
    ensures open { this.new.is_open ≡ this.old.is_open }
    ensures map { this.new.map ≡ this.old.map }
{
    if this.is_closed() {
        return CLOSED;
    }
    if !copy.is_closed() {
        return OPEN;
    }
    match KeyMap::clone(this.inside()) {
        Ok(made) => opens(alloc, copy, made),
        Err(_) => NO_MEMORY,
    }
}

/// Returns the number of live keys.
#[unsafe(no_mangle)]
pub extern "C" fn slotmap_keys_len(this: &mut KeysHandle) -> usize
    ensures value { result ≡ map.len this.old.map.live }
    ensures open { this.new.is_open ≡ this.old.is_open }
    ensures map { this.new.map ≡ this.old.map }
{
    if this.is_closed() {
        return 0;
    }
    this.inside().len()
}

/// Returns the number of slots for which memory is allocated.
#[unsafe(no_mangle)]
pub extern "C" fn slotmap_keys_capacity(this: &mut KeysHandle) -> usize
    ensures value { result ≡ this.old.map.capacity }
    ensures places { this.old.is_open ≡ true → places this.old.map ≤ result }
    ensures open { this.new.is_open ≡ this.old.is_open }
    ensures map { this.new.map ≡ this.old.map }
{
    if this.is_closed() {
        return 0;
    }
    this.inside().capacity()
}

/// Reserves room for `additional` more keys.
#[unsafe(no_mangle)]
pub extern "C" fn slotmap_keys_reserve(this: &mut KeysHandle, additional: usize) -> u32
    ensures says { ReserveSays this.old.is_open this.old.map additional result this.new.map }
    ensures makes_room { this.old.is_open ≡ true → MakesRoom true this.old.map additional (result ≡ ok) this.new.map }
    ensures unchanged { this.old.is_open ≡ false → this.new.map ≡ this.old.map }
    ensures open { this.new.is_open ≡ this.old.is_open }
{
    if this.is_closed() {
        return CLOSED;
    }
    match this.inside().reserve(additional) {
        Ok(()) => OK,
        Err(ReserveError::TooGreat) => FULL,
        Err(ReserveError::Memory) => NO_MEMORY,
    }
}

/// Removes every live key.
#[unsafe(no_mangle)]
pub extern "C" fn slotmap_keys_clear(this: &mut KeysHandle)
    ensures empty { this.new.map.live ≡ map.empty }
    ensures leaves { this.old.is_open ≡ true → Leaves this.old.map this.new.map }
    ensures freed_order { this.old.is_open ≡ true → FreesByIndex this.old.map this.new.map }
    ensures valid { this.old.is_open ≡ true → StaysValid true this.old.map this.new.map }
    ensures unchanged { this.old.is_open ≡ false → this.new.map ≡ this.old.map }
    ensures open { this.new.is_open ≡ this.old.is_open }
{
    if !this.is_closed() {
        this.inside().clear();
    }
}

/// Inserts a new key, and writes its number.
#[unsafe(no_mangle)]
pub extern "C" fn slotmap_keys_insert(this: &mut KeysHandle, out: &mut u64) -> u32
    ensures says { InsertSays this.old.is_open this.old.map tt result out.old out.new this.new.map }
    ensures reuses { this.old.is_open ≡ true → HasVacant this.old.map → result ≡ ok }
    ensures valid { this.old.is_open ≡ true → MayGrow true this.old.map (result ≢ ok) this.new.map }
    ensures open { this.new.is_open ≡ this.old.is_open }
{
    if this.is_closed() {
        return CLOSED;
    }
    match this.inside().insert(()) {
        Ok(key) => {
            *out = number_of(key);
            OK
        }
        Err(InsertError::Full(_)) => FULL,
        Err(InsertError::Memory(_)) => NO_MEMORY,
    }
}

/// Returns whether a key is live.
#[unsafe(no_mangle)]
pub extern "C" fn slotmap_keys_contains(this: &mut KeysHandle, number: u64) -> bool
    ensures value { result ≡ map.contains_key this.old.map.live (key_of number) }
    ensures open { this.new.is_open ≡ this.old.is_open }
    ensures map { this.new.map ≡ this.old.map }
{
    if this.is_closed() {
        return false;
    }
    this.inside().contains_key(key(number))
}

/// Removes a live key.
#[unsafe(no_mangle)]
pub extern "C" fn slotmap_keys_remove(this: &mut KeysHandle, number: u64) -> u32
    ensures says { DeleteSays (map.contains_key this.old.map.live (key_of number)) result }
    ensures removes { result ≡ ok → Removes this.old.map (key_of number) this.new.map }
    ensures unchanged { result ≢ ok → this.new.map ≡ this.old.map }
    ensures live { this.new.map.live ≡ map.remove this.old.map.live (key_of number) }
    ensures valid { this.old.is_open ≡ true → StaysValid true this.old.map this.new.map }
    ensures open { this.new.is_open ≡ this.old.is_open }
{
    if this.is_closed() {
        return NOT_LIVE;
    }
    if this.inside().remove(key(number)).is_some() {
        OK
    } else {
        NOT_LIVE
    }
}

/// Detaches a live key, whose slot is kept.
#[unsafe(no_mangle)]
pub extern "C" fn slotmap_keys_detach(this: &mut KeysHandle, number: u64) -> u32
    ensures says { DeleteSays (map.contains_key this.old.map.live (key_of number)) result }
    ensures detaches { result ≡ ok → Detaches this.old.map (key_of number) this.new.map }
    ensures unchanged { result ≢ ok → this.new.map ≡ this.old.map }
    ensures live { this.new.map.live ≡ map.remove this.old.map.live (key_of number) }
    ensures valid { this.old.is_open ≡ true → StaysValid true this.old.map this.new.map }
    ensures open { this.new.is_open ≡ this.old.is_open }
{
    if this.is_closed() {
        return NOT_LIVE;
    }
    if this.inside().detach(key(number)).is_some() {
        OK
    } else {
        NOT_LIVE
    }
}

/// Makes a detached key live again.
#[unsafe(no_mangle)]
pub extern "C" fn slotmap_keys_reattach(this: &mut KeysHandle, number: u64) -> u32
    ensures says { ReattachSays this.old.map (key_of number) tt result this.new.map }
    ensures valid { this.old.is_open ≡ true → StaysValid true this.old.map this.new.map }
    ensures open { this.new.is_open ≡ this.old.is_open }
{
    if this.is_closed() {
        return NOT_DETACHED;
    }
    match this.inside().reattach(key(number), ()) {
        Ok(()) => OK,
        Err(_) => NOT_DETACHED,
    }
}

/// Writes the live key with the least index above that of a key.
#[unsafe(no_mangle)]
pub extern "C" fn slotmap_keys_next(this: &mut KeysHandle, number: u64, out: &mut u64) -> u32
    ensures says { NextKeySays this.old.map (key_of number).index result out.old out.new }
    ensures open { this.new.is_open ≡ this.old.is_open }
    ensures map { this.new.map ≡ this.old.map }
{
    if this.is_closed() {
        return NO_MORE;
    }
    match this.inside().next_after(Some(key(number))) {
        Some((found, _)) => {
            *out = number_of(found);
            OK
        }
        None => NO_MORE,
    }
}

// Returns the next live key after another, with its number.
#[inline(always)]
fn next_key(inside: &KeyMap, last: DefaultKey) -> Option<(DefaultKey, u64)>
    ensures number { IfSome result (λ next. next.1 ≡ ffi next.0) }
    ensures some { IfSome result (λ next. map.entries (above last.index inside.now.live)
        ≡ (next.0, tt) ∷ map.entries (above next.0.index inside.now.live)) }
    ensures none { IfNone result (map.entries (above last.index inside.now.live) ≡ []) }
{
    match inside.next_after(Some(last)) {
        Some((found, _)) => Some((found, number_of(found))),
        None => None,
    }
}

// Writes the live keys of an index above that of a key, by ascending index, as far as the array
// goes.
fn list_after(inside: &KeyMap, start: DefaultKey, keys: &mut [u64]) -> usize
    ensures count { result ≡ min (length keys.old) (map.len (above start.index inside.now.live)) }
    ensures keys { ListsFirst result (list_map (λ pair. ffi pair.0) (map.entries (above start.index inside.now.live))) keys.old keys.new }
{
    let mut last = start;
    let mut count = 0;
    while count < keys.len() {
        let Some((found, number)) = next_key(inside, last) else {
            break;
        };
        keys[count] = number;
        count += 1;
        last = found;
    }
    count
}

/// Writes the live keys of an index above that of a key, by ascending index, as far as the array
/// goes, and returns how many it wrote.
#[unsafe(no_mangle)]
pub extern "C" fn slotmap_keys_list_after(
    this: &mut KeysHandle,
    number: u64,
    keys: &mut [u64],
) -> usize
    ensures count { result ≡ min (length keys.old) (map.len (above (key_of number).index this.old.map.live)) }
    ensures keys { ListsFirst result (list_map (λ pair. ffi pair.0) (map.entries (above (key_of number).index this.old.map.live))) keys.old keys.new }
    ensures open { this.new.is_open ≡ this.old.is_open }
    ensures map { this.new.map ≡ this.old.map }
{
    if this.is_closed() {
        return 0;
    }
    list_after(this.inside(), key(number), keys)
}
