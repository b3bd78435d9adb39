//! The calls for one key.

ghost use Rattle.std.specs.FinMap as map;
ghost use Rattle.std.specs.Prelude.{◌≡◌, ◌≢◌, true, false};
ghost use Rattle.slotmap_core.specs.Words.{HasVacant, Removes, Detaches, StaysValid, MayGrow, with_value};
ghost use Rattle.slotmap_c.specs.Calls.{key_of, InsertSays, FindSays, DeleteSays, ReattachSays};
ghost use Rattle.slotmap_c.specs.Status.{ok};

use crate::handle::Handle;
use crate::status::{CLOSED, FULL, NO_MEMORY, NOT_DETACHED, NOT_LIVE, OK};
use slotmap_core::errors::InsertError;
use slotmap_core::keys::{DefaultKey, Key, KeyData};

/// Returns the key that a number stands for.
#[inline(always)]
pub(crate) fn key(number: u64) -> DefaultKey
    ensures { result ≡ key_of number }
{
    DefaultKey::from(KeyData::from_ffi(number))
}

/// Writes a value that was found.
#[inline(always)]
pub(crate) fn found(value: Option<u64>, out: &mut u64) -> u32
    ensures { FindSays value result out.old out.new }
{
    match value {
        Some(value) => {
            *out = value;
            OK
        }
        None => NOT_LIVE,
    }
}

/// Inserts a value, and writes the number of its new key.
#[unsafe(no_mangle)]
pub extern "C" fn slotmap_insert(this: &mut Handle, value: u64, out: &mut u64) -> u32
    ensures says { InsertSays this.old.is_open this.old.map value result out.old out.new this.new.map }
    ensures reuses { this.old.is_open ≡ true → HasVacant this.old.map → result ≡ ok }
    ensures valid { this.old.is_open ≡ true → MayGrow true this.old.map (result ≢ ok) this.new.map }
    ensures open { this.new.is_open ≡ this.old.is_open }
{
    if this.is_closed() {
        return CLOSED;
    }
    match this.inside().insert(value) {
        Ok(key) => {
            *out = key.data().as_ffi();
            OK
        }
        Err(InsertError::Full(_)) => FULL,
        Err(InsertError::Memory(_)) => NO_MEMORY,
    }
}

/// Returns whether a key is live.
#[unsafe(no_mangle)]
pub extern "C" fn slotmap_contains(this: &mut Handle, number: u64) -> bool
    ensures value { result ≡ map.contains_key this.old.map.live (key_of number) }
    ensures open { this.new.is_open ≡ this.old.is_open }
    ensures map { this.new.map ≡ this.old.map }
{
    if this.is_closed() {
        return false;
    }
    this.inside().contains_key(key(number))
}

/// Writes the value of a live key.
#[unsafe(no_mangle)]
pub extern "C" fn slotmap_get(this: &mut Handle, number: u64, out: &mut u64) -> u32
    ensures says { FindSays (map.get this.old.map.live (key_of number)) result out.old out.new }
    ensures open { this.new.is_open ≡ this.old.is_open }
    ensures map { this.new.map ≡ this.old.map }
{
    if this.is_closed() {
        return NOT_LIVE;
    }
    let value = match this.inside().get(key(number)) {
        Some(value) => Some(*value),
        None => None,
    };
    found(value, out)
}

/// Sets the value of a live key, and writes the value that it had.
#[unsafe(no_mangle)]
pub extern "C" fn slotmap_set(this: &mut Handle, number: u64, value: u64, out: &mut u64) -> u32
    ensures says { FindSays (map.get this.old.map.live (key_of number)) result out.old out.new }
    ensures replaces { result ≡ ok → this.new.map ≡ with_value this.old.map (key_of number) value }
    ensures unchanged { result ≢ ok → this.new.map ≡ this.old.map }
    ensures valid { this.old.is_open ≡ true → StaysValid true this.old.map this.new.map }
    ensures open { this.new.is_open ≡ this.old.is_open }
{
    if this.is_closed() {
        return NOT_LIVE;
    }
    found(this.inside().replace(key(number), value).ok(), out)
}

/// Removes a live key, and writes its value.
#[unsafe(no_mangle)]
pub extern "C" fn slotmap_remove(this: &mut Handle, number: u64, out: &mut u64) -> u32
    ensures says { FindSays (map.get this.old.map.live (key_of number)) result out.old out.new }
    ensures removes { result ≡ ok → Removes this.old.map (key_of number) this.new.map }
    ensures unchanged { result ≢ ok → this.new.map ≡ this.old.map }
    ensures live { this.new.map.live ≡ map.remove this.old.map.live (key_of number) }
    ensures valid { this.old.is_open ≡ true → StaysValid true this.old.map this.new.map }
    ensures open { this.new.is_open ≡ this.old.is_open }
{
    if this.is_closed() {
        return NOT_LIVE;
    }
    found(this.inside().remove(key(number)), out)
}

/// Removes a live key, and drops its value.
#[unsafe(no_mangle)]
pub extern "C" fn slotmap_delete(this: &mut Handle, number: u64) -> u32
    ensures says { DeleteSays (map.contains_key this.old.map.live (key_of number)) result }
    ensures removes { result ≡ ok → Removes this.old.map (key_of number) this.new.map }
    ensures unchanged { result ≢ ok → this.new.map ≡ this.old.map }
    ensures live { this.new.map.live ≡ map.remove this.old.map.live (key_of number) }
    ensures valid { this.old.is_open ≡ true → StaysValid true this.old.map this.new.map }
    ensures open { this.new.is_open ≡ this.old.is_open }
{
    let mut unread = 0;
    slotmap_remove(this, number, &mut unread)
}

/// Takes out the value of a live key, whose slot is kept, and writes it.
#[unsafe(no_mangle)]
pub extern "C" fn slotmap_detach(this: &mut Handle, number: u64, out: &mut u64) -> u32
    ensures says { FindSays (map.get this.old.map.live (key_of number)) result out.old out.new }
    ensures detaches { result ≡ ok → Detaches this.old.map (key_of number) this.new.map }
    ensures unchanged { result ≢ ok → this.new.map ≡ this.old.map }
    ensures live { this.new.map.live ≡ map.remove this.old.map.live (key_of number) }
    ensures valid { this.old.is_open ≡ true → StaysValid true this.old.map this.new.map }
    ensures open { this.new.is_open ≡ this.old.is_open }
{
    if this.is_closed() {
        return NOT_LIVE;
    }
    found(this.inside().detach(key(number)), out)
}

/// Binds a detached key to a value again.
#[unsafe(no_mangle)]
pub extern "C" fn slotmap_reattach(this: &mut Handle, number: u64, value: u64) -> u32
    ensures says { ReattachSays this.old.map (key_of number) value result this.new.map }
    ensures valid { this.old.is_open ≡ true → StaysValid true this.old.map this.new.map }
    ensures open { this.new.is_open ≡ this.old.is_open }
{
    if this.is_closed() {
        return NOT_DETACHED;
    }
    match this.inside().reattach(key(number), value) {
        Ok(()) => OK,
        Err(_) => NOT_DETACHED,
    }
}
