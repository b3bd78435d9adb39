//! The calls for a map as a whole.

ghost use Rattle.std.specs.FinMap as map;
ghost use Rattle.std.specs.Prelude.{◌≡◌, ◌<◌, ◌≤◌, true, false};
ghost use Rattle.slotmap_core.specs.Words.{IsContent, Leaves, FreesByIndex, MakesRoom, StaysValid, places};
ghost use Rattle.slotmap_c.specs.Calls.{OpensWith, NewSays, CloneSays, ReserveSays};
ghost use Rattle.slotmap_c.specs.Held.{nothing};
ghost use Rattle.slotmap_c.specs.Status.{ok};

use crate::handle::{Handle, Map};
use crate::status::{CLOSED, FULL, NO_MEMORY, OK, OPEN};
use slotmap_core::errors::ReserveError;
use std::alloc::Global;

// Opens a closed handle with a map.
fn opens(alloc: Global, this: &mut Handle, made: Map) -> u32
    requires { this.old.is_open ≡ false }
    ensures { OpensWith made this.old.map result this.new.is_open this.new.map }
{
    match Box::new(alloc, made) {
        Ok(inside) => {
            this.put(inside);
            OK
        }
        Err(_) => NO_MEMORY,
    }
}

/// Makes an empty map in a closed handle.
#[unsafe(no_mangle)]
pub extern "C" fn slotmap_new(alloc: Global, this: &mut Handle) -> u32
    ensures says { NewSays this.old.is_open this.old.map result this.new.is_open this.new.map }
    ensures valid { result ≡ ok → IsContent true this.new.map }
{
    if !this.is_closed() {
        return OPEN;
    }
    match Map::new(alloc) {
        Ok(made) => opens(alloc, this, made),
        Err(_) => NO_MEMORY,
    }
}

/// Frees the map of an open handle, which is closed then. A closed handle stays closed.
#[unsafe(no_mangle)]
pub extern "C" fn slotmap_free(alloc: Global, this: &mut Handle)
    ensures open { this.new.is_open ≡ false }
    ensures map { this.new.map ≡ nothing }
{
    let _inside = this.take(alloc);
}

/// Makes a copy of an open handle's map in a closed handle.
#[unsafe(no_mangle)]
pub extern "C" fn slotmap_clone(alloc: Global, this: &mut Handle, copy: &mut Handle) -> u32
    ensures says { CloneSays this.old.is_open this.old.map copy.old.is_open copy.old.map result copy.new.is_open copy.new.map }
    ensures valid { result ≡ ok → IsContent true copy.new.map }
    ensures open { this.new.is_open ≡ this.old.is_open }
    ensures map { this.new.map ≡ this.old.map }
{
    if this.is_closed() {
        return CLOSED;
    }
    if !copy.is_closed() {
        return OPEN;
    }
    match Map::clone(this.inside()) {
        Ok(made) => opens(alloc, copy, made),
        Err(_) => NO_MEMORY,
    }
}

/// Returns the number of live keys.
#[unsafe(no_mangle)]
pub extern "C" fn slotmap_len(this: &mut Handle) -> usize
    ensures value { result ≡ map.len this.old.map.live }
    ensures open { this.new.is_open ≡ this.old.is_open }
    ensures map { this.new.map ≡ this.old.map }
{
    if this.is_closed() {
        return 0;
    }
    this.inside().len()
}

/// Returns the number of slots for which memory is allocated.
#[unsafe(no_mangle)]
pub extern "C" fn slotmap_capacity(this: &mut Handle) -> usize
    ensures value { result ≡ this.old.map.capacity }
    ensures places { this.old.is_open ≡ true → places this.old.map ≤ result }
    ensures open { this.new.is_open ≡ this.old.is_open }
    ensures map { this.new.map ≡ this.old.map }
{
    if this.is_closed() {
        return 0;
    }
    this.inside().capacity()
}

/// Reserves room for `additional` more keys.
#[unsafe(no_mangle)]
pub extern "C" fn slotmap_reserve(this: &mut Handle, additional: usize) -> u32
    ensures says { ReserveSays this.old.is_open this.old.map additional result this.new.map }
    ensures makes_room { this.old.is_open ≡ true → MakesRoom true this.old.map additional (result ≡ ok) this.new.map }
    ensures unchanged { this.old.is_open ≡ false → this.new.map ≡ this.old.map }
    ensures open { this.new.is_open ≡ this.old.is_open }
{
    if this.is_closed() {
        return CLOSED;
    }
    match this.inside().reserve(additional) {
        Ok(()) => OK,
        Err(ReserveError::TooGreat) => FULL,
        Err(ReserveError::Memory) => NO_MEMORY,
    }
}

/// Removes every live key.
#[unsafe(no_mangle)]
pub extern "C" fn slotmap_clear(this: &mut Handle)
    ensures empty { this.new.map.live ≡ map.empty }
    ensures leaves { this.old.is_open ≡ true → Leaves this.old.map this.new.map }
    ensures freed_order { this.old.is_open ≡ true → FreesByIndex this.old.map this.new.map }
    ensures valid { this.old.is_open ≡ true → StaysValid true this.old.map this.new.map }
    ensures unchanged { this.old.is_open ≡ false → this.new.map ≡ this.old.map }
    ensures open { this.new.is_open ≡ this.old.is_open }
{
    if !this.is_closed() {
        this.inside().clear();
    }
}
