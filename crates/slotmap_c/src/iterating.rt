//! The calls that go from one live key to the next.

ghost use Rattle.std.specs.FinMap as map;
ghost use Rattle.std.specs.Prelude.{◌≡◌, ◌∷◌, [], IfSome, IfNone, length, min, map as list_map};
ghost use Rattle.slotmap_core.specs.Words.{ffi};
ghost use Rattle.slotmap_c.specs.Calls.{key_of, NextSays, ListsFirst, above};

use crate::handle::{Handle, Map};
use crate::keyed::key;
use crate::status::{NO_MORE, OK};
use slotmap_core::keys::{DefaultKey, Key};

/// Writes the live key with the least index above that of a key, and its value.
#[unsafe(no_mangle)]
pub extern "C" fn slotmap_next(
    this: &mut Handle,
    number: u64,
    key_out: &mut u64,
    value_out: &mut u64,
) -> u32
    ensures says { NextSays this.old.map (key_of number).index result key_out.old key_out.new value_out.old value_out.new }
    ensures open { this.new.is_open ≡ this.old.is_open }
    ensures map { this.new.map ≡ this.old.map }
{
    if this.is_closed() {
        return NO_MORE;
    }
    match this.inside().next_after(Some(key(number))) {
        Some((found, value)) => {
            *key_out = number_of(found);
            *value_out = *value;
            OK
        }
        None => NO_MORE,
    }
}

// Writes the live keys and their values, by ascending index, as far as both arrays go.
fn list(inside: &Map, keys: &mut [u64], values: &mut [u64]) -> usize
    ensures count { result ≡ min (min (length keys.old) (length values.old)) (map.len inside.now.live) }
    ensures keys { ListsFirst result (list_map (λ pair. ffi pair.0) (map.entries inside.now.live)) keys.old keys.new }
    ensures values { ListsFirst result (list_map (λ pair. pair.1) (map.entries inside.now.live)) values.old values.new }
{
    let mut count = 0;
    for (key, value) in inside.iter() {
        if count >= keys.len() || count >= values.len() {
            break;
        }
        keys[count] = key.data().as_ffi();
        values[count] = *value;
        count += 1;
    }
    count
}

/// Writes the live keys and their values, by ascending index, as far as both arrays go, and returns
/// how many it wrote.
#[unsafe(no_mangle)]
pub extern "C" fn slotmap_list(this: &mut Handle, keys: &mut [u64], values: &mut [u64]) -> usize
    ensures count { result ≡ min (min (length keys.old) (length values.old)) (map.len this.old.map.live) }
    ensures keys { ListsFirst result (list_map (λ pair. ffi pair.0) (map.entries this.old.map.live)) keys.old keys.new }
    ensures values { ListsFirst result (list_map (λ pair. pair.1) (map.entries this.old.map.live)) values.old values.new }
    ensures open { this.new.is_open ≡ this.old.is_open }
    ensures map { this.new.map ≡ this.old.map }
{
    if this.is_closed() {
        return 0;
    }
    list(this.inside(), keys, values)
}

/// Returns the number of a key.
#[inline(always)]
pub(crate) fn number_of(key: DefaultKey) -> u64
    ensures { result ≡ ffi key }
{
    key.data().as_ffi()
}

// Returns the next live key after another, with its number and its value.
#[inline(always)]
fn next_pair(inside: &Map, last: DefaultKey) -> Option<(DefaultKey, (u64, u64))>
    ensures number { IfSome result (λ next. next.1.0 ≡ ffi next.0) }
    ensures some { IfSome result (λ next. map.entries (above last.index inside.now.live)
        ≡ (next.0, next.1.1) ∷ map.entries (above next.0.index inside.now.live)) }
    ensures none { IfNone result (map.entries (above last.index inside.now.live) ≡ []) }
{
    match inside.next_after(Some(last)) {
        Some((found, value)) => Some((found, (number_of(found), *value))),
        None => None,
    }
}

// Writes the live keys of an index above that of a key and their values, by ascending index, as far
// as both arrays go.
fn list_after(inside: &Map, start: DefaultKey, keys: &mut [u64], values: &mut [u64]) -> usize
    ensures count { result ≡ min (min (length keys.old) (length values.old)) (map.len (above start.index inside.now.live)) }
    ensures keys { ListsFirst result (list_map (λ pair. ffi pair.0) (map.entries (above start.index inside.now.live))) keys.old keys.new }
    ensures values { ListsFirst result (list_map (λ pair. pair.1) (map.entries (above start.index inside.now.live))) values.old values.new }
{
    let mut last = start;
    let mut count = 0;
    while count < keys.len() && count < values.len() {
        let Some((found, (number, value))) = next_pair(inside, last) else {
            break;
        };
        keys[count] = number;
        values[count] = value;
        count += 1;
        last = found;
    }
    count
}

/// Writes the live keys of an index above that of a key and their values, by ascending index, as far
/// as both arrays go, and returns how many it wrote.
#[unsafe(no_mangle)]
pub extern "C" fn slotmap_list_after(
    this: &mut Handle,
    number: u64,
    keys: &mut [u64],
    values: &mut [u64],
) -> usize
    ensures count { result ≡ min (min (length keys.old) (length values.old)) (map.len (above (key_of number).index this.old.map.live)) }
    ensures keys { ListsFirst result (list_map (λ pair. ffi pair.0) (map.entries (above (key_of number).index this.old.map.live))) keys.old keys.new }
    ensures values { ListsFirst result (list_map (λ pair. pair.1) (map.entries (above (key_of number).index this.old.map.live))) values.old values.new }
    ensures open { this.new.is_open ≡ this.old.is_open }
    ensures map { this.new.map ≡ this.old.map }
{
    if this.is_closed() {
        return 0;
    }
    list_after(this.inside(), key(number), keys, values)
}
