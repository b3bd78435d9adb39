//! A slot map whose indices stay within a bound, for structures that keep tables beside it.
//!
//! A [`BoundedMap`] is a [`SlotMap`] that counts the room that it promises, although its own vectors may
//! have grown further. So the index of a key never passes [`BoundedMap::capacity`], which
//! [`BoundedMap::reserve`] alone raises, and [`BoundedMap::capacity_for`] tells how far. A structure
//! first makes its tables long enough for that, and then reserves. If one of the two fails, it still
//! has room for all that it promises.
//!
//! Each call costs what the call of the `SlotMap` costs.
//!
//! ```
//! let mut map: BoundedMap<DefaultKey, &str> = BoundedMap::with_capacity(alloc, 1)?;
//! let a = map.insert_reserved("a");
//! assert_eq!(rt; map.capacity_for(6)?, 7);
//! map.reserve(6)?;
//! assert_eq!(rt; map.capacity(), 7);
//! assert_eq!(rt; map.get(a), Some(&"a"));
//! ```
#![tactic(auto, using(slotmap::proofs::Callers::keys))]

ghost use Rattle.std.specs.Prelude.{◌≡◌, ◌≢◌, ◌+◌, ◌-◌, ◌<◌, ◌≤◌, if◌then◌else◌, Some, IfOk, OnOk, OnErr, IfErr, IsOk, IsTrue};
ghost use Rattle.std.specs.Prelude.{◌↔◌, OnSome, IfSome, IfNone, Ok, option_copied, true};
ghost use Rattle.std.specs.FinMap as map;
ghost use Rattle.std.specs.Borrow.{sem};
ghost use Rattle.std.specs.Option.{option_copied_mut};
ghost use Rattle.slotmap.specs.Words.{Key as KeyOf, IsContent, IsCloneBy, IsLive, IsNew, Inserts, MakesRoom, RefusesCapacity, Removes, StaysValid, is_last, most, places, used};
ghost use Rattle.slotmap_bounded.specs.Bounded.{bound, bound_with, grown as grown_by};

mod clear;
mod keys;
mod next_after;

pub use keys::{inner, outer};
use slotmap::basic::{Iter, Keys};
use slotmap::{Key, ReserveError, SlotMap};
use slotmap_core::sure::rule_out;
use std::alloc::{AllocError, Global};
use std::fmt;
use std::marker::Model;

// How many keys a map holds at most.
const MOST: usize = 4_294_967_294;

// For how many keys room is made at least, where some is made.
const FEW: usize = 4;

/// A slot map that promises the room that it counted where it was reserved, and no more.
///
/// A clause sees the content of the map, where `room` is what was promised. The live, detached and
/// retired keys and the room together are the bound of the indices. The content's `capacity` is that of
/// the `SlotMap`.
pub struct BoundedMap<K, V> {
    map: SlotMap<K, V>,
    room: usize,
    bound: usize,
}

impl<K, V: Drop> Drop for BoundedMap<K, V> {
    fn drop(self) {
        let BoundedMap {
            map: _map,
            room: _room,
            bound: _bound,
        } = self;
    }
}

impl<K, V> Model for BoundedMap<K, V> {
    ghost use Rattle.slotmap.specs.Words.{Content, content_code};

    ghost Value = { Content V };

    ghost coded = { content_code V.code };

    ghost use Rattle.slotmap_bounded.specs.Bounded.{IsBounded, bounded};

    ghost view = { λ b. bounded b.map b.room };

    ghost invariant = { λ b. IsBounded b.map b.room b.bound };
}

// For how many keys a removed one leaves room: one, unless it was the last of its slot.
fn freed<K: Key>(key: K) -> usize
    ensures { result ≡ (if is_last (K.data_of key) then 0 else 1) }
{
    if key.data().version() == u32::MAX {
        return 0;
    }
    1
}

// For how many more keys room is made where it is asked for so many.
fn grown(used: usize, additional: usize) -> usize
    requires used { used ≤ most }
    requires additional { additional ≤ most - used }
    ensures value { result ≡ grown_by used additional }
    ensures enough { additional ≤ result }
    ensures limit { used + result ≤ most }
{
    additional.max(used.max(FEW).min(MOST - used))
}

impl<K: Key, V: Drop> BoundedMap<K, V> {
    ghost use Rattle.slotmap_bounded.specs.Lends.{lends_get};

    /// Makes a map with no key and room for `capacity` keys.
    ///
    /// It fails with `TooGreat` if these are over 4294967294, and else with `Memory` if memory runs out.
    ///
    /// ```
    /// let map: BoundedMap<DefaultKey, &str> = BoundedMap::with_capacity(alloc, 2)?;
    /// assert_eq!(rt; (map.len(), map.capacity()), (0, 2));
    /// ```
    pub fn with_capacity(alloc: Global, capacity: usize) -> Result<Self, ReserveError>
        ensures starts { IfOk result IsNew }
        ensures room { IfOk result (λ made. made.room ≡ capacity) }
        ensures bound { IfOk result (λ made. bound made ≡ capacity) }
        ensures err { IfErr result (RefusesCapacity capacity) }
        ensures valid { IfOk result (IsContent true) }
    {
        let map = SlotMap::with_capacity_and_key(alloc, capacity)?;
        Ok(BoundedMap {
            map,
            room: capacity,
            bound: capacity,
        })
    }

    /// Returns the number of live keys, in constant time.
    ///
    /// ```
    /// let mut map: BoundedMap<DefaultKey, &str> = BoundedMap::with_capacity(alloc, 1)?;
    /// map.insert_reserved("a");
    /// assert_eq!(rt; map.len(), 1);
    /// ```
    pub fn len(&self) -> usize
        ensures value { result ≡ map.len self.now.live }
        ensures valid { IsContent true self.now }
    {
        self.map.len()
    }

    /// Returns the greatest index that a key can have before more room is reserved, in constant time.
    ///
    /// ```
    /// let mut map: BoundedMap<DefaultKey, &str> = BoundedMap::with_capacity(alloc, 1)?;
    /// let a = map.insert_reserved("a");
    /// assert_eq!(rt; (a.data().idx(), map.capacity()), (1, 1));
    /// ```
    pub fn capacity(&self) -> usize
        ensures exact { result ≡ used self.now + self.now.room }
        ensures places { places self.now ≤ result }
        ensures limit { result ≤ most }
        ensures valid { IsContent true self.now }
    {
        let _ = self.map.len();
        self.bound
    }

    /// Returns whether there is room for one more key, in constant time.
    ///
    /// ```
    /// let mut map: BoundedMap<DefaultKey, &str> = BoundedMap::with_capacity(alloc, 1)?;
    /// assert!(rt; map.has_room());
    /// map.insert_reserved("a");
    /// assert!(rt; !map.has_room());
    /// ```
    #[inline(always)]
    pub fn has_room(&self) -> bool
        ensures { IsTrue result ↔ 0 < self.now.room }
    {
        self.room > 0
    }

    /// Returns the capacity that [`BoundedMap::reserve`] leaves where it succeeds, in constant time.
    ///
    /// It fails with `TooGreat` where `reserve` does.
    ///
    /// ```
    /// let map: BoundedMap<DefaultKey, u64> = BoundedMap::with_capacity(alloc, 4)?;
    /// assert_eq!(rt; (map.capacity_for(2)?, map.capacity_for(6)?), (4, 6));
    /// assert!(rt; matches!(map.capacity_for(4294967295), Err(ReserveError::TooGreat)));
    /// ```
    pub fn capacity_for(&self, additional: usize) -> Result<usize, ReserveError>
        ensures had_room { additional ≤ self.now.room → result ≡ Ok (bound self.now) }
        ensures value { IfOk result (λ capacity. capacity ≡ bound_with self.now additional) }
        ensures limit { IfOk result (λ capacity. capacity ≤ most) }
        ensures err { IfErr result (λ error. (error ≡ ReserveError.TooGreat) × (most < used self.now + additional)) }
        ensures valid { IsContent true self.now }
    {
        let _ = self.capacity();
        if additional <= self.room {
            return Ok(self.bound);
        }
        if additional > MOST - (self.bound - self.room) {
            return Err(ReserveError::TooGreat);
        }
        let used = self.bound - self.room;
        Ok(used + grown(used, additional))
    }

    /// Reserves room for `additional` more keys. If there is room, it changes nothing.
    ///
    /// Where it has to make room, the capacity is that of [`BoundedMap::capacity_for`] then: room for at
    /// least as many keys as there are, and for at least four, within the limit. So inserts that reserve
    /// room for one key each take constant time on average. It fails with `TooGreat` if more than
    /// 4294967294 keys would be there, counting those that are retired, and with `Memory` if memory runs
    /// out. It has changed nothing then, but perhaps the capacity of the `SlotMap` below.
    ///
    /// ```
    /// let mut map: BoundedMap<DefaultKey, &str> = BoundedMap::with_capacity(alloc, 0)?;
    /// map.reserve(3)?;
    /// assert!(rt; map.has_room());
    /// ```
    pub fn reserve(&mut self, additional: usize) -> Result<(), ReserveError>
        ensures makes_room { MakesRoom true self.old additional (IsOk result) self.new }
        ensures err { IfErr result (RefusesCapacity (used self.old + additional)) }
        ensures unchanged { OnErr result (self.new ≡ record self.old { capacity = self.new.capacity }) }
        ensures grows { OnOk result (bound self.new ≡ bound_with self.old additional) }
        ensures within { bound self.new ≤ bound_with self.old additional }
    {
        let _ = self.map.len();
        if additional <= self.room {
            return Ok(());
        }
        let used = self.bound - self.room;
        if additional > MOST - used {
            return Err(ReserveError::TooGreat);
        }
        let more = grown(used, additional);
        match self.map.reserve(more) {
            Ok(()) => {
                self.bound = used + more;
                self.room = more;
                Ok(())
            }
            Err(_) => Err(ReserveError::Memory),
        }
    }

    /// Inserts a value, and returns its new key. The caller proves that there is room. The capacity
    /// stays. Constant time.
    ///
    /// ```
    /// let mut map: BoundedMap<DefaultKey, &str> = BoundedMap::with_capacity(alloc, 1)?;
    /// let a = map.insert_reserved("a");
    /// assert_eq!(rt; map.get(a), Some(&"a"));
    /// ```
    #[inline(always)]
    pub fn insert_reserved(&mut self, value: V) -> K
        requires room { 0 < self.old.room }
        ensures inserts { Inserts self.old (K.data_of result) value self.new }
        ensures fresh { map.get self.old.live (K.data_of result) ≡ None }
        ensures within { (K.data_of result).index ≤ bound self.new }
        ensures bound { bound self.new ≡ bound self.old }
        ensures valid { StaysValid true self.old self.new }
    {
        match self.map.insert(value) {
            Ok(key) => {
                self.room -= 1;
                key
            }
            Err(_) => {
                rule_out(true);
                unreachable!()
            }
        }
    }

    /// Removes a key, and returns its value, or `None` if the key isn't live. The capacity stays.
    /// Constant time.
    ///
    /// ```
    /// let mut map: BoundedMap<DefaultKey, &str> = BoundedMap::with_capacity(alloc, 1)?;
    /// let a = map.insert_reserved("a");
    /// assert_eq!(rt; map.remove(a), Some("a"));
    /// assert_eq!(rt; map.remove(a), None);
    /// ```
    pub fn remove(&mut self, key: K) -> Option<V>
        ensures value { result ≡ map.get self.old.live (K.data_of key) }
        ensures removes { OnSome result (Removes self.old (K.data_of key) self.new) }
        ensures unchanged { IfNone result (self.new ≡ self.old) }
        ensures live { self.new.live ≡ map.remove self.old.live (K.data_of key) }
        ensures bound { bound self.new ≡ bound self.old }
        ensures valid { StaysValid true self.old self.new }
    {
        let value = self.map.remove(key)?;
        self.room += freed(key);
        Some(value)
    }

    /// Returns whether a key is live, in constant time.
    ///
    /// ```
    /// let mut map: BoundedMap<DefaultKey, &str> = BoundedMap::with_capacity(alloc, 1)?;
    /// let a = map.insert_reserved("a");
    /// assert!(rt; map.contains_key(a));
    /// map.remove(a);
    /// assert!(rt; !map.contains_key(a));
    /// ```
    pub fn contains_key(&self, key: K) -> bool
        ensures value { result ≡ map.contains_key self.now.live (K.data_of key) }
        ensures valid { IsContent true self.now }
    {
        self.map.contains_key(key)
    }

    /// Returns the live key with this index, or `None` if no live key has it. Constant time.
    ///
    /// ```
    /// let mut map: BoundedMap<DefaultKey, &str> = BoundedMap::with_capacity(alloc, 1)?;
    /// let a = map.insert_reserved("a");
    /// assert_eq!(rt; map.key_at(a.data().idx()), Some(a));
    /// ```
    pub fn key_at(&self, index: u32) -> Option<K>
        ensures live { IfSome result (λ key. IsLive self.now (K.data_of key)) }
        ensures index { IfSome result (λ key. (K.data_of key).index ≡ index) }
        ensures none { IfNone result ((other : KeyOf) → IsLive self.now other → other.index ≢ index) }
    {
        self.map.key_at(index)
    }

    /// Returns the live key with this index. The caller proves that there is one. Constant time.
    ///
    /// ```
    /// let mut map: BoundedMap<DefaultKey, &str> = BoundedMap::with_capacity(alloc, 1)?;
    /// let a = map.insert_reserved("a");
    /// assert_eq!(rt; map.live_key(a.data().idx()), a);
    /// ```
    #[inline(always)]
    pub fn live_key(&self, index: u32) -> K
        requires { (k : KeyOf) × IsLive self.now k × (k.index ≡ index) }
        ensures live { IsLive self.now (K.data_of result) }
        ensures index { (K.data_of result).index ≡ index }
    {
        match self.map.key_at(index) {
            Some(key) => key,
            None => {
                rule_out(true);
                unreachable!()
            }
        }
    }

    /// Does nothing. It tells the compiler that a key is live, as the caller proves. So a look-up of the
    /// key after this call doesn't read the key's slot to test that.
    ///
    /// ```
    /// let mut map: BoundedMap<DefaultKey, &str> = BoundedMap::with_capacity(alloc, 1)?;
    /// let a = map.insert_reserved("a");
    /// map.note_live(a);
    /// assert_eq!(rt; map.get(a), Some(&"a"));
    /// ```
    #[inline(always)]
    pub fn note_live(&self, key: K)
        requires { IsLive self.now (K.data_of key) }
    {
        rule_out(!self.map.contains_key(key));
    }

    /// Returns the value of a key, or `None` if the key isn't live. Constant time.
    ///
    /// ```
    /// let mut map: BoundedMap<DefaultKey, &str> = BoundedMap::with_capacity(alloc, 1)?;
    /// let a = map.insert_reserved("a");
    /// assert_eq!(rt; map.get(a), Some(&"a"));
    /// assert_eq!(rt; map.get(DefaultKey::null()), None);
    /// ```
    pub fn get(&self, key: K) -> Option<&V>
        ensures { option_copied result ≡ map.get self.now.live (K.data_of key) }
    {
        self.map.get(key)
    }

    /// Returns the value of a key. The caller proves that the key is live. Constant time.
    ///
    /// ```
    /// let mut map: BoundedMap<DefaultKey, &str> = BoundedMap::with_capacity(alloc, 1)?;
    /// let a = map.insert_reserved("a");
    /// assert_eq!(rt; map.value(a), &"a");
    /// ```
    pub fn value(&self, key: K) -> &V
        requires { IsLive self.now (K.data_of key) }
        ensures { map.get self.now.live (K.data_of key) ≡ Some result.now }
    {
        self.map.get_unchecked(key)
    }

    /// Returns a mutable reference to the value of a key, or `None` if the key isn't live. Constant time.
    ///
    /// ```
    /// let mut map: BoundedMap<DefaultKey, &str> = BoundedMap::with_capacity(alloc, 1)?;
    /// let a = map.insert_reserved("a");
    /// if let Some(value) = map.get_mut(a) {
    ///     *value = "b";
    /// }
    /// assert_eq!(rt; map.get(a), Some(&"b"));
    /// ```
    pub fn get_mut(&mut self, key: K) -> Option<&mut V>
        ensures* writes_back { sem 𝓛 (lends_get K.row V.row self.entry (K.data_of key) result) }
        ensures value { option_copied_mut result ≡ map.get self.old.live (K.data_of key) }
    {
        match self.map.get_mut(key) {
            Some(value) => Some(value),
            None => None,
        }
    }

    /// Returns an iterator over the live keys, by ascending index. All its steps together read each slot
    /// once.
    ///
    /// ```
    /// let mut map: BoundedMap<DefaultKey, &str> = BoundedMap::with_capacity(alloc, 1)?;
    /// let a = map.insert_reserved("a");
    /// assert_eq!(rt; map.keys().next(), Some(a));
    /// ```
    pub fn keys(&self) -> Keys<'_, K, V>
        ensures { result ≡ map.keys self.now.live }
    {
        self.map.keys()
    }

    /// Returns an iterator over the live keys with their values, by ascending index. All its steps
    /// together read each slot once.
    ///
    /// ```
    /// let mut map: BoundedMap<DefaultKey, &str> = BoundedMap::with_capacity(alloc, 1)?;
    /// let a = map.insert_reserved("a");
    /// assert_eq!(rt; map.iter().next(), Some((a, &"a")));
    /// ```
    pub fn iter(&self) -> Iter<'_, K, V>
        ensures { result ≡ map.entries self.now.live }
    {
        self.map.iter()
    }
}

impl<K: Key, V: Clone> BoundedMap<K, V> {
    /// Returns a copy with clones of the values under the same keys, and with as much room.
    ///
    /// It fails if memory runs out, or the clone of a value fails. Linear in the number of slots.
    ///
    /// ```
    /// let mut map: BoundedMap<DefaultKey, &str> = BoundedMap::with_capacity(alloc, 1)?;
    /// let a = map.insert_reserved("a");
    /// let copy = map.clone()?;
    /// assert_eq!(rt; copy.get(a), Some(&"a"));
    /// ```
    pub fn clone(&self) -> Result<Self, AllocError>
        ensures clones { IfOk result (IsCloneBy V.is_clone self.now) }
        ensures bound { IfOk result (λ copy. bound copy ≡ bound self.now) }
        ensures room { IfOk result (λ copy. copy.room ≡ self.now.room) }
        ensures valid { IfOk result (IsContent true) }
    {
        let mut map = self.map.clone()?;
        match map.reserve(self.room) {
            Ok(()) => Ok(BoundedMap {
                map,
                room: self.room,
                bound: self.bound,
            }),
            Err(_) => Err(AllocError),
        }
    }
}

/// Prints the pairs, as a `SlotMap` does.
impl<K: Key, V: fmt::Debug> fmt::Debug for BoundedMap<K, V> {
    fn fmt<W: fmt::Write>(&self, f: &mut fmt::Formatter<W>) -> fmt::Result {
        self.map.fmt(f)
    }
}
