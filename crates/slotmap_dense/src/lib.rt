//! `DenseSlotMap`: values under keys that the map makes, each key once, stored with no gaps.
//!
//! A clause sees a map as its content (the type `Content` of `slotmap_core`) and its packed order
//! (the type `Dense`). The packed order is the list of the live keys, with their values at the same
//! positions of another list.
//!
//! Each example comes after these lines:
//!
//! ```text
//! let alloc = rt.alloc();
//! let mut map: DenseSlotMap<DefaultKey, u64> = DenseSlotMap::new(alloc)?;
//! let a = map.insert(1)?;
//! let b = map.insert(2)?;
//! ```
#![tactic(auto, using(crate::proofs::SettledLemmas::dense_valid))]

ghost use Rattle.std.specs.FinMap as map;
ghost use Rattle.std.specs.Prelude.{◌≡◌, ◌+◌, ◌≤◌, ◌↔◌, [], Some, IsTrue, IfOk, IfErr, IsOk, OnOk, true, vec_len, vec_capacity};
ghost use Rattle.slotmap_core.specs.Words.{used, IsNew, RefusesCapacity, MakesRoom as SlotsMakeRoom};
ghost use Rattle.slotmap_dense.specs.Dense.{IsDense, IsEmpty};
ghost use Rattle.slotmap_dense.specs.Call.{MakesDenseRoom};

mod access;
mod clear;
mod clone;
mod detach;
mod drain;
mod insert;
mod into_iter;
mod iter;
mod iter_mut;
mod list;
mod primary;
mod remove;
mod retain;
mod rows;
mod slices;

pub use drain::Drain;
pub use into_iter::IntoIter;
pub use iter::{Iter, Keys, Values};
pub use iter_mut::{IterMut, ValuesMut};
use rows::Rows;
use slotmap_core::errors::ReserveError;
use slotmap_core::keys::{DefaultKey, Key};
use slotmap_slots::slots::Slots;
use std::alloc::{AllocError, Global};
use std::fmt;
use std::marker::Model;

/// A map that makes a key for each value that is inserted, and stores the values with no gaps.
///
/// `insert` returns a new key, and the key is live until it is removed. The slot of a removed key
/// is reused under a newer key, and the slot freed last is reused first. So a removed key is never
/// found again, and no key is returned twice. Once its last key, of version 4294967295, is removed,
/// a slot is retired and never used again. In Rust its versions wrap around. All this holds in any
/// run of commands; `clone_from` and a map read from a list start anew.
///
/// The live keys are in one list, and their values are at the same positions in another list. This
/// is the packed order. An insert appends to both lists. A removal moves the last pair to the
/// position of the removed one. Iterators read only these two lists, so vacant slots cost them
/// nothing.
///
/// A live key can be detached: its value is taken out, and its slot is kept until `reattach` binds
/// the key to a value again. At most 4294967294 keys can be live, detached or retired.
///
/// ```
/// let key = map.insert(5)?;
/// assert_eq!(rt; map.get(key), Some(&5));
/// assert_eq!(rt; map.remove(key), Some(5));
/// assert!(rt; !map.contains_key(key));
/// ```
pub struct DenseSlotMap<K: Key, V> {
    // The position of each live key.
    slots: Slots<u32, Rows>,
    // The live keys, and at the same positions their values.
    keys: Vec<K>,
    values: Vec<V>,
}

impl<K: Key, V: Drop> Drop for DenseSlotMap<K, V> {
    fn drop(self) {
        let DenseSlotMap {
            slots: _slots,
            keys: _keys,
            values: _values,
        } = self;
    }
}

impl<K: Key, V> Model for DenseSlotMap<K, V> {
    ghost use Rattle.slotmap_core.specs.Words.{min, vec_capacity, map as list_map};
    ghost use Rattle.slotmap_dense.specs.Dense.{Dense, dense_code};
    ghost use Rattle.slotmap_dense.specs.Packed.{dense_of, IsSound};

    ghost Value = { Dense V };

    ghost coded = { dense_code V.code };

    ghost view = { λ m. dense_of m.slots (list_map K.data_of m.keys.items) m.values.items (min (vec_capacity m.keys) (vec_capacity m.values)) };

    ghost invariant = { λ m. IsSound m.slots (list_map K.data_of m.keys.items) m.values.items };
}

// Makes room in a vector for `additional` more elements. If there is room, it allocates nothing.
#[inline(always)]
pub(crate) fn make_room_in<T>(items: &mut Vec<T>, additional: usize) -> Result<(), AllocError>
    ensures keeps { items.new.items ≡ items.old.items }
    ensures ok { OnOk result (vec_len items.old + additional ≤ vec_capacity items.new) }
    ensures capacity { vec_capacity items.old ≤ vec_capacity items.new }
    ensures succeeds { vec_len items.old + additional ≤ vec_capacity items.old → IsOk result }
    ensures had_room { vec_len items.old + additional ≤ vec_capacity items.old → vec_capacity items.new ≡ vec_capacity items.old }
{
    if additional <= items.capacity() - items.len() {
        return Ok(());
    }
    items.reserve(additional)
}

// Makes room in the slots for `additional` more keys. For one key, as at an insert, the slots look at
// their vacant slots first.
#[inline(always)]
fn make_room_in_slots(slots: &mut Slots<u32, Rows>, additional: usize) -> Result<(), ReserveError>
    ensures makes_room { SlotsMakeRoom true slots.old additional (IsOk result) slots.new }
    ensures err { IfErr result (RefusesCapacity (used slots.old + additional)) }
{
    if additional == 1 {
        slots.make_room()
    } else {
        slots.reserve(additional)
    }
}

impl<V: Drop> DenseSlotMap<DefaultKey, V> {
    /// Makes an empty map with the default key type.
    ///
    /// It allocates slot 0, which no key uses, and fails with `Memory` if memory runs out. Constant time,
    /// the allocations aside.
    ///
    /// ```
    /// let mut empty: DenseSlotMap<DefaultKey, u64> = DenseSlotMap::new(alloc)?;
    /// assert!(rt; empty.is_empty());
    /// assert_eq!(rt; empty.insert(5)?.data(), KeyData::new(1, 1));
    /// ```
    pub fn new(alloc: Global) -> Result<Self, ReserveError>
        ensures starts { IfOk result (λ made. IsNew made.content) }
        ensures empty { IfOk result IsEmpty }
        ensures stack { IfOk result (λ made. made.content.stack ≡ Some []) }
        ensures err { IfErr result (λ error. error ≡ ReserveError.Memory) }
        ensures valid { IfOk result IsDense }
    {
        DenseSlotMap::with_key(alloc)
    }

    /// Makes an empty map with the default key type and with room for `capacity` keys.
    ///
    /// The next `capacity` inserts succeed. It fails with `TooGreat` if `capacity` is over
    /// 4294967294, and with `Memory` if memory runs out. Constant time, the allocations aside.
    ///
    /// ```
    /// let roomy: DenseSlotMap<DefaultKey, u64> = DenseSlotMap::with_capacity(alloc, 10)?;
    /// assert!(rt; roomy.is_empty());
    /// assert!(rt; roomy.capacity() >= 10);
    /// ```
    pub fn with_capacity(alloc: Global, capacity: usize) -> Result<Self, ReserveError>
        ensures starts { IfOk result (λ made. IsNew made.content) }
        ensures empty { IfOk result IsEmpty }
        ensures stack { IfOk result (λ made. made.content.stack ≡ Some []) }
        ensures room { IfOk result (λ made. capacity ≤ made.content.room) }
        ensures capacity { IfOk result (λ made. capacity ≤ made.content.capacity) }
        ensures err { IfErr result (RefusesCapacity capacity) }
        ensures valid { IfOk result IsDense }
    {
        DenseSlotMap::with_capacity_and_key(alloc, capacity)
    }
}

impl<K: Key, V: Drop> DenseSlotMap<K, V> {
    /// Makes an empty map with any key type.
    ///
    /// It allocates slot 0, which no key uses, and fails with `Memory` if memory runs out. Constant time,
    /// the allocations aside.
    ///
    /// ```
    /// let mut nodes: DenseSlotMap<NodeKey, u64> = DenseSlotMap::with_key(alloc)?;
    /// let key: NodeKey = nodes.insert(5)?;
    /// assert_eq!(rt; nodes.get(key), Some(&5));
    /// ```
    pub fn with_key(alloc: Global) -> Result<Self, ReserveError>
        ensures starts { IfOk result (λ made. IsNew made.content) }
        ensures empty { IfOk result IsEmpty }
        ensures stack { IfOk result (λ made. made.content.stack ≡ Some []) }
        ensures err { IfErr result (λ error. error ≡ ReserveError.Memory) }
        ensures valid { IfOk result IsDense }
    {
        DenseSlotMap::with_capacity_and_key(alloc, 0)
    }

    /// Makes an empty map with any key type and with room for `capacity` keys.
    ///
    /// The next `capacity` inserts succeed. It fails with `TooGreat` if `capacity` is over
    /// 4294967294, and with `Memory` if memory runs out. Constant time, the allocations aside.
    ///
    /// ```
    /// let nodes: DenseSlotMap<NodeKey, u64> = DenseSlotMap::with_capacity_and_key(alloc, 10)?;
    /// assert!(rt; nodes.capacity() >= 10);
    /// ```
    pub fn with_capacity_and_key(alloc: Global, capacity: usize) -> Result<Self, ReserveError>
        ensures starts { IfOk result (λ made. IsNew made.content) }
        ensures empty { IfOk result IsEmpty }
        ensures stack { IfOk result (λ made. made.content.stack ≡ Some []) }
        ensures room { IfOk result (λ made. capacity ≤ made.content.room) }
        ensures capacity { IfOk result (λ made. capacity ≤ made.content.capacity) }
        ensures err { IfErr result (RefusesCapacity capacity) }
        ensures valid { IfOk result IsDense }
    {
        let slots = Slots::with_capacity(alloc, capacity)?;
        let keys = Vec::with_capacity(alloc, capacity)?;
        let values = Vec::with_capacity(alloc, capacity)?;
        Ok(DenseSlotMap {
            slots,
            keys,
            values,
        })
    }

    // Does nothing. From its contract a caller learns that what the map holds is well formed.
    #[inline(always)]
    pub(crate) fn note_valid(&self)
        ensures { IsDense self.now }
    {
        let _ = &self.slots;
    }

    /// Returns the number of live keys.
    ///
    /// Constant time.
    ///
    /// ```
    /// assert_eq!(rt; map.len(), 2);
    /// map.detach(a);
    /// assert_eq!(rt; map.len(), 1);
    /// ```
    pub fn len(&self) -> usize
        ensures value { result ≡ map.len self.now.content.live }
        ensures valid { IsDense self.now }
    {
        self.keys.len()
    }

    /// Returns whether no key is live.
    ///
    /// Constant time.
    ///
    /// ```
    /// assert!(rt; !map.is_empty());
    /// map.clear();
    /// assert!(rt; map.is_empty());
    /// ```
    pub fn is_empty(&self) -> bool
        ensures value { IsTrue result ↔ (map.len self.now.content.live ≡ 0) }
        ensures valid { IsDense self.now }
    {
        self.len() == 0
    }

    /// Returns the number of keys for which memory is allocated.
    ///
    /// It is the smallest capacity of the vectors of slots (without slot 0), keys and values. The slots
    /// of detached and retired keys count too. Constant time.
    ///
    /// ```
    /// let before = map.capacity();
    /// map.clear();
    /// assert_eq!(rt; map.capacity(), before);
    /// ```
    pub fn capacity(&self) -> usize
        ensures value { result ≡ self.now.content.capacity }
        ensures valid { IsDense self.now }
    {
        let packed = self.keys.capacity().min(self.values.capacity());
        self.slots.capacity().min(packed)
    }

    /// Reserves room for `additional` more keys.
    ///
    /// The next `additional` inserts and reattaches succeed. The errors are these; either changes
    /// nothing but, perhaps, the capacity:
    ///
    /// - `TooGreat`: the live, detached and retired keys plus `additional` are more than
    ///   4294967294.
    /// - `Memory`: memory runs out.
    ///
    /// If there is room already, the call succeeds and nothing changes. Rust counts detached slots
    /// as free. Linear in the number of slots if the vectors grow, else constant time.
    ///
    /// ```
    /// map.reserve(10)?;
    /// let capacity = map.capacity();
    /// for i in 0..10 {
    ///     map.insert(i)?;
    /// }
    /// assert_eq!(rt; map.capacity(), capacity);
    /// ```
    #[inline(always)]
    pub fn reserve(&mut self, additional: usize) -> Result<(), ReserveError>
        ensures makes_room { MakesDenseRoom self.old additional (IsOk result) self.new }
        ensures err { IfErr result (RefusesCapacity (used self.old.content + additional)) }
    {
        make_room_in_slots(&mut self.slots, additional)?;
        make_room_in(&mut self.keys, additional)?;
        make_room_in(&mut self.values, additional)?;
        Ok(())
    }

    /// Reserves room for `additional` more keys, as `reserve` does.
    ///
    /// Here `reserve` returns a `Result` too; in Rust it aborts if memory runs out. Costs as
    /// `reserve`.
    ///
    /// ```
    /// assert!(rt; map.try_reserve(10).is_ok());
    /// assert!(rt; matches!(map.try_reserve(4294967295), Err(ReserveError::TooGreat)));
    /// ```
    pub fn try_reserve(&mut self, additional: usize) -> Result<(), ReserveError>
        ensures makes_room { MakesDenseRoom self.old additional (IsOk result) self.new }
        ensures err { IfErr result (RefusesCapacity (used self.old.content + additional)) }
    {
        self.reserve(additional)
    }
}

/// Prints the pairs in the order of `iter`, each key before its value. In Rust the derived `Debug`
/// prints the fields of the map.
impl<K: Key, V: fmt::Debug> fmt::Debug for DenseSlotMap<K, V> {
    fn fmt<W: fmt::Write>(&self, f: &mut fmt::Formatter<W>) -> fmt::Result {
        f.debug_map().entries(self.iter()).finish()
    }
}
