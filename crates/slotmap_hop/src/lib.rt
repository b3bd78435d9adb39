//! `HopSlotMap`: values under keys that the map makes, each key once, with iterators that skip
//! vacant slots.
//!
//! A clause sees a map as its content, the type `Content` of `slotmap_core`, and the blocks that
//! its vacant slots form. The content has:
//!
//! - the live keys with their values, and the retired keys
//! - the version that the next key at each vacant index will have
//! - the key that the next insert returns
//! - the room and the capacity
//!
//! No key of this map is ever detached.
//!
//! Each example comes after these lines:
//!
//! ```text
//! let alloc = rt.alloc();
//! let mut map: HopSlotMap<DefaultKey, u64> = HopSlotMap::new(alloc)?;
//! let a = map.insert(1)?;
//! let b = map.insert(2)?;
//! ```
#![tactic(auto)]

ghost use Rattle.std.specs.FinMap as map;
ghost use Rattle.std.specs.Prelude.{◌≡◌, ◌+◌, ◌≤◌, ◌↔◌, [], IsTrue, IfOk, IfErr, IsOk};
ghost use Rattle.slotmap_core.specs.Words.{used, most, IsNew, RefusesCapacity};
ghost use Rattle.slotmap_hop.specs.HopContent.{IsHopContent, MakesHopRoom, NoBlocks};

mod access;
mod blocks;
mod clear;
mod clone;
mod drain;
mod insert;
mod into_iter;
mod iter;
mod links;
mod list;
mod one_block;
mod primary;
mod remove;
mod retain;
mod search;

pub use drain::Drain;
pub use into_iter::IntoIter;
pub use iter::{Iter, Keys, Values};
use links::{Slot, sentinel};
use slotmap_core::errors::ReserveError;
use slotmap_core::keys::{DefaultKey, Key};
use slotmap_core::limits::MOST_KEYS;
use std::alloc::Global;
use std::fmt;
use std::marker::{Model, PhantomData};

/// A map that makes a key for each value that is inserted, with iterators that skip vacant slots.
///
/// `insert` returns a new key, and the key is live until it is removed. The slot of a removed key
/// is reused under a newer key. So a removed key is never found again, and no key is returned
/// twice. Once its last key, of version 4294967295, is removed, a slot is retired and never used
/// again. In Rust its versions wrap around. All this holds in any run of commands; `clone_from` and
/// a map read from a list start anew. At most 4294967294 keys can be live or retired.
///
/// Neighbouring vacant slots form a block, and the blocks form a list. An insert uses the last slot
/// of the first block in the list, or of the block of slot 0 if the list is empty. A removal adds its
/// slot to the blocks beside it. If there is
/// none, it appends a new block to the list. An iterator skips a block in one step.
///
/// ```
/// let key = map.insert(5)?;
/// assert_eq!(rt; map.get(key), Some(&5));
/// assert_eq!(rt; map.remove(key), Some(5));
/// assert!(rt; !map.contains_key(key));
/// ```
pub struct HopSlotMap<K, V> {
    // Slot 0 is the sentinel: no key uses it.
    slots: Vec<Slot<V>>,
    vacant_count: u32,
    live_count: u32,
    keys: PhantomData<K>,
}

impl<K, V: Drop> Drop for HopSlotMap<K, V> {
    fn drop(self) {
        let HopSlotMap {
            slots: _slots,
            vacant_count: _vacant_count,
            live_count: _live_count,
            keys: _keys,
        } = self;
    }
}

impl<K, V> Model for HopSlotMap<K, V> {
    ghost use Rattle.std.specs.Prelude.{◌-◌, vec_capacity};
    ghost use Rattle.slotmap_hop.specs.HopContent.{HopContent, hop_code};
    ghost use Rattle.slotmap_hop.specs.Slots.{hop_content, IsSound};

    ghost Value = { HopContent V };

    ghost coded = { hop_code V.code };

    ghost view = { λ m. hop_content m.slots.items (vec_capacity m.slots - 1) };

    ghost invariant = { λ m. IsSound m.slots.items m.vacant_count m.live_count };
}

impl<K, V> HopSlotMap<K, V> {
    // Does nothing; its contract tells a caller that what the map holds is well formed.
    #[inline(always)]
    pub(crate) fn note_valid(&self)
        ensures { IsHopContent self.now }
    {
        let _ = &self.live_count;
    }
}

impl<V: Drop> HopSlotMap<DefaultKey, V> {
    /// Makes an empty map with the default key type.
    ///
    /// It allocates slot 0, which no key uses, and fails with `Memory` if memory runs out. Constant time,
    /// the allocations aside.
    ///
    /// ```
    /// let mut empty: HopSlotMap<DefaultKey, u64> = HopSlotMap::new(alloc)?;
    /// assert!(rt; empty.is_empty());
    /// assert_eq!(rt; empty.insert(5)?.data(), KeyData::new(1, 1));
    /// ```
    pub fn new(alloc: Global) -> Result<Self, ReserveError>
        ensures starts { IfOk result (λ made. IsNew made.content) }
        ensures blocks { IfOk result (λ made. NoBlocks made.blocks) }
        ensures err { IfErr result (λ error. error ≡ ReserveError.Memory) }
        ensures valid { IfOk result IsHopContent }
    {
        HopSlotMap::with_key(alloc)
    }

    /// Makes an empty map with the default key type and with room for `capacity` keys.
    ///
    /// The next `capacity` inserts succeed. It fails with `TooGreat` if `capacity` is over
    /// 4294967294, and with `Memory` if memory runs out. Constant time, the allocations aside.
    ///
    /// ```
    /// let roomy: HopSlotMap<DefaultKey, u64> = HopSlotMap::with_capacity(alloc, 10)?;
    /// assert!(rt; roomy.is_empty());
    /// assert!(rt; roomy.capacity() >= 10);
    /// ```
    pub fn with_capacity(alloc: Global, capacity: usize) -> Result<Self, ReserveError>
        ensures starts { IfOk result (λ made. IsNew made.content) }
        ensures blocks { IfOk result (λ made. NoBlocks made.blocks) }
        ensures room { IfOk result (λ made. capacity ≤ made.content.room) }
        ensures capacity { IfOk result (λ made. capacity ≤ made.content.capacity) }
        ensures err { IfErr result (RefusesCapacity capacity) }
        ensures valid { IfOk result IsHopContent }
    {
        HopSlotMap::with_capacity_and_key(alloc, capacity)
    }
}

impl<K: Key, V: Drop> HopSlotMap<K, V> {
    /// Makes an empty map with any key type.
    ///
    /// It allocates slot 0, which no key uses, and fails with `Memory` if memory runs out. Constant time,
    /// the allocations aside.
    ///
    /// ```
    /// let mut nodes: HopSlotMap<NodeKey, u64> = HopSlotMap::with_key(alloc)?;
    /// let key: NodeKey = nodes.insert(5)?;
    /// assert_eq!(rt; nodes.get(key), Some(&5));
    /// ```
    pub fn with_key(alloc: Global) -> Result<Self, ReserveError>
        ensures starts { IfOk result (λ made. IsNew made.content) }
        ensures blocks { IfOk result (λ made. NoBlocks made.blocks) }
        ensures err { IfErr result (λ error. error ≡ ReserveError.Memory) }
        ensures valid { IfOk result IsHopContent }
    {
        HopSlotMap::with_capacity_and_key(alloc, 0)
    }

    /// Makes an empty map with any key type and with room for `capacity` keys.
    ///
    /// The next `capacity` inserts succeed. It fails with `TooGreat` if `capacity` is over
    /// 4294967294, and with `Memory` if memory runs out. Constant time, the allocations aside.
    ///
    /// ```
    /// let nodes: HopSlotMap<NodeKey, u64> = HopSlotMap::with_capacity_and_key(alloc, 10)?;
    /// assert!(rt; nodes.capacity() >= 10);
    /// ```
    pub fn with_capacity_and_key(alloc: Global, capacity: usize) -> Result<Self, ReserveError>
        ensures starts { IfOk result (λ made. IsNew made.content) }
        ensures blocks { IfOk result (λ made. NoBlocks made.blocks) }
        ensures room { IfOk result (λ made. capacity ≤ made.content.room) }
        ensures capacity { IfOk result (λ made. capacity ≤ made.content.capacity) }
        ensures err { IfErr result (RefusesCapacity capacity) }
        ensures valid { IfOk result IsHopContent }
    {
        if capacity > MOST_KEYS {
            return Err(ReserveError::TooGreat);
        }
        let mut slots = Vec::with_capacity(alloc, capacity + 1)?;
        slots.push_reserved(sentinel());
        Ok(HopSlotMap {
            slots,
            vacant_count: 0,
            live_count: 0,
            keys: PhantomData,
        })
    }

    /// Returns the number of live keys.
    ///
    /// Constant time.
    ///
    /// ```
    /// assert_eq!(rt; map.len(), 2);
    /// map.remove(a);
    /// assert_eq!(rt; map.len(), 1);
    /// ```
    pub fn len(&self) -> usize
        ensures value { result ≡ map.len self.now.content.live }
        ensures valid { IsHopContent self.now }
    {
        self.note_valid();
        self.live_count as usize
    }

    /// Returns whether no key is live.
    ///
    /// Constant time.
    ///
    /// ```
    /// assert!(rt; !map.is_empty());
    /// map.clear();
    /// assert!(rt; map.is_empty());
    /// ```
    pub fn is_empty(&self) -> bool
        ensures value { IsTrue result ↔ (map.len self.now.content.live ≡ 0) }
        ensures valid { IsHopContent self.now }
    {
        self.len() == 0
    }

    /// Returns for how many slots memory is allocated, without slot 0.
    ///
    /// The slots of live and retired keys count, as do vacant slots and those that aren't made yet.
    /// Constant time.
    ///
    /// ```
    /// let before = map.capacity();
    /// map.clear();
    /// assert_eq!(rt; map.capacity(), before);
    /// ```
    pub fn capacity(&self) -> usize
        ensures value { result ≡ self.now.content.capacity }
        ensures valid { IsHopContent self.now }
    {
        self.note_valid();
        self.slots.capacity() - 1
    }

    // The number of slots that no insert can take.
    fn used(&self) -> usize
        ensures value { result ≡ used self.now.content }
        ensures below { result ≤ most }
        ensures fits { result ≤ self.now.content.capacity }
        ensures valid { IsHopContent self.now }
    {
        self.note_valid();
        self.slots.len() - 1 - self.vacant_count as usize
    }

    /// Reserves room for `additional` more keys.
    ///
    /// The next `additional` inserts succeed. The errors are these; either changes nothing but,
    /// perhaps, the capacity:
    ///
    /// - `TooGreat`: the live and retired keys plus `additional` are more than 4294967294.
    /// - `Memory`: memory runs out.
    ///
    /// If there is room already, the call succeeds and nothing changes. Linear in the number of
    /// slots if the vector grows, else constant time.
    ///
    /// ```
    /// map.reserve(10)?;
    /// let capacity = map.capacity();
    /// for i in 0..10 {
    ///     map.insert(i)?;
    /// }
    /// assert_eq!(rt; map.capacity(), capacity);
    /// ```
    #[inline(never)]
    pub fn reserve(&mut self, additional: usize) -> Result<(), ReserveError>
        ensures makes_room { MakesHopRoom self.old additional (IsOk result) self.new }
        ensures err { IfErr result (RefusesCapacity (used self.old.content + additional)) }
        ensures reuses { additional ≤ map.len self.old.content.next → IsOk result }
    {
        let used = self.used();
        if additional > MOST_KEYS - used {
            return Err(ReserveError::TooGreat);
        }
        if additional <= self.capacity() - used {
            return Ok(());
        }
        self.slots.reserve(additional - self.vacant_count as usize)?;
        Ok(())
    }

    /// Reserves room for `additional` more keys, as `reserve` does.
    ///
    /// Here `reserve` returns a `Result` too; in Rust it aborts if memory runs out. Costs as
    /// `reserve`.
    ///
    /// ```
    /// assert!(rt; map.try_reserve(10).is_ok());
    /// assert!(rt; matches!(map.try_reserve(4294967295), Err(ReserveError::TooGreat)));
    /// ```
    pub fn try_reserve(&mut self, additional: usize) -> Result<(), ReserveError>
        ensures makes_room { MakesHopRoom self.old additional (IsOk result) self.new }
        ensures err { IfErr result (RefusesCapacity (used self.old.content + additional)) }
        ensures reuses { additional ≤ map.len self.old.content.next → IsOk result }
    {
        self.reserve(additional)
    }
}

/// Prints the pairs in the order of `iter`, each key before its value. In Rust the derived `Debug`
/// prints the fields of the map.
impl<K: Key, V: fmt::Debug> fmt::Debug for HopSlotMap<K, V> {
    fn fmt<W: fmt::Write>(&self, f: &mut fmt::Formatter<W>) -> fmt::Result {
        f.debug_map().entries(self.iter()).finish()
    }
}
