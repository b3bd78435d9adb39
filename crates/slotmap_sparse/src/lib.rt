//! `SparseSecondaryMap`: values under the keys of another map, in a hash map.
//!
//! Clauses see a map as its content: for each index at most one version with its value (`Pairs` in
//! `slotmap_core`); and for how many keys there is memory.
//!
//! Names of clauses: `value` is what a look-up or a removal returns. `ok` is what a success did.
//! `err` is why a call fails and what its error holds. `unchanged` is what a failure leaves. `room`
//! says when a call can't run out of memory. `valid` is what always holds of the content.
//!
//! Each example comes after these lines:
//!
//! ```text
//! let alloc = rt.alloc();
//! let mut primary: SlotMap<DefaultKey, u64> = SlotMap::new(alloc)?;
//! let a = primary.insert(10)?;
//! let b = primary.insert(20)?;
//! let mut map: SparseSecondaryMap<DefaultKey, u64> = SparseSecondaryMap::new(alloc)?;
//! map.insert(a, 1)?;
//! ```
#![tactic(auto)]

ghost use Rattle.std.specs.FinMap as map;
ghost use Rattle.std.specs.Prelude.{◌≡◌, ◌≤◌, ◌↔◌, IsTrue, IfOk, OnOk, IfErr, IsOk};
ghost use Rattle.slotmap_sparse.specs.Content.{IsSparseContent, MakesSparseRoom, RefusesRoom, most_keys};

mod access;
mod clear;
mod clone;
mod drain;
mod entry;
mod equal;
mod extend;
mod find;
mod insert;
mod into_iter;
mod iter;
mod list;
mod remove;
mod retain;
mod secondary;

pub use drain::Drain;
pub use entry::{Entry, OccupiedEntry, VacantEntry};
pub use into_iter::IntoIter;
pub use iter::{Iter, Keys, Values};
use slotmap_core::errors::ReserveError;
use slotmap_core::keys::Key;
use std::alloc::Global;
use std::collections::HashMap;
use std::fmt;
use std::hash::{BuildHasher, BuildHasherDefault, FoldHasher};
use std::marker::{Model, PhantomData};

/// The hasher of a map that names no other. In Rust the default is `RandomState`.
///
/// Its seed is fixed and public. Whoever chooses the keys can choose many whose hashes collide, and
/// then each call takes time linear in their number. If strangers choose the keys, or write a list
/// that is read, use a `RandomState` with [`SparseSecondaryMap::with_hasher`],
/// [`SparseSecondaryMap::from_slots_with_hasher`] or [`SparseSecondaryMap::from_iter_with_hasher`].
pub type DefaultHasher = BuildHasherDefault<FoldHasher>;

/// A map from the keys of another map to further values, for few of those keys.
///
/// For each index it holds at most one key:
///
/// - A newer key replaces an older one at its index, and never the reverse, if their versions are less
///   than 2147483648 apart. So a value that was put under a removed key is never found under the next
///   key of that slot. That holds in any run of fewer than 2147483648 commands on two unused maps.
/// - Versions wrap around: of two versions more than 2147483648 apart, the larger one is the older.
///   If they are exactly that far apart, the key in the map stays. In Rust `entry` takes it out.
/// - Index 0, which no primary map hands out, is an index like any other here.
///
/// It needs memory only for its own keys, where `SecondaryMap` needs it for each index up to the
/// largest. A call on one key takes constant time if the hasher spreads the indices, except if the
/// table grows or is built anew. Iterators yield in any order.
///
/// The default hasher has a fixed, public seed, so keys can be chosen that make it slow. If
/// strangers choose the keys, name another hasher, such as `RandomState`: see [`DefaultHasher`].
///
/// The hash map below holds 2415919104 keys at most. Beyond that, calls fail as if memory ran out.
///
/// ```
/// map.insert(b, 2)?;
/// assert_eq!(rt; primary[a], 10);
/// assert_eq!(rt; map[a], 1);
/// primary.remove(b);
/// let next = primary.insert(30)?;
/// assert!(rt; map.get(next).is_none());
/// ```
pub struct SparseSecondaryMap<K, V, S: BuildHasher = DefaultHasher> {
    // For each index the version of its key, and the value.
    slots: HashMap<u32, (u32, V), S, Global>,
    // For the lists that the map is written as.
    alloc: Global,
    keys: PhantomData<K>,
}

impl<K, V: Drop, S: BuildHasher + Drop> Drop for SparseSecondaryMap<K, V, S> {
    fn drop(self) {
        let SparseSecondaryMap {
            slots: _slots,
            alloc: _alloc,
            keys: _keys,
        } = self;
    }
}

impl<K, V, S: BuildHasher> Model for SparseSecondaryMap<K, V, S> {
    ghost use Rattle.slotmap_sparse.specs.Content.{SparseContent, sparse_code};
    ghost use Rattle.slotmap_sparse.specs.Entries.{content_of, IsSound};

    ghost Value = { SparseContent V };

    ghost coded = { sparse_code V.code };

    ghost view = { λ m. content_of m.slots };

    ghost invariant = { λ m. IsSound m.slots.entries };
}

/// Prints the pairs in the order of `iter`, each key before its value. In Rust the derived `Debug`
/// prints the fields of the map.
impl<K: Key, V: fmt::Debug, S: BuildHasher> fmt::Debug for SparseSecondaryMap<K, V, S> {
    fn fmt<W: fmt::Write>(&self, f: &mut fmt::Formatter<W>) -> fmt::Result {
        f.debug_map().entries(self.iter()).finish()
    }
}

// The number of indices that keys other than the null key have.
const MOST_PAIRS: usize = 4294967295;

impl<K: Key, V: Drop> SparseSecondaryMap<K, V> {
    /// Makes an empty map with the default hasher.
    ///
    /// Allocates nothing and never fails. Takes constant time.
    ///
    /// ```
    /// let empty: SparseSecondaryMap<DefaultKey, u64> = SparseSecondaryMap::new(alloc)?;
    /// assert!(rt; empty.is_empty());
    /// ```
    pub fn new(alloc: Global) -> Result<Self, ReserveError>
        ensures ok { IsOk result }
        ensures empty { IfOk result (λ made. made.pairs ≡ map.empty) }
        ensures valid { IfOk result IsSparseContent }
    {
        SparseSecondaryMap::with_hasher(alloc, BuildHasherDefault::new())
    }

    /// Makes an empty map with memory for `capacity` keys, and with the default hasher.
    ///
    /// Fails with `TooGreat` if and only if `capacity` exceeds 4294967295, else with `Memory` if
    /// the allocation fails. Takes time linear in `capacity`.
    ///
    /// ```
    /// let empty: SparseSecondaryMap<DefaultKey, u64> =
    ///     SparseSecondaryMap::with_capacity(alloc, 100)?;
    /// assert!(rt; empty.capacity() >= 100);
    /// ```
    pub fn with_capacity(alloc: Global, capacity: usize) -> Result<Self, ReserveError>
        ensures empty { IfOk result (λ made. made.pairs ≡ map.empty) }
        ensures capacity { IfOk result (λ made. capacity ≤ made.capacity) }
        ensures fits { OnOk result (capacity ≤ most_keys) }
        ensures err { IfErr result (RefusesRoom capacity) }
        ensures valid { IfOk result IsSparseContent }
    {
        SparseSecondaryMap::with_capacity_and_hasher(alloc, capacity, BuildHasherDefault::new())
    }
}

impl<K: Key, V: Drop, S: BuildHasher + Drop> SparseSecondaryMap<K, V, S> {
    /// Makes an empty map with this hasher, such as a `RandomState`.
    ///
    /// Allocates nothing and never fails. Takes constant time.
    ///
    /// ```
    /// let hasher = std::hash::RandomState::new(&rt)?;
    /// let mut safe = SparseSecondaryMap::with_hasher(alloc, hasher)?;
    /// safe.insert(a, 5)?;
    /// assert_eq!(rt; safe[a], 5);
    /// ```
    pub fn with_hasher(alloc: Global, hash_builder: S) -> Result<Self, ReserveError>
        ensures ok { IsOk result }
        ensures empty { IfOk result (λ made. made.pairs ≡ map.empty) }
        ensures valid { IfOk result IsSparseContent }
    {
        Ok(SparseSecondaryMap::empty(alloc, hash_builder))
    }

    // An empty map with this hasher.
    pub(crate) fn empty(alloc: Global, hash_builder: S) -> Self
        ensures empty { result.pairs ≡ map.empty }
        ensures valid { IsSparseContent result }
    {
        SparseSecondaryMap {
            slots: HashMap::with_hasher(alloc, hash_builder),
            alloc,
            keys: PhantomData,
        }
    }

    /// Makes an empty map with memory for `capacity` keys, and with this hasher.
    ///
    /// Fails with `TooGreat` if and only if `capacity` exceeds 4294967295, else with `Memory` if
    /// the allocation fails. Takes time linear in `capacity`.
    ///
    /// ```
    /// let hasher = std::hash::RandomState::new(&rt)?;
    /// let mut safe = SparseSecondaryMap::with_capacity_and_hasher(alloc, 100, hasher)?;
    /// assert!(rt; safe.capacity() >= 100);
    /// safe.insert(a, 5)?;
    /// ```
    pub fn with_capacity_and_hasher(
        alloc: Global,
        capacity: usize,
        hash_builder: S,
    ) -> Result<Self, ReserveError>
        ensures empty { IfOk result (λ made. made.pairs ≡ map.empty) }
        ensures capacity { IfOk result (λ made. capacity ≤ made.capacity) }
        ensures fits { OnOk result (capacity ≤ most_keys) }
        ensures err { IfErr result (RefusesRoom capacity) }
        ensures valid { IfOk result IsSparseContent }
    {
        if capacity > MOST_PAIRS {
            return Err(ReserveError::TooGreat);
        }
        Ok(SparseSecondaryMap {
            slots: HashMap::with_capacity_and_hasher(alloc, capacity, hash_builder)?,
            alloc,
            keys: PhantomData,
        })
    }

    // Does nothing. From its contract a caller learns that what the map holds is well formed.
    #[inline(always)]
    pub(crate) fn note_valid(&self)
        ensures { IsSparseContent self.now }
    {
        let _ = &self.slots;
    }

    /// Returns the number of keys, in constant time.
    ///
    /// ```
    /// assert_eq!(rt; map.len(), 1);
    /// map.remove(a);
    /// assert_eq!(rt; map.len(), 0);
    /// ```
    pub fn len(&self) -> usize
        ensures value { result ≡ map.len self.now.pairs }
        ensures valid { IsSparseContent self.now }
    {
        self.slots.len()
    }

    /// Returns whether the map has no key, in constant time.
    ///
    /// ```
    /// assert!(rt; !map.is_empty());
    /// map.remove(a);
    /// assert!(rt; map.is_empty());
    /// ```
    pub fn is_empty(&self) -> bool
        ensures value { IsTrue result ↔ (map.len self.now.pairs ≡ 0) }
        ensures valid { IsSparseContent self.now }
    {
        self.len() == 0
    }

    /// Returns the number of keys for which there is memory, in constant time.
    ///
    /// An insert never fails while the map holds fewer keys.
    ///
    /// ```
    /// map.reserve(100)?;
    /// assert!(rt; map.capacity() >= 101);
    /// ```
    pub fn capacity(&self) -> usize
        ensures value { result ≡ self.now.capacity }
        ensures fits { map.len self.now.pairs ≤ result }
        ensures valid { IsSparseContent self.now }
    {
        self.slots.capacity()
    }

    /// Reserves memory for `additional` more keys: the next `additional` inserts succeed.
    ///
    /// Fails with `TooGreat` if and only if the keys plus `additional` exceed 4294967295, else with
    /// `Memory` if the allocation fails. In either case the map holds what it held. If there is
    /// memory already, it never fails, and nothing changes. Takes constant time if there is memory
    /// already, else time linear in the new capacity.
    ///
    /// ```
    /// map.reserve(100)?;
    /// assert!(rt; map.capacity() >= map.len() + 100);
    /// assert!(rt; map.insert(b, 2).is_ok()); // can't run out of memory
    /// ```
    pub fn reserve(&mut self, additional: usize) -> Result<(), ReserveError>
        ensures makes_room { MakesSparseRoom additional self.old result self.new }
        ensures valid { IsSparseContent self.new }
    {
        if self.len().saturating_add(additional) > MOST_PAIRS {
            return Err(ReserveError::TooGreat);
        }
        if additional <= self.capacity() - self.len() {
            return Ok(());
        }
        self.make_room(additional)?;
        Ok(())
    }

    /// Does the same as [`SparseSecondaryMap::reserve`], which returns a `Result` here too. It
    /// costs the same.
    ///
    /// ```
    /// assert!(rt; map.try_reserve(100).is_ok());
    /// let failed = map.try_reserve(4294967295);
    /// assert!(rt; matches!(failed, Err(ReserveError::TooGreat)));
    /// ```
    pub fn try_reserve(&mut self, additional: usize) -> Result<(), ReserveError>
        ensures makes_room { MakesSparseRoom additional self.old result self.new }
        ensures valid { IsSparseContent self.new }
    {
        self.reserve(additional)
    }
}
