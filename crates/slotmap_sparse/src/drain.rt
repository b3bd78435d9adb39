//! The iterator that removes the pairs of a map.

ghost use Rattle.std.specs.FinMap as map;
ghost use Rattle.std.specs.Prelude.{◌≡◌, ◌≤◌, Some, IfSome};
ghost use Rattle.slotmap_core.specs.Words.{size, UpTo, KeepsAlong, ListsAlong, keyed};
ghost use Rattle.slotmap_sparse.specs.Content.{IsSparseContent};
ghost use Rattle.slotmap_sparse.specs.Drain.{sparse_drain_loan, drain_count, SparseDrainSteps, DrainKeeps};

use crate::{DefaultHasher, SparseSecondaryMap};
use slotmap_core::keys::Key;
use std::fmt;
use std::hash::BuildHasher;
use std::iter::FusedIterator;

/// An iterator that removes the pairs of a map, in any order. Once it is dropped, the map is empty.
///
/// [`SparseSecondaryMap::drain`] returns it. Dropping it removes the pairs that are left.
pub struct Drain<'a, K: Key, V, S: BuildHasher = DefaultHasher> {
    map: &'a mut SparseSecondaryMap<K, V, S>,
}

impl<'a, K: Key, V: Drop, S: BuildHasher + Drop> Drop for Drain<'a, K, V, S> {
    fn drop(self)
        ensures ends { self.exit.0.now.pairs ≡ map.empty }
        ensures capacity { (sparse_drain_loan self.entry).now.capacity ≤ self.exit.0.now.capacity }
        ensures valid { IsSparseContent self.exit.0.now }
    {
        let Drain { map } = self;
        map.clear();
    }
}

impl<'a, K: Key, V: Drop, S: BuildHasher + Drop> Iterator for Drain<'a, K, V, S> {
    type Item = (K, V);

    ghost next_gives = { SparseDrainSteps K.data_of };

    ghost remaining = { drain_count };

    fn next(&mut self) -> Option<(K, V)> {
        self.map.take_first()
    }

    fn size_hint(&self) -> (usize, Option<usize>)
        ensures lower { result.0 ≤ size (drain_count self.now) }
        ensures upper { IfSome result.1 (UpTo (drain_count self.now)) }
        ensures exact { result ≡ (size (drain_count self.now), Some (size (drain_count self.now))) }
    {
        let len = self.len();
        (len, Some(len))
    }
}

impl<'a, K: Key, V: Drop, S: BuildHasher + Drop> ExactSizeIterator for Drain<'a, K, V, S> {
    fn len(&self) -> usize {
        self.map.len()
    }
}

impl<'a, K: Key, V: Drop, S: BuildHasher + Drop> FusedIterator for Drain<'a, K, V, S> {}

impl<'a, K: Key, V: Drop, S: BuildHasher + Drop> fmt::Debug for Drain<'a, K, V, S> {
    fn fmt<W: fmt::Write>(&self, f: &mut fmt::Formatter<W>) -> fmt::Result {
        f.debug_struct("Drain")
            .field("remaining", &self.len())
            .finish()
    }
}

impl<K: Key, V: Drop, S: BuildHasher + Drop> SparseSecondaryMap<K, V, S> {
    /// Returns an iterator that removes the keys and yields them with their values, in any order.
    ///
    /// The iterator may be dropped at any step. Then the keys that are left are removed too, so the
    /// map is empty. The map keeps its memory. Each step takes constant time. Dropping it
    /// takes time linear in the capacity.
    ///
    /// ```
    /// for (key, value) in map.drain() {
    ///     assert_eq!(rt; (key, value), (a, 1));
    /// }
    /// assert!(rt; map.is_empty());
    /// ```
    pub fn drain(&mut self) -> Drain<'_, K, V, S>
        ensures map { (sparse_drain_loan result).now ≡ self.old }
        ensures same_reference { (sparse_drain_loan result).ghost_name ≡ self.entry.ghost_name }

        // Laws of the steps, for callers that go on with the iterator.
        ensures stays { KeepsAlong (SparseDrainSteps K.data_of) DrainKeeps result }
        ensures lists { ListsAlong K.data_of (λ d. keyed (sparse_drain_loan d).now.pairs) (SparseDrainSteps K.data_of) result }

        ensures valid { IsSparseContent self.old }
    {
        self.note_valid();
        Drain { map: self }
    }
}
