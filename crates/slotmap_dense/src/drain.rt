//! The iterator that takes the pairs out of a map.

ghost use Rattle.std.specs.Prelude.{◌≡◌, ◌≤◌, Some, IfSome};
ghost use Rattle.slotmap_core.specs.Words.{size, UpTo, drain_count, KeepsLoan, Along, KeepsAlong, ListsAlong};
ghost use Rattle.slotmap_dense.specs.Dense.{IsDense, EmptiesDense};
ghost use Rattle.slotmap_dense.specs.Drain.{dense_drain_loan, dense_drain_live, DenseDrainSteps, DrainsFromBack};

use crate::DenseSlotMap;
use slotmap_core::keys::Key;
use std::fmt;
use std::iter::FusedIterator;

/// An iterator that takes the pairs out of a map, from the back of the packed order.
///
/// `DenseSlotMap::drain` makes it. Dropping it removes the keys that it hasn't yielded. So no key
/// of the map is live then.
pub struct Drain<'a, K: Key, V> {
    map: &'a mut DenseSlotMap<K, V>,
}

impl<'a, K: Key, V: Drop> Drop for Drain<'a, K, V> {
    fn drop(self)
        ensures ends { EmptiesDense (dense_drain_loan self.entry).now self.exit.0.now }
        ensures valid { IsDense self.exit.0.now }
    {
        let Drain { map } = self;
        map.clear();
    }
}

impl<'a, K: Key, V: Drop> Iterator for Drain<'a, K, V> {
    type Item = (K, V);

    ghost next_gives = { DenseDrainSteps K.data_of };

    ghost remaining = { drain_count dense_drain_live };

    fn next(&mut self) -> Option<(K, V)> {
        match self.map.take_last() {
            Some(pair) => Some(pair),
            None => None,
        }
    }

    fn size_hint(&self) -> (usize, Option<usize>)
        ensures lower { result.0 ≤ size (drain_count dense_drain_live self.now) }
        ensures upper { IfSome result.1 (UpTo (drain_count dense_drain_live self.now)) }
        ensures exact { result ≡ (size (drain_count dense_drain_live self.now), Some (size (drain_count dense_drain_live self.now))) }
    {
        let len = self.len();
        (len, Some(len))
    }
}

impl<'a, K: Key, V: Drop> ExactSizeIterator for Drain<'a, K, V> {
    fn len(&self) -> usize {
        self.map.len()
    }
}

impl<'a, K: Key, V: Drop> FusedIterator for Drain<'a, K, V> {}

impl<'a, K: Key, V: Drop> fmt::Debug for Drain<'a, K, V> {
    fn fmt<W: fmt::Write>(&self, f: &mut fmt::Formatter<W>) -> fmt::Result {
        f.debug_struct("Drain")
            .field("remaining", &self.len())
            .finish()
    }
}

impl<K: Key, V: Drop> DenseSlotMap<K, V> {
    /// Returns an iterator that removes the live keys and yields them with their values, from the
    /// back of the packed order.
    ///
    /// Each key is removed when it is yielded, as `remove` does, and no other pair moves. Dropping
    /// the iterator early removes the remaining keys too. Detached keys stay detached. Each step
    /// takes constant time. Dropping it takes time linear in the number of keys that are left.
    ///
    /// ```
    /// let mut sum = 0;
    /// for (_, value) in map.drain() {
    ///     sum += value;
    /// }
    /// assert_eq!(rt; sum, 3);
    /// assert!(rt; map.is_empty());
    /// ```
    pub fn drain(&mut self) -> Drain<'_, K, V>
        ensures map { (dense_drain_loan result).now ≡ self.old }
        ensures same_reference { (dense_drain_loan result).ghost_name ≡ self.entry.ghost_name }
        // Laws of the steps, for callers that take more of them.
        ensures stays { KeepsAlong (DenseDrainSteps K.data_of) (KeepsLoan dense_drain_loan EmptiesDense) result }
        ensures lists { ListsAlong K.data_of dense_drain_live (DenseDrainSteps K.data_of) result }
        ensures in_order { Along (DenseDrainSteps K.data_of) (DrainsFromBack K.data_of) result }
        ensures valid { IsDense self.old }
    {
        self.note_valid();
        Drain { map: self }
    }
}
