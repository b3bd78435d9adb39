//! The iterator that takes the pairs out of a map.

ghost use Rattle.std.specs.Prelude.{◌≡◌, ◌≤◌, Some, IfSome};
ghost use Rattle.slotmap_core.specs.Words.{size, UpTo};
ghost use Rattle.slotmap_hop.specs.HopContent.{IsHopContent};

use crate::HopSlotMap;
use crate::iter::fmt_remaining;
use slotmap_core::keys::Key;
use std::fmt;
use std::iter::FusedIterator;

/// An iterator that takes the pairs out of a map, by ascending index.
///
/// `HopSlotMap::drain` makes it. Dropping it removes the keys that it hasn't yielded. So no key of
/// the map is live then. `next` requires `HopDrainCanStep`. `drain` ensures it, and each step keeps it.
/// A function that takes a `Drain` as a parameter has to require it.
pub struct Drain<'a, K: Key, V> {
    map: &'a mut HopSlotMap<K, V>,
    // The key that comes next.
    next: Option<K>,
}

impl<'a, K: Key, V: Drop> Drop for Drain<'a, K, V> {
    ghost use Rattle.slotmap_hop.specs.Drain.{hop_drain_loan, EmptiesMap};

    fn drop(self)
        ensures ends { EmptiesMap (hop_drain_loan self.entry).now self.exit.0.now.content }
        ensures valid { IsHopContent self.exit.0.now }
    {
        let Drain { map, next: _next } = self;
        map.clear();
    }
}

impl<'a, K: Key, V: Drop> Iterator for Drain<'a, K, V> {
    ghost use Rattle.slotmap_core.specs.Words.{drain_count};
    ghost use Rattle.slotmap_hop.specs.Drain.{hop_drain_live, HopDrainSteps, HopDrainCanStep};

    type Item = (K, V);

    ghost can_next = { HopDrainCanStep K.data_of };

    ghost next_gives = { HopDrainSteps K.data_of };

    ghost remaining = { drain_count hop_drain_live };

    fn next(&mut self) -> Option<(K, V)> {
        let Some(key) = self.next else {
            return None;
        };
        // The key after this one is looked for first, because the removal may join blocks.
        self.next = self.map.first_live(key.data().idx() + 1);
        Some((key, self.map.take_live(key)))
    }

    fn size_hint(&self) -> (usize, Option<usize>)
        ensures lower { result.0 ≤ size (drain_count hop_drain_live self.now) }
        ensures upper { IfSome result.1 (UpTo (drain_count hop_drain_live self.now)) }
        ensures exact { result ≡ (size (drain_count hop_drain_live self.now), Some (size (drain_count hop_drain_live self.now))) }
    {
        let len = self.len();
        (len, Some(len))
    }
}

impl<'a, K: Key, V: Drop> ExactSizeIterator for Drain<'a, K, V> {
    fn len(&self) -> usize {
        self.map.len()
    }
}

impl<'a, K: Key, V: Drop> FusedIterator for Drain<'a, K, V> {}

impl<'a, K: Key, V: Drop> fmt::Debug for Drain<'a, K, V> {
    fn fmt<W: fmt::Write>(&self, f: &mut fmt::Formatter<W>) -> fmt::Result {
        fmt_remaining(f, "Drain", self.len())
    }
}

impl<K: Key, V: Drop> HopSlotMap<K, V> {
    ghost use Rattle.slotmap_core.specs.Words.{KeepsLoan, KeepsAlong, ListsAlong, InOrderAlong};
    ghost use Rattle.slotmap_hop.specs.Drain.{hop_drain_loan, hop_drain_live, EmptiesMap, HopDrainCanStep, HopDrainSteps};

    /// Returns an iterator that removes the live keys and yields them with their values, by
    /// ascending index.
    ///
    /// Each key is removed when it is yielded, as `remove` does. Dropping the iterator early
    /// removes the remaining keys too. A block of vacant slots is skipped in one step. All steps
    /// and the drop together are at most linear in the number of slots.
    ///
    /// ```
    /// let mut sum = 0;
    /// for (_, value) in map.drain() {
    ///     sum += value;
    /// }
    /// assert_eq!(rt; sum, 3);
    /// assert!(rt; map.is_empty());
    /// ```
    pub fn drain(&mut self) -> Drain<'_, K, V>
        ensures map { (hop_drain_loan result).now ≡ self.old }
        ensures same_reference { (hop_drain_loan result).ghost_name ≡ self.entry.ghost_name }
        ensures ready { HopDrainCanStep K.data_of result }

        // Laws of the steps, for callers that take more of them.
        ensures stays { KeepsAlong (HopDrainSteps K.data_of) (KeepsLoan hop_drain_loan EmptiesMap) result }
        ensures lists { ListsAlong K.data_of hop_drain_live (HopDrainSteps K.data_of) result }
        ensures in_order { InOrderAlong K.data_of hop_drain_live (HopDrainSteps K.data_of) result }

        ensures valid { IsHopContent self.old }
    {
        let next = self.first_live(0);
        Drain { map: self, next }
    }
}
