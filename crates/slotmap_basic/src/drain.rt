//! The iterator that takes the pairs out of a map.

ghost use Rattle.std.specs.Prelude.{◌≡◌, ◌≤◌, true, Some, IfSome};
ghost use Rattle.slotmap_core.specs.Words.{size, UpTo, IsContent, EmptiesByIndex, drain_count, KeepsLoan, KeepsAlong, ListsAlong, InOrderAlong};
ghost use Rattle.slotmap_basic.specs.Drain.{drain_loan, DrainCanStep, drain_live, DrainSteps};

use crate::SlotMap;
use crate::columns::OddCursor;
use slotmap_core::keys::Key;
use std::fmt;
use std::iter::FusedIterator;

/// An iterator that takes the pairs out of a map, by ascending index.
///
/// `SlotMap::drain` makes it. Dropping it removes the keys that it hasn't yielded. So no key of the
/// map is live then. `next`, and the promise about the drop, require `DrainCanStep`. `drain` ensures
/// it, and each step keeps it. A function that takes a `Drain` as a parameter has to require it.
pub struct Drain<'a, K: Key, V> {
    map: &'a mut SlotMap<K, V>,
    // Where the next occupied slot is looked for.
    cursor: OddCursor,
}

impl<'a, K: Key, V: Drop> Drop for Drain<'a, K, V> {
    fn drop(self)
        ensures ends { DrainCanStep self.entry → EmptiesByIndex (drain_loan self.entry).now self.exit.0.now }
        ensures valid { IsContent true self.exit.0.now }
    {
        let Drain { map, cursor } = self;
        map.clear_from(cursor.index());
    }
}

impl<'a, K: Key, V: Drop> Iterator for Drain<'a, K, V> {
    type Item = (K, V);

    ghost can_next = { DrainCanStep };

    ghost next_gives = { DrainSteps K.data_of };

    ghost remaining = { drain_count drain_live };

    #[inline(always)]
    fn next(&mut self) -> Option<(K, V)> {
        let map = &mut *self.map;
        let key = map.next_live(&mut self.cursor)?;
        Some((key, map.take_live(key)))
    }

    fn size_hint(&self) -> (usize, Option<usize>)
        ensures lower { result.0 ≤ size (drain_count drain_live self.now) }
        ensures upper { IfSome result.1 (UpTo (drain_count drain_live self.now)) }
        ensures exact { result ≡ (size (drain_count drain_live self.now), Some (size (drain_count drain_live self.now))) }
    {
        let len = self.len();
        (len, Some(len))
    }
}

impl<'a, K: Key, V: Drop> ExactSizeIterator for Drain<'a, K, V> {
    fn len(&self) -> usize {
        self.map.len()
    }
}

impl<'a, K: Key, V: Drop> FusedIterator for Drain<'a, K, V> {}

impl<'a, K: Key, V: Drop> fmt::Debug for Drain<'a, K, V> {
    fn fmt<W: fmt::Write>(&self, f: &mut fmt::Formatter<W>) -> fmt::Result {
        f.debug_struct("Drain")
            .field("remaining", &self.len())
            .finish()
    }
}

impl<K: Key, V: Drop> SlotMap<K, V> {
    /// Returns an iterator that removes the live keys and yields them with their values, by
    /// ascending index.
    ///
    /// Each key is removed when it is yielded, as `remove` does. Dropping the iterator early
    /// removes the remaining keys too. Detached keys stay detached. All steps and the drop together
    /// are linear in the number of slots.
    ///
    /// ```
    /// let mut sum = 0;
    /// for (_, value) in map.drain() {
    ///     sum += value;
    /// }
    /// assert_eq!(rt; sum, 3);
    /// assert!(rt; map.is_empty());
    /// ```
    pub fn drain(&mut self) -> Drain<'_, K, V>
        ensures map { (drain_loan result).now ≡ self.old }
        ensures same_reference { (drain_loan result).ghost_name ≡ self.entry.ghost_name }
        ensures ready { DrainCanStep result }

        // Laws of the steps, for callers that take more of them.
        ensures stays { KeepsAlong (DrainSteps K.data_of) (KeepsLoan drain_loan EmptiesByIndex) result }
        ensures lists { ListsAlong K.data_of drain_live (DrainSteps K.data_of) result }
        ensures in_order { InOrderAlong K.data_of drain_live (DrainSteps K.data_of) result }

        ensures valid { IsContent true self.old }
    {
        let cursor = self.cursor_from(0);
        Drain { map: self, cursor }
    }
}
