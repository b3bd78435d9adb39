//! The iterator that takes the elements out of a list.

ghost use Rattle.std.specs.Prelude.{◌≡◌, ◌≤◌, Some, IfSome, length};
ghost use Rattle.std.specs.Iterator.{size, UpTo};

use crate::StableList;
use slotmap::Key;
use std::iter::FusedIterator;

/// An iterator that takes the elements out of a list, from front to back: see [`StableList::drain`].
///
/// Dropping it removes the elements that it hasn't yielded. So the list is empty then.
pub struct Drain<'a, K: Key, T> {
    list: &'a mut StableList<K, T>,
}

impl<'a, K: Key, T: Drop> Drop for Drain<'a, K, T> {
    ghost use Rattle.slotmap_list.specs.Drain.{drain_loan, EmptiesList};

    fn drop(self)
        ensures ends { EmptiesList (drain_loan self.entry).now self.exit.0.now }
    {
        let Drain { list } = self;
        list.clear();
    }
}

impl<'a, K: Key, T: Drop> Iterator for Drain<'a, K, T> {
    ghost use Rattle.slotmap_list.specs.Drain.{drain_count, DrainSteps};

    type Item = (K, T);

    ghost next_gives = { DrainSteps K.data_of };

    ghost remaining = { drain_count };

    fn next(&mut self) -> Option<(K, T)> {
        self.list.pop_front()
    }

    fn size_hint(&self) -> (usize, Option<usize>)
        ensures lower { result.0 ≤ size (drain_count self.now) }
        ensures upper { IfSome result.1 (UpTo (drain_count self.now)) }
        ensures exact { result ≡ (size (drain_count self.now), Some (size (drain_count self.now))) }
    {
        let len = self.list.len();
        (len, Some(len))
    }
}

impl<'a, K: Key, T: Drop> ExactSizeIterator for Drain<'a, K, T> {
    fn len(&self) -> usize {
        self.list.len()
    }
}

impl<'a, K: Key, T: Drop> FusedIterator for Drain<'a, K, T> {}

impl<K: Key, T: Drop> StableList<K, T> {
    ghost use Rattle.slotmap_list.specs.Drain.{drain_loan, DrainSteps, KeepsLent, YieldsInOrder};

    /// Returns an iterator that takes out the elements and yields them with their cursors, from front
    /// to back. The cursors are never used again.
    ///
    /// Dropping the iterator early removes the remaining elements too. The list is empty then, has lost
    /// no room, and its capacity stays. The iterator is made in constant time.
    ///
    /// ```
    /// let mut list = StableList::new(alloc)?;
    /// let one = list.push_back(1)?;
    /// list.push_back(2)?;
    /// let first = list.drain().next(); // the drain is dropped here
    /// assert_eq!(rt; first, Some((one, 1)));
    /// assert!(rt; list.is_empty());
    /// ```
    pub fn drain(&mut self) -> Drain<'_, K, T>
        ensures list { (drain_loan result).now ≡ self.old }
        ensures same_reference { (drain_loan result).ghost_name ≡ self.entry.ghost_name }

        // Laws of the steps, for callers that take more of them.
        ensures stays { KeepsLent K.data_of result }
        ensures in_order { YieldsInOrder K.data_of result }
    {
        Drain { list: self }
    }
}
