//! The iterator over a map by value.

ghost use Rattle.std.specs.Prelude.{◌≡◌, ◌≤◌, length, Some, IfSome, IfOk};
ghost use Rattle.slotmap_core.specs.Words.{YieldsFirstBy, item_count, at_most, UpTo, ClonesEqual, AreClones};
ghost use Rattle.slotmap_dense.specs.Dense.{ListsPairs};

use crate::DenseSlotMap;
use slotmap_core::keys::Key;
use std::alloc::AllocError;
use std::collections::VecDeque;
use std::fmt;
use std::iter::FusedIterator;
use std::marker::Model;

/// An iterator over the live keys and their values, by value and in packed order.
///
/// A `for` over a map takes it. A contract sees it as the list of the pairs that it will still
/// yield. After its end it yields nothing. All its steps together are linear in the number of live
/// keys, and allocate nothing. Dropping it drops the values that are left.
///
/// ```
/// let mut pairs = map.into_iter();
/// assert_eq!(rt; pairs.next(), Some((a, 1)));
/// assert_eq!(rt; pairs.next(), Some((b, 2)));
/// assert_eq!(rt; pairs.next(), None);
/// ```
pub struct IntoIter<K: Key, V> {
    keys: Vec<K>,
    // The position that comes next.
    position: usize,
    // The values from that position on.
    values: VecDeque<V>,
}

impl<K: Key, V: Drop> Drop for IntoIter<K, V> {
    fn drop(self) {
        let IntoIter {
            keys: _keys,
            position: _position,
            values: _values,
        } = self;
    }
}

impl<K: Key, V> Model for IntoIter<K, V> {
    ghost use Rattle.std.specs.Prelude.{◌≡◌, ◌+◌, List, drop, length as list_length, map as list_map, zip};
    ghost use Rattle.slotmap_core.specs.Words.{Key};

    ghost Value = { List (Key × V) };

    ghost view = { λ it. zip (list_map K.data_of (drop it.position it.keys.items)) it.values.items };

    ghost invariant = { λ it. list_length it.values.items + it.position ≡ list_length it.keys.items };
}

impl<K: Key, V> IntoIter<K, V> {
    /// Returns how many pairs are left.
    ///
    /// Constant time.
    ///
    /// ```
    /// let mut pairs = map.into_iter();
    /// pairs.next();
    /// assert_eq!(rt; pairs.len(), 1);
    /// ```
    pub fn len(&self) -> usize
        ensures { result ≡ length self.now }
    {
        self.values.len()
    }
}

impl<K: Key, V: Clone> IntoIter<K, V> {
    /// Returns a second iterator over the pairs that are left, with clones of the values.
    ///
    /// If memory runs out, or the clone of a value fails, the call fails, and this iterator is
    /// unchanged. It copies every key of the map, and clones the values that are left: linear in
    /// the number of keys that the map had.
    ///
    /// ```
    /// let pairs = map.into_iter();
    /// let mut copy = pairs.clone()?;
    /// assert_eq!(rt; copy.next(), Some((a, 1)));
    /// assert_eq!(rt; pairs.len(), 2);
    /// ```
    pub fn clone(&self) -> Result<Self, AllocError>
        ensures clones { IfOk result (AreClones V.is_clone self.now) }
        ensures copies_if_clones_equal { IfOk result (λ copy. ClonesEqual V.is_clone → copy ≡ self.now) }
    {
        Ok(IntoIter {
            keys: self.keys.clone()?,
            position: self.position,
            values: self.values.clone()?,
        })
    }
}

impl<K: Key, V: Clone> Clone for IntoIter<K, V> {
    ghost is_clone = { λ it copy. AreClones V.is_clone it copy };

    fn clone(&self) -> Result<Self, AllocError> {
        IntoIter::clone(self)
    }
}

impl<K: Key, V: Drop> Iterator for IntoIter<K, V> {
    type Item = (K, V);

    ghost next_gives = { YieldsFirstBy (λ item. (K.data_of item.0, item.1)) (λ rest. rest) };

    ghost remaining = { item_count (λ rest. rest) };

    fn next(&mut self) -> Option<(K, V)> {
        match self.values.pop_front() {
            Some(value) => {
                let key = self.keys[self.position];
                self.position += 1;
                Some((key, value))
            }
            None => None,
        }
    }

    fn size_hint(&self) -> (usize, Option<usize>)
        ensures lower { result.0 ≤ length self.now }
        ensures upper { IfSome result.1 (UpTo (at_most (length self.now))) }
        ensures exact { result ≡ (length self.now, Some (length self.now)) }
    {
        let len = self.len();
        (len, Some(len))
    }
}

impl<K: Key, V: Drop> ExactSizeIterator for IntoIter<K, V> {
    fn len(&self) -> usize {
        IntoIter::len(self)
    }
}

impl<K: Key, V: Drop> FusedIterator for IntoIter<K, V> {}

impl<K: Key, V> fmt::Debug for IntoIter<K, V> {
    fn fmt<W: fmt::Write>(&self, f: &mut fmt::Formatter<W>) -> fmt::Result {
        f.debug_struct("IntoIter")
            .field("remaining", &self.len())
            .finish()
    }
}

impl<K: Key, V: Drop> IntoIterator for DenseSlotMap<K, V> {
    type Item = (K, V);

    type IntoIter = IntoIter<K, V>;

    ghost into_iter_gives = { λ m it. ListsPairs m it };

    fn into_iter(self) -> IntoIter<K, V> {
        let DenseSlotMap {
            slots: _,
            keys,
            values,
        } = self;
        IntoIter {
            keys,
            position: 0,
            values: VecDeque::from_vec(values),
        }
    }
}
