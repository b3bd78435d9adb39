//! The iterator over a map by value.

ghost use Rattle.std.specs.Prelude.{◌≡◌, ◌≤◌, length, Some, IfSome, IfOk};
ghost use Rattle.slotmap_core.specs.Words.{YieldsFirstBy, item_count, at_most, UpTo, ClonesEqual, AreClones, ListsByIndex};

use crate::SlotMap;
use crate::columns::OddCursor;
use slotmap_core::keys::{Key, KeyData};
use slotmap_core::sure::sure;
use std::alloc::AllocError;
use std::fmt;
use std::iter::FusedIterator;
use std::marker::{Model, PhantomData};

/// An iterator over the live keys and their values, by value and by ascending index.
///
/// A `for` over a map takes it. A contract sees it as the list of the pairs that it will still
/// yield. After its end it yields nothing. All its steps together are linear in the number of
/// slots, and allocate nothing. Dropping it drops the values that are left.
///
/// ```
/// let mut pairs = map.into_iter();
/// assert_eq!(rt; pairs.next(), Some((a, 1)));
/// assert_eq!(rt; pairs.next(), Some((b, 2)));
/// assert_eq!(rt; pairs.next(), None);
/// ```
pub struct IntoIter<K, V> {
    versions: Vec<u32>,
    values: Vec<Option<V>>,
    // Where the next occupied slot is looked for.
    cursor: OddCursor,
    // How many pairs are left.
    left: usize,
    key_type: PhantomData<K>,
}

impl<K, V: Drop> Drop for IntoIter<K, V> {
    fn drop(self) {
        let IntoIter {
            versions: _versions,
            values: _values,
            cursor: _cursor,
            left: _left,
            key_type: _key_type,
        } = self;
    }
}

impl<K, V> Model for IntoIter<K, V> {
    ghost use Rattle.slotmap_core.specs.Words.{List, Key};
    ghost use Rattle.slotmap_basic.specs.Odds.{IsAhead};
    ghost use Rattle.slotmap_basic.specs.Iter.{pairs_left, IsIter};

    ghost Value = { List (Key × V) };

    ghost view = { λ it. pairs_left it.cursor.index it.versions.items it.values.items };

    ghost invariant = { λ it. IsIter it.versions.items it.values.items it.cursor.index it.left × IsAhead it.versions.items it.cursor.run_end it.cursor.end it.cursor.index it.cursor.bits };
}

impl<K, V> IntoIter<K, V> {
    /// Returns how many pairs are left.
    ///
    /// Constant time.
    ///
    /// ```
    /// let mut pairs = map.into_iter();
    /// pairs.next();
    /// assert_eq!(rt; pairs.len(), 1);
    /// ```
    pub fn len(&self) -> usize
        ensures { result ≡ length self.now }
    {
        self.left
    }
}

impl<K, V: Clone> IntoIter<K, V> {
    /// Returns a second iterator over the pairs that are left, with clones of the values.
    ///
    /// If memory runs out, or the clone of a value fails, the call fails, and this iterator is
    /// unchanged. Linear in the number of slots of the map.
    ///
    /// ```
    /// let pairs = map.into_iter();
    /// let mut copy = pairs.clone()?;
    /// assert_eq!(rt; copy.next(), Some((a, 1)));
    /// assert_eq!(rt; pairs.len(), 2);
    /// ```
    pub fn clone(&self) -> Result<Self, AllocError>
        ensures clones { IfOk result (AreClones V.is_clone self.now) }
        ensures copies_if_clones_equal { IfOk result (λ copy. ClonesEqual V.is_clone → copy ≡ self.now) }
    {
        Ok(IntoIter {
            versions: self.versions.clone()?,
            values: self.values.clone()?,
            cursor: self.cursor,
            left: self.left,
            key_type: PhantomData,
        })
    }
}

impl<K, V: Clone> Clone for IntoIter<K, V> {
    ghost is_clone = { λ it copy. AreClones V.is_clone it copy };

    fn clone(&self) -> Result<Self, AllocError> {
        IntoIter::clone(self)
    }
}

impl<K: Key, V: Drop> Iterator for IntoIter<K, V> {
    type Item = (K, V);

    ghost next_gives = { YieldsFirstBy (λ item. (K.data_of item.0, item.1)) (λ rest. rest) };

    ghost remaining = { item_count (λ rest. rest) };

    fn next(&mut self) -> Option<(K, V)> {
        let index = self.cursor.next(&self.versions)?;
        self.left -= 1;
        let version = self.versions[index];
        let key = K::from(KeyData::exact(index as u32, version));
        Some((key, sure(self.values[index].take())))
    }

    fn size_hint(&self) -> (usize, Option<usize>)
        ensures lower { result.0 ≤ length self.now }
        ensures upper { IfSome result.1 (UpTo (at_most (length self.now))) }
        ensures exact { result ≡ (length self.now, Some (length self.now)) }
    {
        (self.left, Some(self.left))
    }
}

impl<K: Key, V: Drop> ExactSizeIterator for IntoIter<K, V> {
    fn len(&self) -> usize {
        IntoIter::len(self)
    }
}

impl<K: Key, V: Drop> FusedIterator for IntoIter<K, V> {}

impl<K, V> fmt::Debug for IntoIter<K, V> {
    fn fmt<W: fmt::Write>(&self, f: &mut fmt::Formatter<W>) -> fmt::Result {
        f.debug_struct("IntoIter")
            .field("remaining", &self.len())
            .finish()
    }
}

impl<K: Key, V: Drop> IntoIterator for SlotMap<K, V> {
    type Item = (K, V);

    type IntoIter = IntoIter<K, V>;

    ghost into_iter_gives = { λ m it. ListsByIndex m.live it };

    fn into_iter(self) -> IntoIter<K, V> {
        let left = self.slots.len();
        let SlotMap {
            slots,
            key_type: _key_type,
        } = self;
        let (versions, values) = slots.into_layout().into_parts();
        let cursor = OddCursor::of_slots(0, versions.len(), left);
        IntoIter {
            versions,
            values,
            cursor,
            left,
            key_type: PhantomData,
        }
    }
}
