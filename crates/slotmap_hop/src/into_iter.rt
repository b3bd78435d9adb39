//! The iterator over a map by value.

ghost use Rattle.std.specs.Prelude.{◌≡◌, ◌≤◌, length, Some, IfSome, IfOk};
ghost use Rattle.slotmap_core.specs.Words.{YieldsFirstBy, item_count, at_most, UpTo, ClonesEqual, AreClones, ListsByIndex};

use crate::HopSlotMap;
use crate::blocks::retire;
use crate::clone::clone_slots;
use crate::iter::counted::{CountedSlots, next_live};
use crate::iter::fmt_remaining;
use crate::links::{Slot, back_of};
use slotmap_core::keys::{Key, KeyData};
use std::alloc::AllocError;
use std::fmt;
use std::iter::FusedIterator;
use std::marker::{Model, PhantomData};

/// An iterator over the live keys and their values, by value and by ascending index.
///
/// A `for` over a map takes it. A contract sees it as the list of the pairs that it will still
/// yield. After its end it yields nothing. A step skips a block of vacant slots at once, and
/// allocates nothing. Dropping it drops the values that are left.
///
/// ```
/// let mut pairs = map.into_iter();
/// assert_eq!(rt; pairs.next(), Some((a, 1)));
/// assert_eq!(rt; pairs.next(), Some((b, 2)));
/// assert_eq!(rt; pairs.next(), None);
/// ```
pub struct IntoIter<K, V> {
    // A slot whose value was yielded counts as retired.
    slots: Vec<Slot<V>>,
    // The slot before the place to go on from. There is a live or retired slot, the first one of a
    // block, or the end.
    last: usize,
    // How many values are still to come.
    left: usize,
    keys: PhantomData<K>,
}

impl<K, V: Drop> Drop for IntoIter<K, V> {
    fn drop(self) {
        let IntoIter {
            slots: _slots,
            last: _last,
            left: _left,
            keys: _keys,
        } = self;
    }
}

impl<K, V> Model for IntoIter<K, V> {
    ghost use Rattle.std.specs.Prelude.{◌+◌};
    ghost use Rattle.slotmap_core.specs.Words.{List, Key};
    ghost use Rattle.slotmap_hop.specs.Iter.{pairs_left, IsIter};

    ghost Value = { List (Key × V) };

    ghost view = { λ it. pairs_left it.slots.items (it.last + 1) };

    ghost invariant = { λ it. IsIter it.slots.items 0 (it.last + 1) it.left };
}

impl<K, V> IntoIter<K, V> {
    /// Returns how many pairs are left.
    ///
    /// Constant time.
    ///
    /// ```
    /// let mut pairs = map.into_iter();
    /// pairs.next();
    /// assert_eq!(rt; pairs.len(), 1);
    /// ```
    pub fn len(&self) -> usize
        ensures { result ≡ length self.now }
    {
        self.left
    }
}

impl<K, V: Clone> IntoIter<K, V> {
    /// Returns a second iterator over the pairs that are left, with clones of the values.
    ///
    /// If memory runs out, or the clone of a value fails, the call fails, and this iterator stays as
    /// it is. Linear in the number of slots of the map.
    ///
    /// ```
    /// let pairs = map.into_iter();
    /// let mut copy = pairs.clone()?;
    /// assert_eq!(rt; copy.next(), Some((a, 1)));
    /// assert_eq!(rt; pairs.len(), 2);
    /// ```
    pub fn clone(&self) -> Result<Self, AllocError>
        ensures clones { IfOk result (AreClones V.is_clone self.now) }
        // Where clones equal their values, the second one yields the same pairs.
        ensures copies_if_clones_equal { IfOk result (λ copy. ClonesEqual V.is_clone → copy ≡ self.now) }
    {
        Ok(IntoIter {
            slots: clone_slots(&self.slots)?,
            last: self.last,
            left: self.left,
            keys: PhantomData,
        })
    }
}

/// Calls the method `clone`. It is for code that is generic over `Clone`.
impl<K, V: Clone> Clone for IntoIter<K, V> {
    ghost is_clone = { λ it copy. AreClones V.is_clone it copy };

    fn clone(&self) -> Result<Self, AllocError> {
        IntoIter::clone(self)
    }
}

impl<K: Key, V: Drop> Iterator for IntoIter<K, V> {
    type Item = (K, V);

    ghost next_gives = { YieldsFirstBy (λ item. (K.data_of item.0, item.1)) (λ rest. rest) };

    ghost remaining = { item_count (λ rest. rest) };

    fn next(&mut self) -> Option<(K, V)> {
        if self.left == 0 {
            return None;
        }
        let mut counted = CountedSlots::new(self.slots.as_slice(), self.last);
        let slot = next_live(&mut counted);
        let version = counted.again(slot).version();
        let index = counted.index();
        self.left -= 1;
        self.last = index;
        let key = K::from(KeyData::exact(index as u32, version));
        let value = retire(self.slots.as_mut_slice(), index as u32);
        Some((key, value))
    }

    fn size_hint(&self) -> (usize, Option<usize>)
        ensures lower { result.0 ≤ length self.now }
        ensures upper { IfSome result.1 (UpTo (at_most (length self.now))) }
        ensures exact { result ≡ (length self.now, Some (length self.now)) }
    {
        (self.left, Some(self.left))
    }
}

impl<K: Key, V: Drop> ExactSizeIterator for IntoIter<K, V> {
    fn len(&self) -> usize {
        IntoIter::len(self)
    }
}

impl<K: Key, V: Drop> FusedIterator for IntoIter<K, V> {}

impl<K, V> fmt::Debug for IntoIter<K, V> {
    fn fmt<W: fmt::Write>(&self, f: &mut fmt::Formatter<W>) -> fmt::Result {
        fmt_remaining(f, "IntoIter", self.len())
    }
}

impl<K: Key, V: Drop> IntoIterator for HopSlotMap<K, V> {
    type Item = (K, V);

    type IntoIter = IntoIter<K, V>;

    ghost into_iter_gives = { λ m it. ListsByIndex m.content.live it };

    fn into_iter(self) -> IntoIter<K, V> {
        let HopSlotMap {
            slots,
            vacant_count: _,
            live_count,
            keys: _,
        } = self;
        let back = back_of(slots.as_slice(), 0);
        IntoIter {
            slots,
            last: back as usize,
            left: live_count as usize,
            keys: PhantomData,
        }
    }
}
