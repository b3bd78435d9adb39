//! Iterators over the keys and values of a map, by ascending index.

ghost use Rattle.std.specs.FinMap as map;
ghost use Rattle.std.specs.Prelude.{◌≡◌, ◌≤◌, length, Some, IfSome, ⊤, true};
ghost use Rattle.slotmap_core.specs.Words.{YieldsFirstBy, item_count, at_most, UpTo, IsContent, IsListing, IsKeyListing, IsValueListing, ListsByIndex};

use crate::SlotMap;
use crate::columns::{OddCursor, version_in};
use slotmap_core::keys::{Key, KeyData};
use slotmap_core::sure::sure;
use std::alloc::AllocError;
use std::fmt;
use std::iter::FusedIterator;
use std::marker::{Model, PhantomData};

/// An iterator over the live keys and their values, by ascending index: see [`SlotMap::iter`].
///
/// A contract sees it as the list of the pairs that it will still yield. After its end it yields
/// nothing. A clone yields the same pairs; cloning allocates nothing.
#[derive(Drop)]
pub struct Iter<'a, K, V> {
    versions: &'a [u32],
    values: &'a [Option<V>],
    // Where the next occupied slot is looked for.
    cursor: OddCursor,
    // How many pairs are left.
    left: usize,
    key_type: PhantomData<K>,
}

impl<'a, K, V> Model for Iter<'a, K, V> {
    ghost use Rattle.slotmap_core.specs.Words.{List, Key};
    ghost use Rattle.slotmap_basic.specs.Odds.{IsAhead};
    ghost use Rattle.slotmap_basic.specs.Iter.{pairs_left, IsIter};

    ghost Value = { List (Key × V) };

    ghost view = { λ it. pairs_left it.cursor.index it.versions.now it.values.now };

    ghost invariant = { λ it. IsIter it.versions.now it.values.now it.cursor.index it.left × IsAhead it.versions.now it.cursor.run_end it.cursor.end it.cursor.index it.cursor.bits };
}

impl<'a, K, V> Iter<'a, K, V> {
    /// Returns how many pairs are left.
    ///
    /// Constant time.
    ///
    /// ```
    /// let mut pairs = map.iter();
    /// pairs.next();
    /// assert_eq!(rt; pairs.len(), 1);
    /// ```
    pub fn len(&self) -> usize
        ensures { result ≡ length self.now }
    {
        self.left
    }
}

impl<'a, K, V> Clone for Iter<'a, K, V> {
    ghost is_clone = { λ it copy. copy ≡ it };

    ghost is_infallible = { λ _. ⊤ };

    fn clone(&self) -> Result<Self, AllocError> {
        Ok(Iter {
            versions: self.versions,
            values: self.values,
            cursor: self.cursor,
            left: self.left,
            key_type: PhantomData,
        })
    }
}

impl<'a, K: Key, V> Iterator for Iter<'a, K, V> {
    type Item = (K, &'a V);

    ghost next_gives = { YieldsFirstBy (λ item. (K.data_of item.0, item.1.now)) (λ rest. rest) };

    ghost remaining = { item_count (λ rest. rest) };

    #[inline(always)]
    fn next(&mut self) -> Option<(K, &'a V)> {
        let index = self.cursor.next(self.versions)?;
        self.left -= 1;
        let version = version_in(self.versions, index);
        let key = K::from(KeyData::exact(index as u32, version));
        Some((key, sure(self.values[index].as_ref())))
    }

    fn size_hint(&self) -> (usize, Option<usize>)
        ensures lower { result.0 ≤ length self.now }
        ensures upper { IfSome result.1 (UpTo (at_most (length self.now))) }
        ensures exact { result ≡ (length self.now, Some (length self.now)) }
    {
        (self.left, Some(self.left))
    }
}

impl<'a, K: Key, V> ExactSizeIterator for Iter<'a, K, V> {
    fn len(&self) -> usize {
        Iter::len(self)
    }
}

impl<'a, K: Key, V> FusedIterator for Iter<'a, K, V> {}

impl<'a, K, V> fmt::Debug for Iter<'a, K, V> {
    fn fmt<W: fmt::Write>(&self, f: &mut fmt::Formatter<W>) -> fmt::Result {
        f.debug_struct("Iter")
            .field("remaining", &self.len())
            .finish()
    }
}

/// An iterator over the live keys, by ascending index: see [`SlotMap::keys`].
///
/// A contract sees it as the list of the keys that it will still yield. After its end it yields
/// nothing. A clone yields the same keys; cloning allocates nothing.
#[derive(Drop)]
pub struct Keys<'a, K, V> {
    pairs: Iter<'a, K, V>,
}

impl<'a, K, V> Model for Keys<'a, K, V> {
    ghost use Rattle.slotmap_core.specs.Words.{List, map, Key};

    ghost Value = { List Key };

    ghost view = { λ it. map (λ pair. pair.0) it.pairs };
}

impl<'a, K, V> Keys<'a, K, V> {
    /// Returns how many keys are left.
    ///
    /// Constant time.
    ///
    /// ```
    /// let mut keys = map.keys();
    /// keys.next();
    /// assert_eq!(rt; keys.len(), 1);
    /// ```
    pub fn len(&self) -> usize
        ensures { result ≡ length self.now }
    {
        self.pairs.len()
    }
}

impl<'a, K, V> Clone for Keys<'a, K, V> {
    ghost is_clone = { λ it copy. copy ≡ it };

    ghost is_infallible = { λ _. ⊤ };

    fn clone(&self) -> Result<Self, AllocError> {
        Ok(Keys {
            pairs: self.pairs.clone()?,
        })
    }
}

impl<'a, K: Key, V> Iterator for Keys<'a, K, V> {
    type Item = K;

    ghost next_gives = { YieldsFirstBy K.data_of (λ rest. rest) };

    ghost remaining = { item_count (λ rest. rest) };

    #[inline(always)]
    fn next(&mut self) -> Option<K> {
        let (key, _) = self.pairs.next()?;
        Some(key)
    }

    fn size_hint(&self) -> (usize, Option<usize>)
        ensures lower { result.0 ≤ length self.now }
        ensures upper { IfSome result.1 (UpTo (at_most (length self.now))) }
        ensures exact { result ≡ (length self.now, Some (length self.now)) }
    {
        let len = self.len();
        (len, Some(len))
    }
}

impl<'a, K: Key, V> ExactSizeIterator for Keys<'a, K, V> {
    fn len(&self) -> usize {
        Keys::len(self)
    }
}

impl<'a, K: Key, V> FusedIterator for Keys<'a, K, V> {}

impl<'a, K, V> fmt::Debug for Keys<'a, K, V> {
    fn fmt<W: fmt::Write>(&self, f: &mut fmt::Formatter<W>) -> fmt::Result {
        f.debug_struct("Keys")
            .field("remaining", &self.len())
            .finish()
    }
}

/// An iterator over the values, by ascending index of their keys: see [`SlotMap::values`].
///
/// A contract sees it as the list of the values that it will still yield. After its end it yields
/// nothing. A clone yields the same values; cloning allocates nothing.
#[derive(Drop)]
pub struct Values<'a, K, V> {
    pairs: Iter<'a, K, V>,
}

impl<'a, K, V> Model for Values<'a, K, V> {
    ghost use Rattle.slotmap_core.specs.Words.{List, map};

    ghost Value = { List V };

    ghost view = { λ it. map (λ pair. pair.1) it.pairs };
}

impl<'a, K, V> Values<'a, K, V> {
    /// Returns how many values are left.
    ///
    /// Constant time.
    ///
    /// ```
    /// let mut values = map.values();
    /// values.next();
    /// assert_eq!(rt; values.len(), 1);
    /// ```
    pub fn len(&self) -> usize
        ensures { result ≡ length self.now }
    {
        self.pairs.len()
    }
}

impl<'a, K, V> Clone for Values<'a, K, V> {
    ghost is_clone = { λ it copy. copy ≡ it };

    ghost is_infallible = { λ _. ⊤ };

    fn clone(&self) -> Result<Self, AllocError> {
        Ok(Values {
            pairs: self.pairs.clone()?,
        })
    }
}

impl<'a, K: Key, V> Iterator for Values<'a, K, V> {
    type Item = &'a V;

    ghost next_gives = { YieldsFirstBy (λ item. item.now) (λ rest. rest) };

    ghost remaining = { item_count (λ rest. rest) };

    #[inline(always)]
    fn next(&mut self) -> Option<&'a V> {
        let (_, value) = self.pairs.next()?;
        Some(value)
    }

    fn size_hint(&self) -> (usize, Option<usize>)
        ensures lower { result.0 ≤ length self.now }
        ensures upper { IfSome result.1 (UpTo (at_most (length self.now))) }
        ensures exact { result ≡ (length self.now, Some (length self.now)) }
    {
        let len = self.len();
        (len, Some(len))
    }
}

impl<'a, K: Key, V> ExactSizeIterator for Values<'a, K, V> {
    fn len(&self) -> usize {
        Values::len(self)
    }
}

impl<'a, K: Key, V> FusedIterator for Values<'a, K, V> {}

impl<'a, K, V> fmt::Debug for Values<'a, K, V> {
    fn fmt<W: fmt::Write>(&self, f: &mut fmt::Formatter<W>) -> fmt::Result {
        f.debug_struct("Values")
            .field("remaining", &self.len())
            .finish()
    }
}

impl<K: Key, V> SlotMap<K, V> {
    /// Returns an iterator over the live keys and their values, by ascending index.
    ///
    /// It is made in constant time. All its steps together are linear in the number of slots, whose
    /// versions they look at 64 at a time, and allocate nothing. No iterator yields mutable
    /// references: use `retain` with a closure that writes and returns `true`.
    ///
    /// ```
    /// let mut pairs = map.iter();
    /// assert_eq!(rt; pairs.next(), Some((a, &1)));
    /// assert_eq!(rt; pairs.next(), Some((b, &2)));
    /// assert_eq!(rt; pairs.next(), None);
    /// ```
    pub fn iter(&self) -> Iter<'_, K, V>
        ensures listing { IsListing self.now.live result }
        ensures in_order { result ≡ map.entries self.now.live }
        ensures valid { IsContent true self.now }
    {
        self.slots.note_valid();
        let left = self.slots.len();
        let (versions, values) = self.slots.layout().as_slices();
        let cursor = OddCursor::of_slots(0, versions.len(), left);
        Iter {
            versions,
            values,
            cursor,
            left,
            key_type: PhantomData,
        }
    }

    /// Returns an iterator over the live keys, by ascending index.
    ///
    /// It costs the same as [`SlotMap::iter`].
    ///
    /// ```
    /// let mut keys = map.keys();
    /// assert_eq!(rt; keys.next(), Some(a));
    /// assert_eq!(rt; keys.next(), Some(b));
    /// assert_eq!(rt; keys.next(), None);
    /// ```
    pub fn keys(&self) -> Keys<'_, K, V>
        ensures listing { IsKeyListing self.now.live result }
        ensures in_order { result ≡ map.keys self.now.live }
        ensures valid { IsContent true self.now }
    {
        Keys { pairs: self.iter() }
    }

    /// Returns an iterator over the values of the live keys, by ascending index of their keys.
    ///
    /// It costs the same as [`SlotMap::iter`]. No iterator yields mutable references: use `retain`
    /// with a closure that writes and returns `true`.
    ///
    /// ```
    /// let mut values = map.values();
    /// assert_eq!(rt; values.next(), Some(&1));
    /// assert_eq!(rt; values.next(), Some(&2));
    /// ```
    pub fn values(&self) -> Values<'_, K, V>
        ensures listing { IsValueListing self.now.live result }
        ensures in_order { result ≡ map.values self.now.live }
        ensures valid { IsContent true self.now }
    {
        Values { pairs: self.iter() }
    }
}

impl<'a, K: Key, V> IntoIterator for &'a SlotMap<K, V> {
    type Item = (K, &'a V);

    type IntoIter = Iter<'a, K, V>;

    ghost into_iter_gives = { λ m it. ListsByIndex m.now.live it };

    fn into_iter(self) -> Iter<'a, K, V> {
        self.iter()
    }
}
