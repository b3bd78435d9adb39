//! Iterators over the keys and values of a map, in packed order.

ghost use Rattle.std.specs.Prelude.{◌≡◌, ◌≤◌, length, Some, IfSome, ⊤, zip};
ghost use Rattle.slotmap_core.specs.Words.{YieldsFirstBy, item_count, at_most, UpTo, IsListing, IsKeyListing, IsValueListing};
ghost use Rattle.slotmap_dense.specs.Dense.{IsDense, ListsPairs};

use crate::DenseSlotMap;
use slotmap_core::keys::Key;
use std::alloc::AllocError;
use std::fmt;
use std::iter::FusedIterator;
use std::marker::Model;

/// An iterator over the live keys and their values, in packed order: see [`DenseSlotMap::iter`].
///
/// A contract sees it as the list of the pairs that it will still yield. After its end it yields
/// nothing. A clone yields the same pairs; cloning allocates nothing.
#[derive(Drop)]
pub struct Iter<'a, K: Key, V> {
    keys: &'a [K],
    values: &'a [V],
    // The position that comes next.
    position: usize,
}

impl<'a, K: Key, V> Model for Iter<'a, K, V> {
    ghost use Rattle.std.specs.Prelude.{◌≡◌, ◌≤◌, List, drop, length as list_length, map as list_map, zip};
    ghost use Rattle.slotmap_core.specs.Words.{Key};

    ghost Value = { List (Key × V) };

    ghost view = { λ it. zip (list_map K.data_of (drop it.position it.keys.now)) (drop it.position it.values.now) };

    ghost invariant = { λ it. (list_length it.values.now ≡ list_length it.keys.now) × (it.position ≤ list_length it.keys.now) };
}

impl<'a, K: Key, V> Iter<'a, K, V> {
    /// Returns how many pairs are left.
    ///
    /// Constant time.
    ///
    /// ```
    /// let mut pairs = map.iter();
    /// pairs.next();
    /// assert_eq!(rt; pairs.len(), 1);
    /// ```
    pub fn len(&self) -> usize
        ensures { result ≡ length self.now }
    {
        self.keys.len() - self.position
    }
}

impl<'a, K: Key, V> Clone for Iter<'a, K, V> {
    ghost is_clone = { λ it copy. copy ≡ it };

    ghost is_infallible = { λ _. ⊤ };

    fn clone(&self) -> Result<Self, AllocError> {
        Ok(Iter {
            keys: self.keys,
            values: self.values,
            position: self.position,
        })
    }
}

impl<'a, K: Key, V> Iterator for Iter<'a, K, V> {
    type Item = (K, &'a V);

    ghost next_gives = { YieldsFirstBy (λ item. (K.data_of item.0, item.1.now)) (λ rest. rest) };

    ghost remaining = { item_count (λ rest. rest) };

    #[inline(always)]
    fn next(&mut self) -> Option<(K, &'a V)> {
        if self.position == self.keys.len() {
            return None;
        }
        let position = self.position;
        self.position += 1;
        Some((self.keys[position], &self.values[position]))
    }

    fn size_hint(&self) -> (usize, Option<usize>)
        ensures lower { result.0 ≤ length self.now }
        ensures upper { IfSome result.1 (UpTo (at_most (length self.now))) }
        ensures exact { result ≡ (length self.now, Some (length self.now)) }
    {
        let len = self.len();
        (len, Some(len))
    }
}

impl<'a, K: Key, V> ExactSizeIterator for Iter<'a, K, V> {
    fn len(&self) -> usize {
        Iter::len(self)
    }
}

impl<'a, K: Key, V> FusedIterator for Iter<'a, K, V> {}

impl<'a, K: Key, V> fmt::Debug for Iter<'a, K, V> {
    fn fmt<W: fmt::Write>(&self, f: &mut fmt::Formatter<W>) -> fmt::Result {
        f.debug_struct("Iter")
            .field("remaining", &self.len())
            .finish()
    }
}

/// An iterator over the live keys, in packed order: see [`DenseSlotMap::keys`].
///
/// A contract sees it as the list of the keys that it will still yield. After its end it yields
/// nothing. A clone yields the same keys; cloning allocates nothing.
#[derive(Drop)]
pub struct Keys<'a, K: Key, V> {
    pairs: Iter<'a, K, V>,
}

impl<'a, K: Key, V> Model for Keys<'a, K, V> {
    ghost use Rattle.slotmap_core.specs.Words.{List, map, Key};

    ghost Value = { List Key };

    ghost view = { λ it. map (λ pair. pair.0) it.pairs };
}

impl<'a, K: Key, V> Keys<'a, K, V> {
    /// Returns how many keys are left.
    ///
    /// Constant time.
    ///
    /// ```
    /// let mut keys = map.keys();
    /// keys.next();
    /// assert_eq!(rt; keys.len(), 1);
    /// ```
    pub fn len(&self) -> usize
        ensures { result ≡ length self.now }
    {
        self.pairs.len()
    }
}

impl<'a, K: Key, V> Clone for Keys<'a, K, V> {
    ghost is_clone = { λ it copy. copy ≡ it };

    ghost is_infallible = { λ _. ⊤ };

    fn clone(&self) -> Result<Self, AllocError> {
        Ok(Keys {
            pairs: self.pairs.clone()?,
        })
    }
}

impl<'a, K: Key, V> Iterator for Keys<'a, K, V> {
    type Item = K;

    ghost next_gives = { YieldsFirstBy K.data_of (λ rest. rest) };

    ghost remaining = { item_count (λ rest. rest) };

    fn next(&mut self) -> Option<K> {
        let (key, _) = self.pairs.next()?;
        Some(key)
    }

    fn size_hint(&self) -> (usize, Option<usize>)
        ensures lower { result.0 ≤ length self.now }
        ensures upper { IfSome result.1 (UpTo (at_most (length self.now))) }
        ensures exact { result ≡ (length self.now, Some (length self.now)) }
    {
        let len = self.len();
        (len, Some(len))
    }
}

impl<'a, K: Key, V> ExactSizeIterator for Keys<'a, K, V> {
    fn len(&self) -> usize {
        Keys::len(self)
    }
}

impl<'a, K: Key, V> FusedIterator for Keys<'a, K, V> {}

impl<'a, K: Key, V> fmt::Debug for Keys<'a, K, V> {
    fn fmt<W: fmt::Write>(&self, f: &mut fmt::Formatter<W>) -> fmt::Result {
        f.debug_struct("Keys")
            .field("remaining", &self.len())
            .finish()
    }
}

/// An iterator over the values, in packed order: see [`DenseSlotMap::values`].
///
/// A contract sees it as the list of the values that it will still yield. After its end it yields
/// nothing. A clone yields the same values; cloning allocates nothing.
#[derive(Drop)]
pub struct Values<'a, K: Key, V> {
    pairs: Iter<'a, K, V>,
}

impl<'a, K: Key, V> Model for Values<'a, K, V> {
    ghost use Rattle.slotmap_core.specs.Words.{List, map};

    ghost Value = { List V };

    ghost view = { λ it. map (λ pair. pair.1) it.pairs };
}

impl<'a, K: Key, V> Values<'a, K, V> {
    /// Returns how many values are left.
    ///
    /// Constant time.
    ///
    /// ```
    /// let mut values = map.values();
    /// values.next();
    /// assert_eq!(rt; values.len(), 1);
    /// ```
    pub fn len(&self) -> usize
        ensures { result ≡ length self.now }
    {
        self.pairs.len()
    }
}

impl<'a, K: Key, V> Clone for Values<'a, K, V> {
    ghost is_clone = { λ it copy. copy ≡ it };

    ghost is_infallible = { λ _. ⊤ };

    fn clone(&self) -> Result<Self, AllocError> {
        Ok(Values {
            pairs: self.pairs.clone()?,
        })
    }
}

impl<'a, K: Key, V> Iterator for Values<'a, K, V> {
    type Item = &'a V;

    ghost next_gives = { YieldsFirstBy (λ item. item.now) (λ rest. rest) };

    ghost remaining = { item_count (λ rest. rest) };

    fn next(&mut self) -> Option<&'a V> {
        let (_, value) = self.pairs.next()?;
        Some(value)
    }

    fn size_hint(&self) -> (usize, Option<usize>)
        ensures lower { result.0 ≤ length self.now }
        ensures upper { IfSome result.1 (UpTo (at_most (length self.now))) }
        ensures exact { result ≡ (length self.now, Some (length self.now)) }
    {
        let len = self.len();
        (len, Some(len))
    }
}

impl<'a, K: Key, V> ExactSizeIterator for Values<'a, K, V> {
    fn len(&self) -> usize {
        Values::len(self)
    }
}

impl<'a, K: Key, V> FusedIterator for Values<'a, K, V> {}

impl<'a, K: Key, V> fmt::Debug for Values<'a, K, V> {
    fn fmt<W: fmt::Write>(&self, f: &mut fmt::Formatter<W>) -> fmt::Result {
        f.debug_struct("Values")
            .field("remaining", &self.len())
            .finish()
    }
}

impl<K: Key, V> DenseSlotMap<K, V> {
    /// Returns an iterator over the live keys and their values, in packed order.
    ///
    /// It is made in constant time. All its steps together are linear in the number of live keys,
    /// however many slots the map has, and allocate nothing.
    ///
    /// ```
    /// let mut pairs = map.iter();
    /// assert_eq!(rt; pairs.next(), Some((a, &1)));
    /// assert_eq!(rt; pairs.next(), Some((b, &2)));
    /// assert_eq!(rt; pairs.next(), None);
    /// ```
    pub fn iter(&self) -> Iter<'_, K, V>
        ensures listing { IsListing self.now.content.live result }
        ensures in_order { result ≡ zip self.now.keys self.now.values }
        ensures valid { IsDense self.now }
    {
        Iter {
            keys: self.keys.as_slice(),
            values: self.values.as_slice(),
            position: 0,
        }
    }

    /// Returns an iterator over the live keys, in packed order.
    ///
    /// It costs the same as [`DenseSlotMap::iter`].
    ///
    /// ```
    /// let mut keys = map.keys();
    /// assert_eq!(rt; keys.next(), Some(a));
    /// assert_eq!(rt; keys.next(), Some(b));
    /// assert_eq!(rt; keys.next(), None);
    /// ```
    pub fn keys(&self) -> Keys<'_, K, V>
        ensures listing { IsKeyListing self.now.content.live result }
        ensures in_order { result ≡ self.now.keys }
        ensures valid { IsDense self.now }
    {
        Keys { pairs: self.iter() }
    }

    /// Returns an iterator over the values of the live keys, in packed order.
    ///
    /// It costs the same as [`DenseSlotMap::iter`].
    ///
    /// ```
    /// let mut values = map.values();
    /// assert_eq!(rt; values.next(), Some(&1));
    /// assert_eq!(rt; values.next(), Some(&2));
    /// ```
    pub fn values(&self) -> Values<'_, K, V>
        ensures listing { IsValueListing self.now.content.live result }
        ensures in_order { result ≡ self.now.values }
        ensures valid { IsDense self.now }
    {
        Values { pairs: self.iter() }
    }
}

impl<'a, K: Key, V> IntoIterator for &'a DenseSlotMap<K, V> {
    type Item = (K, &'a V);

    type IntoIter = Iter<'a, K, V>;

    ghost into_iter_gives = { λ m it. ListsPairs m.now it };

    fn into_iter(self) -> Iter<'a, K, V> {
        self.iter()
    }
}
