//! Iterators over the keys and values of a map.

ghost use Rattle.std.specs.FinMap as map;
ghost use Rattle.std.specs.Prelude.{◌≡◌, ◌≤◌, length, Some, IfSome, IfNone, true, ⊤};
ghost use Rattle.slotmap_core.specs.Words.{YieldsFirstBy, item_count, at_most, UpTo, keyed, contains_key, IsListing, IsKeyListing, IsValueListing};
ghost use Rattle.slotmap_sparse.specs.Content.{IsSparseContent};

use crate::SparseSecondaryMap;
use slotmap_core::keys::{Key, KeyData};
use std::alloc::AllocError;
use std::collections::hash_map;
use std::fmt;
use std::hash::BuildHasher;
use std::iter::FusedIterator;
use std::marker::{Model, PhantomData};

/// An iterator over the keys of a map and their values, in any order: see
/// [`SparseSecondaryMap::iter`].
///
/// A contract sees it as the list of the pairs that are left. After its end it yields nothing more.
/// A clone of it yields the same pairs; cloning allocates nothing.
#[derive(Drop)]
pub struct Iter<'a, K, V> {
    pairs: hash_map::Iter<'a, u32, (u32, V)>,
    keys: PhantomData<K>,
}

impl<'a, K, V> Model for Iter<'a, K, V> {
    ghost use Rattle.slotmap_core.specs.Words.{List, Key};
    ghost use Rattle.slotmap_sparse.specs.Iter.{key_pairs, AreOfKeys};

    ghost Value = { List (Key × V) };

    ghost view = { λ it. key_pairs it.pairs };

    ghost invariant = { λ it. AreOfKeys it.pairs };
}

impl<'a, K, V> Iter<'a, K, V> {
    /// Returns how many pairs are left, in constant time.
    ///
    /// ```
    /// let mut pairs = map.iter();
    /// assert_eq!(rt; pairs.len(), 1);
    /// assert_eq!(rt; pairs.next(), Some((a, &1)));
    /// assert_eq!(rt; pairs.len(), 0);
    /// ```
    pub fn len(&self) -> usize
        ensures { result ≡ length self.now }
    {
        self.pairs.len()
    }
}

impl<'a, K, V> Clone for Iter<'a, K, V> {
    ghost is_clone = { λ it copy. copy ≡ it };

    ghost is_infallible = { λ _. ⊤ };

    fn clone(&self) -> Result<Self, AllocError> {
        Ok(Iter {
            pairs: self.pairs.clone()?,
            keys: PhantomData,
        })
    }
}

impl<'a, K, V> fmt::Debug for Iter<'a, K, V> {
    fn fmt<W: fmt::Write>(&self, f: &mut fmt::Formatter<W>) -> fmt::Result {
        f.debug_struct("Iter")
            .field("remaining", &self.len())
            .finish()
    }
}

impl<'a, K: Key, V> Iterator for Iter<'a, K, V> {
    type Item = (K, &'a V);

    ghost next_gives = { YieldsFirstBy (λ item. (K.data_of item.0, item.1.now)) (λ rest. rest) };

    ghost remaining = { item_count (λ rest. rest) };

    fn next(&mut self) -> Option<(K, &'a V)> {
        let (index, (version, value)) = self.pairs.next()?;
        Some((K::from(KeyData::new(*index, *version)), value))
    }

    fn size_hint(&self) -> (usize, Option<usize>)
        ensures lower { result.0 ≤ length self.now }
        ensures upper { IfSome result.1 (UpTo (at_most (length self.now))) }
        ensures exact { result ≡ (length self.now, Some (length self.now)) }
    {
        let len = self.len();
        (len, Some(len))
    }
}

impl<'a, K: Key, V> ExactSizeIterator for Iter<'a, K, V> {
    fn len(&self) -> usize {
        Iter::len(self)
    }
}

impl<'a, K: Key, V> FusedIterator for Iter<'a, K, V> {}

/// An iterator over the keys of a map, in any order: see [`SparseSecondaryMap::keys`].
///
/// A contract sees it as the list of the keys that are left. After its end it yields nothing more.
/// A clone of it yields the same keys; cloning allocates nothing.
#[derive(Drop)]
pub struct Keys<'a, K, V> {
    pairs: Iter<'a, K, V>,
}

impl<'a, K, V> Model for Keys<'a, K, V> {
    ghost use Rattle.slotmap_core.specs.Words.{List, map, Key};

    ghost Value = { List Key };

    ghost view = { λ it. map (λ pair. pair.0) it.pairs };
}

impl<'a, K, V> Keys<'a, K, V> {
    /// Returns how many keys are left, in constant time.
    ///
    /// ```
    /// let mut keys = map.keys();
    /// assert_eq!(rt; keys.len(), 1);
    /// assert_eq!(rt; keys.next(), Some(a));
    /// assert_eq!(rt; keys.len(), 0);
    /// ```
    pub fn len(&self) -> usize
        ensures { result ≡ length self.now }
    {
        self.pairs.len()
    }
}

impl<'a, K, V> Clone for Keys<'a, K, V> {
    ghost is_clone = { λ it copy. copy ≡ it };

    ghost is_infallible = { λ _. ⊤ };

    fn clone(&self) -> Result<Self, AllocError> {
        Ok(Keys {
            pairs: self.pairs.clone()?,
        })
    }
}

impl<'a, K, V> fmt::Debug for Keys<'a, K, V> {
    fn fmt<W: fmt::Write>(&self, f: &mut fmt::Formatter<W>) -> fmt::Result {
        f.debug_struct("Keys")
            .field("remaining", &self.len())
            .finish()
    }
}

impl<'a, K: Key, V> Iterator for Keys<'a, K, V> {
    type Item = K;

    ghost next_gives = { YieldsFirstBy K.data_of (λ rest. rest) };

    ghost remaining = { item_count (λ rest. rest) };

    fn next(&mut self) -> Option<K> {
        let (key, _) = self.pairs.next()?;
        Some(key)
    }

    fn size_hint(&self) -> (usize, Option<usize>)
        ensures lower { result.0 ≤ length self.now }
        ensures upper { IfSome result.1 (UpTo (at_most (length self.now))) }
        ensures exact { result ≡ (length self.now, Some (length self.now)) }
    {
        let len = self.len();
        (len, Some(len))
    }
}

impl<'a, K: Key, V> ExactSizeIterator for Keys<'a, K, V> {
    fn len(&self) -> usize {
        Keys::len(self)
    }
}

impl<'a, K: Key, V> FusedIterator for Keys<'a, K, V> {}

/// An iterator over the values of a map, in any order: see [`SparseSecondaryMap::values`].
///
/// A contract sees it as the list of the values that are left. After its end it yields nothing
/// more. A clone of it yields the same values; cloning allocates nothing.
#[derive(Drop)]
pub struct Values<'a, K, V> {
    pairs: Iter<'a, K, V>,
}

impl<'a, K, V> Model for Values<'a, K, V> {
    ghost use Rattle.slotmap_core.specs.Words.{List, map};

    ghost Value = { List V };

    ghost view = { λ it. map (λ pair. pair.1) it.pairs };
}

impl<'a, K, V> Values<'a, K, V> {
    /// Returns how many values are left, in constant time.
    ///
    /// ```
    /// let mut values = map.values();
    /// assert_eq!(rt; values.len(), 1);
    /// assert_eq!(rt; values.next().copied(), Some(1));
    /// assert_eq!(rt; values.len(), 0);
    /// ```
    pub fn len(&self) -> usize
        ensures { result ≡ length self.now }
    {
        self.pairs.len()
    }
}

impl<'a, K, V> Clone for Values<'a, K, V> {
    ghost is_clone = { λ it copy. copy ≡ it };

    ghost is_infallible = { λ _. ⊤ };

    fn clone(&self) -> Result<Self, AllocError> {
        Ok(Values {
            pairs: self.pairs.clone()?,
        })
    }
}

impl<'a, K, V> fmt::Debug for Values<'a, K, V> {
    fn fmt<W: fmt::Write>(&self, f: &mut fmt::Formatter<W>) -> fmt::Result {
        f.debug_struct("Values")
            .field("remaining", &self.len())
            .finish()
    }
}

impl<'a, K: Key, V> Iterator for Values<'a, K, V> {
    type Item = &'a V;

    ghost next_gives = { YieldsFirstBy (λ item. item.now) (λ rest. rest) };

    ghost remaining = { item_count (λ rest. rest) };

    fn next(&mut self) -> Option<&'a V> {
        let (_, value) = self.pairs.next()?;
        Some(value)
    }

    fn size_hint(&self) -> (usize, Option<usize>)
        ensures lower { result.0 ≤ length self.now }
        ensures upper { IfSome result.1 (UpTo (at_most (length self.now))) }
        ensures exact { result ≡ (length self.now, Some (length self.now)) }
    {
        let len = self.len();
        (len, Some(len))
    }
}

impl<'a, K: Key, V> ExactSizeIterator for Values<'a, K, V> {
    fn len(&self) -> usize {
        Values::len(self)
    }
}

impl<'a, K: Key, V> FusedIterator for Values<'a, K, V> {}

impl<K: Key, V, S: BuildHasher> SparseSecondaryMap<K, V, S> {
    /// Returns an iterator over the keys and their values, in any order.
    ///
    /// The call takes constant time, and so does each step. Neither allocates. To change values
    /// call `retain` with a closure that writes and returns true.
    ///
    /// ```
    /// map.insert(b, 2)?;
    /// for (key, value) in map.iter() {
    ///     assert_eq!(rt; *value, map[key]);
    /// }
    /// ```
    pub fn iter(&self) -> Iter<'_, K, V>
        ensures listing { IsListing (keyed self.now.pairs) result }
        ensures valid { IsSparseContent self.now }
    {
        Iter {
            pairs: self.slots.iter(),
            keys: PhantomData,
        }
    }

    /// Returns an iterator over the keys, in any order.
    ///
    /// It costs the same as [`SparseSecondaryMap::iter`].
    ///
    /// ```
    /// for key in map.keys() {
    ///     assert_eq!(rt; key, a);
    /// }
    /// ```
    pub fn keys(&self) -> Keys<'_, K, V>
        ensures listing { IsKeyListing (keyed self.now.pairs) result }
        ensures valid { IsSparseContent self.now }
    {
        Keys { pairs: self.iter() }
    }

    /// Returns an iterator over the values, in any order.
    ///
    /// It costs the same as [`SparseSecondaryMap::iter`].
    ///
    /// ```
    /// for value in map.values() {
    ///     assert_eq!(rt; *value, 1);
    /// }
    /// ```
    pub fn values(&self) -> Values<'_, K, V>
        ensures listing { IsValueListing (keyed self.now.pairs) result }
        ensures valid { IsSparseContent self.now }
    {
        Values { pairs: self.iter() }
    }
}

impl<'a, K: Key, V, S: BuildHasher> IntoIterator for &'a SparseSecondaryMap<K, V, S> {
    type Item = (K, &'a V);

    type IntoIter = Iter<'a, K, V>;

    ghost into_iter_gives = { λ m it. IsListing (keyed m.now.pairs) it };

    fn into_iter(self) -> Iter<'a, K, V> {
        self.iter()
    }
}
