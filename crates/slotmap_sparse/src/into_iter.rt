//! The iterator that consumes a map.

ghost use Rattle.std.specs.Prelude.{◌≡◌, ◌≤◌, length, Some, IfSome};
ghost use Rattle.slotmap_core.specs.Words.{YieldsFirstBy, item_count, at_most, UpTo, keyed, IsListing};

use crate::SparseSecondaryMap;
use slotmap_core::keys::{Key, KeyData};
use std::alloc::Global;
use std::collections::hash_map;
use std::fmt;
use std::hash::BuildHasher;
use std::iter::FusedIterator;
use std::marker::{Model, PhantomData};

/// An iterator over the keys of a map and their values, by value and in any order: a `for` over a
/// map uses it.
///
/// A contract sees it as the list of the pairs that are left. After its end it yields nothing more.
/// Each step takes constant time and allocates nothing. Values that it hasn't yielded are dropped
/// with it.
pub struct IntoIter<K, V> {
    pairs: hash_map::IntoIter<u32, (u32, V), Global>,
    keys: PhantomData<K>,
}

impl<K, V: Drop> Drop for IntoIter<K, V> {
    fn drop(self) {
        let IntoIter {
            pairs: _pairs,
            keys: _keys,
        } = self;
    }
}

impl<K, V> Model for IntoIter<K, V> {
    ghost use Rattle.slotmap_core.specs.Words.{List, Key};
    ghost use Rattle.slotmap_sparse.specs.Iter.{key_pairs, AreOfKeys};

    ghost Value = { List (Key × V) };

    ghost view = { λ it. key_pairs it.pairs };

    ghost invariant = { λ it. AreOfKeys it.pairs };
}

impl<K, V: Drop> IntoIter<K, V> {
    /// Returns how many pairs are left, in constant time.
    ///
    /// ```
    /// let mut pairs = map.into_iter();
    /// assert_eq!(rt; pairs.len(), 1);
    /// assert_eq!(rt; pairs.next(), Some((a, 1)));
    /// assert_eq!(rt; pairs.len(), 0);
    /// ```
    pub fn len(&self) -> usize
        ensures { result ≡ length self.now }
    {
        self.pairs.len()
    }
}

impl<K, V: Drop> fmt::Debug for IntoIter<K, V> {
    fn fmt<W: fmt::Write>(&self, f: &mut fmt::Formatter<W>) -> fmt::Result {
        f.debug_struct("IntoIter")
            .field("remaining", &self.len())
            .finish()
    }
}

impl<K: Key, V: Drop> Iterator for IntoIter<K, V> {
    type Item = (K, V);

    ghost next_gives = { YieldsFirstBy (λ item. (K.data_of item.0, item.1)) (λ rest. rest) };

    ghost remaining = { item_count (λ rest. rest) };

    fn next(&mut self) -> Option<(K, V)> {
        let (index, (version, value)) = self.pairs.next()?;
        Some((K::from(KeyData::new(index, version)), value))
    }

    fn size_hint(&self) -> (usize, Option<usize>)
        ensures lower { result.0 ≤ length self.now }
        ensures upper { IfSome result.1 (UpTo (at_most (length self.now))) }
        ensures exact { result ≡ (length self.now, Some (length self.now)) }
    {
        let len = self.len();
        (len, Some(len))
    }
}

impl<K: Key, V: Drop> ExactSizeIterator for IntoIter<K, V> {
    fn len(&self) -> usize {
        IntoIter::len(self)
    }
}

impl<K: Key, V: Drop> FusedIterator for IntoIter<K, V> {}

impl<K: Key, V: Drop, S: BuildHasher + Drop> IntoIterator for SparseSecondaryMap<K, V, S> {
    type Item = (K, V);

    type IntoIter = IntoIter<K, V>;

    ghost into_iter_gives = { λ m it. IsListing (keyed m.pairs) it };

    fn into_iter(self) -> IntoIter<K, V> {
        let SparseSecondaryMap {
            slots,
            alloc: _,
            keys: _,
        } = self;
        IntoIter {
            pairs: slots.into_iter(),
            keys: PhantomData,
        }
    }
}
