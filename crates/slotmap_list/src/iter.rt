//! The iterator of a list.

ghost use Rattle.std.specs.Prelude.{◌≡◌, ◌≤◌, length, Some, IfSome};
ghost use Rattle.slotmap_list.specs.Sequence.{IsOnce};
ghost use Rattle.std.specs.Iterator.{YieldsFirstBy, YieldsLastBy, item_count, at_most, UpTo};

use crate::StableList;
use slotmap::Key;
use slotmap_bounded::BoundedMap;
use slotmap_links::Members;
use std::iter::FusedIterator;
use std::marker::Model;

/// An iterator over the elements of a list, from both ends: see [`StableList::iter`].
///
/// A contract sees it as the list of the elements that it will still yield, from front to back. After
/// its end it yields nothing.
#[derive(Drop)]
pub struct Iter<'a, K, T> {
    pub(super) values: &'a BoundedMap<K, T>,
    pub(super) indices: Members<'a>,
}

impl<'a, K, T> Model for Iter<'a, K, T> {
    ghost use Rattle.std.specs.Prelude.{List};
    ghost use Rattle.slotmap.specs.Words.{Key};

    ghost Value = { List (Key × T) };

    ghost use Rattle.slotmap_list.specs.Kept.{elements_at, AreLiveIndices};

    ghost view = { λ it. elements_at it.values.now.live it.indices };

    ghost invariant = { λ it. AreLiveIndices it.values.now.live it.indices };
}

impl<'a, K: Key, T: Drop> Iterator for Iter<'a, K, T> {
    type Item = (K, &'a T);

    ghost next_gives = { YieldsFirstBy (λ item. (K.data_of item.0, item.1.now)) (λ rest. rest) };

    ghost remaining = { item_count (λ rest. rest) };

    fn next(&mut self) -> Option<(K, &'a T)> {
        let index = self.indices.next()?;
        let cursor = self.values.live_key(index);
        Some((cursor, self.values.value(cursor)))
    }

    fn size_hint(&self) -> (usize, Option<usize>)
        ensures lower { result.0 ≤ length self.now }
        ensures upper { IfSome result.1 (UpTo (at_most (length self.now))) }
        ensures exact { result ≡ (length self.now, Some (length self.now)) }
    {
        let left = self.indices.len();
        (left, Some(left))
    }
}

impl<'a, K: Key, T: Drop> DoubleEndedIterator for Iter<'a, K, T> {
    ghost next_back_gives = { YieldsLastBy (λ item. (K.data_of item.0, item.1.now)) (λ rest. rest) };

    fn next_back(&mut self) -> Option<(K, &'a T)> {
        let index = self.indices.next_back()?;
        let cursor = self.values.live_key(index);
        Some((cursor, self.values.value(cursor)))
    }
}

impl<'a, K: Key, T: Drop> ExactSizeIterator for Iter<'a, K, T> {
    fn len(&self) -> usize {
        self.indices.len()
    }
}

impl<'a, K: Key, T: Drop> FusedIterator for Iter<'a, K, T> {}

impl<'a, K: Key, T: Drop> IntoIterator for &'a StableList<K, T> {
    type Item = (K, &'a T);

    type IntoIter = Iter<'a, K, T>;

    ghost into_iter_gives = { λ list it. (it ≡ list.now.elements) × IsOnce it };

    fn into_iter(self) -> Iter<'a, K, T> {
        self.iter()
    }
}
