//! The iterator of a list.

ghost use Rattle.std.specs.Prelude.{◌≡◌, ◌<◌, ◌≤◌, ◌↔◌, length, Some, IfSome, IsSome};
ghost use Rattle.std.specs.Iterator.{YieldsFirstBy, YieldsLastBy, item_count, at_most, UpTo};
ghost use Rattle.slotmap_list.specs.Sequence.{IsOnce};
ghost use Rattle.slotmap_lists.specs.Sequences.{elements_of};

use crate::StableLists;
use slotmap::Key;
use slotmap_bounded::BoundedMap;
use slotmap_links::Members;
use std::iter::FusedIterator;
use std::marker::Model;

/// An iterator over the elements of one list, from both ends: see [`StableLists::iter`].
///
/// A contract sees it as the list of the elements that it will still yield, from front to back. After
/// its end it yields nothing.
#[derive(Drop)]
pub struct Iter<'a, K, T> {
    values: &'a BoundedMap<K, T>,
    indices: Members<'a>,
}

impl<'a, K, T> Model for Iter<'a, K, T> {
    ghost use Rattle.std.specs.Prelude.{List};
    ghost use Rattle.slotmap.specs.Words.{Key};

    ghost Value = { List (Key × T) };

    ghost use Rattle.slotmap_list.specs.Kept.{elements_at, AreLiveIndices};

    ghost view = { λ it. elements_at it.values.now.live it.indices };

    ghost invariant = { λ it. AreLiveIndices it.values.now.live it.indices };
}

impl<'a, K: Key, T: Drop> Iterator for Iter<'a, K, T> {
    type Item = (K, &'a T);

    ghost next_gives = { YieldsFirstBy (λ item. (K.data_of item.0, item.1.now)) (λ rest. rest) };

    ghost remaining = { item_count (λ rest. rest) };

    fn next(&mut self) -> Option<(K, &'a T)> {
        let index = self.indices.next()?;
        let cursor = self.values.live_key(index);
        Some((cursor, self.values.value(cursor)))
    }

    fn size_hint(&self) -> (usize, Option<usize>)
        ensures lower { result.0 ≤ length self.now }
        ensures upper { IfSome result.1 (UpTo (at_most (length self.now))) }
        ensures exact { result ≡ (length self.now, Some (length self.now)) }
    {
        let left = self.indices.len();
        (left, Some(left))
    }
}

impl<'a, K: Key, T: Drop> DoubleEndedIterator for Iter<'a, K, T> {
    ghost next_back_gives = { YieldsLastBy (λ item. (K.data_of item.0, item.1.now)) (λ rest. rest) };

    fn next_back(&mut self) -> Option<(K, &'a T)> {
        let index = self.indices.next_back()?;
        let cursor = self.values.live_key(index);
        Some((cursor, self.values.value(cursor)))
    }
}

impl<'a, K: Key, T: Drop> ExactSizeIterator for Iter<'a, K, T> {
    fn len(&self) -> usize {
        self.indices.len()
    }
}

impl<'a, K: Key, T: Drop> FusedIterator for Iter<'a, K, T> {}

impl<K: Key, T: Drop> StableLists<K, T> {
    /// Returns an iterator over the elements of a list with their cursors, from front to back, or `None`
    /// if there is no list with this number. It can be reversed, and yields from both ends.
    ///
    /// It is made in constant time, and each step takes constant time.
    ///
    /// ```
    /// let mut lists = StableLists::new(alloc, 2)?;
    /// let one = lists.push_back(1, 1)?;
    /// let two = lists.push_back(1, 2)?;
    /// if let Some(mut elements) = lists.iter(1) {
    ///     assert_eq!(rt; elements.next_back(), Some((two, &2)));
    ///     assert_eq!(rt; elements.next(), Some((one, &1)));
    ///     assert_eq!(rt; elements.next(), None);
    /// }
    /// assert!(rt; lists.iter(2).is_none());
    /// ```
    pub fn iter(&self, list: usize) -> Option<Iter<'_, K, T>>
        ensures elements { IfSome result (λ it. it ≡ elements_of list self.now.lists) }
        ensures once { IfSome result IsOnce }
        ensures which { IsSome result ↔ (list < length self.now.lists) }
    {
        if list >= self.lists() {
            return None;
        }
        Some(Iter {
            values: &self.values,
            indices: self.links.iter(list as u32),
        })
    }
}
