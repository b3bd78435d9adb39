//! The iterator over a list from a cursor on.

ghost use Rattle.std.specs.Prelude.{◌≡◌, ◌≤◌, length, IfSome};
ghost use Rattle.std.specs.Iterator.{YieldsFirstBy, item_count, at_most, UpTo};
ghost use Rattle.slotmap_list.specs.Sequence.{from_key, IsOnce};

use crate::StableList;
use slotmap::Key;
use slotmap_bounded::BoundedMap;
use slotmap_links::MembersFrom;
use std::iter::FusedIterator;
use std::marker::Model;

/// An iterator over the elements of a list from a cursor on: see [`StableList::iter_from`].
///
/// A contract sees it as the list of the elements that it will still yield. After its end it yields
/// nothing. It doesn't know how many are left, and goes forward only.
#[derive(Drop)]
pub struct IterFrom<'a, K, T> {
    values: &'a BoundedMap<K, T>,
    indices: Option<MembersFrom<'a>>,
    // At most so many elements are left.
    most: usize,
}

impl<'a, K, T> Model for IterFrom<'a, K, T> {
    ghost use Rattle.std.specs.Prelude.{List};
    ghost use Rattle.slotmap.specs.Words.{Key};

    ghost Value = { List (Key × T) };

    ghost use Rattle.slotmap_list.specs.Kept.{elements_at, all_of, IsRest};

    ghost view = { λ it. elements_at it.values.now.live (all_of it.indices) };

    ghost invariant = { λ it. IsRest it.values.now.live (all_of it.indices) it.most };
}

impl<'a, K: Key, T: Drop> Iterator for IterFrom<'a, K, T> {
    type Item = (K, &'a T);

    ghost next_gives = { YieldsFirstBy (λ item. (K.data_of item.0, item.1.now)) (λ rest. rest) };

    ghost remaining = { item_count (λ rest. rest) };

    fn next(&mut self) -> Option<(K, &'a T)> {
        let Some(indices) = &mut self.indices else {
            return None;
        };
        let index = indices.next()?;
        let cursor = self.values.live_key(index);
        Some((cursor, self.values.value(cursor)))
    }

    fn size_hint(&self) -> (usize, Option<usize>)
        ensures lower { result.0 ≤ length self.now }
        ensures upper { IfSome result.1 (UpTo (at_most (length self.now))) }
    {
        (0, Some(self.most))
    }
}

impl<'a, K: Key, T: Drop> FusedIterator for IterFrom<'a, K, T> {}

impl<K: Key, T: Drop> StableList<K, T> {
    /// Returns an iterator over the elements from this cursor on, up to the back. For a cursor that
    /// isn't in the list it yields nothing.
    ///
    /// It is made in constant time, and each step takes constant time.
    ///
    /// ```
    /// let mut list = StableList::new(alloc)?;
    /// list.push_back(1)?;
    /// let two = list.push_back(2)?;
    /// let three = list.push_back(3)?;
    /// let mut elements = list.iter_from(two);
    /// assert_eq!(rt; elements.next(), Some((two, &2)));
    /// assert_eq!(rt; elements.next(), Some((three, &3)));
    /// assert_eq!(rt; elements.next(), None);
    /// ```
    pub fn iter_from(&self, cursor: K) -> IterFrom<'_, K, T>
        ensures elements { result ≡ from_key (K.data_of cursor) self.now.elements }
        ensures once { IsOnce self.now.elements }
    {
        let most = self.len();
        if !self.values.contains_key(cursor) {
            return IterFrom {
                values: &self.values,
                indices: None,
                most,
            };
        }
        IterFrom {
            values: &self.values,
            indices: Some(self.links.iter_from(cursor.data().idx())),
            most,
        }
    }
}
