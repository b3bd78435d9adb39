//! The iterator over a list by value.

ghost use Rattle.std.specs.Prelude.{◌≡◌, ◌≤◌, length, Some, IfSome};
ghost use Rattle.std.specs.Iterator.{YieldsFirstBy, YieldsLastBy, item_count, at_most, UpTo};
ghost use Rattle.slotmap_list.specs.Sequence.{IsOnce};

use crate::StableList;
use slotmap::Key;
use std::iter::FusedIterator;
use std::marker::Model;

/// An iterator over the elements of a list by value, from both ends. A `for` over a list takes it.
///
/// A contract sees it as the list of the elements that it will still yield, from front to back. After
/// its end it yields nothing. Each step takes constant time and can't fail. Dropping it drops the
/// values that are left.
///
/// ```
/// let mut list = StableList::new(alloc)?;
/// let one = list.push_back(1)?;
/// let two = list.push_back(2)?;
/// let mut elements = list.into_iter();
/// assert_eq!(rt; elements.next_back(), Some((two, 2)));
/// assert_eq!(rt; elements.next(), Some((one, 1)));
/// assert_eq!(rt; elements.next(), None);
/// ```
#[derive(Drop)]
pub struct IntoIter<K, T> {
    pub(crate) list: StableList<K, T>,
}

impl<K, T> Model for IntoIter<K, T> {
    ghost use Rattle.std.specs.Prelude.{List};
    ghost use Rattle.slotmap.specs.Words.{Key};

    ghost Value = { List (Key × T) };

    ghost view = { λ it. it.list.elements };
}

impl<K: Key, T: Drop> Iterator for IntoIter<K, T> {
    type Item = (K, T);

    ghost next_gives = { YieldsFirstBy (λ item. (K.data_of item.0, item.1)) (λ rest. rest) };

    ghost remaining = { item_count (λ rest. rest) };

    fn next(&mut self) -> Option<(K, T)> {
        self.list.pop_front()
    }

    fn size_hint(&self) -> (usize, Option<usize>)
        ensures lower { result.0 ≤ length self.now }
        ensures upper { IfSome result.1 (UpTo (at_most (length self.now))) }
        ensures exact { result ≡ (length self.now, Some (length self.now)) }
    {
        let len = self.list.len();
        (len, Some(len))
    }
}

impl<K: Key, T: Drop> DoubleEndedIterator for IntoIter<K, T> {
    ghost next_back_gives = { YieldsLastBy (λ item. (K.data_of item.0, item.1)) (λ rest. rest) };

    fn next_back(&mut self) -> Option<(K, T)> {
        self.list.pop_back()
    }
}

impl<K: Key, T: Drop> ExactSizeIterator for IntoIter<K, T> {
    fn len(&self) -> usize {
        self.list.len()
    }
}

impl<K: Key, T: Drop> FusedIterator for IntoIter<K, T> {}

impl<K: Key, T: Drop> IntoIterator for StableList<K, T> {
    type Item = (K, T);

    type IntoIter = IntoIter<K, T>;

    ghost into_iter_gives = { λ list it. (it ≡ list.elements) × IsOnce it };

    fn into_iter(self) -> IntoIter<K, T> {
        // Reads the list, which says that no cursor stands twice.
        let _ = self.len();
        IntoIter { list: self }
    }
}
