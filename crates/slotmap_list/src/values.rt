//! The cursors alone, and the values alone.

ghost use Rattle.std.specs.Prelude.{◌≡◌, ◌≤◌, ◌-◌, length, Some, IfSome, option_copied, slice_get, map as list_map};
ghost use Rattle.std.specs.Iterator.{YieldsFirstBy, YieldsLastBy, item_count, at_most, UpTo};

use crate::StableList;
use crate::iter::Iter;
use slotmap::Key;
use std::iter::FusedIterator;
use std::marker::Model;

/// An iterator over the cursors of a list, from both ends: see [`StableList::cursors`].
///
/// A contract sees it as the list of the cursors that it will still yield, from front to back. After
/// its end it yields nothing.
#[derive(Drop)]
pub struct Cursors<'a, K, T> {
    elements: Iter<'a, K, T>,
}

impl<'a, K, T> Model for Cursors<'a, K, T> {
    ghost use Rattle.std.specs.Prelude.{List, map as list_map};
    ghost use Rattle.slotmap.specs.Words.{Key};

    ghost Value = { List Key };

    ghost view = { λ it. list_map (λ e. e.0) it.elements };
}

impl<'a, K: Key, T: Drop> Iterator for Cursors<'a, K, T> {
    type Item = K;

    ghost next_gives = { YieldsFirstBy K.data_of (λ rest. rest) };

    ghost remaining = { item_count (λ rest. rest) };

    fn next(&mut self) -> Option<K> {
        match self.elements.next() {
            Some((cursor, _)) => Some(cursor),
            None => None,
        }
    }

    fn size_hint(&self) -> (usize, Option<usize>)
        ensures lower { result.0 ≤ length self.now }
        ensures upper { IfSome result.1 (UpTo (at_most (length self.now))) }
        ensures exact { result ≡ (length self.now, Some (length self.now)) }
    {
        self.elements.size_hint()
    }
}

impl<'a, K: Key, T: Drop> DoubleEndedIterator for Cursors<'a, K, T> {
    ghost next_back_gives = { YieldsLastBy K.data_of (λ rest. rest) };

    fn next_back(&mut self) -> Option<K> {
        match self.elements.next_back() {
            Some((cursor, _)) => Some(cursor),
            None => None,
        }
    }
}

impl<'a, K: Key, T: Drop> ExactSizeIterator for Cursors<'a, K, T> {
    fn len(&self) -> usize {
        self.elements.len()
    }
}

impl<'a, K: Key, T: Drop> FusedIterator for Cursors<'a, K, T> {}

/// An iterator over the values of a list, from both ends: see [`StableList::values`].
///
/// A contract sees it as the list of the values that it will still yield, from front to back. After
/// its end it yields nothing.
#[derive(Drop)]
pub struct Values<'a, K, T> {
    elements: Iter<'a, K, T>,
}

impl<'a, K, T> Model for Values<'a, K, T> {
    ghost use Rattle.std.specs.Prelude.{List, map as list_map};

    ghost Value = { List T };

    ghost view = { λ it. list_map (λ e. e.1) it.elements };
}

impl<'a, K: Key, T: Drop> Iterator for Values<'a, K, T> {
    type Item = &'a T;

    ghost next_gives = { YieldsFirstBy (λ item. item.now) (λ rest. rest) };

    ghost remaining = { item_count (λ rest. rest) };

    fn next(&mut self) -> Option<&'a T> {
        match self.elements.next() {
            Some((_, value)) => Some(value),
            None => None,
        }
    }

    fn size_hint(&self) -> (usize, Option<usize>)
        ensures lower { result.0 ≤ length self.now }
        ensures upper { IfSome result.1 (UpTo (at_most (length self.now))) }
        ensures exact { result ≡ (length self.now, Some (length self.now)) }
    {
        self.elements.size_hint()
    }
}

impl<'a, K: Key, T: Drop> DoubleEndedIterator for Values<'a, K, T> {
    ghost next_back_gives = { YieldsLastBy (λ item. item.now) (λ rest. rest) };

    fn next_back(&mut self) -> Option<&'a T> {
        match self.elements.next_back() {
            Some((_, value)) => Some(value),
            None => None,
        }
    }
}

impl<'a, K: Key, T: Drop> ExactSizeIterator for Values<'a, K, T> {
    fn len(&self) -> usize {
        self.elements.len()
    }
}

impl<'a, K: Key, T: Drop> FusedIterator for Values<'a, K, T> {}

impl<K: Key, T: Drop> StableList<K, T> {
    /// Returns the value at the front, or `None` if the list is empty.
    ///
    /// Constant time.
    ///
    /// ```
    /// let mut list = StableList::new(alloc)?;
    /// list.push_back(1)?;
    /// list.push_back(2)?;
    /// assert_eq!(rt; list.front(), Some(&1));
    /// ```
    pub fn front(&self) -> Option<&T>
        ensures { option_copied result ≡ slice_get (list_map (λ e. e.1) self.now.elements) 0 }
    {
        self.values().next()
    }

    /// Returns the value at the back, or `None` if the list is empty.
    ///
    /// Constant time.
    ///
    /// ```
    /// let mut list = StableList::new(alloc)?;
    /// list.push_back(1)?;
    /// list.push_back(2)?;
    /// assert_eq!(rt; list.back(), Some(&2));
    /// ```
    pub fn back(&self) -> Option<&T>
        ensures { option_copied result ≡ slice_get (list_map (λ e. e.1) self.now.elements) (length self.now.elements - 1) }
    {
        self.values().next_back()
    }

    /// Returns an iterator over the cursors, from front to back. It can be reversed, and yields from
    /// both ends.
    ///
    /// It is made in constant time, and each step takes constant time.
    ///
    /// ```
    /// let mut list = StableList::new(alloc)?;
    /// let one = list.push_back(1)?;
    /// let two = list.push_back(2)?;
    /// let mut cursors = list.cursors();
    /// assert_eq!(rt; cursors.next_back(), Some(two));
    /// assert_eq!(rt; cursors.next(), Some(one));
    /// ```
    pub fn cursors(&self) -> Cursors<'_, K, T>
        ensures { result ≡ list_map (λ e. e.0) self.now.elements }
    {
        Cursors {
            elements: self.iter(),
        }
    }

    /// Returns an iterator over the values, from front to back. It can be reversed, and yields from both
    /// ends.
    ///
    /// It is made in constant time, and each step takes constant time.
    ///
    /// ```
    /// let mut list = StableList::new(alloc)?;
    /// list.push_back(1)?;
    /// list.push_back(2)?;
    /// let mut values = list.values();
    /// assert_eq!(rt; values.next_back(), Some(&2));
    /// assert_eq!(rt; values.next(), Some(&1));
    /// ```
    pub fn values(&self) -> Values<'_, K, T>
        ensures { result ≡ list_map (λ e. e.1) self.now.elements }
    {
        Values {
            elements: self.iter(),
        }
    }
}
