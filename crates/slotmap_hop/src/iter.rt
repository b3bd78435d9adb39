//! Iterators over the keys and values of a map, by ascending index.

ghost use Rattle.std.specs.FinMap as map;
ghost use Rattle.std.specs.Prelude.{◌≡◌, ◌≤◌, length, Some, IfSome, ⊤};
ghost use Rattle.slotmap_core.specs.Words.{YieldsFirstBy, item_count, at_most, UpTo, IsListing, IsKeyListing, IsValueListing};
ghost use Rattle.slotmap_hop.specs.HopContent.{IsHopContent};
ghost use Rattle.slotmap_hop.specs.Iter.{CountsReads, CountsReadsSomewhere, ListsRetired, StartsIter};

use crate::HopSlotMap;
use crate::links::{Slot, back_of};
use slotmap_core::keys::Key;
use slotmap_core::sure::rule_out;
use std::alloc::AllocError;
use std::fmt;
use std::iter::FusedIterator;
use std::marker::{Model, PhantomData};

pub(crate) mod counted;

use counted::Walk;

/// An iterator over the live keys and their values, by ascending index: see [`HopSlotMap::iter`].
///
/// A contract sees it as a record of these parts:
///
/// - the list of the pairs that it will still yield
/// - the number of slots that it has read
/// - the keys of the retired slots that it hasn't passed
///
/// After its end it yields nothing. A clone yields the same pairs; cloning allocates nothing.
#[derive(Drop)]
pub struct Iter<'a, K, V> {
    walk: Walk<'a, V>,
    keys: PhantomData<K>,
}

impl<'a, K, V> Model for Iter<'a, K, V> {
    ghost use Rattle.slotmap_core.specs.Words.{Key};
    ghost use Rattle.slotmap_hop.specs.Iter.{HopIter};

    ghost Value = { HopIter (Key × V) };

    ghost view = { λ it. it.walk };
}

// What an iterator prints with `{:?}`: its name, and how many items are left.
pub(crate) fn fmt_remaining<W: fmt::Write>(
    f: &mut fmt::Formatter<W>,
    name: &str,
    remaining: usize,
) -> fmt::Result {
    f.debug_struct(name).field("remaining", &remaining).finish()
}

impl<'a, K, V> Iter<'a, K, V> {
    /// Returns how many pairs are left.
    ///
    /// Constant time.
    ///
    /// ```
    /// let mut pairs = map.iter();
    /// pairs.next();
    /// assert_eq!(rt; pairs.len(), 1);
    /// ```
    pub fn len(&self) -> usize
        ensures { result ≡ length self.now.rest }
    {
        self.walk.len()
    }

    /// Returns how many slots `next` has read. A clone goes on from the count of its original.
    ///
    /// Constant time. Rust lacks this call.
    ///
    /// ```
    /// map.insert(3)?;
    /// map.remove(b);
    /// let mut pairs = map.iter();
    /// while let Some(_) = pairs.next() {}
    /// assert_eq!(rt; pairs.reads(), 3);
    /// ```
    pub fn reads(&self) -> usize
        ensures { result ≡ self.now.reads }
    {
        self.walk.reads()
    }
}

impl<'a, K: Key, V> Iterator for Iter<'a, K, V> {
    type Item = (K, &'a V);

    ghost next_gives = { λ old given new. YieldsFirstBy (λ item. (K.data_of item.0, item.1.now)) (λ it. it.rest) old given new × CountsReads (λ item. K.data_of item.0) old given new };

    ghost remaining = { item_count (λ it. it.rest) };

    fn next(&mut self) -> Option<(K, &'a V)> {
        let (key, slot) = self.walk.step()?;
        match slot {
            Slot::Occupied(_, _, value) => Some((key, value)),
            _ => {
                rule_out(true);
                unreachable!()
            }
        }
    }

    fn size_hint(&self) -> (usize, Option<usize>)
        ensures lower { result.0 ≤ length self.now.rest }
        ensures upper { IfSome result.1 (UpTo (at_most (length self.now.rest))) }
        ensures exact { result ≡ (length self.now.rest, Some (length self.now.rest)) }
    {
        let len = self.len();
        (len, Some(len))
    }
}

impl<'a, K: Key, V> ExactSizeIterator for Iter<'a, K, V> {
    fn len(&self) -> usize {
        Iter::len(self)
    }
}

impl<'a, K: Key, V> FusedIterator for Iter<'a, K, V> {}

impl<'a, K, V> fmt::Debug for Iter<'a, K, V> {
    fn fmt<W: fmt::Write>(&self, f: &mut fmt::Formatter<W>) -> fmt::Result {
        fmt_remaining(f, "Iter", self.len())
    }
}

/// An iterator over the live keys, by ascending index: see [`HopSlotMap::keys`].
///
/// A contract sees it as the list of the keys that it will still yield, with the two other
/// parts of [`Iter`]. After its end it yields nothing. A clone yields the same keys; cloning allocates
/// nothing.
#[derive(Drop)]
pub struct Keys<'a, K, V> {
    pairs: Iter<'a, K, V>,
}

impl<'a, K, V> Model for Keys<'a, K, V> {
    ghost use Rattle.slotmap_core.specs.Words.{List, map, Key};
    ghost use Rattle.slotmap_hop.specs.Iter.{HopIter};

    ghost Value = { HopIter Key };

    ghost view = { λ it. record { rest = map (λ pair. pair.0) it.pairs.rest; retired = it.pairs.retired; reads = it.pairs.reads } };
}

impl<'a, K, V> Keys<'a, K, V> {
    /// Returns how many keys are left.
    ///
    /// Constant time.
    ///
    /// ```
    /// let mut keys = map.keys();
    /// keys.next();
    /// assert_eq!(rt; keys.len(), 1);
    /// ```
    pub fn len(&self) -> usize
        ensures { result ≡ length self.now.rest }
    {
        self.pairs.len()
    }

    /// Returns how many slots `next` has read. A clone goes on from the count of its original.
    ///
    /// Constant time. Rust lacks this call.
    ///
    /// ```
    /// let mut keys = map.keys();
    /// while let Some(_) = keys.next() {}
    /// assert!(rt; keys.reads() <= 2 * map.len());
    /// ```
    pub fn reads(&self) -> usize
        ensures { result ≡ self.now.reads }
    {
        self.pairs.reads()
    }
}

impl<'a, K, V> Clone for Keys<'a, K, V> {
    ghost is_clone = { λ it copy. copy ≡ it };

    ghost is_infallible = { λ _. ⊤ };

    fn clone(&self) -> Result<Self, AllocError> {
        Ok(Keys {
            pairs: self.pairs.clone()?,
        })
    }
}

impl<'a, K: Key, V> Iterator for Keys<'a, K, V> {
    type Item = K;

    ghost next_gives = { λ old given new. YieldsFirstBy K.data_of (λ it. it.rest) old given new × CountsReads K.data_of old given new };

    ghost remaining = { item_count (λ it. it.rest) };

    fn next(&mut self) -> Option<K> {
        let (key, _) = self.pairs.walk.step()?;
        Some(key)
    }

    fn size_hint(&self) -> (usize, Option<usize>)
        ensures lower { result.0 ≤ length self.now.rest }
        ensures upper { IfSome result.1 (UpTo (at_most (length self.now.rest))) }
        ensures exact { result ≡ (length self.now.rest, Some (length self.now.rest)) }
    {
        let len = self.len();
        (len, Some(len))
    }
}

impl<'a, K: Key, V> ExactSizeIterator for Keys<'a, K, V> {
    fn len(&self) -> usize {
        Keys::len(self)
    }
}

impl<'a, K: Key, V> FusedIterator for Keys<'a, K, V> {}

impl<'a, K, V> fmt::Debug for Keys<'a, K, V> {
    fn fmt<W: fmt::Write>(&self, f: &mut fmt::Formatter<W>) -> fmt::Result {
        fmt_remaining(f, "Keys", self.len())
    }
}

/// An iterator over the values, by ascending index of their keys: see [`HopSlotMap::values`].
///
/// A contract sees it as the list of the values that it will still yield, with the two other
/// parts of [`Iter`]. After its end it yields nothing. A clone yields the same values; cloning allocates
/// nothing.
#[derive(Drop)]
pub struct Values<'a, K, V> {
    pairs: Iter<'a, K, V>,
}

impl<'a, K, V> Model for Values<'a, K, V> {
    ghost use Rattle.slotmap_core.specs.Words.{List, map, Key};
    ghost use Rattle.slotmap_hop.specs.Iter.{HopIter};

    ghost Value = { HopIter V };

    ghost view = { λ it. record { rest = map (λ pair. pair.1) it.pairs.rest; retired = it.pairs.retired; reads = it.pairs.reads } };
}

impl<'a, K, V> Values<'a, K, V> {
    /// Returns how many values are left.
    ///
    /// Constant time.
    ///
    /// ```
    /// let mut values = map.values();
    /// values.next();
    /// assert_eq!(rt; values.len(), 1);
    /// ```
    pub fn len(&self) -> usize
        ensures { result ≡ length self.now.rest }
    {
        self.pairs.len()
    }

    /// Returns how many slots `next` has read. A clone goes on from the count of its original.
    ///
    /// Constant time. Rust lacks this call.
    ///
    /// ```
    /// let mut values = map.values();
    /// values.next();
    /// assert_eq!(rt; values.reads(), 1);
    /// ```
    pub fn reads(&self) -> usize
        ensures { result ≡ self.now.reads }
    {
        self.pairs.reads()
    }
}

impl<'a, K, V> Clone for Values<'a, K, V> {
    ghost is_clone = { λ it copy. copy ≡ it };

    ghost is_infallible = { λ _. ⊤ };

    fn clone(&self) -> Result<Self, AllocError> {
        Ok(Values {
            pairs: self.pairs.clone()?,
        })
    }
}

impl<'a, K: Key, V> Iterator for Values<'a, K, V> {
    type Item = &'a V;

    ghost next_gives = { λ old given new. YieldsFirstBy (λ item. item.now) (λ it. it.rest) old given new × CountsReadsSomewhere old given new };

    ghost remaining = { item_count (λ it. it.rest) };

    fn next(&mut self) -> Option<&'a V> {
        let (_, value) = self.pairs.next()?;
        Some(value)
    }

    fn size_hint(&self) -> (usize, Option<usize>)
        ensures lower { result.0 ≤ length self.now.rest }
        ensures upper { IfSome result.1 (UpTo (at_most (length self.now.rest))) }
        ensures exact { result ≡ (length self.now.rest, Some (length self.now.rest)) }
    {
        let len = self.len();
        (len, Some(len))
    }
}

impl<'a, K: Key, V> ExactSizeIterator for Values<'a, K, V> {
    fn len(&self) -> usize {
        Values::len(self)
    }
}

impl<'a, K: Key, V> FusedIterator for Values<'a, K, V> {}

impl<'a, K, V> fmt::Debug for Values<'a, K, V> {
    fn fmt<W: fmt::Write>(&self, f: &mut fmt::Formatter<W>) -> fmt::Result {
        fmt_remaining(f, "Values", self.len())
    }
}

impl<K: Key, V> HopSlotMap<K, V> {
    /// Returns an iterator over the live keys and their values, by ascending index.
    ///
    /// It is made in constant time, and its steps allocate nothing. A step reads the next slot. If
    /// a block of vacant slots begins there, it then reads the slot after the block, however long
    /// the block is. Retired slots are read one by one. No iterator yields mutable references: use
    /// `retain` with a closure that writes and returns `true`.
    ///
    /// ```
    /// let mut pairs = map.iter();
    /// assert_eq!(rt; pairs.next(), Some((a, &1)));
    /// assert_eq!(rt; pairs.next(), Some((b, &2)));
    /// assert_eq!(rt; pairs.next(), None);
    /// ```
    pub fn iter(&self) -> Iter<'_, K, V>
        ensures listing { IsListing self.now.content.live result.rest }
        ensures in_order { result.rest ≡ map.entries self.now.content.live }
        ensures retired { ListsRetired self.now result.retired }
        ensures reads { result.reads ≡ 0 }
        ensures valid { IsHopContent self.now }
    {
        let slots = self.slots.as_slice();
        let back = back_of(slots, 0) as usize;
        Iter {
            walk: Walk::new(slots, back, self.live_count as usize),
            keys: PhantomData,
        }
    }

    /// Returns an iterator over the live keys, by ascending index.
    ///
    /// It costs the same as [`HopSlotMap::iter`].
    ///
    /// ```
    /// let mut keys = map.keys();
    /// assert_eq!(rt; keys.next(), Some(a));
    /// assert_eq!(rt; keys.next(), Some(b));
    /// assert_eq!(rt; keys.next(), None);
    /// ```
    pub fn keys(&self) -> Keys<'_, K, V>
        ensures listing { IsKeyListing self.now.content.live result.rest }
        ensures in_order { result.rest ≡ map.keys self.now.content.live }
        ensures retired { ListsRetired self.now result.retired }
        ensures reads { result.reads ≡ 0 }
        ensures valid { IsHopContent self.now }
    {
        Keys { pairs: self.iter() }
    }

    /// Returns an iterator over the values of the live keys, by ascending index of their keys.
    ///
    /// It costs the same as [`HopSlotMap::iter`]. No iterator yields mutable references: use
    /// `retain` with a closure that writes and returns `true`.
    ///
    /// ```
    /// let mut values = map.values();
    /// assert_eq!(rt; values.next(), Some(&1));
    /// assert_eq!(rt; values.next(), Some(&2));
    /// ```
    pub fn values(&self) -> Values<'_, K, V>
        ensures listing { IsValueListing self.now.content.live result.rest }
        ensures in_order { result.rest ≡ map.values self.now.content.live }
        ensures retired { ListsRetired self.now result.retired }
        ensures reads { result.reads ≡ 0 }
        ensures valid { IsHopContent self.now }
    {
        Values { pairs: self.iter() }
    }
}

impl<'a, K: Key, V> IntoIterator for &'a HopSlotMap<K, V> {
    type Item = (K, &'a V);

    type IntoIter = Iter<'a, K, V>;

    ghost into_iter_gives = { λ m it. StartsIter m.now it };

    fn into_iter(self) -> Iter<'a, K, V> {
        self.iter()
    }
}
