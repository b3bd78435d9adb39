//! Comparison of maps.

ghost use Rattle.std.specs.Prelude.{◌≡◌, ◌↔◌, IsTrue};
ghost use Rattle.slotmap_core.specs.Words.{AreEqual, are_equal, are_equal_laws, on_per, are_equal_equiv, on_equiv};

use crate::SecondaryMap;
use slotmap_core::keys::Key;

impl<K: Key, V: PartialEq> PartialEq for SecondaryMap<K, V> {
    ghost eq = { λ a b. are_equal V.eq a.pairs b.pairs };

    ghost laws = { on_per (λ m. m.pairs) (are_equal_laws V.laws) };

    /// Returns whether both maps hold the same keys with equal values.
    ///
    /// The numbers of slots and the capacities don't matter. Takes time linear in the number of
    /// slots of both maps, and stops at the first difference.
    ///
    /// ```
    /// let copy = map.clone()?;
    /// assert!(rt; copy == map);
    /// map.remove(a);
    /// assert!(rt; copy != map);
    /// ```
    fn eq(&self, other: &Self) -> bool
        ensures value { result ≡ are_equal V.eq self.now.pairs other.now.pairs }
        ensures which { IsTrue result ↔ AreEqual V.eq self.now.pairs other.now.pairs }
    {
        self.is_same(other)
    }
}

impl<K: Key, V: PartialEq> SecondaryMap<K, V> {
    // Whether the iterators of both maps yield the same.
    fn is_same(&self, other: &Self) -> bool
        ensures { result ≡ are_equal V.eq self.now.pairs other.now.pairs }
    {
        let mut left = self.iter();
        let mut right = other.iter();
        while let Some((key, value)) = left.next() {
            match right.next() {
                Some((other_key, other_value)) => {
                    if key.data() != other_key.data() || value != other_value {
                        return false;
                    }
                }
                None => return false,
            }
        }
        right.next().is_none()
    }
}

impl<K: Key, V: Eq> Eq for SecondaryMap<K, V> {
    ghost laws = { on_equiv (λ m. m.pairs) (are_equal_equiv V.Eq.laws) };
}
