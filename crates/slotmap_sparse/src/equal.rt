//! Comparison of maps.

ghost use Rattle.std.specs.Prelude.{◌≡◌, ◌↔◌, IsTrue};
ghost use Rattle.slotmap_core.specs.Words.{AreEqual, are_equal, are_equal_laws, on_per, are_equal_equiv, on_equiv};

use crate::SparseSecondaryMap;
use slotmap_core::keys::Key;
use std::hash::BuildHasher;

impl<K: Key, V: PartialEq, S: BuildHasher> PartialEq for SparseSecondaryMap<K, V, S> {
    ghost eq = { λ a b. are_equal V.eq a.pairs b.pairs };

    ghost laws = { on_per (λ m. m.pairs) (are_equal_laws V.laws) };

    /// Returns whether both maps hold the same keys with equal values.
    ///
    /// The order of the keys and the capacities don't matter. Takes time linear in the number of
    /// keys, and stops at the first difference.
    ///
    /// ```
    /// let copy = map.clone()?;
    /// assert!(rt; copy == map);
    /// map.remove(a);
    /// assert!(rt; copy != map);
    /// ```
    fn eq(&self, other: &Self) -> bool
        ensures value { result ≡ are_equal V.eq self.now.pairs other.now.pairs }
        ensures which { IsTrue result ↔ AreEqual V.eq self.now.pairs other.now.pairs }
    {
        self.slots == other.slots
    }
}

impl<K: Key, V: Eq, S: BuildHasher> Eq for SparseSecondaryMap<K, V, S> {
    ghost laws = { on_equiv (λ m. m.pairs) (are_equal_equiv V.Eq.laws) };
}
