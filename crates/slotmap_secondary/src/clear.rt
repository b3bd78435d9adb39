//! The calls that remove all keys.

ghost use Rattle.std.specs.FinMap as map;
ghost use Rattle.std.specs.Prelude.{◌≡◌, ◌≤◌, ℕ, true};
ghost use Rattle.slotmap_secondary.specs.Content.{IsSideContent};

use crate::SecondaryMap;
use slotmap_core::keys::Key;

impl<K: Key, V: Drop> SecondaryMap<K, V> {
    /// Removes all keys and drops their values.
    ///
    /// The capacity stays the same. Takes time linear in the number of slots. In Rust a key at
    /// index 0 stays in the map.
    ///
    /// ```
    /// map.clear();
    /// assert!(rt; map.is_empty());
    /// ```
    pub fn clear(&mut self)
        ensures empty { self.new ≡ record self.old { pairs = map.empty } }
        ensures valid { IsSideContent self.new }
    {
        self.clear_from(0);
    }

    // Removes the keys from this index on.
    pub(crate) fn clear_from(&mut self, start: usize)
        ensures empty { ((i : ℕ) → map.contains_key self.old.pairs i ≡ true → start ≤ i)
            → self.new ≡ record self.old { pairs = map.empty } }
        ensures valid { IsSideContent self.new }
    {
        for index in start..self.place_count() {
            drop(self.take_at(index));
        }
    }
}
