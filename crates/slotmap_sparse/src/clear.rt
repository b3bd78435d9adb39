//! The call that removes all keys.

ghost use Rattle.std.specs.FinMap as map;
ghost use Rattle.std.specs.Prelude.{◌≡◌, ◌≤◌};
ghost use Rattle.slotmap_sparse.specs.Content.{IsSparseContent};

use crate::SparseSecondaryMap;
use slotmap_core::keys::Key;
use std::hash::BuildHasher;

impl<K: Key, V: Drop, S: BuildHasher + Drop> SparseSecondaryMap<K, V, S> {
    /// Removes all keys and drops their values.
    ///
    /// Keeps its memory. Takes time linear in the capacity.
    ///
    /// ```
    /// map.clear();
    /// assert!(rt; map.is_empty());
    /// ```
    pub fn clear(&mut self)
        ensures empty { self.new.pairs ≡ map.empty }
        ensures capacity { self.old.capacity ≤ self.new.capacity }
        ensures valid { IsSparseContent self.new }
    {
        self.slots.clear();
    }
}
