//! The calls that empty a map, and those that append what it holds to a vector.

ghost use Rattle.std.specs.FinMap as map;
ghost use Rattle.std.specs.Prelude.{◌≡◌, ◌++◌, OnOk, OnErr, true, List, map as list_map};
ghost use Rattle.slotmap_core.specs.Words.{IsContent, Leaves, FreesByIndex, StaysValid};

use crate::SlotMap;
use slotmap_core::errors::OutOfMemory;
use slotmap_core::keys::Key;

impl<K: Key, V: Drop> SlotMap<K, V> {
    /// Removes every live key and drops its value.
    ///
    /// The keys are removed as `remove` does, and the capacity stays. Detached keys stay detached.
    /// Linear in the number of slots.
    ///
    /// ```
    /// map.clear();
    /// assert!(rt; map.is_empty());
    /// assert!(rt; !map.contains_key(a));
    /// ```
    pub fn clear(&mut self)
        ensures empty { self.new.live ≡ map.empty }
        ensures leaves { Leaves self.old self.new }
        ensures freed_order { FreesByIndex self.old self.new }
        ensures valid { StaysValid true self.old self.new }
    {
        self.clear_from(0);
    }

    /// Appends every live key to `out`, by ascending index.
    ///
    /// Room for all keys is allocated first. If that fails, `out` doesn't change. Linear in the number
    /// of slots, and in the length of `out` if it has to grow. Rust lacks this call.
    ///
    /// ```
    /// let mut keys = Vec::new(alloc);
    /// map.keys_into(&mut keys)?;
    /// assert_eq!(rt; keys.len(), 2);
    /// assert_eq!(rt; keys[0], a);
    /// ```
    pub fn keys_into(&self, out: &mut Vec<K>) -> Result<(), OutOfMemory>
        ensures ok { OnOk result ((keys : List K) × (out.new.items ≡ out.old.items ++ keys)
            × (list_map K.data_of keys ≡ map.keys self.now.live)) }
        ensures unchanged { OnErr result (out.new.items ≡ out.old.items) }
        ensures valid { IsContent true self.now }
    {
        out.reserve(self.len())?;
        for key in self.keys() {
            out.push_reserved(key);
        }
        Ok(())
    }

    /// Removes every live key, and appends the keys with their values to `out`, by ascending index.
    ///
    /// The keys are removed as `remove` does, and detached keys stay detached. Room for all pairs
    /// is allocated first. If that fails, neither the map nor `out` changes. Linear in the number of
    /// slots, and in the length of `out` if it has to grow. Rust lacks this call.
    ///
    /// ```
    /// let mut pairs = Vec::new(alloc);
    /// map.drain_into(&mut pairs)?;
    /// assert_eq!(rt; pairs[1], (b, 2));
    /// assert!(rt; map.is_empty());
    /// ```
    pub fn drain_into(&mut self, out: &mut Vec<(K, V)>) -> Result<(), OutOfMemory>
        ensures ok { OnOk result ((pairs : List (K × V)) × (out.new.items ≡ out.old.items ++ pairs)
            × (list_map (λ p. (K.data_of p.0, p.1)) pairs ≡ map.entries self.old.live)) }
        ensures empty { OnOk result (self.new.live ≡ map.empty) }
        ensures leaves { OnOk result (Leaves self.old self.new) }
        ensures freed_order { OnOk result (FreesByIndex self.old self.new) }

        ensures unchanged { OnErr result ((self.new ≡ self.old) × (out.new.items ≡ out.old.items)) }
        ensures valid { StaysValid true self.old self.new }
    {
        out.reserve(self.len())?;
        let mut cursor = self.cursor_from(0);
        while let Some(key) = self.next_live(&mut cursor) {
            let value = self.take_live(key);
            out.push_reserved((key, value));
        }
        Ok(())
    }
}
