//! The calls that empty a map, and those that append what it holds to a vector.

ghost use Rattle.std.specs.FinMap as map;
ghost use Rattle.std.specs.Prelude.{◌≡◌, ◌+◌, ◌-◌, ◌<◌, ◌≤◌, ◌++◌, true, false, Some, OnOk, OnErr, List, map as list_map};
ghost use Rattle.slotmap_core.specs.Words.{Leaves};
ghost use Rattle.slotmap_hop.specs.HopContent.{IsHopContent, Clears, StaysHop, blocks_without_all};

use crate::HopSlotMap;
use crate::one_block::{all_go_on, make_one_block};
use slotmap_core::errors::OutOfMemory;
use slotmap_core::keys::Key;
use slotmap_core::sure::drop_may_unwind;

impl<K: Key, V: Drop> HopSlotMap<K, V> {
    /// Removes every live key and drops its value.
    ///
    /// The keys are removed as `remove` does, by ascending index, and the capacity stays. A block
    /// of vacant slots is skipped in one step if more slots are vacant than live. At most linear in
    /// the number of slots.
    ///
    /// ```
    /// map.clear();
    /// assert!(rt; map.is_empty());
    /// assert!(rt; !map.contains_key(a));
    /// ```
    pub fn clear(&mut self)
        ensures empty { self.new.content.live ≡ map.empty }
        ensures leaves { Leaves self.old.content self.new.content }
        ensures blocks { self.new.blocks ≡ blocks_without_all self.old (map.keys self.old.content.live) }
        ensures valid { StaysHop self.old self.new }
    {
        // Where a drop may unwind, each value is out of the map before it is dropped.
        if !drop_may_unwind::<V>() && self.clear_at_once() {
            return;
        }
        self.clear_each();
    }

    // Removes every live key, if no fewer are live than slots are vacant, and each slot may have
    // further keys. Returns whether it did.
    #[inline(always)]
    fn clear_at_once(&mut self) -> bool
        ensures clears { result ≡ true → Clears self.old self.new }
        ensures unchanged { result ≡ false → self.new ≡ self.old }
    {
        if self.live_count < self.vacant_count {
            return false;
        }
        if !all_go_on(self.slots.as_slice()) {
            return false;
        }
        make_one_block(self.slots.as_mut_slice());
        self.vacant_count += self.live_count;
        self.live_count = 0;
        true
    }

    // Removes every live key, one after the other.
    fn clear_each(&mut self)
        ensures { Clears self.old self.new }
    {
        let mut next = self.first_live(0);
        while let Some(key) = next {
            let index = key.data().idx();
            // The next key is looked for first, because the removal may join blocks.
            next = self.first_live(index + 1);
            self.take_live(key);
        }
    }

    /// Appends every live key to `out`, by ascending index.
    ///
    /// Room for all keys is allocated first. If that fails, `out` doesn't change. A block of vacant
    /// slots is skipped in one step. At most linear in the number of slots, and in the length of `out`
    /// if it has to grow. Rust lacks this call.
    ///
    /// ```
    /// let mut keys = Vec::new(alloc);
    /// map.keys_into(&mut keys)?;
    /// assert_eq!(rt; keys.len(), 2);
    /// assert_eq!(rt; keys[0], a);
    /// ```
    pub fn keys_into(&self, out: &mut Vec<K>) -> Result<(), OutOfMemory>
        ensures ok { OnOk result ((keys : List K) × (out.new.items ≡ out.old.items ++ keys)
            × (list_map K.data_of keys ≡ map.keys self.now.content.live)) }
        ensures unchanged { OnErr result (out.new.items ≡ out.old.items) }
        ensures valid { IsHopContent self.now }
    {
        out.reserve(self.len())?;
        for key in self.keys() {
            out.push_reserved(key);
        }
        Ok(())
    }

    /// Removes every live key, and appends the keys with their values to `out`, by ascending index.
    ///
    /// The keys are removed as `remove` does. Room for all pairs is allocated first. If that fails,
    /// neither the map nor `out` changes. A block of vacant slots is skipped in one step. At most
    /// linear in the number of slots, and in the length of `out` if it has to grow. Rust lacks this
    /// call.
    ///
    /// ```
    /// let mut pairs = Vec::new(alloc);
    /// map.drain_into(&mut pairs)?;
    /// assert_eq!(rt; pairs[1], (b, 2));
    /// assert!(rt; map.is_empty());
    /// ```
    pub fn drain_into(&mut self, out: &mut Vec<(K, V)>) -> Result<(), OutOfMemory>
        ensures ok { OnOk result ((pairs : List (K × V)) × (out.new.items ≡ out.old.items ++ pairs)
            × (list_map (λ p. (K.data_of p.0, p.1)) pairs ≡ map.entries self.old.content.live)) }
        ensures empty { OnOk result (self.new.content.live ≡ map.empty) }
        ensures leaves { OnOk result (Leaves self.old.content self.new.content) }
        ensures blocks { OnOk result (self.new.blocks ≡ blocks_without_all self.old (map.keys self.old.content.live)) }

        ensures unchanged { OnErr result ((self.new ≡ self.old) × (out.new.items ≡ out.old.items)) }
        ensures valid { StaysHop self.old self.new }
    {
        out.reserve(self.len())?;
        let mut next = self.first_live(0);
        while let Some(key) = next {
            next = self.first_live(key.data().idx() + 1);
            let value = self.take_live(key);
            out.push_reserved((key, value));
        }
        Ok(())
    }
}
