//! Removals.

ghost use Rattle.std.specs.FinMap as map;
ghost use Rattle.std.specs.Prelude.{◌≡◌, ◌+◌, ◌<◌, OnSome, IfSome, IfNone, Some, true, slice_get, length, vec_capacity, map as list_map, swap_remove};
ghost use Rattle.slotmap_core.specs.Words.{Key as KeyOf, IsContent, Removes};
ghost use Rattle.slotmap_dense.specs.Dense.{ClosesGap, TakesLast};
ghost use Rattle.slotmap_dense.specs.Call.{StaysDense};
ghost use Rattle.slotmap_dense.specs.Packed.{IsPacked, IsGapped};

use crate::DenseSlotMap;
use crate::rows::Rows;
use slotmap_core::keys::Key;
use slotmap_slots::slots::Slots;

// Takes out the pair at a position whose key is no longer in the slots. The last pair moves to that
// position, and the slot of its key is updated.
pub(crate) fn close_gap<K: Key, V: Drop>(
    slots: &mut Slots<u32, Rows>,
    keys: &mut Vec<K>,
    values: &mut Vec<V>,
    position: u32,
) -> V
    requires well { IsContent true slots.old }
    requires gapped { IsGapped slots.old.live (list_map K.data_of keys.old.items) position }
    requires same_length { length values.old.items ≡ length (list_map K.data_of keys.old.items) }
    ensures value { slice_get values.old.items position ≡ Some result }
    ensures keys { (k : KeyOf) → slice_get (list_map K.data_of keys.old.items) position ≡ Some k →
        list_map K.data_of keys.new.items ≡ swap_remove (list_map K.data_of keys.old.items) position k }
    ensures values { values.new.items ≡ swap_remove values.old.items position result }
    ensures packed { IsPacked slots.new.live (list_map K.data_of keys.new.items) }
    ensures rest { slots.new ≡ record slots.old { live = slots.new.live } }
    ensures well { IsContent true slots.new }
    ensures keys_capacity { vec_capacity keys.new ≡ vec_capacity keys.old }
    ensures values_capacity { vec_capacity values.new ≡ vec_capacity values.old }
{
    let index = position as usize;
    keys.swap_remove(index);
    let value = values.swap_remove(index);
    if index < keys.len() {
        *slots.get_unchecked_mut(keys[index].data()) = position;
    }
    value
}

impl<K: Key, V: Drop> DenseSlotMap<K, V> {
    /// Removes a live key and returns its value, or `None` if the key isn't live.
    ///
    /// The last pair moves to the position of the removed one in the packed order. The next insert
    /// reuses the slot, under a newer key. But if the version of the key is 4294967295, the last
    /// one, the slot is retired; in Rust its versions wrap around. Constant time; allocates
    /// nothing.
    ///
    /// ```
    /// assert_eq!(rt; map.remove(a), Some(1));
    /// assert_eq!(rt; map.remove(a), None);
    /// assert_eq!(rt; map.get(b), Some(&2));
    /// ```
    #[inline(always)]
    pub fn remove(&mut self, key: K) -> Option<V>
        ensures value { result ≡ map.get self.old.content.live (K.data_of key) }
        ensures removes { OnSome result (Removes self.old.content (K.data_of key) self.new.content) }
        ensures order { IfSome result (λ value. ClosesGap self.old (K.data_of key) value self.new) }
        ensures live { self.new.content.live ≡ map.remove self.old.content.live (K.data_of key) }
        ensures unchanged { IfNone result (self.new ≡ self.old) }
        ensures valid { StaysDense self.old self.new }
    {
        let position = self.slots.remove(key.data())?;
        Some(close_gap(&mut self.slots, &mut self.keys, &mut self.values, position))
    }

    // Takes out the last pair of the packed order, or returns `None` if no key is live.
    pub(crate) fn take_last(&mut self) -> Option<(K, V)>
        ensures takes { TakesLast K.data_of self.old result self.new }
        ensures valid { StaysDense self.old self.new }
    {
        let key = self.keys.pop()?;
        self.slots.take(key.data());
        Some((key, self.values.take_last()))
    }
}
