//! Copies of a map.

ghost use Rattle.std.specs.Prelude.{◌≡◌, IfOk, OnOk, OnErr};
ghost use Rattle.slotmap_core.specs.Words.{ClonesEqual, IsCopy, IsCloneBy};
ghost use Rattle.slotmap_hop.specs.HopContent.{IsHopContent};
ghost use Rattle.slotmap_hop.specs.Slots.{IsSlotClone, AreSlotClones};

use crate::HopSlotMap;
use crate::links::Slot;
use slotmap_core::keys::Key;
use std::alloc::AllocError;
use std::marker::PhantomData;

// A slot with a clone of its value.
fn clone_slot<V: Clone>(slot: &Slot<V>) -> Result<Slot<V>, AllocError>
    ensures { IfOk result (IsSlotClone V.is_clone slot.now) }
{
    match slot {
        Slot::Occupied(state, version, value) => Ok(Slot::Occupied(
            *state,
            *version,
            value.clone()?,
        )),
        Slot::Empty(state, version, one, other) => Ok(Slot::Empty(*state, *version, *one, *other)),
    }
}

// The same slots, with clones of their values. The address of a slice stays in a register.
pub(crate) fn clone_slots<V: Clone>(slots: &Vec<Slot<V>>) -> Result<Vec<Slot<V>>, AllocError>
    ensures { IfOk result (λ copy. AreSlotClones V.is_clone slots.now.items copy.items) }
{
    let mut copy = Vec::with_capacity(*slots.allocator(), slots.len())?;
    let from = slots.as_slice();
    for index in 0..from.len() {
        copy.push_reserved(clone_slot(&from[index])?);
    }
    Ok(copy)
}

impl<K: Key, V: Clone> HopSlotMap<K, V> {
    /// Returns a copy of the map, with clones of the values.
    ///
    /// The same keys are live, and both maps will return the same new keys. The copy has room for
    /// the keys of the vacant slots, and perhaps for no more.
    ///
    /// Each value is a clone by the `is_clone` of its type. Where clones equal their values, the copy
    /// equals the map, except for its room and its capacity.
    ///
    /// If memory runs out, or the clone of a value fails, the call fails, and what was copied is
    /// dropped. Linear in the number of slots.
    ///
    /// ```
    /// let mut copy = map.clone()?;
    /// copy.remove(a);
    /// assert_eq!(rt; copy.get(b), Some(&2));
    /// assert_eq!(rt; map.get(a), Some(&1));
    /// ```
    pub fn clone(&self) -> Result<Self, AllocError>
        ensures clones { IfOk result (λ copy. IsCloneBy V.is_clone self.now.content copy.content) }
        ensures blocks { IfOk result (λ copy. copy.blocks ≡ self.now.blocks) }

        // Where clones equal their values, the copy holds the same.
        ensures copies_if_clones_equal { IfOk result (λ copy.
            ClonesEqual V.is_clone → IsCopy self.now.content copy.content) }

        ensures valid { IfOk result IsHopContent }
    {
        Ok(HopSlotMap {
            slots: clone_slots(&self.slots)?,
            vacant_count: self.vacant_count,
            live_count: self.live_count,
            keys: PhantomData,
        })
    }

    /// Makes this map a copy of another, as [`HopSlotMap::clone`] does, and drops what it had.
    ///
    /// A key that this map returned earlier may then have another value, or be returned again. The
    /// copy is made before the old content is dropped. So if the call fails, the map is unchanged.
    /// At most linear in the number of slots of both maps.
    ///
    /// ```
    /// let mut copy: HopSlotMap<DefaultKey, u64> = HopSlotMap::new(alloc)?;
    /// copy.clone_from(&map)?;
    /// assert_eq!(rt; copy.get(a), Some(&1));
    /// assert_eq!(rt; copy.len(), map.len());
    /// ```
    pub fn clone_from(&mut self, source: &Self) -> Result<(), AllocError>
    where
        V: Drop,
        ensures clones { OnOk result (IsCloneBy V.is_clone source.now.content self.new.content) }
        ensures blocks { OnOk result (self.new.blocks ≡ source.now.blocks) }

        // Where clones equal their values, this map holds what the source holds.
        ensures copies_if_clones_equal { OnOk result (
            ClonesEqual V.is_clone → IsCopy source.now.content self.new.content) }

        ensures unchanged { OnErr result (self.new ≡ self.old) }
        ensures valid { OnOk result (IsHopContent self.new) }
    {
        *self = source.clone()?;
        Ok(())
    }
}

/// Calls the method `clone`. It is for code that is generic over `Clone`, such as the derived `Clone`
/// of a struct.
impl<K: Key, V: Clone> Clone for HopSlotMap<K, V> {
    ghost is_clone = { λ m copy. IsCloneBy V.is_clone m.content copy.content × (copy.blocks ≡ m.blocks) × IsHopContent copy };

    fn clone(&self) -> Result<Self, AllocError> {
        HopSlotMap::clone(self)
    }
}
