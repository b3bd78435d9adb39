//! The search for the next live key, for the loops over a map that changes.

ghost use Rattle.std.specs.Prelude.{◌≡◌, ◌+◌, ◌<◌, Some, IfSome, IfNone};
ghost use Rattle.slotmap_core.specs.Words.{IsLive};
ghost use Rattle.slotmap_hop.specs.HopContent.{IsHopContent, IsNextLive, IsNextPlace, HasKeyAt, MayStand};
ghost use Rattle.slotmap_hop.specs.Iter.{CanGoOn, FindsPlace, FindsNone};

use crate::HopSlotMap;
use crate::links::Slot;
use slotmap_core::keys::{Key, KeyData};

// Returns the first live slot from this one on.
fn find_live<V>(slots: &[Slot<V>], start: u32) -> Option<u32>
    requires { CanGoOn slots.now 0 start }
    ensures found { IfSome result (λ index. FindsPlace slots.now start index) }
    ensures none { IfNone result (FindsNone slots.now start) }
{
    let mut index = start as usize;
    while index < slots.len() {
        let slot = &slots[index];
        if slot.is_live() {
            return Some(index as u32);
        }
        // A vacant slot is the front of a block here.
        index = slot.hop(index) + 1;
    }
    None
}

impl<K: Key, V: Drop> HopSlotMap<K, V> {
    // Returns the smallest index of a live key, from this one on.
    pub(crate) fn first_place(&self, start: u32) -> Option<u32>
        requires { MayStand self.now.content start }
        ensures comes { IsNextPlace self.now.content start result }
        ensures valid { IsHopContent self.now }
    {
        self.note_valid();
        find_live(self.slots.as_slice(), start)
    }

    // Returns the live key of this index.
    pub(crate) fn key_at(&self, index: u32) -> K
        requires { HasKeyAt self.now.content index }
        ensures live { IsLive self.now.content (K.data_of result) }
        ensures index { (K.data_of result).index ≡ index }
    {
        K::from(KeyData::exact(index, self.slots[index as usize].version()))
    }

    // Returns the live key with the smallest index from this one on.
    pub(crate) fn first_live(&self, start: u32) -> Option<K>
        requires { MayStand self.now.content start }
        ensures comes { IsNextLive K.data_of self.now.content start result }
        ensures valid { IsHopContent self.now }
    {
        let index = self.first_place(start)?;
        Some(self.key_at(index))
    }
}
