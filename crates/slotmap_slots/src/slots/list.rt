//! Lists of slots: slots are written out, and read back.

ghost use Rattle.std.specs.FinMap as map;
ghost use Rattle.std.specs.Prelude.{◌≡◌, ◌<◌, ◌^◌, ◌↔◌, ◌%◌, ℕ, length, IfOk, IsOk, IfErr, IsSome, true, Some};
ghost use Rattle.slotmap_core.specs.Words.{ClonesEqual, IsCloneOf, Key as KeyOf, start_live, start_stack, ReadsAs, Accepts, list_limit, RefusesStart, Writes, WritesClones};
ghost use Rattle.slotmap_slots.specs.Slot.{version_at, payload_at};

use super::Slots;
use crate::layout::{Layout, Use};
use slotmap_core::errors::{OutOfMemory, SlotsError};
use slotmap_core::limits::LIST_LIMIT;
use slotmap_core::serial::{SlotRecord, check_slots};
use std::alloc::Global;
use std::marker::PhantomData;

// Returns the record of a slot, with a clone of its payload.
fn record_at<P: Clone, L: Layout<P>>(layout: &L, index: usize) -> Result<SlotRecord<P>, OutOfMemory>
    requires within { index < length (L.slots layout.now) }
    requires odd { (version : ℕ) → version_at (L.slots layout.now) index ≡ Some version → IsSome (payload_at (L.slots layout.now) index) ↔ version % 2 ≡ 1 }
    ensures version { IfOk result (λ made. version_at (L.slots layout.now) index ≡ Some made.version) }
    ensures value { IfOk result (λ made. IsCloneOf P.is_clone (payload_at (L.slots layout.now) index) made.value) }
    ensures fits { IfOk result (λ made. made.version < 2 ^ 32) }
{
    let version = layout.version(index);
    if version % 2 == 0 {
        return Ok(SlotRecord {
            value: None,
            version,
        });
    }
    let value = Some(layout.payload(index).clone()?);
    Ok(SlotRecord { value, version })
}

impl<P, L: Layout<P>> Slots<P, L> {
    /// Returns the slots as a list, one record for each slot, with clones of the payloads. Fails if
    /// memory runs out or the clone of a payload fails.
    pub fn to_slots(&self) -> Result<Vec<SlotRecord<P>>, OutOfMemory>
    where
        P: Clone,
        ensures writes { IfOk result (λ list. WritesClones P.is_clone true self.now list.items) }
        ensures contents { IfOk result (λ list. (k : KeyOf) → IsCloneOf P.is_clone (map.get self.now.live k) (map.get (start_live list.items) k)) }
        ensures writes_if_clones_equal { IfOk result (λ list. ClonesEqual P.is_clone → Writes self.now list.items) }
        ensures contents_if_clones_equal { IfOk result (λ list. ClonesEqual P.is_clone → start_live list.items ≡ self.now.live) }
    {
        let mut list = Vec::with_capacity(self.layout.allocator(), self.layout.len())?;
        for index in 0..self.layout.len() {
            list.push_reserved(record_at(&self.layout, index)?);
        }
        Ok(list)
    }
}

impl<P: Drop, L: Layout<P> + Drop> Slots<P, L> {
    /// Makes the slots that a list describes; its values are moved. Fails as `check_slots` does, or with
    /// `Memory`.
    pub fn from_slots(alloc: Global, list: Vec<SlotRecord<P>>) -> Result<Self, SlotsError>
        ensures reads { IfOk result (ReadsAs true list.items) }
        ensures stack { IfOk result (λ made. made.stack ≡ Some (start_stack list.items)) }
        ensures accepted { IsOk result → Accepts list.items list_limit }
        ensures err { IfErr result (RefusesStart list.items list_limit) }
    {
        check_slots(&list, LIST_LIMIT)?;
        let mut layout = L::with_capacity(alloc, list.len())?;
        layout.push_empty(0, Use::Free(0));
        let mut first_vacant = 0;
        let mut aside_count = 0;
        let mut live_count = 0;
        let mut records = list.into_iter();
        records.next();
        for record in records {
            let version = record.version;
            match record.value {
                Some(payload) => {
                    layout.push(version, payload);
                    live_count += 1;
                }
                None => {
                    if version == 0 {
                        layout.push_empty(0, Use::Retired);
                        aside_count += 1;
                    } else {
                        let index = layout.len() as u32;
                        layout.push_empty(version, Use::Free(first_vacant));
                        first_vacant = index;
                    }
                }
            }
        }
        Ok(Slots {
            layout,
            first_vacant,
            used_count: live_count + aside_count,
            aside_count,
            payloads: PhantomData,
        })
    }
}
