//! Lists of slots.

ghost use Rattle.std.specs.Prelude.{IfOk, length};
ghost use Rattle.slotmap_hop.specs.Blocks.{Ascend};

use slotmap_core::errors::SlotsError;
use slotmap_core::keys::Key;
use slotmap_core::serial::SlotRecord;
use slotmap_hop::HopSlotMap;
use std::alloc::Global;

/// The blocks of vacant slots are in their list by ascending index.
/// Holds by `ascending` of `from_slots`.
pub fn from_slots_lists_blocks_by_index<K: Key, V: Drop>(
    alloc: Global,
    list: Vec<SlotRecord<V>>,
) -> Result<HopSlotMap<K, V>, SlotsError>
    ensures { IfOk result (λ made. Ascend 1 made.blocks.others (length list.items)) }
{
    HopSlotMap::from_slots(alloc, list)
}
