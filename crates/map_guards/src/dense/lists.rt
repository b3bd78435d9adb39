//! Lists of slots.

ghost use Rattle.std.specs.Prelude.{◌≡◌, Some, IfOk};
ghost use Rattle.slotmap_core.specs.Words.{start_stack};

use slotmap_core::errors::SlotsError;
use slotmap_core::keys::Key;
use slotmap_core::serial::SlotRecord;
use slotmap_dense::DenseSlotMap;
use std::alloc::Global;

/// Inserts reuse the vacant slots first, the largest index first.
/// Holds by `stack` of `from_slots`.
pub fn from_slots_reuses_the_largest_index_first<K: Key, V: Drop>(
    alloc: Global,
    list: Vec<SlotRecord<V>>,
) -> Result<DenseSlotMap<K, V>, SlotsError>
    ensures { IfOk result (λ made. made.content.stack ≡ Some (start_stack list.items)) }
{
    DenseSlotMap::from_slots(alloc, list)
}
