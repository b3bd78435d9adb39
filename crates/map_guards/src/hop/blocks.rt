//! The blocks of vacant slots after each call.

ghost use Rattle.std.specs.FinMap as map;
ghost use Rattle.std.specs.Prelude.{◌≡◌, ◌+◌, ◌<◌, IfOk, ◌||◌, ◌==◌, OnOk, OnErr};
ghost use Rattle.slotmap_core.specs.Words.{used, most, IsNew, places, IsLive};
ghost use Rattle.slotmap_hop.specs.Blocks.{HasMaximalBlocks, offer_place, shorter};
ghost use Rattle.slotmap_hop.specs.HopContent.{NoBlocks, blocks_without, blocks_without_all};

use slotmap_core::errors::{InsertError, ReserveError};
use slotmap_core::keys::{DefaultKey, Key};
use slotmap_hop::HopSlotMap;
use std::alloc::Global;

/// However a map is made, no key is live, detached or retired, no slot is vacant, and there is no
/// block.
/// Holds by `starts` and `blocks` of `new`, `blocks` of `with_key`, `starts` of `with_capacity` and
/// `blocks` of `with_capacity_and_key`.
pub fn made_map_is_empty<V: Drop>(
    alloc: Global,
    capacity: usize,
    way: u8,
) -> Result<HopSlotMap<DefaultKey, V>, ReserveError>
    ensures content { IfOk result (λ made. IsNew made.content) }
    ensures blocks { IfOk result (λ made. NoBlocks made.blocks) }
{
    match way {
        0 => HopSlotMap::new(alloc),
        1 => HopSlotMap::with_key(alloc),
        2 => HopSlotMap::with_capacity(alloc, capacity),
        _ => HopSlotMap::with_capacity_and_key(alloc, capacity),
    }
}

/// Guards of `len`.
pub fn len<K: Key, V: Drop>(store: &HopSlotMap<K, V>) -> usize
    // Each block is as long as can be, and each vacant slot is in one.
    // Holds by `valid` of each call.
    ensures blocks_are_the_vacant_slots { HasMaximalBlocks (λ index. (index == 0) || map.contains_key store.now.content.next index) store.now.blocks }
    // The map offers the back of the first block in their list, and a new slot only where there is
    // none.
    // Holds by `valid` of each call.
    ensures back_of_the_first_block_is_offered { used store.now.content < most → store.now.content.offer.index ≡ offer_place store.now.blocks (places store.now.content + 1) }
{
    store.len()
}

/// The first block of vacant slots loses its back; where the call fails, the blocks stay.
/// Refuses `insert_takes_the_front_of_a_block`: `blocks` of `insert`.
pub fn insert_shortens_a_block<K: Key, V: Drop>(
    store: &mut HopSlotMap<K, V>,
    value: V,
) -> Result<K, InsertError<V>>
    ensures ok { OnOk result (store.new.blocks ≡ shorter store.old.blocks) }
    ensures err { OnErr result (store.new.blocks ≡ store.old.blocks) }
{
    store.insert(value)
}

/// The slot joins the blocks of vacant slots beside it.
/// Refuses `a_freed_slot_leads_nowhere`, `remove_after_a_block_starts_a_new_one`,
/// `remove_before_a_block_moves_it_to_the_end`, `remove_between_two_blocks_keeps_both`: `value` and
/// `blocks` of `remove`.
pub fn removed_slot_joins_the_blocks<K: Key, V: Drop>(
    store: &mut HopSlotMap<K, V>,
    key: K,
) -> Option<V>
    ensures { IsLive store.old.content (K.data_of key) → store.new.blocks ≡ blocks_without store.old (K.data_of key) }
{
    store.remove(key)
}

/// The slots join the blocks of vacant slots, by ascending index.
/// Holds by `blocks` of `clear`.
pub fn cleared_slots_join_the_blocks<K: Key, V: Drop>(store: &mut HopSlotMap<K, V>)
    ensures { store.new.blocks ≡ blocks_without_all store.old (map.keys store.old.content.live) }
{
    store.clear();
}
