//! Keys by their index, and the order in which slots are freed.

ghost use Rattle.std.specs.Prelude.{◌≡◌, ◌<◌, ◌≤◌, Some, IfSome, IsSome};
ghost use Rattle.slotmap_core.specs.Words.{Key as KeyOf, FreesByIndex, IsLive};

use slotmap_basic::SlotMap;
use slotmap_core::keys::Key;

/// A live key is found by its index.
/// Holds by `none`, `live` and `valid` of `key_at`.
pub fn key_at_finds_each_live_key<K: Key, V: Drop>(store: &SlotMap<K, V>, index: u32) -> Option<K>
    ensures { (key : KeyOf) → IsLive store.now key → key.index ≡ index → IfSome result (λ found. K.data_of found ≡ key) × IsSome result }
{
    store.key_at(index)
}

/// Guards of `next_after`.
pub fn next_after<K: Key, V: Drop>(store: &SlotMap<K, V>, key: K) -> Option<(K, &V)>
    // Its index is greater.
    // Holds by `after` of `next_after`.
    ensures next_after_goes_on_behind_the_key { IfSome result (λ found. (K.data_of key).index < (K.data_of found.0).index) }
    // No live key stands between the two.
    // Refuses `next_after_passes_a_key_over`, `next_after_passes_a_near_slot_over`,
    // `next_after_searches_on_past_the_first_key`, `next_after_searches_past_the_near_slots`:
    // `first` of `next_after`.
    ensures next_after_passes_no_live_key_over { (other : KeyOf) → IsLive store.now other →
        (K.data_of key).index < other.index → IfSome result (λ found. (K.data_of found.0).index ≤ other.index) }
    // It returns `None` only where no live key comes after the key.
    // Refuses `next_after_stops_after_the_near_slots`: `none` of `next_after`.
    ensures next_after_finds_a_key_while_there_is_one { (other : KeyOf) → IsLive store.now other → (K.data_of key).index < other.index → IsSome result }
{
    store.next_after(Some(key))
}

/// With no key the first live key is returned.
/// Refuses `next_after_begins_behind_the_first_key`: `first` and `none` of `next_after`.
pub fn next_after_no_key_begins_with_the_first<K: Key, V: Drop>(
    store: &SlotMap<K, V>,
) -> Option<(K, &V)>
    ensures some { (other : KeyOf) → IsLive store.now other → IsSome result }
    ensures first { (other : KeyOf) → IsLive store.now other → IfSome result (λ found. (K.data_of found.0).index ≤ other.index) }
{
    store.next_after(None)
}

/// Slots are freed by ascending index.
/// Holds by `freed_order` of `clear`.
pub fn clear_frees_by_index<K: Key, V: Drop>(store: &mut SlotMap<K, V>)
    ensures { FreesByIndex store.old store.new }
{
    store.clear();
}
