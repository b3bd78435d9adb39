//! Lists of slots, and many pairs at once.

ghost use Rattle.std.specs.FinMap as map;
ghost use Rattle.std.specs.Iterator.{IsFinite};
ghost use Rattle.std.specs.Prelude.{◌≡◌, [], Err, IfOk, IfSome, ◌+◌, ◌-◌, ◌≤◌, ◌⊎◌, true};
ghost use Rattle.slotmap_core.specs.Words.{Key as KeyOf, ClonesEqual, IsCloneOf, get};
ghost use Rattle.slotmap_core.specs.declared.errors.SlotsError.TheVariants.{FirstNotEmpty};
ghost use Rattle.slotmap_secondary.specs.Written.{WritesSide};

use slotmap_core::errors::{OutOfMemory, SlotsError};
use slotmap_core::keys::Key;
use slotmap_core::serial::SlotRecord;
use slotmap_secondary::SecondaryMap;
use std::alloc::Global;

/// Where clones equal their values, the list has a record for each slot, with the version and the
/// value of its key.
/// Refuses `to_slots_leaves_place_0_out`, `to_slots_writes_the_next_version`,
/// `to_slots_writes_the_slots_in_reverse`: `writes_if_clones_equal` of `to_slots`.
pub fn to_slots_writes_each_slot<K: Key, V: Clone + Drop>(
    store: &SecondaryMap<K, V>,
) -> Result<Vec<SlotRecord<V>>, OutOfMemory>
    ensures { ClonesEqual V.is_clone → IfOk result (λ list. WritesSide store.now list.items) }
{
    store.to_slots()
}

/// A map that is read from the list of another has its keys, each with a clone of its value.
/// Refuses `from_slots_reads_odd_versions_without_a_value`: `contents` of `to_slots`, and `contents` of
/// `from_slots`.
pub fn map_is_read_again<K: Key, V: Clone + Drop>(
    store: &SecondaryMap<K, V>,
    alloc: Global,
) -> Option<SecondaryMap<K, V>>
    ensures { IfSome result (λ read. (key : KeyOf) → IsCloneOf V.is_clone (get store.now.pairs key) (get read.pairs key)) }
{
    let Ok(list) = store.to_slots() else {
        return None;
    };
    match SecondaryMap::from_slots(alloc, list) {
        Ok(read) => Some(read),
        Err(_) => None,
    }
}

/// A list without slots is refused, since it lacks the first one.
/// Holds by `accepted` and `err` of `from_slots`.
pub fn empty_list_is_refused<K: Key, V: Drop>(
    alloc: Global,
    list: Vec<SlotRecord<V>>,
) -> Result<SecondaryMap<K, V>, SlotsError>
    requires { list.items ≡ [] }
    ensures { result ≡ Err FirstNotEmpty }
{
    SecondaryMap::from_slots(alloc, list)
}

/// Guards of `extend`.
pub fn extend<K: Key, V: Drop, I: IntoIterator<Item = (K, V)>>(
    store: &mut SecondaryMap<K, V>,
    iter: I,
) -> Result<(), (K, V)>
    requires { (it : I.IntoIter) → I.into_iter_gives iter it → I.IntoIter.can_next it × IsFinite (I.IntoIter.remaining it) }
    // The last slot that was made holds a pair, and no memory is asked for where there is some.
    // Refuses `extend_makes_2000_slots`: `grows` of `extend`.
    ensures extend_gives_up_beyond_the_memory_alone_slots { (store.new.places ≡ store.old.places) ⊎ (map.contains_key store.new.pairs (store.new.places - 1) ≡ true) }
    ensures extend_gives_up_beyond_the_memory_alone_capacity { store.new.places ≤ store.old.capacity + 1 → store.new.capacity ≡ store.old.capacity }
{
    store.extend(iter)
}
