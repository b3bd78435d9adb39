//! Lists of slots.

ghost use Rattle.std.specs.Prelude.{◌≡◌, [], Err, IfOk, IfSome};
ghost use Rattle.slotmap_core.specs.Words.{Key as KeyOf, ClonesEqual, IsCloneOf, get};
ghost use Rattle.slotmap_core.specs.declared.errors.SlotsError.TheVariants.{FirstNotEmpty};
ghost use Rattle.slotmap_sparse.specs.Written.{WritesSparse};

use slotmap_core::errors::{OutOfMemory, SlotsError};
use slotmap_core::keys::Key;
use slotmap_core::serial::SlotRecord;
use slotmap_sparse::{DefaultHasher, SparseSecondaryMap};
use std::alloc::Global;

/// Where clones equal their values, the list has a record for each index up to the largest, with
/// the version and the value of its key.
/// Refuses `to_slots_ends_before_the_greatest_index`: `writes_if_clones_equal` of `to_slots`.
pub fn to_slots_writes_each_index<K: Key, V: Clone + Drop>(
    store: &SparseSecondaryMap<K, V>,
) -> Result<Vec<SlotRecord<V>>, OutOfMemory>
    ensures { ClonesEqual V.is_clone → IfOk result (λ list. WritesSparse store.now.pairs list.items) }
{
    store.to_slots()
}

/// A map that is read from the list of another, also with a hasher of the caller's, has its keys, each
/// with a clone of its value.
/// Refuses `from_slots_reads_each_slot_at_twice_its_index`: `contents` of `to_slots`, and `contents` of
/// `from_slots` and of `from_slots_with_hasher`.
pub fn map_is_read_again<K: Key, V: Clone + Drop>(
    store: &SparseSecondaryMap<K, V>,
    alloc: Global,
    own: Option<DefaultHasher>,
) -> Option<SparseSecondaryMap<K, V>>
    ensures { IfSome result (λ read. (key : KeyOf) → IsCloneOf V.is_clone (get store.now.pairs key) (get read.pairs key)) }
{
    let Ok(list) = store.to_slots() else {
        return None;
    };
    let read = match own {
        Some(hasher) => SparseSecondaryMap::from_slots_with_hasher(alloc, list, hasher),
        None => SparseSecondaryMap::from_slots(alloc, list),
    };
    match read {
        Ok(map) => Some(map),
        Err(_) => None,
    }
}

/// A list without slots is refused, since it lacks the first one.
/// Holds by `accepted` and `err` of `from_slots`, and `accepted` and `err` of `from_slots_with_hasher`.
pub fn empty_list_is_refused<K: Key, V: Drop>(
    alloc: Global,
    list: Vec<SlotRecord<V>>,
    own: Option<DefaultHasher>,
) -> Result<SparseSecondaryMap<K, V>, SlotsError>
    requires { list.items ≡ [] }
    ensures { result ≡ Err FirstNotEmpty }
{
    match own {
        Some(hasher) => SparseSecondaryMap::from_slots_with_hasher(alloc, list, hasher),
        None => SparseSecondaryMap::from_slots(alloc, list),
    }
}
