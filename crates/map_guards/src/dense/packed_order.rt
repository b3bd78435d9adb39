//! The packed order after each call, and the order in which slots are freed.

ghost use Rattle.std.specs.Prelude.{◌≡◌, [], IfOk, ◌∷◌, zip, ◌+◌, ◌++◌, OnOk, OnErr, IfSome};
ghost use Rattle.slotmap_core.specs.Words.{IsNew, IsListing, CallableOnEach, AllZip};
ghost use Rattle.slotmap_dense.specs.Dense.{ClosesGap, FreesFromBack};
ghost use Rattle.slotmap_dense.specs.Retain.{RetainsPacked};

use slotmap_core::errors::{InsertError, ReattachError, ReserveError};
use slotmap_core::keys::{DefaultKey, Key};
use slotmap_dense::DenseSlotMap;
use std::alloc::{AllocError, Global};

/// However a map is made, no key is live, detached or retired, no slot is vacant, and the packed
/// order is empty.
/// Holds by `starts` and `empty` of `new`, `empty` of `with_key`, `empty` of `with_capacity` and
/// `empty` of `with_capacity_and_key`.
pub fn made_map_is_empty<V: Drop>(
    alloc: Global,
    capacity: usize,
    way: u8,
) -> Result<DenseSlotMap<DefaultKey, V>, ReserveError>
    ensures content { IfOk result (λ made. IsNew made.content) }
    ensures order { IfOk result (λ made. made.values ≡ []) }
{
    match way {
        0 => DenseSlotMap::new(alloc),
        1 => DenseSlotMap::with_key(alloc),
        2 => DenseSlotMap::with_capacity(alloc, capacity),
        _ => DenseSlotMap::with_capacity_and_key(alloc, capacity),
    }
}

/// The keys with the values at their positions are the live keys with their values.
/// Holds by `valid` of each call.
pub fn packed_keys_are_the_live_keys<K: Key, V: Drop>(store: &DenseSlotMap<K, V>) -> usize
    ensures { IsListing store.now.content.live (zip store.now.keys store.now.values) }
{
    store.len()
}

/// The key and the value are the last in packed order; where the call fails, the order stays.
/// Holds by `order` and `valid` of `insert`.
pub fn insert_appends<K: Key, V: Drop>(
    store: &mut DenseSlotMap<K, V>,
    value: V,
) -> Result<K, InsertError<V>>
    ensures keys { IfOk result (λ key. store.new.keys ≡ store.old.keys ++ K.data_of key ∷ []) }
    ensures values { OnOk result (store.new.values ≡ store.old.values ++ value ∷ []) }
    ensures failed { OnErr result (store.new.values ≡ store.old.values) }
{
    store.insert(value)
}

/// So are those of `reattach`.
/// Holds by `order` of `reattach`.
pub fn reattach_appends<K: Key, V: Drop>(
    store: &mut DenseSlotMap<K, V>,
    key: K,
    value: V,
) -> Result<(), ReattachError<V>>
    ensures keys { OnOk result (store.new.keys ≡ store.old.keys ++ K.data_of key ∷ []) }
    ensures values { OnOk result (store.new.values ≡ store.old.values ++ value ∷ []) }
{
    store.reattach(key, value)
}

/// The last key and its value move to the position of the removed or detached ones.
/// Holds by `order` of `remove`, and of `detach`.
pub fn taken_key_leaves_no_gap<K: Key, V: Drop>(
    store: &mut DenseSlotMap<K, V>,
    key: K,
    keeps: bool,
) -> Option<V>
    ensures { IfSome result (λ value. ClosesGap store.old (K.data_of key) value store.new) }
{
    if keeps {
        store.detach(key)
    } else {
        store.remove(key)
    }
}

/// The closure is called in packed order, and slots are freed in the order of the calls.
/// Refuses `retain_frees_in_another_order`, `retain_steps_on_after_a_removal`: the premise and
/// `order` of `retain`.
pub fn retain_goes_by_packed_order<K: Key, V: Drop, F: FnMut(K, &mut V) -> bool + Drop>(
    store: &mut DenseSlotMap<K, V>,
    f: F,
)
    requires { CallableOnEach F.FnMut K.data_of f store.old.content.live }
    ensures { RetainsPacked F.FnMut K.data_of f store.old store.new }
{
    store.retain(f);
}

/// The packed order is empty, and slots are freed from its back.
/// Holds by `none` and `freed_order` of `clear`.
pub fn clear_frees_from_the_back<K: Key, V: Drop>(store: &mut DenseSlotMap<K, V>)
    ensures none { store.new.values ≡ [] }
    ensures order { FreesFromBack store.old store.new }
{
    store.clear();
}

/// The keys of a copy stand in the same packed order, each with a clone of its value.
/// Holds by `order` of `clone`.
pub fn copy_has_the_same_order<K: Key, V: Clone>(
    store: &DenseSlotMap<K, V>,
) -> Result<DenseSlotMap<K, V>, AllocError>
    ensures { IfOk result (λ copy. (copy.keys ≡ store.now.keys) × AllZip V.is_clone store.now.values copy.values) }
{
    store.clone()
}
