//! Slots that are used again: once values were removed, as many are inserted, which can't fail.

ghost use Rattle.std.specs.Prelude.{◌≡◌, ◌+◌, ◌≤◌, Some, IfOk, false};
ghost use Rattle.std.specs.FinMap as map;
ghost use Rattle.slotmap.specs.Words.{Key as KeyOf, IsLive, is_last};

use slotmap::{Key, Primary, ReserveError, SlotMap};
use std::alloc::Global;

/// Removes a live key, and stores another value in its slot. It can't fail, and the capacity stays.
///
/// The key isn't the last of its slot, which would be retired.
pub fn put_in_its_place<K: Key>(store: &mut SlotMap<K, u64>, key: K, value: u64) -> K
    requires live { IsLive store.old (K.data_of key) }
    requires not_last { is_last (K.data_of key) ≡ false }
    ensures value { map.get store.new.live (K.data_of result) ≡ Some value }
    ensures as_many { map.len store.new.live ≡ map.len store.old.live }
    ensures capacity { store.new.capacity ≡ store.old.capacity }
{
    store.remove(key);
    let Ok(new) = store.insert(value) else {
        unreachable!()
    };
    new
}

// Inserts so many values. The map has room for them, so none is refused, and the capacity stays.
fn fill<K: Key, M: Primary<K, u64>>(store: &mut M, count: usize)
    requires room { count ≤ (M.content store.old).room }
    ensures as_many { map.len (M.content store.new).live ≡ map.len (M.content store.old).live + count }
    ensures capacity { (M.content store.new).capacity ≡ (M.content store.old).capacity }
    ensures room { (M.content store.old).room ≤ (M.content store.new).room + count }
    // Where no slot is vacant, each new key is the first of its slot.
    ensures none_last { map.len (M.content store.old).next ≡ 0
        → ((k : KeyOf) → IsLive (M.content store.old) k → is_last k ≡ false)
        → (k : KeyOf) → IsLive (M.content store.new) k → is_last k ≡ false }
{
    for _ in 0..count {
        let Ok(_) = store.insert(0) else {
            unreachable!()
        };
    }
}

/// Makes a map of any kind with room for so many values, fills it, clears it and fills it again. Only
/// the making may fail, and the capacity stays.
pub fn fill_twice<K: Key, M: Primary<K, u64> + Drop>(
    alloc: Global,
    count: usize,
) -> Result<M, ReserveError>
    ensures as_many { IfOk result (λ store. map.len (M.content store).live ≡ count) }
{
    let mut store: M = M::with_capacity_and_key(alloc, count)?;
    let capacity = store.capacity();
    fill(&mut store, count);
    store.clear();
    fill(&mut store, count);
    prove_eq!(store.capacity(), capacity);
    Ok(store)
}
