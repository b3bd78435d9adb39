//! After its end an iterator yields nothing more. Each function calls `next` once more where it
//! returned `None`, in whatever state the iterator was, and returns true.

ghost use Rattle.std.specs.Prelude.{IsTrue};
ghost use Rattle.slotmap.specs.Words.{DrainCanStep, HopDrainCanStep, SideDrainCanStep};

use slotmap::{DenseSlotMap, Key, basic, dense, hop, secondary, sparse_secondary as sparse};

/// `SlotMap::iter`.
pub fn basic_iter<K: Key>(pairs: &mut basic::Iter<'_, K, u64>) -> bool
    ensures stays_at_end { IsTrue result }
{
    match pairs.next() {
        Some(_) => true,
        None => pairs.next().is_none(),
    }
}

/// `SlotMap::keys`.
pub fn basic_keys<K: Key>(keys: &mut basic::Keys<'_, K, u64>) -> bool
    ensures stays_at_end { IsTrue result }
{
    match keys.next() {
        Some(_) => true,
        None => keys.next().is_none(),
    }
}

/// `SlotMap::values`.
pub fn basic_values<K: Key>(values: &mut basic::Values<'_, K, u64>) -> bool
    ensures stays_at_end { IsTrue result }
{
    match values.next() {
        Some(_) => true,
        None => values.next().is_none(),
    }
}

/// `SlotMap::into_iter`.
pub fn basic_into_iter<K: Key>(pairs: &mut basic::IntoIter<K, u64>) -> bool
    ensures stays_at_end { IsTrue result }
{
    match pairs.next() {
        Some(_) => true,
        None => pairs.next().is_none(),
    }
}

/// `SlotMap::drain`.
pub fn basic_drain<K: Key>(pairs: &mut basic::Drain<'_, K, u64>) -> bool
    requires can_step { DrainCanStep pairs.old }
    ensures stays_at_end { IsTrue result }
{
    match pairs.next() {
        Some(_) => true,
        None => pairs.next().is_none(),
    }
}

/// `DenseSlotMap::iter`.
pub fn dense_iter<K: Key>(pairs: &mut dense::Iter<'_, K, u64>) -> bool
    ensures stays_at_end { IsTrue result }
{
    match pairs.next() {
        Some(_) => true,
        None => pairs.next().is_none(),
    }
}

/// `DenseSlotMap::keys`.
pub fn dense_keys<K: Key>(keys: &mut dense::Keys<'_, K, u64>) -> bool
    ensures stays_at_end { IsTrue result }
{
    match keys.next() {
        Some(_) => true,
        None => keys.next().is_none(),
    }
}

/// `DenseSlotMap::values`.
pub fn dense_values<K: Key>(values: &mut dense::Values<'_, K, u64>) -> bool
    ensures stays_at_end { IsTrue result }
{
    match values.next() {
        Some(_) => true,
        None => values.next().is_none(),
    }
}

/// `DenseSlotMap::iter_mut`, from its start.
pub fn dense_iter_mut<K: Key>(store: &mut DenseSlotMap<K, u64>) -> bool
    ensures stays_at_end { IsTrue result }
{
    let mut pairs = store.iter_mut();
    match pairs.next() {
        Some(_) => true,
        None => pairs.next().is_none(),
    }
}

/// `DenseSlotMap::values_mut`, from its start.
pub fn dense_values_mut<K: Key>(store: &mut DenseSlotMap<K, u64>) -> bool
    ensures stays_at_end { IsTrue result }
{
    let mut values = store.values_mut();
    match values.next() {
        Some(_) => true,
        None => values.next().is_none(),
    }
}

/// `DenseSlotMap::into_iter`.
pub fn dense_into_iter<K: Key>(pairs: &mut dense::IntoIter<K, u64>) -> bool
    ensures stays_at_end { IsTrue result }
{
    match pairs.next() {
        Some(_) => true,
        None => pairs.next().is_none(),
    }
}

/// `DenseSlotMap::drain`.
pub fn dense_drain<K: Key>(pairs: &mut dense::Drain<'_, K, u64>) -> bool
    ensures stays_at_end { IsTrue result }
{
    match pairs.next() {
        Some(_) => true,
        None => pairs.next().is_none(),
    }
}

/// `HopSlotMap::iter`.
pub fn hop_iter<K: Key>(pairs: &mut hop::Iter<'_, K, u64>) -> bool
    ensures stays_at_end { IsTrue result }
{
    match pairs.next() {
        Some(_) => true,
        None => pairs.next().is_none(),
    }
}

/// `HopSlotMap::keys`.
pub fn hop_keys<K: Key>(keys: &mut hop::Keys<'_, K, u64>) -> bool
    ensures stays_at_end { IsTrue result }
{
    match keys.next() {
        Some(_) => true,
        None => keys.next().is_none(),
    }
}

/// `HopSlotMap::values`.
pub fn hop_values<K: Key>(values: &mut hop::Values<'_, K, u64>) -> bool
    ensures stays_at_end { IsTrue result }
{
    match values.next() {
        Some(_) => true,
        None => values.next().is_none(),
    }
}

/// `HopSlotMap::into_iter`.
pub fn hop_into_iter<K: Key>(pairs: &mut hop::IntoIter<K, u64>) -> bool
    ensures stays_at_end { IsTrue result }
{
    match pairs.next() {
        Some(_) => true,
        None => pairs.next().is_none(),
    }
}

/// `HopSlotMap::drain`.
pub fn hop_drain<K: Key>(pairs: &mut hop::Drain<'_, K, u64>) -> bool
    requires can_step { HopDrainCanStep K.data_of pairs.old }
    ensures stays_at_end { IsTrue result }
{
    match pairs.next() {
        Some(_) => true,
        None => pairs.next().is_none(),
    }
}

/// `SecondaryMap::iter`.
pub fn secondary_iter<K: Key>(pairs: &mut secondary::Iter<'_, K, u64>) -> bool
    ensures stays_at_end { IsTrue result }
{
    match pairs.next() {
        Some(_) => true,
        None => pairs.next().is_none(),
    }
}

/// `SecondaryMap::keys`.
pub fn secondary_keys<K: Key>(keys: &mut secondary::Keys<'_, K, u64>) -> bool
    ensures stays_at_end { IsTrue result }
{
    match keys.next() {
        Some(_) => true,
        None => keys.next().is_none(),
    }
}

/// `SecondaryMap::values`.
pub fn secondary_values<K: Key>(values: &mut secondary::Values<'_, K, u64>) -> bool
    ensures stays_at_end { IsTrue result }
{
    match values.next() {
        Some(_) => true,
        None => values.next().is_none(),
    }
}

/// `SecondaryMap::into_iter`.
pub fn secondary_into_iter<K: Key>(pairs: &mut secondary::IntoIter<K, u64>) -> bool
    ensures stays_at_end { IsTrue result }
{
    match pairs.next() {
        Some(_) => true,
        None => pairs.next().is_none(),
    }
}

/// `SecondaryMap::drain`.
#[tactic(auto, using(slotmap::proofs::Callers::secondary))]
pub fn secondary_drain<K: Key>(pairs: &mut secondary::Drain<'_, K, u64>) -> bool
    requires can_step { SideDrainCanStep pairs.old }
    ensures stays_at_end { IsTrue result }
{
    match pairs.next() {
        Some(_) => true,
        None => pairs.next().is_none(),
    }
}

/// `SparseSecondaryMap::iter`.
pub fn sparse_iter<K: Key>(pairs: &mut sparse::Iter<'_, K, u64>) -> bool
    ensures stays_at_end { IsTrue result }
{
    match pairs.next() {
        Some(_) => true,
        None => pairs.next().is_none(),
    }
}

/// `SparseSecondaryMap::keys`.
pub fn sparse_keys<K: Key>(keys: &mut sparse::Keys<'_, K, u64>) -> bool
    ensures stays_at_end { IsTrue result }
{
    match keys.next() {
        Some(_) => true,
        None => keys.next().is_none(),
    }
}

/// `SparseSecondaryMap::values`.
pub fn sparse_values<K: Key>(values: &mut sparse::Values<'_, K, u64>) -> bool
    ensures stays_at_end { IsTrue result }
{
    match values.next() {
        Some(_) => true,
        None => values.next().is_none(),
    }
}

/// `SparseSecondaryMap::into_iter`.
pub fn sparse_into_iter<K: Key>(pairs: &mut sparse::IntoIter<K, u64>) -> bool
    ensures stays_at_end { IsTrue result }
{
    match pairs.next() {
        Some(_) => true,
        None => pairs.next().is_none(),
    }
}

/// `SparseSecondaryMap::drain`.
#[tactic(auto, using(slotmap::proofs::Callers::secondary))]
pub fn sparse_drain<K: Key>(pairs: &mut sparse::Drain<'_, K, u64>) -> bool
    ensures stays_at_end { IsTrue result }
{
    match pairs.next() {
        Some(_) => true,
        None => pairs.next().is_none(),
    }
}
