//! Iterators over the keys and values, and pairs taken out.

ghost use Rattle.std.specs.FinMap as map;
ghost use Rattle.std.specs.Prelude.{◌≡◌, ◌∷◌, [], IfOk, IfSome, IfNone, IsOk, length, ◌+◌, ◌*◌, ◌≤◌};
ghost use Rattle.slotmap_core.specs.Words.{AreClones};
ghost use Rattle.slotmap_hop.specs.Drain.{HopDrainCanStep, hop_drain_live};
ghost use Rattle.slotmap_hop.specs.Iter.{ListsRetired};

use slotmap_core::keys::Key;
use slotmap_hop::{Drain, HopSlotMap, IntoIter, Iter, Keys, Values};
use std::alloc::AllocError;

/// Each of them has each retired slot ahead of it.
/// Holds by `retired` of `iter`, `retired` of `keys` and `retired` of `values`.
pub fn retired_slots_are_ahead<K: Key, V>(
    store: &HopSlotMap<K, V>,
) -> (Iter<'_, K, V>, Keys<'_, K, V>, Values<'_, K, V>)
    ensures iter { ListsRetired store.now result.0.retired }
    ensures keys { ListsRetired store.now result.1.retired }
    ensures values { ListsRetired store.now result.2.retired }
{
    (store.iter(), store.keys(), store.values())
}

/// A step that yields an item reads at least one slot, and at most two and two more for each
/// retired slot that it passes. At the end it reads none.
/// Refuses `next_live_steps_over_each_vacant_slot`: `next_gives` of `Iter`.
pub fn iter_reads_few_slots<'a, K: Key, V>(items: &mut Iter<'a, K, V>) -> Option<(K, &'a V)>
    ensures some { IfSome result (λ _. items.old.reads + 1 ≤ items.new.reads) }
    ensures none { IfNone result (items.new ≡ items.old) }
    ensures few { items.new.reads + 2 * length items.new.retired ≤ items.old.reads + 2 * length items.old.retired + 2 }
{
    items.next()
}

/// A copy yields the same items.
/// Refuses `a_copy_counts_anew`: `is_clone` of `Iter`.
pub fn copied_iter_yields_the_same<'a, K: Key, V>(
    items: &Iter<'a, K, V>,
) -> Result<Iter<'a, K, V>, AllocError>
    ensures same { IfOk result (λ copy. copy ≡ items.now) }
    ensures ok { IsOk result }
{
    items.clone()
}

/// The first pair that is left is yielded, and then the others are left.
/// Refuses `owned_iterator_keeps_its_place`: `next_gives` of `IntoIter`.
pub fn owned_iterator_yields_its_first_pair<K: Key, V: Drop>(
    pairs: &mut IntoIter<K, V>,
) -> Option<(K, V)>
    ensures some { IfSome result (λ pair. pairs.old ≡ (K.data_of pair.0, pair.1) ∷ pairs.new) }
    ensures none { IfNone result (pairs.old ≡ []) }
{
    pairs.next()
}

/// A copy yields the same keys in the same order, each with a clone of its value; also by the trait
/// `Clone`, as a derived `Clone` makes one.
/// Refuses `a_cloned_owned_iterator_starts_anew`, `derived_clone_of_an_owned_iterator_starts_anew`:
/// `clones` of `clone`, and `is_clone`, of `IntoIter`.
pub fn copied_owned_iterator_yields_clones<K: Key, V: Clone>(
    pairs: &IntoIter<K, V>,
    derived: bool,
) -> Result<IntoIter<K, V>, AllocError>
    ensures { IfOk result (AreClones V.is_clone pairs.now) }
{
    if derived {
        Clone::clone(pairs)
    } else {
        pairs.clone()
    }
}

/// The pair of the smallest index is yielded first.
/// Holds by `next_gives`.
pub fn drain_yields_the_smallest_index<'a, K: Key, V: Drop>(
    pairs: &mut Drain<'a, K, V>,
) -> Option<(K, V)>
    requires { HopDrainCanStep K.data_of pairs.old }
    ensures { IfSome result (λ pair. map.entries (hop_drain_live pairs.old) ≡ (K.data_of pair.0, pair.1) ∷ map.entries (hop_drain_live pairs.new)) }
{
    pairs.next()
}
