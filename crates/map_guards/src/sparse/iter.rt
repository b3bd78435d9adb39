//! Iterators over the keys and values, and the iterator by value.

ghost use Rattle.std.specs.Prelude.{◌≡◌, ◌∷◌, [], IfSome, IfNone};
ghost use Rattle.slotmap_core.specs.Words.{IsValueListing, keyed};

use slotmap_core::keys::Key;
use slotmap_sparse::{IntoIter, Iter, SparseSecondaryMap, Values};

/// Each key's value is yielded once.
/// Refuses `values_begins_at_the_second`: `listing` of `values`.
pub fn values_lists_each_once<K: Key, V>(store: &SparseSecondaryMap<K, V>) -> Values<'_, K, V>
    ensures listing { IsValueListing (keyed store.now.pairs) result }
{
    store.values()
}

/// The first item that is left is yielded, and then the others are left. After its end
/// it yields nothing.
/// Refuses `iter_gives_another_version`: `next_gives` of `Iter`.
pub fn iter_yields_its_first_item<'a, K: Key, V>(items: &mut Iter<'a, K, V>) -> Option<(K, &'a V)>
    ensures some { IfSome result (λ item. items.old ≡ (K.data_of item.0, item.1.now) ∷ items.new) }
    ensures none { IfNone result (items.old ≡ []) }
    ensures stays_at_end { IfNone result (items.new ≡ []) }
{
    items.next()
}

/// The first pair that is left is yielded, and then the others are left.
/// Refuses `into_iter_gives_another_version`: `next_gives` of `IntoIter`.
pub fn owned_iterator_yields_its_first_pair<K: Key, V: Drop>(
    pairs: &mut IntoIter<K, V>,
) -> Option<(K, V)>
    ensures some { IfSome result (λ pair. pairs.old ≡ (K.data_of pair.0, pair.1) ∷ pairs.new) }
    ensures none { IfNone result (pairs.old ≡ []) }
{
    pairs.next()
}
