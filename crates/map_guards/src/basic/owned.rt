//! Pairs taken out: the iterator by value, and that of `drain`.

ghost use Rattle.std.specs.FinMap as map;
ghost use Rattle.std.specs.Prelude.{◌≡◌, ◌∷◌, [], IfOk, IfSome, IfNone};
ghost use Rattle.slotmap_core.specs.Words.{AreClones};
ghost use Rattle.slotmap_basic.specs.Drain.{DrainCanStep, drain_live};

use slotmap_basic::{Drain, IntoIter, SlotMap};
use slotmap_core::keys::Key;
use std::alloc::AllocError;

/// The first pair that is left is yielded, and then the others are left.
/// Refuses `into_iter_gives_null_keys`, `owned_iterator_gives_another_version`: `next_gives` of
/// `IntoIter`.
pub fn owned_iterator_yields_its_first_pair<K: Key, V: Drop>(
    pairs: &mut IntoIter<K, V>,
) -> Option<(K, V)>
    ensures some { IfSome result (λ pair. pairs.old ≡ (K.data_of pair.0, pair.1) ∷ pairs.new) }
    ensures none { IfNone result (pairs.old ≡ []) }
{
    pairs.next()
}

/// A map by value yields each live key once with its value, by ascending index.
/// Holds by `into_iter_gives`.
pub fn owned_iterator_lists_each_pair_by_index<K: Key, V: Drop>(
    store: SlotMap<K, V>,
) -> IntoIter<K, V>
    ensures { result ≡ map.entries store.live }
{
    store.into_iter()
}

/// A copy yields the same keys in the same order, each with a clone of its value; also by the trait
/// `Clone`, as a derived `Clone` makes one.
/// Refuses `an_owned_iterator_copy_passes_a_pair_over`,
/// `derived_clone_of_an_owned_iterator_passes_a_pair_over`: `clones` of `clone`, and `is_clone`, of
/// `IntoIter`.
pub fn copied_owned_iterator_yields_clones<K: Key, V: Clone>(
    pairs: &IntoIter<K, V>,
    derived: bool,
) -> Result<IntoIter<K, V>, AllocError>
    ensures { IfOk result (AreClones V.is_clone pairs.now) }
{
    if derived {
        Clone::clone(pairs)
    } else {
        pairs.clone()
    }
}

/// The pair of the smallest index is yielded first.
/// Holds by `next_gives`.
pub fn drain_yields_the_smallest_index<'a, K: Key, V: Drop>(
    pairs: &mut Drain<'a, K, V>,
) -> Option<(K, V)>
    requires { DrainCanStep pairs.old }
    ensures { IfSome result (λ pair. map.entries (drain_live pairs.old) ≡ (K.data_of pair.0, pair.1) ∷ map.entries (drain_live pairs.new)) }
{
    pairs.next()
}
