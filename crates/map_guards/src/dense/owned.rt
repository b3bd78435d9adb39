//! Pairs taken out: the iterator by value, and that of `drain`.

ghost use Rattle.std.specs.Prelude.{◌≡◌, ◌∷◌, [], IfOk, IfSome, IfNone, length, ◌++◌};
ghost use Rattle.slotmap_core.specs.Words.{AreClones};
ghost use Rattle.slotmap_dense.specs.Drain.{dense_drain_loan};

use slotmap_core::keys::Key;
use slotmap_dense::{Drain, IntoIter, Iter};
use std::alloc::AllocError;

/// The first pair that is left is yielded, and then the others are left.
/// Refuses `into_iter_gives_the_first_key_again`: `next_gives` of `IntoIter`.
pub fn owned_iterator_yields_its_first_pair<K: Key, V: Drop>(
    pairs: &mut IntoIter<K, V>,
) -> Option<(K, V)>
    ensures some { IfSome result (λ pair. pairs.old ≡ (K.data_of pair.0, pair.1) ∷ pairs.new) }
    ensures none { IfNone result (pairs.old ≡ []) }
{
    pairs.next()
}

/// A copy yields the same keys in the same order, each with a clone of its value; also by the trait
/// `Clone`, as a derived `Clone` makes one.
/// Refuses `a_cloned_owned_iterator_starts_anew`,
/// `derived_clone_of_an_owned_iterator_passes_a_pair_over`: `clones` of `clone`, and `is_clone`, of
/// `IntoIter`.
pub fn copied_owned_iterator_yields_clones<K: Key, V: Clone>(
    pairs: &IntoIter<K, V>,
    derived: bool,
) -> Result<IntoIter<K, V>, AllocError>
    ensures { IfOk result (AreClones V.is_clone pairs.now) }
{
    if derived {
        Clone::clone(pairs)
    } else {
        pairs.clone()
    }
}

/// The pair at the back of the packed order is yielded first.
/// Refuses `drain_takes_the_first_pair`: `next_gives`.
pub fn drain_goes_on_from_the_back<'a, K: Key, V: Drop>(
    pairs: &mut Drain<'a, K, V>,
) -> Option<(K, V)>
    ensures keys { IfSome result (λ pair. (dense_drain_loan pairs.old).now.keys ≡ (dense_drain_loan pairs.new).now.keys ++ K.data_of pair.0 ∷ []) }
    ensures values { IfSome result (λ pair. (dense_drain_loan pairs.old).now.values ≡ (dense_drain_loan pairs.new).now.values ++ pair.1 ∷ []) }
{
    pairs.next()
}

/// It is the number of items that are left.
/// Refuses `iter_counts_what_was_given`: `len` of `Iter`.
pub fn iter_knows_how_many_are_left<K: Key, V>(items: &Iter<'_, K, V>) -> usize
    ensures { result ≡ length items.now }
{
    items.len()
}
