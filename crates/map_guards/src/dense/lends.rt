//! Iterators that yield mutable references, and mutable slices.

ghost use Rattle.std.specs.FinMap as map;
ghost use Rattle.std.specs.Prelude.{◌≡◌, ◌↔◌, ◌∷◌, [], Some, IfSome, IfNone, IsSome, List, length, zip, map as list_map, IfOk, OnOk, IsOk};
ghost use Rattle.slotmap_core.specs.Several.{CanReplace, with_values};
ghost use Rattle.slotmap_dense.specs.Dense.{value_of, with_value_of};

use slotmap_core::keys::Key;
use slotmap_dense::DenseSlotMap;

/// The values of both keys are lent, in their order, exactly where both are live and differ.
/// Refuses `get_disjoint_mut_lends_in_the_other_order`: `which` and `value` of `get_disjoint_mut`.
pub fn get_disjoint_mut_lends_both_values<K: Key, V: Drop>(
    store: &mut DenseSlotMap<K, V>,
    keys: [K; 2],
) -> Option<(&mut V, &mut V)>
    ensures which { IsSome result ↔ CanReplace value_of store.old (list_map K.data_of keys) }
    ensures values { IfSome result (λ pair. list_map (map.get store.old.content.live) (list_map K.data_of keys) ≡ list_map Some (pair.0.now ∷ pair.1.now ∷ [])) }
{
    store.get_disjoint_mut(keys)
}

/// A live key is lent with its value.
/// Refuses `iter_mut_gives_another_key`: `in_order` and `ready` of `iter_mut`, and `next_gives` of
/// `IterMut`.
pub fn iter_mut_lends_a_live_key_with_its_value<K: Key, V: Drop>(
    store: &mut DenseSlotMap<K, V>,
) -> Option<(K, &mut V)>
    ensures { IfSome result (λ pair. map.get store.old.content.live (K.data_of pair.0) ≡ Some pair.1.now) }
{
    store.iter_mut().next()
}

/// The first value in packed order is lent first.
/// Holds by `in_order` of `values_mut`, and `next_gives` of `ValuesMut`.
pub fn values_mut_begins_with_the_first_value<K: Key, V: Drop>(
    store: &mut DenseSlotMap<K, V>,
) -> Option<&mut V>
    ensures some { IfSome result (λ value. (rest : List V) × (store.old.values ≡ value.now ∷ rest)) }
    ensures none { IfNone result (store.old.values ≡ []) }
{
    store.values_mut().next()
}

/// As many pairs are lent as there are keys, and as many values.
/// Holds by `in_order` of `iter_mut`, `in_order` of `values_mut`, `len` of `IterMut` and `len` of
/// `ValuesMut`.
pub fn each_value_is_lent<K: Key, V: Drop>(store: &mut DenseSlotMap<K, V>) -> (usize, usize)
    ensures pairs { result.0 ≡ length (zip store.old.keys store.old.values) }
    ensures values { result.1 ≡ length store.old.values }
{
    let pairs = store.iter_mut().len();
    (pairs, store.values_mut().len())
}

/// Once what was lent is given back, the keys stand where they stood, and no slot has changed.
/// Holds by `writes_back` of `iter_mut` and `writes_back` of `values_mut`.
pub fn keys_and_slots_stay<K: Key, V: Drop>(store: &mut DenseSlotMap<K, V>, alone: bool)
    ensures keys { store.new.keys ≡ store.old.keys }
    ensures slots { store.new.content.next ≡ store.old.content.next }
{
    if alone {
        store.values_mut();
    } else {
        store.iter_mut();
    }
}

/// So it is where the values of a slice are reversed.
/// Holds by `writes_back` and `value` of `values_as_mut_slice`, and `writes_back` and `values` of
/// `as_mut_slices`.
pub fn values_move_beside_the_keys<K: Key, V: Drop>(store: &mut DenseSlotMap<K, V>, alone: bool)
    ensures keys { store.new.keys ≡ store.old.keys }
    ensures slots { store.new.content.next ≡ store.old.content.next }
{
    if alone {
        store.values_as_mut_slice().reverse();
    } else {
        let (_, values) = store.as_mut_slices();
        values.reverse();
    }
}

/// Guards of `replace_disjoint`.
pub fn replace_disjoint<K: Key, V: Drop, const N: usize>(
    store: &mut DenseSlotMap<K, V>,
    keys: [K; N],
    values: [V; N],
) -> Result<[V; N], [V; N]>
    // It succeeds exactly where each key is live and no two are equal.
    // Refuses `replace_disjoint_takes_equal_keys`: `which` of `replace_disjoint`.
    ensures replace_disjoint_takes_live_keys_that_differ { IsOk result ↔ CanReplace value_of store.old (list_map K.data_of keys) }
    // The values that the keys had are returned, in their order. Each key has the value at its
    // position, and nothing else changes.
    // Refuses `replace_disjoint_writes_under_the_first_key`: `value` and `ok` of
    // `replace_disjoint`.
    ensures replace_disjoint_exchanges_each_value_old { IfOk result (λ before. list_map (map.get store.old.content.live) (list_map K.data_of keys) ≡ list_map Some before) }
    ensures replace_disjoint_exchanges_each_value_new { OnOk result (store.new ≡ with_values with_value_of store.old (list_map K.data_of keys) values) }
{
    store.replace_disjoint(keys, values)
}
