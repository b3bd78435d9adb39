//! Values packed in one vector: what the slices of a dense map are good for.

ghost use Rattle.std.specs.Prelude.{◌≡◌, ◌≢◌, ◌+◌, ◌++◌, ◌∷◌, [], IfOk, OnOk};
ghost use Rattle.std.specs.FinMap as map;
ghost use Rattle.slotmap.specs.Words.{IsLive, IsSpent, with_value_of};

use slotmap::{DefaultKey, DenseSlotMap, InsertError, Key};

/// Sorts the values, which move from key to key: the first key in packed order gets the
/// smallest.
pub fn sort_values(store: &mut DenseSlotMap<DefaultKey, u64>)
    ensures keys { store.new.keys ≡ store.old.keys }
{
    store.values_as_mut_slice().sort_unstable();
}

/// Sets every value to 0; the keys stay.
pub fn reset(store: &mut DenseSlotMap<DefaultKey, u64>)
    ensures keys { store.new.keys ≡ store.old.keys }
{
    for value in store.values_mut() {
        *value = 0;
    }
}

/// Swaps the values of two keys if both are live and not equal, and returns whether they were.
pub fn exchange(
    store: &mut DenseSlotMap<DefaultKey, u64>,
    first: DefaultKey,
    second: DefaultKey,
) -> bool {
    match store.get_disjoint_mut([first, second]) {
        Some((one, other)) => {
            std::mem::swap(one, other);
            true
        }
        None => false,
    }
}

/// Stores two values under two keys. They are the last in packed order.
pub fn append_two<K: Key>(store: &mut DenseSlotMap<K, u32>) -> Result<(K, K), InsertError<u32>>
    ensures differ { IfOk result (λ keys. K.data_of keys.0 ≢ K.data_of keys.1) }
    ensures order { OnOk result (store.new.values ≡ store.old.values ++ 1 ∷ 2 ∷ []) }
    ensures len { OnOk result (map.len store.new.content.live ≡ map.len store.old.content.live + 2) }
{
    let first = store.insert(1)?;
    let second = store.insert(2)?;
    Ok((first, second))
}

/// Sets the value of a live key. The packed order stays.
pub fn set<K: Key>(store: &mut DenseSlotMap<K, u64>, key: K, value: u64)
    requires { IsLive store.old.content (K.data_of key) }
    ensures { store.new ≡ with_value_of store.old (K.data_of key) value }
{
    store[key] = value;
}

/// Takes a value out, and stores another one: the old key is spent.
pub fn renew(
    store: &mut DenseSlotMap<DefaultKey, u64>,
    key: DefaultKey,
    value: u64,
) -> Result<DefaultKey, InsertError<u64>>
    requires { IsLive store.old.content key }
    ensures other { IfOk result (λ new. new ≢ key) }
    ensures spent { IsSpent store.new.content key }
{
    store.remove(key);
    store.insert(value)
}
