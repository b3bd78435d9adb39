//! Functions over any map that makes keys: by the trait `Primary`, whose clauses see the content.

ghost use Rattle.std.specs.Prelude.{◌≡◌, ◌≢◌, ◌%◌, ◌==◌, IfOk, IfErr, Some, None, if◌then◌else◌};
ghost use Rattle.std.specs.Option.{option_and_then};
ghost use Rattle.std.specs.FinMap as map;
ghost use Rattle.slotmap.specs.Words.{Key as KeyOf, IsLive, IsSpent, Refuses};

use slotmap::{InsertError, Key, Primary};

/// Inserts a value, and removes its key again.
pub fn push_pop<K: Key, M: Primary<K, u64>>(
    store: &mut M,
    value: u64,
) -> Result<Option<u64>, InsertError<u64>>
    ensures ok { IfOk result (λ back. back ≡ Some value) }
    ensures err { IfErr result (λ error. Refuses (M.content store.old) value error) }
    ensures live { (M.content store.new).live ≡ (M.content store.old).live }
{
    let key = store.insert(value)?;
    Ok(store.remove(key))
}

/// Keeps the keys with even values.
pub fn keep_even<K: Key, M: Primary<K, u64>>(store: &mut M)
    ensures { (k : KeyOf) → map.get (M.content store.new).live k ≡ option_and_then
        (λ value. if value % 2 == 0 then Some value else None) (map.get (M.content store.old).live k) }
{
    store.retain(|_, value| *value % 2 == 0);
}

/// Takes a value out, and stores another one: the old key is spent.
pub fn renew<K: Key, M: Primary<K, u64>>(
    store: &mut M,
    key: K,
    value: u64,
) -> Result<K, InsertError<u64>>
    requires { IsLive (M.content store.old) (K.data_of key) }
    ensures other { IfOk result (λ new. K.data_of new ≢ K.data_of key) }
    ensures spent { IsSpent (M.content store.new) (K.data_of key) }
{
    store.remove(key);
    store.insert(value)
}
