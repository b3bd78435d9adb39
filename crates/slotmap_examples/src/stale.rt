//! A stale key: no later key equals it.

ghost use Rattle.std.specs.Prelude.{◌≡◌, ◌≢◌, IfOk, false};
ghost use Rattle.std.specs.FinMap as map;
ghost use Rattle.slotmap.specs.Words.{IsLive, IsSpent};

use slotmap::{DefaultKey, InsertError, SlotMap};

/// Takes a value out, and stores another one, in the same slot unless that is retired.
pub fn renew(
    store: &mut SlotMap<DefaultKey, u64>,
    key: DefaultKey,
    value: u64,
) -> Result<DefaultKey, InsertError<u64>>
    requires { IsLive store.old key }
    ensures other { IfOk result (λ new. new ≢ key) }
    ensures spent { IsSpent store.new key }
{
    store.remove(key);
    store.insert(value)
}

/// Stores and removes `count` values: a stale key stays stale.
pub fn churn(
    store: &mut SlotMap<DefaultKey, u64>,
    stale: DefaultKey,
    count: u64,
) -> Result<(), InsertError<u64>>
    requires { IsSpent store.old stale }
    ensures spent { IsSpent store.new stale }
    ensures absent { map.contains_key store.new.live stale ≡ false }
{
    for i in 0..count {
        let key = store.insert(i)?;
        prove_ne!(key, stale);
        store.remove(key);
    }
    Ok(())
}
