//! Values of side tables changed in place, by a closure that may be called only on small values.

ghost use Rattle.std.specs.Prelude.{◌≡◌, ◌<◌, ◌+◌, ℕ, Some, None, IfOk, unwrap_or, nat_lt, if◌then◌else◌};
ghost use Rattle.std.specs.Option.{option_and_then, option_map};
ghost use Rattle.slotmap.specs.Words.{Key as KeyOf, get};

use slotmap::{DefaultKey, Key, NoEntry, SecondaryMap, SparseSecondaryMap};

/// Adds one to the count beside a key, or starts it at 1, and returns it.
pub fn count_up(counts: &mut SecondaryMap<DefaultKey, u8>, key: DefaultKey) -> Result<u8, NoEntry>
    requires small { (k : KeyOf) (n : ℕ) → get counts.old.pairs k ≡ Some n → n < 10 }
    ensures { IfOk result (λ n. n ≡ unwrap_or (option_map (λ n. n + 1) (get counts.old.pairs key)) 1) }
{
    let count = counts.try_entry(key)?.and_modify(|n| *n += 1).or_insert(1);
    Ok(*count)
}

/// Adds one to each count, and keeps every key.
#[tactic(auto, using(slotmap::proofs::Callers::secondary))]
pub fn raise_counts<K: Key>(counts: &mut SecondaryMap<K, u8>)
    requires small { (k : KeyOf) (n : ℕ) → get counts.old.pairs k ≡ Some n → n < 10 }
    ensures { (k : KeyOf) → get counts.new.pairs k ≡ option_map (λ n. n + 1) (get counts.old.pairs k) }
{
    counts.retain(|_, n| {
        *n += 1;
        true
    });
}

/// The same in a table for few keys, where memory for a new count may run out.
pub fn count_sparse_up(
    counts: &mut SparseSecondaryMap<DefaultKey, u8>,
    key: DefaultKey,
) -> Result<u8, NoEntry>
    requires small { (k : KeyOf) (n : ℕ) → get counts.old.pairs k ≡ Some n → n < 10 }
    ensures { IfOk result (λ n. n ≡ unwrap_or (option_map (λ n. n + 1) (get counts.old.pairs key)) 1) }
{
    let entry = counts.try_entry(key)?.and_modify(|n| *n += 1);
    match entry.or_insert(1) {
        Ok(count) => Ok(*count),
        Err(_) => Err(NoEntry::Memory),
    }
}

/// Keeps the keys whose counts are small.
#[tactic(auto, using(slotmap::proofs::Callers::secondary))]
pub fn keep_small<K: Key>(counts: &mut SparseSecondaryMap<K, u8>)
    ensures { (k : KeyOf) → get counts.new.pairs k ≡ option_and_then
        (λ n. if nat_lt n 10 then Some n else None) (get counts.old.pairs k) }
{
    counts.retain(|_, n| *n < 10);
}
