//! Two kinds of map that return the same keys.

ghost use Rattle.std.specs.Prelude.{◌≡◌, IfOk};
ghost use Rattle.std.specs.List.{AllByRecursion};
ghost use Rattle.slotmap.specs.Words.{IsBasic, IsRefusal, LastFreedFirst, keys_told};

use crate::runs::look;
use slotmap::{
    DenseSlotMap, DetachCommand, Detaching, Key, OutOfMemory, Reply, SlotMap, run_detaching_new,
};
use std::alloc::Global;

type Commands<K> = Vec<DetachCommand<K, u64>>;

type Replies<K> = Vec<Reply<K, u64, u64, OutOfMemory>>;

fn keep<K: Key>(_key: K, _value: &mut u64) -> bool {
    true
}

fn make<K: Key>(_key: K) -> Result<u64, OutOfMemory> {
    Err(OutOfMemory)
}

// Runs commands on a new map of any kind.
fn run_on_new<M: Detaching<K, u64> + Drop, K: Key>(
    alloc: Global,
    commands: Commands<K>,
) -> Result<Replies<K>, Commands<K>>
    ensures last_freed_first { IfOk result (λ replies. LastFreedFirst K.data_of commands.items replies.items) }
{
    let (_, replies): (M, Replies<K>) = run_detaching_new(alloc, commands, look, keep, make)?;
    Ok(replies)
}

/// Runs the same commands on a new `SlotMap` and on a new `DenseSlotMap`. If all
/// are `Insert`, `Remove`, `Detach` or `Reattach`, and none fails, both return the same keys.
pub fn run_on_both<K: Key>(
    alloc: Global,
    commands: Commands<K>,
    again: Commands<K>,
) -> Result<(Replies<K>, Replies<K>), Commands<K>>
    requires { again.items ≡ commands.items }
    ensures same_keys { IfOk result (λ both.
        AllByRecursion IsBasic commands.items →
        AllByRecursion (λ reply. IsRefusal reply → ⊥) both.0.items →
        AllByRecursion (λ reply. IsRefusal reply → ⊥) both.1.items →
        keys_told K.data_of both.0.items ≡ keys_told K.data_of both.1.items) }
{
    let basic = run_on_new::<SlotMap<K, u64>, K>(alloc, commands)?;
    let dense = run_on_new::<DenseSlotMap<K, u64>, K>(alloc, again)?;
    Ok((basic, dense))
}
