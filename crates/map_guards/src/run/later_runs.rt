//! Two lists of commands, one run after the other on one map: no insert of the second returns a key of the first.

ghost use Rattle.std.specs.Prelude.{◌≡◌, ◌≢◌, [], ◌∷◌, IfSome};
ghost use Rattle.slotmap_core.specs.declared.commands.Reply.TheVariants as reply;

use slotmap_core::commands::{Command, DetachCommand, Reply};
use slotmap_core::keys::Key;
use slotmap_core::primary::{Detaching, Primary};
use slotmap_run::primary::{run, run_detaching, run_detaching_new, run_new};
use std::alloc::Global;

/// The replies to two lists.
pub struct Both<K> {
    /// Those to the first list.
    pub earlier: Vec<Reply<K, u64, (), ()>>,
    /// Those to the second.
    pub later: Vec<Reply<K, u64, (), ()>>,
}

fn unseen(_value: &u64) {}

fn kept<K: Key>(_key: K, _value: &mut u64) -> bool {
    true
}

fn refused<K: Key>(_key: K) -> Result<u64, ()> {
    Err(())
}

/// On a new map.
pub fn later_insert_returns_another_key<M, K>(
    alloc: Global,
    first: Vec<Command<K, u64>>,
    second: Vec<Command<K, u64>>,
) -> Option<Both<K>>
where
    M: Primary<K, u64> + Drop,
    K: Key,
    // Holds by `goes_on` of `run_new` and `continues` of `run`.
    ensures { IfSome result (λ both. (k q : K) → both.earlier.items ≡ reply.Key k ∷ [] → both.later.items ≡ reply.Key q ∷ [] → K.data_of q ≢ K.data_of k) }
{
    let made: Result<(M, _), _> = run_new(alloc, first, unseen, kept, refused);
    let Ok((mut map, earlier)) = made else {
        return None;
    };
    let Ok(later) = run(alloc, &mut map, second, unseen, kept, refused) else {
        return None;
    };
    Some(Both { earlier, later })
}

/// The same where keys can be detached.
pub fn later_insert_returns_another_key_with_detaching<M, K>(
    alloc: Global,
    first: Vec<DetachCommand<K, u64>>,
    second: Vec<DetachCommand<K, u64>>,
) -> Option<Both<K>>
where
    M: Detaching<K, u64> + Drop,
    K: Key,
    // Holds by `goes_on` of `run_detaching_new` and `continues` of `run_detaching`.
    ensures { IfSome result (λ both. (k q : K) → both.earlier.items ≡ reply.Key k ∷ [] → both.later.items ≡ reply.Key q ∷ [] → K.data_of q ≢ K.data_of k) }
{
    let made: Result<(M, _), _> = run_detaching_new(alloc, first, unseen, kept, refused);
    let Ok((mut map, earlier)) = made else {
        return None;
    };
    let Ok(later) = run_detaching(alloc, &mut map, second, unseen, kept, refused) else {
        return None;
    };
    Some(Both { earlier, later })
}

/// On a map that was used before.
pub fn later_insert_on_a_used_map_returns_another_key<M, K>(
    alloc: Global,
    map: &mut M,
    first: Vec<Command<K, u64>>,
    second: Vec<Command<K, u64>>,
) -> Option<Both<K>>
where
    M: Primary<K, u64>,
    K: Key,
    // Holds by `starts`, `goes_on` and `continues` of `run`.
    ensures { IfSome result (λ both. (k q : K) → both.earlier.items ≡ reply.Key k ∷ [] → both.later.items ≡ reply.Key q ∷ [] → K.data_of q ≢ K.data_of k) }
{
    let Ok(earlier) = run(alloc, map, first, unseen, kept, refused) else {
        return None;
    };
    let Ok(later) = run(alloc, map, second, unseen, kept, refused) else {
        return None;
    };
    Some(Both { earlier, later })
}

/// The same where keys can be detached.
pub fn later_insert_on_a_used_map_returns_another_key_with_detaching<M, K>(
    alloc: Global,
    map: &mut M,
    first: Vec<DetachCommand<K, u64>>,
    second: Vec<DetachCommand<K, u64>>,
) -> Option<Both<K>>
where
    M: Detaching<K, u64>,
    K: Key,
    // Holds by `starts`, `goes_on` and `continues` of `run_detaching`.
    ensures { IfSome result (λ both. (k q : K) → both.earlier.items ≡ reply.Key k ∷ [] → both.later.items ≡ reply.Key q ∷ [] → K.data_of q ≢ K.data_of k) }
{
    let Ok(earlier) = run_detaching(alloc, map, first, unseen, kept, refused) else {
        return None;
    };
    let Ok(later) = run_detaching(alloc, map, second, unseen, kept, refused) else {
        return None;
    };
    Some(Both { earlier, later })
}
