//! What lists of one or two commands reply on a primary map.

ghost use Rattle.std.specs.Prelude.{◌≡◌, ◌≢◌, [], ◌∷◌, Some, IfOk};
ghost use Rattle.std.specs.FinMap as finmap;
ghost use Rattle.std.specs.FinSet as set;
ghost use Rattle.slotmap_core.specs.declared.commands.Command.TheVariants as command;
ghost use Rattle.slotmap_core.specs.declared.commands.DetachCommand.TheVariants as detaching;
ghost use Rattle.slotmap_core.specs.declared.commands.Reply.TheVariants as reply;

use slotmap_core::commands::{Command, DetachCommand, Reply};
use slotmap_core::keys::Key;
use slotmap_core::primary::{Detaching, Primary};
use slotmap_run::primary::{run, run_detaching, run_detaching_new, run_new};
use std::alloc::Global;

/// Guards of `run_new`.
pub fn guards_of_run_new<M, K, V, R, E, L, P, N>(
    alloc: Global,
    commands: Vec<Command<K, V>>,
    look: L,
    keep: P,
    make: N,
) -> Result<(M, Vec<Reply<K, V, R, E>>), Vec<Command<K, V>>>
where
    M: Primary<K, V>,
    K: Key,
    V: Drop,
    R: Drop,
    E: Drop,
    L: Fn(&V) -> R + Drop,
    P: Fn(K, &mut V) -> bool + Drop,
    N: Fn(K) -> Result<V, E> + Drop,
    requires looks { L.IsAlwaysCallable look }
    requires keeps { P.IsAlwaysCallable keep }
    requires makes { N.IsAlwaysCallable make }
    // The first key has index 1.
    // Holds by `laws` and `index_stays_small` of `run_new`.
    ensures first_key_has_index_one { IfOk result (λ made. (v : V) (k : K) →
        commands.items ≡ command.Insert v ∷ [] → made.1.items ≡ reply.Key k ∷ [] → (K.data_of k).index ≡ 1) }
    // No slot is retired.
    // Holds by `none_retired` of `run_new`.
    ensures one_insert_retires_no_slot { IfOk result (λ made. (v : V) →
        commands.items ≡ command.Insert v ∷ [] → (M.content made.0).retired ≡ set.empty) }
    // What was inserted is in the map.
    // Holds by `run` of `run_new`.
    ensures inserted_value_is_in_the_map { IfOk result (λ made. (v : V) (k : K) →
        commands.items ≡ command.Insert v ∷ [] → made.1.items ≡ reply.Key k ∷ [] → finmap.get (M.content made.0).live (K.data_of k) ≡ Some v) }
    // Two inserts return two keys.
    // Holds by `laws` of `run_new`.
    ensures two_inserts_return_two_keys { IfOk result (λ made. (k q : K) →
        made.1.items ≡ reply.Key k ∷ reply.Key q ∷ [] → K.data_of q ≢ K.data_of k) }
{
    run_new(alloc, commands, look, keep, make)
}

/// Guards of `run_detaching_new`.
pub fn guards_of_run_detaching_new<M, K, V, R, E, L, P, N>(
    alloc: Global,
    commands: Vec<DetachCommand<K, V>>,
    look: L,
    keep: P,
    make: N,
) -> Result<(M, Vec<Reply<K, V, R, E>>), Vec<DetachCommand<K, V>>>
where
    M: Detaching<K, V>,
    K: Key,
    V: Drop,
    R: Drop,
    E: Drop,
    L: Fn(&V) -> R + Drop,
    P: Fn(K, &mut V) -> bool + Drop,
    N: Fn(K) -> Result<V, E> + Drop,
    requires looks { L.IsAlwaysCallable look }
    requires keeps { P.IsAlwaysCallable keep }
    requires makes { N.IsAlwaysCallable make }
    // The first key has index 1.
    // Holds by `laws` and `index_stays_small` of `run_detaching_new`.
    ensures first_key_has_index_one { IfOk result (λ made. (v : V) (k : K) →
        commands.items ≡ detaching.Plain (command.Insert v) ∷ [] → made.1.items ≡ reply.Key k ∷ [] → (K.data_of k).index ≡ 1) }
    // It has version 1: every map with detaching returns the same key.
    // Holds by `last_freed_first` of `run_detaching_new`.
    ensures first_key_has_version_one { IfOk result (λ made. (v : V) (k : K) →
        commands.items ≡ detaching.Plain (command.Insert v) ∷ [] → made.1.items ≡ reply.Key k ∷ [] → (K.data_of k).version ≡ 1) }
    // No slot is retired.
    // Holds by `none_retired` of `run_detaching_new`.
    ensures one_insert_retires_no_slot { IfOk result (λ made. (v : V) →
        commands.items ≡ detaching.Plain (command.Insert v) ∷ [] → (M.content made.0).retired ≡ set.empty) }
    // What was inserted is in the map.
    // Holds by `run` of `run_detaching_new`.
    ensures inserted_value_is_in_the_map { IfOk result (λ made. (v : V) (k : K) →
        commands.items ≡ detaching.Plain (command.Insert v) ∷ [] → made.1.items ≡ reply.Key k ∷ [] → finmap.get (M.content made.0).live (K.data_of k) ≡ Some v) }
    // Two inserts return two keys.
    // Holds by `laws` of `run_detaching_new`.
    ensures two_inserts_return_two_keys { IfOk result (λ made. (k q : K) →
        made.1.items ≡ reply.Key k ∷ reply.Key q ∷ [] → K.data_of q ≢ K.data_of k) }
{
    run_detaching_new(alloc, commands, look, keep, make)
}

/// Guards of `run`.
pub fn guards_of_run<M, K, V, R, E, L, P, N>(
    alloc: Global,
    map: &mut M,
    commands: Vec<Command<K, V>>,
    look: L,
    keep: P,
    make: N,
) -> Result<Vec<Reply<K, V, R, E>>, Vec<Command<K, V>>>
where
    M: Primary<K, V>,
    K: Key,
    V: Drop,
    R: Drop,
    E: Drop,
    L: Fn(&V) -> R + Drop,
    P: Fn(K, &mut V) -> bool + Drop,
    N: Fn(K) -> Result<V, E> + Drop,
    requires looks { L.IsAlwaysCallable look }
    requires keeps { P.IsAlwaysCallable keep }
    requires makes { N.IsAlwaysCallable make }
    // After a list of one `Clear` the map has no keys.
    // Holds by `starts` and `run` of `run`.
    ensures one_clear_empties_the_map { commands.items ≡ command.Clear ∷ [] → IfOk result (λ replies. (M.content map.new).live ≡ finmap.empty) }
    // Two inserts return two keys.
    // Refuses `serve_insert_returns_one_key_each_time`: `laws` of `run`.
    ensures two_inserts_return_two_keys { IfOk result (λ replies. (k q : K) →
        replies.items ≡ reply.Key k ∷ reply.Key q ∷ [] → K.data_of q ≢ K.data_of k) }
{
    run(alloc, map, commands, look, keep, make)
}

/// Guards of `run_detaching`.
pub fn guards_of_run_detaching<M, K, V, R, E, L, P, N>(
    alloc: Global,
    map: &mut M,
    commands: Vec<DetachCommand<K, V>>,
    look: L,
    keep: P,
    make: N,
) -> Result<Vec<Reply<K, V, R, E>>, Vec<DetachCommand<K, V>>>
where
    M: Detaching<K, V>,
    K: Key,
    V: Drop,
    R: Drop,
    E: Drop,
    L: Fn(&V) -> R + Drop,
    P: Fn(K, &mut V) -> bool + Drop,
    N: Fn(K) -> Result<V, E> + Drop,
    requires looks { L.IsAlwaysCallable look }
    requires keeps { P.IsAlwaysCallable keep }
    requires makes { N.IsAlwaysCallable make }
    // After a list of one `Clear` the map has no keys.
    // Holds by `starts` and `run` of `run_detaching`.
    ensures one_clear_empties_the_map { commands.items ≡ detaching.Plain command.Clear ∷ [] → IfOk result (λ replies. (M.content map.new).live ≡ finmap.empty) }
    // Two inserts return two keys.
    // Holds by `laws` of `run_detaching`.
    ensures two_inserts_return_two_keys { IfOk result (λ replies. (k q : K) →
        replies.items ≡ reply.Key k ∷ reply.Key q ∷ [] → K.data_of q ≢ K.data_of k) }
{
    run_detaching(alloc, map, commands, look, keep, make)
}
