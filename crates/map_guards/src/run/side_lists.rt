//! Lists of commands on a side table, alone and beside its primary map.

ghost use Rattle.std.specs.Prelude.{◌≡◌, [], ◌∷◌, None, Some, IfOk, IfSome};
ghost use Rattle.slotmap_core.specs.Words.{AllByRecursion, HadMemory, FnReturnsAt, Shows, get, contains_key};
ghost use Rattle.slotmap_core.specs.declared.secondary.SecondaryCommand.TheVariants as side;
ghost use Rattle.slotmap_core.specs.declared.secondary.SecondaryReply.TheVariants as side_reply;
ghost use Rattle.slotmap_core.specs.declared.joined.JoinedCommand.TheVariants as command;
ghost use Rattle.slotmap_core.specs.declared.joined.JoinedDetachCommand.TheVariants as detaching;
ghost use Rattle.slotmap_core.specs.declared.joined.JoinedReply.TheVariants as reply;

use slotmap_core::joined::{JoinedCommand, JoinedDetachCommand, JoinedReply};
use slotmap_core::keys::Key;
use slotmap_core::primary::{Detaching, Primary};
use slotmap_core::secondary::{Secondary, SecondaryCommand, SecondaryReply};
use slotmap_run::joined::{run_joined, run_joined_detaching};
use slotmap_run::secondary::run_secondary;
use std::alloc::Global;

/// The replies of two side tables.
pub struct Replies<V, R> {
    /// Those of one.
    pub one: Vec<SecondaryReply<V, R>>,
    /// Those of the other.
    pub other: Vec<SecondaryReply<V, R>>,
}

/// Two side tables that hold the same reply the same, whichever kinds they are.
pub fn equal_side_tables_reply_the_same<S, T, K, V, R, L>(
    alloc: Global,
    one: &mut S,
    other: &mut T,
    commands: Vec<SecondaryCommand<K, V>>,
    same_commands: Vec<SecondaryCommand<K, V>>,
    look: L,
    same_look: L,
) -> Option<Replies<V, R>>
where
    S: Secondary<K, V>,
    T: Secondary<K, V>,
    K: Key,
    V: Drop,
    R: Drop,
    L: Fn(&V) -> R + Drop,
    requires looks { L.IsAlwaysCallable look }
    requires same_looks { L.IsAlwaysCallable same_look }
    requires same_pairs { T.pairs other.old ≡ S.pairs one.old }
    requires same_commands { same_commands.items ≡ commands.items }
    // Holds by `run_seen` and `agrees` of `run_secondary`.
    ensures { (f : V → R) → Shows (FnReturnsAt L.Fn look) f → Shows (FnReturnsAt L.Fn same_look) f →
        IfSome result (λ replies. AllByRecursion HadMemory replies.one.items →
        AllByRecursion HadMemory replies.other.items → replies.other.items ≡ replies.one.items) }
{
    let Ok(replies) = run_secondary(alloc, one, commands, look) else {
        return None;
    };
    let Ok(others) = run_secondary(alloc, other, same_commands, same_look) else {
        return None;
    };
    Some(Replies {
        one: replies,
        other: others,
    })
}

/// Guards of `run_secondary`.
pub fn guards_of_run_secondary<S, K, V, R, L>(
    alloc: Global,
    map: &mut S,
    commands: Vec<SecondaryCommand<K, V>>,
    look: L,
) -> Result<Vec<SecondaryReply<V, R>>, Vec<SecondaryCommand<K, V>>>
where
    S: Secondary<K, V>,
    K: Key,
    V: Drop,
    R: Drop,
    L: Fn(&V) -> R + Drop,
    requires { L.IsAlwaysCallable look }
    // A list of one `Insert` replies with the value before.
    // Refuses `run_secondary_answers_the_new_value`: `run` of `run_secondary`.
    ensures one_insert_returns_the_value_before { IfOk result (λ replies. (k : K) (v : V) (before : _) →
        commands.items ≡ side.Insert k v ∷ [] → replies.items ≡ side_reply.Old before ∷ [] → before ≡ get (S.pairs map.old) (K.data_of k)) }
    // A list of one `Contains` says whether the key has a value.
    // Refuses `run_secondary_says_the_contrary_of_contains`: `run` of `run_secondary`.
    ensures one_contains_tells_whether_there_is_a_value { IfOk result (λ replies. (k : K) (is : _) →
        commands.items ≡ side.Contains k ∷ [] → replies.items ≡ side_reply.Flag is ∷ [] → is ≡ contains_key (S.pairs map.old) (K.data_of k)) }
{
    run_secondary(alloc, map, commands, look)
}

/// A list of one `Look` changes nothing.
pub fn joined_look_changes_nothing<M, S, K, V, W, R, L>(
    alloc: Global,
    primary: &mut M,
    secondary: &mut S,
    commands: Vec<JoinedCommand<V, W>>,
    look: L,
) -> Result<Vec<JoinedReply<K, V, W, R>>, Vec<JoinedCommand<V, W>>>
where
    M: Primary<K, V>,
    S: Secondary<K, W>,
    K: Key,
    V: Drop,
    W: Drop,
    R: Drop,
    L: Fn(&W) -> R + Drop,
    requires { L.IsAlwaysCallable look }
    // Holds by `starts` and `run` of `run_joined`.
    ensures { (n : _) → commands.items ≡ command.Look n ∷ [] → IfOk result (λ replies. S.pairs secondary.new ≡ S.pairs secondary.old) }
{
    run_joined(alloc, primary, secondary, commands, look)
}

/// The same where keys can be detached.
pub fn joined_look_changes_nothing_with_detaching<M, S, K, V, W, R, L>(
    alloc: Global,
    primary: &mut M,
    secondary: &mut S,
    commands: Vec<JoinedDetachCommand<V, W>>,
    look: L,
) -> Result<Vec<JoinedReply<K, V, W, R>>, Vec<JoinedDetachCommand<V, W>>>
where
    M: Detaching<K, V>,
    S: Secondary<K, W>,
    K: Key,
    V: Drop,
    W: Drop,
    R: Drop,
    L: Fn(&W) -> R + Drop,
    requires { L.IsAlwaysCallable look }
    // Holds by `starts` and `run` of `run_joined_detaching`.
    ensures { (n : _) → commands.items ≡ detaching.Plain (command.Look n) ∷ [] → IfOk result (λ replies. S.pairs secondary.new ≡ S.pairs secondary.old) }
{
    run_joined_detaching(alloc, primary, secondary, commands, look)
}

/// A removed key isn't removed again.
pub fn joined_remove_returns_a_value_once<M, S, K, V, W, R, L>(
    alloc: Global,
    primary: &mut M,
    secondary: &mut S,
    commands: Vec<JoinedCommand<V, W>>,
    look: L,
) -> Option<Vec<JoinedReply<K, V, W, R>>>
where
    M: Primary<K, V>,
    S: Secondary<K, W>,
    K: Key,
    V: Drop,
    W: Drop,
    R: Drop,
    L: Fn(&W) -> R + Drop,
    requires { L.IsAlwaysCallable look }
    // Holds by `removed_for_good` of `run_joined`.
    ensures { (v : V) → commands.items ≡ command.Insert v ∷ command.Remove 1 ∷ command.Remove 1 ∷ [] →
        IfSome result (λ replies. (k : K) (w : V) (again : _) → replies.items ≡ reply.Key k ∷ reply.Taken (Some w) ∷ reply.Taken again ∷ [] → again ≡ None) }
{
    let Ok(replies) = run_joined(alloc, primary, secondary, commands, look) else {
        return None;
    };
    Some(replies)
}

/// The same where keys can be detached.
pub fn joined_remove_returns_a_value_once_with_detaching<M, S, K, V, W, R, L>(
    alloc: Global,
    primary: &mut M,
    secondary: &mut S,
    commands: Vec<JoinedDetachCommand<V, W>>,
    look: L,
) -> Option<Vec<JoinedReply<K, V, W, R>>>
where
    M: Detaching<K, V>,
    S: Secondary<K, W>,
    K: Key,
    V: Drop,
    W: Drop,
    R: Drop,
    L: Fn(&W) -> R + Drop,
    requires { L.IsAlwaysCallable look }
    // Holds by `removed_for_good` of `run_joined_detaching`.
    ensures { (v : V) → commands.items ≡ detaching.Plain (command.Insert v) ∷ detaching.Plain (command.Remove 1) ∷ detaching.Plain (command.Remove 1) ∷ [] →
        IfSome result (λ replies. (k : K) (w : V) (again : _) → replies.items ≡ reply.Key k ∷ reply.Taken (Some w) ∷ reply.Taken again ∷ [] → again ≡ None) }
{
    let Ok(replies) = run_joined_detaching(alloc, primary, secondary, commands, look) else {
        return None;
    };
    Some(replies)
}
