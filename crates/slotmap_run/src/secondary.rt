//! Runs of commands on secondary maps: the maps that hold values under the keys of another map.

ghost use Rattle.std.specs.Prelude.{◌≡◌, IfOk, IfErr, OnErr};
ghost use Rattle.slotmap_core.specs.Words.{AllByRecursion, Run, given_secondary, HadMemory, Shows, seen_by, EachAgrees};
ghost use Rattle.slotmap_core.specs.SecondaryStep.{SideStep};

use crate::serves::{GivenLook, Serves, run_all};
use slotmap_core::errors::PutError;
use slotmap_core::keys::Key;
use slotmap_core::secondary::{Secondary, SecondaryCommand, SecondaryReply};
use std::alloc::Global;

impl<S, K, V, R, L> Serves<S, SecondaryCommand<K, V>, SecondaryReply<V, R>> for GivenLook<L>
where
    S: Secondary<K, V>,
    K: Key,
    V: Drop,
    R: Drop,
    L: Fn(&V) -> R,
{
    ghost ready = { λ self map _. L.IsAlwaysCallable self.look };

    ghost step = { λ self old command reply new. SideStep
        (given_secondary K.data_of L.Fn self.look)
        (S.pairs old) command reply (S.pairs new) };

    fn serve(&self, map: &mut S, command: SecondaryCommand<K, V>) -> SecondaryReply<V, R> {
        match command {
            SecondaryCommand::Insert(key, value) => match map.insert(key, value) {
                Ok(before) => SecondaryReply::Old(before),
                Err(PutError(value)) => SecondaryReply::Memory(value),
            },
            SecondaryCommand::Get(key) => match map.get(key) {
                Some(value) => SecondaryReply::Looked(Some((self.look)(value))),
                None => SecondaryReply::Looked(None),
            },
            SecondaryCommand::Contains(key) => SecondaryReply::Flag(map.contains_key(key)),
            SecondaryCommand::Remove(key) => SecondaryReply::Taken(map.remove(key)),
            SecondaryCommand::OrPut(key, value) => SecondaryReply::Entry(map.or_put(key, value)),
            SecondaryCommand::Len => SecondaryReply::Len(map.len()),
        }
    }
}

/// Runs commands on a secondary map, and returns the replies, one for each command, in order.
///
/// From what the map holds, the replies and the content are a run of the machine of secondary maps.
/// Take two maps, of whichever kinds, that hold the same. They return the same replies and then
/// hold the same again, if no allocation fails and both closures return the same for the same
/// value.
///
/// `look` is called on the value that a `Get` finds; the reply holds what it returns.
///
/// Memory for the replies is allocated first. If that fails no command is run, the map is as
/// before, and the error holds the commands. After that all commands are run in order. If an
/// allocation of one fails, its reply says so, and the map holds what it held.
///
/// Each command costs one call of the map.
///
/// ```
/// let key = DefaultKey::from(KeyData::new(1, 1));
/// let mut map: SecondaryMap<DefaultKey, u64> = SecondaryMap::new(alloc)?;
/// let commands = vec![in alloc; SecondaryCommand::Insert(key, 5), SecondaryCommand::Get(key)]?;
/// let replies = run_secondary(alloc, &mut map, commands, |value| *value)
///     .map_err(|_| OutOfMemory)?;
/// assert!(rt; matches!(replies.get(0), Some(SecondaryReply::Old(None))));
/// assert!(rt; matches!(replies.get(1), Some(SecondaryReply::Looked(Some(5)))));
/// ```
pub fn run_secondary<S, K, V, R, L>(
    alloc: Global,
    map: &mut S,
    commands: Vec<SecondaryCommand<K, V>>,
    look: L,
) -> Result<Vec<SecondaryReply<V, R>>, Vec<SecondaryCommand<K, V>>>
where
    S: Secondary<K, V>,
    K: Key,
    V: Drop,
    R: Drop,
    L: Fn(&V) -> R + Drop,
    requires looks { L.IsAlwaysCallable look }

    // Replies and content are a run of the machine.
    ensures run { let what = given_secondary K.data_of L.Fn look in
        IfOk result (λ replies. Run (SideStep what)
        (S.pairs map.old) commands.items replies.items (S.pairs map.new)) }

    // If `look` always returns what f returns, this is a run of the machine that shows f. Any other run
    // from the same pairs that shows f gives the same replies and leaves the same pairs, if no
    // allocation fails.
    ensures run_seen { let what = given_secondary K.data_of L.Fn look in
        IfOk result (λ replies. (f : V → R) → Shows what.looks f →
        Run (SideStep (seen_by K.data_of f))
        (S.pairs map.old) commands.items replies.items (S.pairs map.new)) }
    ensures agrees { let what = given_secondary K.data_of L.Fn look in
        IfOk result (λ replies. (f : V → R) → Shows what.looks f →
        AllByRecursion HadMemory replies.items → EachAgrees (seen_by K.data_of f)
        (S.pairs map.old) commands.items replies.items (S.pairs map.new)) }

    // If there is no memory for the replies, nothing is run.
    ensures err { IfErr result (λ back. back ≡ commands) }
    ensures unchanged { OnErr result (S.pairs map.new ≡ S.pairs map.old) }
{
    run_all(alloc, &GivenLook { look }, map, commands)
}
