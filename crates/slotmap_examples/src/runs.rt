//! What follows from the replies to a list of commands, by their positions: two keys differ, a
//! removed key finds nothing, however it was removed, a detached key is bound again.

ghost use Rattle.std.specs.Prelude.{◌≡◌, ◌≢◌, IfSome, Some, None, Ok, slice_get, true, false};
ghost use Rattle.slotmap.specs.Words.{KeyReply, PutReply, TakenReply, LookedReply, DoneReply, DrainedReply, FlagReply, IsLive};

use slotmap::{
    Command, DefaultKey, DetachCommand, Detaching, Primary, Reply, run, run_detaching_new, run_new,
};
use std::alloc::Global;

type Replies = Vec<Reply<DefaultKey, u64, u64, ()>>;

/// Shows a value.
pub fn look(value: &u64) -> u64
    ensures { result ≡ value.now }
{
    *value
}

/// Keeps each value.
pub fn keep(_key: DefaultKey, _value: &mut u64) -> bool {
    true
}

/// Makes no value.
pub fn make(_key: DefaultKey) -> Result<u64, ()> {
    Err(())
}

/// Returns the key in a reply.
fn key_at(replies: &Replies, at: usize) -> Option<DefaultKey>
    ensures { IfSome result (λ key. slice_get replies.now.items at ≡ Some (KeyReply key)) }
{
    match replies.get(at) {
        Some(Reply::Key(key)) => Some(*key),
        _ => None,
    }
}

/// Returns something if the reply at a position is this key.
pub fn has_key_at(replies: &Replies, at: usize, key: DefaultKey) -> Option<()>
    ensures { IfSome result (λ done. slice_get replies.now.items at ≡ Some (KeyReply key)) }
{
    match replies.get(at) {
        Some(Reply::Key(found)) if *found == key => Some(()),
        _ => None,
    }
}

/// Returns the value that a removal or a detach took.
pub fn taken_at(replies: &Replies, at: usize) -> Option<u64>
    ensures { IfSome result (λ value. slice_get replies.now.items at ≡ Some (TakenReply (Some value))) }
{
    match replies.get(at) {
        Some(Reply::Taken(Some(value))) => Some(*value),
        _ => None,
    }
}

/// Returns the value that a replacement found.
pub fn put_at(replies: &Replies, at: usize) -> Option<u64>
    ensures { IfSome result (λ old. slice_get replies.now.items at ≡ Some (PutReply (Ok old))) }
{
    match replies.get(at) {
        Some(Reply::Put(Ok(old))) => Some(*old),
        _ => None,
    }
}

/// Returns what a look-up found.
pub fn looked_at(replies: &Replies, at: usize) -> Option<Option<u64>>
    ensures { IfSome result (λ seen. slice_get replies.now.items at ≡ Some (LookedReply seen)) }
{
    match replies.get(at) {
        Some(Reply::Looked(seen)) => Some(*seen),
        _ => None,
    }
}

/// The keys of two inserts differ.
pub fn two_keys<M: Primary<DefaultKey, u64> + Drop>(
    alloc: Global,
) -> Option<(DefaultKey, DefaultKey)>
    ensures differ { IfSome result (λ keys. keys.0 ≢ keys.1) }
{
    let listed = vec![in alloc; Command::Insert(5), Command::Len, Command::Insert(6)];
    let Ok(commands) = listed else {
        return None;
    };
    let made: Result<(M, Replies), _> = run_new(alloc, commands, look, keep, make);
    let Ok((_map, replies)) = made else {
        return None;
    };
    Some((key_at(&replies, 0)?, key_at(&replies, 2)?))
}

/// A key that was removed finds nothing, though its slot has a value again.
pub fn look_for_removed<M: Primary<DefaultKey, u64> + Drop>(
    alloc: Global,
    key: DefaultKey,
) -> Option<Option<u64>>
    ensures gone { IfSome result (λ seen. seen ≡ None) }
{
    let listed = vec![in alloc;
        Command::Insert(5),
        Command::Remove(key),
        Command::Insert(7),
        Command::Get(key),
    ];
    let Ok(commands) = listed else {
        return None;
    };
    let made: Result<(M, Replies), _> = run_new(alloc, commands, look, keep, make);
    let Ok((_map, replies)) = made else {
        return None;
    };
    let _value = taken_at(&replies, 1)?;
    let seen = looked_at(&replies, 3)?;
    Some(seen)
}

fn reject(_key: DefaultKey, _value: &mut u64) -> bool
    ensures { result ≡ false }
{
    false
}

/// Returns the reply at a position if it is `Done`.
fn done_at(replies: &Replies, at: usize) -> Option<()>
    ensures { IfSome result (λ done. slice_get replies.now.items at ≡ Some DoneReply) }
{
    match replies.get(at) {
        Some(Reply::Done) => Some(()),
        _ => None,
    }
}

/// Returns whether a key is said to be live.
fn flag_at(replies: &Replies, at: usize) -> Option<bool>
    ensures { IfSome result (λ flag. slice_get replies.now.items at ≡ Some (FlagReply flag)) }
{
    match replies.get(at) {
        Some(Reply::Flag(flag)) => Some(*flag),
        _ => None,
    }
}

/// A key that was live before a list of commands isn't found after a `Clear`.
pub fn look_for_cleared<M: Primary<DefaultKey, u64>>(
    alloc: Global,
    map: &mut M,
    key: DefaultKey,
) -> Option<bool>
    requires live { IsLive (M.content map.old) key }
    ensures gone { IfSome result (λ flag. flag ≡ false) }
{
    let listed = vec![in alloc;
        Command::Insert(5),
        Command::Clear,
        Command::Insert(7),
        Command::Contains(key),
    ];
    let Ok(commands) = listed else {
        return None;
    };
    let made: Result<Replies, _> = run(alloc, map, commands, look, keep, make);
    let Ok(replies) = made else {
        return None;
    };
    done_at(&replies, 1)?;
    let flag = flag_at(&replies, 3)?;
    Some(flag)
}

/// A key that a reply showed to be live isn't found after a `Clear`.
pub fn look_for_shown<M: Primary<DefaultKey, u64>>(
    alloc: Global,
    map: &mut M,
    key: DefaultKey,
) -> Option<Option<u64>>
    ensures gone { IfSome result (λ seen. seen ≡ None) }
{
    let listed = vec![in alloc;
        Command::Contains(key),
        Command::Clear,
        Command::Insert(7),
        Command::Get(key),
    ];
    let Ok(commands) = listed else {
        return None;
    };
    let made: Result<Replies, _> = run(alloc, map, commands, look, keep, make);
    let Ok(replies) = made else {
        return None;
    };
    let flag = flag_at(&replies, 0)?;
    if !flag {
        return None;
    }
    done_at(&replies, 1)?;
    let seen = looked_at(&replies, 3)?;
    Some(seen)
}

/// Returns the pairs that a drain listed.
fn drained_at(replies: &Replies, at: usize) -> Option<&Vec<(DefaultKey, u64)>>
    ensures { IfSome result (λ pairs. slice_get replies.now.items at ≡ Some (DrainedReply pairs.now)) }
{
    match replies.get(at) {
        Some(Reply::Drained(pairs)) => Some(pairs),
        _ => None,
    }
}

/// Returns the first pair of a list.
fn first_pair(pairs: &Vec<(DefaultKey, u64)>) -> Option<(DefaultKey, u64)>
    ensures { IfSome result (λ pair. slice_get pairs.now.items 0 ≡ Some pair) }
{
    match pairs.get(0) {
        Some(pair) => Some(*pair),
        None => None,
    }
}

/// The key of an insert after a `Drain` isn't one that the `Drain` listed.
pub fn insert_after_drain<M: Primary<DefaultKey, u64>>(
    alloc: Global,
    map: &mut M,
) -> Option<(DefaultKey, DefaultKey)>
    ensures differ { IfSome result (λ keys. keys.1 ≢ keys.0) }
{
    let listed = vec![in alloc; Command::Drain, Command::Insert(7)];
    let Ok(commands) = listed else {
        return None;
    };
    let made: Result<Replies, _> = run(alloc, map, commands, look, keep, make);
    let Ok(replies) = made else {
        return None;
    };
    let pairs = drained_at(&replies, 0)?;
    let drained = first_pair(pairs)?;
    let key = key_at(&replies, 1)?;
    Some((drained.0, key))
}

/// A key that `keep` rejects isn't found after a `Retain`.
pub fn look_for_rejected<M: Primary<DefaultKey, u64>>(
    alloc: Global,
    map: &mut M,
    key: DefaultKey,
) -> Option<bool>
    requires live { IsLive (M.content map.old) key }
    ensures gone { IfSome result (λ flag. flag ≡ false) }
{
    let listed = vec![in alloc; Command::Retain, Command::Contains(key)];
    let Ok(commands) = listed else {
        return None;
    };
    let made: Result<Replies, _> = run(alloc, map, commands, look, reject, make);
    let Ok(replies) = made else {
        return None;
    };
    done_at(&replies, 0)?;
    let flag = flag_at(&replies, 1)?;
    Some(flag)
}

/// A key that a reply showed to be live isn't found after a `Retain` that rejects it.
pub fn look_for_shown_rejected<M: Primary<DefaultKey, u64> + Drop>(
    alloc: Global,
    key: DefaultKey,
) -> Option<Option<u64>>
    ensures gone { IfSome result (λ seen. seen ≡ None) }
{
    let listed = vec![in alloc;
        Command::Insert(5),
        Command::Contains(key),
        Command::Retain,
        Command::Get(key),
    ];
    let Ok(commands) = listed else {
        return None;
    };
    let made: Result<(M, Replies), _> = run_new(alloc, commands, look, reject, make);
    let Ok((_map, replies)) = made else {
        return None;
    };
    let flag = flag_at(&replies, 1)?;
    if !flag {
        return None;
    }
    done_at(&replies, 2)?;
    let seen = looked_at(&replies, 3)?;
    Some(seen)
}

/// Returns the reply at a position.
fn reply_at(replies: &Replies, at: usize) -> Option<&Reply<DefaultKey, u64, u64, ()>>
    ensures { IfSome result (λ answer. slice_get replies.now.items at ≡ Some answer.now) }
{
    replies.get(at)
}

/// Whether a reply is `Done`.
fn is_done(answer: &Reply<DefaultKey, u64, u64, ()>) -> bool
    ensures { answer.now ≡ DoneReply → result ≡ true }
{
    matches!(answer, Reply::Done)
}

/// A key that was detached is bound again, whatever was inserted meanwhile.
pub fn bind_detached<M: Detaching<DefaultKey, u64> + Drop>(
    alloc: Global,
    key: DefaultKey,
) -> Option<bool>
    requires { M.REUSES ≡ true }
    ensures bound { IfSome result (λ bound. bound ≡ true) }
{
    let listed = vec![in alloc;
        DetachCommand::Plain(Command::Insert(5)),
        DetachCommand::Detach(key),
        DetachCommand::Plain(Command::Insert(7)),
        DetachCommand::Reattach(key, 9),
    ];
    let Ok(commands) = listed else {
        return None;
    };
    let made: Result<(M, Replies), _> = run_detaching_new(alloc, commands, look, keep, make);
    let Ok((_map, replies)) = made else {
        return None;
    };
    let _value = taken_at(&replies, 1)?;
    let last = reply_at(&replies, 3)?;
    Some(is_done(last))
}
