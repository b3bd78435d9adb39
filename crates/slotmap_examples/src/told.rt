//! What was put is what is got: the replies of a run, by what earlier commands and replies tell.

ghost use Rattle.std.specs.Prelude.{◌≡◌, ◌<◌, ℕ, IfSome, Some, None, slice_get};
ghost use Rattle.slotmap.specs.Words.{PlainCommand, GetCommand, RemoveCommand, LookedReply, TakenReply};

use crate::runs::{has_key_at, keep, look, looked_at, make, put_at, taken_at};
use slotmap::{Command, DefaultKey, DetachCommand, Detaching, Reply, run_detaching_new};
use std::alloc::Global;

type Commands = Vec<DetachCommand<DefaultKey, u64>>;

type Replies = Vec<Reply<DefaultKey, u64, u64, ()>>;

// Returns the value that a look-up found.
fn value_found_at(replies: &Replies, at: usize) -> u64
    requires { (seen : ℕ) × (slice_get replies.now.items at ≡ Some (LookedReply (Some seen))) }
    ensures { slice_get replies.now.items at ≡ Some (LookedReply (Some result)) }
{
    match replies.get(at) {
        Some(Reply::Looked(Some(seen))) => *seen,
        _ => unreachable!(),
    }
}

// Returns the value that a removal or a detach took.
fn value_taken_at(replies: &Replies, at: usize) -> u64
    requires { (value : ℕ) × (slice_get replies.now.items at ≡ Some (TakenReply (Some value))) }
    ensures { slice_get replies.now.items at ≡ Some (TakenReply (Some result)) }
{
    match replies.get(at) {
        Some(Reply::Taken(Some(value))) => *value,
        _ => unreachable!(),
    }
}

/// A key that was put and not taken out is found with its value.
///
/// It returns `None` if memory runs out, or if the first insert doesn't return this key.
pub fn look_for_put<M: Detaching<DefaultKey, u64> + Drop>(
    alloc: Global,
    key: DefaultKey,
) -> Option<u64>
    ensures found { IfSome result (λ seen. seen ≡ 5) }
{
    let listed = vec![in alloc;
        DetachCommand::Plain(Command::Insert(5)),
        DetachCommand::Plain(Command::Insert(6)),
        DetachCommand::Plain(Command::InsertWith),
        DetachCommand::Plain(Command::Get(key)),
    ];
    let Ok(commands) = listed else {
        return None;
    };
    let made: Result<(M, Replies), _> = run_detaching_new(alloc, commands, look, keep, make);
    let Ok((_map, replies)) = made else {
        return None;
    };
    has_key_at(&replies, 0, key)?;
    Some(value_found_at(&replies, 3))
}

/// After a `Replace` the key has the new value.
///
/// It returns `None` if memory runs out, or if the `Replace` doesn't find this key.
pub fn take_replaced<M: Detaching<DefaultKey, u64> + Drop>(
    alloc: Global,
    key: DefaultKey,
) -> Option<u64>
    ensures new { IfSome result (λ taken. taken ≡ 8) }
{
    let listed = vec![in alloc;
        DetachCommand::Plain(Command::Insert(5)),
        DetachCommand::Plain(Command::Replace(key, 8)),
        DetachCommand::Plain(Command::Insert(6)),
        DetachCommand::Detach(key),
    ];
    let Ok(commands) = listed else {
        return None;
    };
    let made: Result<(M, Replies), _> = run_detaching_new(alloc, commands, look, keep, make);
    let Ok((_map, replies)) = made else {
        return None;
    };
    put_at(&replies, 1)?;
    Some(value_taken_at(&replies, 3))
}

/// A key that was taken out stays out, whatever the other commands do.
pub fn look_for_taken<M: Detaching<DefaultKey, u64> + Drop>(
    alloc: Global,
    commands: Commands,
    key: DefaultKey,
    takes: usize,
    asks: usize,
) -> Option<Option<u64>>
    requires later { takes < asks }
    requires takes { slice_get commands.items takes ≡ Some (PlainCommand (RemoveCommand key)) }
    requires asks { slice_get commands.items asks ≡ Some (PlainCommand (GetCommand key)) }
    ensures gone { IfSome result (λ seen. seen ≡ None) }
{
    let made: Result<(M, Replies), _> = run_detaching_new(alloc, commands, look, keep, make);
    let Ok((_map, replies)) = made else {
        return None;
    };
    let _value = taken_at(&replies, takes)?;
    let seen = looked_at(&replies, asks)?;
    Some(seen)
}
