//! The replies to the calls of a map in a run.

ghost use Rattle.std.specs.Prelude.{◌≡◌, OnOk, OnErr, None};
ghost use Rattle.slotmap_core.specs.declared.commands.Reply.TheVariants as reply;
ghost use Rattle.slotmap_run.specs.Replies.{insert_reply_of, insert_with_reply_of, reserve_reply_of, reattach_reply_of};

use slotmap_core::commands::Reply;
use slotmap_core::errors::{InsertError, OutOfMemory, ReattachError, ReserveError, TryInsertError};

// The reply to an insert.
pub(crate) fn insert_reply<K, V, R, E>(inserted: Result<K, InsertError<V>>) -> Reply<K, V, R, E>
    ensures { result ≡ insert_reply_of inserted }
{
    match inserted {
        Ok(key) => Reply::Key(key),
        Err(InsertError::Full(value)) => Reply::Full(Some(value)),
        Err(InsertError::Memory(value)) => Reply::Memory(Some(value)),
    }
}

// The reply to an insert of what a closure returns.
pub(crate) fn insert_with_reply<K, V, R, E>(
    inserted: Result<K, TryInsertError<E>>,
) -> Reply<K, V, R, E>
    ensures { result ≡ insert_with_reply_of inserted }
{
    match inserted {
        Ok(key) => Reply::Key(key),
        Err(TryInsertError::Full) => Reply::Full(None),
        Err(TryInsertError::Memory) => Reply::Memory(None),
        Err(TryInsertError::Closure(error)) => Reply::Failed(error),
    }
}

// The reply to a reserve.
pub(crate) fn reserve_reply<K, V, R, E>(reserved: Result<(), ReserveError>) -> Reply<K, V, R, E>
    ensures { result ≡ reserve_reply_of reserved }
{
    match reserved {
        Ok(()) => Reply::Done,
        Err(ReserveError::TooGreat) => Reply::TooGreat,
        Err(ReserveError::Memory) => Reply::Memory(None),
    }
}

// The reply to a reattach.
pub(crate) fn reattach_reply<K, V, R, E>(
    reattached: Result<(), ReattachError<V>>,
) -> Reply<K, V, R, E>
    ensures { result ≡ reattach_reply_of reattached }
{
    match reattached {
        Ok(()) => Reply::Done,
        Err(ReattachError::NotDetached(value)) => Reply::NotDetached(value),
        Err(ReattachError::Memory(value)) => Reply::Memory(Some(value)),
    }
}

// The reply, or `Memory` if memory ran out.
pub(crate) fn or_memory<K: Drop, V: Drop, R: Drop, E: Drop>(
    done: Result<(), OutOfMemory>,
    answer: Reply<K, V, R, E>,
) -> Reply<K, V, R, E>
    ensures ok { OnOk done (result ≡ answer) }
    ensures err { OnErr done (result ≡ reply.Memory None) }
{
    match done {
        Ok(()) => answer,
        Err(OutOfMemory) => Reply::Memory(None),
    }
}
