//! Runs on side tables: two tables of whichever kinds reply the same, and a table beside a map shows
//! what was put.

ghost use Rattle.std.specs.Prelude.{◌≡◌, ◌≤◌, IfSome, Some, None, slice_get};
ghost use Rattle.std.specs.FinMap as map;
ghost use Rattle.std.specs.List.{AllByRecursion};
ghost use Rattle.slotmap.specs.Words.{HadMemory, JoinedOld, JoinedLooked, JoinedTaken, places};

use crate::runs::look;
use slotmap::{
    DefaultKey, Detaching, JoinedCommand, JoinedDetachCommand, JoinedReply, Primary, Secondary,
    SecondaryCommand, SecondaryReply, run_joined, run_joined_detaching, run_secondary,
};
use std::alloc::Global;

type Replies = Vec<SecondaryReply<u64, u64>>;

/// Runs the same commands on two tables that hold the same, with a closure each. If memory didn't
/// run out, the replies are the same, and so is what the tables then hold.
pub fn run_on_both<S: Secondary<DefaultKey, u64>, T: Secondary<DefaultKey, u64>>(
    alloc: Global,
    one: &mut S,
    other: &mut T,
    key: DefaultKey,
) -> Option<(Replies, Replies)>
    requires { T.pairs other.old ≡ S.pairs one.old }
    ensures same { IfSome result (λ both. AllByRecursion HadMemory both.0.items →
        AllByRecursion HadMemory both.1.items →
        (both.1.items ≡ both.0.items) × (T.pairs other.new ≡ S.pairs one.new)) }
{
    let listed = vec![in alloc;
        SecondaryCommand::Insert(key, 5),
        SecondaryCommand::Get(key),
    ];
    let Ok(commands) = listed else {
        return None;
    };
    let listed_again = vec![in alloc;
        SecondaryCommand::Insert(key, 5),
        SecondaryCommand::Get(key),
    ];
    let Ok(same_commands) = listed_again else {
        return None;
    };
    let first = run_secondary(alloc, one, commands, |value: &u64| *value % 10).ok()?;
    let second = run_secondary(alloc, other, same_commands, |value: &u64| *value % 10).ok()?;
    Some((first, second))
}

type JoinedReplies = Vec<JoinedReply<DefaultKey, u64, u64, u64>>;

/// Returns the value that a put replaced.
fn replaced_at(replies: &JoinedReplies, at: usize) -> Option<Option<u64>>
    ensures { IfSome result (λ before. slice_get replies.now.items at ≡ Some (JoinedOld before)) }
{
    match replies.get(at) {
        Some(JoinedReply::Old(before)) => Some(*before),
        _ => None,
    }
}

/// Returns what a look-up found.
fn looked_at(replies: &JoinedReplies, at: usize) -> Option<Option<u64>>
    ensures { IfSome result (λ seen. slice_get replies.now.items at ≡ Some (JoinedLooked seen)) }
{
    match replies.get(at) {
        Some(JoinedReply::Looked(seen)) => Some(*seen),
        _ => None,
    }
}

/// A value that is put under the first key is found there.
pub fn put_and_look<M: Primary<DefaultKey, u64>, S: Secondary<DefaultKey, u64>>(
    alloc: Global,
    store: &mut M,
    beside: &mut S,
) -> Option<Option<u64>>
    requires unused { places (M.content store.old) ≡ 0 }
    requires empty { S.pairs beside.old ≡ map.empty }
    ensures found { IfSome result (λ seen. seen ≡ Some 50) }
{
    let listed = vec![in alloc;
        JoinedCommand::Insert(5),
        JoinedCommand::Put(1, 50),
        JoinedCommand::Look(1),
    ];
    let Ok(commands) = listed else {
        return None;
    };
    let Ok(replies) = run_joined(alloc, store, beside, commands, look) else {
        return None;
    };
    let _before = replaced_at(&replies, 1)?;
    let seen = looked_at(&replies, 2)?;
    Some(seen)
}

/// A value that is put under the first key is found there, though that key is detached and another
/// one is removed meanwhile.
pub fn put_and_detach<M: Detaching<DefaultKey, u64>, S: Secondary<DefaultKey, u64>>(
    alloc: Global,
    store: &mut M,
    beside: &mut S,
) -> Option<Option<u64>>
    requires unused { places (M.content store.old) ≡ 0 }
    requires empty { S.pairs beside.old ≡ map.empty }
    ensures found { IfSome result (λ seen. seen ≡ Some 50) }
{
    let listed = vec![in alloc;
        JoinedDetachCommand::Plain(JoinedCommand::Insert(5)),
        JoinedDetachCommand::Plain(JoinedCommand::Insert(6)),
        JoinedDetachCommand::Plain(JoinedCommand::Put(1, 50)),
        JoinedDetachCommand::Detach(1),
        JoinedDetachCommand::Plain(JoinedCommand::Remove(2)),
        JoinedDetachCommand::Plain(JoinedCommand::Put(2, 60)),
        JoinedDetachCommand::Plain(JoinedCommand::Look(1)),
    ];
    let Ok(commands) = listed else {
        return None;
    };
    let Ok(replies) = run_joined_detaching(alloc, store, beside, commands, look) else {
        return None;
    };
    let _before = replaced_at(&replies, 2)?;
    let seen = looked_at(&replies, 6)?;
    Some(seen)
}

/// Returns at most the value: what is shown isn't told.
fn look_below(value: &u64) -> u64
    ensures { result ≤ value.now }
{
    *value / 2
}

/// What is shown of the value that was put is what the closure may return for it.
pub fn put_and_look_below<M: Primary<DefaultKey, u64>, S: Secondary<DefaultKey, u64>>(
    alloc: Global,
    store: &mut M,
    beside: &mut S,
) -> Option<Option<u64>>
    requires unused { places (M.content store.old) ≡ 0 }
    requires empty { S.pairs beside.old ≡ map.empty }
    ensures below { IfSome result (λ seen. IfSome seen (λ shown. shown ≤ 50)) }
{
    let listed = vec![in alloc;
        JoinedCommand::Insert(5),
        JoinedCommand::Put(1, 50),
        JoinedCommand::Look(1),
    ];
    let Ok(commands) = listed else {
        return None;
    };
    let Ok(replies) = run_joined(alloc, store, beside, commands, look_below) else {
        return None;
    };
    let _before = replaced_at(&replies, 1)?;
    let seen = looked_at(&replies, 2)?;
    Some(seen)
}

/// The same of a key that is detached meanwhile.
pub fn put_detach_and_look_below<M: Detaching<DefaultKey, u64>, S: Secondary<DefaultKey, u64>>(
    alloc: Global,
    store: &mut M,
    beside: &mut S,
) -> Option<Option<u64>>
    requires unused { places (M.content store.old) ≡ 0 }
    requires empty { S.pairs beside.old ≡ map.empty }
    ensures below { IfSome result (λ seen. IfSome seen (λ shown. shown ≤ 50)) }
{
    let listed = vec![in alloc;
        JoinedDetachCommand::Plain(JoinedCommand::Insert(5)),
        JoinedDetachCommand::Plain(JoinedCommand::Put(1, 50)),
        JoinedDetachCommand::Detach(1),
        JoinedDetachCommand::Plain(JoinedCommand::Look(1)),
    ];
    let Ok(commands) = listed else {
        return None;
    };
    let Ok(replies) = run_joined_detaching(alloc, store, beside, commands, look_below) else {
        return None;
    };
    let _before = replaced_at(&replies, 1)?;
    let seen = looked_at(&replies, 3)?;
    Some(seen)
}

/// Returns what a removal took.
fn taken_at(replies: &JoinedReplies, at: usize) -> Option<Option<u64>>
    ensures { IfSome result (λ taken. slice_get replies.now.items at ≡ Some (JoinedTaken taken)) }
{
    match replies.get(at) {
        Some(JoinedReply::Taken(taken)) => Some(*taken),
        _ => None,
    }
}

/// Returns the value that a removal took.
fn value_taken_at(replies: &JoinedReplies, at: usize) -> Option<u64>
    ensures { IfSome result (λ value. slice_get replies.now.items at ≡ Some (JoinedTaken (Some value))) }
{
    match replies.get(at) {
        Some(JoinedReply::Taken(Some(value))) => Some(*value),
        _ => None,
    }
}

/// A key that was removed isn't found by a later removal.
pub fn remove_twice<M: Primary<DefaultKey, u64>, S: Secondary<DefaultKey, u64>>(
    alloc: Global,
    store: &mut M,
    beside: &mut S,
) -> Option<Option<u64>>
    ensures gone { IfSome result (λ taken. taken ≡ None) }
{
    let listed = vec![in alloc;
        JoinedCommand::Insert(5),
        JoinedCommand::Remove(1),
        JoinedCommand::Insert(6),
        JoinedCommand::Remove(1),
    ];
    let Ok(commands) = listed else {
        return None;
    };
    let Ok(replies) = run_joined(alloc, store, beside, commands, look) else {
        return None;
    };
    let _value = value_taken_at(&replies, 1)?;
    let taken = taken_at(&replies, 3)?;
    Some(taken)
}
