//! The one loop of all runs.

ghost use Rattle.std.specs.Prelude.{◌≡◌, ◌+◌, ◌≤◌, ℕ, [], vec_capacity, length, IfOk, IfErr, OnErr};
ghost use Rattle.slotmap_core.specs.Words.{IsContent, Run, Starts};
ghost use Rattle.slotmap_run.specs.Order.{StartsNew};

use slotmap_core::keys::Key;
use slotmap_core::primary::Primary;
use std::alloc::Global;

// What runs commands on a map.
pub(crate) trait Serves<Map, Command, Reply> {
    // This many commands may be run on the map.
    ghost ready: { Self → Map → ℕ → Type 0 };

    // The command may return this reply, and leave this map.
    ghost step: { Self → Map → Command → Reply → Map → Type 0 };

    fn serve(&self, map: &mut Map, command: Command) -> Reply
        requires ready { (left : ℕ) × ready self.now map.old (left + 1) }
        ensures step { step self.now map.old command result map.new }
        ensures ready { (left : ℕ) → ready self.now map.old (left + 1) → ready self.now map.new left };
}

// The closure that a run on a secondary map is given, alone or beside a primary map.
#[derive(Drop)]
pub(crate) struct GivenLook<L> {
    pub(crate) look: L,
}

// Runs the commands in order. There is room for the replies.
fn serve_all<Map, Command, Reply, S>(
    server: &S,
    map: &mut Map,
    mut replies: Vec<Reply>,
    commands: Vec<Command>,
) -> Vec<Reply>
where
    Command: Drop,
    Reply: Drop,
    S: Serves<Map, Command, Reply>,
    requires none { replies.items ≡ [] }
    requires room { length commands.items ≤ vec_capacity replies }
    requires ready { S.ready server.now map.old (length commands.items) }

    ensures run { Run (S.step server.now) map.old commands.items result.items map.new }
{
    for command in commands {
        let reply = server.serve(map, command);
        if replies.push(reply).is_err() {
            unreachable!();
        }
    }
    replies
}

// A run may start from any map, since `len` ensures that its content is well formed.
pub(crate) fn note_valid<M, K, V>(map: &M)
where
    M: Primary<K, V>,
    K: Key,
    ensures valid { IsContent M.REUSES (M.content map.now) }
    ensures starts { Starts M.REUSES (M.content map.now) }
{
    let _ = map.len();
}

// Runs commands on a map and returns the replies, or the commands as an error.
pub(crate) fn run_all<Map, Command, Reply, S>(
    alloc: Global,
    server: &S,
    map: &mut Map,
    commands: Vec<Command>,
) -> Result<Vec<Reply>, Vec<Command>>
where
    Command: Drop,
    Reply: Drop,
    S: Serves<Map, Command, Reply>,
    requires ready { S.ready server.now map.old (length commands.items) }

    ensures run { IfOk result (λ replies.
        Run (S.step server.now) map.old commands.items replies.items map.new) }
    ensures err { IfErr result (λ back. back ≡ commands) }
    ensures unchanged { OnErr result (map.new ≡ map.old) }
{
    let Ok(replies) = Vec::with_capacity(alloc, commands.len()) else {
        return Err(commands);
    };
    Ok(serve_all(server, map, replies, commands))
}

// Runs commands on a new map and returns it with the replies, or the commands as an error.
pub(crate) fn run_all_new<M, K, V, Command, Reply, S>(
    alloc: Global,
    server: &S,
    commands: Vec<Command>,
) -> Result<(M, Vec<Reply>), Vec<Command>>
where
    M: Primary<K, V>,
    K: Key,
    Command: Drop,
    Reply: Drop,
    S: Serves<M, Command, Reply>,
    requires ready { (map : M) → IsContent M.REUSES (M.content map) →
        S.ready server.now map (length commands.items) }

    ensures run { IfOk result (λ made. (first : M) × StartsNew M.REUSES M.STACKED (M.content first)
        × Run (S.step server.now) first commands.items made.1.items made.0) }
    ensures err { IfErr result (λ back. back ≡ commands) }
{
    let Ok(replies) = Vec::with_capacity(alloc, commands.len()) else {
        return Err(commands);
    };
    let Ok(mut map) = M::with_key(alloc) else {
        return Err(commands);
    };
    let replies = serve_all(server, &mut map, replies, commands);
    Ok((map, replies))
}
