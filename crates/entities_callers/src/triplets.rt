//! Entities with three components.

ghost use Rattle.std.specs.Prelude.{◌≡◌, ◌<◌, ◌≤◌, ◌+◌, ℕ, IsOk};
ghost use Rattle.slotmap.specs.Words.{places};

use slotmap::DefaultKey;
use slotmap_entities::{Apart, SpawnError, Table, Tables, World};

/// Adds an entity with three components. Where there is room for it, and for its component in each
/// table, it isn't refused, and the capacity stays.
pub fn spawn_whole<T, A, B, C>(
    world: &mut World<DefaultKey, u8, T>,
) -> Result<DefaultKey, SpawnError<u8, (u32, u32, u32)>>
where
    T: Tables<DefaultKey>,
    A: Apart<DefaultKey, T, B>,
    B: Apart<DefaultKey, T, C>,
    C: Apart<DefaultKey, T, A>,
    A::Table: Table<DefaultKey, Component = u32>,
    B::Table: Table<DefaultKey, Component = u32>,
    C::Table: Table<DefaultKey, Component = u32>,
    requires entities { 0 < world.old.entities.content.room }
    requires first { (i : ℕ) → i ≤ places world.old.entities.content + 1 → A.Table.fits (A.table world.old.tables) i 1 }
    requires second { (i : ℕ) → i ≤ places world.old.entities.content + 1 → B.Table.fits (B.table world.old.tables) i 1 }
    requires third { (i : ℕ) → i ≤ places world.old.entities.content + 1 → C.Table.fits (C.table world.old.tables) i 1 }
    ensures added { IsOk result }
    ensures capacity { world.new.entities.content.capacity ≡ world.old.entities.content.capacity }
{
    world.spawn_with_three::<A, B, C>(1, 10, 20, 30)
}
