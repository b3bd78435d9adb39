//! Entities with two components each, in room that was made for them.

ghost use Rattle.std.specs.Prelude.{◌≡◌, ◌≤◌, ◌+◌, ℕ, IsOk};
ghost use Rattle.slotmap.specs.Words.{places};

use slotmap::DefaultKey;
use slotmap_entities::{Apart, Kind, SpawnError, Table, Tables, World};

/// Adds two entities with two components each. Where there is room for both, and for their components
/// in each table, neither is refused, and the capacity stays.
pub fn spawn_twins<T, A, B>(
    world: &mut World<DefaultKey, u8, T>,
) -> Result<(), SpawnError<u8, (u32, u32)>>
where
    T: Tables<DefaultKey>,
    A: Apart<DefaultKey, T, B>,
    B: Kind<DefaultKey, T>,
    A::Table: Table<DefaultKey, Component = u32>,
    B::Table: Table<DefaultKey, Component = u32>,
    requires entities { 2 ≤ world.old.entities.content.room }
    requires first { (i : ℕ) → i ≤ places world.old.entities.content + 2 → A.Table.fits (A.table world.old.tables) i 2 }
    requires second { (i : ℕ) → i ≤ places world.old.entities.content + 2 → B.Table.fits (B.table world.old.tables) i 2 }
    ensures added { IsOk result }
    ensures capacity { world.new.entities.content.capacity ≡ world.old.entities.content.capacity }
{
    world.spawn_with_both::<A, B>(1, 10, 20)?;
    world.spawn_with_both::<A, B>(2, 30, 40)?;
    Ok(())
}
