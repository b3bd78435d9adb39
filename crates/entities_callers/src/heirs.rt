//! Entities that make way for others.

ghost use Rattle.std.specs.Prelude.{◌≡◌, ◌≢◌, ◌≤◌, Some, None, IfOk, IsOk, false};
ghost use Rattle.std.specs.FinMap as map;
ghost use Rattle.slotmap.specs.Words.{IsLive};

use slotmap::{DefaultKey, InsertError};
use slotmap_entities::{Tables, World};

/// Removes an entity, and adds another one, which has nothing of it, whatever the tables are.
#[tactic(auto, using(slotmap::proofs::Callers::keys))]
pub fn reborn<T: Tables<DefaultKey>>(
    world: &mut World<DefaultKey, u8, T>,
    key: DefaultKey,
    entity: u8,
) -> Result<DefaultKey, InsertError<u8>>
    ensures there { IfOk result (λ new. map.get world.new.entities.content.live new ≡ Some entity) }
    ensures bare { IfOk result (λ new. T.has world.new.tables new ≡ false) }
    ensures other { IsLive world.old.entities.content key → IfOk result (λ new. new ≢ key) }
    ensures dead { IsLive world.old.entities.content key → map.get world.new.entities.content.live key ≡ None }
{
    world.despawn(key);
    world.spawn(entity)
}

/// Adds two entities, removes all, and adds two others. Where there is room for four, none is refused,
/// and the capacity stays.
pub fn fill_twice<T: Tables<DefaultKey>>(
    world: &mut World<DefaultKey, u8, T>,
) -> Result<(), InsertError<u8>>
    requires { 4 ≤ world.old.entities.content.room }
    ensures filled { IsOk result }
    ensures capacity { world.new.entities.content.capacity ≡ world.old.entities.content.capacity }
{
    world.spawn(1)?;
    world.spawn(2)?;
    world.clear();
    world.spawn(3)?;
    world.spawn(4)?;
    Ok(())
}
