//! An entity store with room that is emptied and takes more, and calls that take up no room.

ghost use Rattle.std.specs.Prelude.{◌≡◌, ◌≢◌, ◌∷◌, [], Some, IfOk, IsOk, true, false};
ghost use Rattle.std.specs.FinMap as map;
ghost use Rattle.slotmap.specs.Words.{Key as KeyOf, IsLive, contains_key, get, is_last};

use slotmap::{DefaultKey, InsertError, ReserveError};
use slotmap_entities::{AttachError, Kind, Table, Tables, World};
use std::alloc::Global;

/// Removes an entity. All others have their components, whatever the tables are.
pub fn kill_one<T: Tables<DefaultKey>, C: Kind<DefaultKey, T>>(
    world: &mut World<DefaultKey, u8, T>,
    key: DefaultKey,
)
    ensures others { (q : KeyOf) → q ≢ key → get (C.Table.pairs (C.table world.new.tables)) q ≡ get (C.Table.pairs (C.table world.old.tables)) q }
{
    world.despawn(key);
}

/// Puts a new entity in the place of another one. It can't fail, and the capacity stays, if the key isn't the last of its
/// slot.
pub fn respawn<T: Tables<DefaultKey>>(
    world: &mut World<DefaultKey, u8, T>,
    key: DefaultKey,
    entity: u8,
) -> Result<DefaultKey, InsertError<u8>>
    requires live { IsLive world.old.entities.content key }
    requires not_last { is_last key ≡ false }
    ensures added { IsOk result }
    ensures capacity { world.new.entities.content.capacity ≡ world.old.entities.content.capacity }
{
    world.despawn(key);
    world.spawn(entity)
}

/// Removes all entities, and spawns as many new ones. It can't fail, and the capacity stays.
///
/// No slot may be retired by it, so no key is the last of its slot.
pub fn fill_again<T: Tables<DefaultKey>>(world: &mut World<DefaultKey, u8, T>)
    requires not_last { (k : KeyOf) → IsLive world.old.entities.content k → is_last k ≡ false }
    ensures filled { map.len world.new.entities.content.live ≡ map.len world.old.entities.content.live }
    ensures capacity { world.new.entities.content.capacity ≡ world.old.entities.content.capacity }
{
    let count = world.len();
    world.clear();
    for _ in 0..count {
        let _ = world.spawn(1);
    }
}

/// Makes a world with room for two entities, spawns one, clears the world and spawns another one. Only the making may
/// fail, and the capacity stays.
pub fn refilled_world<T: Tables<DefaultKey>>(
    alloc: Global,
    entity: u8,
) -> Result<World<DefaultKey, u8, T>, ReserveError>
    ensures one { IfOk result (λ world. world.entities.values ≡ entity ∷ []) }
{
    let mut world = World::with_capacity_and_key(alloc, 2)?;
    let capacity = world.capacity();
    let Ok(_) = world.spawn(0) else {
        unreachable!()
    };
    world.clear();
    let Ok(_) = world.spawn(entity) else {
        unreachable!()
    };
    prove_eq!(world.capacity(), capacity);
    Ok(world)
}

/// Spawns an entity and removes it again. It had no component, whatever the tables are.
#[tactic(auto, using(slotmap::proofs::Callers::keys))]
pub fn come_and_go<T: Tables<DefaultKey>>(
    world: &mut World<DefaultKey, u8, T>,
    entity: u8,
) -> Result<Option<(u8, T::Parts)>, InsertError<u8>>
    ensures bare { IfOk result (λ left. left ≡ Some (entity, T.no_parts)) }
{
    let key = world.spawn(entity)?;
    Ok(world.despawn(key))
}

/// Attaches a component to an entity that is gone, and then one to an entity that is there. The first call takes up none
/// of the room, so the second one can't fail.
pub fn attach_twice<T, C>(
    world: &mut World<DefaultKey, u8, T>,
    gone: DefaultKey,
    key: DefaultKey,
) -> Result<Option<u64>, AttachError<u64>>
where
    T: Tables<DefaultKey>,
    C: Kind<DefaultKey, T>,
    C::Table: Table<DefaultKey, Component = u64>,
    requires gone { map.contains_key world.old.entities.content.live gone ≡ false }
    requires live { IsLive world.old.entities.content key }
    requires room { C.Table.fits (C.table world.old.tables) key.index 1 }
    ensures attached { IsOk result }
{
    let _ = world.attach::<C>(gone, 5);
    world.attach::<C>(key, 6)
}

/// Removes an entity, and attaches a component to another one. The first call loses no room in any table, so the second
/// one can't fail.
pub fn kill_and_attach<T, C>(
    world: &mut World<DefaultKey, u8, T>,
    old: DefaultKey,
    key: DefaultKey,
) -> Result<Option<u64>, AttachError<u64>>
where
    T: Tables<DefaultKey>,
    C: Kind<DefaultKey, T>,
    C::Table: Table<DefaultKey, Component = u64>,
    requires other { old ≢ key }
    requires live { IsLive world.old.entities.content key }
    requires room { C.Table.fits (C.table world.old.tables) key.index 1 }
    ensures attached { IsOk result }
{
    let _ = world.despawn(old);
    world.attach::<C>(key, 6)
}

/// Replaces a component of an entity, and attaches one to another entity. The first call takes up none of the room, so
/// the second one can't fail.
pub fn replace_and_attach<T, C>(
    world: &mut World<DefaultKey, u8, T>,
    old: DefaultKey,
    key: DefaultKey,
) -> Result<Option<u64>, AttachError<u64>>
where
    T: Tables<DefaultKey>,
    C: Kind<DefaultKey, T>,
    C::Table: Table<DefaultKey, Component = u64>,
    requires old { contains_key (C.Table.pairs (C.table world.old.tables)) old ≡ true }
    requires live { IsLive world.old.entities.content key }
    requires room { C.Table.fits (C.table world.old.tables) key.index 1 }
    ensures attached { IsOk result }
{
    let _ = world.attach::<C>(old, 5);
    world.attach::<C>(key, 6)
}
