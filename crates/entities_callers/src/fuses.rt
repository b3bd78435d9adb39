//! A system of an entity store that counts down, and removes the entities whose time is over.

ghost use Rattle.std.specs.Prelude.{◌≡◌, ◌≢◌, ◌-◌, Some, option_map};
ghost use Rattle.slotmap.specs.Words.{Key as KeyOf, IsLive, get};

use slotmap::{DefaultKey, SecondaryMap};
use slotmap_entities::{First, World};

type Fuse = First;

type Fuses = (SecondaryMap<DefaultKey, u64>, ());

// Takes one from the fuse of an entity, if it has one.
fn burn_one(world: &mut World<DefaultKey, u8, Fuses>, key: DefaultKey)
    ensures burnt { get world.new.tables.0.pairs key ≡ option_map (λ left. left - 1) (get world.old.tables.0.pairs key) }
    ensures others { (q : KeyOf) → q ≢ key → get world.new.tables.0.pairs q ≡ get world.old.tables.0.pairs q }
    ensures entities { world.new.entities ≡ world.old.entities }
{
    if let Some(fuse) = world.component_mut::<Fuse>(key) {
        *fuse = fuse.saturating_sub(1);
    }
}

/// Removes each entity whose fuse is at 0, and takes one from the fuses of all others.
#[tactic(auto, using(slotmap::proofs::Callers::keys))]
pub fn burn(world: &mut World<DefaultKey, u8, Fuses>)
    ensures over { (k : KeyOf) → IsLive world.new.entities.content k → get world.old.tables.0.pairs k ≢ Some 0 }
    ensures burning { (k : KeyOf) → IsLive world.old.entities.content k → get world.old.tables.0.pairs k ≢ Some 0
        → IsLive world.new.entities.content k × (get world.new.tables.0.pairs k ≡ option_map (λ left. left - 1) (get world.old.tables.0.pairs k)) }
{
    let mut at = 0;
    while at < world.len() {
        let key = world.keys_as_slice()[at];
        let fuse = world.component::<Fuse>(key).copied();
        if fuse == Some(0) {
            world.despawn(key);
        } else {
            burn_one(world, key);
            at += 1;
        }
    }
}
