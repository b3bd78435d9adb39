//! A system of an entity store that removes entities on its way, and allocates nothing.

ghost use Rattle.std.specs.Prelude.{◌≡◌, ◌≢◌, Some};
ghost use Rattle.slotmap.specs.Words.{Key as KeyOf, IsLive, get};

use slotmap::{DefaultKey, SecondaryMap};
use slotmap_entities::{First, World};

type Lives = First;

type Health = (SecondaryMap<DefaultKey, u64>, ());

/// Removes each entity that has no life left. All others have as many as before.
#[tactic(auto, using(slotmap::proofs::Callers::keys))]
pub fn reap(world: &mut World<DefaultKey, u8, Health>)
    ensures alive { (k : KeyOf) → IsLive world.new.entities.content k → get world.new.tables.0.pairs k ≢ Some 0 }
    ensures others { (k : KeyOf) → IsLive world.old.entities.content k → get world.old.tables.0.pairs k ≢ Some 0
        → IsLive world.new.entities.content k × (get world.new.tables.0.pairs k ≡ get world.old.tables.0.pairs k) }
{
    let mut at = 0;
    while at < world.len() {
        let key = world.keys_as_slice()[at];
        let lives = world.component::<Lives>(key).copied();
        if lives == Some(0) {
            world.despawn(key);
        } else {
            at += 1;
        }
    }
}
