//! A system of an entity store that reads one component and writes another, and allocates nothing.

ghost use Rattle.std.specs.Prelude.{◌≡◌, ◌≢◌};
ghost use Rattle.slotmap.specs.Words.{Key as KeyOf, IsLive, get};
ghost use Rattle.entities_callers.specs.Moves.{place_after};

use slotmap::{DefaultKey, SecondaryMap};
use slotmap_entities::{First, Second, World};

type Place = First;

type Speed = Second;

type Bodies = (
    SecondaryMap<DefaultKey, u64>,
    (SecondaryMap<DefaultKey, u64>, ()),
);

// Moves an entity by its speed, if it has a place and a speed.
fn move_one(world: &mut World<DefaultKey, u8, Bodies>, key: DefaultKey)
    ensures moved { get world.new.tables.0.pairs key ≡ place_after (get world.old.tables.0.pairs key) (get world.old.tables.1.0.pairs key) }
    ensures others { (q : KeyOf) → q ≢ key → get world.new.tables.0.pairs q ≡ get world.old.tables.0.pairs q }
    ensures speeds { world.new.tables.1 ≡ world.old.tables.1 }
    ensures entities { world.new.entities ≡ world.old.entities }
{
    let Some((place, speed)) = world.both::<Place, Speed>(key) else {
        return;
    };
    let next = place.wrapping_add(*speed);
    if let Some(place) = world.component_mut::<Place>(key) {
        *place = next;
    }
}

/// Moves each entity that has a place and a speed by its speed. All others stay where they are.
pub fn move_all(world: &mut World<DefaultKey, u8, Bodies>)
    ensures moved { (k : KeyOf) → IsLive world.old.entities.content k
        → get world.new.tables.0.pairs k ≡ place_after (get world.old.tables.0.pairs k) (get world.old.tables.1.0.pairs k) }
    ensures speeds { world.new.tables.1 ≡ world.old.tables.1 }
    ensures entities { world.new.entities ≡ world.old.entities }
{
    for at in 0..world.len() {
        let key = world.keys_as_slice()[at];
        move_one(world, key);
    }
}
