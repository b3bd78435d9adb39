//! A system of an entity store that leaves out the entities with a component of a third kind.

ghost use Rattle.std.specs.Prelude.{◌≡◌, ◌≢◌};
ghost use Rattle.slotmap.specs.Words.{Key as KeyOf, IsLive, contains_key, get};
ghost use Rattle.entities_callers.specs.Moves.{speed_after};

use slotmap::{DefaultKey, SecondaryMap, SparseSecondaryMap};
use slotmap_entities::{First, Second, Third, World};

type Speed = First;

type Push = Second;

type Anchor = Third;

type Boats = (
    SecondaryMap<DefaultKey, u64>,
    (
        SecondaryMap<DefaultKey, u64>,
        (SparseSecondaryMap<DefaultKey, u8>, ()),
    ),
);

// Pushes an entity, if it has a speed and a push, and no anchor.
fn push_one(world: &mut World<DefaultKey, u8, Boats>, key: DefaultKey)
    ensures pushed { get world.new.tables.0.pairs key
        ≡ speed_after (contains_key world.old.tables.1.1.0.pairs key) (get world.old.tables.0.pairs key) (get world.old.tables.1.0.pairs key) }
    ensures others { (q : KeyOf) → q ≢ key → get world.new.tables.0.pairs q ≡ get world.old.tables.0.pairs q }
    ensures kinds { world.new.tables.1 ≡ world.old.tables.1 }
    ensures entities { world.new.entities ≡ world.old.entities }
{
    if world.has::<Anchor>(key) {
        return;
    }
    let Some((speed, push)) = world.both::<Speed, Push>(key) else {
        return;
    };
    let next = speed.wrapping_add(*push);
    if let Some(speed) = world.component_mut::<Speed>(key) {
        *speed = next;
    }
}

/// Adds to the speed of each entity its push, unless it has an anchor.
pub fn push_all(world: &mut World<DefaultKey, u8, Boats>)
    ensures pushed { (k : KeyOf) → IsLive world.old.entities.content k → get world.new.tables.0.pairs k
        ≡ speed_after (contains_key world.old.tables.1.1.0.pairs k) (get world.old.tables.0.pairs k) (get world.old.tables.1.0.pairs k) }
    ensures kinds { world.new.tables.1 ≡ world.old.tables.1 }
    ensures entities { world.new.entities ≡ world.old.entities }
{
    for at in 0..world.len() {
        let key = world.keys_as_slice()[at];
        push_one(world, key);
    }
}
