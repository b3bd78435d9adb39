//! Guards of bounded maps: in which calls a map keeps its space.

ghost use Rattle.std.specs.Prelude.{◌≡◌, ◌<◌};
ghost use Rattle.slotmap_bounded.specs.Bounded.{space};

use slotmap::Key;
use slotmap_bounded::BoundedMap;

/// Guards of `insert_reserved`.
pub fn insert_reserved<K: Key, V: Drop>(map: &mut BoundedMap<K, V>, value: V) -> K
    requires { 0 < map.old.room }
    // The bound stays, and so does the number of keys for which there is memory.
    // Refuses `insert_asks_for_memory`: `bound` and `valid` of `insert_reserved`.
    ensures insert_reserved_keeps_the_space { space map.new ≡ space map.old }
{
    map.insert_reserved(value)
}

/// Guards of `remove`.
pub fn remove<K: Key, V: Drop>(map: &mut BoundedMap<K, V>, key: K) -> Option<V>
    // The bound stays, and so does the number of keys for which there is memory.
    // Refuses `remove_asks_for_memory`: `bound` and `valid` of `remove`.
    ensures remove_keeps_the_space { space map.new ≡ space map.old }
{
    map.remove(key)
}

/// Guards of `clear`.
pub fn clear<K: Key, V: Drop>(map: &mut BoundedMap<K, V>)
    // The bound stays, and so does the number of keys for which there is memory.
    // Holds by `bound` and `valid` of `clear`.
    ensures clear_keeps_the_space { space map.new ≡ space map.old }
{
    map.clear();
}
