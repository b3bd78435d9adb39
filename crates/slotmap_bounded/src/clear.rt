//! Taking all keys out of a map.

ghost use Rattle.std.specs.Prelude.{◌≡◌, ◌≢◌, ◌<◌, true};
ghost use Rattle.std.specs.FinMap as map;
ghost use Rattle.slotmap.specs.Words.{Key as KeyOf, IsLive, Leaves, StaysValid};
ghost use Rattle.slotmap_bounded.specs.Bounded.{bound};

use crate::BoundedMap;
use slotmap::Key;

impl<K: Key, V: Drop> BoundedMap<K, V> {
    /// Removes all keys. The capacity stays.
    ///
    /// It takes time linear in the number of slots that have had a key, and looks at up to 64 vacant ones
    /// at a time. Room that no key has used yet costs nothing.
    ///
    /// ```
    /// let mut map: BoundedMap<DefaultKey, &str> = BoundedMap::with_capacity(alloc, 1)?;
    /// map.insert_reserved("a");
    /// map.clear();
    /// assert_eq!(rt; (map.len(), map.capacity()), (0, 1));
    /// ```
    pub fn clear(&mut self)
        ensures empty { self.new.live ≡ map.empty }
        ensures leaves { Leaves self.old self.new }
        ensures bound { bound self.new ≡ bound self.old }
        ensures valid { StaysValid true self.old self.new }
    {
        let _ = self.len();
        let mut last = None;
        while let Some(key) = self.next_after(last) {
            self.remove_live(key);
            last = Some(key);
        }
    }

    // Removes a live key.
    fn remove_live(&mut self, key: K)
        requires { IsLive self.old (K.data_of key) }
        ensures gone { (k : KeyOf) → IsLive self.new k → k.index ≢ (K.data_of key).index }
        ensures fewer { map.len self.new.live < map.len self.old.live }
        ensures leaves { Leaves self.old self.new }
        ensures bound { bound self.new ≡ bound self.old }
        ensures valid { StaysValid true self.old self.new }
    {
        self.remove(key);
    }
}
