//! Removals.

ghost use Rattle.std.specs.FinMap as map;
ghost use Rattle.std.specs.Prelude.{◌≡◌, OnSome, IfNone, Some, true};
ghost use Rattle.slotmap_core.specs.Words.{IsLive, Removes, StaysValid};

use crate::SlotMap;
use slotmap_core::keys::Key;

impl<K: Key, V: Drop> SlotMap<K, V> {
    /// Removes a live key and returns its value, or `None` if the key isn't live.
    ///
    /// The next insert reuses the slot, under a newer key. But if the version of the key is
    /// 4294967295, the last one, the slot is retired; in Rust its versions wrap around. Constant
    /// time; allocates nothing.
    ///
    /// ```
    /// assert_eq!(rt; map.remove(a), Some(1));
    /// assert_eq!(rt; map.remove(a), None);
    /// assert_eq!(rt; map.get(b), Some(&2));
    /// ```
    pub fn remove(&mut self, key: K) -> Option<V>
        ensures value { result ≡ map.get self.old.live (K.data_of key) }
        ensures removes { OnSome result (Removes self.old (K.data_of key) self.new) }
        ensures unchanged { IfNone result (self.new ≡ self.old) }
        ensures live { self.new.live ≡ map.remove self.old.live (K.data_of key) }
        ensures valid { StaysValid true self.old self.new }
    {
        self.slots.remove(key.data())
    }

    // Removes a live key and returns its value, with no look-up.
    pub(crate) fn take_live(&mut self, key: K) -> V
        requires { IsLive self.old (K.data_of key) }
        ensures value { map.get self.old.live (K.data_of key) ≡ Some result }
        ensures removes { Removes self.old (K.data_of key) self.new }
        ensures valid { StaysValid true self.old self.new }
    {
        self.slots.take(key.data())
    }
}
