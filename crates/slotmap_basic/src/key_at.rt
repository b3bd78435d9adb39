//! The live key of an index.

ghost use Rattle.std.specs.Prelude.{◌≡◌, ◌≢◌, IfNone, IfSome, true};
ghost use Rattle.slotmap_core.specs.Words.{Key as KeyOf, IsContent, IsLive};

use crate::SlotMap;
use slotmap_core::keys::{Key, KeyData};
use slotmap_slots::layout::Layout;

impl<K: Key, V: Drop> SlotMap<K, V> {
    /// Returns the live key with this index, or `None` if no live key has it.
    ///
    /// No two live keys have the same index. So a table beside the map may name a key by its index, in 4
    /// bytes. Constant time; allocates nothing. Rust lacks this call.
    ///
    /// ```
    /// let index = a.data().idx();
    /// assert_eq!(rt; map.key_at(index), Some(a));
    /// map.remove(a);
    /// assert_eq!(rt; map.key_at(index), None);
    /// ```
    pub fn key_at(&self, index: u32) -> Option<K>
        ensures live { IfSome result (λ key. IsLive self.now (K.data_of key)) }
        ensures index { IfSome result (λ key. (K.data_of key).index ≡ index) }
        ensures none { IfNone result ((other : KeyOf) → IsLive self.now other → other.index ≢ index) }
        ensures valid { IsContent true self.now }
    {
        self.live_at(index as usize)
    }

    // Returns the live key at an index, if there is one.
    #[inline(always)]
    pub(crate) fn live_at(&self, index: usize) -> Option<K>
        ensures live { IfSome result (λ key. IsLive self.now (K.data_of key) × ((K.data_of key).index ≡ index)) }
        ensures none { IfNone result ((k : KeyOf) → IsLive self.now k → k.index ≢ index) }
        ensures valid { IsContent true self.now }
    {
        let columns = self.slots.layout();
        if index >= columns.len() {
            return None;
        }
        let version = columns.version(index);
        if version % 2 == 0 {
            return None;
        }
        Some(K::from(KeyData::exact(index as u32, version)))
    }
}
