//! Removals.

ghost use Rattle.std.specs.FinMap as map;
ghost use Rattle.std.specs.Prelude.{◌≡◌, OnSome, IfNone, Some};
ghost use Rattle.slotmap_core.specs.Words.{IsLive, Removes};
ghost use Rattle.slotmap_hop.specs.HopContent.{StaysHop, blocks_without};

use crate::HopSlotMap;
use crate::blocks::{free, retire};
use slotmap_core::keys::Key;

impl<K: Key, V: Drop> HopSlotMap<K, V> {
    /// Removes a live key and returns its value, or `None` if the key isn't live.
    ///
    /// The slot joins the blocks of vacant slots beside it, or becomes a new block at the end of
    /// their list. A later insert reuses it, under a newer key. But if the version of the key is
    /// 4294967295, the last one, the slot is retired and joins no block; in Rust its versions wrap
    /// around. Constant time; allocates nothing.
    ///
    /// ```
    /// assert_eq!(rt; map.remove(a), Some(1));
    /// assert_eq!(rt; map.remove(a), None);
    /// assert_eq!(rt; map.get(b), Some(&2));
    /// ```
    #[inline(always)]
    pub fn remove(&mut self, key: K) -> Option<V>
        ensures value { result ≡ map.get self.old.content.live (K.data_of key) }
        ensures removes { OnSome result (Removes self.old.content (K.data_of key) self.new.content) }
        ensures blocks { OnSome result (self.new.blocks ≡ blocks_without self.old (K.data_of key)) }
        ensures live { self.new.content.live ≡ map.remove self.old.content.live (K.data_of key) }
        ensures unchanged { IfNone result (self.new ≡ self.old) }
        ensures valid { StaysHop self.old self.new }
    {
        self.live_index(key)?;
        Some(self.take_live(key))
    }

    // Takes out the value of a live key, without checking that the key is live. Inlined, as in Rust.
    #[inline(always)]
    pub(crate) fn take_live(&mut self, key: K) -> V
        requires { IsLive self.old.content (K.data_of key) }
        ensures value { map.get self.old.content.live (K.data_of key) ≡ Some result }
        ensures removes { Removes self.old.content (K.data_of key) self.new.content }
        ensures blocks { self.new.blocks ≡ blocks_without self.old (K.data_of key) }
        ensures valid { StaysHop self.old self.new }
    {
        let data = key.data();
        let index = data.idx();
        let version = data.version();
        self.live_count -= 1;
        let slots = self.slots.as_mut_slice();
        if version == u32::MAX {
            return retire(slots, index);
        }
        self.vacant_count += 1;
        free(slots, index, version + 1)
    }
}
