//! Look-ups.

ghost use Rattle.std.specs.FinMap as map;
ghost use Rattle.std.specs.Prelude.{◌≡◌, ◌+◌, ◌<◌, ◌≤◌, IfNone, IfSome, option_copied, Some, true, false};
ghost use Rattle.slotmap_core.specs.Words.{sem, Key, IsContent, IsLive};

use super::Slots;
use crate::layout::Layout;
use slotmap_core::keys::KeyData;

impl<P, L: Layout<P>> Slots<P, L> {
    ghost use Rattle.slotmap_slots.specs.SlotsLend.{lends_value};

    // Returns the index of a live key, or `None` if the key isn't live.
    fn live_index(&self, key: KeyData) -> Option<usize>
        ensures live { IfSome result (λ index. IsLive self.now key × (index ≡ key.index)) }
        ensures absent { IfNone result (map.contains_key self.now.live key ≡ false) }
        ensures valid { IsContent true self.now }
    {
        if self.contains_key(key) {
            Some(key.idx() as usize)
        } else {
            None
        }
    }

    /// Returns whether this key is live.
    pub fn contains_key(&self, key: KeyData) -> bool
        ensures value { result ≡ map.contains_key self.now.live key }
        ensures valid { IsContent true self.now }
    {
        let index = key.idx() as usize;
        if index >= self.layout.len() {
            return false;
        }
        self.layout.version(index) == key.version()
    }

    /// Returns the payload of a live key, or `None` if the key isn't live.
    pub fn get(&self, key: KeyData) -> Option<&P>
        ensures value { option_copied result ≡ map.get self.now.live key }
        ensures valid { IsContent true self.now }
    {
        let index = self.live_index(key)?;
        Some(self.layout.payload(index))
    }

    /// Returns the payload of a live key, without checking its version.
    pub fn get_unchecked(&self, key: KeyData) -> &P
        requires { IsLive self.now key }
        ensures value { map.get self.now.live key ≡ Some result.now }
        ensures valid { IsContent true self.now }
    {
        self.layout.payload(key.idx() as usize)
    }

    /// Returns a mutable reference to the payload of a live key, without checking its
    /// version.
    pub fn get_unchecked_mut(&mut self, key: KeyData) -> &mut P
        requires { IsLive self.old key }
        ensures* writes_back { sem 𝓛 (lends_value P.row L.row L.Layout self.entry key result) }
        ensures value { map.get self.old.live key ≡ Some result.now }
        ensures valid { IsContent true self.old }
    {
        self.layout.payload_mut(key.idx() as usize)
    }
}
