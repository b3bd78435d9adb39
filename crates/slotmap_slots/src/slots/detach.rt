//! Detached keys: the payload is taken out, and the slot is kept.

ghost use Rattle.std.specs.FinMap as map;
ghost use Rattle.std.specs.FinSet as set;
ghost use Rattle.std.specs.Prelude.{◌≡◌, OnSome, IfNone, Some, true};
ghost use Rattle.slotmap_core.specs.Words.{IsContent, IsDetached, IsLive, Detaches, Reattaches, StaysValid};

use super::Slots;
use crate::layout::{Layout, Use};
use slotmap_core::keys::KeyData;

impl<P, L: Layout<P>> Slots<P, L> {
    /// Takes out the payload of a live key and keeps its slot, or returns `None` if the key isn't
    /// live.
    #[tactic(auto, using(slotmap_core::proofs::ForCallers::Callers::remove_stale))]
    pub fn detach(&mut self, key: KeyData) -> Option<P>
        ensures value { result ≡ map.get self.old.live key }
        ensures detaches { OnSome result (Detaches self.old key self.new) }
        ensures unchanged { IfNone result (self.new ≡ self.old) }
        ensures live { self.new.live ≡ map.remove self.old.live key }
        ensures valid { StaysValid true self.old self.new }
    {
        if self.contains_key(key) {
            Some(self.take_detached(key))
        } else {
            None
        }
    }

    // Takes out the payload of a live key, and keeps its slot.
    fn take_detached(&mut self, key: KeyData) -> P
        requires { IsLive self.old key }
        ensures value { map.get self.old.live key ≡ Some result }
        ensures detaches { Detaches self.old key self.new }
        ensures valid { StaysValid true self.old self.new }
    {
        self.aside_count += 1;
        let after = key.version().wrapping_add(1);
        self.layout.take(key.idx() as usize, after, Use::Detached)
    }

    /// Returns whether this key is detached.
    pub fn is_detached(&self, key: KeyData) -> bool
        ensures value { result ≡ set.contains self.now.detached key }
        ensures valid { IsContent true self.now }
    {
        let index = key.idx() as usize;
        if index >= self.layout.len() {
            return false;
        }
        if self.layout.version(index) != key.version().wrapping_add(1) {
            return false;
        }
        self.layout.is_detached(index)
    }

    /// Binds a detached key to a payload again.
    pub fn reattach(&mut self, key: KeyData, payload: P)
    where
        P: Drop,
        requires { IsDetached self.old key }
        ensures reattaches { Reattaches self.old key payload self.new }
        ensures valid { StaysValid true self.old self.new }
    {
        self.aside_count -= 1;
        self.layout.put(key.idx() as usize, key.version(), payload);
    }
}
