//! The call that visits all live keys of a map, in packed order, and keeps or removes each.

ghost use Rattle.std.specs.Prelude.{◌≡◌, ◌<◌, ◌≤◌, ◌+◌, Some, map as list_map, length, slice_get};
ghost use Rattle.slotmap_core.specs.Words.{Leaves, RetainsBy, CallableOnEach, Key as KeyOf};
ghost use Rattle.slotmap_dense.specs.Pass.{MayPass, Passes, stage, beside, packed_order};
ghost use Rattle.slotmap_dense.specs.Rest.{LeavesFrom};
ghost use Rattle.slotmap_dense.specs.Call.{StaysDense};
ghost use Rattle.slotmap_dense.specs.Retain.{RetainsPacked};

use crate::DenseSlotMap;
use crate::remove::close_gap;
use slotmap_core::keys::Key;

// Calls a closure for each key from a position on, with the value at the same position, until it
// returns `false`. Returns the position of the key for which it did, or the number of keys.
fn find_rejected<K: Key, V, F: FnMut(K, &mut V) -> bool>(
    keys: &[K],
    values: &mut [V],
    from: usize,
    f: &mut F,
) -> usize
    requires from { from ≤ length keys.now }
    requires same_length { length values.old ≡ length keys.now }
    requires callable { MayPass (beside K.data_of (list_map K.data_of keys.now)) F.FnMut (stage from values.old f.old) }
    ensures passes { Passes (beside K.data_of (list_map K.data_of keys.now)) F.FnMut (stage from values.old f.old) (stage result values.new f.new) }
    ensures within { result ≤ length keys.now }
    ensures same_length { length values.new ≡ length values.old }
{
    for position in from..keys.len() {
        if !f(keys[position], &mut values[position]) {
            return position;
        }
    }
    keys.len()
}

impl<K: Key, V: Drop> DenseSlotMap<K, V> {
    // Calls a closure for the pairs from a position on, in packed order, until it returns `false`.
    // Returns the position of the pair for which it did, or the number of pairs.
    fn first_rejected<F: FnMut(K, &mut V) -> bool>(&mut self, from: usize, f: &mut F) -> usize
        requires from { from ≤ length self.old.keys }
        requires callable { MayPass (packed_order K.data_of) F.FnMut (stage from self.old f.old) }
        ensures passes { Passes (packed_order K.data_of) F.FnMut (stage from self.old f.old) (stage result self.new f.new) }
        ensures within { result ≤ length self.new.keys }
        ensures keys { self.new.keys ≡ self.old.keys }
        ensures valid { StaysDense self.old self.new }
    {
        find_rejected(self.keys.as_slice(), self.values.as_mut_slice(), from, f)
    }

    // Removes the key at a position of the packed order.
    fn take_at(&mut self, position: usize) -> V
        requires { position < length self.old.keys }
        ensures leaves { (k : KeyOf) → slice_get self.old.keys position ≡ Some k → LeavesFrom self.old position k self.new }
        ensures fewer { length self.new.keys + 1 ≡ length self.old.keys }
        ensures valid { StaysDense self.old self.new }
    {
        self.slots.take(self.keys[position].data());
        close_gap(
            &mut self.slots,
            &mut self.keys,
            &mut self.values,
            position as u32,
        )
    }

    /// Calls a closure once for each live key, and removes the keys for which it returns `false`.
    ///
    /// The closure gets the key and a mutable reference to its value. What it writes is kept. The
    /// keys are visited in packed order. When one is removed, as `remove` does, the last pair moves
    /// to its position and is visited next. Detached keys aren't visited, and stay detached. Linear
    /// in the number of live keys.
    ///
    /// ```
    /// map.retain(|_, value| *value % 2 == 0);
    /// assert_eq!(rt; map.get(a), None);
    /// assert_eq!(rt; map.get(b), Some(&2));
    /// ```
    pub fn retain<F: FnMut(K, &mut V) -> bool>(&mut self, mut f: F)
    where
        F: Drop,
        // The closure may be called for each entry, whatever calls for other entries made of it.
        requires { CallableOnEach F.FnMut K.data_of f self.old.content.live }
        ensures retained { RetainsBy F.FnMut K.data_of f self.old.content.live self.new.content.live }
        ensures order { RetainsPacked F.FnMut K.data_of f self.old self.new }
        ensures leaves { Leaves self.old.content self.new.content }
        ensures valid { StaysDense self.old self.new }
    {
        self.note_valid();
        let mut position = 0;
        loop {
            position = self.first_rejected(position, &mut f);
            if position == self.len() {
                break;
            }
            self.take_at(position);
        }
    }
}
