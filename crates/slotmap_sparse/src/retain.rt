//! The call that visits all keys, and removes those that its closure rejects.

ghost use Rattle.std.specs.Prelude.{◌≤◌};
ghost use Rattle.slotmap_core.specs.Words.{keyed, RetainsBy, CallableOnEach};
ghost use Rattle.slotmap_sparse.specs.Content.{IsSparseContent, room};
ghost use Rattle.slotmap_sparse.specs.Entries.{CallableOnPair, VisitsPair};

use crate::SparseSecondaryMap;
use slotmap_core::keys::{Key, KeyData};
use std::hash::BuildHasher;

impl<K: Key, V: Drop, S: BuildHasher + Drop> SparseSecondaryMap<K, V, S> {
    /// Calls `f` once for each key and its value, and removes the keys for which it returns false.
    ///
    /// The caller has to prove that `f` may be called for each pair of the map, and for no other.
    /// For example, if all values are below 10, `f` may add 1 to each.
    ///
    /// What `f` writes to a value that stays is kept. So a closure that writes and returns true
    /// replaces Rust's `iter_mut` and `values_mut`. The keys are visited in any order. Takes time
    /// linear in the capacity, and allocates nothing. The map then has memory for at least as
    /// many more keys as before.
    ///
    /// ```
    /// map.insert(b, 2)?;
    /// map.retain(|_, value| *value % 2 == 0);
    /// assert!(rt; !map.contains_key(a));
    /// assert!(rt; map.contains_key(b));
    /// ```
    pub fn retain<F: FnMut(K, &mut V) -> bool>(&mut self, mut f: F)
    where
        F: Drop,
        // For each pair of the map, from each state that calls for other pairs leave the closure
        // in.
        requires { CallableOnEach F.FnMut K.data_of f (keyed self.old.pairs) }
        ensures retained { RetainsBy F.FnMut K.data_of f (keyed self.old.pairs) (keyed self.new.pairs) }
        ensures room { room self.old ≤ room self.new }
        ensures valid { IsSparseContent self.new }
    {
        let shown = move |index: &u32, slot: &mut (u32, V)|
            requires { CallableOnPair F.FnMut K.data_of f index.now slot.old }
            ensures { VisitsPair F.FnMut K.data_of f.entry index.now slot.old result slot.new f.exit }
        { visit(&mut f, *index, slot) };
        self.slots.retain(shown);
    }
}

// Calls the closure for a key and its value.
fn visit<K: Key, V, F: FnMut(K, &mut V) -> bool>(f: &mut F, index: u32, slot: &mut (u32, V)) -> bool
    requires { CallableOnPair F.FnMut K.data_of f.old index slot.old }
    ensures { VisitsPair F.FnMut K.data_of f.old index slot.old result slot.new f.new }
{
    let key = K::from(KeyData::new(index, slot.0));
    f(key, &mut slot.1)
}
