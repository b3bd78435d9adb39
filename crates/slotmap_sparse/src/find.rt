//! What the map holds at an index, and what a key finds there.

ghost use Rattle.std.specs.FinMap as map;
ghost use Rattle.std.specs.Prelude.{◌≡◌, option_copied};
ghost use Rattle.slotmap_core.specs.Words.{IsKey, entry, is_null};
ghost use Rattle.slotmap_sparse.specs.Content.{IsSparseContent};

use crate::SparseSecondaryMap;
use slotmap_core::keys::{Key, is_older_version};
use std::hash::BuildHasher;

// What a key finds at its index.
#[derive(Drop)]
pub(crate) enum Found {
    No,
    // Its own pair.
    Occupied,
    // An older key is there.
    Outdated,
    Empty,
}

impl<K: Key, V: Drop, S: BuildHasher + Drop> SparseSecondaryMap<K, V, S> {
    ghost use Rattle.slotmap_sparse.specs.Found.{is_found};

    // What is at the index of a key: a version and its value.
    #[inline(always)]
    pub(crate) fn slot(&self, key: K) -> Option<&(u32, V)>
        ensures value { option_copied result ≡ map.get self.now.pairs (K.data_of key).index }
        ensures valid { IsSparseContent self.now }
    {
        self.slots.get(&key.data().idx())
    }

    // What the key's entry is.
    pub(crate) fn find(&self, key: K) -> Found
        ensures found { is_found result (map.get self.now.pairs (K.data_of key).index) (entry self.now.pairs (K.data_of key)) }
        ensures valid { IsSparseContent self.now }
    {
        let slot = self.slot(key);
        if is_null(key) {
            return Found::No;
        }
        match slot {
            None => Found::Empty,
            Some((stored, _)) => {
                let version = key.data().version();
                if *stored == version {
                    Found::Occupied
                } else if is_older_version(version, *stored) {
                    Found::No
                } else {
                    Found::Outdated
                }
            }
        }
    }
}

// Whether this is the null key.
pub(crate) fn is_null<K: Key>(key: K) -> bool
    ensures value { result ≡ is_null (K.data_of key) }
    ensures valid { IsKey (K.data_of key) }
{
    key.data().idx() == u32::MAX
}
