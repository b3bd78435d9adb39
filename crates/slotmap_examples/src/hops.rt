//! Iterators that skip vacant slots, and how many slots they read.

ghost use Rattle.std.specs.Prelude.{◌≡◌, ◌+◌, ◌*◌, ◌≤◌, IfOk, OnOk, IfErr, OnErr, IfSome, IfNone, Some, None};
ghost use Rattle.std.specs.FinMap as map;
ghost use Rattle.std.specs.FinSet as set;
ghost use Rattle.slotmap.specs.Words.{Key as KeyOf, IsLive, blocks_without, hop_with_value};

use slotmap::{DefaultKey, HopSlotMap, Key};

/// A key that has this value.
pub fn find_hopping<K: Key>(store: &HopSlotMap<K, u64>, wanted: u64) -> Option<K>
    ensures found { IfSome result (λ key. map.get store.now.content.live (K.data_of key) ≡ Some wanted) }
    ensures none { IfNone result ((k : KeyOf) → map.get store.now.content.live k ≡ Some wanted → ⊥) }
{
    for (key, value) in store.iter() {
        if *value == wanted {
            return Some(key);
        }
    }
    None
}

/// How many values are this one.
pub fn count_hopping(store: &HopSlotMap<DefaultKey, u64>, wanted: u64) -> usize {
    let mut count: usize = 0;
    for (_, value) in store.iter() {
        if *value == wanted {
            count = count.saturating_add(1);
        }
    }
    count
}

/// How many slots an iterator over all keys reads: at most two for each live key, and two for each
/// retired slot, however many slots are vacant.
pub fn count_reads<K: Key>(store: &HopSlotMap<K, u64>) -> usize
    ensures { result ≤ 2 * map.len store.now.content.live + 2 * set.len store.now.content.retired }
{
    let mut keys = store.keys();
    while let Some(_) = keys.next() {}
    keys.reads()
}

/// Sets the value of a key, and returns the old one; the blocks of vacant slots stay.
pub fn set<K: Key>(store: &mut HopSlotMap<K, u64>, key: K, value: u64) -> Result<u64, u64>
    ensures before { IfOk result (λ before. map.get store.old.content.live (K.data_of key) ≡ Some before) }
    ensures new { OnOk result (store.new ≡ hop_with_value store.old (K.data_of key) value) }
    ensures err { IfErr result (λ back. back ≡ value) }
    ensures unchanged { OnErr result (store.new ≡ store.old) }
{
    store.replace(key, value)
}

/// Removes a live key: its slot joins the blocks of vacant slots.
pub fn forget(store: &mut HopSlotMap<DefaultKey, u64>, key: DefaultKey)
    requires { IsLive store.old.content key }
    ensures gone { map.get store.new.content.live key ≡ None }
    ensures blocks { store.new.blocks ≡ blocks_without store.old key }
{
    store.remove(key);
}
