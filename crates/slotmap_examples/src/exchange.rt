//! A value that is taken out of a map and put back under its key.

ghost use Rattle.std.specs.Prelude.{◌≡◌, OnSome, IfNone};
ghost use Rattle.std.specs.FinMap as map;

use slotmap::{Key, SlotMap};

/// Takes the value of a live key out, and binds the key to another one.
pub fn exchange<K: Key>(store: &mut SlotMap<K, u64>, key: K, value: u64) -> Option<u64>
    ensures value { result ≡ map.get store.old.live (K.data_of key) }
    ensures live { OnSome result (store.new.live ≡ map.insert store.old.live (K.data_of key) value) }
    ensures detached { store.new.detached ≡ store.old.detached }
    ensures absent { IfNone result (store.new ≡ store.old) }
{
    let before = store.detach(key)?;
    match store.reattach(key, value) {
        Ok(()) => Some(before),
        Err(_) => unreachable!(),
    }
}
