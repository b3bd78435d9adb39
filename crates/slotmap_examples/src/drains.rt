//! Drains: dropped early, and run to the end.

ghost use Rattle.std.specs.Prelude.{◌≡◌, IfSome, IfNone, Some};
ghost use Rattle.std.specs.FinMap as map;

use slotmap::{Key, SlotMap};

/// Takes one pair out, and drops the others.
pub fn take_one<K: Key>(store: &mut SlotMap<K, u64>) -> Option<(K, u64)>
    ensures found { IfSome result (λ pair. map.get store.old.live (K.data_of pair.0) ≡ Some pair.1) }
    ensures none { IfNone result (store.old.live ≡ map.empty) }
    ensures empty { store.new.live ≡ map.empty }
{
    store.drain().next()
}

/// Takes the pairs out one after the other, and drops them.
pub fn drop_all<K: Key>(store: &mut SlotMap<K, u64>)
    ensures { store.new.live ≡ map.empty }
{
    for _ in store.drain() {}
}
