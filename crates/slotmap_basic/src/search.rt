//! The search for the next live key, and the loop that removes all of them.

ghost use Rattle.std.specs.FinMap as map;
ghost use Rattle.std.specs.Prelude.{◌≡◌, ◌+◌, ◌^◌, ◌<◌, ◌≤◌, IfNone, IfSome, true};
ghost use Rattle.slotmap_core.specs.Words.{Key as KeyOf, IsContent, IsLive, NoneBelow, Leaves, FreesByIndex, StaysValid};
ghost use Rattle.slotmap_basic.specs.Ahead.{KnowsLiveKeys};

use crate::SlotMap;
use crate::columns::OddCursor;
use slotmap_core::keys::{Key, KeyData};
use slotmap_core::limits::NULL_INDEX;
use slotmap_core::sure::rule_out;
use slotmap_slots::layout::Layout;

// How many slots a step looks at one by one, before it looks at 64 at a time.
pub(crate) const NEAR: usize = 8;

impl<K: Key, V: Drop> SlotMap<K, V> {
    // Returns where a loop over the live keys from an index on begins.
    pub(crate) fn cursor_from(&self, start: usize) -> OddCursor
        ensures cursor { KnowsLiveKeys self.now result }
        ensures on { (k : KeyOf) → IsLive self.now k → start ≤ k.index → result.index ≤ k.index }
        ensures from { (k : KeyOf) → IsLive self.now k → result.index ≤ k.index → start ≤ k.index }
        ensures valid { IsContent true self.now }
    {
        // Not the number of versions: the compiler would keep that, and read it again at each step.
        let (_, payloads) = self.slots.layout().as_slices();
        OddCursor::of_slots(start, payloads.len(), self.slots.len())
    }

    // Returns the next live key of a loop, by ascending index. A removal of a key that was returned
    // changes nothing ahead of the loop.
    #[inline(always)]
    pub(crate) fn next_live(&self, cursor: &mut OddCursor) -> Option<K>
        requires { KnowsLiveKeys self.now cursor.old }
        ensures live { IfSome result (λ key.
            IsLive self.now (K.data_of key) × (cursor.old.index ≤ (K.data_of key).index)) }
        ensures first { IfSome result (λ key. (other : KeyOf) → IsLive self.now other →
            cursor.old.index ≤ other.index → (K.data_of key).index ≤ other.index) }
        ensures on { IfSome result (λ key. cursor.new.index ≡ (K.data_of key).index + 1) }
        ensures none { IfNone result ((other : KeyOf) → IsLive self.now other → other.index < cursor.old.index) }
        ensures cursor { KnowsLiveKeys self.now cursor.new }
        ensures valid { IsContent true self.now }
    {
        let columns = self.slots.layout();
        let index = columns.next_odd(cursor)?;
        // So no step cuts the index to 32 bits.
        rule_out(index > NULL_INDEX);
        let version = columns.version(index);
        Some(K::from(KeyData::exact(index as u32, version)))
    }

    // Returns the first live key of the next eight slots from an index on.
    #[inline(always)]
    pub(crate) fn near(&self, start: usize) -> Option<K>
        requires { start ≤ 2 ^ 32 }
        ensures live { IfSome result (λ key. IsLive self.now (K.data_of key) × (start ≤ (K.data_of key).index)) }
        ensures first { IfSome result (λ key. (other : KeyOf) → IsLive self.now other →
            start ≤ other.index → (K.data_of key).index ≤ other.index) }
        ensures none { IfNone result ((other : KeyOf) → IsLive self.now other → start ≤ other.index → start + 8 ≤ other.index) }
        ensures valid { IsContent true self.now }
    {
        self.slots.note_valid();
        let end = start + NEAR;
        let mut at = start;
        while at < end {
            if let Some(found) = self.live_at(at) {
                return Some(found);
            }
            at += 1;
        }
        None
    }

    // Returns the first live key from an index on. Out of line, so that a step to a near slot pays nothing
    // for the search.
    #[cold]
    #[inline(never)]
    pub(crate) fn far(&self, start: usize) -> Option<K>
        ensures live { IfSome result (λ key. IsLive self.now (K.data_of key) × (start ≤ (K.data_of key).index)) }
        ensures first { IfSome result (λ key. (other : KeyOf) → IsLive self.now other →
            start ≤ other.index → (K.data_of key).index ≤ other.index) }
        ensures none { IfNone result ((other : KeyOf) → IsLive self.now other → other.index < start) }
        ensures valid { IsContent true self.now }
    {
        let mut ahead = self.cursor_from(start);
        self.next_live(&mut ahead)
    }

    // Removes the live keys from this index on, by ascending index, and drops their values.
    pub(crate) fn clear_from(&mut self, start: usize)
        ensures empty { NoneBelow self.old.live start → self.new.live ≡ map.empty }
        ensures stay { (k : KeyOf) → k.index < start → map.get self.new.live k ≡ map.get self.old.live k }
        ensures leaves { Leaves self.old self.new }
        ensures freed_order { FreesByIndex self.old self.new }
        ensures valid { StaysValid true self.old self.new }
    {
        let mut cursor = self.cursor_from(start);
        while let Some(key) = self.next_live(&mut cursor) {
            self.take_live(key);
        }
    }
}
