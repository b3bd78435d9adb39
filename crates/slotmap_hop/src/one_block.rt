//! All slots of a map made vacant at once: they are one block then.

ghost use Rattle.std.specs.Prelude.{◌≡◌, true, map as list_map};
ghost use Rattle.slotmap_hop.specs.Slots.{AllGoOn, CanEmpty, EmptiesAll, emptied};

use crate::links::{Slot, State, name_back, name_front};

// Whether each slot but the sentinel may have a key after its present one: it isn't retired, and
// doesn't hold its last key.
#[inline(always)]
pub(crate) fn all_go_on<V>(slots: &[Slot<V>]) -> bool
    ensures { result ≡ true → AllGoOn slots.now }
{
    // Less 1, the version of a retired slot is the greatest number, and the last one is next to it. So
    // one comparison tells both from all others, and no slot needs a branch.
    let mut greatest: u32 = 0;
    for index in 1..slots.len() {
        greatest = greatest.max(slots[index].version().wrapping_sub(1));
    }
    greatest < u32::MAX - 1
}

// Makes each slot vacant, with links to the sentinel alone. The values are dropped.
#[inline(always)]
fn vacate_all<V: Drop>(slots: &mut [Slot<V>])
    requires { CanEmpty slots.old }
    ensures { slots.new ≡ list_map emptied slots.old }
{
    for index in 0..slots.len() {
        let version = slots[index].version();
        slots[index] = Slot::Empty(State::Single, version + version % 2, 0, 0);
    }
}

// Makes each slot vacant, and all of them one block, which the sentinel begins.
#[inline(always)]
pub(crate) fn make_one_block<V: Drop>(slots: &mut [Slot<V>])
    requires { CanEmpty slots.old }
    ensures { EmptiesAll slots.old slots.new }
{
    vacate_all(slots);
    let back = (slots.len() - 1) as u32;
    if back == 0 {
        return;
    }
    name_back(slots, 0, back);
    name_front(slots, back, 0, 0);
}
