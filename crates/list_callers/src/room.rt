//! A list with room that is emptied and takes more, which can't fail.

ghost use Rattle.std.specs.Prelude.{◌≡◌, ◌∷◌, [], IfOk, false, length, map as list_map};
ghost use Rattle.slotmap.specs.Words.{Key as KeyOf, IsLive, is_last};
ghost use Rattle.slotmap_list.specs.Sequence.{memory};

use slotmap::ReserveError;
use slotmap_list::{Cursor, StableList};
use std::alloc::Global;

/// Makes a list with room for two elements, adds one, clears the list and adds another one. Only the
/// making may fail, and the capacity stays.
pub fn refilled_list(alloc: Global, value: u64) -> Result<StableList<Cursor, u64>, ReserveError>
    ensures value { IfOk result (λ list. list_map (λ e. e.1) list.elements ≡ value ∷ []) }
{
    let mut list = StableList::with_capacity(alloc, 2)?;
    let capacity = list.capacity();
    let Ok(_) = list.push_back(0) else {
        unreachable!()
    };
    list.clear();
    let Ok(_) = list.push_back(value) else {
        unreachable!()
    };
    prove_eq!(list.capacity(), capacity);
    Ok(list)
}

/// Removes all elements, and adds as many new ones. It can't fail, and what the list counts as reserved
/// stays.
///
/// No slot may be retired by it, so no cursor has the last version of its slot.
pub fn fill_list_again(list: &mut StableList<Cursor, u64>, value: u64)
    requires not_last { (k : KeyOf) → IsLive list.old.cursors k → is_last k ≡ false }
    ensures filled { length list.new.elements ≡ length list.old.elements }
    ensures memory { memory list.new ≡ memory list.old }
{
    let count = list.len();
    list.clear();
    for _ in 0..count {
        let _ = list.push_back(value);
    }
}
