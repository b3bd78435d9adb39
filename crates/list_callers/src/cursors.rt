//! Callers of a list, each proved only from its contracts.

ghost use Rattle.std.specs.Prelude.{◌≡◌, ◌≢◌, ◌⊎◌, IsSome, Some, None, IfSome, IfNone, IfOk, OnOk, OnErr};
ghost use Rattle.slotmap.specs.Words.{Key as KeyOf, IsSpent};
ghost use Rattle.slotmap_list.specs.Sequence.{first_or, key_after, key_before, value_of};

use slotmap_list::{Cursor, PlaceError, StableList};

/// Returns the cursor of an element that has this value, or `None` if no element has it.
pub fn find(list: &StableList<Cursor, u64>, wanted: u64) -> Option<Cursor>
    ensures found { IfSome result (λ cursor. value_of cursor list.now.elements ≡ Some wanted) }
    ensures none { IfNone result ((k : KeyOf) → value_of k list.now.elements ≡ Some wanted → ⊥) }
{
    for (cursor, value) in list {
        if *value == wanted {
            return Some(cursor);
        }
    }
    None
}

/// Puts a new element in the place of another one, whose cursor is gone for good.
#[tactic(auto, using(slotmap::proofs::Callers::keys, slotmap_list::proofs::Callers::cursors))]
pub fn renew(
    list: &mut StableList<Cursor, u64>,
    cursor: Cursor,
    value: u64,
) -> Result<Cursor, PlaceError<u64>>
    ensures there { IfOk result (λ key. value_of key list.new.elements ≡ Some value) }
    ensures gone { OnOk result (value_of cursor list.new.elements ≡ None) }
    ensures for_good { OnOk result (IsSpent list.new.cursors cursor) }
    ensures others { IfOk result (λ key. (q : KeyOf) → q ≢ cursor → q ≢ key
        → value_of q list.new.elements ≡ value_of q list.old.elements) }
    ensures unchanged { OnErr result (list.new.elements ≡ list.old.elements) }
{
    let key = list.insert_after(cursor, value)?;
    list.remove(cursor);
    Ok(key)
}

/// Returns the value of a cursor, and moves its element to the front, as a cache does with what was
/// used last. All elements keep their values.
pub fn touch(list: &mut StableList<Cursor, u64>, cursor: Cursor) -> Option<u64>
    ensures value { result ≡ value_of cursor list.old.elements }
    ensures front { IsSome result → first_or list.new.elements None ≡ Some cursor }
    ensures values { (q : KeyOf) → value_of q list.new.elements ≡ value_of q list.old.elements }
{
    list.move_to_front(cursor);
    list.get(cursor).copied()
}

/// Returns what is selected once the element of a cursor goes: the one behind it, or else the one before
/// it, with its value. It returns `None` if the list has no other element, or the cursor isn't in it.
pub fn next_selected(list: &StableList<Cursor, u64>, cursor: Cursor) -> Option<(Cursor, u64)>
    ensures beside { IfSome result (λ e. (key_after cursor list.now.elements ≡ Some e.0) ⊎ (key_before None cursor list.now.elements ≡ Some e.0)) }
    ensures value { IfSome result (λ e. value_of e.0 list.now.elements ≡ Some e.1) }
    ensures last { IfNone result (key_after cursor list.now.elements ≡ None) }
    ensures only { IfNone result (key_before None cursor list.now.elements ≡ None) }
{
    match list.next_element(cursor) {
        Some((next, value)) => Some((next, *value)),
        None => match list.prev_element(cursor) {
            Some((prev, value)) => Some((prev, *value)),
            None => None,
        },
    }
}
