//! Guards of several lists in one map: what a user relies on, in other words than the contract of a call, and proved
//! from that one alone.
//!
//! The comment of a clause names what it needs of the contract, and the wrong bodies that it refuses.

ghost use Rattle.std.specs.Prelude.{◌≡◌, ◌<◌, ◌≤◌, ◌∷◌, [], Err, IfSome, IfNone, length};
ghost use Rattle.slotmap.specs.Words.{used, most};
ghost use Rattle.slotmap_lists.specs.Sequences.{elements_of, memory};

use slotmap::Key;
use slotmap_lists::{AddError, StableLists};

/// Guards of `push_back`.
pub fn push_back<K: Key, T: Drop>(
    lists: &mut StableLists<K, T>,
    list: usize,
    value: T,
) -> Result<K, AddError<T>>
    // It fails with `NoList` only where the list isn't there, with `Full` only at the limit, and with `Memory`
    // only below it, where no room was promised. The error holds the value.
    // Holds by `err` of `push_back`.
    ensures push_says_why_it_fails_no_list { (back : T) → result ≡ Err (AddError.NoList back) → (length lists.old.lists ≤ list) × (back ≡ value) }
    ensures push_says_why_it_fails_full { (back : T) → result ≡ Err (AddError.Full back) → (used lists.old.cursors ≡ most) × (back ≡ value) }
    ensures push_says_why_it_fails_memory { (back : T) → result ≡ Err (AddError.Memory back) → (used lists.old.cursors < most) × (lists.old.cursors.room ≡ 0) × (back ≡ value) }
{
    lists.push_back(list, value)
}

/// Guards of `pop_front`.
pub fn pop_front<K: Key, T: Drop>(lists: &mut StableLists<K, T>, list: usize) -> Option<(K, T)>
    // The first element of the list is taken out, or there is none.
    // Holds by `front` of `pop_front`.
    ensures pop_front_takes_the_first_element { IfSome result (λ element. elements_of list lists.old.lists ≡ (K.data_of element.0, element.1) ∷ elements_of list lists.new.lists) }
    ensures pop_front_finds_none_in_an_empty_list { IfNone result (elements_of list lists.old.lists ≡ []) }
{
    lists.pop_front(list)
}

/// Guards of `move_to_front`.
pub fn move_to_front<K: Key, T: Drop>(lists: &mut StableLists<K, T>, cursor: K, list: usize) -> bool
    // No cursor is given or taken, and what the lists count as reserved stays.
    // Refuses `move_to_front_asks_for_memory`: `moved` of `move_to_front`.
    ensures move_keeps_all_cursors { lists.new.cursors ≡ lists.old.cursors }
    ensures move_keeps_the_memory { memory lists.new ≡ memory lists.old }
{
    lists.move_to_front(cursor, list)
}

/// Guards of `append`.
pub fn append<K: Key, T: Drop>(lists: &mut StableLists<K, T>, list: usize, other: usize) -> bool
    // What the lists count as reserved stays.
    // Holds by `cursors` and `links` of `append`.
    ensures append_keeps_the_memory { memory lists.new ≡ memory lists.old }
{
    lists.append(list, other)
}
