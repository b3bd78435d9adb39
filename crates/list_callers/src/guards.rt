//! Guards of lists: what a user relies on, in other words than the contract of a call, and proved from that one alone.
//!
//! The comment of a clause names what it needs of the contract, and the wrong bodies that it refuses.

mod bounded;
mod links;

ghost use Rattle.std.specs.Iterator.{IsFinite};
ghost use Rattle.std.specs.Prelude.{◌≡◌, ◌<◌, ◌≤◌, ◌++◌, ◌∷◌, [], Err, IfSome, IfNone, length};
ghost use Rattle.slotmap.specs.Words.{used, most};
ghost use Rattle.slotmap_list.specs.Sequence.{memory};

use slotmap::Key;
use slotmap_list::{IntoIter, Iter, IterFrom, PushError, StableList};

/// Guards of `push_back`.
pub fn push_back<K: Key, T: Drop>(list: &mut StableList<K, T>, value: T) -> Result<K, PushError<T>>
    // It fails with `Full` exactly at the limit, and with `Memory` only below it, where no room was
    // promised. The error holds the value.
    // Refuses `add_tells_full_as_memory`, `add_tells_memory_as_full`, `add_reserves_more`: `err` of
    // `push_back`.
    ensures push_says_why_it_fails_full { (back : T) → result ≡ Err (PushError.Full back) → (used list.old.cursors ≡ most) × (back ≡ value) }
    ensures push_says_why_it_fails_memory { (back : T) → result ≡ Err (PushError.Memory back) → (used list.old.cursors < most) × (list.old.cursors.room ≡ 0) × (back ≡ value) }
{
    list.push_back(value)
}

/// Guards of `extend`.
pub fn extend<K: Key, T: Drop, I: IntoIterator<Item = T>>(
    list: &mut StableList<K, T>,
    iter: I,
) -> Result<(), PushError<T>>
    requires { (it : I.IntoIter) → I.into_iter_gives iter it → I.IntoIter.can_next it × IsFinite (I.IntoIter.remaining it) }
    // It fails with `Full` exactly at the limit, and with `Memory` only below it.
    // Refuses `extend_turns_the_errors_round`: `err` of `extend`.
    ensures extend_says_why_it_fails_full { (back : T) → result ≡ Err (PushError.Full back) → used list.new.cursors ≡ most }
    ensures extend_says_why_it_fails_memory { (back : T) → result ≡ Err (PushError.Memory back) → used list.new.cursors < most }
{
    list.extend(iter)
}

/// Guards of `pop_front`.
pub fn pop_front<K: Key, T: Drop>(list: &mut StableList<K, T>) -> Option<(K, T)>
    // The first element is taken out, or there is none.
    // Holds by `front` of `pop_front`.
    ensures pop_front_takes_the_first_element { IfSome result (λ element. list.old.elements ≡ (K.data_of element.0, element.1) ∷ list.new.elements) }
    ensures pop_front_finds_none_in_an_empty_list { IfNone result (list.old.elements ≡ []) }
{
    list.pop_front()
}

/// Guards of `pop_back`.
pub fn pop_back<K: Key, T: Drop>(list: &mut StableList<K, T>) -> Option<(K, T)>
    // The last element is taken out, or there is none.
    // Refuses `pop_back_takes_the_front`: `back` of `pop_back`.
    ensures pop_back_takes_the_last_element { IfSome result (λ element. list.old.elements ≡ list.new.elements ++ (K.data_of element.0, element.1) ∷ []) }
    ensures pop_back_finds_none_in_an_empty_list { IfNone result (list.old.elements ≡ []) }
{
    list.pop_back()
}

/// Guards of `drain`, dropped before it yields anything.
pub fn drain<K: Key, T: Drop>(list: &mut StableList<K, T>)
    // No element is left.
    // Holds by `list` of `drain`, and `ends` of its drop.
    ensures dropped_drain_leaves_no_element { list.new.elements ≡ [] }
    // What the list counts as reserved stays.
    // Refuses `drain_reserves_more`: `list` of `drain`, and `ends` of its drop.
    ensures dropped_drain_keeps_the_capacity { memory list.new ≡ memory list.old }
{
    list.drain();
}

/// Guards of `move_to_front`.
pub fn move_to_front<K: Key, T: Drop>(list: &mut StableList<K, T>, cursor: K) -> bool
    // What the list counts as reserved stays.
    // Refuses `move_to_asks_for_links`: `moved` of `move_to_front`.
    ensures move_to_front_keeps_the_memory { memory list.new ≡ memory list.old }
{
    list.move_to_front(cursor)
}

/// Guards of `next` of `Iter`.
pub fn iter_next<'a, K: Key, T: Drop>(items: &mut Iter<'a, K, T>) -> Option<(K, &'a T)>
    // The first element that is left is yielded, and then the others are left.
    // Refuses `next_skips_an_element`: `next_gives` of `Iter`.
    ensures iter_yields_its_first { IfSome result (λ item. items.old ≡ (K.data_of item.0, item.1.now) ∷ items.new) }
    ensures iter_ends_where_none_is_left { IfNone result (items.old ≡ []) }
{
    items.next()
}

/// Guards of `next_back` of `Iter`.
pub fn iter_next_back<'a, K: Key, T: Drop>(items: &mut Iter<'a, K, T>) -> Option<(K, &'a T)>
    // The last element that is left is yielded, and then the others are left.
    // Refuses `next_back_iterators_forward`: `next_back_gives` of `Iter`.
    ensures iter_yields_its_last { IfSome result (λ item. items.old ≡ items.new ++ (K.data_of item.0, item.1.now) ∷ []) }
    ensures iter_ends_from_the_back_where_none_is_left { IfNone result (items.old ≡ []) }
{
    items.next_back()
}

/// Guards of `next` of `IntoIter`.
pub fn into_iter_next<K: Key, T: Drop>(items: &mut IntoIter<K, T>) -> Option<(K, T)>
    // The first element that is left is yielded, and then the others are left.
    // Refuses `into_iter_goes_backwards`: `next_gives` of `IntoIter`.
    ensures into_iter_yields_its_first { IfSome result (λ item. items.old ≡ (K.data_of item.0, item.1) ∷ items.new) }
    ensures into_iter_ends_where_none_is_left { IfNone result (items.old ≡ []) }
{
    items.next()
}

/// Guards of `size_hint` of `IterFrom`.
pub fn iter_from_size_hint<K: Key, T: Drop>(items: &IterFrom<'_, K, T>) -> (usize, Option<usize>)
    // It leaves room for all elements that are left.
    // Refuses `iter_from_tells_none_left`: `upper` of `size_hint`.
    ensures iter_from_hints_at_enough { IfSome result.1 (λ count. length items.now ≤ count) }
{
    items.size_hint()
}
