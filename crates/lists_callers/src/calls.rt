//! Calls of each kind on several lists of numbers. Those that return a `bool` say whether all that may fail succeeded.

use callers_sums::{EMPTY, SIZE, Sum, keep, pick, tell};
use slotmap_lists::{Cursor, StableLists};

type Lists = StableLists<Cursor, u64>;

// How many lists there are.
const LISTS: usize = 3;

// The numbers of all lists by steps, those of each with their count before them and the last one again behind.
fn sum_of(lists: &Lists) -> Sum {
    let mut sum = EMPTY;
    for list in 0..lists.lists() {
        sum.add(lists.list_len(list) as u64);
        let mut at = lists.first(list).unwrap_or_default();
        for _ in 0..lists.list_len(list) {
            sum.add_found(lists.get(at));
            at = lists.next(at).unwrap_or_default();
        }
        sum.add_found(lists.get(lists.last(list).unwrap_or_default()));
    }
    sum
}

// Puts the numbers below `SIZE` into their lists, at the ends and beside elements.
fn put_all(lists: &mut Lists, cursors: &mut Vec<Cursor>) -> bool {
    let mut done = lists.reserve(SIZE as usize).is_ok();
    for value in 0..SIZE {
        let list = value as usize % LISTS;
        let at = pick(cursors.as_slice(), value);
        let put = match value % 4 {
            0 => lists.push_back(list, value).ok(),
            1 => lists.push_front(list, value).ok(),
            2 => lists.insert_after(at, value).ok(),
            _ => lists.insert_before(at, value).ok(),
        };
        done &= keep(cursors, put);
    }
    done
}

// Moves elements to ends of lists and beside others. A list of the number 3 isn't there.
fn move_all(lists: &mut Lists, cursors: &[Cursor]) -> Sum {
    let mut sum = EMPTY;
    for turn in 0..SIZE {
        let (cursor, other) = (pick(cursors, turn), pick(cursors, turn + SIZE));
        let list = turn as usize / 4 % (LISTS + 1);
        let moved = match turn % 4 {
            0 => lists.move_to_front(cursor, list),
            1 => lists.move_to_back(cursor, list),
            2 => lists.move_before(cursor, other),
            _ => lists.move_after(cursor, other),
        };
        sum.add(u64::from(moved));
    }
    sum
}

// The numbers of a list by its iterator, each with that before it by its cursor.
fn sum_by_iterator(lists: &Lists, list: usize) -> Sum {
    let mut sum = EMPTY;
    if let Some(elements) = lists.iter(list) {
        for (cursor, value) in elements {
            sum.add(*value);
            if lists.contains(cursor) {
                sum.add(lists[cursor]);
            }
            sum.add_found(lists.get(lists.prev(cursor).unwrap_or_default()));
        }
    }
    sum
}

// Adds 1 to the numbers of these cursors, and removes those in the last list. In which list each was; in none counts as 3.
fn write_and_remove(lists: &mut Lists, cursors: &[Cursor]) -> Sum {
    let mut sum = EMPTY;
    for cursor in cursors {
        if let Some(number) = lists.get_mut(*cursor) {
            *number = number.wrapping_add(1);
        }
        let list = lists.list_of(*cursor).unwrap_or(LISTS);
        sum.add(list as u64);
        if list == 2 {
            sum.add(lists.remove(*cursor).unwrap_or(u64::MAX));
        }
    }
    sum
}

// Takes all elements out of a list, from its two ends in turn.
fn pop_all(lists: &mut Lists, list: usize) -> Sum {
    let mut sum = EMPTY;
    for turn in 0..lists.list_len(list) {
        let popped = match turn % 2 {
            0 => lists.pop_front(list),
            _ => lists.pop_back(list),
        };
        if let Some((_, value)) = popped {
            sum.add(value);
        }
    }
    sum
}

// The calls on empty lists. A list can't be joined with itself, nor with one that isn't there.
fn change(rt: &HostRuntime, lists: &mut Lists, cursors: &mut Vec<Cursor>) -> bool {
    put_all(lists, cursors)
        && tell(rt, "put", sum_of(lists))
        && tell(rt, "moves", move_all(lists, cursors.as_slice()))
        && tell(rt, "moved", sum_of(lists))
        && tell(rt, "by its iterator", sum_by_iterator(lists, 2))
        && !lists.append(0, 0)
        && !lists.append(0, LISTS)
        && lists.append(1, 0)
        && tell(rt, "removed", write_and_remove(lists, cursors.as_slice()))
}

// Takes a copy of the lists, and empties them.
fn copy(rt: &HostRuntime, lists: &mut Lists) -> bool {
    match lists.clone() {
        Ok(mut copy) => {
            lists.clear_list(1);
            lists.is_empty()
                && tell(rt, "copied", sum_of(&copy))
                && tell(rt, "popped", pop_all(&mut copy, 1))
        }
        Err(_) => false,
    }
}

/// Makes the calls, and returns whether those that may fail succeeded.
pub fn run(rt: &HostRuntime) -> bool {
    let mut cursors = Vec::new(rt.alloc());
    match StableLists::new(rt.alloc(), LISTS) {
        Ok(mut lists) => change(rt, &mut lists, &mut cursors) && copy(rt, &mut lists),
        Err(_) => false,
    }
}
