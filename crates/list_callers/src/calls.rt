//! Calls of each kind on lists of numbers. Those that return a `bool` say whether all that may fail succeeded.

use callers_sums::{EMPTY, SIZE, Sum, keep, pick, tell};
use slotmap_list::{Cursor, PushError, StableList};

type List = StableList<Cursor, u64>;

// Puts the numbers below `SIZE` at the ends and beside elements.
fn put_all(list: &mut List, cursors: &mut Vec<Cursor>) -> bool {
    let mut done = true;
    for value in 0..SIZE {
        let at = pick(cursors.as_slice(), value);
        let put = match value % 4 {
            0 => list.push_back(value).ok(),
            1 => list.push_front(value).ok(),
            2 => list.insert_after(at, value).ok(),
            _ => list.insert_before(at, value).ok(),
        };
        done &= keep(cursors, put);
    }
    done
}

// Moves elements to the ends, beside others, or into their places.
fn move_all(list: &mut List, cursors: &[Cursor]) -> Sum {
    let mut sum = EMPTY;
    for turn in 0..SIZE {
        let (cursor, other) = (pick(cursors, turn), pick(cursors, turn + SIZE));
        let moved = match turn % 5 {
            0 => list.move_to_front(cursor),
            1 => list.move_to_back(cursor),
            2 => list.move_after(cursor, other),
            3 => list.move_before(cursor, other),
            _ => list.swap(cursor, other),
        };
        sum.add(u64::from(moved));
    }
    sum
}

// The numbers from front to back, and then from back to front, each with those beside it.
fn sum_of(list: &List) -> Sum {
    let mut sum = EMPTY;
    for value in list.values() {
        sum.add(*value);
    }
    for (cursor, value) in list.iter().rev() {
        sum.add(*value);
        sum.add_found(list.get(list.next(cursor).unwrap_or_default()));
        sum.add_found(list.get(list.prev(cursor).unwrap_or_default()));
    }
    sum
}

// Adds 1 to each number that has one of these cursors, and keeps those that 3 doesn't divide.
#[tactic(auto, using(slotmap_list::proofs::Visiting::callable_in_order))]
fn write_and_retain(list: &mut List, cursors: &[Cursor]) {
    for cursor in cursors {
        if let Some(number) = list.get_mut(*cursor) {
            *number = number.wrapping_add(1);
        }
    }
    list.retain(|_, value| *value % 3 != 0);
}

// Removes elements by their cursors. Then the numbers of those that are left, by their cursors.
fn remove_some(list: &mut List, cursors: &[Cursor]) -> Sum {
    let mut sum = EMPTY;
    for turn in 0..SIZE / 4 {
        sum.add(list.remove(pick(cursors, turn)).unwrap_or(u64::MAX));
    }
    for cursor in list.cursors() {
        if list.contains(cursor) {
            sum.add(list[cursor]);
        }
    }
    sum
}

// The numbers of a list that is consumed, from both ends in turn.
fn consume(list: List) -> Sum {
    let mut sum = EMPTY;
    let mut elements = list.into_iter();
    while let Some((_, value)) = elements.next() {
        sum.add(value);
        if let Some((_, value)) = elements.next_back() {
            sum.add(value);
        }
    }
    sum
}

// The calls on an empty list. A copy of it is used up.
fn change(rt: &HostRuntime, list: &mut List, cursors: &mut Vec<Cursor>) -> bool {
    let done = put_all(list, cursors)
        && tell(rt, "put", sum_of(list))
        && tell(rt, "moves", move_all(list, cursors.as_slice()))
        && tell(rt, "moved", sum_of(list));
    if !done {
        return false;
    }
    write_and_retain(list, cursors.as_slice());
    let removed = tell(rt, "removed", remove_some(list, cursors.as_slice()));
    match list.clone() {
        Ok(copy) => removed && tell(rt, "copied", consume(copy)),
        Err(_) => false,
    }
}

// Takes half of the numbers from both ends in turn, and drains the others.
fn take_all(list: &mut List) -> Sum {
    let mut sum = EMPTY;
    for turn in 0..SIZE {
        let popped = match turn % 2 {
            0 => list.pop_front(),
            _ => list.pop_back(),
        };
        if let Some((cursor, value)) = popped {
            sum.add(value);
            sum.add(u64::from(list.contains(cursor)));
        }
    }
    for (_, value) in list.drain() {
        sum.add(value);
    }
    sum
}

// Appends a list to another one, and takes all from it.
fn append(rt: &HostRuntime, list: &mut List, other: &mut List) -> bool {
    other.clear();
    other.reserve(SIZE as usize).is_ok()
        && other.capacity() >= SIZE as usize
        && other.extend(0..SIZE).is_ok()
        && list.append(other).is_ok()
        && other.is_empty()
        && tell(rt, "taken", take_all(list))
}

/// Makes the calls, and returns whether those that may fail succeeded. It prints the number that a list was refused: it isn't lost.
pub fn run(rt: &HostRuntime) -> bool {
    let mut cursors = Vec::new(rt.alloc());
    let made = StableList::with_capacity(rt.alloc(), SIZE as usize);
    match (StableList::from_iter(rt.alloc(), 0..SIZE), made) {
        (Ok(mut list), Ok(mut other)) => {
            change(rt, &mut other, &mut cursors) && append(rt, &mut list, &mut other)
        }
        (Err(Some(PushError::Full(number) | PushError::Memory(number))), _) => {
            let _ = println!(rt; "refused: {number}");
            false
        }
        _ => false,
    }
}
