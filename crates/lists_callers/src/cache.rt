//! A cache with two segments: what is new is on probation, and what was used again is protected.

ghost use Rattle.std.specs.Prelude.{◌≡◌, ◌<◌, ◌≤◌, IsTrue, IfSome, IfNone, None, Some, length, option_map};
ghost use Rattle.slotmap.specs.Words.{Key as KeyOf};
ghost use Rattle.slotmap_list.specs.Sequence.{TakesBack, first_or, last_or};
ghost use Rattle.slotmap_lists.specs.Sequences.{can_move_to, elements_of, number_with, value_under};

use slotmap_lists::{Cursor, StableLists};

const PROBATION: usize = 0;

const PROTECTED: usize = 1;

/// Notes that an element was used: it goes to the front of the protected segment, under its cursor.
pub fn touch(cache: &mut StableLists<Cursor, u64>, cursor: Cursor) -> bool
    ensures which { result ≡ can_move_to cursor 1 cache.old.lists }
    ensures protected { IsTrue result → number_with cursor cache.new.lists ≡ Some 1 }
    ensures front { IsTrue result → first_or (elements_of 1 cache.new.lists) None ≡ Some cursor }
    ensures values { (q : KeyOf) → value_under q cache.new.lists ≡ value_under q cache.old.lists }
    ensures cursors { cache.new.cursors ≡ cache.old.cursors }
{
    cache.move_to_front(cursor, PROTECTED)
}

/// Where more elements than `most` are protected, the one that was used longest ago goes back on
/// probation, under its cursor.
#[tactic(auto, using(slotmap_lists::proofs::Callers::moves))]
pub fn demote(cache: &mut StableLists<Cursor, u64>, most: usize) -> Option<Cursor>
    ensures which { IfSome result (λ cursor. most < length (elements_of 1 cache.old.lists)) }
    ensures none { IfNone result (length (elements_of 1 cache.old.lists) ≤ most) }
    ensures oldest { IfSome result (λ cursor. last_or (elements_of 1 cache.old.lists) None ≡ Some cursor) }
    ensures probation { IfSome result (λ cursor. number_with cursor cache.new.lists ≡ Some 0) }
    ensures values { (q : KeyOf) → value_under q cache.new.lists ≡ value_under q cache.old.lists }
    ensures cursors { cache.new.cursors ≡ cache.old.cursors }
{
    if cache.list_len(PROTECTED) <= most {
        return None;
    }
    let cursor = cache.last(PROTECTED)?;
    cache.move_to_front(cursor, PROBATION);
    Some(cursor)
}

/// Removes the element that has been on probation longest. What is protected stays.
pub fn evict(cache: &mut StableLists<Cursor, u64>) -> Option<(Cursor, u64)>
    ensures oldest { TakesBack (elements_of 0 cache.old.lists) (option_map (λ e. (e.0, e.1)) result) (elements_of 0 cache.new.lists) }
    ensures protected { elements_of 1 cache.new.lists ≡ elements_of 1 cache.old.lists }
{
    cache.pop_back(PROBATION)
}
