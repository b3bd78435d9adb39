//! A run queue: a list of tasks for each priority, the most urgent one first.

ghost use Rattle.std.specs.Prelude.{◌≡◌, ◌≢◌, ◌<◌, ◌∷◌, [], ℕ, IsTrue, IfSome, IfNone, Some, None};
ghost use Rattle.slotmap.specs.Words.{Key as KeyOf};
ghost use Rattle.slotmap_list.specs.Sequence.{last_or, without};
ghost use Rattle.slotmap_lists.specs.Sequences.{elements_of, memory, value_under};

use slotmap_lists::{Cursor, StableLists};

/// Takes out the task that has waited longest of the most urgent ones, or returns `None` if no task waits.
pub fn take_next(queue: &mut StableLists<Cursor, u64>) -> Option<(Cursor, u64)>
    ensures first { IfSome result (λ task. (p : ℕ) × (elements_of p queue.old.lists ≡ (task.0, task.1) ∷ elements_of p queue.new.lists)
        × ((q : ℕ) → q < p → elements_of q queue.old.lists ≡ [])) }
    ensures others { IfSome result (λ task. (q : KeyOf) → q ≢ task.0 → value_under q queue.new.lists ≡ value_under q queue.old.lists) }
    ensures none { IfNone result ((q : ℕ) → elements_of q queue.old.lists ≡ []) }
    ensures unchanged { IfNone result (queue.new ≡ queue.old) }
{
    for priority in 0..queue.lists() {
        if let Some(task) = queue.pop_front(priority) {
            return Some(task);
        }
    }
    None
}

/// Makes a task as urgent as those of another priority, behind which it waits. Its cursor stays. It
/// returns `false`, and changes nothing, if the task doesn't wait or there is no such priority.
pub fn hurry(queue: &mut StableLists<Cursor, u64>, task: Cursor, priority: usize) -> bool
    ensures last { IsTrue result → last_or (elements_of priority queue.new.lists) None ≡ Some task }
    ensures others { IsTrue result → (p : ℕ) → p ≢ priority → elements_of p queue.new.lists ≡ without task (elements_of p queue.old.lists) }
    ensures values { (q : KeyOf) → value_under q queue.new.lists ≡ value_under q queue.old.lists }
    ensures memory { memory queue.new ≡ memory queue.old }
{
    queue.move_to_back(task, priority)
}
