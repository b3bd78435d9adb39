//! A wheel of timers: a list for each tick of a round, and one for those that are due.

ghost use Rattle.std.specs.Prelude.{◌≡◌, ◌≢◌, ℕ, ◌<◌, ◌≤◌, ◌⊎◌, ◌++◌, [], length};
ghost use Rattle.slotmap.specs.Words.{Key as KeyOf};
ghost use Rattle.slotmap_lists.specs.Sequences.{elements_of, memory, value_under};

use slotmap_lists::{Cursor, StableLists};

/// Moves the timers of a tick behind those that are due, in their order. Each keeps its cursor and its
/// value, and the other lists stay, as does what the wheel counts as reserved. If one of the two lists isn't
/// there, or they are the same, nothing changes.
pub fn expire(wheel: &mut StableLists<Cursor, u64>, tick: usize, due: usize)
    ensures empty { due ≢ tick → due < length wheel.old.lists → tick < length wheel.old.lists → elements_of tick wheel.new.lists ≡ [] }
    ensures behind { due ≢ tick → due < length wheel.old.lists → tick < length wheel.old.lists
        → elements_of due wheel.new.lists ≡ elements_of due wheel.old.lists ++ elements_of tick wheel.old.lists }
    ensures others { (q : ℕ) → q ≢ tick → q ≢ due → elements_of q wheel.new.lists ≡ elements_of q wheel.old.lists }
    ensures values { (q : KeyOf) → value_under q wheel.new.lists ≡ value_under q wheel.old.lists }
    ensures unchanged { (due ≡ tick) ⊎ (length wheel.old.lists ≤ due) ⊎ (length wheel.old.lists ≤ tick) → wheel.new ≡ wheel.old }
    ensures cursors { wheel.new.cursors ≡ wheel.old.cursors }
    ensures memory { memory wheel.new ≡ memory wheel.old }
{
    wheel.append(due, tick);
}
