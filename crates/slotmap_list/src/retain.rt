//! The call that visits all elements, and keeps or removes each.

ghost use Rattle.std.specs.Prelude.{◌≡◌, IsSome, None, Some};
ghost use Rattle.std.specs.Borrow.{sem};
ghost use Rattle.slotmap.specs.Words.{Key as KeyOf, IsSpent, KeepsSpent, Leaves};
ghost use Rattle.slotmap_list.specs.Sequence.{memory, value_of, without};
ghost use Rattle.slotmap_list.specs.Retain.{RetainsEach, CallableInOrder};

use crate::StableList;
use slotmap::Key;

impl<K: Key, T: Drop> StableList<K, T> {
    ghost use Rattle.slotmap_list.specs.Lends.{lends_value};

    // The value of a cursor that is in the list.
    pub(crate) fn value_mut(&mut self, cursor: K) -> &mut T
        requires { IsSome (value_of (K.data_of cursor) self.old.elements) }
        ensures* lends { sem 𝓛 (lends_value K.row T.row self.entry (K.data_of cursor) result) }
        ensures value { value_of (K.data_of cursor) self.old.elements ≡ Some result.now }
    {
        match self.get_mut(cursor) {
            Some(value) => value,
            None => unreachable!(),
        }
    }

    // Removes the element of a cursor that is in the list, and drops its value.
    fn reject(&mut self, cursor: K)
        requires { IsSome (value_of (K.data_of cursor) self.old.elements) }
        ensures removed { self.new.elements ≡ without (K.data_of cursor) self.old.elements }
        ensures for_good { IsSpent self.new.cursors (K.data_of cursor) }
        ensures gone { KeepsSpent self.old.cursors self.new.cursors }
        ensures leaves { Leaves self.old.cursors self.new.cursors }
        ensures capacity { memory self.new ≡ memory self.old }
    {
        self.remove(cursor);
    }

    /// Calls a closure once for each element, from front to back, and removes those for which it
    /// returns `false`.
    ///
    /// The closure gets the cursor and a mutable reference to the value. What it writes is kept. The
    /// cursor of a removed element is never used again. No room is lost, and the capacity stays. It
    /// takes time linear in the number of elements.
    ///
    /// ```
    /// let mut list = StableList::from_iter(alloc, vec![in alloc; 1, 2, 3]?).unwrap();
    /// list.retain(|_: Cursor, value| {
    ///     *value *= 10;
    ///     *value != 20
    /// });
    /// assert_eq!(rt; list.to_vec(alloc)?.as_slice(), [10, 30].as_slice());
    /// ```
    pub fn retain<F: FnMut(K, &mut T) -> bool>(&mut self, mut f: F)
    where
        F: Drop,
        requires { CallableInOrder F.FnMut K.data_of f self.old.elements }
        ensures retained { (last : F) × RetainsEach F.FnMut K.data_of f self.old.elements self.new.elements last }
        ensures for_good { (k : KeyOf) → IsSome (value_of k self.old.elements) → value_of k self.new.elements ≡ None → IsSpent self.new.cursors k }
        ensures gone { KeepsSpent self.old.cursors self.new.cursors }
        ensures leaves { Leaves self.old.cursors self.new.cursors }
        ensures capacity { memory self.new ≡ memory self.old }
    {
        let mut at = self.first();
        while let Some(cursor) = at {
            at = self.after(cursor);
            let stays = f(cursor, self.value_mut(cursor));
            if !stays {
                self.reject(cursor);
            }
        }
    }
}
