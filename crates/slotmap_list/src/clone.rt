//! Copies of a list.

ghost use Rattle.std.specs.Prelude.{◌≡◌, IfOk};
ghost use Rattle.slotmap.specs.Words.{AreClones, ClonesEqual, IsCopy};
ghost use Rattle.slotmap_bounded.specs.Bounded.{bound};

use crate::StableList;
use slotmap::Key;
use std::alloc::AllocError;

impl<K: Key, T: Clone> StableList<K, T> {
    /// Returns a copy of the list, with clones of the values under the same cursors.
    ///
    /// Both lists will return the same new cursors. The copy has the same room and the same capacity. If
    /// memory runs out, or the clone of a value fails, the call fails, and what was copied is dropped. It
    /// takes time linear in the capacity.
    ///
    /// ```
    /// let mut list = StableList::new(alloc)?;
    /// let one = list.push_back(1)?;
    /// let copy = list.clone()?;
    /// list.remove(one);
    /// assert_eq!(rt; copy.get(one), Some(&1));
    /// ```
    pub fn clone(&self) -> Result<Self, AllocError>
        ensures clones { IfOk result (λ copy. AreClones T.is_clone self.now.elements copy.elements) }
        ensures same_if_clones_equal { IfOk result (λ copy. ClonesEqual T.is_clone → copy.elements ≡ self.now.elements) }
        ensures cursors { IfOk result (λ copy. IsCopy self.now.cursors copy.cursors) }
        ensures capacity { IfOk result (λ copy. bound copy.cursors ≡ bound self.now.cursors) }
        ensures room { IfOk result (λ copy. copy.cursors.room ≡ self.now.cursors.room) }
    {
        Ok(StableList {
            values: self.values.clone()?,
            links: self.links.clone()?,
        })
    }
}

impl<K: Key, T: Clone> Clone for StableList<K, T> {
    ghost is_clone = { λ list copy. AreClones T.is_clone list.elements copy.elements × IsCopy list.cursors copy.cursors };

    fn clone(&self) -> Result<Self, AllocError> {
        StableList::clone(self)
    }
}
