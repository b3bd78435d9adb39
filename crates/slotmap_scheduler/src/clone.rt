//! Copies of a scheduler.

ghost use Rattle.std.specs.Prelude.{◌≡◌, IfOk};
ghost use Rattle.slotmap.specs.Words.{AreClones, ClonesEqual, IsCopy};
ghost use Rattle.slotmap_scheduler.specs.Listed.{IsDueClone};

use crate::{Job, Scheduler};
use slotmap::Key;
use std::alloc::AllocError;
use std::marker::PhantomData;

impl<T: Clone> Clone for Job<T> {
    ghost is_clone = { λ job copy. T.is_clone job.job copy.job × (copy.turn ≡ job.turn) × (copy.place ≡ job.place) };

    fn clone(&self) -> Result<Self, AllocError> {
        Ok(Job {
            turn: self.turn,
            place: self.place,
            job: self.job.clone()?,
        })
    }
}

impl<K: Key, T: Clone> Scheduler<K, T> {
    /// Returns a copy of the scheduler, with clones of the jobs under the same handles, in the same
    /// order.
    ///
    /// Both schedulers will return the same new handles. The room and the capacity of the copy are its
    /// own. If memory runs out, or the clone of a job fails, the call fails, and what was copied is
    /// dropped. It takes time linear in the number of slots.
    ///
    /// ```
    /// let mut scheduler: Scheduler<DefaultKey, u64> = Scheduler::new(alloc)?;
    /// let tea = scheduler.schedule(30, 5)?;
    /// let copy = scheduler.clone()?;
    /// scheduler.cancel(tea);
    /// assert_eq!(rt; copy.get(tea), Some(&5));
    /// ```
    pub fn clone(&self) -> Result<Self, AllocError>
        ensures clones { IfOk result (λ copy. AreClones (IsDueClone T.is_clone) self.now.waiting copy.waiting) }
        ensures same_if_clones_equal { IfOk result (λ copy. ClonesEqual T.is_clone → copy.waiting ≡ self.now.waiting) }
        ensures handles { IfOk result (λ copy. IsCopy self.now.handles copy.handles) }
        ensures turns { IfOk result (λ copy. copy.turns ≡ self.now.turns) }
    {
        let jobs = self.jobs.clone()?;
        let mut heap = self.heap.clone()?;
        // A vacant slot of the map has its place in the heap too.
        heap.reserve(jobs.capacity() - heap.len())?;
        Ok(Scheduler {
            jobs,
            heap,
            count: self.count,
            handle_type: PhantomData,
        })
    }
}

impl<K: Key, T: Clone> Clone for Scheduler<K, T> {
    ghost is_clone = { λ scheduler copy. AreClones (IsDueClone T.is_clone) scheduler.waiting copy.waiting × IsCopy scheduler.handles copy.handles × (copy.turns ≡ scheduler.turns) };

    fn clone(&self) -> Result<Self, AllocError> {
        Scheduler::clone(self)
    }
}
