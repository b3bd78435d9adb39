//! The iterator that takes the jobs out of a scheduler.

ghost use Rattle.std.specs.Prelude.{◌≡◌, ◌≤◌, Some, IfSome};
ghost use Rattle.std.specs.Iterator.{size, UpTo};
ghost use Rattle.slotmap_scheduler.specs.Schedule.{IsOnce, IsByTime};

use crate::Scheduler;
use slotmap::Key;
use std::iter::FusedIterator;

/// An iterator that takes the jobs out of a scheduler, in the order in which they are due: see
/// [`Scheduler::drain`].
///
/// Dropping it removes the jobs that it hasn't yielded. So no job waits then.
pub struct Drain<'a, K: Key, T> {
    scheduler: &'a mut Scheduler<K, T>,
}

impl<'a, K: Key, T: Drop> Drop for Drain<'a, K, T> {
    ghost use Rattle.slotmap_scheduler.specs.Drain.{drain_loan, EmptiesSchedule};

    fn drop(self)
        ensures ends { EmptiesSchedule (drain_loan self.entry).now self.exit.0.now }
    {
        let Drain { scheduler } = self;
        scheduler.clear();
    }
}

impl<'a, K: Key, T: Drop> Iterator for Drain<'a, K, T> {
    ghost use Rattle.slotmap_scheduler.specs.Drain.{drain_count, DrainSteps};

    type Item = (K, u64, T);

    ghost next_gives = { DrainSteps K.data_of };

    ghost remaining = { drain_count };

    fn next(&mut self) -> Option<(K, u64, T)> {
        match self.scheduler.pop_next() {
            Some(due) => Some((due.1, due.0, due.2)),
            None => None,
        }
    }

    fn size_hint(&self) -> (usize, Option<usize>)
        ensures lower { result.0 ≤ size (drain_count self.now) }
        ensures upper { IfSome result.1 (UpTo (drain_count self.now)) }
        ensures exact { result ≡ (size (drain_count self.now), Some (size (drain_count self.now))) }
    {
        let len = self.scheduler.len();
        (len, Some(len))
    }
}

impl<'a, K: Key, T: Drop> ExactSizeIterator for Drain<'a, K, T> {
    fn len(&self) -> usize {
        self.scheduler.len()
    }
}

impl<'a, K: Key, T: Drop> FusedIterator for Drain<'a, K, T> {}

impl<K: Key, T: Drop> Scheduler<K, T> {
    ghost use Rattle.slotmap_scheduler.specs.Drain.{drain_loan, KeepsLent, YieldsInOrder};

    /// Returns an iterator that takes out the jobs and yields each with its handle and its time, in the
    /// order in which they are due. The handles are never used again.
    ///
    /// Dropping the iterator early removes the remaining jobs too. No job waits then, no room is lost, and
    /// the capacity stays. The iterator is made in constant time. Each step takes time logarithmic in the
    /// number of jobs, and the drop takes time linear in the number of slots.
    ///
    /// ```
    /// let mut scheduler: Scheduler<DefaultKey, &str> = Scheduler::new(alloc)?;
    /// scheduler.schedule(30, "tea")?;
    /// let bell = scheduler.schedule(20, "bell")?;
    /// let first = scheduler.drain().next(); // the drain is dropped here
    /// assert_eq!(rt; first, Some((bell, 20, "bell")));
    /// assert!(rt; scheduler.is_empty());
    /// ```
    pub fn drain(&mut self) -> Drain<'_, K, T>
        ensures scheduler { (drain_loan result).now ≡ self.old }
        ensures same_reference { (drain_loan result).ghost_name ≡ self.entry.ghost_name }
        ensures sorted { IsByTime self.old.waiting }
        ensures once { IsOnce self.old.waiting }

        // Laws of the steps, for callers that take more of them.
        ensures stays { KeepsLent K.data_of result }
        ensures in_order { YieldsInOrder K.data_of result }
    {
        // Reads the scheduler, which says that its jobs are in order and each handle is there once.
        let _ = self.len();
        Drain { scheduler: self }
    }
}
