//! The iterator over a scheduler by value.

ghost use Rattle.std.specs.Prelude.{◌≡◌, ◌≤◌, length, Some, IfSome};
ghost use Rattle.std.specs.Iterator.{YieldsFirstBy, item_count, at_most, UpTo};
ghost use Rattle.slotmap_scheduler.specs.Schedule.{IsOnce, IsByTime};

use crate::Scheduler;
use slotmap::Key;
use std::iter::FusedIterator;
use std::marker::Model;

/// An iterator over the jobs of a scheduler by value, each with its handle and its time, in the order
/// in which they are due. A `for` over a scheduler takes it.
///
/// A contract sees it as the list of the jobs that it will still yield. After its end it yields
/// nothing. Each step takes time logarithmic in the number of jobs and can't fail. Dropping it drops the
/// jobs that are left.
///
/// ```
/// let mut scheduler: Scheduler<DefaultKey, &str> = Scheduler::new(alloc)?;
/// let tea = scheduler.schedule(30, "tea")?;
/// let bell = scheduler.schedule(20, "bell")?;
/// let mut jobs = scheduler.into_iter();
/// assert_eq!(rt; jobs.next(), Some((bell, 20, "bell")));
/// assert_eq!(rt; jobs.next(), Some((tea, 30, "tea")));
/// assert!(rt; jobs.next().is_none());
/// ```
#[derive(Drop)]
pub struct IntoIter<K, T> {
    scheduler: Scheduler<K, T>,
}

impl<K, T> Model for IntoIter<K, T> {
    ghost use Rattle.std.specs.Prelude.{ℕ, List};
    ghost use Rattle.slotmap.specs.Words.{Key};

    ghost Value = { List (Key × (ℕ × T)) };

    ghost view = { λ it. it.scheduler.waiting };
}

impl<K: Key, T: Drop> Iterator for IntoIter<K, T> {
    type Item = (K, u64, T);

    ghost next_gives = { YieldsFirstBy (λ item. (K.data_of item.0, (item.1, item.2))) (λ rest. rest) };

    ghost remaining = { item_count (λ rest. rest) };

    fn next(&mut self) -> Option<(K, u64, T)> {
        match self.scheduler.pop_next() {
            Some((time, handle, job)) => Some((handle, time, job)),
            None => None,
        }
    }

    fn size_hint(&self) -> (usize, Option<usize>)
        ensures lower { result.0 ≤ length self.now }
        ensures upper { IfSome result.1 (UpTo (at_most (length self.now))) }
        ensures exact { result ≡ (length self.now, Some (length self.now)) }
    {
        let len = self.scheduler.len();
        (len, Some(len))
    }
}

impl<K: Key, T: Drop> ExactSizeIterator for IntoIter<K, T> {
    fn len(&self) -> usize {
        self.scheduler.len()
    }
}

impl<K: Key, T: Drop> FusedIterator for IntoIter<K, T> {}

impl<K: Key, T: Drop> IntoIterator for Scheduler<K, T> {
    type Item = (K, u64, T);

    type IntoIter = IntoIter<K, T>;

    ghost into_iter_gives = { λ scheduler it. (it ≡ scheduler.waiting) × IsByTime it × IsOnce it };

    fn into_iter(self) -> IntoIter<K, T> {
        // Reads the scheduler, which says that its jobs are in order and each handle is there once.
        let _ = self.len();
        IntoIter { scheduler: self }
    }
}
