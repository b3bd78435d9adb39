//! Iterators over the jobs that wait, by ascending index of their handles.

ghost use Rattle.std.specs.Prelude.{◌≡◌, ◌≤◌, length, Some, IfSome, map as list_map};
ghost use Rattle.std.specs.Iterator.{YieldsFirstBy, item_count, at_most, UpTo};
ghost use Rattle.std.specs.FinMap as map;
ghost use Rattle.slotmap_scheduler.specs.Schedule.{Waiting, IsOnce};
ghost use Rattle.slotmap_scheduler.specs.Listed.{ListsJobs};

use crate::{Job, Scheduler};
use slotmap::{DefaultKey, Key, basic};
use slotmap_bounded::outer;
use std::iter::FusedIterator;
use std::marker::{Model, PhantomData};

/// An iterator over the handles that wait, each with its time and its job: see [`Scheduler::iter`].
///
/// A contract sees it as the list of what it will still yield. After its end it yields nothing.
#[derive(Drop)]
pub struct Iter<'a, K, T> {
    jobs: basic::Iter<'a, DefaultKey, Job<T>>,
    handle_type: PhantomData<K>,
}

impl<'a, K, T> Model for Iter<'a, K, T> {
    ghost use Rattle.std.specs.Prelude.{ℕ, List, map as list_map};
    ghost use Rattle.slotmap.specs.Words.{Key};
    ghost use Rattle.slotmap_scheduler.specs.Listed.{shown};

    ghost Value = { List (Key × (ℕ × T)) };

    ghost view = { λ it. list_map shown it.jobs };
}

impl<'a, K: Key, T: Drop> Iterator for Iter<'a, K, T> {
    type Item = (K, u64, &'a T);

    ghost next_gives = { YieldsFirstBy (λ item. (K.data_of item.0, (item.1, item.2.now))) (λ rest. rest) };

    ghost remaining = { item_count (λ rest. rest) };

    fn next(&mut self) -> Option<(K, u64, &'a T)> {
        match self.jobs.next() {
            Some((handle, job)) => Some((outer(handle), job.turn.0, &job.job)),
            None => None,
        }
    }

    fn size_hint(&self) -> (usize, Option<usize>)
        ensures lower { result.0 ≤ length self.now }
        ensures upper { IfSome result.1 (UpTo (at_most (length self.now))) }
        ensures exact { result ≡ (length self.now, Some (length self.now)) }
    {
        let len = self.jobs.len();
        (len, Some(len))
    }
}

impl<'a, K: Key, T: Drop> ExactSizeIterator for Iter<'a, K, T> {
    fn len(&self) -> usize {
        self.jobs.len()
    }
}

impl<'a, K: Key, T: Drop> FusedIterator for Iter<'a, K, T> {}

impl<'a, K: Key, T: Drop> IntoIterator for &'a Scheduler<K, T> {
    type Item = (K, u64, &'a T);

    type IntoIter = Iter<'a, K, T>;

    ghost into_iter_gives = { λ scheduler it. ListsJobs scheduler.now.waiting it × IsOnce it
        × (list_map (λ e. e.0) it ≡ map.keys scheduler.now.handles.live) };

    fn into_iter(self) -> Iter<'a, K, T> {
        self.iter()
    }
}

/// An iterator over the handles that wait: see [`Scheduler::keys`].
///
/// A contract sees it as the list of the handles that it will still yield. After its end it yields
/// nothing.
#[derive(Drop)]
pub struct Keys<'a, K, T> {
    jobs: Iter<'a, K, T>,
}

impl<'a, K, T> Model for Keys<'a, K, T> {
    ghost use Rattle.std.specs.Prelude.{List, map as list_map};
    ghost use Rattle.slotmap.specs.Words.{Key};

    ghost Value = { List Key };

    ghost view = { λ it. list_map (λ e. e.0) it.jobs };
}

impl<'a, K: Key, T: Drop> Iterator for Keys<'a, K, T> {
    type Item = K;

    ghost next_gives = { YieldsFirstBy K.data_of (λ rest. rest) };

    ghost remaining = { item_count (λ rest. rest) };

    fn next(&mut self) -> Option<K> {
        match self.jobs.next() {
            Some((handle, _, _)) => Some(handle),
            None => None,
        }
    }

    fn size_hint(&self) -> (usize, Option<usize>)
        ensures lower { result.0 ≤ length self.now }
        ensures upper { IfSome result.1 (UpTo (at_most (length self.now))) }
        ensures exact { result ≡ (length self.now, Some (length self.now)) }
    {
        self.jobs.size_hint()
    }
}

impl<'a, K: Key, T: Drop> ExactSizeIterator for Keys<'a, K, T> {
    fn len(&self) -> usize {
        self.jobs.len()
    }
}

impl<'a, K: Key, T: Drop> FusedIterator for Keys<'a, K, T> {}

/// An iterator over the jobs that wait: see [`Scheduler::values`].
///
/// A contract sees it as the list of the jobs that it will still yield. After its end it yields nothing.
#[derive(Drop)]
pub struct Values<'a, K, T> {
    jobs: Iter<'a, K, T>,
}

impl<'a, K, T> Model for Values<'a, K, T> {
    ghost use Rattle.std.specs.Prelude.{List, map as list_map};

    ghost Value = { List T };

    ghost view = { λ it. list_map (λ e. e.1.1) it.jobs };
}

impl<'a, K: Key, T: Drop> Iterator for Values<'a, K, T> {
    type Item = &'a T;

    ghost next_gives = { YieldsFirstBy (λ item. item.now) (λ rest. rest) };

    ghost remaining = { item_count (λ rest. rest) };

    fn next(&mut self) -> Option<&'a T> {
        match self.jobs.next() {
            Some((_, _, job)) => Some(job),
            None => None,
        }
    }

    fn size_hint(&self) -> (usize, Option<usize>)
        ensures lower { result.0 ≤ length self.now }
        ensures upper { IfSome result.1 (UpTo (at_most (length self.now))) }
        ensures exact { result ≡ (length self.now, Some (length self.now)) }
    {
        self.jobs.size_hint()
    }
}

impl<'a, K: Key, T: Drop> ExactSizeIterator for Values<'a, K, T> {
    fn len(&self) -> usize {
        self.jobs.len()
    }
}

impl<'a, K: Key, T: Drop> FusedIterator for Values<'a, K, T> {}

impl<K: Key, T: Drop> Scheduler<K, T> {
    /// Returns an iterator over the jobs that wait, each with its handle and its time, by ascending
    /// index of the handles. A `for` loop over `&scheduler` goes over the same.
    ///
    /// It is made in constant time. All its steps together read each slot once.
    ///
    /// ```
    /// let mut scheduler: Scheduler<DefaultKey, &str> = Scheduler::new(alloc)?;
    /// let tea = scheduler.schedule(30, "tea")?;
    /// let mut jobs = scheduler.iter();
    /// assert_eq!(rt; jobs.next(), Some((tea, 30, &"tea")));
    /// assert!(rt; jobs.next().is_none());
    /// ```
    pub fn iter(&self) -> Iter<'_, K, T>
        ensures jobs { ListsJobs self.now.waiting result }
        ensures in_order { list_map (λ e. e.0) result ≡ map.keys self.now.handles.live }
        ensures once { IsOnce result }
    {
        Iter {
            jobs: self.jobs.iter(),
            handle_type: PhantomData,
        }
    }

    /// Returns an iterator over the handles that wait, in the order of [`Scheduler::iter`].
    ///
    /// It is made in constant time. All its steps together read each slot once.
    ///
    /// ```
    /// let mut scheduler: Scheduler<DefaultKey, &str> = Scheduler::new(alloc)?;
    /// let tea = scheduler.schedule(30, "tea")?;
    /// assert_eq!(rt; scheduler.keys().next(), Some(tea));
    /// ```
    pub fn keys(&self) -> Keys<'_, K, T>
        ensures jobs { (jobs : Waiting T) × ListsJobs self.now.waiting jobs × (result ≡ list_map (λ e. e.0) jobs) }
        ensures in_order { result ≡ map.keys self.now.handles.live }
    {
        Keys { jobs: self.iter() }
    }

    /// Returns an iterator over the jobs that wait, in the order of [`Scheduler::iter`].
    ///
    /// It is made in constant time. All its steps together read each slot once.
    ///
    /// ```
    /// let mut scheduler: Scheduler<DefaultKey, &str> = Scheduler::new(alloc)?;
    /// scheduler.schedule(30, "tea")?;
    /// assert_eq!(rt; scheduler.values().next(), Some(&"tea"));
    /// ```
    pub fn values(&self) -> Values<'_, K, T>
        ensures jobs { (jobs : Waiting T) × ListsJobs self.now.waiting jobs × (list_map (λ e. e.0) jobs ≡ map.keys self.now.handles.live)
            × (result ≡ list_map (λ e. e.1.1) jobs) }
    {
        Values { jobs: self.iter() }
    }
}
