//! The calls that change which jobs wait, and in which order.

ghost use Rattle.std.specs.Prelude.{◌≡◌, ◌≢◌, ℕ, ◌+◌, ◌<◌, ◌≤◌, ◌∷◌, [], Some, None, IfOk, OnOk, IfErr, OnErr};
ghost use Rattle.std.specs.Prelude.{IfSome, OnSome, IfNone, IsOk, IsTrue, is_some, true, false, option_map, length, vec_len, vec_capacity};
ghost use Rattle.std.specs.List.{All};
ghost use Rattle.std.specs.FinMap as map;
ghost use Rattle.slotmap.specs.Words.{Key as KeyOf, HasVacant, IsContent, MakesRoom, Inserts, Removes, Keeps, Leaves, IsSpent, KeepsSpent, RefusesCapacity, used};
ghost use Rattle.slotmap_scheduler.specs.Schedule.{job_of, in_turn, without, last_turn, IsOnce, IsByTime, RefusesJob, RefusesMove};
ghost use Rattle.slotmap_scheduler.specs.Drain.{EmptiesSchedule};
ghost use Rattle.slotmap_scheduler.specs.Listed.{TakesDue, due_at};

use crate::heap::{count_due, make_room, put_in, set_turn, take_out};
use crate::{RescheduleError, ScheduleError, Scheduler};
use slotmap::{Key, ReserveError, drop_may_unwind};
use slotmap_bounded::{inner, outer};
use std::alloc::AllocError;

impl<K: Key, T: Drop> Scheduler<K, T> {
    /// Reserves room for `additional` more jobs. If there is room already, it changes nothing.
    ///
    /// The next `additional` schedules don't fail then, unless all turns were given out, and the
    /// capacity stays. The errors are these; either leaves the same jobs waiting:
    ///
    /// - `TooGreat`: more than 4294967294 jobs would be there, counting those whose slots are retired.
    /// - `Memory`: memory runs out.
    ///
    /// ```
    /// let mut scheduler: Scheduler<DefaultKey, &str> = Scheduler::new(alloc)?;
    /// scheduler.reserve(2)?;
    /// let capacity = scheduler.capacity();
    /// scheduler.schedule(30, "tea")?;
    /// scheduler.schedule(20, "bell")?;
    /// assert_eq!(rt; scheduler.capacity(), capacity);
    /// ```
    pub fn reserve(&mut self, additional: usize) -> Result<(), ReserveError>
        ensures makes_room { MakesRoom true self.old.handles additional (IsOk result) self.new.handles }
        ensures reuses { additional ≤ map.len self.old.handles.next → IsOk result }
        ensures err { IfErr result (RefusesCapacity (used self.old.handles + additional)) }
        ensures waiting { self.new.waiting ≡ self.old.waiting }
        ensures turns { self.new.turns ≡ self.old.turns }
        ensures stale { KeepsSpent self.old.handles self.new.handles }
    {
        if let Err(error) = self.jobs.reserve(additional) {
            return Err(error);
        }
        if make_room(&mut self.heap, additional).is_err() {
            return Err(ReserveError::Memory);
        }
        Ok(())
    }

    // Schedules a job for which there is room.
    fn put(&mut self, time: u64, job: T) -> K
        requires room { 0 < self.old.handles.room }
        requires turns { self.old.turns < last_turn }
        ensures waits { self.new.waiting ≡ in_turn (K.data_of result, (time, job)) self.old.waiting }
        ensures there { job_of (K.data_of result) self.new.waiting ≡ Some (time, job) }
        ensures others { (q : KeyOf) → q ≢ K.data_of result → job_of q self.new.waiting ≡ job_of q self.old.waiting }
        ensures one_more { length self.new.waiting ≡ length self.old.waiting + 1 }
        ensures fresh { job_of (K.data_of result) self.old.waiting ≡ None }
        ensures unspent { IsSpent self.old.handles (K.data_of result) → ⊥ }
        ensures handles { Inserts self.old.handles (K.data_of result) tt self.new.handles }
        ensures capacity { self.new.handles.capacity ≡ self.old.handles.capacity }
        ensures turns { self.new.turns ≡ self.old.turns + 1 }
        ensures stale { KeepsSpent self.old.handles self.new.handles }
    {
        let turn = (time, self.count);
        let handle = put_in(&mut self.jobs, &mut self.heap, turn, job);
        self.count += 1;
        outer(handle)
    }

    /// Schedules a job, and returns its handle. It is behind all waiting jobs of its time.
    ///
    /// If there is room and a turn is left, it can't fail, and the capacity stays. If the call fails,
    /// the error holds the job, and the same jobs wait. The next handle stays the same. It takes time
    /// logarithmic in the number of jobs, unless a vector grows.
    ///
    /// ```
    /// let mut scheduler: Scheduler<DefaultKey, &str> = Scheduler::new(alloc)?;
    /// let tea = scheduler.schedule(30, "tea")?;
    /// scheduler.schedule(20, "bell")?;
    /// assert_eq!(rt; scheduler.due(tea), Some(30));
    /// assert_eq!(rt; scheduler.len(), 2);
    /// ```
    pub fn schedule(&mut self, time: u64, job: T) -> Result<K, ScheduleError<T>>
        // The job waits under a new handle, which no job had before.
        ensures waits { IfOk result (λ handle. self.new.waiting ≡ in_turn (K.data_of handle, (time, job)) self.old.waiting) }
        ensures there { IfOk result (λ handle. job_of (K.data_of handle) self.new.waiting ≡ Some (time, job)) }
        ensures others { IfOk result (λ handle. (q : KeyOf) → q ≢ K.data_of handle → job_of q self.new.waiting ≡ job_of q self.old.waiting) }
        ensures one_more { OnOk result (length self.new.waiting ≡ length self.old.waiting + 1) }
        ensures fresh { IfOk result (λ handle. job_of (K.data_of handle) self.old.waiting ≡ None) }
        ensures unspent { IfOk result (λ handle. IsSpent self.old.handles (K.data_of handle) → ⊥) }
        ensures handles { IfOk result (λ handle. Inserts self.old.handles (K.data_of handle) tt self.new.handles) }
        ensures turn { OnOk result (self.old.turns < last_turn) }
        ensures turns { OnOk result (self.new.turns ≡ self.old.turns + 1) }

        // If there is room, it can't fail, and the capacity stays. For each vacant slot there is room.
        ensures room { 0 < self.old.handles.room → self.old.turns < last_turn → IsOk result }
        ensures in_place { 0 < self.old.handles.room → self.new.handles.capacity ≡ self.old.handles.capacity }
        ensures reuses { HasVacant self.old.handles → self.old.turns < last_turn → IsOk result }
        ensures capacity { self.old.handles.capacity ≤ self.new.handles.capacity }
        ensures valid { IsContent true self.old.handles }

        // Why the call failed, and what that leaves.
        ensures err { IfErr result (RefusesJob self.old job) }
        ensures unchanged { OnErr result (Keeps self.old.handles self.new.handles × (self.new.waiting ≡ self.old.waiting) × (self.new.turns ≡ self.old.turns)) }

        // What never comes again.
        ensures stale { KeepsSpent self.old.handles self.new.handles }
    {
        if self.count == u64::MAX {
            return Err(ScheduleError::Full(job));
        }
        match self.reserve(1) {
            Ok(()) => Ok(self.put(time, job)),
            Err(ReserveError::TooGreat) => Err(ScheduleError::Full(job)),
            Err(ReserveError::Memory) => Err(ScheduleError::Memory(job)),
        }
    }

    /// Cancels the job of a handle, and returns it. It is never returned later, and its handle is never
    /// used again.
    ///
    /// If no job waits under the handle, the call returns `None` and changes nothing. The capacity
    /// stays. It takes time logarithmic in the number of jobs.
    ///
    /// ```
    /// let mut scheduler: Scheduler<DefaultKey, &str> = Scheduler::new(alloc)?;
    /// let tea = scheduler.schedule(30, "tea")?;
    /// assert_eq!(rt; scheduler.cancel(tea), Some("tea"));
    /// assert_eq!(rt; scheduler.cancel(tea), None);
    /// assert!(rt; !scheduler.contains(tea));
    /// ```
    pub fn cancel(&mut self, handle: K) -> Option<T>
        ensures job { result ≡ option_map (λ due. due.1) (job_of (K.data_of handle) self.old.waiting) }
        ensures removed { self.new.waiting ≡ without (K.data_of handle) self.old.waiting }
        ensures one_less { OnSome result (length self.new.waiting + 1 ≡ length self.old.waiting) }
        ensures others { (q : KeyOf) → q ≢ K.data_of handle → job_of q self.new.waiting ≡ job_of q self.old.waiting }
        ensures handles { OnSome result (Removes self.old.handles (K.data_of handle) self.new.handles) }
        ensures turns { self.new.turns ≡ self.old.turns }
        ensures unchanged { IfNone result (self.new ≡ self.old) }

        // The capacity stays, and no room is lost.
        ensures capacity { self.new.handles.capacity ≡ self.old.handles.capacity }
        ensures leaves { Leaves self.old.handles self.new.handles }

        // What never comes again.
        ensures for_good { OnSome result (IsSpent self.new.handles (K.data_of handle)) }
        ensures stale { KeepsSpent self.old.handles self.new.handles }
    {
        let removed = take_out(&mut self.jobs, &mut self.heap, inner(handle))?;
        Some(removed.job)
    }

    /// Moves the job of a handle to another time, behind all jobs of that time. The handle stays the
    /// same.
    ///
    /// It fails with `Gone` if no job waits under the handle, else with `Full` if all turns were given
    /// out, and has changed nothing then. If it succeeds, it uses up a turn. The capacity stays. It takes
    /// time logarithmic in the number of jobs.
    ///
    /// ```
    /// let mut scheduler: Scheduler<DefaultKey, &str> = Scheduler::new(alloc)?;
    /// let tea = scheduler.schedule(30, "tea")?;
    /// let bell = scheduler.schedule(20, "bell")?;
    /// assert!(rt; scheduler.reschedule(bell, 40).is_ok());
    /// assert_eq!(rt; scheduler.peek(), Some((30, tea)));
    /// ```
    pub fn reschedule(&mut self, handle: K, time: u64) -> Result<(), RescheduleError>
        // The job waits under the same handle, with a new turn.
        ensures moved { (before : ℕ) (job : T) → job_of (K.data_of handle) self.old.waiting ≡ Some (before, job)
            → OnOk result (self.new.waiting ≡ in_turn (K.data_of handle, (time, job)) (without (K.data_of handle) self.old.waiting)) }
        ensures there { OnOk result (job_of (K.data_of handle) self.new.waiting
            ≡ option_map (λ due. (time, due.1)) (job_of (K.data_of handle) self.old.waiting)) }
        ensures others { (q : KeyOf) → q ≢ K.data_of handle → job_of q self.new.waiting ≡ job_of q self.old.waiting }
        ensures as_many { length self.new.waiting ≡ length self.old.waiting }
        ensures waits { OnOk result (is_some (job_of (K.data_of handle) self.old.waiting) ≡ true) }
        ensures turn { OnOk result (self.old.turns < last_turn) }
        ensures turns { OnOk result (self.new.turns ≡ self.old.turns + 1) }
        ensures handles { self.new.handles ≡ self.old.handles }

        // Why the call failed, and what that leaves.
        ensures err { IfErr result (RefusesMove self.old (K.data_of handle)) }
        ensures unchanged { OnErr result (self.new ≡ self.old) }
    {
        let key = inner(handle);
        if !self.jobs.contains_key(key) {
            return Err(RescheduleError::Gone);
        }
        if self.count == u64::MAX {
            return Err(RescheduleError::Full);
        }
        set_turn(&mut self.jobs, &mut self.heap, key, (time, self.count));
        self.count += 1;
        Ok(())
    }

    /// Returns the time and the handle of the next job, or `None` if no job waits. It takes constant
    /// time.
    ///
    /// ```
    /// let mut scheduler: Scheduler<DefaultKey, &str> = Scheduler::new(alloc)?;
    /// let tea = scheduler.schedule(30, "tea")?;
    /// scheduler.schedule(30, "bell")?;
    /// assert_eq!(rt; scheduler.peek(), Some((30, tea)));
    /// ```
    pub fn peek(&self) -> Option<(u64, K)>
        // It is the first of those that wait; the others are those without it.
        ensures first { IfSome result (λ next. (job : T)
            × (self.now.waiting ≡ (K.data_of next.1, (next.0, job)) ∷ without (K.data_of next.1) self.now.waiting)) }
        ensures none { IfNone result (self.now.waiting ≡ []) }

        // No job is due before it: they are sorted by time, and each handle is there once.
        ensures least { IfSome result (λ next. All (λ e. next.0 ≤ e.1.0) self.now.waiting) }
        ensures later { (now : ℕ) → IfSome result (λ next. now < next.0 → All (λ e. now < e.1.0) self.now.waiting) }
        ensures sorted { IsByTime self.now.waiting }
        ensures once { IsOnce self.now.waiting }
    {
        let next = self.heap.first()?;
        Some((next.turn.0, outer(next.handle)))
    }

    /// Removes the next job, whenever it is due, and returns it with its time and its handle. It is
    /// never returned again, and its handle is never used again.
    ///
    /// It is the waiting job with the least time. Of several with that time it is the one whose
    /// `schedule` or last `reschedule` came first. `None` means that no job waits. The capacity stays.
    /// It takes time logarithmic in the number of jobs.
    ///
    /// ```
    /// let mut scheduler: Scheduler<DefaultKey, &str> = Scheduler::new(alloc)?;
    /// scheduler.schedule(30, "tea")?;
    /// let bell = scheduler.schedule(20, "bell")?;
    /// assert_eq!(rt; scheduler.pop_next(), Some((20, bell, "bell")));
    /// assert_eq!(rt; scheduler.len(), 1);
    /// ```
    pub fn pop_next(&mut self) -> Option<(u64, K, T)>
        // The first job that waits is taken out. None that is left is due before it.
        ensures next { IfSome result (λ due. (self.old.waiting ≡ (K.data_of due.1, (due.0, due.2)) ∷ self.new.waiting)
            × All (λ e. due.0 ≤ e.1.0) self.new.waiting) }
        ensures sorted { IsByTime self.old.waiting }
        ensures once { IsOnce self.old.waiting }
        ensures handles { IfSome result (λ due. Removes self.old.handles (K.data_of due.1) self.new.handles) }
        ensures turns { self.new.turns ≡ self.old.turns }

        // None waits.
        ensures none { IfNone result (self.old.waiting ≡ []) }
        ensures unchanged { IfNone result (self.new ≡ self.old) }

        // The capacity stays, and no room is lost.
        ensures capacity { self.new.handles.capacity ≡ self.old.handles.capacity }
        ensures leaves { Leaves self.old.handles self.new.handles }

        // What never comes again.
        ensures for_good { IfSome result (λ due. IsSpent self.new.handles (K.data_of due.1)) }
        ensures stale { KeepsSpent self.old.handles self.new.handles }
    {
        let (time, handle) = self.peek()?;
        let job = self.cancel(handle).unwrap();
        Some((time, handle, job))
    }

    /// Removes the next job, if it is due at `now`, and returns it with its time and its handle. It is
    /// never returned again, and its handle is never used again.
    ///
    /// It is [`Scheduler::pop_due`] with the time at which the job was due. It takes time logarithmic in
    /// the number of jobs.
    ///
    /// ```
    /// let mut scheduler: Scheduler<DefaultKey, &str> = Scheduler::new(alloc)?;
    /// let bell = scheduler.schedule(20, "bell")?;
    /// assert!(rt; scheduler.pop_due_with_time(19).is_none());
    /// assert_eq!(rt; scheduler.pop_due_with_time(25), Some((20, bell, "bell")));
    /// ```
    pub fn pop_due_with_time(&mut self, now: u64) -> Option<(u64, K, T)>
        // The first job that waits is taken out, and was due. None that is left is due before it.
        ensures due { IfSome result (λ due. due.0 ≤ now) }
        ensures next { IfSome result (λ due. (self.old.waiting ≡ (K.data_of due.1, (due.0, due.2)) ∷ self.new.waiting)
            × All (λ e. due.0 ≤ e.1.0) self.new.waiting) }
        ensures sorted { IsByTime self.old.waiting }
        ensures once { IsOnce self.old.waiting }
        ensures handles { IfSome result (λ due. Removes self.old.handles (K.data_of due.1) self.new.handles) }
        ensures turns { self.new.turns ≡ self.old.turns }

        // None is due.
        ensures none { IfNone result (All (λ e. now < e.1.0) self.old.waiting) }
        ensures unchanged { IfNone result (self.new ≡ self.old) }

        // The capacity stays, and no room is lost.
        ensures capacity { self.new.handles.capacity ≡ self.old.handles.capacity }
        ensures leaves { Leaves self.old.handles self.new.handles }

        // What never comes again.
        ensures for_good { IfSome result (λ due. IsSpent self.new.handles (K.data_of due.1)) }
        ensures stale { KeepsSpent self.old.handles self.new.handles }
    {
        let (time, _) = self.peek()?;
        if time > now {
            return None;
        }
        self.pop_next()
    }

    /// Removes the next job, if it is due at `now`, and returns it with its handle. It is never
    /// returned again, and its handle is never used again.
    ///
    /// It is the waiting job with the least time. Of several with that time it is the one whose
    /// `schedule` or last `reschedule` came first. `None` means that no job is due. The capacity stays.
    /// It takes time logarithmic in the number of jobs. [`Scheduler::pop_due_with_time`] returns the
    /// job's time too.
    ///
    /// ```
    /// let mut scheduler: Scheduler<DefaultKey, &str> = Scheduler::new(alloc)?;
    /// let bell = scheduler.schedule(20, "bell")?;
    /// assert!(rt; scheduler.pop_due(19).is_none());
    /// assert_eq!(rt; scheduler.pop_due(20), Some((bell, "bell")));
    /// assert!(rt; scheduler.is_empty());
    /// ```
    pub fn pop_due(&mut self, now: u64) -> Option<(K, T)>
        // The first job that waits is taken out, and was due. None that is left is due before it.
        ensures next { IfSome result (λ due. (time : ℕ) × (time ≤ now)
            × (self.old.waiting ≡ (K.data_of due.0, (time, due.1)) ∷ self.new.waiting) × All (λ e. time ≤ e.1.0) self.new.waiting) }
        ensures sorted { IsByTime self.old.waiting }
        ensures once { IsOnce self.old.waiting }
        ensures handles { IfSome result (λ due. Removes self.old.handles (K.data_of due.0) self.new.handles) }
        ensures turns { self.new.turns ≡ self.old.turns }

        // None is due.
        ensures none { IfNone result (All (λ e. now < e.1.0) self.old.waiting) }
        ensures unchanged { IfNone result (self.new ≡ self.old) }

        // The capacity stays, and no room is lost.
        ensures capacity { self.new.handles.capacity ≡ self.old.handles.capacity }
        ensures leaves { Leaves self.old.handles self.new.handles }

        // What never comes again.
        ensures for_good { IfSome result (λ due. IsSpent self.new.handles (K.data_of due.0)) }
        ensures stale { KeepsSpent self.old.handles self.new.handles }
    {
        let (_, handle, job) = self.pop_due_with_time(now)?;
        Some((handle, job))
    }

    // How many jobs are due.
    fn due_count(&self, now: u64) -> usize
        ensures value { result ≡ length (due_at now self.now.waiting) }
        ensures sorted { IsByTime self.now.waiting }
        ensures once { IsOnce self.now.waiting }
    {
        count_due(&self.heap, 0, now)
    }

    /// Removes the jobs that are due at `now`, and adds them to a vector with their handles, in their
    /// order. Their handles are never used again.
    ///
    /// First it counts the jobs that are due, and reserves room for so many in the vector. So it fails
    /// only if memory runs out, and nothing has changed then. Where the vector has that room, the call
    /// succeeds, however many jobs wait, and the vector's capacity stays. The scheduler's capacity stays
    /// in any case. It takes time logarithmic in the number of jobs for each job that is due; the count
    /// takes constant time for each.
    ///
    /// ```
    /// let mut scheduler: Scheduler<DefaultKey, &str> = Scheduler::new(alloc)?;
    /// let tea = scheduler.schedule(30, "tea")?;
    /// let bell = scheduler.schedule(20, "bell")?;
    /// let mut due = Vec::new(alloc);
    /// scheduler.pop_all_due(30, &mut due)?;
    /// assert_eq!(rt; due.as_slice(), [(bell, "bell"), (tea, "tea")].as_slice());
    /// ```
    pub fn pop_all_due(&mut self, now: u64, due: &mut Vec<(K, T)>) -> Result<(), AllocError>
        // All jobs that are due are taken out, if the call succeeds, and none if it fails.
        ensures taken { TakesDue K.data_of now self.old.waiting due.old.items due.new.items self.new.waiting }
        ensures none_left { OnOk result (All (λ e. now < e.1.0) self.new.waiting) }
        ensures sorted { IsByTime self.old.waiting }
        ensures once { IsOnce self.old.waiting }
        ensures turns { self.new.turns ≡ self.old.turns }

        // The capacity stays, and no room is lost.
        ensures capacity { self.new.handles.capacity ≡ self.old.handles.capacity }
        ensures leaves { Leaves self.old.handles self.new.handles }

        // If the call fails, nothing has changed.
        ensures unchanged { OnErr result (self.new ≡ self.old) }
        ensures same_items { OnErr result (due.new.items ≡ due.old.items) }
        ensures same_room { OnErr result (vec_capacity due.new ≡ vec_capacity due.old) }

        // It fails only where the vector lacks room for the jobs that are due. Where it has that room,
        // its capacity stays.
        ensures had_room { vec_len due.old + length (due_at now self.old.waiting) ≤ vec_capacity due.old → IsOk result }
        ensures in_place { vec_len due.old + length (due_at now self.old.waiting) ≤ vec_capacity due.old → vec_capacity due.new ≡ vec_capacity due.old }
        ensures no_less_room { vec_capacity due.old ≤ vec_capacity due.new }
        ensures full { OnErr result (vec_capacity due.old < vec_len due.old + length (due_at now self.old.waiting)) }
        ensures next_due { OnErr result (0 < length (due_at now self.old.waiting)) }

        // What never comes again.
        ensures for_good { (k : KeyOf) → is_some (job_of k self.old.waiting) ≡ true → job_of k self.new.waiting ≡ None → IsSpent self.new.handles k }
        ensures stale { KeepsSpent self.old.handles self.new.handles }
    {
        let count = self.due_count(now);
        make_room(due, count)?;
        while let Some(job) = self.pop_due(now) {
            due.push_reserved(job);
        }
        Ok(())
    }

    // A handle under which a job waits, or `None` if none waits. Its entry is the last one in the heap, so
    // to cancel it takes constant time.
    fn last(&self) -> Option<K>
        ensures waits { IfSome result (λ handle. is_some (job_of (K.data_of handle) self.now.waiting) ≡ true) }
        ensures none { IfNone result (self.now.waiting ≡ []) }
    {
        let entry = self.heap.last()?;
        Some(outer(entry.handle))
    }

    // Removes all jobs, one by one. While one is dropped, the map and the heap agree.
    fn clear_each(&mut self)
        ensures { EmptiesSchedule self.old self.new }
    {
        while let Some(handle) = self.last() {
            self.cancel(handle);
        }
        // By what `len` ensures, no handle is live.
        let _ = self.len();
    }

    /// Removes all jobs. Their handles are never used again. The capacity stays, and no room is lost.
    ///
    /// It takes time linear in the number of slots.
    ///
    /// ```
    /// let mut scheduler: Scheduler<DefaultKey, &str> = Scheduler::new(alloc)?;
    /// let tea = scheduler.schedule(30, "tea")?;
    /// scheduler.clear();
    /// assert!(rt; scheduler.is_empty());
    /// assert_eq!(rt; scheduler.get(tea), None);
    /// ```
    pub fn clear(&mut self)
        ensures empty { self.new.waiting ≡ [] }
        ensures none_live { self.new.handles.live ≡ map.empty }
        ensures capacity { self.new.handles.capacity ≡ self.old.handles.capacity }
        ensures leaves { Leaves self.old.handles self.new.handles }
        ensures for_good { (k : KeyOf) → is_some (job_of k self.old.waiting) ≡ true → IsSpent self.new.handles k }
        ensures turns { self.new.turns ≡ self.old.turns }
        ensures stale { KeepsSpent self.old.handles self.new.handles }
    {
        if drop_may_unwind::<T>() {
            self.clear_each();
            return;
        }
        self.jobs.clear();
        self.heap.clear();
    }
}
