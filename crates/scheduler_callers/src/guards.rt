//! Guards of schedulers: what a user relies on, in other words than the contract of a call, and proved from that one
//! alone.
//!
//! The comment of a clause names what it needs of the contract, and the wrong bodies that it refuses.

ghost use Rattle.std.specs.Prelude.{◌≡◌, ◌<◌, ◌≤◌, ◌∷◌, ◌⊎◌, [], None, Err, OnOk, IfSome, IfNone, IsOk, IsTrue, is_some};
ghost use Rattle.slotmap.specs.Words.{used, most};
ghost use Rattle.slotmap_scheduler.specs.Drain.{drain_loan};
ghost use Rattle.slotmap_scheduler.specs.Schedule.{job_of, last_turn};

use slotmap::{Key, ReserveError};
use slotmap_scheduler::{Drain, IntoIter, Iter, RescheduleError, ScheduleError, Scheduler};

/// Guards of `schedule`.
pub fn schedule<K: Key, T: Drop>(
    scheduler: &mut Scheduler<K, T>,
    time: u64,
    job: T,
) -> Result<K, ScheduleError<T>>
    // It fails with `Full` exactly at the limit of the jobs or of the turns, and with `Memory` only below
    // both, where no room was promised.
    // Refuses `schedule_tells_full_as_memory`, `schedule_tells_memory_as_full`,
    // `schedule_wants_room_for_a_thousand`: `err` of `schedule`.
    ensures schedule_says_why_it_fails_full { (back : T) → result ≡ Err (ScheduleError.Full back) → (used scheduler.old.handles ≡ most) ⊎ (scheduler.old.turns ≡ last_turn) }
    ensures schedule_says_why_it_fails_memory { (back : T) → result ≡ Err (ScheduleError.Memory back) → (used scheduler.old.handles < most) × (scheduler.old.handles.room ≡ 0) }
{
    scheduler.schedule(time, job)
}

/// Guards of `reschedule`.
pub fn reschedule<K: Key, T: Drop>(
    scheduler: &mut Scheduler<K, T>,
    handle: K,
    time: u64,
) -> Result<(), RescheduleError>
    // It fails with `Gone` where no job waits under the handle, and with `Full` only where one does.
    // Refuses `reschedule_tells_gone_as_full`: `err` of `reschedule`.
    ensures reschedule_says_why_it_fails_gone { result ≡ Err RescheduleError.Gone → job_of (K.data_of handle) scheduler.old.waiting ≡ None }
    ensures reschedule_says_why_it_fails_full { result ≡ Err RescheduleError.Full → IsTrue (is_some (job_of (K.data_of handle) scheduler.old.waiting)) }
{
    scheduler.reschedule(handle, time)
}

/// Guards of `drain`, dropped before it yields anything.
pub fn drain<K: Key, T: Drop>(scheduler: &mut Scheduler<K, T>)
    // No job waits.
    // Refuses `drain_keeps_the_rest`: `scheduler` of `drain`, and `ends` of its drop.
    ensures dropped_drain_leaves_no_job { scheduler.new.waiting ≡ [] }
{
    scheduler.drain();
}

/// Guards of `reserve`.
pub fn reserve<K: Key, T: Drop>(
    scheduler: &mut Scheduler<K, T>,
    additional: usize,
) -> Result<(), ReserveError>
    // There is room for so many more jobs.
    // Refuses `reserve_leaves_the_heap`: `makes_room` of `reserve`.
    ensures reserve_makes_room { OnOk result (additional ≤ scheduler.new.handles.room) }
    // Where there is room already, it succeeds and changes nothing.
    // Refuses `reserve_takes_more`, `reserve_grows_a_heap_with_room`: `makes_room` of `reserve`.
    ensures reserve_with_room_succeeds { additional ≤ scheduler.old.handles.room → IsOk result }
    ensures reserve_with_room_changes_nothing { additional ≤ scheduler.old.handles.room → scheduler.new.handles ≡ scheduler.old.handles }
{
    scheduler.reserve(additional)
}

/// Guards of `next` of `Drain`.
pub fn drain_next<'a, K: Key, T: Drop>(jobs: &mut Drain<'a, K, T>) -> Option<(K, u64, T)>
    // The first job that waits is yielded, with its time.
    // Refuses `drain_gives_half_the_time`: `next_gives` of `Drain`.
    ensures drain_yields_the_first_job { IfSome result (λ job. (drain_loan jobs.old).now.waiting ≡ (K.data_of job.0, (job.1, job.2)) ∷ (drain_loan jobs.new).now.waiting) }
{
    jobs.next()
}

/// Guards of `next` of `IntoIter`.
pub fn into_iter_next<K: Key, T: Drop>(jobs: &mut IntoIter<K, T>) -> Option<(K, u64, T)>
    // The first job that is left is yielded, with its time.
    // Refuses `into_iter_gives_half_the_time`: `next_gives` of `IntoIter`.
    ensures into_iter_yields_its_first { IfSome result (λ job. jobs.old ≡ (K.data_of job.0, (job.1, job.2)) ∷ jobs.new) }
    ensures into_iter_ends_where_none_is_left { IfNone result (jobs.old ≡ []) }
{
    jobs.next()
}

/// Guards of `next` of `Iter`.
pub fn iter_next<'a, K: Key, T: Drop>(jobs: &mut Iter<'a, K, T>) -> Option<(K, u64, &'a T)>
    // The first job that is left is yielded, with its time.
    // Refuses `iter_gives_the_number`: `next_gives` of `Iter`.
    ensures iter_yields_its_first { IfSome result (λ job. jobs.old ≡ (K.data_of job.0, (job.1, job.2.now)) ∷ jobs.new) }
    ensures iter_ends_where_none_is_left { IfNone result (jobs.old ≡ []) }
{
    jobs.next()
}
