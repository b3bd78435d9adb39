//! Jobs of a scheduler that are taken out, put off, and scheduled again.

ghost use Rattle.std.specs.Prelude.{◌≡◌, ◌≢◌, ◌+◌, ◌++◌, ◌∷◌, ◌<◌, ◌≤◌, ℕ, Some, IfSome, IfNone, is_some, IfOk, length, option_map, true, false};
ghost use Rattle.std.specs.List.{All};
ghost use Rattle.slotmap.specs.Words.{Key as KeyOf, IsLive, is_last};
ghost use Rattle.slotmap_scheduler.specs.Schedule.{Waiting, job_of, last_turn};

use slotmap::{DefaultKey, ReserveError};
use slotmap_scheduler::Scheduler;
use std::alloc::Global;

/// Takes out all jobs that are due. The others still wait. It returns the sum of their values, of which
/// no clause speaks.
pub fn run_due(scheduler: &mut Scheduler<DefaultKey, u64>, now: u64) -> u64
    ensures taken { (due : Waiting ℕ) × (scheduler.old.waiting ≡ due ++ scheduler.new.waiting) × All (λ e. e.1.0 ≤ now) due }
    ensures none { All (λ e. now < e.1.0) scheduler.new.waiting }
{
    let mut total: u64 = 0;
    while let Some((_, job)) = scheduler.pop_due(now) {
        total = total.wrapping_add(job);
    }
    total
}

/// Takes out the next job, if it is due. No job that is left is due before it.
pub fn run_next(scheduler: &mut Scheduler<DefaultKey, u64>, now: u64) -> Option<u64>
    ensures least { IfSome result (λ job. (time : ℕ) × (handle : KeyOf) × (scheduler.old.waiting ≡ (handle, (time, job)) ∷ scheduler.new.waiting)
        × All (λ e. time ≤ e.1.0) scheduler.new.waiting) }
{
    let (_, job) = scheduler.pop_due(now)?;
    Some(job)
}

/// Puts a job off, and returns when it is due then. All other jobs stay. It returns `None`, and changes
/// nothing, if no job waits under the handle, or if the scheduler has no turn left.
pub fn put_off(
    scheduler: &mut Scheduler<DefaultKey, u64>,
    handle: DefaultKey,
    by: u64,
) -> Option<u64>
    ensures due { IfSome result (λ time. option_map (λ due. due.0) (job_of handle scheduler.new.waiting) ≡ Some time) }
    ensures others { (q : KeyOf) → q ≢ handle → job_of q scheduler.new.waiting ≡ job_of q scheduler.old.waiting }
    ensures as_many { length scheduler.new.waiting ≡ length scheduler.old.waiting }
    ensures unchanged { IfNone result (scheduler.new ≡ scheduler.old) }
{
    let time = scheduler.due(handle)?.saturating_add(by);
    match scheduler.reschedule(handle, time) {
        Ok(()) => Some(time),
        Err(_) => None,
    }
}

/// Cancels a job. One job less waits, and the others stay. It returns `false`, and changes nothing, if no
/// job waits under the handle.
pub fn give_up(scheduler: &mut Scheduler<DefaultKey, u64>, handle: DefaultKey) -> bool
    ensures which { result ≡ is_some (job_of handle scheduler.old.waiting) }
    ensures one_less { result ≡ true → length scheduler.new.waiting + 1 ≡ length scheduler.old.waiting }
    ensures others { (q : KeyOf) → q ≢ handle → job_of q scheduler.new.waiting ≡ job_of q scheduler.old.waiting }
    ensures unchanged { result ≡ false → scheduler.new ≡ scheduler.old }
{
    scheduler.cancel(handle).is_some()
}

/// Removes all jobs, and schedules as many new ones. It can't fail, and the capacity stays.
///
/// No slot may be retired by it, so no handle has the last version of its slot.
pub fn fill_again(scheduler: &mut Scheduler<DefaultKey, u64>, time: u64)
    requires not_last { (k : KeyOf) → IsLive scheduler.old.handles k → is_last k ≡ false }
    requires turns { scheduler.old.turns + length scheduler.old.waiting ≤ last_turn }
    ensures filled { length scheduler.new.waiting ≡ length scheduler.old.waiting }
    ensures capacity { scheduler.new.handles.capacity ≡ scheduler.old.handles.capacity }
{
    let count = scheduler.len();
    scheduler.clear();
    for _ in 0..count {
        let _ = scheduler.schedule(time, 0);
    }
}

/// Makes a scheduler with room for two jobs, fills it, and fills it again. Once there is a scheduler,
/// this can't fail.
pub fn fill_twice(alloc: Global) -> Result<Scheduler<DefaultKey, u64>, ReserveError>
    ensures { IfOk result (λ scheduler. length scheduler.waiting ≡ 2) }
{
    let mut scheduler = Scheduler::with_capacity(alloc, 2)?;
    let _ = scheduler.schedule(5, 1);
    let _ = scheduler.schedule(7, 2);
    fill_again(&mut scheduler, 9);
    Ok(scheduler)
}
