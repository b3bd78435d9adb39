//! Jobs of a scheduler that are all visited or taken out, in the order in which they are due.

ghost use Rattle.std.specs.Prelude.{◌≡◌, ◌≤◌, ◌++◌, ◌∷◌, [], ℕ, OnOk, OnErr, IfOk, IfSome, IfNone, not, nat_lt};
ghost use Rattle.std.specs.List.{All, filter};
ghost use Rattle.slotmap_scheduler.specs.Schedule.{Waiting, IsOnce, IsByTime};
ghost use Rattle.scheduler_callers.specs.Ran.{ran_as, taken_as};

use slotmap::DefaultKey;
use slotmap_scheduler::Scheduler;
use std::alloc::{AllocError, Global};

/// Takes out all jobs, in the order of their times, each once. If memory runs out, those taken so far
/// are dropped, and the others still wait.
pub fn run_all(
    scheduler: &mut Scheduler<DefaultKey, u64>,
    alloc: Global,
) -> Result<Vec<(u64, DefaultKey, u64)>, AllocError>
    ensures all { IfOk result (λ ran. ran_as ran.items ≡ scheduler.old.waiting) }
    ensures sorted { IfOk result (λ ran. IsByTime (ran_as ran.items)) }
    ensures once { IfOk result (λ ran. IsOnce (ran_as ran.items)) }
    ensures empty { OnOk result (scheduler.new.waiting ≡ []) }
    ensures others { OnErr result ((ran : Waiting ℕ) × (scheduler.old.waiting ≡ ran ++ scheduler.new.waiting)) }
{
    // Reads the scheduler, which says that its jobs are in order and each handle is there once.
    let _ = scheduler.len();
    let mut ran = Vec::new(alloc);
    while let Some(job) = scheduler.pop_next() {
        ran.push(job)?;
    }
    Ok(ran)
}

/// Takes out the next job, schedules it again after `period`, and returns when it was due: no job that
/// waits then is due earlier. If it can't be scheduled, it is dropped.
pub fn run_again(scheduler: &mut Scheduler<DefaultKey, u64>, period: u64) -> Option<u64>
    ensures floor { IfSome result (λ time. All (λ e. time ≤ e.1.0) scheduler.new.waiting) }
{
    let (time, _, job) = scheduler.pop_next()?;
    match scheduler.schedule(time.saturating_add(period), job) {
        Ok(_) => Some(time),
        Err(_) => Some(time),
    }
}

/// Returns the times of the first two jobs, of which the first is due no later.
pub fn first_two(scheduler: Scheduler<DefaultKey, u64>) -> Option<(u64, u64)>
    ensures { IfSome result (λ two. two.0 ≤ two.1) }
{
    let mut jobs = scheduler.into_iter();
    let (_, first, _) = jobs.next()?;
    let (_, second, _) = jobs.next()?;
    Some((first, second))
}

/// Drops the jobs that are due after `last`. The others keep their order.
pub fn drop_late(scheduler: &mut Scheduler<DefaultKey, u64>, last: u64)
    ensures kept { scheduler.new.waiting ≡ filter (λ e. not (nat_lt last e.1.0)) scheduler.old.waiting }
    ensures turns { scheduler.new.turns ≡ scheduler.old.turns }
{
    scheduler.retain(|_: DefaultKey, time, _| time <= last);
}

/// Takes out the job that is due first, and drops all others.
pub fn take_first(scheduler: &mut Scheduler<DefaultKey, u64>) -> Option<(DefaultKey, u64, u64)>
    ensures first { IfSome result (λ due. (rest : Waiting ℕ) × (scheduler.old.waiting ≡ (due.0, (due.1, due.2)) ∷ rest)) }
    ensures none { IfNone result (scheduler.old.waiting ≡ []) }
    ensures empty { scheduler.new.waiting ≡ [] }
{
    scheduler.drain().next()
}

/// Takes out all jobs, and adds them to a vector in the order in which they are due. If memory runs
/// out, the others are dropped.
pub fn take_all(
    scheduler: &mut Scheduler<DefaultKey, u64>,
    jobs: &mut Vec<(DefaultKey, u64, u64)>,
) -> Result<(), AllocError>
    ensures taken { OnOk result (taken_as jobs.new.items ≡ taken_as jobs.old.items ++ scheduler.old.waiting) }
    ensures empty { scheduler.new.waiting ≡ [] }
{
    for job in scheduler.drain() {
        jobs.push(job)?;
    }
    Ok(())
}
