//! Calls of each kind on schedulers of numbers. Those that return a `bool` say whether all that may fail succeeded.

use callers_sums::{EMPTY, SIZE, Sum, chance, keep, pick, tell};
use slotmap::DefaultKey;
use slotmap_scheduler::Scheduler;

type Jobs = Scheduler<DefaultKey, u64>;

// Schedules `count` numbers from `first` on, at times below 1000.
fn schedule_all(jobs: &mut Jobs, handles: &mut Vec<DefaultKey>, first: u64, count: u64) -> bool {
    let mut done = jobs.reserve(count as usize).is_ok();
    for turn in 0..count {
        let made = jobs.schedule(chance(turn) % 1000, first.wrapping_add(turn));
        done &= keep(handles, made.ok());
    }
    done
}

// Each job with its time, in the order of the handles, and then by its handle.
fn sum_of(jobs: &Jobs) -> Sum {
    let mut sum = EMPTY;
    for (handle, time, number) in jobs {
        sum.add(time);
        sum.add(*number);
        if jobs.contains(handle) {
            sum.add(jobs.due(handle).unwrap_or(u64::MAX));
            sum.add(jobs[handle]);
        }
    }
    sum
}

// Moves jobs to other times, cancels some, and adds 1 to the numbers of the others.
fn change_some(jobs: &mut Jobs, handles: &[DefaultKey]) -> Sum {
    let mut sum = EMPTY;
    for turn in 0..SIZE {
        let (handle, time) = (pick(handles, turn), chance(turn + SIZE) % 1000);
        sum.add(u64::from(jobs.reschedule(handle, time).is_ok()));
    }
    for turn in 0..SIZE / 4 {
        sum.add(jobs.cancel(pick(handles, turn)).unwrap_or(u64::MAX));
    }
    for handle in handles {
        if let Some(number) = jobs.get_mut(*handle) {
            *number = number.wrapping_add(1);
        }
    }
    sum
}

// Takes the jobs that are due one by one. Each is the next one, whose time and number come before its own number.
fn pop_due(jobs: &mut Jobs, now: u64) -> Sum {
    let mut sum = EMPTY;
    for _ in 0..jobs.len() {
        if let Some((time, next)) = jobs.peek() {
            sum.add(time);
            sum.add_found(jobs.get(next));
        }
        match jobs.pop_due(now) {
            Some((_, number)) => sum.add(number),
            None => break,
        }
    }
    sum
}

// Takes the next job and the next one that is due in turn.
fn pop_with_times(jobs: &mut Jobs, now: u64) -> Sum {
    let mut sum = EMPTY;
    for turn in 0..SIZE / 4 {
        let popped = match turn % 2 {
            0 => jobs.pop_next(),
            _ => jobs.pop_due_with_time(now),
        };
        if let Some((time, _, number)) = popped {
            sum.add(time);
            sum.add(number);
        }
    }
    sum
}

// Takes the jobs that are due at once, and prints their numbers.
fn tell_all_due(rt: &HostRuntime, jobs: &mut Jobs, now: u64) -> bool {
    let mut due: Vec<(DefaultKey, u64)> = Vec::new(rt.alloc());
    let done = jobs.pop_all_due(now, &mut due).is_ok();
    let mut sum = EMPTY;
    for (_, number) in due.as_slice() {
        sum.add(*number);
    }
    done && tell(rt, "all due", sum)
}

// Keeps the jobs whose numbers 3 doesn't divide, and drains them: their times and numbers, in order.
fn drain(jobs: &mut Jobs) -> Sum {
    jobs.retain(|_: DefaultKey, _, number| *number % 3 != 0);
    let mut sum = EMPTY;
    for (_, time, number) in jobs.drain() {
        sum.add(time);
        sum.add(number);
    }
    sum
}

// Takes a scheduler apart: each job with its time, in order.
fn sum_in_order(jobs: Jobs) -> Sum {
    let mut sum = EMPTY;
    for (_, time, number) in jobs {
        sum.add(time);
        sum.add(number);
    }
    sum
}

// Copies a scheduler, and takes the jobs out of both.
fn copy(rt: &HostRuntime, jobs: &mut Jobs) -> bool {
    match jobs.clone() {
        Ok(copy) => {
            tell(rt, "with times", pop_with_times(jobs, 700))
                && tell(rt, "drained", drain(jobs))
                && jobs.is_empty()
                && tell(rt, "in order", sum_in_order(copy))
        }
        Err(_) => false,
    }
}

// The calls on an empty scheduler.
fn run_in(rt: &HostRuntime, jobs: &mut Jobs, handles: &mut Vec<DefaultKey>) -> bool {
    schedule_all(jobs, handles, 0, SIZE)
        && tell(rt, "scheduled", sum_of(jobs))
        && tell(rt, "changes", change_some(jobs, handles.as_slice()))
        && tell(rt, "changed", sum_of(jobs))
        && tell(rt, "due", pop_due(jobs, 250))
        && schedule_all(jobs, handles, SIZE, SIZE / 2)
        && tell_all_due(rt, jobs, 500)
        && copy(rt, jobs)
}

/// Makes the calls, and returns whether those that may fail succeeded.
pub fn run(rt: &HostRuntime) -> bool {
    let mut handles = Vec::new(rt.alloc());
    match Scheduler::with_capacity(rt.alloc(), SIZE as usize) {
        Ok(mut jobs) => run_in(rt, &mut jobs, &mut handles),
        Err(_) => false,
    }
}
