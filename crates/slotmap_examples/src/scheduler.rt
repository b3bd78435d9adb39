//! Jobs that can be cancelled by their handles.

ghost use Rattle.std.specs.Prelude.{◌≡◌, ◌≢◌, ◌<◌, ◌≤◌, IsTrue, IfOk, IfSome, Some, None, false, nat_lt, if◌then◌else◌};
ghost use Rattle.std.specs.Option.{option_and_then};
ghost use Rattle.std.specs.FinMap as map;
ghost use Rattle.slotmap.specs.Words.{Key as KeyOf, IsSpent, KeepsSpent, IsNew};

use slotmap::{DefaultKey, InsertError, ReserveError, SlotMap};
use std::alloc::Global;
use std::marker::Model;

/// Jobs that wait for their time, each under a handle. A contract sees what the map holds: the time
/// of each job.
#[derive(Drop)]
pub struct Scheduler {
    times: SlotMap<DefaultKey, u64>,
}

impl Model for Scheduler {
    ghost use Rattle.std.specs.Prelude.{ℕ};
    ghost use Rattle.std.specs.Coded.{coded_ℕ};
    ghost use Rattle.slotmap.specs.Words.{Content, content_code};

    ghost Value = { Content ℕ };

    ghost coded = { content_code coded_ℕ };

    ghost view = { λ scheduler. scheduler.times };
}

impl Scheduler {
    /// A scheduler with no job.
    pub fn new(alloc: Global) -> Result<Scheduler, ReserveError>
        ensures { IfOk result IsNew }
    {
        let times = SlotMap::new(alloc)?;
        Ok(Scheduler { times })
    }

    /// Adds a job that waits for this time.
    pub fn add(&mut self, time: u64) -> Result<DefaultKey, InsertError<u64>>
        ensures waits { IfOk result (λ handle. map.get self.new.live handle ≡ Some time) }
        ensures others { IfOk result (λ handle. (other : KeyOf) → other ≢ handle
            → map.get self.new.live other ≡ map.get self.old.live other) }
        ensures stale { KeepsSpent self.old self.new }
    {
        self.times.insert(time)
    }

    /// Cancels a job, and returns whether it was still waiting. Its handle is stale from then on.
    pub fn cancel(&mut self, handle: DefaultKey) -> bool
        ensures which { result ≡ map.contains_key self.old.live handle }
        ensures gone { map.contains_key self.new.live handle ≡ false }
        ensures for_good { IsTrue result → IsSpent self.new handle }
        ensures others { (other : KeyOf) → other ≢ handle
            → map.get self.new.live other ≡ map.get self.old.live other }
        ensures stale { KeepsSpent self.old self.new }
    {
        self.times.remove(handle).is_some()
    }

    /// Removes the jobs whose time has come.
    pub fn tick(&mut self, now: u64)
        ensures left { (k : KeyOf) → map.get self.new.live k ≡ option_and_then
            (λ time. if nat_lt now time then Some time else None) (map.get self.old.live k) }
        ensures stale { KeepsSpent self.old self.new }
    {
        self.times.retain(|_, time| *time > now);
    }
}
