// How far the earliest-deadline test has to look.
ghost use Rattle.std.specs.Prelude.{◌≡◌, ◌<◌, ◌≤◌, map, length};
ghost use Rattle.book.specs.Classes.{work_in};
ghost use Rattle.book.specs.Hyperperiod.{AllDivide};
ghost use Rattle.book.specs.Ledger.{period_of};
ghost use Rattle.schedule.specs.Deciding.{AllTimely, Horizon, Suffices, early_work};
ghost use Rattle.schedule.specs.Pairs.{tasks_in, timed_in};

use crate::busy_period::BusyPeriod;
use crate::demand::least_solution;
use crate::timed_tasks::TimedTasks;

/// The work of one cycle, in ticks, and the same with each task's share times the ticks by which its deadline comes early.
#[derive(Clone, Copy)]
struct Load {
    work: u64,
    early: u64,
}

impl TimedTasks<'_> {
    /// The load of the tasks in a cycle. It fits: no time exceeds its period, so no task's share exceeds the cycle.
    fn cycle_load(self, cycle: u64) -> Load
        requires few { length self.tasks.now ≤ 16 }
        requires timely { AllTimely (timed_in self) }
        requires within { cycle ≤ 10000000000 }
        ensures work { result.work ≡ work_in cycle (tasks_in self.entry) self.entry.times.now }
        ensures small { result.early ≤ 160000000000000000 }
        ensures early { result.early ≡ early_work cycle (timed_in self.entry) }
    {
        let mut work = 0;
        let mut early = 0;
        for (task, time) in self.tasks.iter().zip(self.times) {
            let share = cycle / u64::from(task.period) * u64::from(*time);
            work += share;
            early += u64::from(task.period - task.deadline) * share;
        }
        Load { work, early }
    }

    /// The end of the synchronous busy period, or the limit where it does not end by then. It suffices to look so far where it
    /// suffices to look up to the limit.
    fn busy_end(self, limit: u64) -> u64
        requires some { 1 ≤ limit }
        ensures some { 1 ≤ result }
        ensures within { result ≤ limit }
        ensures suffices { Suffices (timed_in self.entry) limit → Suffices (timed_in self.entry) result }
    {
        least_solution(&BusyPeriod, self, limit).unwrap_or(limit)
    }

    /// An instant up to the cycle, a multiple of the periods, such that looking at the instants before it suffices; none where the
    /// work of the cycle exceeds it. In a cycle with idle ticks the demand stays below a line that falls behind the time; where the
    /// line is far off the busy period may end before.
    pub(crate) fn horizon(self, cycle: u64) -> Option<u64>
        requires few { length self.tasks.now ≤ 16 }
        requires timely { AllTimely (timed_in self) }
        requires within { cycle ≤ 10000000000 }
        requires some { 1 ≤ cycle }
        requires divides { AllDivide (map period_of (tasks_in self)) cycle }
        ensures { Horizon (tasks_in self.entry) self.entry.times.now cycle result }
    {
        let load = self.cycle_load(cycle);
        if load.work > cycle {
            return None;
        }
        if load.work == cycle {
            return Some(self.busy_end(cycle));
        }
        let limit = cycle.min(load.early / (cycle - load.work) + 1);
        Some(self.busy_end(limit))
    }
}
