// The processor demand: what is due by an instant, and whether it is met before an end.
ghost use Rattle.std.specs.Prelude.{◌≡◌, ◌^◌, ◌<◌, ◌≤◌};
ghost use Rattle.schedule.specs.Deciding.{MetBefore};
ghost use Rattle.schedule.specs.Demands.{processor_demand};
ghost use Rattle.schedule.specs.Laws.{Exactly};
ghost use Rattle.schedule.specs.Pairs.{timed_in};

use crate::timed_tasks::TimedTasks;

/// What is due by an instant: the work, and an instant by which all of it is due. 0 is no mark for none:
/// by 0 no work is due, so it is such an instant where there is no work.
#[derive(Clone, Copy)]
struct Due {
    work: u64,
    latest: u64,
}

impl TimedTasks<'_> {
    /// The processor demand of `last` ticks, and an instant up to `last` by which all of it is due. One division serves both.
    #[tactic(auto, using(crate::specs::Lemmas::Counts::dues_some, crate::specs::Lemmas::Counts::dues_none))]
    fn due_by(self, last: u64) -> Due
        requires near { last < 2 ^ 40 }
        requires fits { processor_demand (timed_in self) last < 2 ^ 64 }
        ensures work { result.work ≡ processor_demand (timed_in self.entry) last }
        ensures within { result.latest ≤ last }
        ensures steady { result.work ≤ processor_demand (timed_in self.entry) result.latest }
    {
        let mut work: u64 = 0;
        let mut latest: u64 = 0;
        for (task, time) in self.tasks.iter().zip(self.times) {
            let deadline = u64::from(task.deadline);
            if deadline <= last {
                let period = u64::from(task.period);
                let before = (last - deadline) / period;
                work += (before + 1) * u64::from(*time);
                latest = latest.max(before * period + deadline);
            }
        }
        Due { work, latest }
    }

    /// Whether the demand is met at every instant before `end`. From an instant it goes down to the work that is due by then, since
    /// every instant between the two is met: the demand there is no larger.
    pub(crate) fn is_met_before(self, end: u64) -> bool
        requires near { end < 2 ^ 40 }
        requires fits { processor_demand (timed_in self) end < 2 ^ 64 }
        ensures { Exactly result (MetBefore (timed_in self.entry) end) }
    {
        let mut t = end;
        while t > 0 {
            let due = self.due_by(t - 1);
            if due.work > due.latest {
                return false;
            }
            t = due.work;
        }
        true
    }
}
