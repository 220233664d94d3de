// The shape of a list of times.
ghost use Rattle.std.specs.Prelude.{◌≡◌};
ghost use Rattle.schedule.specs.Deciding.{AllTimely};
ghost use Rattle.schedule.specs.Laws.{Exactly};
ghost use Rattle.schedule.specs.Pairs.{tasks_in, timed_in};
ghost use Rattle.schedule.specs.Timed.{well_shaped};

use crate::timed_tasks::TimedTasks;

impl TimedTasks<'_> {
    /// Whether there is one time for each task, and none is 0.
    pub(crate) fn is_well_shaped(self) -> bool
        ensures { result ≡ well_shaped (tasks_in self.entry) self.entry.times.now }
    {
        self.times.len() == self.tasks.len() && self.times.iter().all(|time| *time > 0)
    }

    /// Whether no time exceeds its task's deadline.
    pub(crate) fn is_timely(self) -> bool
        ensures { Exactly result (AllTimely (timed_in self.entry)) }
    {
        self.tasks
            .iter()
            .zip(self.times)
            .all(|(task, time)| *time <= task.deadline)
    }
}
