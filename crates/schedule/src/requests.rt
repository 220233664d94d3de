// The work that tasks release in a stretch of time, in the field the request bound.
ghost use Rattle.std.specs.Prelude.{◌+◌, ◌^◌, ◌<◌};
ghost use Rattle.std.specs.Option.{SomeIff};
ghost use Rattle.schedule.specs.Demands.{requested};
ghost use Rattle.schedule.specs.Pairs.{timed_in};

use crate::timed_tasks::TimedTasks;

impl TimedTasks<'_> {
    /// `own` ticks and the work that the tasks, each at its time, release in t ticks at most; none where it does not fit the type.
    #[tactic(auto, using(crate::specs::Lemmas::Counts::releases_up))]
    pub(crate) fn work_requested(self, t: u64, own: u64) -> Option<u64>
        ensures { SomeIff result (own + requested (timed_in self.entry) t < 2 ^ 64)
            (own + requested (timed_in self.entry) t) }
    {
        let mut sum = own;
        let pairs = self.paired();
        for (task, time) in pairs.tasks.iter().zip(pairs.times) {
            // In 128 bits, where nothing overflows, so that one test serves product and sum. The search spends its time here, and
            // is the slower for a checked product, which is made twice, and for `u64::try_from`.
            let jobs = t.div_ceil(u64::from(task.period));
            let more = u128::from(sum) + u128::from(jobs) * u128::from(*time);
            if more > u128::from(u64::MAX) {
                return None;
            }
            sum = more as u64;
        }
        Some(sum)
    }
}
