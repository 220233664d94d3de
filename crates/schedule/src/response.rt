// The response of one job under the tasks of higher priority.
ghost use Rattle.std.specs.Prelude.{◌≡◌, ◌+◌, ◌<◌, ◌≤◌, true, map, length};
ghost use Rattle.book.specs.Ledger.{number_of};
ghost use Rattle.book.specs.Rules.{Ascending};
ghost use Rattle.schedule.specs.Demands.{requested};
ghost use Rattle.schedule.specs.FixedPriority.{response_at};
ghost use Rattle.schedule.specs.Interference.{NotBefore};
ghost use Rattle.schedule.specs.Pairs.{tasks_in};
ghost use Rattle.schedule.specs.Timed.{timed, well_shaped};
ghost use Rattle.std.proofs.Common.{arith};
ghost use Rattle.schedule.specs.Lemmas.Sums.{requested_grows};

use crate::demand::{Demand, least_solution_from};
use crate::timed_tasks::TimedTasks;

/// The demand whose least solution is the response time of a job of `own` ticks, released together with all the tasks given:
/// its own time, and what they release in t ticks.
#[derive(Clone, Copy)]
pub(crate) struct Response {
    pub(crate) own: u32,
    ghost some: { 1 ≤ own },
}

impl Demand for Response {
    ghost asked = { λ d ts xs t. d.own + requested (timed ts xs) t };

    ghost some = { λ demand ts xs t one. omega (arith, demand.some) };

    ghost grows = { λ demand ts xs s t one le. omega (arith, requested_grows (timed ts xs) s t le) };

    fn demand(&self, timed: TimedTasks<'_>, t: u64) -> Option<u64> {
        timed.work_requested(t, u64::from(self.own))
    }
}

impl TimedTasks<'_> {
    /// The response time of the task at a place, where it is within the deadline. The tasks stand in order of priority, so those of
    /// higher priority are those before it. No response is shorter than `longer` and the task's own time.
    pub(crate) fn response_time(self, place: usize, longer: u64) -> Option<u64>
        requires ascending { Ascending (map number_of (tasks_in self)) }
        requires shaped { well_shaped (tasks_in self) self.times.now ≡ true }
        requires here { place < length self.tasks.now }
        requires within { longer ≤ 1000000 }
        requires later { NotBefore (tasks_in self) self.times.now place longer }
        ensures { result ≡ response_at (tasks_in self.entry) self.entry.times.now place }
    {
        let own = self.times[place];
        let job = Response { own };
        let higher = TimedTasks {
            tasks: &self.tasks[..place],
            times: &self.times[..place],
        };
        let deadline = u64::from(self.tasks[place].deadline);
        least_solution_from(&job, higher, longer + u64::from(own), deadline)
    }
}
