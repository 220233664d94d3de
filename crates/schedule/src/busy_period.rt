// The busy period: how long the processor works without a pause when all tasks are released together.
ghost use Rattle.std.specs.Prelude.{max};
ghost use Rattle.schedule.specs.Demands.{requested};
ghost use Rattle.schedule.specs.Timed.{timed};
ghost use Rattle.std.proofs.Common.{arith, rules};
ghost use Rattle.schedule.specs.Lemmas.Sums.{requested_grows};

use crate::demand::Demand;
use crate::timed_tasks::TimedTasks;

/// The demand whose least solution is the synchronous busy period: what the tasks release in t ticks. Where there is no work at
/// all it is 1, since a growing demand is never nothing.
#[derive(Clone, Copy)]
pub struct BusyPeriod;

impl Demand for BusyPeriod {
    ghost asked = { λ _ ts xs t. max 1 (requested (timed ts xs) t) };

    ghost some = { Prim.search rules };

    ghost grows = { λ demand ts xs s t one le. omega (arith, requested_grows (timed ts xs) s t le) };

    fn demand(&self, timed: TimedTasks<'_>, t: u64) -> Option<u64> {
        Some(timed.work_requested(t, 0)?.max(1))
    }
}
