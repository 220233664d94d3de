// Growing demands, and the search for their least solution.
ghost use Rattle.std.specs.Prelude.{◌≡◌, ℕ, ◌^◌, ◌<◌, ◌≤◌, List};
ghost use Rattle.std.specs.Option.{SomeIff};
ghost use Rattle.book.specs.Ledger.{TaskRecord};
ghost use Rattle.schedule.specs.Least.{Least};
ghost use Rattle.schedule.specs.Pairs.{tasks_in};

use crate::timed_tasks::TimedTasks;

/// A growing demand: for each t ≥ 1 the ticks of work that t ticks ask for, at least 1, and never fewer as t grows.
pub trait Demand {
    ghost asked: { Self → List TaskRecord → List ℕ → ℕ → ℕ };

    /// The demand at t, or none where it does not fit the type.
    fn demand(&self, timed: TimedTasks<'_>, t: u64) -> Option<u64>
        ensures { SomeIff result (asked self.now (tasks_in timed.entry) timed.entry.times.now t < 2 ^ 64)
            (asked self.now (tasks_in timed.entry) timed.entry.times.now t) };

    ghost some: { (demand : Self) (ts : List TaskRecord) (xs : List ℕ) (t : ℕ) → 1 ≤ t → 1 ≤ asked demand ts xs t };

    ghost grows: { (demand : Self) (ts : List TaskRecord) (xs : List ℕ) (s t : ℕ) → 1 ≤ s → s ≤ t
        → asked demand ts xs s ≤ asked demand ts xs t };
}

/// The least t from 1 to the limit at which t ticks ask for t ticks of work, or none.
pub fn least_solution<D: Demand>(demand: &D, timed: TimedTasks<'_>, limit: u64) -> Option<u64>
    ensures { Least (D.Demand.asked demand.now (tasks_in timed.entry) timed.entry.times.now) limit result }
{
    least_solution_from(demand, timed, 1, limit)
}

/// The same from a start that no solution is below. The demand at t never falls behind t on the way, so no solution is passed.
pub(crate) fn least_solution_from<D: Demand>(
    demand: &D,
    timed: TimedTasks<'_>,
    start: u64,
    limit: u64,
) -> Option<u64>
    requires some { 1 ≤ start }
    requires early { (s : ℕ) → 1 ≤ s → s ≡ D.Demand.asked demand.now (tasks_in timed) timed.times.now s → start ≤ s }
    ensures { Least (D.Demand.asked demand.now (tasks_in timed.entry) timed.entry.times.now) limit result }
{
    let mut t = start;
    while t <= limit {
        let next = demand.demand(timed, t)?;
        if next == t {
            return Some(t);
        }
        t = next;
    }
    None
}
