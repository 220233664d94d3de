// The earliest-deadline test by processor demand.
ghost use Rattle.std.specs.Prelude.{◌≡◌};
ghost use Rattle.book.specs.Books.{holds};
ghost use Rattle.schedule.specs.EarliestDeadline.{AlwaysMet, earliest_deadline};
ghost use Rattle.schedule.specs.Laws.{Exactly, Lawful};
ghost use Rattle.schedule.specs.Lemmas.Earliest.{earliest_lawful};

use crate::test::Test;
use crate::timed_tasks::TimedTasks;
use book::book::Book;

/// Pre-emptive scheduling by deadlines, the earliest first: the processor demand of no stretch of time is to exceed it.
#[derive(Clone, Copy)]
pub struct EarliestDeadline;

impl Test for EarliestDeadline {
    ghost passes = { λ _ l xs. earliest_deadline l.tasks xs };

    ghost lawful = { λ test. earliest_lawful };

    #[tactic(auto, using(crate::specs::Lemmas::Earliest::earliest_lawful))]
    fn ask(&self, book: &Book, times: &[u32]) -> bool
        ensures value { result ≡ earliest_deadline (holds book.now).tasks times.now }
        ensures lawful { Lawful (λ l xs. earliest_deadline l.tasks xs) }
        ensures exact { Exactly result (AlwaysMet (holds book.now).tasks times.now) }
    {
        let timed = TimedTasks::of(book, times);
        if !timed.is_well_shaped() {
            return false;
        }
        if !timed.is_timely() {
            return false;
        }
        let Some(end) = timed.horizon(book.hyperperiod()) else {
            return false;
        };
        timed.is_met_before(end)
    }
}
