// The fixed-priority test by response times.
ghost use Rattle.std.specs.Prelude.{◌≡◌};
ghost use Rattle.book.specs.Books.{holds};
ghost use Rattle.schedule.specs.FixedPriority.{EachResponds, LeastResponse, fixed_priority, fixed_priority_told};
ghost use Rattle.schedule.specs.Laws.{Exactly, Lawful, Tells};
ghost use Rattle.schedule.specs.Lemmas.Fixed.{fixed_lawful, fixed_tells};

use crate::test::Test;
use crate::timed_tasks::TimedTasks;
use crate::timing_test::TimingTest;
use book::book::Book;

/// Pre-emptive scheduling by fixed priorities, the smaller number first: each task's response time is to be within its deadline.
#[derive(Clone, Copy)]
pub struct FixedPriority;

impl Test for FixedPriority {
    ghost passes = { λ _ l xs. fixed_priority l.tasks xs };

    ghost lawful = { λ test. fixed_lawful };

    #[tactic(auto, using(crate::specs::Lemmas::Fixed::fixed_lawful))]
    fn ask(&self, book: &Book, times: &[u32]) -> bool
        ensures value { result ≡ fixed_priority (holds book.now).tasks times.now }
        ensures lawful { Lawful (λ l xs. fixed_priority l.tasks xs) }
        ensures exact { Exactly result (EachResponds (holds book.now).tasks times.now) }
    {
        let timed = TimedTasks::of(book, times);
        if !timed.is_well_shaped() {
            return false;
        }
        // A task responds later than the one before it, by its own time at least: the search starts from there. The loop goes over
        // places, since the place tells which tasks are of higher priority: those before it. A `try_fold` over the places would have
        // to state the requirements of `response_time` on its closure; its goal `callable` stayed open.
        let mut longest = 0;
        for place in 0..timed.tasks.len() {
            let Some(response) = timed.response_time(place, longest) else {
                return false;
            };
            longest = response;
        }
        true
    }
}

impl TimingTest for FixedPriority {
    ghost told = { λ _ l xs place. fixed_priority_told l.tasks xs place };

    ghost tells = { λ test l keeps xs place. fixed_tells l.tasks xs place };

    fn tell(&self, book: &Book, times: &[u32], place: usize) -> Option<u32>
        ensures value { result ≡ fixed_priority_told (holds book.now).tasks times.now place }
        ensures tells { Tells (fixed_priority (holds book.now).tasks times.now) (holds book.now).tasks place result }
        ensures least { LeastResponse (holds book.now).tasks times.now place result }
    {
        let timed = TimedTasks::of(book, times);
        if !self.ask(book, times) {
            return None;
        }
        if place >= timed.tasks.len() {
            return None;
        }
        let response = timed.response_time(place, 0)?;
        Some(response as u32)
    }
}
