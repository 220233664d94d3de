// Tasks with their execution times.
ghost use Rattle.std.specs.Prelude.{◌≡◌};
ghost use Rattle.book.specs.Books.{holds};
ghost use Rattle.book.specs.Keeping.{KeepsRules};
ghost use Rattle.schedule.specs.Pairs.{tasks_in, timed_in};

use book::book::Book;
use book::task::Task;

/// Tasks beside the execution times that they are tested at, paired in order; what has no partner is left out of account.
#[derive(Clone, Copy)]
pub struct TimedTasks<'a> {
    pub tasks: &'a [Task],
    pub times: &'a [u32],
}

impl<'a> TimedTasks<'a> {
    /// The tasks of the book beside the times.
    pub fn of(book: &'a Book, times: &'a [u32]) -> TimedTasks<'a>
        ensures tasks { tasks_in result ≡ (holds book.now).tasks }
        ensures times { result.times.now ≡ times.now }
        ensures keeps { KeepsRules (holds book.now) }
    {
        TimedTasks {
            tasks: book.tasks(),
            times,
        }
    }

    /// The pairs alone, both slices cut to one length: so a loop over them has one end to look for.
    pub(crate) fn paired(self) -> TimedTasks<'a>
        ensures { timed_in result ≡ timed_in self.entry }
    {
        let count = self.tasks.len().min(self.times.len());
        TimedTasks {
            tasks: &self.tasks[..count],
            times: &self.times[..count],
        }
    }
}
