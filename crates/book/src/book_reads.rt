// Reading a book.
ghost use Rattle.std.specs.Prelude.{◌≡◌, ◌≤◌, map, length};
ghost use Rattle.book.specs.Books.{holds};
ghost use Rattle.book.specs.Held.{record_of};
ghost use Rattle.book.specs.Hyperperiod.{IsHyperperiod, hyperperiod};
ghost use Rattle.book.specs.Keeping.{KeepsRules};
ghost use Rattle.book.specs.Ledger.{period_of};

use crate::book::Book;
use crate::task::Task;

impl Book {
    /// The cache size in sets.
    pub fn cache_size(&self) -> u16
        ensures { result ≡ (holds self.now).cache }
    {
        self.cache
    }

    /// How many tasks the book has.
    pub fn task_count(&self) -> usize
        ensures { result ≡ length (holds self.now).tasks }
    {
        self.table.count
    }

    /// The tasks, in ascending order of number. Whatever calls made the book, it keeps the rules.
    pub fn tasks(&self) -> &[Task]
        ensures value { map record_of result.now ≡ (holds self.now).tasks }
        ensures keeps { KeepsRules (holds self.now) }
    {
        self.table.tasks()
    }

    /// The least common multiple of the periods, 1 where there is no task. It is kept, so asking costs nothing.
    pub fn hyperperiod(&self) -> u64
        ensures value { result ≡ hyperperiod (map period_of (holds self.now).tasks) }
        ensures law { IsHyperperiod (map period_of (holds self.now).tasks) result }
        ensures bound { result ≤ 10000000000 }
    {
        self.table.cycle
    }
}
