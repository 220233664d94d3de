// Schedulability tests and what each owes.
ghost use Rattle.std.specs.Prelude.{◌≡◌, ℕ, Bool, List};
ghost use Rattle.book.specs.Books.{holds};
ghost use Rattle.book.specs.Ledger.{Ledger};
ghost use Rattle.schedule.specs.Laws.{Lawful};

use book::book::Book;

/// A schedulability test: yes (the list passes) or no to a book and one execution time for each of its tasks.
/// Book and times stay apart here: a caller keeps the one and varies the other, and a `TimedTasks` of any tasks would lose the
/// rules that a book keeps.
pub trait Test {
    /// The meaning: the answer to each ledger and each list of times.
    ghost passes: { Self → Ledger → List ℕ → Bool };

    /// Whether the times pass. It takes any list, refuses nothing and changes nothing.
    fn ask(&self, book: &Book, times: &[u32]) -> bool
        ensures value { result ≡ passes self.now (holds book.now) times.now }
        ensures lawful { Lawful (passes self.now) };

    ghost lawful: { (test : Self) → Lawful (passes test) };
}
