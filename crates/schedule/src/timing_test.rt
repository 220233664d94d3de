// Tests that also tell a time for each task.
ghost use Rattle.std.specs.Prelude.{◌≡◌, ℕ, List, Option};
ghost use Rattle.book.specs.Books.{holds};
ghost use Rattle.book.specs.Keeping.{KeepsRules};
ghost use Rattle.book.specs.Ledger.{Ledger};
ghost use Rattle.schedule.specs.Laws.{Tells};

use crate::test::Test;
use book::book::Book;

/// A test that tells, for each task of a list that passes, a time up to the task's deadline. Book and times stay apart,
/// as in `Test`.
pub trait TimingTest: Test {
    /// What is told to each ledger and each list of times, of the task at each place.
    ghost told: { Self → Ledger → List ℕ → ℕ → Option ℕ };

    /// The time told of the task at a place, counted from 0: some, up to its deadline, exactly where the times pass and the place
    /// is that of a task.
    fn tell(&self, book: &Book, times: &[u32], place: usize) -> Option<u32>
        ensures value { result ≡ told self.now (holds book.now) times.now place }
        ensures tells { Tells (Self.Test.passes self.now (holds book.now) times.now)
            (holds book.now).tasks place result };

    ghost tells: { (test : Self) (l : Ledger) → KeepsRules l → (xs : List ℕ) (place : ℕ)
        → Tells (Self.Test.passes test l xs) l.tasks place (told test l xs place) };
}
