// The calls that make a book and change one. Each answers as the ledger does, and a refusal leaves the whole book as it was.
ghost use Rattle.std.specs.Prelude.{◌≡◌};
ghost use Rattle.book.specs.Books.{amend_answer, append_answer, enter_answer, holds, make_answer, withdraw_answer};
ghost use Rattle.book.specs.Checks.{Did};
ghost use Rattle.book.specs.Held.{given};
ghost use Rattle.book.specs.Ledger.{begun};

use crate::book::Book;
use crate::limits::LARGEST_CACHE;
use crate::new_task::NewTask;
use crate::refusal::Refusal;
use crate::table::Table;
use crate::task::Task;

impl Book {
    /// The built-in book: a cache of 1 set, and no task.
    pub fn new() -> Book
        ensures { holds result ≡ begun 1 }
    {
        Book {
            cache: 1,
            table: Table::empty(),
        }
    }

    /// Puts an empty book of this cache size in place of the one lent.
    pub fn make(&mut self, size: u16) -> Result<(), Refusal>
        ensures { Did holds self.old self.new (make_answer size) result }
    {
        if !(1..=LARGEST_CACHE).contains(&size) {
            return Err(Refusal::Cache);
        }
        *self = Book {
            cache: size,
            table: Table::empty(),
        };
        Ok(())
    }

    /// Adds a task at the place of its number.
    pub fn enter(&mut self, new: NewTask<'_>) -> Result<(), Refusal>
        ensures { Did holds self.old self.new (enter_answer (holds self.old) (given new.entry)) result }
    {
        let task = Task::try_from(new)?;
        self.table.enter(task)
    }

    /// Adds a task behind the last one. It checks as `enter` does, but for the number, which has to be above all others.
    pub fn append(&mut self, new: NewTask<'_>) -> Result<(), Refusal>
        ensures { Did holds self.old self.new (append_answer (holds self.old) (given new.entry)) result }
    {
        let task = Task::try_from(new)?;
        self.table.append(task)
    }

    /// Puts `time` at `class` of the task `number`, and changes no other time or record.
    pub fn amend(&mut self, number: u8, class: u8, time: u32) -> Result<(), Refusal>
        ensures { Did holds self.old self.new (amend_answer (holds self.old) number class time) result }
    {
        self.table.amend(number, usize::from(class), time)
    }

    /// Removes the task `number`.
    pub fn withdraw(&mut self, number: u8) -> Result<(), Refusal>
        ensures { Did holds self.old self.new (withdraw_answer (holds self.old) number) result }
    {
        self.table.withdraw(number)
    }
}
