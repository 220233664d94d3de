// Entering, amending and withdrawing a task of a table.
ghost use Rattle.std.specs.Prelude.{◌≡◌, ◌≤◌, [], nat_lt};
ghost use Rattle.book.specs.Amending.{amend_tasks, withdraw_tasks};
ghost use Rattle.book.specs.Books.{records_in, used};
ghost use Rattle.book.specs.Checks.{Did, judged};
ghost use Rattle.book.specs.Entering.{append_last, enter_among, last_number, room_checks};
ghost use Rattle.book.specs.Held.{record_of};
ghost use Rattle.book.specs.Places.{Between, Found};
ghost use Rattle.std.specs.List.{insert};

use crate::limits::{LONGEST_CYCLE, MOST_TASKS};
use crate::multiple::lcm;
use crate::refusal::Refusal;
use crate::slots::{hyperperiod, insert_at, remove_at};
use crate::table::Table;
use crate::task::Task;

impl Table {
    /// The table of no task.
    pub(crate) fn empty() -> Table
        ensures { records_in result ≡ [] }
    {
        Table {
            tasks: [Task::blank(); MOST_TASKS],
            count: 0,
            cycle: 1,
        }
    }

    /// The tasks, in ascending order of number.
    pub(crate) fn tasks(&self) -> &[Task]
        ensures { result.now ≡ used self.now }
    {
        &self.tasks[..self.count]
    }

    /// The place of the task `number`, or else the place where it would go.
    fn find(&self, number: u8) -> Result<usize, usize>
        ensures { Found self.now number result }
    {
        self.tasks()
            .binary_search_by_key(&number, |task| task.number)
    }

    /// Whether a task of this number would stand behind all others.
    fn is_behind_all(&self, number: u8) -> bool
        requires { 1 ≤ number }
        ensures { result ≡ nat_lt (last_number (records_in self.now)) number }
    {
        self.tasks().last().is_none_or(|last| last.number < number)
    }

    /// Puts the task at a place, if there is room for it.
    fn insert(&mut self, at: usize, task: Task) -> Result<(), Refusal>
        requires { Between self.old task.number at }
        ensures { Did records_in self.old self.new
            (judged (room_checks (record_of task) (records_in self.old)) (insert (records_in self.old) at (record_of task))) result }
    {
        let count = self.count;
        if count >= MOST_TASKS {
            return Err(Refusal::Full);
        }
        let cycle = lcm(task.period, self.cycle);
        if cycle > LONGEST_CYCLE {
            return Err(Refusal::Cycle);
        }
        insert_at(&mut self.tasks, count, at, task);
        self.count = count + 1;
        self.cycle = cycle;
        Ok(())
    }

    /// Takes the task in at the place of its number.
    pub(crate) fn enter(&mut self, task: Task) -> Result<(), Refusal>
        ensures { Did records_in self.old self.new (enter_among (record_of task) (records_in self.old)) result }
    {
        let Err(at) = self.find(task.number) else {
            return Err(Refusal::Taken);
        };
        self.insert(at, task)
    }

    /// Takes the task in behind the last one.
    pub(crate) fn append(&mut self, task: Task) -> Result<(), Refusal>
        ensures { Did records_in self.old self.new (append_last (record_of task) (records_in self.old)) result }
    {
        if !self.is_behind_all(task.number) {
            return Err(Refusal::Order);
        }
        let count = self.count;
        self.insert(count, task)
    }

    /// Puts `time` at `class` of the task `number`: one record of the array is lent to be changed. It is lent by way of `tasks`,
    /// since the check stops at `self.tasks[at].amend(..)` with a bug of its own.
    pub(crate) fn amend(&mut self, number: u8, class: usize, time: u32) -> Result<(), Refusal>
        ensures { Did records_in self.old self.new (amend_tasks number class time (records_in self.old)) result }
    {
        let Ok(at) = self.find(number) else {
            return Err(Refusal::Unknown);
        };
        let tasks = &mut self.tasks;
        tasks[at].amend(class, time)
    }

    /// Takes the task `number` away.
    pub(crate) fn withdraw(&mut self, number: u8) -> Result<(), Refusal>
        ensures { Did records_in self.old self.new (withdraw_tasks number (records_in self.old)) result }
    {
        let Ok(at) = self.find(number) else {
            return Err(Refusal::Unknown);
        };
        let count = self.count;
        remove_at(&mut self.tasks, count, at);
        self.count = count - 1;
        self.cycle = hyperperiod(&self.tasks[..count - 1]);
        Ok(())
    }
}
