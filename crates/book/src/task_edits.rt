// Making a task from its parts, and amending one time of it.
ghost use Rattle.std.specs.Prelude.{◌≡◌};
ghost use Rattle.book.specs.Amending.{amend_checks, with_time};
ghost use Rattle.book.specs.Checks.{Did, Made, judged};
ghost use Rattle.book.specs.Entering.{task_checks};
ghost use Rattle.book.specs.Held.{Kept, blank, fields, given, record_of};

use crate::limits::LONGEST_PERIOD;
use crate::new_task::NewTask;
use crate::refusal::Refusal;
use crate::row::Row;
use crate::task::Task;

/// The task of these parts, if they keep the rules of a task.
impl TryFrom<NewTask<'_>> for Task {
    type Error = Refusal;

    ghost try_from_gives = { λ new task. Made record_of (judged (task_checks (given new)) (given new)) task };

    fn try_from(new: NewTask<'_>) -> Result<Task, Refusal> {
        if new.number == 0 {
            return Err(Refusal::Number);
        }
        if !(1..=LONGEST_PERIOD).contains(&new.period) {
            return Err(Refusal::Period);
        }
        if !(1..=new.period).contains(&new.deadline) {
            return Err(Refusal::Deadline);
        }
        let row = Row::try_from(new.times)?;
        Ok(Task {
            number: new.number,
            period: new.period,
            deadline: new.deadline,
            row,
        })
    }
}

impl Task {
    /// The task that stands in an unused slot.
    pub(crate) fn blank() -> Task
        ensures { fields result ≡ blank }
    {
        Task {
            number: 1,
            period: 1,
            deadline: 1,
            row: Row::blank(),
        }
    }

    /// Puts `time` at `class` of the row, if the row as it would be keeps the rules.
    pub(crate) fn amend(&mut self, class: usize, time: u32) -> Result<(), Refusal>
        ensures kept { Kept self.old self.new }
        ensures answer { Did record_of self.old self.new
            (judged (amend_checks (record_of self.old).times class time) (with_time class time (record_of self.old))) result }
    {
        self.row.amend(class, time)
    }
}
